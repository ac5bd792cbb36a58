//! Maps from texts, and the numbers that they keep.

ghost use Rattle.std.specs.Prelude.{◌≡◌, ◌+◌, ◌<◌, ◌^◌, IfOk, OnOk};
ghost use Rattle.std.specs.Str.{bytes_eq};
ghost use Rattle.aql_tables.specs.Kept.{entry_of, IsSet};

use indexmap::IndexMap;
use span_token::OutOfMemory;
use std::alloc::Global;

/// Sets what a map has at a text.
pub(crate) fn set_entry<V: Copy>(
    alloc: Global,
    entries: &mut IndexMap<String, V>,
    text: &str,
    value: V,
) -> Result<(), OutOfMemory>
    ensures { OnOk result (IsSet bytes_eq (entry_of entries.old) (entry_of entries.new) text.now value) }
{
    let key = String::from_str(alloc, text)?;
    entries.insert(key, value)?;
    Ok(())
}

/// The number behind so many others, from 0. More than a `u32` counts are want of memory.
pub(crate) fn next_number(others: usize) -> Result<u32, OutOfMemory>
    ensures number { IfOk result (λ number. number ≡ others) }
    ensures room { OnOk result (others + 1 < 2 ^ 32) }
{
    if others < u32::MAX as usize {
        Ok(others as u32)
    } else {
        Err(OutOfMemory)
    }
}
