//! The numbers of columns of products whose sides are swapped.

ghost use Rattle.std.specs.Prelude.{◌≡◌, ◌++◌, IfOk, OnOk};
ghost use Rattle.std.specs.List.{range_with_len};
ghost use Rattle.push_select.specs.Replacing.{columns_swapped};

use span_token::OutOfMemory;
use std::alloc::Global;

/// The columns of a product, by the numbers that they have where its sides, of so many columns, are swapped.
pub(crate) fn columns_swapped(
    alloc: Global,
    first: u32,
    second: u32,
) -> Result<Vec<u32>, OutOfMemory>
    ensures { IfOk result (λ shown. shown.items ≡ columns_swapped first second) }
{
    let mut shown = Vec::new(alloc);
    push_numbers(&mut shown, second, first)?;
    push_numbers(&mut shown, 0, second)?;
    Ok(shown)
}

/// Puts so many numbers from one on behind the others. More than `u32` can count are want of memory.
pub(crate) fn push_numbers(
    numbers: &mut Vec<u32>,
    first: u32,
    count: u32,
) -> Result<(), OutOfMemory>
    ensures { OnOk result (numbers.new.items ≡ numbers.old.items ++ range_with_len first count) }
{
    let Some(_end) = first.checked_add(count) else {
        return Err(OutOfMemory);
    };
    for n in 0..count {
        numbers.push(first + n)?;
    }
    Ok(())
}
