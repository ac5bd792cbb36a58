//! Names that are given twice.

ghost use Rattle.std.specs.Prelude.{◌≡◌, [], map, option_map, IfOk, OnOk, IfErr};
ghost use Rattle.view_graph.specs.Indexes.{AddsText, has};
ghost use Rattle.clause_types.specs.declared.fault.TypeRule.TheVariants as rule;
ghost use Rattle.clause_types.specs.Faults as spec;
ghost use Rattle.clause_types.specs.Refusals.{IsFirst};
ghost use Rattle.clause_types.specs.Views.{label_of};

use crate::fault::Breach;
use crate::refusals::{duplicate_alias, duplicate_column};
use indexmap::IndexSet;
use span_token::{Failure, OutOfMemory};
use std::alloc::Global;

/// A name with the number, from 0, of its token.
#[derive(Clone, Copy, Debug)]
pub struct Label<'a> {
    pub text: &'a str,
    pub at: u32,
}

/// Refuses an alias that is given twice: `DuplicateAlias`, at the first that an earlier one equals.
pub fn refuse_aliases(alloc: Global, names: &[Label<'_>]) -> Result<(), Failure<Breach>>
    ensures ok { OnOk result (spec.duplicate rule.DuplicateAlias (map label_of names.now) ≡ []) }
    ensures fault { IfErr result (IsFirst (spec.duplicate rule.DuplicateAlias (map label_of names.now))) }
{
    match first_repeated(alloc, names)? {
        None => Ok(()),
        Some(name) => Err(duplicate_alias(alloc, name.at, name.text)),
    }
}

/// Refuses an output name that is given twice.
pub(crate) fn refuse_columns(alloc: Global, names: &[Label<'_>]) -> Result<(), Failure<Breach>>
    ensures ok { OnOk result (spec.duplicate rule.DuplicateColumn (map label_of names.now) ≡ []) }
    ensures fault { IfErr result (IsFirst (spec.duplicate rule.DuplicateColumn (map label_of names.now))) }
{
    match first_repeated(alloc, names)? {
        None => Ok(()),
        Some(name) => Err(duplicate_column(alloc, name.at, name.text)),
    }
}

/// The first name that an earlier one equals.
fn first_repeated<'a>(alloc: Global, names: &[Label<'a>]) -> Result<Option<Label<'a>>, OutOfMemory>
    ensures { IfOk result (λ found. option_map label_of found ≡ spec.first (spec.repeated [] (map label_of names.now))) }
{
    let mut seen = IndexSet::new(alloc);
    for name in names {
        if !add_name(&mut seen, name.text)? {
            return Ok(Some(*name));
        }
    }
    Ok(None)
}

/// Adds a name; false where it is there.
fn add_name<'a>(names: &mut IndexSet<&'a str>, name: &'a str) -> Result<bool, OutOfMemory>
    ensures { IfOk result (AddsText (has names.old) (has names.new) name.now) }
{
    Ok(names.insert(name)?)
}
