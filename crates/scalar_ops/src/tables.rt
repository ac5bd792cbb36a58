ghost use Rattle.std.specs.Prelude.{◌≡◌, IfOk};

use aql_regex_extract::Pattern;
use dict_match::{DictPass, DictUse};
use span_token::OutOfMemory;
use std::alloc::Global;
use std::marker::Model;

/// The patterns and dictionaries that the operators of a program name by their numbers, compiled once
/// and shared by all who evaluate its expressions.
///
/// Contracts see the texts of the patterns, and the dictionaries.
#[derive(Drop)]
pub struct Tables {
    pub(crate) patterns: Vec<Pattern>,
    pub(crate) pass: DictPass,
}

impl Model for Tables {
    ghost use Rattle.scalar_ops.specs.Tables.{Lists};

    ghost Value = { Lists };

    ghost view = { λ tables. record { patterns = tables.patterns.items; dicts = tables.pass } };
}

impl Tables {
    /// The tables of these patterns and dictionaries, each by its number from 0. The dictionaries are
    /// copied.
    pub fn new(
        alloc: Global,
        patterns: Vec<Pattern>,
        dicts: &[DictUse],
    ) -> Result<Tables, OutOfMemory>
        ensures patterns { IfOk result (λ tables. tables.patterns ≡ patterns.items) }
        ensures dicts { IfOk result (λ tables. tables.dicts ≡ dicts.now) }
    {
        let pass = DictPass::new(alloc, dicts)?;
        Ok(Tables { patterns, pass })
    }
}
