//! The patterns of a program, each compiled once.

ghost use Rattle.std.specs.Prelude.{◌≡◌, ◌++◌, ◌∷◌, [], ◌+◌, ◌<◌, ◌^◌, List, IfOk, OnOk, length};
ghost use Rattle.aql_tables.specs.declared.patterns.Verdict.TheVariants.{Number};
ghost use Rattle.std.specs.Str.{bytes_eq};
ghost use Rattle.aql_tables.specs.Kept.{entry_of, IsSet, HoldsPatterns};
ghost use Rattle.aql_tables.specs.Mentions.{Mention, of_pattern};
ghost use Rattle.aql_tables.specs.Verdicts.{pattern_fault};
ghost use Rattle.aql_tables.specs.Verdicts as spec;

use crate::entries::{next_number, set_entry};
use aql_regex_extract::{Pattern, PatternFault, compile_pattern};
use indexmap::IndexMap;
use span_token::{Failure, OutOfMemory};
use std::alloc::Global;

/// What is known of a text that stands as a pattern.
#[derive(Clone, Copy, Debug)]
pub(crate) enum Verdict {
    /// It is a pattern, with this number among the patterns, from 0.
    Number(u32),
    Fault(PatternFault),
}

/// The patterns of some mentions, and what is known of each text that stands as one.
#[derive(Drop)]
pub(crate) struct Patterns {
    pub(crate) verdicts: IndexMap<String, Verdict>,
    pub(crate) compiled: Vec<Pattern>,
}

impl Patterns {
    /// No pattern.
    pub(crate) fn new(alloc: Global) -> Patterns
        ensures { HoldsPatterns [] result }
    {
        Patterns {
            verdicts: IndexMap::new(alloc),
            compiled: Vec::new(alloc),
        }
    }

    /// What is known of the text.
    pub(crate) fn verdict(&self, text: &str) -> Option<Verdict>
        ensures { result ≡ entry_of self.now.verdicts text.now }
    {
        self.verdicts.get(text).copied()
    }

    /// Adds a text that stands as a pattern.
    pub(crate) fn add(&mut self, alloc: Global, text: &str) -> Result<(), OutOfMemory>
        ensures { (seen : List Mention) → HoldsPatterns seen self.old
            → OnOk result (HoldsPatterns (seen ++ of_pattern text.now ∷ []) self.new) }
    {
        match self.verdict(text) {
            Some(_) => Ok(()),
            None => match compile_pattern(alloc, text) {
                Ok(pattern) => self.keep(alloc, text, pattern),
                Err(Failure::Fault(fault)) => {
                    set_entry(alloc, &mut self.verdicts, text, Verdict::Fault(fault))
                }
                Err(Failure::OutOfMemory) => Err(OutOfMemory),
            },
        }
    }

    /// Puts a pattern after the others.
    fn keep(&mut self, alloc: Global, text: &str, pattern: Pattern) -> Result<(), OutOfMemory>
        ensures compiled { OnOk result (self.new.compiled.items ≡ self.old.compiled.items ++ pattern ∷ []) }
        ensures set { OnOk result (IsSet bytes_eq (entry_of self.old.verdicts) (entry_of self.new.verdicts) text.now (Number (length self.old.compiled.items))) }
        ensures short { OnOk result (length self.old.compiled.items + 1 < 2 ^ 32) }
    {
        let number = next_number(self.compiled.len())?;
        set_entry(alloc, &mut self.verdicts, text, Verdict::Number(number))?;
        self.compiled.push(pattern)?;
        Ok(())
    }
}

/// Why a text is no pattern, if it is none.
pub(crate) fn fault_of(alloc: Global, text: &str) -> Result<Option<PatternFault>, OutOfMemory>
    ensures { IfOk result (λ fault. fault ≡ pattern_fault text.now) }
{
    match compile_pattern(alloc, text) {
        Ok(_) => Ok(None),
        Err(Failure::Fault(fault)) => Ok(Some(fault)),
        Err(Failure::OutOfMemory) => Err(OutOfMemory),
    }
}

/// The number of groups of a pattern, without group 0; 0 where the text is no pattern.
pub(crate) fn groups_of(alloc: Global, text: &str) -> Result<u32, OutOfMemory>
    ensures { IfOk result (λ count. count ≡ spec.groups_of text.now) }
{
    match compile_pattern(alloc, text) {
        Ok(pattern) => Ok(pattern.group_count()),
        Err(Failure::Fault(_)) => Ok(0),
        Err(Failure::OutOfMemory) => Err(OutOfMemory),
    }
}
