//! The patterns and dictionaries of a program.

ghost use Rattle.std.specs.Prelude.{◌≡◌, ◌++◌, ◌∷◌, [], List, map, IfOk, OnOk};
ghost use Rattle.std.specs.Str.{bytes_eq};
ghost use Rattle.aql_syntax.specs.Views.{statement_of};
ghost use Rattle.aql_tables.specs.Kept.{mention_of, HoldsDicts, HoldsPatterns};
ghost use Rattle.aql_tables.specs.Mentions as spec;
ghost use Rattle.aql_tables.specs.Numbers.{number_among};
ghost use Rattle.aql_tables.specs.Programs.{collected, same_dict, ListsMentions};
ghost use Rattle.aql_tables.specs.Verdicts as verdict;

use crate::dicts::Dicts;
use crate::mention::Mention;
use crate::patterns::{Patterns, Verdict, fault_of, groups_of};
use crate::walk::mentions;
use aql_regex_extract::PatternFault;
use scalar_ops::Tables;
use span_token::OutOfMemory;
use std::alloc::Global;
use std::marker::Model;
use view_graph::Graph;

/// The patterns and dictionaries of a program, each once, and what is known of each text that stands as
/// a pattern.
///
/// Meaning: `collected`, `specs/Programs.antt`.
#[derive(Drop)]
pub struct ProgramTables {
    patterns: Patterns,
    dicts: Dicts,
}

impl Model for ProgramTables {
    ghost use Rattle.aql_tables.specs.Programs.{Collected};
    ghost use Rattle.aql_tables.specs.Kept.{entry_of, dict_numbers, tables_of, KeepsTables};

    ghost Value = { Collected };

    ghost view = { λ tables. tables_of tables.patterns.compiled.items tables.dicts.uses.items tables.dicts.keys.items };

    ghost invariant = { λ tables. KeepsTables (tables_of tables.patterns.compiled.items tables.dicts.uses.items tables.dicts.keys.items)
        (entry_of tables.patterns.verdicts) (dict_numbers tables.dicts) };
}

impl ProgramTables {
    /// The number of a pattern among the program's, from 0; how many they are, where it is none of them.
    pub fn pattern_number(&self, text: &str) -> u32
        ensures { result ≡ number_among bytes_eq text.now self.now.lists.patterns }
    {
        match self.patterns.verdict(text) {
            Some(Verdict::Number(number)) => number,
            Some(Verdict::Fault(_)) | None => self.patterns.compiled.len() as u32,
        }
    }

    /// The number of the dictionary with this name that is compared so, among the program's, from 0;
    /// how many they are, where it is none of them.
    pub fn dict_number(&self, name: &str, exact: bool) -> u32
        ensures { result ≡ number_among same_dict (name.now, exact) self.now.dicts }
    {
        match self.dicts.number(name, exact) {
            Some(number) => number,
            None => self.dicts.keys.len() as u32,
        }
    }

    /// Why a text is no pattern, or None where it is one.
    ///
    /// Compiles only a text that the program doesn't mention as a pattern.
    ///
    /// Meaning: `pattern_fault`, and in the words of patterns `IsVerdict`: `specs/Verdicts.antt`.
    #[tactic(auto, using(crate::specs::VerdictLaws::verdict_is))]
    pub fn pattern_fault(
        &self,
        alloc: Global,
        text: &str,
    ) -> Result<Option<PatternFault>, OutOfMemory>
        ensures fault { IfOk result (λ fault. fault ≡ verdict.pattern_fault text.now) }
        ensures verdict { IfOk result (verdict.IsVerdict text.now) }
    {
        match self.patterns.verdict(text) {
            Some(Verdict::Number(_)) => Ok(None),
            Some(Verdict::Fault(fault)) => Ok(Some(fault)),
            None => fault_of(alloc, text),
        }
    }

    /// The number of capture groups of a pattern, without group 0; 0 where the text is no pattern.
    ///
    /// Compiles only a text that the program doesn't mention as a pattern.
    ///
    /// Meaning: `groups_of`, `specs/Verdicts.antt`.
    pub fn group_count(&self, alloc: Global, text: &str) -> Result<u32, OutOfMemory>
        ensures { IfOk result (λ count. count ≡ verdict.groups_of text.now) }
    {
        match self.patterns.verdict(text) {
            Some(Verdict::Number(number)) => {
                Ok(self.patterns.compiled[number as usize].group_count())
            }
            Some(Verdict::Fault(_)) => Ok(0),
            None => groups_of(alloc, text),
        }
    }

    /// The tables in which expressions count.
    pub fn into_tables(self, alloc: Global) -> Result<Tables, OutOfMemory>
        ensures { IfOk result (λ tables. tables ≡ self.lists) }
    {
        let ProgramTables { patterns, dicts } = self;
        let Patterns { compiled, .. } = patterns;
        let tables = Tables::new(alloc, compiled, &dicts.uses)?;
        Ok(tables)
    }
}

/// The patterns and dictionaries of a program.
///
/// Walks the program once and compiles each text that stands as a pattern once. Takes no time that grows
/// faster than the program, and recurs no deeper than it nests. `OutOfMemory` comes for want of memory
/// alone, and for 2^32 patterns or dictionaries.
///
/// Meaning: `collected`, and what it is for, `ListsMentions`: `specs/Programs.antt`.
pub fn collect(alloc: Global, graph: &Graph) -> Result<ProgramTables, OutOfMemory>
    ensures tables { IfOk result (λ tables. tables ≡ collected (map statement_of graph.now.0)) }
    ensures listed { IfOk result (λ tables. ListsMentions (map statement_of graph.now.0) tables) }
{
    let mentions = mentions(alloc, graph.statements())?;
    tables_of(alloc, graph, mentions.as_slice())
}

/// The patterns and dictionaries among what the program mentions.
fn tables_of(
    alloc: Global,
    graph: &Graph,
    mentions: &[Mention<'_>],
) -> Result<ProgramTables, OutOfMemory>
    requires all { map mention_of mentions.now ≡ spec.mentions_of (map statement_of graph.now.0) }
    ensures { IfOk result (λ tables. tables ≡ collected (map statement_of graph.now.0)) }
{
    let mut patterns = Patterns::new(alloc);
    let mut dicts = Dicts::new(alloc);
    for mention in mentions {
        note(alloc, graph, &mut patterns, &mut dicts, *mention)?;
    }
    Ok(ProgramTables { patterns, dicts })
}

/// Adds what is mentioned.
fn note(
    alloc: Global,
    graph: &Graph,
    patterns: &mut Patterns,
    dicts: &mut Dicts,
    mention: Mention<'_>,
) -> Result<(), OutOfMemory>
    ensures patterns { (seen : List spec.Mention) → HoldsPatterns seen patterns.old
        → OnOk result (HoldsPatterns (seen ++ mention_of mention.entry ∷ []) patterns.new) }
    ensures dicts { (seen : List spec.Mention)
        → HoldsDicts (map statement_of graph.now.0) seen dicts.old
        → OnOk result (HoldsDicts (map statement_of graph.now.0) (seen ++ mention_of mention.entry ∷ []) dicts.new) }
{
    match mention {
        Mention::Pattern(text) => patterns.add(alloc, text),
        Mention::Dictionary(name, exact) => dicts.add(alloc, graph, name, exact),
    }
}
