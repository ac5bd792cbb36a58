//! The dictionaries of a program, as its expressions and extractions compare them.

ghost use Rattle.std.specs.Prelude.{◌≡◌, ◌++◌, ◌∷◌, [], ◌+◌, ◌<◌, ◌^◌, List, None, Some, map, length, IfOk, OnOk, MatchOption};
ghost use Rattle.aql_syntax.specs.Views.{statement_of};
ghost use Rattle.aql_tables.specs.Kept.{dict_numbers, IsSet, HoldsDicts};
ghost use Rattle.aql_tables.specs.Mentions.{Mention, of_dictionary};
ghost use Rattle.aql_tables.specs.Programs as spec;

use crate::entries::{next_number, set_entry};
use aql_syntax::Statement;
use dict_match::DictUse;
use indexmap::IndexMap;
use span_token::{OutOfMemory, OwnedList, OwnedText};
use std::alloc::Global;
use view_graph::Graph;

/// Whether a dictionary of the program has this name.
///
/// Meaning: `is_dictionary`, `specs/Programs.antt`.
pub fn is_dictionary(graph: &Graph, name: &str) -> bool
    ensures { result ≡ spec.is_dictionary (map statement_of graph.now.0) name.now }
{
    dictionary(graph, name).is_some()
}

/// The dictionaries of some mentions with their entries, each once for each way in which it is compared.
#[derive(Drop)]
pub(crate) struct Dicts {
    pub(crate) exact: IndexMap<String, u32>,
    pub(crate) other: IndexMap<String, u32>,
    pub(crate) keys: Vec<(OwnedText, bool)>,
    pub(crate) uses: Vec<DictUse>,
}

impl Dicts {
    /// No dictionary.
    pub(crate) fn new(alloc: Global) -> Dicts
        ensures { (program : List _) → HoldsDicts program [] result }
    {
        Dicts {
            exact: IndexMap::new(alloc),
            other: IndexMap::new(alloc),
            keys: Vec::new(alloc),
            uses: Vec::new(alloc),
        }
    }

    /// The number of the dictionary with this name that is compared so.
    pub(crate) fn number(&self, name: &str, exact: bool) -> Option<u32>
        ensures { result ≡ dict_numbers self.now (name.now, exact) }
    {
        if exact {
            self.exact.get(name).copied()
        } else {
            self.other.get(name).copied()
        }
    }

    /// Adds a name that stands for a dictionary, if the program has one with this name.
    pub(crate) fn add(
        &mut self,
        alloc: Global,
        graph: &Graph,
        name: &str,
        exact: bool,
    ) -> Result<(), OutOfMemory>
        ensures { (seen : List Mention)
            → HoldsDicts (map statement_of graph.now.0) seen self.old
            → OnOk result (HoldsDicts (map statement_of graph.now.0) (seen ++ of_dictionary name.now exact ∷ []) self.new) }
    {
        match self.number(name, exact) {
            Some(_) => Ok(()),
            None => match entries_of(alloc, graph, name)? {
                Some(entries) => self.keep(alloc, name, exact, entries),
                None => Ok(()),
            },
        }
    }

    /// Puts a dictionary after the others.
    fn keep(
        &mut self,
        alloc: Global,
        name: &str,
        exact: bool,
        entries: OwnedList<OwnedText>,
    ) -> Result<(), OutOfMemory>
        ensures keys { OnOk result (self.new.keys.items ≡ self.old.keys.items ++ (name.now, exact) ∷ []) }
        ensures uses { OnOk result (self.new.uses.items ≡ self.old.uses.items ++ record { entries = entries; exact = exact } ∷ []) }
        ensures set { OnOk result (IsSet spec.same_dict (dict_numbers self.old) (dict_numbers self.new) (name.now, exact) (length self.old.keys.items)) }
        ensures short { OnOk result (length self.old.keys.items + 1 < 2 ^ 32) }
    {
        let number = next_number(self.keys.len())?;
        self.note(alloc, name, exact, number)?;
        self.keys.push((OwnedText::copied(alloc, name)?, exact))?;
        self.uses.push(DictUse { entries, exact })?;
        Ok(())
    }

    /// Keeps the number of a dictionary.
    fn note(
        &mut self,
        alloc: Global,
        name: &str,
        exact: bool,
        number: u32,
    ) -> Result<(), OutOfMemory>
        ensures set { OnOk result (IsSet spec.same_dict (dict_numbers self.old) (dict_numbers self.new) (name.now, exact) number) }
        ensures keys { self.new.keys ≡ self.old.keys }
        ensures uses { self.new.uses ≡ self.old.uses }
    {
        if exact {
            set_entry(alloc, &mut self.exact, name, number)
        } else {
            set_entry(alloc, &mut self.other, name, number)
        }
    }
}

/// The entries of the program's dictionary with this name, if there is one.
fn entries_of(
    alloc: Global,
    graph: &Graph,
    name: &str,
) -> Result<Option<OwnedList<OwnedText>>, OutOfMemory>
    ensures { IfOk result (λ entries. entries ≡ spec.entries_of (map statement_of graph.now.0) name.now) }
{
    match dictionary(graph, name) {
        Some(entries) => Ok(Some(copied(alloc, entries)?)),
        None => Ok(None),
    }
}

/// The entries as they stand in the program. That it has an order says that each name is defined once.
fn dictionary<'g>(graph: &'g Graph, name: &str) -> Option<&'g [OwnedText]>
    ensures { MatchOption result (spec.entries_of (map statement_of graph.now.0) name.now ≡ None) (λ entries. spec.entries_of (map statement_of graph.now.0) name.now ≡ Some entries.now) }
{
    let _order = graph.order();
    match graph.dictionary(name) {
        None => None,
        Some(number) => match graph.statements().get(number as usize - 1) {
            Some(Statement::Dictionary { entries, .. }) => Some(entries.as_slice()),
            _ => unreachable!(),
        },
    }
}

/// Copies of some texts, in their order.
fn copied(alloc: Global, texts: &[OwnedText]) -> Result<OwnedList<OwnedText>, OutOfMemory>
    ensures { IfOk result (λ copies. copies ≡ texts.now) }
{
    let mut copies = OwnedList::new(alloc);
    for text in texts {
        copies.push(OwnedText::copied(alloc, text.as_str())?)?;
    }
    Ok(copies)
}
