//! What is known of a program's patterns and dictionaries.

ghost use Rattle.std.specs.Prelude.{◌≡◌, IfOk};
ghost use Rattle.clause_types.specs.Knowns.{known_of};

use aql_regex_extract::PatternFault;
use aql_tables::{ProgramTables, is_dictionary};
use span_token::OutOfMemory;
use std::alloc::Global;
use view_graph::Graph;

/// A program with its patterns and dictionaries, as `collect` gives them.
///
/// Meaning: `Known`, `specs/Known.antt`, seen by `known_of`, `specs/Knowns.antt`.
#[derive(Clone, Copy)]
pub struct Known<'a> {
    pub graph: &'a Graph,
    pub tables: &'a ProgramTables,
}

impl<'a> Known<'a> {
    /// The number of a pattern.
    pub(crate) fn pattern_number(&self, text: &str) -> u32
        ensures { result ≡ (known_of self.now).pattern_number text.now }
    {
        self.tables.pattern_number(text)
    }

    /// Why a text is no pattern, where it is none.
    pub(crate) fn pattern_fault(
        &self,
        alloc: Global,
        text: &str,
    ) -> Result<Option<PatternFault>, OutOfMemory>
        ensures { IfOk result (λ fault. fault ≡ (known_of self.now).pattern_fault text.now) }
    {
        self.tables.pattern_fault(alloc, text)
    }

    /// The number of groups of a pattern, without group 0.
    pub(crate) fn group_count(&self, alloc: Global, text: &str) -> Result<u32, OutOfMemory>
        ensures { IfOk result (λ count. count ≡ (known_of self.now).group_count text.now) }
    {
        self.tables.group_count(alloc, text)
    }

    /// Whether a dictionary has this name.
    pub(crate) fn is_dictionary(&self, name: &str) -> bool
        ensures { result ≡ (known_of self.now).is_dictionary name.now }
    {
        is_dictionary(self.graph, name)
    }

    /// The number of a dictionary that is compared so.
    pub(crate) fn dict_number(&self, name: &str, exact: bool) -> u32
        ensures { result ≡ (known_of self.now).dict_number name.now exact }
    {
        self.tables.dict_number(name, exact)
    }
}
