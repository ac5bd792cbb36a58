//! The names that a program defines, each defined once.

ghost use Rattle.std.specs.Prelude.{◌≡◌, ℕ, ◌+◌, List, ◌∷◌, [], ◌++◌, ◌^◌, ◌<◌, codes, None, Some, map, length, IfOk, OnOk, IfErr};
ghost use Rattle.std.specs.Str.{bytes_eq};
ghost use Rattle.std.specs.Map.{update};
ghost use Rattle.aql_syntax.specs.Views.{statement_of};
ghost use Rattle.aql_syntax.specs.Trees as tree;
ghost use Rattle.span_token.specs.Refusals.{OfFault};
ghost use Rattle.view_graph.specs.Answers.{IsNameFault};
ghost use Rattle.view_graph.specs.Indexes.{entry_of, has, Adds, AddsText, IndexesNames};

use crate::NameFault;
use aql_syntax::Statement;
use indexmap::{IndexMap, IndexSet};
use span_token::{Failure, OutOfMemory, OwnedText};
use std::alloc::Global;

/// The names that some statements define, with the indexes of their statements, from 0. `Document`,
/// which is there from the start, has none.
#[derive(Drop)]
pub(crate) struct Names {
    pub(crate) views: IndexMap<String, Option<u32>>,
    pub(crate) dictionaries: IndexMap<String, u32>,
}

impl Names {
    /// The names before the first statement: `Document` alone.
    fn at_first(alloc: Global) -> Result<Names, OutOfMemory>
        ensures { IfOk result (λ names. IndexesNames [] (entry_of names.views) (entry_of names.dictionaries)) }
    {
        let views = views_at_first(alloc)?;
        let dictionaries = IndexMap::new(alloc);
        Ok(Names {
            views,
            dictionaries,
        })
    }

    /// Adds what the statement at this index defines, or refuses a name that is there.
    fn define(
        &mut self,
        alloc: Global,
        index: u32,
        statement: &Statement,
    ) -> Result<(), Failure<NameFault>>
        requires { index + 1 < 2 ^ 32 }
        ensures ok { (before : List tree.Statement) → length before ≡ index → IndexesNames before (entry_of self.old.views) (entry_of self.old.dictionaries) → OnOk result (IndexesNames (before ++ statement_of statement.now ∷ []) (entry_of self.new.views) (entry_of self.new.dictionaries)) }
        ensures fault { (before after : List tree.Statement) → length before ≡ index → IndexesNames before (entry_of self.old.views) (entry_of self.old.dictionaries) → IfErr result (OfFault (IsNameFault (before ++ statement_of statement.now ∷ after))) }
    {
        match statement {
            Statement::View { name, .. } => {
                let text = name.text.as_str();
                if add_view(alloc, &mut self.views, text, index)? {
                    Ok(())
                } else {
                    Err(Failure::Fault(defined_again(alloc, index + 1, text)?))
                }
            }
            Statement::Dictionary { name, .. } => {
                let text = name.text.as_str();
                if add_dictionary(alloc, &mut self.dictionaries, text, index)? {
                    Ok(())
                } else {
                    Err(Failure::Fault(defined_again(alloc, index + 1, text)?))
                }
            }
            _ => Ok(()),
        }
    }
}

/// Adds a name; false where it is there.
pub(crate) fn add_name<'a>(
    names: &mut IndexSet<&'a str>,
    name: &'a str,
) -> Result<bool, OutOfMemory>
    ensures { IfOk result (AddsText (has names.old) (has names.new) name.now) }
{
    Ok(names.insert(name)?)
}

/// The names that the statements define, or the first that is defined again.
pub(crate) fn define(alloc: Global, statements: &[Statement]) -> Result<Names, Failure<NameFault>>
    requires { length statements.now < 2 ^ 32 }
    ensures ok { IfOk result (λ names. IndexesNames (map statement_of statements.now) (entry_of names.views) (entry_of names.dictionaries)) }
    ensures fault { IfErr result (OfFault (IsNameFault (map statement_of statements.now))) }
{
    let mut names = Names::at_first(alloc)?;
    for (index, statement) in statements.iter().enumerate() {
        names.define(alloc, index as u32, statement)?;
    }
    Ok(names)
}

/// A map with `Document` alone.
fn views_at_first(alloc: Global) -> Result<IndexMap<String, Option<u32>>, OutOfMemory>
    ensures { IfOk result (λ views. (q : _) → entry_of views q ≡ update bytes_eq (λ _. None) (codes "Document") (Some None) q) }
{
    let mut views = IndexMap::new(alloc);
    let document = String::from_str(alloc, "Document")?;
    views.insert(document, None)?;
    Ok(views)
}

/// Adds a view; false where the name is there.
fn add_view(
    alloc: Global,
    views: &mut IndexMap<String, Option<u32>>,
    name: &str,
    index: u32,
) -> Result<bool, OutOfMemory>
    ensures { IfOk result (Adds (entry_of views.old) (entry_of views.new) name.now (Some index)) }
{
    let key = String::from_str(alloc, name)?;
    match views.insert(key, Some(index))? {
        None => Ok(true),
        Some(_) => Ok(false),
    }
}

/// The fault of the statement with this number, which defines the name again.
fn defined_again(alloc: Global, statement: u32, name: &str) -> Result<NameFault, OutOfMemory>
    ensures { IfOk result (λ fault. fault ≡ NameFault.DuplicateName statement name.now) }
{
    let name = OwnedText::copied(alloc, name)?;
    Ok(NameFault::DuplicateName { statement, name })
}

/// Adds a dictionary; false where the name is there.
fn add_dictionary(
    alloc: Global,
    dictionaries: &mut IndexMap<String, u32>,
    name: &str,
    index: u32,
) -> Result<bool, OutOfMemory>
    ensures { IfOk result (Adds (entry_of dictionaries.old) (entry_of dictionaries.new) name.now index) }
{
    let key = String::from_str(alloc, name)?;
    match dictionaries.insert(key, index)? {
        None => Ok(true),
        Some(_) => Ok(false),
    }
}
