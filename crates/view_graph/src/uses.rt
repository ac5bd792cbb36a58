//! Which view uses which, with names that are defined.

ghost use Rattle.std.specs.Prelude.{◌≡◌, List, ◌^◌, ◌<◌, map, length, IfOk, IfErr};
ghost use Rattle.aql_syntax.specs.Trees as tree;
ghost use Rattle.aql_syntax.specs.Views.{statement_of};
ghost use Rattle.view_graph.specs.Mentions.{named_of};
ghost use Rattle.view_graph.specs.Names.{looked_up_by};
ghost use Rattle.span_token.specs.Refusals.{OfFault};
ghost use Rattle.view_graph.specs.Answers.{IsNameFault};
ghost use Rattle.view_graph.specs.Indexes.{entry_of, IndexesNames};
ghost use Rattle.view_graph.specs.Lookups.{LooksUp, AreViewsNamed, AreViewsUsed, MentionsUndefined, Unknown, IsUseGraph};

use crate::NameFault;
use crate::index::Names;
use crate::names::{Mention, Mentions, query as names_in};
use aql_syntax::Statement;
use indexmap::IndexMap;
use span_token::{Failure, OutOfMemory, OwnedList, OwnedText};
use std::alloc::Global;

/// What the names that are defined say of a name that is looked up.
#[derive(Clone, Copy, Debug)]
enum Found {
    /// A view: the index of the statement that creates it.
    View(u32),
    /// A dictionary, or `Document`.
    Other,
    Nothing,
}

/// For each statement the views that it uses, by the indexes of their statements, or the program's first unknown name.
pub(crate) fn uses(
    alloc: Global,
    statements: &[Statement],
    names: &Names,
) -> Result<Vec<OwnedList<u32>>, Failure<NameFault>>
    requires short { length statements.now < 2 ^ 32 }
    requires named { IndexesNames (map statement_of statements.now) (entry_of names.now.views) (entry_of names.now.dictionaries) }
    ensures ok { IfOk result (λ uses. IsUseGraph (map statement_of statements.now) (length statements.now) uses.items) }
    ensures fault { IfErr result (OfFault (IsNameFault (map statement_of statements.now))) }
{
    let mut uses = Vec::new(alloc);
    for (index, statement) in statements.iter().enumerate() {
        let used = used_by(alloc, names, index as u32 + 1, statement)?;
        uses.push(used)?;
    }
    Ok(uses)
}

/// The views that the statement's query uses, by their indexes, or the first unknown name of the
/// statement, whose number is given. An output uses no view, and the one that it names has to be there.
fn used_by(
    alloc: Global,
    names: &Names,
    number: u32,
    statement: &Statement,
) -> Result<OwnedList<u32>, Failure<NameFault>>
    ensures ok { (program : List tree.Statement) → IndexesNames program (entry_of names.now.views) (entry_of names.now.dictionaries) → IfOk result (AreViewsUsed program (statement_of statement.now)) }
    ensures fault { (program : List tree.Statement) → IndexesNames program (entry_of names.now.views) (entry_of names.now.dictionaries) → IfErr result (OfFault (MentionsUndefined program number (looked_up_by (statement_of statement.now)))) }
{
    match statement {
        Statement::View { query, .. } => {
            let mut mentions = Mentions::new(alloc);
            names_in(&mut mentions, query)?;
            views_mentioned(alloc, names, number, mentions.as_slice())
        }
        Statement::Output { name, .. } => {
            views_mentioned(alloc, names, number, &[Mention::View(name.text.as_str())])?;
            Ok(OwnedList::new(alloc))
        }
        _ => Ok(OwnedList::new(alloc)),
    }
}

/// The views among the names that a statement mentions, by their indexes, or its first unknown name.
fn views_mentioned(
    alloc: Global,
    names: &Names,
    number: u32,
    mentions: &[Mention<'_>],
) -> Result<OwnedList<u32>, Failure<NameFault>>
    ensures ok { (program : List tree.Statement) → IndexesNames program (entry_of names.now.views) (entry_of names.now.dictionaries) → IfOk result (AreViewsNamed program (map named_of mentions.now)) }
    ensures fault { (program : List tree.Statement) → IndexesNames program (entry_of names.now.views) (entry_of names.now.dictionaries) → IfErr result (OfFault (MentionsUndefined program number (map named_of mentions.now))) }
{
    let mut used = OwnedList::new(alloc);
    for mention in mentions {
        match find(names, *mention) {
            Found::View(view) => used.push(view)?,
            Found::Other => {}
            Found::Nothing => {
                return Err(Failure::Fault(unknown(alloc, number, *mention)?));
            }
        }
    }
    Ok(used)
}

/// The fault of the statement with this number, which mentions a name that nothing defines.
fn unknown(alloc: Global, statement: u32, mention: Mention<'_>) -> Result<NameFault, OutOfMemory>
    ensures { IfOk result (Unknown statement (named_of mention.entry)) }
{
    match mention {
        Mention::View(name) => {
            let name = OwnedText::copied(alloc, name)?;
            Ok(NameFault::UnknownView { statement, name })
        }
        Mention::Dictionary(name) => {
            let name = OwnedText::copied(alloc, name)?;
            Ok(NameFault::UnknownDictionary { statement, name })
        }
    }
}

fn find(names: &Names, mention: Mention<'_>) -> Found
    ensures { (program : List tree.Statement) → IndexesNames program (entry_of names.now.views) (entry_of names.now.dictionaries) → LooksUp program (named_of mention.entry) result }
{
    match mention {
        Mention::View(name) => match view_entry(&names.views, name) {
            Some(Some(view)) => Found::View(view),
            Some(None) => Found::Other,
            None => Found::Nothing,
        },
        Mention::Dictionary(name) => match dictionary_entry(&names.dictionaries, name) {
            Some(_) => Found::Other,
            None => Found::Nothing,
        },
    }
}

pub(crate) fn dictionary_entry(dictionaries: &IndexMap<String, u32>, name: &str) -> Option<u32>
    ensures { result ≡ entry_of dictionaries.now name.now }
{
    dictionaries.get(name).copied()
}

/// What the map has at a view's name.
pub(crate) fn view_entry(views: &IndexMap<String, Option<u32>>, name: &str) -> Option<Option<u32>>
    ensures { result ≡ entry_of views.now name.now }
{
    views.get(name).copied()
}
