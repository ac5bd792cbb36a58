//! A circle of views, begun at the one whose statement stands earliest.

ghost use Rattle.std.specs.Prelude.{◌≡◌, ℕ, ◌<◌, ◌≤◌, List, [], ◌∷◌, map, length, slice_index, All, IfOk};
ghost use Rattle.std.specs.List.{AllZip};
ghost use Rattle.aql_syntax.specs.Views.{statement_of};
ghost use Rattle.view_graph.specs.Names.{view_named, defined_by};
ghost use Rattle.view_graph.specs.Uses.{CreatesView};
ghost use Rattle.view_graph.specs.Circles.{IsBegunAtLeast, AreViews};

use aql_syntax::Statement;
use span_token::{OutOfMemory, OwnedList, OwnedText};
use std::alloc::Global;

/// The names of the views of a cycle.
pub(crate) fn names_of(
    alloc: Global,
    statements: &[Statement],
    cycle: &[u32],
) -> Result<OwnedList<OwnedText>, OutOfMemory>
    requires { AreViews (map statement_of statements.now) cycle.now }
    ensures { IfOk result (AllZip (CreatesView (map statement_of statements.now)) cycle.now) }
{
    let mut views = OwnedList::new(alloc);
    for view in cycle {
        let name = OwnedText::copied(alloc, view_name(&statements[*view as usize]))?;
        views.push(name)?;
    }
    Ok(views)
}

/// The name of the view that the statement creates; empty where it creates none.
fn view_name(statement: &Statement) -> &str
    ensures { (name : List ℕ) → defined_by (statement_of statement.now) ≡ view_named name ∷ [] → result.now ≡ name }
{
    match statement {
        Statement::View { name, .. } => name.text.as_str(),
        _ => "",
    }
}

/// The same circle, begun at its least view.
pub(crate) fn from_least(alloc: Global, circle: &[u32]) -> Result<Vec<u32>, OutOfMemory>
    requires { 0 < length circle.now }
    ensures { IfOk result (λ cycle. IsBegunAtLeast circle.now cycle.items) }
{
    let at = least(circle);
    let mut cycle = Vec::new(alloc);
    cycle.extend_from_slice(&circle[at..])?;
    cycle.extend_from_slice(&circle[..at])?;
    Ok(cycle)
}

/// The index of the least number; there is one or more.
fn least(circle: &[u32]) -> usize
    requires { 0 < length circle.now }
    ensures within { result < length circle.now }
    ensures least { All (λ view. slice_index circle.now result ≤ view) circle.now }
{
    let mut at = 0;
    for i in 0..circle.len() {
        if circle[i] < circle[at] {
            at = i;
        }
    }
    at
}
