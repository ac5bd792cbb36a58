//! A program whose names are resolved, and how it is.

ghost use Rattle.std.specs.Prelude.{◌≡◌, ◌<◌, ◌^◌, All, map, length, IfOk, IfErr};
ghost use Rattle.aql_syntax.specs.Shapes.{IsFormed};
ghost use Rattle.aql_syntax.specs.Views.{statement_of};
ghost use Rattle.span_token.specs.Refusals.{OfFault};
ghost use Rattle.view_graph.specs.Answers.{HasOutputs, IsNameDecided, IsNameFault, IsResolved};
ghost use Rattle.view_graph.specs.Found.{FindsView, FindsDictionary};
ghost use Rattle.view_graph.specs.Indexes.{entry_of, IndexesNames};
ghost use Rattle.view_graph.specs.Lookups.{IsUseGraph};

use crate::NameFault;
use crate::cycle::{from_least, names_of};
use crate::index::{Names, define};
use crate::order::{in_order, index_at, indexes_of};
use crate::outputs::distinct_outputs;
use crate::search::{Walk, rank_all};
use crate::uses::{dictionary_entry, uses, view_entry};
use aql_syntax::Statement;
use span_token::{Failure, OwnedList};
use std::alloc::Global;
use std::marker::Model;

/// What a view's name stands for.
#[derive(Clone, Copy, Debug)]
pub enum NamedView {
    /// The document that is read.
    Document,
    /// The view of a statement: the statement's number, from 1, and where that number stands in
    /// `Graph::order`, from 0.
    View { number: u32, index: u32 },
}

/// A program whose names are resolved, with the order of its views.
///
/// Meaning: `IsResolved`, `specs/Answers.antt`.
#[derive(Drop)]
pub struct Graph {
    statements: Vec<Statement>,
    order: Vec<u32>,
    names: Names,
    indexes: Vec<u32>,
}

impl Model for Graph {
    ghost use Rattle.std.specs.Prelude.{List, ℕ, map};
    ghost use Rattle.std.specs.Coded.{codes};
    ghost use Rattle.aql_syntax.specs.contracts.tree.Statement as statement;
    ghost use Rattle.aql_syntax.specs.declared.tree.Statement.{Statement};
    ghost use Rattle.view_graph.specs.Indexes.{entry_of};
    ghost use Rattle.view_graph.specs.Kept.{KeepsGraph};
    ghost use Rattle.aql_syntax.specs.Views.{statement_of};

    ghost Value = { List Statement × List ℕ };

    ghost coded = { Prim.hlevel (codes, statement.the_row.coded) };

    ghost view = { λ graph. (graph.statements.items, graph.order.items) };

    ghost invariant = { λ graph. KeepsGraph (map statement_of graph.statements.items) graph.order.items (entry_of graph.names.views) (entry_of graph.names.dictionaries) graph.indexes.items };
}

impl Graph {
    /// The statements, as they were given, of the shape that the grammar asks for.
    ///
    /// Meaning: `IsFormed`, `aql_syntax`'s `specs/Shapes.antt`.
    pub fn statements(&self) -> &[Statement]
        ensures same { result.now ≡ self.now.0 }
        ensures formed { All IsFormed (map statement_of self.now.0) }
    {
        self.statements.as_slice()
    }

    /// The numbers of the view statements, from 1, by rank and then by number.
    ///
    /// A view's rank is the length of the longest chain of views below it, so each view comes after all
    /// that it uses. `Document` has no rank.
    ///
    /// Meaning: `IsResolved`, `specs/Answers.antt`.
    pub fn order(&self) -> &[u32]
        ensures order { result.now ≡ self.now.1 }
        ensures resolved { IsResolved (map statement_of self.now.0) result.now }
    {
        self.order.as_slice()
    }

    /// The view with this name, if there is one. Takes no time that grows with the program.
    ///
    /// Meaning: `FindsView`, `specs/Found.antt`.
    pub fn view(&self, name: &str) -> Option<NamedView>
        ensures { FindsView (map statement_of self.now.0) self.now.1 name.now result }
    {
        match view_entry(&self.names.views, name) {
            None => None,
            Some(None) => Some(NamedView::Document),
            Some(Some(view)) => Some(NamedView::View {
                number: view + 1,
                index: index_at(&self.indexes, view),
            }),
        }
    }

    /// The number, from 1, of the statement that creates the dictionary with this name, if there is one.
    ///
    /// Meaning: `FindsDictionary`, `specs/Found.antt`.
    pub fn dictionary(&self, name: &str) -> Option<u32>
        ensures { FindsDictionary (map statement_of self.now.0) name.now result }
    {
        match dictionary_entry(&self.names.dictionaries, name) {
            None => None,
            Some(index) => Some(index + 1),
        }
    }
}

/// Resolves the names of a program and orders its views, or gives the program's first fault.
///
/// Names are looked at in three rounds, each through the statements in order: what they define, what
/// they look up (the first unknown name in the text decides, views and dictionaries together), and how
/// outputs are called. A cycle is the fault where none of these stands. The statements are given up on
/// a refusal. A program of 2^32 statements or more is refused as want of memory. Statements that were
/// parsed have the shape that is asked for.
///
/// Meaning: `IsResolved` and `IsNameFault`, and that there is one answer, `IsNameDecided`:
/// `specs/Answers.antt`.
pub fn resolve(alloc: Global, statements: Vec<Statement>) -> Result<Graph, Failure<NameFault>>
    requires formed { All IsFormed (map statement_of statements.items) }
    ensures same { IfOk result (λ graph. graph.0 ≡ statements.items) }
    ensures resolved { IfOk result (λ graph. IsResolved (map statement_of statements.items) graph.1) }
    ensures fault { IfErr result (OfFault (IsNameFault (map statement_of statements.items))) }
    ensures decided { IsNameDecided (map statement_of statements.items) }
{
    graph_of(alloc, statements)
}

/// The graph of the statements, or the program's first fault.
fn graph_of(alloc: Global, statements: Vec<Statement>) -> Result<Graph, Failure<NameFault>>
    requires formed { All IsFormed (map statement_of statements.items) }
    ensures same { IfOk result (λ graph. graph.0 ≡ statements.items) }
    ensures resolved { IfOk result (λ graph. IsResolved (map statement_of statements.items) graph.1) }
    ensures fault { IfErr result (OfFault (IsNameFault (map statement_of statements.items))) }
{
    if statements.len() > u32::MAX as usize {
        return Err(Failure::OutOfMemory);
    }
    let names = define(alloc, &statements)?;
    let order = ordered(alloc, &statements, &names)?;
    let indexes = indexes_of(alloc, &order, statements.len())?;
    Ok(Graph {
        statements,
        order,
        names,
        indexes,
    })
}

/// The order of the views, with the names that the program defines, or the first fault after those
/// of definitions.
fn ordered(
    alloc: Global,
    statements: &[Statement],
    names: &Names,
) -> Result<Vec<u32>, Failure<NameFault>>
    requires short { length statements.now < 2 ^ 32 }
    requires named { IndexesNames (map statement_of statements.now) (entry_of names.now.views) (entry_of names.now.dictionaries) }
    ensures ok { IfOk result (λ order. IsResolved (map statement_of statements.now) order.items) }
    ensures fault { IfErr result (OfFault (IsNameFault (map statement_of statements.now))) }
{
    let uses = uses(alloc, statements, names)?;
    distinct_outputs(alloc, statements)?;
    views_in_order(alloc, statements, &uses)
}

/// The order of the views, or a cycle, where no other fault stands.
fn views_in_order(
    alloc: Global,
    statements: &[Statement],
    uses: &[OwnedList<u32>],
) -> Result<Vec<u32>, Failure<NameFault>>
    requires short { length statements.now < 2 ^ 32 }
    requires graph { IsUseGraph (map statement_of statements.now) (length statements.now) uses.now }
    requires outputs { HasOutputs (map statement_of statements.now) }
    ensures ok { IfOk result (λ order. IsResolved (map statement_of statements.now) order.items) }
    ensures fault { IfErr result (OfFault (IsNameFault (map statement_of statements.now))) }
{
    match rank_all(alloc, uses)? {
        Walk::Ranked(marks) => {
            let order = in_order(alloc, statements, &marks)?;
            Ok(order)
        }
        Walk::Circle(circle) => {
            let cycle = from_least(alloc, &circle)?;
            let views = names_of(alloc, statements, &cycle)?;
            Err(Failure::Fault(NameFault::Cycle { views }))
        }
    }
}
