//! What a node asks for, and its rows, of the rows of its inputs.

ghost use Rattle.std.specs.Prelude.{◌≡◌, ◌↔◌, ℕ, ◌<◌, ◌≤◌, ◌⊎◌, IfOk, IfSome, IfNone, IsTrue, IsFalse, Some, None, length, slice_get, slice_index_or, vec_len};
ghost use Rattle.algebra.specs.declared.node.Node as declared_node;
ghost use Rattle.algebra.specs.Inputs.{left_input, right_input, IsAmong};
ghost use Rattle.plan_operators.specs.Given.{input_rows};
ghost use Rattle.plan_operators.specs.Boards.{IsBoardOf, IsOf};
ghost use Rattle.plan_operators.specs.Filling.{HasAsked, IsAbsentInput, IsEmptyInput, IsEmptyOn, IsGivenUp, IsInput, IsPassing, IsRightInput, IsSourceOf, IsTakenOff, IsThere, input_on, rows_found};
ghost use Rattle.plan_operators.specs.Readers.{number_of_readers, reads_by, reads_through};

use crate::Input;
use crate::operator::apply;
use crate::passing::{apply_to_passed, does_pass};
use algebra::{Node, Nodes};
use row_values::Rows;
use scalar_ops::Tools;
use span_token::{Document, OutOfMemory};
use std::alloc::Global;

/// The node of whose inputs' rows those of node `n` are made: itself, or its input, where that one passes its
/// rows on to it, isn't evaluated yet, and nobody else reads it.
pub(crate) fn source_of(nodes: &Nodes, n: u32, board: &[Option<Rows<'_>>], readers: &[u64]) -> u32
    requires there { n < length nodes.now }
    requires long { length board.now ≡ length nodes.now }
    requires readers_long { length readers.now ≡ length nodes.now }
    ensures source { IsSourceOf nodes.now board.now readers.now n result }
    ensures lower { result ≤ n }
{
    let node = nodes.get(n);
    match node.inputs() {
        (Some(input), _) => {
            let index = input as usize;
            if readers[index] == 1 && board[index].is_none() && does_pass(nodes.get(input), node) {
                input
            } else {
                n
            }
        }
        (None, _) => n,
    }
}

/// The number of an input that a node asks for and that has no rows on the board, where there is one: the right
/// one of a conditional join is asked for only where the left one has a row.
pub(crate) fn missing(node: &Node, board: &[Option<Rows<'_>>]) -> Option<u32>
    requires left_there { IsAmong (length board.now) (left_input node.now) }
    requires right_there { IsAmong (length board.now) (right_input node.now) }
    ensures none { IfNone result (HasAsked board.now node.now) }
    ensures one { IfSome result (IsAbsentInput board.now node.now) }
{
    let (left, right) = node.inputs();
    if !is_there(board, left) {
        left
    } else if is_there(board, right) || node.is_conditional() && is_empty_input(board, left) {
        None
    } else {
        right
    }
}

/// Whether node `n` has its rows on the board, and they are none.
fn is_empty(board: &[Option<Rows<'_>>], n: u32) -> bool
    ensures yes { IsTrue result → IsEmptyOn board.now n }
    ensures no { IsFalse result → IsEmptyOn board.now n → ⊥ }
{
    let index = n as usize;
    if index < board.len() {
        match &board[index] {
            Some(rows) => rows.len() == 0,
            None => false,
        }
    } else {
        false
    }
}

/// Whether an input, where there is one, has its rows on the board.
fn is_there(board: &[Option<Rows<'_>>], input: Option<u32>) -> bool
    requires among { IsAmong (length board.now) input }
    ensures { IsTrue result ↔ IsThere board.now input }
{
    match input {
        Some(i) => board[i as usize].is_some(),
        None => true,
    }
}

/// Whether an input, where there is one, has no row on the board, on which it stands.
fn is_empty_input(board: &[Option<Rows<'_>>], input: Option<u32>) -> bool
    ensures yes { IsTrue result → IsEmptyInput board.now input }
    ensures no { IsFalse result → IsEmptyInput board.now input → ⊥ }
{
    match input {
        Some(i) => is_empty(board, i),
        None => true,
    }
}

/// The rows of node `n`, of the rows of the inputs of its source; the board gives up those that nobody reads any
/// more.
pub(crate) fn rows_of<'d>(
    alloc: Global,
    tools: &mut Tools<'_>,
    doc: &Document<'d>,
    nodes: &'d Nodes,
    n: u32,
    source: u32,
    board: &mut Vec<Option<Rows<'d>>>,
    readers: &mut Vec<u64>,
) -> Result<Rows<'d>, OutOfMemory>
    requires there { n < length nodes.now }
    requires long { vec_len board.old ≡ length nodes.now }
    requires readers_long { vec_len readers.old ≡ length nodes.now }
    requires source_there { source < length nodes.now }
    requires source { (source ≡ n) ⊎ IsPassing nodes.now source n }
    requires board { IsBoardOf tools.old doc.now nodes.now board.old.items }
    requires asked { (node : declared_node.Node) → slice_get nodes.now source ≡ Some node → HasAsked board.old.items node }
    requires read { (i : ℕ) → reads_by nodes.now source i ≤ number_of_readers readers.old.items i }
    ensures rows { IfOk result (IsOf tools.old doc.now nodes.now n) }
    ensures off { IsTakenOff (reads_by nodes.now source) board.old.items readers.old.items board.new.items readers.new.items }
    ensures same { tools.new ≡ tools.old }
{
    let node = nodes.get(source);
    let (left, right) = node.inputs();
    let left_given = given_up(left, right, board, readers);
    let right_given = given_up(right, left, board, readers);
    let left_rows = found(alloc, nodes, board.as_slice(), left, left_given);
    let right_rows = found(alloc, nodes, board.as_slice(), right, right_given);
    rows_by(alloc, tools, doc, nodes, n, source, left_rows, right_rows)
}

/// The rows of node `n`, of those of the inputs of its source.
fn rows_by<'d>(
    alloc: Global,
    tools: &mut Tools<'_>,
    doc: &Document<'d>,
    nodes: &'d Nodes,
    n: u32,
    source: u32,
    left: Input<'_, 'd>,
    right: Input<'_, 'd>,
) -> Result<Rows<'d>, OutOfMemory>
    requires there { n < length nodes.now }
    requires source_there { source < length nodes.now }
    requires source { (source ≡ n) ⊎ IsPassing nodes.now source n }
    requires left { (node : declared_node.Node) → slice_get nodes.now source ≡ Some node → IsInput tools.old doc.now nodes.now (left_input node) (input_rows left) }
    requires right { (node : declared_node.Node) → slice_get nodes.now source ≡ Some node → IsRightInput tools.old doc.now nodes.now node (input_rows right) }
    ensures rows { IfOk result (IsOf tools.old doc.now nodes.now n) }
    ensures same { tools.new ≡ tools.old }
{
    let node = nodes.get(source);
    if source == n {
        let rows = apply(alloc, tools, doc, node, left, right)?;
        Ok(rows)
    } else {
        let next = nodes.get(n);
        let passed = apply_to_passed(alloc, tools, doc, node, next, left.rows(), right.rows())?;
        Ok(passed)
    }
}

/// Takes one off the readers of an input; the rows of the input, off the board, where nobody else reads them and
/// the other input is another one.
fn given_up<'d>(
    input: Option<u32>,
    other: Option<u32>,
    board: &mut Vec<Option<Rows<'d>>>,
    readers: &mut Vec<u64>,
) -> Option<Rows<'d>>
    requires among { IsAmong (vec_len board.old) input }
    requires long { vec_len readers.old ≡ vec_len board.old }
    requires read { (i : ℕ) → reads_through input i ≤ number_of_readers readers.old.items i }
    ensures given { IfSome result (λ rows. IsGivenUp input other rows board.old.items) }
    ensures none { IfNone result ((m : ℕ) → slice_index_or board.new.items m None ≡ slice_index_or board.old.items m None) }
    ensures others { (m : ℕ) → (input ≡ Some m → ⊥) → slice_index_or board.new.items m None ≡ slice_index_or board.old.items m None }
    ensures off { IsTakenOff (reads_through input) board.old.items readers.old.items board.new.items readers.new.items }
{
    match input {
        Some(i) => {
            let index = i as usize;
            readers[index] -= 1;
            if readers[index] == 0 && !is_node(other, i) {
                board[index].take()
            } else {
                None
            }
        }
        None => None,
    }
}

/// Whether an input is node `i`.
fn is_node(input: Option<u32>, i: u32) -> bool
    ensures { IsTrue result ↔ (input ≡ Some i) }
{
    match input {
        Some(j) => j == i,
        None => false,
    }
}

/// The rows of an input: those that were given up, and else those on the board, which are lent.
fn found<'r, 'd>(
    alloc: Global,
    nodes: &Nodes,
    board: &'r [Option<Rows<'d>>],
    input: Option<u32>,
    given: Option<Rows<'d>>,
) -> Input<'r, 'd>
    requires among { IsAmong (length board.now) input }
    requires below { IsAmong (length nodes.now) input }
    ensures { input_rows result ≡ rows_found nodes.now board.now input given.entry }
{
    match given {
        Some(rows) => Input::Given(rows),
        None => lent(alloc, nodes, board, input),
    }
}

/// The rows of an input, which are lent; none, of its columns, where it has no rows on the board, and of no column
/// where there is no input.
fn lent<'r, 'd>(
    alloc: Global,
    nodes: &Nodes,
    board: &'r [Option<Rows<'d>>],
    input: Option<u32>,
) -> Input<'r, 'd>
    requires among { IsAmong (length board.now) input }
    requires below { IsAmong (length nodes.now) input }
    ensures { input_rows result ≡ input_on nodes.now board.now input }
{
    match input {
        Some(i) => match &board[i as usize] {
            Some(rows) => Input::Lent(rows),
            None => Input::Given(Rows::new(alloc, nodes.shape(i).width)),
        },
        None => Input::Given(Rows::new(alloc, 0)),
    }
}
