//! Plans that are put together node by node: whether a node may stand there is found out when the test runs.

ghost use Rattle.std.specs.Prelude.{◌≡◌, All, IfOk, IfSome, IsTrue, length, map};
ghost use Rattle.row_values.specs.Outputs.{HasDistinctNames};
ghost use Rattle.scalar_ops.specs.Expressions.{ReadsBelow};
ghost use Rattle.scalar_ops.specs.Views.{term_of};
ghost use Rattle.algebra.specs.Folds.{of_input};
ghost use Rattle.algebra.specs.Inputs.{IsAmong};
ghost use Rattle.algebra.specs.Plans.{IsOutput};
ghost use Rattle.algebra.specs.Shapes.{document_shape, no_shape, shapes_of, HasDictNumber, IsMade, IsOpen, IsSought};

use algebra::{Form, Local, Node, Nodes, Plan, PlanOut, Shape};
use row_values::{Output, has_distinct_names};
use scalar_ops::{Expr, Exprs, Tables, reads_below};
use span_token::{OutOfMemory, OwnedList, OwnedText};
use std::alloc::Global;
use std::test::Fail;

/// Puts a node behind the others, and gives its number.
#[tactic(auto, using(crate::proofs::Planning::may_stand))]
pub(crate) fn put(nodes: &mut Nodes, node: Node) -> Result<u32, Fail> {
    let (left, right) = node.inputs();
    let Some(left_shape) = shape_of(nodes, left) else {
        return Err(Fail::from("a left input that isn't there"));
    };
    let Some(right_shape) = shape_of(nodes, right) else {
        return Err(Fail::from("a right input that isn't there"));
    };
    if !may_read(&node, left_shape, right_shape) {
        return Err(Fail::from("an input that the node may not read"));
    }
    let n = nodes.add(node)?;
    Ok(n)
}

/// The shape of an input, where the nodes have it.
fn shape_of(nodes: &Nodes, input: Option<u32>) -> Option<Shape>
    ensures among { IfSome result (λ _. IsAmong (length nodes.now) input) }
    ensures shape { IfSome result (λ shape. shape ≡ of_input no_shape (shapes_of nodes.now) input) }
{
    match input {
        Some(n) => {
            if n < nodes.len() {
                Some(nodes.shape(n))
            } else {
                None
            }
        }
        None => Some(Shape {
            width: 0,
            form: Form::Plain,
        }),
    }
}

/// Whether a node may read inputs of these shapes; false of kinds that no plan of the tests has.
fn may_read(node: &Node, left: Shape, right: Shape) -> bool
    ensures { IsTrue result → IsMade node.now left right }
{
    match node {
        Node::Doc => true,
        Node::Regex { column, .. } => is_open(left) && *column < left.width,
        Node::Dict { column, .. } => is_open(left) && *column < left.width,
        Node::DictPart { number, .. } => has_number(left, *number),
        Node::Select { conds, .. } => is_open(left) && read_below(conds, left.width),
        Node::Project { items, .. } => is_open(left) && read_below(items, left.width),
        Node::Cross { .. } => is_open(left) && is_open(right),
        Node::SpanJoin { lc, rc, .. } => {
            is_open(left) && is_open(right) && *lc < left.width && *rc < right.width
        }
        Node::Restricted { lc, local, .. } => {
            is_open(left) && is_document(right) && *lc < left.width && is_sought(*local)
        }
        Node::Union { .. } => is_open(left) && is_open(right) && right.width == left.width,
        Node::Minus { .. } => is_open(left) && is_open(right) && right.width == left.width,
        _ => false,
    }
}

fn is_open(shape: Shape) -> bool
    ensures { IsTrue result → IsOpen shape }
{
    match shape.form {
        Form::Document => true,
        Form::Marked(_) => false,
        Form::Plain => true,
    }
}

#[tactic(auto, using(crate::proofs::Planning::document_is))]
fn is_document(shape: Shape) -> bool
    ensures { IsTrue result → shape ≡ document_shape }
{
    match shape.form {
        Form::Document => shape.width == 1,
        Form::Plain | Form::Marked(_) => false,
    }
}

#[tactic(auto, using(crate::proofs::Planning::number_is))]
fn has_number(shape: Shape, number: u32) -> bool
    ensures { IsTrue result → HasDictNumber shape number }
{
    match shape.form {
        Form::Marked(count) => number < count && 2 <= shape.width,
        Form::Document | Form::Plain => false,
    }
}

fn is_sought(local: Local) -> bool
    ensures { IsTrue result → IsSought local }
{
    match local {
        Local::TokenRegex { low, .. } => 1 <= low,
        Local::Dict { .. } => true,
    }
}

fn read_below(exprs: &Exprs, width: u32) -> bool
    ensures { IsTrue result → All (ReadsBelow width) exprs.now }
{
    each_reads_below(exprs.as_slice(), width)
}

fn each_reads_below(exprs: &[Expr], width: u32) -> bool
    ensures { IsTrue result → All (λ expr. ReadsBelow width (term_of expr)) exprs.now }
{
    exprs.iter().all(|expr| reads_below(expr, width))
}

/// The plan that shows some of the nodes, by their numbers.
#[tactic(auto, using(crate::proofs::Planning::are_outputs))]
pub(crate) fn showing(
    alloc: Global,
    nodes: Nodes,
    tables: Tables,
    shown: &[u32],
) -> Result<Plan, Fail> {
    let mut outputs = Vec::new(alloc);
    for n in shown {
        outputs.push(output_of(alloc, &nodes, *n)?)?;
    }
    if !are_shown(&nodes, outputs.as_slice()) {
        return Err(Fail::from("a node that no output may show"));
    }
    let names = names_of(alloc, outputs.as_slice())?;
    if !has_distinct_names(names.as_slice()) {
        return Err(Fail::from("a node is shown twice"));
    }
    Ok(Plan::new(nodes, tables, outputs))
}

/// The output that shows a node, named after its number, with columns that are named after theirs.
fn output_of(alloc: Global, nodes: &Nodes, node: u32) -> Result<PlanOut, Fail> {
    if node >= nodes.len() {
        return Err(Fail::from("a node that isn't there"));
    }
    let mut columns = OwnedList::new(alloc);
    for column in 0..nodes.shape(node).width {
        columns.push(numbered(alloc, column)?)?;
    }
    if !has_distinct_names(columns.as_slice()) {
        return Err(Fail::from("numbers that are equal"));
    }
    let names = Output::new(numbered(alloc, node)?, columns)?;
    Ok(PlanOut { names, node })
}

fn numbered(alloc: Global, number: u32) -> Result<OwnedText, OutOfMemory> {
    let text = format!(in alloc; "{number}")?;
    OwnedText::copied(alloc, text.as_str())
}

fn are_shown(nodes: &Nodes, outputs: &[PlanOut]) -> bool
    ensures { IsTrue result → All (IsOutput (shapes_of nodes.now)) outputs.now }
{
    outputs.iter().all(|out| is_shown(nodes, out))
}

#[tactic(auto, using(crate::proofs::Planning::may_show))]
fn is_shown(nodes: &Nodes, out: &PlanOut) -> bool
    ensures { IsTrue result → IsOutput (shapes_of nodes.now) out.now }
{
    if out.node >= nodes.len() {
        return false;
    }
    let shape = nodes.shape(out.node);
    if !is_open(shape) || out.names.width() != shape.width {
        return false;
    }
    true
}

/// The names of some outputs.
fn names_of(alloc: Global, outputs: &[PlanOut]) -> Result<Vec<OwnedText>, OutOfMemory>
    ensures { IfOk result (λ names. names.items ≡ map (λ out. out.names.name) outputs.now) }
{
    let mut names = Vec::new(alloc);
    for out in outputs {
        names.push(OwnedText::copied(alloc, out.names.name())?)?;
    }
    Ok(names)
}
