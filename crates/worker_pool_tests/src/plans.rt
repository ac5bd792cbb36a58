//! Plans made by hand.

ghost use Rattle.std.specs.Prelude.{◌≡◌, ◌<◌, [], ◌∷◌, length, slice_index_or, IfOk};
ghost use Rattle.algebra.specs.Shapes.{shapes_of, no_shape, columns};
ghost use Rattle.scalar_ops.specs.Expressions.{column};

use algebra::{Node, Nodes, Plan, PlanOut};
use aql_regex_extract::{Pattern, compile_pattern};
use row_values::Output;
use scalar_ops::{Expr, Exprs, Tables};
use span_token::{OutOfMemory, OwnedList, OwnedText};
use std::alloc::Global;

/// The plan of these nodes and patterns that shows one of the nodes, which has one column.
fn showing(
    alloc: Global,
    nodes: Nodes,
    patterns: Vec<Pattern>,
    node: u32,
) -> Result<Plan, OutOfMemory>
    requires there { node < length nodes }
    requires shape { slice_index_or (shapes_of nodes) node no_shape ≡ columns 1 }
{
    let mut names = OwnedList::new(alloc);
    names.push(OwnedText::copied(alloc, "s")?)?;
    let names = Output::new(OwnedText::copied(alloc, "V")?, names)?;
    let mut outputs = Vec::new(alloc);
    outputs.push(PlanOut { names, node })?;
    Ok(Plan::new(nodes, Tables::new(alloc, patterns, &[])?, outputs))
}

/// One column of a row.
fn only_column(alloc: Global, number: u32) -> Result<Exprs, OutOfMemory>
    ensures { IfOk result (λ items. items ≡ column number ∷ []) }
{
    let mut items = Vec::new(alloc);
    items.push(Expr::Column(number))?;
    Ok(Exprs::from(items))
}

/// These patterns, compiled.
fn compiled(alloc: Global, texts: &[&str]) -> Result<Vec<Pattern>, OutOfMemory> {
    let mut patterns = Vec::new(alloc);
    for text in texts {
        let Ok(pattern) = compile_pattern(alloc, text) else {
            return Err(OutOfMemory);
        };
        patterns.push(pattern)?;
    }
    Ok(patterns)
}

/// The whole match.
fn whole(alloc: Global) -> Result<OwnedList<u32>, OutOfMemory>
    ensures { IfOk result (λ groups. groups ≡ 0 ∷ []) }
{
    let mut groups = OwnedList::new(alloc);
    groups.push(0)?;
    Ok(groups)
}

/// The numbers in a document: what the program
/// `create view P as extract regex /[0-9]+/ on D.text as num from Document D; output view P;` is lowered to.
pub(crate) fn numbers(alloc: Global) -> Result<Plan, OutOfMemory> {
    let patterns = compiled(alloc, &["[0-9]+"])?;
    let groups = whole(alloc)?;
    let items = only_column(alloc, 1)?;
    let mut nodes = Nodes::new(alloc);
    nodes.add(Node::Doc)?;
    nodes.add(Node::Regex {
        input: 0,
        column: 0,
        pattern: 0,
        groups,
    })?;
    nodes.add(Node::Project { input: 1, items })?;
    showing(alloc, nodes, patterns, 2)
}

/// A conditional join of the letters z in a document with the numbers there, node 2, which are needed only
/// where there is a z.
pub(crate) fn joined(alloc: Global) -> Result<Plan, OutOfMemory> {
    let patterns = compiled(alloc, &["z", "[0-9]+"])?;
    let letters = whole(alloc)?;
    let digits = whole(alloc)?;
    let items = only_column(alloc, 3)?;
    let mut nodes = Nodes::new(alloc);
    nodes.add(Node::Doc)?;
    nodes.add(Node::Regex {
        input: 0,
        column: 0,
        pattern: 0,
        groups: letters,
    })?;
    nodes.add(Node::Regex {
        input: 0,
        column: 0,
        pattern: 1,
        groups: digits,
    })?;
    nodes.add(Node::Cross {
        left: 1,
        right: 2,
        conditional: true,
    })?;
    nodes.add(Node::Project { input: 3, items })?;
    showing(alloc, nodes, patterns, 4)
}
