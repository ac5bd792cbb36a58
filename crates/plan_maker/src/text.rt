//! Plans as text, line by line.

ghost use Rattle.std.specs.Prelude.{◌≡◌, ◌++◌, OnOk, IfOk, string_bytes};
ghost use Rattle.std.specs.List.{flat_map};
ghost use Rattle.plan_maker.specs.PlanTexts.{operator_name, input_text, node_line, node_lines, output_line, text_of};

use algebra::{Node, Plan, PlanOut};
use span_token::OutOfMemory;
use std::alloc::Global;

/// The text of a plan: for each node its number, the name of its operator and the numbers of its inputs,
/// with a space before each; then for each output `out`, its name and the number of its node. Each line ends
/// with a line feed.
pub fn plan_text(alloc: Global, plan: &Plan) -> Result<String, OutOfMemory>
    ensures { IfOk result (λ text. string_bytes text ≡ text_of plan.now) }
{
    let mut text = String::new(alloc);
    push_nodes(alloc, &mut text, plan.nodes().as_slice())?;
    push_outputs(alloc, &mut text, plan.outputs())?;
    Ok(text)
}

/// Puts the lines of the nodes after the text.
fn push_nodes(alloc: Global, text: &mut String, nodes: &[Node]) -> Result<(), OutOfMemory>
    ensures { OnOk result (string_bytes text.new ≡ string_bytes text.old ++ node_lines 0 nodes.now) }
{
    for i in 0..nodes.len() {
        let line = line_of_node(alloc, i, &nodes[i])?;
        text.push_str(line.as_str())?;
    }
    Ok(())
}

/// Puts the lines of the outputs after the text.
fn push_outputs(alloc: Global, text: &mut String, outputs: &[PlanOut]) -> Result<(), OutOfMemory>
    ensures { OnOk result (string_bytes text.new ≡ string_bytes text.old ++ flat_map output_line outputs.now) }
{
    for out in outputs {
        let line = line_of_output(alloc, out)?;
        text.push_str(line.as_str())?;
    }
    Ok(())
}

fn line_of_node(alloc: Global, n: usize, node: &Node) -> Result<String, OutOfMemory>
    ensures { IfOk result (λ line. string_bytes line ≡ node_line n node.now) }
{
    let name = name_of_operator(node);
    let (left, right) = node.inputs();
    let left = text_of_input(alloc, left)?;
    let right = text_of_input(alloc, right)?;
    let (left, right) = (left.as_str(), right.as_str());
    Ok(format!(in alloc; "{n} {name}{left}{right}\n")?)
}

fn line_of_output(alloc: Global, out: &PlanOut) -> Result<String, OutOfMemory>
    ensures { IfOk result (λ line. string_bytes line ≡ output_line out.now) }
{
    let name = out.names.name();
    let node = out.node;
    Ok(format!(in alloc; "out {name} {node}\n")?)
}

fn text_of_input(alloc: Global, input: Option<u32>) -> Result<String, OutOfMemory>
    ensures { IfOk result (λ text. string_bytes text ≡ input_text input) }
{
    match input {
        None => Ok(String::new(alloc)),
        Some(n) => Ok(format!(in alloc; " {n}")?),
    }
}

fn name_of_operator(node: &Node) -> &'static str
    ensures { result.now ≡ operator_name node.now }
{
    match node {
        Node::Doc => "Doc",
        Node::Regex { .. } => "Regex",
        Node::TokenRegex { .. } => "TokenRegex",
        Node::Dict { .. } => "Dict",
        Node::DictPart { .. } => "DictPart",
        Node::Blocks { .. } => "Blocks",
        Node::Select { .. } => "Select",
        Node::Project { .. } => "Project",
        Node::Cross { .. } => "Cross",
        Node::SpanJoin { .. } => "SpanJoin",
        Node::Restricted { .. } => "Restricted",
        Node::Union { .. } => "Union",
        Node::Minus { .. } => "Minus",
        Node::Consolidate { .. } => "Consolidate",
        Node::Group { .. } => "Group",
        Node::OrderLimit { .. } => "OrderLimit",
    }
}
