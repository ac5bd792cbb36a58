ghost use Rattle.std.specs.Prelude.{◌≡◌, length};
ghost use Rattle.algebra.specs.Inputs.{left_input, right_input, with_inputs, IsAmong};
ghost use Rattle.algebra.specs.Mapping.{new_number};
ghost use Rattle.restrict_eval.specs.Rebuilding.{made_conditional};

use algebra::Node;

/// The node, reading the nodes that stand for its inputs, and conditional where it is a join.
pub(crate) fn renumbered(node: Node, to: &[u32]) -> Node
    requires left { IsAmong (length to.now) (left_input node) }
    requires right { IsAmong (length to.now) (right_input node) }
    ensures { result ≡ made_conditional (with_inputs (new_number to.now) node) }
{
    let mut node = node;
    renumber(&mut node, to);
    make_conditional(&mut node);
    node
}

fn renumber(node: &mut Node, to: &[u32])
    requires left { IsAmong (length to.now) (left_input node.old) }
    requires right { IsAmong (length to.now) (right_input node.old) }
    ensures { node.new ≡ with_inputs (new_number to.now) node.old }
{
    match node {
        Node::Doc => {}
        Node::Regex { input, .. } => *input = to[*input as usize],
        Node::TokenRegex { input, .. } => *input = to[*input as usize],
        Node::Dict { input, .. } => *input = to[*input as usize],
        Node::DictPart { input, .. } => *input = to[*input as usize],
        Node::Blocks { input, .. } => *input = to[*input as usize],
        Node::Select { input, .. } => *input = to[*input as usize],
        Node::Project { input, .. } => *input = to[*input as usize],
        Node::Consolidate { input, .. } => *input = to[*input as usize],
        Node::Group { input, .. } => *input = to[*input as usize],
        Node::OrderLimit { input, .. } => *input = to[*input as usize],
        Node::Cross { left, right, .. } => {
            *left = to[*left as usize];
            *right = to[*right as usize];
        }
        Node::SpanJoin { left, right, .. } => {
            *left = to[*left as usize];
            *right = to[*right as usize];
        }
        Node::Union { left, right } => {
            *left = to[*left as usize];
            *right = to[*right as usize];
        }
        Node::Minus { left, right } => {
            *left = to[*left as usize];
            *right = to[*right as usize];
        }
        Node::Restricted { outer, source, .. } => {
            *outer = to[*outer as usize];
            *source = to[*source as usize];
        }
    }
}

/// Makes a join ask for its right input only where its left one has a row.
fn make_conditional(node: &mut Node)
    ensures { node.new ≡ made_conditional node.old }
{
    match node {
        Node::Cross { conditional, .. } => *conditional = true,
        Node::SpanJoin { conditional, .. } => *conditional = true,
        _ => {}
    }
}
