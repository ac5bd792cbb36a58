ghost use Rattle.std.specs.Prelude.{◌≡◌};
ghost use Rattle.share_plan.specs.Kinds.{kind_of};

use algebra::Node;

/// How a node is put into a plan in which each column is searched for dictionaries once.
#[derive(Clone, Copy, Debug, PartialEq, Eq)]
pub(crate) enum Kind {
    /// A `Dict` node: it is put when a part of it is.
    Source,
    /// The rows of dictionary `number`, from 0, of the `Dict` node `input`.
    Part { input: u32, number: u32 },
    /// Any other node: it is put as it is, or is there.
    Plain,
}

/// The kind of a node.
pub(crate) fn kind_of(node: &Node) -> Kind
    ensures { result ≡ kind_of node.now }
{
    match node {
        Node::Dict { .. } => Kind::Source,
        Node::DictPart { input, number } => Kind::Part {
            input: *input,
            number: *number,
        },
        _ => Kind::Plain,
    }
}
