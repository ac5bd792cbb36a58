ghost use Rattle.std.specs.Prelude.{◌≡◌, length};
ghost use Rattle.algebra.specs.Inputs.{left_input, right_input, with_inputs, is_conditional, IsAmong};
ghost use Rattle.algebra.specs.Mapping.{new_number};

use crate::Node;

impl Node {
    /// The numbers of the nodes that it reads: its only input is the left one; a restricted join has the
    /// outer node on the left and the source on the right.
    pub fn inputs(&self) -> (Option<u32>, Option<u32>)
        ensures left { result.0 ≡ left_input self.now }
        ensures right { result.1 ≡ right_input self.now }
    {
        match self {
            Node::Doc => (None, None),
            Node::Regex { input, .. }
            | Node::TokenRegex { input, .. }
            | Node::Dict { input, .. }
            | Node::DictPart { input, .. }
            | Node::Blocks { input, .. }
            | Node::Select { input, .. }
            | Node::Project { input, .. }
            | Node::Consolidate { input, .. }
            | Node::Group { input, .. }
            | Node::OrderLimit { input, .. } => (Some(*input), None),
            Node::Cross { left, right, .. }
            | Node::SpanJoin { left, right, .. }
            | Node::Union { left, right }
            | Node::Minus { left, right } => (Some(*left), Some(*right)),
            Node::Restricted { outer, source, .. } => (Some(*outer), Some(*source)),
        }
    }

    /// Whether it is a join that asks for its right input only where its left one has a row.
    pub fn is_conditional(&self) -> bool
        ensures { result ≡ is_conditional self.now }
    {
        match self {
            Node::Cross { conditional, .. } | Node::SpanJoin { conditional, .. } => *conditional,
            _ => false,
        }
    }
}

/// The node, reading the nodes that stand for its inputs.
pub(crate) fn with_inputs(node: Node, to: &[u32]) -> Node
    requires left { IsAmong (length to.now) (left_input node) }
    requires right { IsAmong (length to.now) (right_input node) }
    ensures { result ≡ with_inputs (new_number to.now) node }
{
    match node {
        Node::Doc => Node::Doc,
        Node::Regex {
            input,
            column,
            pattern,
            groups,
        } => Node::Regex {
            input: to[input as usize],
            column,
            pattern,
            groups,
        },
        Node::TokenRegex {
            input,
            column,
            low,
            high,
            pattern,
            groups,
        } => Node::TokenRegex {
            input: to[input as usize],
            column,
            low,
            high,
            pattern,
            groups,
        },
        Node::Dict {
            input,
            column,
            dicts,
        } => Node::Dict {
            input: to[input as usize],
            column,
            dicts,
        },
        Node::DictPart { input, number } => Node::DictPart {
            input: to[input as usize],
            number,
        },
        Node::Blocks {
            input,
            column,
            low,
            high,
            gap_low,
            gap_high,
            tokens,
        } => Node::Blocks {
            input: to[input as usize],
            column,
            low,
            high,
            gap_low,
            gap_high,
            tokens,
        },
        Node::Select { input, conds } => Node::Select {
            input: to[input as usize],
            conds,
        },
        Node::Project { input, items } => Node::Project {
            input: to[input as usize],
            items,
        },
        Node::Cross {
            left,
            right,
            conditional,
        } => Node::Cross {
            left: to[left as usize],
            right: to[right as usize],
            conditional,
        },
        Node::SpanJoin {
            left,
            right,
            kind,
            lc,
            rc,
            conditional,
        } => Node::SpanJoin {
            left: to[left as usize],
            right: to[right as usize],
            kind,
            lc,
            rc,
            conditional,
        },
        Node::Restricted {
            outer,
            source,
            kind,
            lc,
            local,
        } => Node::Restricted {
            outer: to[outer as usize],
            source: to[source as usize],
            kind,
            lc,
            local,
        },
        Node::Union { left, right } => Node::Union {
            left: to[left as usize],
            right: to[right as usize],
        },
        Node::Minus { left, right } => Node::Minus {
            left: to[left as usize],
            right: to[right as usize],
        },
        Node::Consolidate {
            input,
            policy,
            target,
        } => Node::Consolidate {
            input: to[input as usize],
            policy,
            target,
        },
        Node::Group { input, keys, aggs } => Node::Group {
            input: to[input as usize],
            keys,
            aggs,
        },
        Node::OrderLimit { input, keys, limit } => Node::OrderLimit {
            input: to[input as usize],
            keys,
            limit,
        },
    }
}
