//! Whether a plan asks for the tokens of a document.

use algebra::{JoinKind, Node};
use plan_operators::Schedule;
use scalar_ops::{Expr, Op};

/// Whether a node of a plan that somebody reads asks for the tokens of a document. Where none does, a
/// document can be made without them; what is answered is the same.
pub(crate) fn asks_for_tokens(schedule: &Schedule<'_>) -> bool {
    let nodes = schedule.plan().nodes();
    for n in 0..nodes.len() {
        if schedule.is_read(n) && node_asks(nodes.get(n)) {
            return true;
        }
    }
    false
}

fn node_asks(node: &Node) -> bool {
    match node {
        Node::TokenRegex { .. } | Node::Dict { .. } | Node::Restricted { .. } => true,
        Node::Blocks { tokens, .. } => *tokens,
        Node::SpanJoin { kind, .. } => kind_asks(*kind),
        Node::Select { conds, .. } => exprs_ask(conds.as_slice()),
        Node::Project { items, .. } => exprs_ask(items.as_slice()),
        Node::Consolidate { target, .. } => expr_asks(target.as_expr()),
        Node::Doc
        | Node::Regex { .. }
        | Node::DictPart { .. }
        | Node::Cross { .. }
        | Node::Union { .. }
        | Node::Minus { .. }
        | Node::Group { .. }
        | Node::OrderLimit { .. } => false,
    }
}

fn kind_asks(kind: JoinKind) -> bool {
    match kind {
        JoinKind::FollowsTok { .. } | JoinKind::FollowsTokBack { .. } => true,
        JoinKind::Follows { .. }
        | JoinKind::Overlaps
        | JoinKind::Contains
        | JoinKind::FollowsBack { .. }
        | JoinKind::ContainsBack => false,
    }
}

#[cycle(exprs)]
fn exprs_ask(exprs: &[Expr]) -> bool {
    for expr in exprs {
        if expr_asks(expr) {
            return true;
        }
    }
    false
}

#[cycle(exprs)]
fn expr_asks(expr: &Expr) -> bool {
    match expr {
        Expr::Column(_) | Expr::Int(_) | Expr::Str(_) => false,
        Expr::Call { op, args } => op_asks(*op) || exprs_ask(args.as_slice()),
    }
}

fn op_asks(op: Op) -> bool {
    match op {
        Op::LeftContextTok
        | Op::RightContextTok
        | Op::FollowsTok { .. }
        | Op::ContainsDict(_)
        | Op::MatchesDict(_) => true,
        Op::GetBegin
        | Op::GetEnd
        | Op::GetLength
        | Op::GetText
        | Op::CombineSpans
        | Op::SpanBetween
        | Op::LeftContext
        | Op::RightContext
        | Op::Follows { .. }
        | Op::Overlaps
        | Op::Contains
        | Op::Equals
        | Op::GreaterThan
        | Op::NotNull
        | Op::ContainsRegex(_)
        | Op::MatchesRegex(_)
        | Op::Not
        | Op::And
        | Op::Or => false,
    }
}
