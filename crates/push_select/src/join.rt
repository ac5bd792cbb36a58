//! The join by spans that a condition stands for.

ghost use Rattle.std.specs.Prelude.{◌≡◌, map, IfSome, IfNone, All, None, Some};
ghost use Rattle.scalar_ops.specs.Views.{term_of};
ghost use Rattle.push_select.specs.Joins.{kinds_of, column_of, two_columns, join_between, join_by, join_of, rank_of, IsOfOtherRank, IsChoice};

use algebra::JoinKind;
use scalar_ops::{Expr, Op};

/// A join of two columns, each counted from 0 on its own side.
#[derive(Clone, Copy, Debug, PartialEq, Eq)]
pub(crate) struct Join {
    pub kind: JoinKind,
    pub lc: u32,
    pub rc: u32,
}

/// The number of a condition, from 0, and the join that it stands for.
#[derive(Clone, Copy, Debug, PartialEq, Eq)]
pub(crate) struct Choice {
    pub number: usize,
    pub join: Join,
}

/// The condition that a join stands for, on rows whose left side has `width` columns; of several the first
/// of the lowest rank.
pub(crate) fn chosen(conds: &[Expr], width: u32) -> Option<Choice>
    ensures some { IfSome result (λ choice. IsChoice width conds.now choice) }
    ensures none { IfNone result (All (λ cond. join_of width (term_of cond) ≡ None) conds.now) }
{
    if let Some(near) = first_of(conds, width, 0) {
        return Some(near);
    }
    if let Some(over) = first_of(conds, width, 1) {
        return Some(over);
    }
    first_of(conds, width, 2)
}

/// Whether a join stands for some condition whose left column is from number `first` on.
pub(crate) fn join_behind(conds: &[Expr], first: u32, width: u32) -> bool {
    for cond in conds {
        if let Some(join) = join_of(cond, width) {
            if first <= join.lc {
                return true;
            }
        }
    }
    false
}

/// The first of the conditions that a join of this rank stands for.
fn first_of(conds: &[Expr], width: u32, rank: u8) -> Option<Choice>
    ensures some { IfSome result (λ choice. IsChoice width conds.now choice) }
    ensures none { IfNone result (All (λ cond. IsOfOtherRank rank (join_of width (term_of cond))) conds.now) }
{
    for (number, cond) in conds.iter().enumerate() {
        if let Some(join) = ranked(cond, width, rank) {
            return Some(Choice { number, join });
        }
    }
    None
}

/// The join of this rank that a condition stands for.
fn ranked(cond: &Expr, width: u32, rank: u8) -> Option<Join>
    ensures some { IfSome result (λ join. join_of width (term_of cond.now) ≡ Some join) }
    ensures none { IfNone result (IsOfOtherRank rank (join_of width (term_of cond.now))) }
{
    let join = join_of(cond, width)?;
    if rank_of(join.kind) == rank {
        Some(join)
    } else {
        None
    }
}

/// Which join is taken first of several: one by a distance, then one by an overlap, then by a containment.
fn rank_of(kind: JoinKind) -> u8
    ensures { result ≡ rank_of kind }
{
    match kind {
        JoinKind::Follows { .. }
        | JoinKind::FollowsTok { .. }
        | JoinKind::FollowsBack { .. }
        | JoinKind::FollowsTokBack { .. } => 0,
        JoinKind::Overlaps => 1,
        JoinKind::Contains | JoinKind::ContainsBack => 2,
    }
}

/// The join that a condition stands for: a predicate of two columns, one of each side.
#[tactic(auto, using(crate::proofs::JoinViews::join_call))]
fn join_of(cond: &Expr, width: u32) -> Option<Join>
    ensures { result ≡ join_of width (term_of cond.now) }
{
    match cond {
        Expr::Column(_) | Expr::Int(_) | Expr::Str(_) => None,
        Expr::Call { op, args } => join_by(*op, args.as_slice(), width),
    }
}

/// The same of an operator with its arguments.
fn join_by(op: Op, args: &[Expr], width: u32) -> Option<Join>
    ensures { result ≡ join_by width op (map term_of args.now) }
{
    let columns = two_columns(args)?;
    let kinds = kinds_of(op)?;
    join_between(width, kinds, columns)
}

/// The numbers of two arguments that are columns.
fn two_columns(args: &[Expr]) -> Option<(u32, u32)>
    ensures { result ≡ two_columns (map term_of args.now) }
{
    if args.len() != 2 {
        return None;
    }
    let first = column_of(&args[0])?;
    let second = column_of(&args[1])?;
    Some((first, second))
}

/// The number of a column.
pub(crate) fn column_of(expr: &Expr) -> Option<u32>
    ensures { result ≡ column_of (term_of expr.now) }
{
    match expr {
        Expr::Column(n) => Some(*n),
        Expr::Int(_) | Expr::Str(_) | Expr::Call { .. } => None,
    }
}

/// The kinds of join that a predicate stands for: where its first argument is the left column, and where it
/// is the right one.
fn kinds_of(op: Op) -> Option<(JoinKind, JoinKind)>
    ensures { result ≡ kinds_of op }
{
    match op {
        Op::Follows { min, max } => Some((
            JoinKind::Follows { min, max },
            JoinKind::FollowsBack { min, max },
        )),
        Op::FollowsTok { min, max } => Some((
            JoinKind::FollowsTok { min, max },
            JoinKind::FollowsTokBack { min, max },
        )),
        Op::Overlaps => Some((JoinKind::Overlaps, JoinKind::Overlaps)),
        Op::Contains => Some((JoinKind::Contains, JoinKind::ContainsBack)),
        _ => None,
    }
}

/// The join of two columns of which one is among the first `width`.
fn join_between(width: u32, kinds: (JoinKind, JoinKind), columns: (u32, u32)) -> Option<Join>
    ensures { result ≡ join_between width kinds columns }
{
    let (first, second) = columns;
    if first < width {
        if second < width {
            None
        } else {
            Some(Join {
                kind: kinds.0,
                lc: first,
                rc: second - width,
            })
        }
    } else if second < width {
        Some(Join {
            kind: kinds.1,
            lc: second,
            rc: first - width,
        })
    } else {
        None
    }
}
