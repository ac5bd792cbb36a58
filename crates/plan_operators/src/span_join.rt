ghost use Rattle.std.specs.Prelude.{◌≡◌, ◌+◌, ◌<◌, IfOk};
ghost use Rattle.aql_base.specs.Bags.{SameBag};
ghost use Rattle.row_values.specs.Rows.{RowsLieIn};
ghost use Rattle.span_joins.specs.Joins.{joined_where};
ghost use Rattle.algebra.specs.Operators.{does_join};

use algebra::JoinKind;
use aql_base::Steps;
use row_values::Rows;
use span_joins::{
    join_contains, join_contains_back, join_follows, join_follows_back, join_follows_tok,
    join_follows_tok_back, join_overlaps,
};
use span_token::{Document, OutOfMemory};
use std::alloc::Global;
use std::marker::Brand;
use std::sync::ledger::{Blank, Ledger};

/// `SpanJoin`: each left row, followed by each right row on whose span and its own the predicate holds.
pub(crate) fn span_join<'d>(
    alloc: Global,
    doc: &Document<'d>,
    left: &Rows<'d>,
    lc: u32,
    right: &Rows<'d>,
    rc: u32,
    kind: JoinKind,
) -> Result<Rows<'d>, OutOfMemory>
    requires left_column { lc < left.now.width }
    requires right_column { rc < right.now.width }
    requires left_in_document { RowsLieIn doc.now left.now.rows }
    requires right_in_document { RowsLieIn doc.now right.now.rows }
    ensures rows { IfOk result (λ out. SameBag out.rows (joined_where (does_join doc.now kind) left.now.rows lc right.now.rows rc)) }
    ensures width { IfOk result (λ out. out.width ≡ left.now.width + right.now.width) }
    ensures lies { IfOk result (λ out. RowsLieIn doc.now out.rows) }
{
    let out = joined::<Brand>(alloc, doc, left, lc, right, rc, kind, Blank::new(1))?;
    Ok(out)
}

/// The join by the predicate, with its tests counted in a ledger of its own.
fn joined<'d, L: Ledger>(
    alloc: Global,
    doc: &Document<'d>,
    left: &Rows<'d>,
    lc: u32,
    right: &Rows<'d>,
    rc: u32,
    kind: JoinKind,
    blank: Blank,
) -> Result<Rows<'d>, OutOfMemory>
    requires name { blank.name ≡ L.name }
    requires parts { blank.parts ≡ L.parts }
    requires some { 0 < blank.parts }
    requires left_column { lc < left.now.width }
    requires right_column { rc < right.now.width }
    requires left_in_document { RowsLieIn doc.now left.now.rows }
    requires right_in_document { RowsLieIn doc.now right.now.rows }
    ensures rows { IfOk result (λ out. SameBag out.rows (joined_where (does_join doc.now kind) left.now.rows lc right.now.rows rc)) }
    ensures width { IfOk result (λ out. out.width ≡ left.now.width + right.now.width) }
{
    let steps = &mut Steps::<L>::new(blank);
    match kind {
        JoinKind::Follows { min, max } => {
            join_follows(alloc, left, lc, right, rc, min, max, steps)
        }
        JoinKind::FollowsTok { min, max } => {
            join_follows_tok(alloc, doc, left, lc, right, rc, min, max, steps)
        }
        JoinKind::Overlaps => join_overlaps(alloc, left, lc, right, rc, steps),
        JoinKind::Contains => join_contains(alloc, left, lc, right, rc, steps),
        JoinKind::FollowsBack { min, max } => {
            join_follows_back(alloc, left, lc, right, rc, min, max, steps)
        }
        JoinKind::FollowsTokBack { min, max } => {
            join_follows_tok_back(alloc, doc, left, lc, right, rc, min, max, steps)
        }
        JoinKind::ContainsBack => join_contains_back(alloc, left, lc, right, rc, steps),
    }
}
