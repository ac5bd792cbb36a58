//! Rows of one span on two sides, in order, joined by each predicate.
ghost use Rattle.std.specs.Prelude.{◌≡◌, ◌<◌, ◌∷◌, [], IfOk, All, length};
ghost use Rattle.row_values.specs.Datums.{span};
ghost use Rattle.span_token.specs.Documents.{LiesIn, characters};
ghost use Rattle.span_token.specs.Extents.{extent_of};
ghost use Rattle.span_token.specs.Tokens.{tokens_of};
ghost use Rattle.row_values.specs.Rows.{ColumnLiesIn};

use crate::bench::Bench;
use aql_base::Steps;
use row_values::{Row, Rows, Value};
use span_joins::{join_contains, join_follows, join_follows_tok, join_overlaps};
use span_token::{Document, OutOfMemory, Span};
use std::alloc::Global;
use std::marker::{Brand, Model};
use std::sync::ledger::{Blank, Ledger};

/// The predicate of a join.
#[derive(Clone, Copy)]
pub(crate) enum Test {
    Follows,
    FollowsTok,
    Overlaps,
    Contains,
}

/// How many pairs a join comes to.
#[derive(Clone, Copy)]
pub(crate) enum Pairs {
    /// Each second token on either side, with a gap of at most one character, or no token.
    Few,
    /// All: 1,000 tokens and the 1,000 after them, or 1,000 times the span of the text and 1,000 tokens.
    All,
}

/// The rows of two sides, of one span of a document each.
#[derive(Drop)]
pub(crate) struct Sides<'t> {
    doc: Document<'t>,
    left: Rows<'static>,
    right: Rows<'static>,
}

impl<'t> Model for Sides<'t> {
    ghost use Rattle.std.specs.Prelude.{◌≡◌};
    ghost use Rattle.row_values.specs.Rows.{ColumnLiesIn, RowList};
    ghost use Rattle.span_token.specs.Documents.{Doc};

    ghost Value = { Doc × RowList × RowList };

    ghost view = { λ sides. (sides.doc, sides.left, sides.right) };

    ghost invariant = { λ sides. (sides.left.width ≡ 1) × (sides.right.width ≡ 1)
        × ColumnLiesIn sides.doc 0 sides.left.rows × ColumnLiesIn sides.doc 0 sides.right.rows };
}

impl<'t> Sides<'t> {
    /// The sides of a join of the tokens of `doc`; with wide ones, some left spans reach over right ones.
    pub(crate) fn new(
        alloc: Global,
        doc: Document<'t>,
        pairs: Pairs,
        wide: bool,
    ) -> Result<Sides<'t>, OutOfMemory> {
        let (left, right) = spans_of(alloc, &doc, pairs, wide)?;
        let left = rows_within(alloc, &doc, left.as_slice())?;
        let right = rows_within(alloc, &doc, right.as_slice())?;
        Ok(Sides { doc, left, right })
    }
}

/// The spans of either side.
fn spans_of(
    alloc: Global,
    doc: &Document<'_>,
    pairs: Pairs,
    wide: bool,
) -> Result<(Vec<Span>, Vec<Span>), OutOfMemory> {
    match pairs {
        Pairs::Few => {
            let left = every_second(alloc, doc, 0, wide)?;
            let right = every_second(alloc, doc, 1, false)?;
            Ok((left, right))
        }
        Pairs::All if wide => {
            let around = Span {
                begin: 0,
                end: doc.len(),
            };
            let left = vec![in alloc; around; 1000]?;
            let right = thousand(alloc, doc, 0)?;
            Ok((left, right))
        }
        Pairs::All => {
            let left = thousand(alloc, doc, 0)?;
            let right = thousand(alloc, doc, 1000)?;
            Ok((left, right))
        }
    }
}

/// Each second token from `from` on; each tenth of them reaches over the token after it, where that is asked.
fn every_second(
    alloc: Global,
    doc: &Document<'_>,
    from: u32,
    wide: bool,
) -> Result<Vec<Span>, OutOfMemory> {
    let mut spans = Vec::new(alloc);
    for i in 0..doc.token_count() {
        if i % 2 == from % 2 {
            spans.push(from_token(doc, i, wide && i % 20 == 0))?;
        }
    }
    Ok(spans)
}

/// Token `i`, or from its begin to the end of the token after it.
fn from_token(doc: &Document<'_>, i: u32, wide: bool) -> Span
    requires { i < length (tokens_of (characters doc.now)) }
{
    let token = doc.token(i);
    let after = i.saturating_add(1);
    if wide && after < doc.token_count() {
        let next = doc.token(after);
        return Span {
            begin: token.begin,
            end: next.end.max(token.end),
        };
    }
    token
}

/// 1,000 tokens from `from` on, or as many as there are.
fn thousand(alloc: Global, doc: &Document<'_>, from: u32) -> Result<Vec<Span>, OutOfMemory> {
    let mut spans = Vec::new(alloc);
    let to = from.saturating_add(1000).min(doc.token_count());
    for i in from..to {
        spans.push(doc.token(i))?;
    }
    Ok(spans)
}

/// A row of each span, as far as it lies in the document.
fn rows_within(
    alloc: Global,
    doc: &Document<'_>,
    spans: &[Span],
) -> Result<Rows<'static>, OutOfMemory>
    ensures width { IfOk result (λ rows. rows.width ≡ 1) }
    ensures within { IfOk result (λ rows. ColumnLiesIn doc.now 0 rows.rows) }
{
    let mut rows = Rows::new(alloc, 1);
    for each in spans {
        let cut = within(doc, *each);
        rows.push(span_row(alloc, cut))?;
    }
    Ok(rows)
}

/// The span, as far as it lies in the document.
fn within(doc: &Document<'_>, each: Span) -> Span
    ensures { LiesIn (extent_of result) doc.now }
{
    let end = each.end.min(doc.len());
    Span {
        begin: each.begin.min(end),
        end,
    }
}

fn span_row(alloc: Global, place: Span) -> Row<'static>
    ensures { result ≡ span (extent_of place) ∷ [] }
{
    Row::single(alloc, Value::Span(place))
}

/// The two sides are joined by the predicate.
#[derive(Drop)]
pub(crate) struct Joins<'t> {
    pub alloc: Global,
    pub sides: Sides<'t>,
    pub pairs: Pairs,
    pub test: Test,
}

impl<'t> Bench for Joins<'t> {
    fn round(&mut self) -> Result<u64, OutOfMemory> {
        let out = joined::<Brand>(
            self.alloc,
            Blank::new(1),
            &self.sides,
            self.pairs,
            self.test,
        )?;
        Ok(u64::from(out.len()))
    }
}

/// The join of the two sides, in a ledger of its own.
fn joined<L: Ledger>(
    alloc: Global,
    blank: Blank,
    sides: &Sides<'_>,
    pairs: Pairs,
    test: Test,
) -> Result<Rows<'static>, OutOfMemory>
    requires name { blank.name ≡ L.name }
    requires parts { blank.parts ≡ L.parts }
    requires some { 0 < blank.parts }
{
    let mut steps = Steps::<L>::new(blank);
    let (left, right) = (&sides.left, &sides.right);
    let (characters, tokens) = match pairs {
        Pairs::Few => (1, 0),
        Pairs::All => (i64::MAX, i64::MAX),
    };
    match test {
        Test::Follows => join_follows(alloc, left, 0, right, 0, 0, characters, &mut steps),
        Test::FollowsTok => {
            join_follows_tok(alloc, &sides.doc, left, 0, right, 0, 0, tokens, &mut steps)
        }
        Test::Overlaps => join_overlaps(alloc, left, 0, right, 0, &mut steps),
        Test::Contains => join_contains(alloc, left, 0, right, 0, &mut steps),
    }
}
