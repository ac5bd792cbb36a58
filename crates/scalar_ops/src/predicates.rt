ghost use Rattle.std.specs.Prelude.{◌≡◌, ◌∷◌, [], int_lt, not};
ghost use Rattle.std.specs.Ordering.{eq_by_cmp};
ghost use Rattle.span_token.specs.Documents.{characters};
ghost use Rattle.span_token.specs.Tokens.{tokens_of};
ghost use Rattle.span_token.specs.Relations.{does_follow, does_follow_tok, do_overlap, does_contain};
ghost use Rattle.row_values.specs.Datums.{IsOfDocument, datum_of, datum_cmp};
ghost use Rattle.scalar_ops.specs.Operators.{holds_of_spans, holds_of_numbers, holds_of_values, holds_of_truth, is_true};

use row_values::Value;
use span_token::{Document, contains, follows, follows_tok, overlaps};

/// Whether a value is true.
#[inline(always)]
pub(crate) fn is_true(value: Value<'_>) -> bool
    ensures { result ≡ is_true (datum_of value.entry) }
{
    matches!(value, Value::Bool(true))
}

/// `Not`: false of what is no truth value.
#[inline(always)]
pub(crate) fn is_false(value: Value<'_>) -> bool
    ensures { result ≡ holds_of_truth not (datum_of value.entry ∷ []) }
{
    matches!(value, Value::Bool(false))
}

/// `Follows`
#[inline(always)]
pub(crate) fn does_follow(a: Value<'_>, b: Value<'_>, min: i64, max: i64) -> bool
    ensures { result ≡ holds_of_spans (λ a b. does_follow a b min max) (datum_of a.entry ∷ datum_of b.entry ∷ []) }
{
    match (a, b) {
        (Value::Span(a), Value::Span(b)) => follows(a, b, min, max),
        _ => false,
    }
}

/// `FollowsTok`
#[inline(always)]
pub(crate) fn does_follow_tok(
    doc: &Document<'_>,
    a: Value<'_>,
    b: Value<'_>,
    min: i64,
    max: i64,
) -> bool
    requires first_in_document { IsOfDocument doc.now (datum_of a) }
    requires second_in_document { IsOfDocument doc.now (datum_of b) }
    ensures { result ≡ holds_of_spans (λ a b. does_follow_tok (tokens_of (characters doc.now)) a b min max) (datum_of a.entry ∷ datum_of b.entry ∷ []) }
{
    match (a, b) {
        (Value::Span(a), Value::Span(b)) => follows_tok(doc, a, b, min, max),
        _ => false,
    }
}

/// `Overlaps`
#[inline(always)]
pub(crate) fn do_overlap(a: Value<'_>, b: Value<'_>) -> bool
    ensures { result ≡ holds_of_spans do_overlap (datum_of a.entry ∷ datum_of b.entry ∷ []) }
{
    match (a, b) {
        (Value::Span(a), Value::Span(b)) => overlaps(a, b),
        _ => false,
    }
}

/// `Contains`
#[inline(always)]
pub(crate) fn does_contain(a: Value<'_>, b: Value<'_>) -> bool
    ensures { result ≡ holds_of_spans does_contain (datum_of a.entry ∷ datum_of b.entry ∷ []) }
{
    match (a, b) {
        (Value::Span(a), Value::Span(b)) => contains(a, b),
        _ => false,
    }
}

/// `Equals`: Null equals nothing.
#[inline(always)]
pub(crate) fn are_equal(a: &Value<'_>, b: &Value<'_>) -> bool
    ensures { result ≡ holds_of_values (eq_by_cmp datum_cmp) (datum_of a.now ∷ datum_of b.now ∷ []) }
{
    match (a, b) {
        (Value::Int(a), Value::Int(b)) => a.cmp(b).is_eq(),
        _ => !a.is_null() && !b.is_null() && a.cmp(b).is_eq(),
    }
}

/// `GreaterThan`
#[inline(always)]
pub(crate) fn is_greater(a: Value<'_>, b: Value<'_>) -> bool
    ensures { result ≡ holds_of_numbers (λ m n. int_lt n m) (datum_of a.entry ∷ datum_of b.entry ∷ []) }
{
    match (a, b) {
        (Value::Int(a), Value::Int(b)) => a > b,
        _ => false,
    }
}
