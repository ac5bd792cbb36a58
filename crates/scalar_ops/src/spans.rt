ghost use Rattle.std.specs.Prelude.{◌≡◌, ◌∷◌, [], pos, ◌-◌};
ghost use Rattle.span_token.specs.Documents.{Doc, characters, len_of, text_in};
ghost use Rattle.span_token.specs.Tokens.{tokens_of};
ghost use Rattle.span_token.specs.Relations.{combined, gap_of, does_follow, does_follow_tok, do_overlap, does_contain};
ghost use Rattle.span_token.specs.Contexts.{left_of, right_of, left_of_tok, right_of_tok};
ghost use Rattle.row_values.specs.Datums.{IsOfDocument, datum_of, int, text, span};
ghost use Rattle.scalar_ops.specs.Operators.{of_span, of_spans, of_span_and_number, holds_of_spans};

use row_values::Value;
use span_token::{
    Document, between, combine, left_context, left_context_tok, right_context, right_context_tok,
};

/// `GetBegin`
#[inline(always)]
pub(crate) fn begin_of<'d>(value: Value<'d>) -> Value<'d>
    ensures value { datum_of result ≡ of_span (λ s. int (pos s.begin)) (datum_of value.entry ∷ []) }
    ensures lies { (document : Doc) → IsOfDocument document (datum_of result) }
{
    match value {
        Value::Span(s) => Value::Int(i64::from(s.begin)),
        _ => Value::Null,
    }
}

/// `GetEnd`
#[inline(always)]
pub(crate) fn end_of<'d>(value: Value<'d>) -> Value<'d>
    ensures value { datum_of result ≡ of_span (λ s. int (pos s.end)) (datum_of value.entry ∷ []) }
    ensures lies { (document : Doc) → IsOfDocument document (datum_of result) }
{
    match value {
        Value::Span(s) => Value::Int(i64::from(s.end)),
        _ => Value::Null,
    }
}

/// `GetLength`
#[inline(always)]
pub(crate) fn length_of<'d>(value: Value<'d>) -> Value<'d>
    ensures value { datum_of result ≡ of_span (λ s. int (pos (s.end - s.begin))) (datum_of value.entry ∷ []) }
    ensures lies { (document : Doc) → IsOfDocument document (datum_of result) }
{
    match value {
        Value::Span(s) => Value::Int(i64::from(s.end - s.begin)),
        _ => Value::Null,
    }
}

/// `GetText`
#[inline(always)]
pub(crate) fn text_of<'d>(doc: &Document<'d>, value: Value<'d>) -> Value<'d>
    requires in_document { IsOfDocument doc.now (datum_of value) }
    ensures value { datum_of result ≡ of_span (λ s. text (text_in doc.now s)) (datum_of value.entry ∷ []) }
    ensures lies { IsOfDocument doc.now (datum_of result) }
{
    match value {
        Value::Span(s) => Value::Text(doc.text_of(s)),
        _ => Value::Null,
    }
}

/// `LeftContext`
#[inline(always)]
pub(crate) fn left_of<'d>(doc: &Document<'d>, value: Value<'d>, number: Value<'d>) -> Value<'d>
    requires in_document { IsOfDocument doc.now (datum_of value) }
    ensures value { datum_of result ≡ of_span_and_number (λ s n. span (left_of s n)) (datum_of value.entry ∷ datum_of number.entry ∷ []) }
    ensures lies { IsOfDocument doc.now (datum_of result) }
{
    match (value, number) {
        (Value::Span(s), Value::Int(n)) => Value::Span(left_context(s, n)),
        _ => Value::Null,
    }
}

/// `RightContext`
#[inline(always)]
pub(crate) fn right_of<'d>(doc: &Document<'d>, value: Value<'d>, number: Value<'d>) -> Value<'d>
    requires in_document { IsOfDocument doc.now (datum_of value) }
    ensures value { datum_of result ≡ of_span_and_number (λ s n. span (right_of (len_of doc.now) s n)) (datum_of value.entry ∷ datum_of number.entry ∷ []) }
    ensures lies { IsOfDocument doc.now (datum_of result) }
{
    match (value, number) {
        (Value::Span(s), Value::Int(n)) => Value::Span(right_context(doc, s, n)),
        _ => Value::Null,
    }
}

/// `LeftContextTok`
#[inline(always)]
pub(crate) fn left_of_tok<'d>(doc: &Document<'d>, value: Value<'d>, number: Value<'d>) -> Value<'d>
    requires in_document { IsOfDocument doc.now (datum_of value) }
    ensures value { datum_of result ≡ of_span_and_number (λ s n. span (left_of_tok (tokens_of (characters doc.now)) s n)) (datum_of value.entry ∷ datum_of number.entry ∷ []) }
    ensures lies { IsOfDocument doc.now (datum_of result) }
{
    match (value, number) {
        (Value::Span(s), Value::Int(n)) => Value::Span(left_context_tok(doc, s, n)),
        _ => Value::Null,
    }
}

/// `RightContextTok`
#[inline(always)]
pub(crate) fn right_of_tok<'d>(doc: &Document<'d>, value: Value<'d>, number: Value<'d>) -> Value<'d>
    requires in_document { IsOfDocument doc.now (datum_of value) }
    ensures value { datum_of result ≡ of_span_and_number (λ s n. span (right_of_tok (tokens_of (characters doc.now)) s n)) (datum_of value.entry ∷ datum_of number.entry ∷ []) }
    ensures lies { IsOfDocument doc.now (datum_of result) }
{
    match (value, number) {
        (Value::Span(s), Value::Int(n)) => Value::Span(right_context_tok(doc, s, n)),
        _ => Value::Null,
    }
}

/// `CombineSpans`
#[inline(always)]
pub(crate) fn combined<'d>(doc: &Document<'d>, a: Value<'d>, b: Value<'d>) -> Value<'d>
    requires first_in_document { IsOfDocument doc.now (datum_of a) }
    requires second_in_document { IsOfDocument doc.now (datum_of b) }
    ensures value { datum_of result ≡ of_spans (λ a b. span (combined a b)) (datum_of a.entry ∷ datum_of b.entry ∷ []) }
    ensures lies { IsOfDocument doc.now (datum_of result) }
{
    match (a, b) {
        (Value::Span(a), Value::Span(b)) => Value::Span(combine(a, b)),
        _ => Value::Null,
    }
}

/// `SpanBetween`
#[inline(always)]
pub(crate) fn between_of<'d>(doc: &Document<'d>, a: Value<'d>, b: Value<'d>) -> Value<'d>
    requires first_in_document { IsOfDocument doc.now (datum_of a) }
    requires second_in_document { IsOfDocument doc.now (datum_of b) }
    ensures value { datum_of result ≡ of_spans (λ a b. span (gap_of a b)) (datum_of a.entry ∷ datum_of b.entry ∷ []) }
    ensures lies { IsOfDocument doc.now (datum_of result) }
{
    match (a, b) {
        (Value::Span(a), Value::Span(b)) => Value::Span(between(a, b)),
        _ => Value::Null,
    }
}
