ghost use Rattle.std.specs.Prelude.{◌≡◌, ◌∷◌, [], List, IfOk};
ghost use Rattle.span_token.specs.Documents.{Doc};
ghost use Rattle.row_values.specs.Datums.{Datum, IsOfDocument, datum_of};
ghost use Rattle.scalar_ops.specs.Operators.{IsOfFew};
ghost use Rattle.scalar_ops.specs.Tables.{Lists};
ghost use Rattle.scalar_ops.specs.Values.{applied};

use crate::dicts::{has_entry, is_entry};
use crate::predicates::{
    are_equal, do_overlap, does_contain, does_follow, does_follow_tok, is_false, is_greater,
    is_true,
};
use crate::spans::{
    begin_of, between_of, combined, end_of, left_of, left_of_tok, length_of, right_of,
    right_of_tok, text_of,
};
use crate::text::{has_match, matches_whole};
use crate::{Op, Tools};
use row_values::Value;
use span_token::{Document, OutOfMemory};

/// What an operator over one value gives.
#[inline(always)]
pub(crate) fn applied_to_one<'d>(
    tools: &mut Tools<'_>,
    doc: &Document<'d>,
    op: Op,
    a: &Value<'d>,
) -> Result<Value<'d>, OutOfMemory>
    requires in_document { IsOfDocument doc.now (datum_of a.now) }
    ensures value { IfOk result (λ value. datum_of value ≡ applied tools.old doc.now op (datum_of a.now ∷ [])) }
    ensures lies { IfOk result (λ value. IsOfDocument doc.now (datum_of value)) }
    ensures same { tools.new ≡ tools.old }
{
    match op {
        Op::GetBegin => Ok(begin_of(*a)),
        Op::GetEnd => Ok(end_of(*a)),
        Op::GetLength => Ok(length_of(*a)),
        Op::GetText => Ok(text_of(doc, *a)),
        Op::NotNull => Ok(Value::Bool(!a.is_null())),
        Op::ContainsRegex(pattern) => Ok(Value::Bool(has_match(tools, pattern, doc, *a)?)),
        Op::MatchesRegex(pattern) => Ok(Value::Bool(matches_whole(tools, pattern, doc, *a)?)),
        Op::ContainsDict(dict) => Ok(Value::Bool(has_entry(tools, dict, doc, *a)?)),
        Op::MatchesDict(dict) => Ok(Value::Bool(is_entry(tools, dict, doc, *a)?)),
        Op::Not => Ok(Value::Bool(is_false(*a))),
        Op::And | Op::Or => Ok(Value::Bool(is_true(*a))),
        Op::CombineSpans
        | Op::SpanBetween
        | Op::LeftContext
        | Op::RightContext
        | Op::LeftContextTok
        | Op::RightContextTok => Ok(Value::Null),
        Op::Follows { .. }
        | Op::FollowsTok { .. }
        | Op::Overlaps
        | Op::Contains
        | Op::Equals
        | Op::GreaterThan => Ok(Value::Bool(false)),
    }
}

/// What an operator over two values gives.
#[inline(always)]
pub(crate) fn applied_to_two<'d>(
    tools: &Tools<'_>,
    doc: &Document<'d>,
    op: Op,
    a: &Value<'d>,
    b: &Value<'d>,
) -> Value<'d>
    requires first_in_document { IsOfDocument doc.now (datum_of a.now) }
    requires second_in_document { IsOfDocument doc.now (datum_of b.now) }
    ensures lies { IsOfDocument doc.now (datum_of result) }
    ensures value { datum_of result ≡ applied tools.now doc.now op (datum_of a.now ∷ datum_of b.now ∷ []) }
{
    match op {
        Op::CombineSpans => combined(doc, *a, *b),
        Op::SpanBetween => between_of(doc, *a, *b),
        Op::LeftContext => left_of(doc, *a, *b),
        Op::RightContext => right_of(doc, *a, *b),
        Op::LeftContextTok => left_of_tok(doc, *a, *b),
        Op::RightContextTok => right_of_tok(doc, *a, *b),
        Op::Follows { min, max } => Value::Bool(does_follow(*a, *b, min, max)),
        Op::FollowsTok { min, max } => Value::Bool(does_follow_tok(doc, *a, *b, min, max)),
        Op::Overlaps => Value::Bool(do_overlap(*a, *b)),
        Op::Contains => Value::Bool(does_contain(*a, *b)),
        Op::Equals => Value::Bool(are_equal(a, b)),
        Op::GreaterThan => Value::Bool(is_greater(*a, *b)),
        Op::And => Value::Bool(is_true(*a) && is_true(*b)),
        Op::Or => Value::Bool(is_true(*a) || is_true(*b)),
        Op::GetBegin | Op::GetEnd | Op::GetLength | Op::GetText => Value::Null,
        Op::NotNull
        | Op::ContainsRegex(_)
        | Op::MatchesRegex(_)
        | Op::ContainsDict(_)
        | Op::MatchesDict(_)
        | Op::Not => Value::Bool(false),
    }
}

/// What an operator other than `And` and `Or` gives where it has no value, or three or more: a function
/// Null, a predicate false.
#[inline(always)]
pub(crate) fn without_operands<'d>(op: Op) -> Value<'d>
    requires { IsOfFew op }
    ensures none { (lists : Lists) (doc : Doc) → datum_of result ≡ applied lists doc op [] }
    ensures many { (lists : Lists) (doc : Doc) (x y z : Datum) (rest : List Datum) → datum_of result ≡ applied lists doc op (x ∷ y ∷ z ∷ rest) }
    ensures lies { (doc : Doc) → IsOfDocument doc (datum_of result) }
{
    match op {
        Op::GetBegin
        | Op::GetEnd
        | Op::GetLength
        | Op::GetText
        | Op::CombineSpans
        | Op::SpanBetween
        | Op::LeftContext
        | Op::RightContext
        | Op::LeftContextTok
        | Op::RightContextTok => Value::Null,
        _ => Value::Bool(false),
    }
}
