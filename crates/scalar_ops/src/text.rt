ghost use Rattle.std.specs.Prelude.{◌≡◌, ◌∷◌, [], ℕ, List, Bool, false, IfOk, MatchOption};
ghost use Rattle.row_values.specs.Datums.{IsOfDocument, datum_of};
ghost use Rattle.aql_regex_extract.specs.Matches.{has_match as does_match};
ghost use Rattle.aql_regex_extract.specs.Patterns.{whole_form};
ghost use Rattle.scalar_ops.specs.Operators.{holds_of_text};
ghost use Rattle.scalar_ops.specs.Tables.{holds_of_pattern};

use crate::Tools;
use row_values::Value;
use span_token::{Document, OutOfMemory};

/// `ContainsRegex`
#[inline(always)]
pub(crate) fn has_match<'d>(
    tools: &mut Tools<'_>,
    pattern: u32,
    doc: &Document<'d>,
    value: Value<'d>,
) -> Result<bool, OutOfMemory>
    requires in_document { IsOfDocument doc.now (datum_of value) }
    ensures found { IfOk result (λ found. found ≡ holds_of_text doc.now (λ t. holds_of_pattern tools.old pattern (λ p. does_match p t)) (datum_of value.entry ∷ [])) }
    ensures same { tools.new ≡ tools.old }
{
    match text_of(doc, value) {
        Some(text) => tools.has_match(pattern, text),
        None => Ok(false),
    }
}

/// The text of a value: its own, or the characters of a span.
#[inline(always)]
fn text_of<'d>(doc: &Document<'d>, value: Value<'d>) -> Option<&'d str>
    requires in_document { IsOfDocument doc.now (datum_of value) }
    ensures { (f : List ℕ → Bool) → MatchOption result (holds_of_text doc.now f (datum_of value.entry ∷ []) ≡ false) (λ text. holds_of_text doc.now f (datum_of value.entry ∷ []) ≡ f text.now) }
{
    match value {
        Value::Text(text) => Some(text),
        Value::Span(span) => Some(doc.text_of(span)),
        _ => None,
    }
}

/// `MatchesRegex`
#[inline(always)]
pub(crate) fn matches_whole<'d>(
    tools: &mut Tools<'_>,
    pattern: u32,
    doc: &Document<'d>,
    value: Value<'d>,
) -> Result<bool, OutOfMemory>
    requires in_document { IsOfDocument doc.now (datum_of value) }
    ensures found { IfOk result (λ found. found ≡ holds_of_text doc.now (λ t. holds_of_pattern tools.old pattern (λ p. does_match (whole_form p) t)) (datum_of value.entry ∷ [])) }
    ensures same { tools.new ≡ tools.old }
{
    match text_of(doc, value) {
        Some(text) => tools.matches_whole(pattern, text),
        None => Ok(false),
    }
}
