ghost use Rattle.std.specs.Prelude.{◌≡◌, ◌∷◌, [], IfOk};
ghost use Rattle.row_values.specs.Datums.{IsOfDocument, datum_of};
ghost use Rattle.span_token.specs.SourceTokens.{tokens_in};
ghost use Rattle.dict_match.specs.Dictionaries.{texts_of};
ghost use Rattle.dict_match.specs.DictMatches.{does_agree, does_match};
ghost use Rattle.scalar_ops.specs.Operators.{holds_of_span};
ghost use Rattle.scalar_ops.specs.Tables.{holds_of_dict};

use crate::Tools;
use row_values::Value;
use span_token::{Document, OutOfMemory};

/// `ContainsDict`
#[inline(always)]
pub(crate) fn has_entry(
    tools: &mut Tools<'_>,
    dict: u32,
    doc: &Document<'_>,
    value: Value<'_>,
) -> Result<bool, OutOfMemory>
    requires in_document { IsOfDocument doc.now (datum_of value) }
    ensures found { IfOk result (λ found. found ≡ holds_of_span (λ s. holds_of_dict tools.old dict (λ the. does_match the doc.now s)) (datum_of value.entry ∷ [])) }
    ensures same { tools.new ≡ tools.old }
{
    match value {
        Value::Span(span) => tools.has_entry(dict, doc, span),
        _ => Ok(false),
    }
}

/// `MatchesDict`
#[inline(always)]
pub(crate) fn is_entry(
    tools: &mut Tools<'_>,
    dict: u32,
    doc: &Document<'_>,
    value: Value<'_>,
) -> Result<bool, OutOfMemory>
    requires in_document { IsOfDocument doc.now (datum_of value) }
    ensures found { IfOk result (λ found. found ≡ holds_of_span (λ s. holds_of_dict tools.old dict (λ the. does_agree the (texts_of doc.now (tokens_in doc.now s)))) (datum_of value.entry ∷ [])) }
    ensures same { tools.new ≡ tools.old }
{
    match value {
        Value::Span(span) => tools.is_entry(dict, doc, span),
        _ => Ok(false),
    }
}
