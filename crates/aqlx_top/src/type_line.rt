//! What is said of a rule of types that is broken.

ghost use Rattle.std.specs.Prelude.{◌≡◌, ◌++◌, codes, IfOk, string_bytes};
ghost use Rattle.aqlx_top.specs.TypeTexts.{kind_text, rule_text};

use aql_types::TypeRule;
use scalar_ops::Kind;
use span_token::{OutOfMemory, OwnedText};
use std::alloc::Global;

/// The text of a rule that is broken, with the names or numbers that it keeps.
pub(crate) fn text_of_rule(alloc: Global, rule: &TypeRule) -> Result<String, OutOfMemory>
    ensures { IfOk result (λ text. string_bytes text ≡ rule_text rule.now) }
{
    match rule {
        TypeRule::UnknownAlias(name) => named(alloc, "no alias ", name),
        TypeRule::UnknownColumn(name) => named(alloc, "no column ", name),
        TypeRule::DuplicateAlias(name) => again(alloc, "alias ", name),
        TypeRule::DuplicateColumn(name) => again(alloc, "column ", name),
        TypeRule::UnknownFunction(name) => named(alloc, "no function ", name),
        TypeRule::WrongArgument { wanted, found } => {
            let wanted = text_of_kind(*wanted);
            let found = text_of_kind(*found);
            Ok(format!(in alloc; "wanted {wanted}, found {found}")?)
        }
        TypeRule::SchemaMismatch => Ok(String::from_str(alloc, "schemas differ")?),
        TypeRule::NotGrouped => Ok(String::from_str(alloc, "not grouped")?),
        TypeRule::BadRange { low, high } => {
            let first = format!(in alloc; "range {low} to ")?;
            Ok(format!(in alloc; "{first}{high}")?)
        }
        TypeRule::UnknownPolicy(name) => named(alloc, "no policy ", name),
        TypeRule::BadPattern => Ok(String::from_str(alloc, "bad pattern")?),
        TypeRule::PatternLarge { bytes, weight } => {
            let first = format!(in alloc; "pattern too large: {bytes} bytes, weight ")?;
            Ok(format!(in alloc; "{first}{weight}")?)
        }
        TypeRule::BadGroup(number) => Ok(format!(in alloc; "no group {number}")?),
    }
}

/// A name with what is said of it.
fn named(alloc: Global, said: &str, name: &OwnedText) -> Result<String, OutOfMemory>
    ensures { IfOk result (λ text. string_bytes text ≡ said.now ++ name.now) }
{
    let name = name.as_str();
    Ok(format!(in alloc; "{said}{name}")?)
}

/// A name that comes a second time.
fn again(alloc: Global, what: &str, name: &OwnedText) -> Result<String, OutOfMemory>
    ensures { IfOk result (λ text. string_bytes text ≡ what.now ++ name.now ++ codes " again") }
{
    let name = name.as_str();
    Ok(format!(in alloc; "{what}{name} again")?)
}

/// The name of a kind.
fn text_of_kind(kind: Kind) -> &'static str
    ensures { result.now ≡ kind_text kind }
{
    match kind {
        Kind::Integer => "Integer",
        Kind::Boolean => "Boolean",
        Kind::Text => "Text",
        Kind::Span => "Span",
        Kind::SpanOrText => "SpanOrText",
        Kind::Number => "Number",
        Kind::Pattern => "Pattern",
        Kind::Dictionary => "Dictionary",
        Kind::Any => "Any",
        Kind::Nothing => "Nothing",
    }
}
