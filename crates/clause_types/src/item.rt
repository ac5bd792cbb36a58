//! Output columns: items of a selection and of an extraction.

ghost use Rattle.std.specs.Prelude.{◌≡◌, [], map, option_map, OnOk, IfOk, IfErr};
ghost use Rattle.aql_syntax.specs.Views.{name_of, term_of, item_of};
ghost use Rattle.clause_types.specs.Expressions.{typing};
ghost use Rattle.clause_types.specs.Faults.{first};
ghost use Rattle.clause_types.specs.Items as spec;
ghost use Rattle.clause_types.specs.Refusals.{IsFirst};
ghost use Rattle.clause_types.specs.Knowns.{known_of};
ghost use Rattle.clause_types.specs.Views.{seen, scope_of, item_seen};

use crate::call::{refuse_unfit, refuse_wrong};
use crate::expression::{term, terms};
use crate::fault::Breach;
use crate::function::{Aggregate, aggregate_named};
use crate::given::{Given, Meant};
use crate::known::Known;
use crate::refusals::unknown_function;
use crate::scope::Scope;
use crate::wanted::{Callee, Wanted};
use aql_syntax::{Ast, Form, Ident, Item};
use scalar_ops::Kind;
use span_token::{Failure, OutOfMemory, OwnedText};
use std::alloc::Global;

/// What an output column is made of.
#[derive(Debug, Drop)]
pub(crate) enum Content {
    Expression(Meant),
    /// The number of rows.
    RowCount,
    Aggregated(Aggregate, Meant),
}

/// An item without a fault.
#[derive(Debug, Drop)]
pub(crate) struct CheckedItem {
    pub(crate) at: u32,
    pub(crate) name: Ident,
    pub(crate) kind: Kind,
    pub(crate) content: Content,
}

/// The text of an item's output name.
pub(crate) fn label_text(item: &Item) -> &str
    ensures { result.now ≡ (spec.output_name (item_of item.now)).text }
{
    match item.column_name() {
        Some(name) => name.text.as_str(),
        None => "",
    }
}

/// An item's output name, with its token.
pub(crate) fn label(alloc: Global, item: &Item) -> Result<Ident, OutOfMemory>
    ensures { IfOk result (λ name. name_of name ≡ spec.output_name (item_of item.now)) }
{
    let text = OwnedText::copied(alloc, label_text(item))?;
    Ok(Ident {
        text,
        at: label_at(item),
    })
}

/// The token of an item's output name.
#[tactic(auto, using(crate::proofs::Labels::same_at))]
fn label_at(item: &Item) -> u32
    ensures { result ≡ (spec.output_name (item_of item.now)).at }
{
    match &item.name {
        Some(name) => name.at,
        None => item.expr.at,
    }
}

/// An item of an extraction.
#[tactic(auto, using(crate::specs::FaultLaws::first_here, crate::specs::FaultLaws::first_later))]
pub(crate) fn extract_item(
    alloc: Global,
    known: &Known<'_>,
    scope: &Scope<'_>,
    item: &Item,
) -> Result<CheckedItem, Failure<Breach>>
    ensures ok { IfOk result (λ checked. spec.extract_item (known_of known.now) (scope_of scope.now) (item_of item.now) ≡ item_seen checked) }
    ensures fault { IfErr result (IsFirst (spec.extract_item (known_of known.now) (scope_of scope.now) (item_of item.now)).faults) }
{
    let given = term(alloc, known, scope, &item.expr)?;
    let name = label(alloc, item)?;
    plain_item(known, name, given)
}

/// An expression as a whole item.
#[tactic(auto, using(crate::specs::FaultLaws::first_here, crate::specs::FaultLaws::first_later))]
fn plain_item(known: &Known<'_>, name: Ident, given: Given) -> Result<CheckedItem, Failure<Breach>>
    ensures ok { IfOk result (λ item. spec.plain_item (known_of known.now) (name_of name) (seen given) ≡ item_seen item) }
    ensures fault { IfErr result (IsFirst (spec.plain_item (known_of known.now) (name_of name) (seen given)).faults) }
{
    refuse_wrong(known, Wanted::OfKind(Kind::Any), &given)?;
    Ok(CheckedItem {
        at: given.at,
        name,
        kind: given.kind,
        content: Content::Expression(given.meant),
    })
}

/// An item of a selection.
#[tactic(auto, using(crate::specs::FaultLaws::first_here, crate::specs::FaultLaws::first_later))]
pub(crate) fn select_item(
    alloc: Global,
    known: &Known<'_>,
    scope: &Scope<'_>,
    item: &Item,
) -> Result<CheckedItem, Failure<Breach>>
    ensures ok { IfOk result (λ checked. spec.select_item (known_of known.now) (scope_of scope.now) (item_of item.now) ≡ item_seen checked) }
    ensures fault { IfErr result (IsFirst (spec.select_item (known_of known.now) (scope_of scope.now) (item_of item.now)).faults) }
{
    let at = item.expr.at;
    match &item.expr.form {
        Form::Call { name, args } => match aggregate_named(name.as_str()) {
            None => extract_item(alloc, known, scope, item),
            Some(aggregate) => {
                let label = label(alloc, item)?;
                aggregated(alloc, known, scope, label, at, aggregate, args)
            }
        },
        Form::Star { name } => {
            let label = label(alloc, item)?;
            star_item(alloc, label, at, name.as_str())
        }
        _ => extract_item(alloc, known, scope, item),
    }
}

/// An aggregate as a whole item.
#[tactic(auto, using(crate::specs::FaultLaws::first_here, crate::specs::FaultLaws::first_later))]
fn aggregated(
    alloc: Global,
    known: &Known<'_>,
    scope: &Scope<'_>,
    name: Ident,
    at: u32,
    aggregate: Aggregate,
    args: &[Ast],
) -> Result<CheckedItem, Failure<Breach>>
    ensures ok { IfOk result (λ item. spec.aggregate_item (known_of known.now) (name_of name) at aggregate (map (typing (known_of known.now) (scope_of scope.now)) (map term_of args.now)) ≡ item_seen item) }
    ensures fault { IfErr result (IsFirst (spec.aggregate_item (known_of known.now) (name_of name) at aggregate (map (typing (known_of known.now) (scope_of scope.now)) (map term_of args.now))).faults) }
{
    let args = terms(alloc, known, scope, args)?;
    aggregate_item(known, name, at, aggregate, args)
}

/// An aggregate whose arguments have no fault.
#[tactic(auto, using(crate::specs::FaultLaws::first_here, crate::specs::FaultLaws::first_later, crate::proofs::Operands::faultless, crate::specs::FaultLaws::all_faultless))]
fn aggregate_item(
    known: &Known<'_>,
    name: Ident,
    at: u32,
    aggregate: Aggregate,
    args: Vec<Given>,
) -> Result<CheckedItem, Failure<Breach>>
    ensures ok { IfOk result (λ item. spec.aggregate_item (known_of known.now) (name_of name) at aggregate (map seen args.items) ≡ item_seen item) }
    ensures fault { IfErr result (IsFirst (spec.aggregate_item (known_of known.now) (name_of name) at aggregate (map seen args.items)).faults) }
{
    refuse_unfit(known, Callee::Aggregate(aggregate), at, &args)?;
    let first = first_of(args);
    Ok(told(name, at, aggregate, first))
}

/// The first of some expressions.
fn first_of(args: Vec<Given>) -> Option<Given>
    ensures { option_map seen result ≡ first (map seen args.items) }
{
    let mut args = args;
    if args.is_empty() {
        None
    } else {
        Some(args.remove(0))
    }
}

/// An aggregate of its first argument.
fn told(name: Ident, at: u32, aggregate: Aggregate, first: Option<Given>) -> CheckedItem
    ensures { item_seen result ≡ spec.told (name_of name) at aggregate (option_map seen first) }
{
    match first {
        Some(arg) => CheckedItem {
            at,
            name,
            kind: aggregate.kind_told(arg.kind),
            content: Content::Aggregated(aggregate, arg.meant),
        },
        None => CheckedItem {
            at,
            name,
            kind: Kind::Nothing,
            content: Content::RowCount,
        },
    }
}

/// A call with `*`.
#[tactic(auto, using(crate::specs::FaultLaws::first_here, crate::specs::FaultLaws::first_later))]
fn star_item(
    alloc: Global,
    name: Ident,
    at: u32,
    word: &str,
) -> Result<CheckedItem, Failure<Breach>>
    ensures ok { IfOk result (λ item. spec.star_item (name_of name) at word.now ≡ item_seen item) }
    ensures fault { IfErr result (IsFirst (spec.star_item (name_of name) at word.now).faults) }
{
    if word != "Count" {
        return Err(unknown_function(alloc, at, word));
    }
    Ok(CheckedItem {
        at,
        name,
        kind: Kind::Integer,
        content: Content::RowCount,
    })
}
