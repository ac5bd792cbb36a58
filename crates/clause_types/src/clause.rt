//! The clauses after the sources.

ghost use Rattle.std.specs.Prelude.{◌≡◌, [], map, option_map, OnOk, IfOk, IfErr};
ghost use Rattle.scalar_ops.specs.Views.{term_of as expr_term};
ghost use Rattle.aql_syntax.specs.Views.{name_of, number_of, term_of, cons_of, item_of};
ghost use Rattle.aql_typed.specs.Views as typed;
ghost use Rattle.clause_types.specs.Clauses as spec;
ghost use Rattle.clause_types.specs.Expressions.{typing};
ghost use Rattle.clause_types.specs.Functions.{entry_named};
ghost use Rattle.clause_types.specs.Keys.{item_number as item_number_of};
ghost use Rattle.clause_types.specs.Knowns.{known_of};
ghost use Rattle.clause_types.specs.Refusals.{IsFirst};
ghost use Rattle.clause_types.specs.Views.{seen, scope_of};

use crate::call::refuse_wrong;
use crate::expression::term;
use crate::fault::{Breach, TypeRule};
use crate::given::Given;
use crate::key::item_number;
use crate::known::Known;
use crate::refusals::{refusal, unknown_column, unknown_policy};
use crate::scope::Scope;
use crate::wanted::Wanted;
use aql_syntax::{Ast, Cons, Form, Ident, Item, Number};
use aql_typed::Consolidate;
use scalar_ops::{Expr, Kind};
use span_sets::Policy;
use span_token::Failure;
use std::alloc::Global;

/// Expressions that are wanted to be of a kind, from the left.
#[tactic(auto, using(crate::specs::FaultLaws::first_here, crate::specs::FaultLaws::first_later))]
pub(crate) fn wanted_terms(
    alloc: Global,
    known: &Known<'_>,
    scope: &Scope<'_>,
    wanted: Kind,
    asts: &[Ast],
) -> Result<Vec<Expr>, Failure<Breach>>
    ensures ok { IfOk result (λ exprs. spec.terms_of (known_of known.now) (scope_of scope.now) (map term_of asts.now) ≡ map expr_term exprs.items) }
    ensures none { OnOk result (spec.each_faults (known_of known.now) (scope_of scope.now) wanted (map term_of asts.now) ≡ []) }
    ensures fault { IfErr result (IsFirst (spec.each_faults (known_of known.now) (scope_of scope.now) wanted (map term_of asts.now))) }
{
    let mut exprs = Vec::new(alloc);
    for ast in asts {
        let given = wanted_term(alloc, known, scope, wanted, ast)?;
        exprs.push(given.meant.into_expr())?;
    }
    Ok(exprs)
}

/// An expression that is wanted to be of a kind.
#[tactic(auto, using(crate::specs::FaultLaws::first_here, crate::specs::FaultLaws::first_later, crate::specs::FaultLaws::all_faultless))]
fn wanted_term(
    alloc: Global,
    known: &Known<'_>,
    scope: &Scope<'_>,
    wanted: Kind,
    ast: &Ast,
) -> Result<Given, Failure<Breach>>
    ensures ok { IfOk result (λ given. typing (known_of known.now) (scope_of scope.now) (term_of ast.now) ≡ seen given) }
    ensures none { OnOk result (spec.kind_faults (known_of known.now) wanted (typing (known_of known.now) (scope_of scope.now) (term_of ast.now)) ≡ []) }
    ensures fault { IfErr result (IsFirst (spec.kind_faults (known_of known.now) wanted (typing (known_of known.now) (scope_of scope.now) (term_of ast.now)))) }
{
    let given = term(alloc, known, scope, ast)?;
    refuse_wrong(known, Wanted::OfKind(wanted), &given)?;
    Ok(given)
}

/// A consolidation, where one is written: its target, and then its policy.
pub(crate) fn consolidation(
    alloc: Global,
    known: &Known<'_>,
    scope: &Scope<'_>,
    cons: &Option<Cons>,
) -> Result<Option<Consolidate>, Failure<Breach>>
    ensures ok { IfOk result (λ c. spec.consolidation_of (known_of known.now) (scope_of scope.now) (option_map cons_of cons.now) ≡ option_map typed.consolidation_of c) }
    ensures none { OnOk result (spec.consolidation_faults (known_of known.now) (scope_of scope.now) (option_map cons_of cons.now) ≡ []) }
    ensures fault { IfErr result (IsFirst (spec.consolidation_faults (known_of known.now) (scope_of scope.now) (option_map cons_of cons.now))) }
{
    match cons {
        None => Ok(None),
        Some(cons) => {
            let consolidate = consolidate(alloc, known, scope, cons)?;
            Ok(Some(consolidate))
        }
    }
}

#[tactic(auto, using(crate::specs::FaultLaws::first_here, crate::specs::FaultLaws::first_later, crate::specs::FaultLaws::all_faultless))]
fn consolidate(
    alloc: Global,
    known: &Known<'_>,
    scope: &Scope<'_>,
    cons: &Cons,
) -> Result<Consolidate, Failure<Breach>>
    ensures ok { IfOk result (λ c. spec.consolidation_for (known_of known.now) (scope_of scope.now) (cons_of cons.now) ≡ typed.consolidation_of c) }
    ensures none { OnOk result (spec.cons_faults (known_of known.now) (scope_of scope.now) (cons_of cons.now) ≡ []) }
    ensures fault { IfErr result (IsFirst (spec.cons_faults (known_of known.now) (scope_of scope.now) (cons_of cons.now))) }
{
    let given = wanted_term(alloc, known, scope, Kind::Span, &cons.target)?;
    let policy = policy(alloc, &cons.policy)?;
    Ok(Consolidate {
        policy,
        target: given.meant.into_expr(),
    })
}

/// The policy that is written, and `ContainedWithin` where none is.
fn policy(alloc: Global, policy: &Option<Ident>) -> Result<Policy, Failure<Breach>>
    ensures ok { IfOk result (λ found. found ≡ spec.policy_of (option_map name_of policy.now)) }
    ensures none { OnOk result (spec.unknown_policy (option_map name_of policy.now) ≡ []) }
    ensures fault { IfErr result (IsFirst (spec.unknown_policy (option_map name_of policy.now))) }
{
    match policy {
        None => Ok(Policy::ContainedWithin),
        Some(name) => match policy_named(name.text.as_str()) {
            Some(policy) => Ok(policy),
            None => Err(unknown_policy(alloc, name.at, name.text.as_str())),
        },
    }
}

/// The policy with this name, if there is one.
fn policy_named(name: &str) -> Option<Policy>
    ensures { result ≡ entry_named name.now spec.policies }
{
    match name {
        "ContainedWithin" => Some(Policy::ContainedWithin),
        "NotContainedWithin" => Some(Policy::NotContainedWithin),
        "ContainsButNotEqual" => Some(Policy::ContainsButNotEqual),
        "ExactMatch" => Some(Policy::ExactMatch),
        "LeftToRight" => Some(Policy::LeftToRight),
        _ => None,
    }
}

/// A limit, where one is written.
pub(crate) fn limit(limit: &Option<Number>) -> Result<Option<u64>, Failure<Breach>>
    ensures ok { IfOk result (λ n. n ≡ spec.limit_of (option_map number_of limit.now)) }
    ensures none { OnOk result (spec.bad_limit (option_map number_of limit.now) ≡ []) }
    ensures fault { IfErr result (IsFirst (spec.bad_limit (option_map number_of limit.now))) }
{
    match limit {
        None => Ok(None),
        Some(number) => {
            if number.value < 0 {
                return Err(refusal(
                    number.at,
                    TypeRule::BadRange {
                        low: number.value,
                        high: number.value,
                    },
                ));
            }
            Ok(Some(number.value as u64))
        }
    }
}

/// The `order by` keys, from the left.
#[tactic(auto, using(crate::specs::FaultLaws::first_here, crate::specs::FaultLaws::first_later))]
pub(crate) fn order(
    alloc: Global,
    known: &Known<'_>,
    scope: &Scope<'_>,
    items: &[Item],
    keys: &[Ast],
) -> Result<Vec<u32>, Failure<Breach>>
    ensures ok { IfOk result (λ numbers. map (item_number_of (map item_of items.now)) (map term_of keys.now) ≡ numbers.items) }
    ensures none { OnOk result (spec.orders_faults (known_of known.now) (scope_of scope.now) (map item_of items.now) (map term_of keys.now) ≡ []) }
    ensures fault { IfErr result (IsFirst (spec.orders_faults (known_of known.now) (scope_of scope.now) (map item_of items.now) (map term_of keys.now))) }
{
    let mut numbers = Vec::new(alloc);
    for key in keys {
        let number = order_key(alloc, known, scope, items, key)?;
        numbers.push(number)?;
    }
    Ok(numbers)
}

/// An `order by` key: the number of an item.
#[tactic(auto, using(crate::specs::FaultLaws::first_here, crate::specs::FaultLaws::first_later, crate::specs::FaultLaws::all_faultless))]
fn order_key(
    alloc: Global,
    known: &Known<'_>,
    scope: &Scope<'_>,
    items: &[Item],
    key: &Ast,
) -> Result<u32, Failure<Breach>>
    ensures ok { IfOk result (λ n. n ≡ item_number_of (map item_of items.now) (term_of key.now)) }
    ensures none { OnOk result (spec.order_faults (known_of known.now) (scope_of scope.now) (map item_of items.now) (term_of key.now) ≡ []) }
    ensures fault { IfErr result (IsFirst (spec.order_faults (known_of known.now) (scope_of scope.now) (map item_of items.now) (term_of key.now))) }
{
    refuse_key(alloc, known, scope, key)?;
    let number = item_of_key(alloc, items, key)?;
    Ok(number)
}

/// Refuses an `order by` key that has a fault by itself; a bare name has none.
fn refuse_key(
    alloc: Global,
    known: &Known<'_>,
    scope: &Scope<'_>,
    key: &Ast,
) -> Result<(), Failure<Breach>>
    ensures ok { OnOk result (spec.key_faults (known_of known.now) (scope_of scope.now) (term_of key.now) ≡ []) }
    ensures fault { IfErr result (IsFirst (spec.key_faults (known_of known.now) (scope_of scope.now) (term_of key.now))) }
{
    if is_bare(key) {
        Ok(())
    } else {
        refuse_faulty(alloc, known, scope, key)
    }
}

fn is_bare(ast: &Ast) -> bool
    ensures { result ≡ spec.is_bare (term_of ast.now) }
{
    match &ast.form {
        Form::Bare(_) => true,
        _ => false,
    }
}

/// Refuses an expression with a fault.
fn refuse_faulty(
    alloc: Global,
    known: &Known<'_>,
    scope: &Scope<'_>,
    ast: &Ast,
) -> Result<(), Failure<Breach>>
    ensures ok { OnOk result ((typing (known_of known.now) (scope_of scope.now) (term_of ast.now)).faults ≡ []) }
    ensures fault { IfErr result (IsFirst (typing (known_of known.now) (scope_of scope.now) (term_of ast.now)).faults) }
{
    match term(alloc, known, scope, ast) {
        Ok(_) => Ok(()),
        Err(failure) => Err(failure),
    }
}

/// The number of the item that a key is.
#[tactic(auto, using(crate::proofs::Labels::same_at))]
fn item_of_key(alloc: Global, items: &[Item], key: &Ast) -> Result<u32, Failure<Breach>>
    ensures ok { IfOk result (λ n. n ≡ item_number_of (map item_of items.now) (term_of key.now)) }
    ensures none { OnOk result (spec.no_item (map item_of items.now) (term_of key.now) ≡ []) }
    ensures fault { IfErr result (IsFirst (spec.no_item (map item_of items.now) (term_of key.now))) }
{
    let found = item_number(items, key);
    if found >= items.len() {
        return Err(unknown_column(alloc, key.at, name_kept(key)));
    }
    match u32::try_from(found) {
        Ok(number) => Ok(number),
        Err(_) => Err(Failure::OutOfMemory),
    }
}

/// The text that the refusal of an `order by` key keeps.
fn name_kept(key: &Ast) -> &str
    ensures { result.now ≡ spec.name_kept (term_of key.now) }
{
    match &key.form {
        Form::Column(_, name) => name.text.as_str(),
        Form::Bare(name) => name.text.as_str(),
        _ => "order by",
    }
}
