//! Expressions: the first fault of one, or what it stands for.

ghost use Rattle.std.specs.Prelude.{◌≡◌, [], map, OnOk, IfOk, IfErr};
ghost use Rattle.aql_syntax.specs.Trees as tree;
ghost use Rattle.aql_syntax.specs.Views.{term_of};
ghost use Rattle.clause_types.specs.Calls.{typing_of_call};
ghost use Rattle.clause_types.specs.Expressions as spec;
ghost use Rattle.clause_types.specs.Refusals.{IsFirst};
ghost use Rattle.clause_types.specs.Knowns.{known_of};
ghost use Rattle.clause_types.specs.Typings.{faults_of};
ghost use Rattle.clause_types.specs.Views.{seen, scope_of};

use crate::call::call;
use crate::fault::{Breach, TypeRule};
use crate::given::{Given, Meant};
use crate::known::Known;
use crate::refusals::{refusal, unknown_function};
use crate::scope::{Scope, bare, column};
use aql_regex_extract::PatternFault;
use aql_syntax::{Ast, Form};
use scalar_ops::{Expr, Kind};
use span_token::{Failure, OutOfMemory, OwnedText};
use std::alloc::Global;

/// An expression in the scope of its names.
///
/// Recurses as deep as calls nest.
///
/// Meaning: `typing`, `specs/Expressions.antt`.
#[cycle(term)]
#[tactic(auto, using(crate::specs::FaultLaws::first_here, crate::proofs::Terms::call_typing))]
pub(crate) fn term(
    alloc: Global,
    known: &Known<'_>,
    scope: &Scope<'_>,
    ast: &Ast,
) -> Result<Given, Failure<Breach>>
    ensures ok { IfOk result (λ given. spec.typing (known_of known.now) (scope_of scope.now) (term_of ast.now) ≡ seen given) }
    ensures fault { IfErr result (IsFirst (spec.typing (known_of known.now) (scope_of scope.now) (term_of ast.now)).faults) }
{
    match &ast.form {
        Form::Int(value) => Ok(integer(ast.at, *value)),
        Form::Str(text) => string(alloc, ast.at, text.as_str()),
        Form::Regex(text) => regex(alloc, known, ast.at, text.as_str()),
        Form::Column(alias, name) => column(alloc, scope.sources, ast.at, alias, name),
        Form::Bare(name) => bare(alloc, scope.names, ast.at, name.text.as_str()),
        Form::Call { name, args } => called(alloc, known, scope, ast.at, name.as_str(), args),
        Form::Star { name } => Err(unknown_function(alloc, ast.at, name.as_str())),
    }
}

fn integer(at: u32, value: i64) -> Given
    ensures { seen result ≡ spec.typing_of_int at value }
{
    Given {
        at,
        kind: Kind::Integer,
        meant: Meant::Value(Expr::Int(value)),
    }
}

fn string(alloc: Global, at: u32, text: &str) -> Result<Given, Failure<Breach>>
    ensures ok { IfOk result (λ given. spec.typing_of_str at text.now ≡ seen given) }
    ensures fault { IfErr result (IsFirst (spec.typing_of_str at text.now).faults) }
{
    let text = OwnedText::copied(alloc, text)?;
    Ok(Given {
        at,
        kind: Kind::Text,
        meant: Meant::Value(Expr::Str(text)),
    })
}

fn regex(alloc: Global, known: &Known<'_>, at: u32, text: &str) -> Result<Given, Failure<Breach>>
    ensures ok { IfOk result (λ given. spec.typing_of_regex (known_of known.now) at text.now ≡ seen given) }
    ensures fault { IfErr result (IsFirst (spec.typing_of_regex (known_of known.now) at text.now).faults) }
{
    let fault = known.pattern_fault(alloc, text)?;
    refuse_pattern(at, fault)?;
    let text = OwnedText::copied(alloc, text)?;
    Ok(Given {
        at,
        kind: Kind::Pattern,
        meant: Meant::Pattern(text),
    })
}

/// Refuses what is no pattern, at its token.
pub(crate) fn refuse_pattern(at: u32, fault: Option<PatternFault>) -> Result<(), Failure<Breach>>
    ensures ok { OnOk result (spec.wrong_pattern at fault ≡ []) }
    ensures fault { IfErr result (IsFirst (spec.wrong_pattern at fault)) }
{
    match fault {
        None => Ok(()),
        Some(PatternFault::Bad) => Err(refusal(at, TypeRule::BadPattern)),
        Some(PatternFault::Large { bytes, weight }) => {
            Err(refusal(at, TypeRule::PatternLarge { bytes, weight }))
        }
    }
}

/// A call: its arguments, from the left, and then the call itself.
#[cycle(term)]
#[tactic(auto, using(crate::specs::FaultLaws::first_here, crate::proofs::Terms::call_typing))]
fn called(
    alloc: Global,
    known: &Known<'_>,
    scope: &Scope<'_>,
    at: u32,
    name: &str,
    args: &[Ast],
) -> Result<Given, Failure<Breach>>
    ensures ok { IfOk result (λ given. typing_of_call (known_of known.now) at name.now (map (spec.typing (known_of known.now) (scope_of scope.now)) (map term_of args.now)) ≡ seen given) }
    ensures fault { IfErr result (IsFirst (typing_of_call (known_of known.now) at name.now (map (spec.typing (known_of known.now) (scope_of scope.now)) (map term_of args.now))).faults) }
{
    let args = terms(alloc, known, scope, args)?;
    call(alloc, known, at, name, args)
}

/// Expressions, from the left.
#[cycle(term)]
#[tactic(auto, using(crate::specs::FaultLaws::first_here, crate::proofs::Terms::call_typing))]
pub(crate) fn terms(
    alloc: Global,
    known: &Known<'_>,
    scope: &Scope<'_>,
    asts: &[Ast],
) -> Result<Vec<Given>, Failure<Breach>>
    ensures ok { IfOk result (λ all. map (spec.typing (known_of known.now) (scope_of scope.now)) (map term_of asts.now) ≡ map seen all.items) }
    ensures fault { IfErr result (IsFirst (faults_of (map (spec.typing (known_of known.now) (scope_of scope.now)) (map term_of asts.now)))) }
{
    let mut all = Vec::new(alloc);
    for ast in asts {
        let given = term(alloc, known, scope, ast)?;
        all.push(given)?;
    }
    Ok(all)
}
