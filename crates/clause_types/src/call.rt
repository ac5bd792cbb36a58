//! Calls: what is wrong with one, and what it stands for.

ghost use Rattle.std.specs.Prelude.{◌≡◌, [], map, IfOk, OnOk, IfErr, Some};
ghost use Rattle.scalar_ops.specs.Kinds as kinds;
ghost use Rattle.scalar_ops.specs.Views.{term_of};
ghost use Rattle.clause_types.specs.Callees.{wanted_of};
ghost use Rattle.clause_types.specs.Calls as spec;
ghost use Rattle.clause_types.specs.Refusals.{IsFirst};
ghost use Rattle.clause_types.specs.Knowns.{known_of};
ghost use Rattle.clause_types.specs.Typings as typing;
ghost use Rattle.clause_types.specs.Views.{meant_of, seen};

use crate::fault::{Breach, TypeRule};
use crate::function::{Function, function_named};
use crate::given::{Given, Meant};
use crate::known::Known;
use crate::refusals::{refusal, unknown_function};
use crate::wanted::{Callee, Wanted};
use scalar_ops::{Expr, Kind, Op};
use span_token::{Failure, OutOfMemory};
use std::alloc::Global;

/// Whether the bounds of a gap are in order.
pub(crate) fn are_gap_bounds(low: i64, high: i64) -> bool
    ensures { result ≡ spec.are_gap_bounds low high }
{
    0 <= low && low <= high
}

/// Whether an argument of the second kind is one of the first.
pub(crate) fn suits(wanted: Kind, found: Kind) -> bool
    ensures { result ≡ kinds.suits wanted found }
{
    match wanted {
        Kind::Integer => matches!(found, Kind::Integer),
        Kind::Boolean => matches!(found, Kind::Boolean),
        Kind::Text => matches!(found, Kind::Text),
        Kind::Span => matches!(found, Kind::Span),
        Kind::SpanOrText => matches!(found, Kind::Text | Kind::Span),
        Kind::Any => matches!(
            found,
            Kind::Integer | Kind::Boolean | Kind::Text | Kind::Span
        ),
        _ => false,
    }
}

/// Whether an argument is what is wanted.
pub(crate) fn fits(known: &Known<'_>, wanted: Wanted, kind: Kind, meant: &Meant) -> bool
    ensures { result ≡ spec.fits (known_of known.now) wanted kind (meant_of meant.now) }
{
    match wanted {
        Wanted::OfKind(Kind::Number) => matches!(meant, Meant::Value(Expr::Int(_))),
        Wanted::OfKind(Kind::Pattern) => matches!(meant, Meant::Pattern(_)),
        Wanted::OfKind(Kind::Dictionary) => match meant {
            Meant::Value(Expr::Str(text)) => known.is_dictionary(text.as_str()),
            _ => false,
        },
        Wanted::OfKind(wanted) => suits(wanted, kind),
        Wanted::Flag => match meant {
            Meant::Value(Expr::Str(text)) => is_flag(text.as_str()),
            _ => false,
        },
    }
}

fn is_flag(text: &str) -> bool
    ensures { result ≡ spec.is_flag text.now }
{
    text == "Exact" || text == "IgnoreCase"
}

/// Refuses what isn't wanted.
pub(crate) fn refuse_wrong(
    known: &Known<'_>,
    wanted: Wanted,
    arg: &Given,
) -> Result<(), Failure<Breach>>
    ensures ok { OnOk result (spec.wrong_argument (known_of known.now) wanted (seen arg.now) ≡ []) }
    ensures fault { IfErr result (IsFirst (spec.wrong_argument (known_of known.now) wanted (seen arg.now))) }
{
    if fits(known, wanted, arg.kind, &arg.meant) {
        Ok(())
    } else {
        Err(refusal(
            arg.at,
            TypeRule::WrongArgument {
                wanted: wanted.kind(),
                found: arg.kind,
            },
        ))
    }
}

/// Refuses the first argument, from the left, that isn't what is wanted, or a missing one.
pub(crate) fn refuse_unfit(
    known: &Known<'_>,
    callee: Callee,
    at: u32,
    args: &[Given],
) -> Result<(), Failure<Breach>>
    ensures ok { OnOk result (spec.wrong_arguments (known_of known.now) at (wanted_of callee (typing.kinds_of (map seen args.now))) (map seen args.now) ≡ []) }
    ensures fault { IfErr result (IsFirst (spec.wrong_arguments (known_of known.now) at (wanted_of callee (typing.kinds_of (map seen args.now))) (map seen args.now))) }
{
    for (number, arg) in args.iter().enumerate() {
        match callee.wanted(args, number) {
            Some(wanted) => refuse_wrong(known, wanted, arg)?,
            None => {
                return Err(refusal(
                    arg.at,
                    TypeRule::WrongArgument {
                        wanted: Kind::Nothing,
                        found: arg.kind,
                    },
                ));
            }
        }
    }
    match callee.wanted(args, args.len()) {
        None => Ok(()),
        Some(wanted) => Err(refusal(
            at,
            TypeRule::WrongArgument {
                wanted: wanted.kind(),
                found: Kind::Nothing,
            },
        )),
    }
}

/// A call whose arguments have no fault.
#[tactic(auto, using(crate::specs::FaultLaws::first_here, crate::specs::FaultLaws::first_later, crate::proofs::Operands::faultless, crate::specs::FaultLaws::all_faultless))]
pub(crate) fn call(
    alloc: Global,
    known: &Known<'_>,
    at: u32,
    name: &str,
    args: Vec<Given>,
) -> Result<Given, Failure<Breach>>
    ensures ok { IfOk result (λ given. spec.typing_of_call (known_of known.now) at name.now (map seen args.items) ≡ seen given) }
    ensures fault { IfErr result (IsFirst (spec.typing_of_call (known_of known.now) at name.now (map seen args.items)).faults) }
{
    match function_named(name) {
        None => Err(unknown_function(alloc, at, name)),
        Some(function) => call_of(alloc, known, at, name, function, args),
    }
}

/// A call of a function.
#[tactic(auto, using(crate::specs::FaultLaws::first_here, crate::specs::FaultLaws::first_later, crate::proofs::Operands::faultless, crate::specs::FaultLaws::all_faultless))]
fn call_of(
    alloc: Global,
    known: &Known<'_>,
    at: u32,
    name: &str,
    function: Function,
    args: Vec<Given>,
) -> Result<Given, Failure<Breach>>
    ensures ok { IfOk result (λ given. spec.typing_with (known_of known.now) at name.now (map seen args.items) (Some function) ≡ seen given) }
    ensures fault { IfErr result (IsFirst (spec.typing_with (known_of known.now) at name.now (map seen args.items) (Some function)).faults) }
{
    refuse_unfit(known, Callee::Function(function), at, &args)?;
    refuse_bounds(function, &args)?;
    let expr = applied(alloc, known, function, args)?;
    Ok(Given {
        at,
        kind: function.kind_given(),
        meant: Meant::Value(expr),
    })
}

/// Refuses bounds that aren't in order.
fn refuse_bounds(function: Function, args: &[Given]) -> Result<(), Failure<Breach>>
    ensures ok { OnOk result (spec.bad_bounds_of function (map seen args.now) ≡ []) }
    ensures fault { IfErr result (IsFirst (spec.bad_bounds_of function (map seen args.now))) }
{
    match function {
        Function::Follows | Function::FollowsTok => match args {
            [_, _, low, high, ..] => in_bounds(low.at, low.meant.integer(), high.meant.integer()),
            _ => Ok(()),
        },
        _ => Ok(()),
    }
}

/// Refuses bounds that aren't in order, at the first.
fn in_bounds(at: u32, low: i64, high: i64) -> Result<(), Failure<Breach>>
    ensures ok { OnOk result (spec.bad_gap at low high ≡ []) }
    ensures fault { IfErr result (IsFirst (spec.bad_gap at low high)) }
{
    if are_gap_bounds(low, high) {
        Ok(())
    } else {
        Err(refusal(at, TypeRule::BadRange { low, high }))
    }
}

/// What a call without a fault stands for.
fn applied(
    alloc: Global,
    known: &Known<'_>,
    function: Function,
    args: Vec<Given>,
) -> Result<Expr, OutOfMemory>
    ensures { IfOk result (λ expr. term_of expr ≡ spec.applied_to (known_of known.now) function (map seen args.items)) }
{
    let op = operator(known, function, &args);
    let operands = operands(function, args)?;
    let args = values(alloc, operands)?;
    Ok(Expr::Call { op, args })
}

/// The operator of a function with its arguments.
fn operator(known: &Known<'_>, function: Function, args: &[Given]) -> Op
    ensures { result ≡ spec.operator (known_of known.now) function (map seen args.now) }
{
    match function {
        Function::GetBegin => Op::GetBegin,
        Function::GetEnd => Op::GetEnd,
        Function::GetLength => Op::GetLength,
        Function::GetText => Op::GetText,
        Function::CombineSpans => Op::CombineSpans,
        Function::SpanBetween => Op::SpanBetween,
        Function::LeftContext => Op::LeftContext,
        Function::RightContext => Op::RightContext,
        Function::LeftContextTok => Op::LeftContextTok,
        Function::RightContextTok => Op::RightContextTok,
        Function::Follows => Op::Follows {
            min: least_gap(args),
            max: greatest_gap(args),
        },
        Function::FollowsTok => Op::FollowsTok {
            min: least_gap(args),
            max: greatest_gap(args),
        },
        Function::Overlaps => Op::Overlaps,
        Function::Contains => Op::Contains,
        Function::Equals => Op::Equals,
        Function::GreaterThan => Op::GreaterThan,
        Function::NotNull => Op::NotNull,
        Function::ContainsRegex => Op::ContainsRegex(known.pattern_number(first_text(args))),
        Function::MatchesRegex => Op::MatchesRegex(known.pattern_number(first_text(args))),
        Function::ContainsDict => {
            Op::ContainsDict(known.dict_number(first_text(args), is_exact(args)))
        }
        Function::MatchesDict => {
            Op::MatchesDict(known.dict_number(first_text(args), is_exact(args)))
        }
        Function::Not => Op::Not,
        Function::And => Op::And,
        Function::Or => Op::Or,
    }
}

fn least_gap(args: &[Given]) -> i64
    ensures { result ≡ spec.least_gap (map seen args.now) }
{
    match args {
        [_, _, low, ..] => low.meant.integer(),
        _ => 0,
    }
}

fn greatest_gap(args: &[Given]) -> i64
    ensures { result ≡ spec.greatest_gap (map seen args.now) }
{
    match args {
        [_, _, _, high, ..] => high.meant.integer(),
        _ => 0,
    }
}

fn first_text(args: &[Given]) -> &str
    ensures { result.now ≡ typing.text_meant (spec.first_meant (map seen args.now)) }
{
    match args {
        [] => "",
        [arg, ..] => arg.meant.text(),
    }
}

fn is_exact(args: &[Given]) -> bool
    ensures { result ≡ spec.is_exact (map seen args.now) }
{
    match args {
        [_, flag, _, ..] => flag.meant.text() == "Exact",
        _ => false,
    }
}

/// The arguments that the operator is applied to.
#[tactic(auto, using(crate::proofs::Operands::last_seen))]
fn operands(function: Function, args: Vec<Given>) -> Result<Vec<Given>, OutOfMemory>
    ensures { IfOk result (λ operands. map seen operands.items ≡ spec.operands function (map seen args.items)) }
{
    let mut args = args;
    match function {
        Function::Follows | Function::FollowsTok => {
            args.truncate(2);
            Ok(args)
        }
        Function::ContainsRegex | Function::MatchesRegex => {
            let count = args.len().min(1);
            let rest = args.split_off(count)?;
            Ok(rest)
        }
        Function::ContainsDict | Function::MatchesDict => {
            let count = args.len().saturating_sub(1);
            let rest = args.split_off(count)?;
            Ok(rest)
        }
        _ => Ok(args),
    }
}

/// The values of arguments.
fn values(alloc: Global, args: Vec<Given>) -> Result<Vec<Expr>, OutOfMemory>
    ensures { IfOk result (λ values. map term_of values.items ≡ typing.terms_meant (map seen args.items)) }
{
    let mut values = Vec::new(alloc);
    for arg in args {
        values.push(arg.meant.into_expr())?;
    }
    Ok(values)
}
