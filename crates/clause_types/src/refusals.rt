//! Refusals of a part, with the token and the rule.

ghost use Rattle.std.specs.Prelude.{true};
ghost use Rattle.clause_types.specs.declared.fault.TypeRule.TheVariants as rule;
ghost use Rattle.clause_types.specs.Faults.{broken};
ghost use Rattle.clause_types.specs.Refusals.{IsFirst};

use crate::fault::{Breach, TypeRule};
use span_token::{Failure, OwnedText};
use std::alloc::Global;

/// The refusal for a rule that is broken at the token with the number `at`, from 0.
pub fn refusal(at: u32, rule: TypeRule) -> Failure<Breach>
    ensures { IsFirst (broken true at rule) result }
{
    Failure::Fault(Breach { at, rule })
}

pub(crate) fn unknown_alias(alloc: Global, at: u32, text: &str) -> Failure<Breach>
    ensures { IsFirst (broken true at (rule.UnknownAlias text.now)) result }
{
    match OwnedText::copied(alloc, text) {
        Ok(text) => refusal(at, TypeRule::UnknownAlias(text)),
        Err(_) => Failure::OutOfMemory,
    }
}

pub(crate) fn unknown_column(alloc: Global, at: u32, text: &str) -> Failure<Breach>
    ensures { IsFirst (broken true at (rule.UnknownColumn text.now)) result }
{
    match OwnedText::copied(alloc, text) {
        Ok(text) => refusal(at, TypeRule::UnknownColumn(text)),
        Err(_) => Failure::OutOfMemory,
    }
}

pub(crate) fn duplicate_alias(alloc: Global, at: u32, text: &str) -> Failure<Breach>
    ensures { IsFirst (broken true at (rule.DuplicateAlias text.now)) result }
{
    match OwnedText::copied(alloc, text) {
        Ok(text) => refusal(at, TypeRule::DuplicateAlias(text)),
        Err(_) => Failure::OutOfMemory,
    }
}

pub(crate) fn duplicate_column(alloc: Global, at: u32, text: &str) -> Failure<Breach>
    ensures { IsFirst (broken true at (rule.DuplicateColumn text.now)) result }
{
    match OwnedText::copied(alloc, text) {
        Ok(text) => refusal(at, TypeRule::DuplicateColumn(text)),
        Err(_) => Failure::OutOfMemory,
    }
}

pub(crate) fn unknown_function(alloc: Global, at: u32, text: &str) -> Failure<Breach>
    ensures { IsFirst (broken true at (rule.UnknownFunction text.now)) result }
{
    match OwnedText::copied(alloc, text) {
        Ok(text) => refusal(at, TypeRule::UnknownFunction(text)),
        Err(_) => Failure::OutOfMemory,
    }
}

pub(crate) fn unknown_policy(alloc: Global, at: u32, text: &str) -> Failure<Breach>
    ensures { IsFirst (broken true at (rule.UnknownPolicy text.now)) result }
{
    match OwnedText::copied(alloc, text) {
        Ok(text) => refusal(at, TypeRule::UnknownPolicy(text)),
        Err(_) => Failure::OutOfMemory,
    }
}
