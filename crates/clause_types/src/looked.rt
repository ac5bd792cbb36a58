//! What an extraction looks for: a pattern with its bound and groups, a dictionary, or blocks.

ghost use Rattle.std.specs.Prelude.{◌≡◌, [], map, option_map, flat_map, nat_abs, OnOk, IfOk, IfErr};
ghost use Rattle.aql_syntax.specs.Views.{name_of, number_of, range_of, flag_of, group_of, spec_of};
ghost use Rattle.aql_typed.specs.Views as typed;
ghost use Rattle.clause_types.specs.Calls.{are_gap_bounds as gap_bounds};
ghost use Rattle.clause_types.specs.Extractions as spec;
ghost use Rattle.clause_types.specs.Knowns.{known_of};
ghost use Rattle.clause_types.specs.Refusals.{IsFirst};

use crate::call::are_gap_bounds;
use crate::expression::refuse_pattern;
use crate::fault::{Breach, TypeRule};
use crate::known::Known;
use crate::refusals::refusal;
use aql_syntax::{Flag, Ident, Number, Range, Spec};
use aql_typed::Extraction;
use span_token::{Failure, OutOfMemory};
use std::alloc::Global;

/// What is looked for in the column with this number.
pub(crate) fn looked_for(
    alloc: Global,
    known: &Known<'_>,
    column: u32,
    sought: &Spec,
) -> Result<Extraction, Failure<Breach>>
    ensures ok { IfOk result (λ e. typed.extraction_of e ≡ spec.looked_for (known_of known.now) column (spec_of sought.now)) }
    ensures none { OnOk result (spec.spec_faults (known_of known.now) (spec_of sought.now) ≡ []) }
    ensures fault { IfErr result (IsFirst (spec.spec_faults (known_of known.now) (spec_of sought.now))) }
{
    match sought {
        Spec::Regex {
            pattern,
            bound,
            groups,
            ..
        } => regex(alloc, known, column, pattern, bound, groups),
        Spec::Dict { dict, flag, .. } => Ok(Extraction::Dict {
            column,
            dict: known.dict_number(dict.text.as_str(), is_exact(flag)),
        }),
        Spec::Blocks {
            count,
            gap,
            tokens,
            ..
        } => blocks(column, count, gap, *tokens),
    }
}

/// A pattern with its bound and its groups.
#[tactic(auto, using(crate::specs::FaultLaws::first_here, crate::specs::FaultLaws::first_later, crate::specs::FaultLaws::all_faultless))]
fn regex(
    alloc: Global,
    known: &Known<'_>,
    column: u32,
    pattern: &Ident,
    bound: &Option<Range>,
    groups: &[(Option<Number>, Ident)],
) -> Result<Extraction, Failure<Breach>>
    ensures ok { IfOk result (λ e. typed.extraction_of e ≡ spec.pattern_looked_for column ((known_of known.now).pattern_number pattern.now.text) (spec.group_numbers (map group_of groups.now)) (option_map range_of bound.now)) }
    ensures none { OnOk result (spec.pattern_faults (known_of known.now) (name_of pattern.now) (option_map range_of bound.now) (map group_of groups.now) ≡ []) }
    ensures fault { IfErr result (IsFirst (spec.pattern_faults (known_of known.now) (name_of pattern.now) (option_map range_of bound.now) (map group_of groups.now))) }
{
    let text = pattern.text.as_str();
    let fault = known.pattern_fault(alloc, text)?;
    refuse_pattern(pattern.at, fault)?;
    refuse_bound(bound)?;
    let count = known.group_count(alloc, text)?;
    let numbers = group_numbers(alloc, count, groups)?;
    let extraction = bounded(column, known.pattern_number(text), numbers, bound)?;
    Ok(extraction)
}

fn refuse_bound(bound: &Option<Range>) -> Result<(), Failure<Breach>>
    ensures ok { OnOk result (spec.bad_bound (option_map range_of bound.now) ≡ []) }
    ensures fault { IfErr result (IsFirst (spec.bad_bound (option_map range_of bound.now))) }
{
    match bound {
        None => Ok(()),
        Some(range) => refuse_count(range),
    }
}

/// Refuses a range of tokens or of spans that is out of its bounds.
fn refuse_count(range: &Range) -> Result<(), Failure<Breach>>
    ensures ok { OnOk result (spec.bad_range spec.are_count_bounds (range_of range.now) ≡ []) }
    ensures fault { IfErr result (IsFirst (spec.bad_range spec.are_count_bounds (range_of range.now))) }
{
    let low = low(range);
    let high = high(range).value;
    if are_count_bounds(low.value, high) {
        Ok(())
    } else {
        Err(refusal(
            low.at,
            TypeRule::BadRange {
                low: low.value,
                high,
            },
        ))
    }
}

fn low(range: &Range) -> &Number
    ensures { number_of result.now ≡ spec.low_of (range_of range.now) }
{
    match range {
        Range::One(number) => number,
        Range::Two(low, _) => low,
    }
}

fn high(range: &Range) -> &Number
    ensures { number_of result.now ≡ spec.high_of (range_of range.now) }
{
    match range {
        Range::One(number) => number,
        Range::Two(_, high) => high,
    }
}

fn are_count_bounds(low: i64, high: i64) -> bool
    ensures { result ≡ spec.are_count_bounds low high }
{
    1 <= low && (low <= high && high <= 1000)
}

/// The numbers of groups, from the left.
#[tactic(auto, using(crate::specs::FaultLaws::first_here, crate::specs::FaultLaws::first_later))]
fn group_numbers(
    alloc: Global,
    count: u32,
    groups: &[(Option<Number>, Ident)],
) -> Result<Vec<u32>, Failure<Breach>>
    ensures ok { IfOk result (λ numbers. spec.group_numbers (map group_of groups.now) ≡ numbers.items) }
    ensures none { OnOk result (spec.bad_groups count (map group_of groups.now) ≡ []) }
    ensures fault { IfErr result (IsFirst (spec.bad_groups count (map group_of groups.now))) }
{
    let mut numbers = Vec::new(alloc);
    for group in groups {
        let number = group_number(count, &group.0)?;
        numbers.push(number)?;
    }
    Ok(numbers)
}

/// The number of a group of a pattern that has so many.
fn group_number(count: u32, number: &Option<Number>) -> Result<u32, Failure<Breach>>
    ensures ok { IfOk result (λ n. n ≡ spec.group_number (option_map number_of number.now)) }
    ensures none { OnOk result (spec.bad_group count (option_map number_of number.now) ≡ []) }
    ensures fault { IfErr result (IsFirst (spec.bad_group count (option_map number_of number.now))) }
{
    match number {
        None => Ok(0),
        Some(number) => {
            if 0 <= number.value && number.value <= i64::from(count) {
                let group = narrow(number.value)?;
                Ok(group)
            } else {
                Err(refusal(number.at, TypeRule::BadGroup(number.value)))
            }
        }
    }
}

/// A number that fits; another one is want of memory.
fn narrow(value: i64) -> Result<u32, OutOfMemory>
    ensures { IfOk result (λ n. n ≡ nat_abs value) }
{
    match u32::try_from(value) {
        Ok(number) => Ok(number),
        Err(_) => Err(OutOfMemory),
    }
}

/// A pattern in a column, with its bound where it has one.
fn bounded(
    column: u32,
    pattern: u32,
    groups: Vec<u32>,
    bound: &Option<Range>,
) -> Result<Extraction, OutOfMemory>
    ensures { IfOk result (λ e. typed.extraction_of e ≡ spec.pattern_looked_for column pattern groups.items (option_map range_of bound.now)) }
{
    match bound {
        None => Ok(Extraction::Regex {
            column,
            pattern,
            groups,
        }),
        Some(range) => {
            let low = narrow(low(range).value)?;
            let high = narrow(high(range).value)?;
            Ok(Extraction::TokenRegex {
                column,
                low,
                high,
                pattern,
                groups,
            })
        }
    }
}

fn is_exact(flag: &Option<Flag>) -> bool
    ensures { result ≡ spec.is_exact_flag (option_map flag_of flag.now) }
{
    match flag {
        None => false,
        Some(Flag::Exact) => true,
        Some(Flag::IgnoreCase) => false,
    }
}

/// Blocks with their ranges.
#[tactic(auto, using(crate::specs::FaultLaws::first_here, crate::specs::FaultLaws::first_later, crate::specs::FaultLaws::all_faultless))]
fn blocks(
    column: u32,
    count: &Range,
    gap: &Range,
    tokens: bool,
) -> Result<Extraction, Failure<Breach>>
    ensures ok { IfOk result (λ e. typed.extraction_of e ≡ spec.blocks_looked_for column (range_of count.now) (range_of gap.now) tokens) }
    ensures none { OnOk result (spec.block_faults (range_of count.now) (range_of gap.now) ≡ []) }
    ensures fault { IfErr result (IsFirst (spec.block_faults (range_of count.now) (range_of gap.now))) }
{
    refuse_count(count)?;
    refuse_gap(gap)?;
    let least = narrow(low(count).value)?;
    let most = narrow(high(count).value)?;
    Ok(Extraction::Blocks {
        column,
        low: least,
        high: most,
        gap_low: low(gap).value,
        gap_high: high(gap).value,
        tokens,
    })
}

/// Refuses a range of gaps that is out of its bounds.
fn refuse_gap(range: &Range) -> Result<(), Failure<Breach>>
    ensures ok { OnOk result (spec.bad_range gap_bounds (range_of range.now) ≡ []) }
    ensures fault { IfErr result (IsFirst (spec.bad_range gap_bounds (range_of range.now))) }
{
    let low = low(range);
    let high = high(range).value;
    if are_gap_bounds(low.value, high) {
        Ok(())
    } else {
        Err(refusal(
            low.at,
            TypeRule::BadRange {
                low: low.value,
                high,
            },
        ))
    }
}
