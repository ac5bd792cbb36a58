ghost use Rattle.std.specs.Prelude.{◌≡◌, ◌∷◌, [], ℕ, ◌+◌, ◌<◌, ◌≤◌, ◌==◌, max, drop, length, vec_len, slice_index, slice_index_or, if◌then◌else◌, option_map, MatchOption, IfOk, OnOk, All};
ghost use Rattle.aql_regex_extract.specs.Weight.{behind, begins_number, number_at, after_digits, most_weight, closed, bounded, count_behind, count_at, chain_at, product_below, weight_of};
ghost use Rattle.aql_regex_extract.specs.Capped.{capped, capped_count, after_chain, greatest_known, IsCounted};

use span_token::OutOfMemory;
use std::alloc::Global;

/// Above this a weight isn't counted.
const MOST: u64 = 1_000_000;

/// The weight of a pattern.
pub(crate) fn weigh(alloc: Global, text: &[u8]) -> Result<u64, OutOfMemory>
    ensures weight { IfOk result (λ weight. weight ≡ weight_of text.now) }
    ensures small { IfOk result (λ weight. weight ≤ most_weight) }
{
    let mut greatest = Vec::new(alloc);
    greatest.push(1)?;
    let mut depth = 0;
    let mut rest = text;
    'pieces: while let Some((first, others)) = split(rest) {
        (depth, rest) = read_piece(&mut greatest, depth, rest, first, others)?;
    }
    Ok(product(&greatest))
}

/// The first byte and the others.
fn split(text: &[u8]) -> Option<(u8, &[u8])>
    ensures { MatchOption result (text.now ≡ []) (λ p. text.now ≡ p.0 ∷ p.1.now) }
{
    match text {
        [first, rest @ ..] => Some((*first, rest)),
        [] => None,
    }
}

/// Reads the next piece of a text that isn't empty: a pair, a parenthesis, a chain or a byte. Gives the
/// depth behind it, and what follows it.
fn read_piece<'t>(
    greatest: &mut Vec<u64>,
    depth: usize,
    text: &'t [u8],
    first: u8,
    others: &'t [u8],
) -> Result<(usize, &'t [u8]), OutOfMemory>
    requires known { depth < vec_len greatest.old }
    requires parts { text.now ≡ first ∷ others.now }
    requires counted { All IsCounted greatest.old.items }
    ensures known { IfOk result (λ r. r.0 < vec_len greatest.new) }
    ensures shorter { IfOk result (λ r. length r.1.now < length text.now) }
    ensures room { IfOk result (λ r. vec_len greatest.new + length r.1.now ≤ vec_len greatest.old + length text.now) }
    ensures counted { OnOk result (All IsCounted greatest.new.items) }
    ensures kept { IfOk result (λ r. (d : ℕ) → greatest_known greatest.new.items r.0 r.1.now d
        ≡ greatest_known greatest.old.items depth text.now d) }
{
    match first {
        b'\\' => Ok((depth, pass(others))),
        b'(' => {
            deepen(greatest, depth + 1)?;
            Ok((depth + 1, others))
        }
        b')' => Ok((depth.saturating_sub(1), others)),
        b'{' => {
            let (number, rest) = read_chain(text);
            raise(greatest, depth, number);
            if rest.len() < text.len() {
                return Ok((depth, rest));
            }
            Ok((depth, others))
        }
        _ => Ok((depth, others)),
    }
}

/// All but the first byte.
fn pass(text: &[u8]) -> &[u8]
    ensures { result.now ≡ drop 1 text.now }
{
    match text {
        [_, rest @ ..] => rest,
        [] => text,
    }
}

/// Makes room for a depth, at which no chain stands so far.
fn deepen(greatest: &mut Vec<u64>, depth: usize) -> Result<(), OutOfMemory>
    requires next { depth ≤ vec_len greatest.old }
    ensures known { OnOk result (depth < vec_len greatest.new) }
    ensures same { OnOk result ((d : ℕ) → slice_index_or greatest.new.items d 1 ≡ slice_index_or greatest.old.items d 1) }
    ensures counted { All IsCounted greatest.old.items → OnOk result (All IsCounted greatest.new.items) }
    ensures len { OnOk result (vec_len greatest.new ≤ max (vec_len greatest.old) (depth + 1)) }
{
    if depth == greatest.len() {
        greatest.push(1)?;
    }
    Ok(())
}

/// The number of the chain at the front, and what follows it.
fn read_chain(text: &[u8]) -> (u64, &[u8])
    ensures number { result.0 ≡ capped (chain_at text.now) }
    ensures rest { result.1.now ≡ after_chain text.now }
    ensures shorter { length result.1.now ≤ length text.now }
{
    let mut number = 1;
    let mut rest = text;
    'counts: while let Some((count, others)) = count_at(rest) {
        number = (number * count).min(MOST);
        rest = others;
    }
    (number, rest)
}

/// The count at the front.
#[tactic(auto, unfolding(crate::specs::Weight::count_at))]
fn count_at(text: &[u8]) -> Option<(u64, &[u8])>
    ensures { option_map (λ c. (c.0, c.1.now)) result ≡ capped_count (count_at text.now) }
{
    count_behind(behind(b'{', text)?)
}

/// Behind a brace, the rest of a count.
fn count_behind(text: &[u8]) -> Option<(u64, &[u8])>
    ensures { option_map (λ c. (c.0, c.1.now)) result ≡ capped_count (count_behind text.now) }
{
    if !begins_number(text) {
        return None;
    }
    let (low, rest) = read_number(text);
    closed(low, rest).or(bounded(low, rest))
}

/// Whether a digit stands at the front.
fn begins_number(text: &[u8]) -> bool
    ensures { result ≡ begins_number text.now }
{
    match split(text) {
        Some((first, _)) => first.is_ascii_digit(),
        None => false,
    }
}

/// The number at the front, and what follows its digits.
fn read_number(text: &[u8]) -> (u64, &[u8])
    ensures number { result.0 ≡ capped (number_at text.now) }
    ensures rest { result.1.now ≡ after_digits text.now }
    ensures shorter { length result.1.now ≤ length text.now }
{
    let mut number = 0;
    let mut rest = text;
    'digits: while let Some((first, others)) = split(rest) {
        if !first.is_ascii_digit() {
            break;
        }
        number = (10 * number + u64::from(first - b'0')).min(MOST);
        rest = others;
    }
    (number, rest)
}

/// The end of a count whose number is counted up to the limit.
fn closed(number: u64, text: &[u8]) -> Option<(u64, &[u8])>
    ensures { (n : ℕ) → number ≡ capped n
        → option_map (λ c. (c.0, c.1.now)) result ≡ capped_count (closed n text.now) }
{
    let rest = behind(b'}', text)?;
    Some((number.max(1), behind(b'?', rest).unwrap_or(rest)))
}

/// What stands behind the byte, where the text begins with it.
fn behind(byte: u8, text: &[u8]) -> Option<&[u8]>
    ensures { option_map (λ rest. rest.now) result ≡ behind byte text.now }
{
    match split(text) {
        Some((first, rest)) if first == byte => Some(rest),
        _ => None,
    }
}

/// The rest of a count from its comma on, with a second number where one stands there.
fn bounded(low: u64, text: &[u8]) -> Option<(u64, &[u8])>
    ensures { (n : ℕ) → low ≡ capped n
        → option_map (λ c. (c.0, c.1.now)) result ≡ capped_count (bounded n text.now) }
{
    let (high, rest) = read_number(behind(b',', text)?);
    closed(low.max(high), rest)
}

/// Takes `number` as the greatest chain at `depth`, if it is.
fn raise(greatest: &mut Vec<u64>, depth: usize, number: u64)
    requires known { depth < vec_len greatest.old }
    requires counted { IsCounted number }
    ensures raised { (d : ℕ) → slice_index_or greatest.new.items d 1
        ≡ (if depth == d then max (slice_index_or greatest.old.items d 1) number else slice_index_or greatest.old.items d 1) }
    ensures counted { All IsCounted greatest.old.items → All IsCounted greatest.new.items }
    ensures len { vec_len greatest.new ≡ vec_len greatest.old }
{
    if greatest[depth] < number {
        greatest[depth] = number;
    }
}

/// The product, counted up to the limit.
fn product(numbers: &[u64]) -> u64
    requires { All IsCounted numbers.now }
    ensures { result ≡ capped (product_below (slice_index numbers.now) (length numbers.now)) }
{
    let mut product = 1;
    for number in numbers {
        product = (product * *number).min(MOST);
    }
    product
}
