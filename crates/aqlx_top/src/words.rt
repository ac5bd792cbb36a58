//! What command words ask for.

ghost use Rattle.std.specs.Prelude.{◌≡◌, ◌≤◌, ◌&&◌, if◌then◌else◌, map, option_map, string_bytes, Some, None, IfSome, true, nat_le, length};
ghost use Rattle.std.specs.Char.{is_ascii_digit};
ghost use Rattle.std.specs.List.{list_all};
ghost use Rattle.std.specs.Str.{bytes_eq};
ghost use Rattle.aqlx_top.specs.Orders.{asked_told, order_told, IsForWorkers};
ghost use Rattle.aqlx_top.specs.Words.{count_of, document_limit, is_option, is_workers, number_behind, order_by, order_in_four, order_of, worker_limit};

/// The most workers that may be asked for.
const MOST_WORKERS: u32 = 16;

/// The most generated documents that may be asked for.
const MOST_DOCUMENTS: u32 = 100_000;

/// What is asked for: to run the program file of this name, to check it, to show its plan, to write so
/// many generated documents, or the demonstration on so many.
pub(crate) enum Order<'w> {
    Run(&'w str),
    Check(&'w str),
    Plan(&'w str),
    Gen(u32),
    Demo(u32),
}

/// What is asked for, and by how many workers: 1 where no number is named.
pub(crate) struct Asked<'w> {
    pub order: Order<'w>,
    pub workers: u32,
}

/// What the command words ask for: `MODE PROGRAM`, with or without the option `--workers N`, N from 1 to
/// 16, before MODE or before or after PROGRAM; None for all others. MODE is `run`, `check` or `plan`, and
/// PROGRAM any word, or it is `gen` or `demo`, and PROGRAM digits with a value of at most 100,000.
pub(crate) fn order_of(words: &Vec<String>) -> Option<Asked<'_>>
    ensures order { option_map asked_told result ≡ order_of (map string_bytes words.now.items) }
    ensures workers { IfSome result IsForWorkers }
{
    order_in(words.as_slice())
}

fn order_in(words: &[String]) -> Option<Asked<'_>>
    ensures order { option_map asked_told result ≡ order_of (map string_bytes words.now) }
    ensures workers { IfSome result IsForWorkers }
{
    match words {
        [mode, word] => by_workers(order_by(mode.as_str(), word.as_str()), 1),
        [a, b, c, d] => order_in_four(a.as_str(), b.as_str(), c.as_str(), d.as_str()),
        _ => None,
    }
}

/// What four words ask for.
fn order_in_four<'w>(a: &'w str, b: &'w str, c: &'w str, d: &'w str) -> Option<Asked<'w>>
    ensures order { option_map asked_told result ≡ order_in_four a.now b.now c.now d.now }
    ensures workers { IfSome result IsForWorkers }
{
    if is_option(c) && is_workers(d) {
        return by_workers(order_by(a, b), workers_of(d));
    }
    if is_option(b) && is_workers(c) {
        return by_workers(order_by(a, d), workers_of(c));
    }
    if is_option(a) && is_workers(b) {
        return by_workers(order_by(c, d), workers_of(b));
    }
    None
}

/// An order, where there is one, for so many workers.
fn by_workers<'w>(order: Option<Order<'w>>, workers: u32) -> Option<Asked<'w>>
    requires within { (1 ≤ workers) × (workers ≤ worker_limit) }
    ensures order { option_map asked_told result ≡ option_map order_told order.entry }
    ensures workers { IfSome result IsForWorkers }
{
    match order {
        Some(order) => Some(Asked { order, workers }),
        None => None,
    }
}

/// What a mode asks for with a word behind it.
fn order_by<'w>(mode: &str, word: &'w str) -> Option<Order<'w>>
    ensures { option_map order_told result ≡ order_by mode.now word.now }
{
    if is_word(mode, "run") {
        Some(Order::Run(word))
    } else if is_word(mode, "check") {
        Some(Order::Check(word))
    } else if is_word(mode, "plan") {
        Some(Order::Plan(word))
    } else if is_word(mode, "gen") {
        match count_of(word) {
            Some(count) => Some(Order::Gen(count)),
            None => None,
        }
    } else if is_word(mode, "demo") {
        match count_of(word) {
            Some(count) => Some(Order::Demo(count)),
            None => None,
        }
    } else {
        None
    }
}

fn is_word(word: &str, wanted: &str) -> bool
    ensures { result ≡ bytes_eq word.now wanted.now }
{
    word == wanted
}

fn is_option(word: &str) -> bool
    ensures { result ≡ is_option word.now }
{
    word == "--workers"
}

/// Whether a word is digits with a value from 1 to 16.
fn is_workers(word: &str) -> bool
    ensures { result ≡ is_workers word.now }
{
    match number_of(word, MOST_WORKERS) {
        Some(number) => 1 <= number,
        None => false,
    }
}

/// The number of workers that a word asks for; 1 for a word that asks for none.
fn workers_of(word: &str) -> u32
    ensures number { is_workers word.now ≡ true → result ≡ number_behind 0 word.now }
    ensures within { (1 ≤ result) × (result ≤ worker_limit) }
{
    match number_of(word, MOST_WORKERS) {
        Some(number) => number.max(1),
        None => 1,
    }
}

/// The number of documents that a word asks for: digits, one at least, with a value of at most 100,000.
fn count_of(word: &str) -> Option<u32>
    ensures { result ≡ count_of word.now }
{
    if word.len() == 0 {
        return None;
    }
    number_of(word, MOST_DOCUMENTS)
}

/// The number that a word of digits writes, where it is at most `most`; 0 for no digit.
#[tactic(auto, using(crate::proofs::Numbers::cut_behind))]
fn number_of(word: &str, most: u32) -> Option<u32>
    requires small { most ≤ document_limit }
    ensures { result ≡ (if list_all is_ascii_digit word.now && nat_le (number_behind 0 word.now) most then Some (number_behind 0 word.now) else None) }
{
    let mut number: u32 = 0;
    for digit in word.as_bytes() {
        if !digit.is_ascii_digit() {
            return None;
        }
        number = (10 * number + u32::from(*digit - 48)).min(most + 1);
    }
    if number <= most { Some(number) } else { None }
}
