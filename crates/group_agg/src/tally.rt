ghost use Rattle.std.specs.Prelude.{ℕ, ◌≡◌, ◌<◌, ◌+◌, ◌^◌, length, All};
ghost use Rattle.row_values.specs.Datums.{datum_of};
ghost use Rattle.group_agg.specs.Groups.{HasKey, HasColumn, key_of};
ghost use Rattle.group_agg.specs.Tallies.{sofar_of, start, plus, plus_one_for, plus_value, comes_before, better, improved, added, finished, IsBounded};

use crate::Agg;
use row_values::{Row, Value, compare_values};

/// What is known of a group so far: an exact total, or the best value, Null before the first.
#[derive(Clone, Copy, Debug)]
pub(crate) enum Tally<'d> {
    Total(i128),
    Best(Value<'d>),
}

/// The tally before the first row of a group, where this is the row.
pub(crate) fn started<'d>(agg: Agg, keys: &[u32], row: &Row<'d>) -> Tally<'d>
    requires key { HasKey (length keys.now) agg }
    requires columns { All (λ column. column < length row.now) keys.now }
    ensures { sofar_of result ≡ start agg (key_of keys.now row.now) }
{
    match agg {
        Agg::Key(k) => Tally::Best(row.get(keys[k as usize])),
        Agg::Count | Agg::CountOf(_) => Tally::Total(0),
        Agg::Sum(_) | Agg::Min(_) | Agg::Max(_) => Tally::Best(Value::Null),
    }
}

impl<'d> Tally<'d> {
    /// The tally with one more row of the group.
    pub(crate) fn with_row(self, agg: Agg, row: &Row<'d>) -> Tally<'d>
        requires column { HasColumn (length row.now) agg }
        requires room { IsBounded (2 ^ 32) (sofar_of self) }
        ensures value { sofar_of result ≡ added agg (sofar_of self.entry) row.now }
        ensures bounded { (n : ℕ) → IsBounded n (sofar_of self.entry) → IsBounded (n + 1) (sofar_of result) }
    {
        match agg {
            Agg::Key(_) => self,
            Agg::Count => self.plus(1),
            Agg::CountOf(column) => self.plus_one_for(row.get(column)),
            Agg::Sum(column) => self.plus_value(row.get(column)),
            Agg::Min(column) => self.improved(row.get(column), false),
            Agg::Max(column) => self.improved(row.get(column), true),
        }
    }

    /// With one more integer.
    fn plus(self, n: i64) -> Tally<'d>
        requires room { IsBounded (2 ^ 32) (sofar_of self) }
        ensures value { sofar_of result ≡ plus (sofar_of self.entry) n }
        ensures bounded { (k : ℕ) → IsBounded k (sofar_of self.entry) → IsBounded (k + 1) (sofar_of result) }
    {
        match self {
            Tally::Total(total) => Tally::Total(total + i128::from(n)),
            Tally::Best(_) => Tally::Total(i128::from(n)),
        }
    }

    /// With one more where the value isn't Null.
    fn plus_one_for(self, value: Value<'d>) -> Tally<'d>
        requires room { IsBounded (2 ^ 32) (sofar_of self) }
        ensures value { sofar_of result ≡ plus_one_for (sofar_of self.entry) (datum_of value.entry) }
        ensures bounded { (k : ℕ) → IsBounded k (sofar_of self.entry) → IsBounded (k + 1) (sofar_of result) }
    {
        if value.is_null() { self } else { self.plus(1) }
    }

    /// With one more value, where it is an integer.
    fn plus_value(self, value: Value<'d>) -> Tally<'d>
        requires room { IsBounded (2 ^ 32) (sofar_of self) }
        ensures value { sofar_of result ≡ plus_value (sofar_of self.entry) (datum_of value.entry) }
        ensures bounded { (k : ℕ) → IsBounded k (sofar_of self.entry) → IsBounded (k + 1) (sofar_of result) }
    {
        match value {
            Value::Int(n) => self.plus(n),
            _ => self,
        }
    }

    /// With one more value, where it is better than the best so far; `last` asks for the greatest.
    fn improved(self, value: Value<'d>, last: bool) -> Tally<'d>
        ensures value { sofar_of result ≡ improved last (sofar_of self.entry) (datum_of value.entry) }
        ensures bounded { (k : ℕ) → IsBounded k (sofar_of self.entry) → IsBounded (k + 1) (sofar_of result) }
    {
        match self {
            Tally::Total(_) => self,
            Tally::Best(best) => Tally::Best(better(best, value, last)),
        }
    }

    /// The value that the tally gives after the last row.
    pub(crate) fn finished(self) -> Value<'d>
        ensures { datum_of result ≡ finished (sofar_of self.entry) }
    {
        match self {
            Tally::Total(total) => {
                Value::Int(total.clamp(i128::from(i64::MIN), i128::from(i64::MAX)) as i64)
            }
            Tally::Best(value) => value,
        }
    }
}

/// The better of two values: Null is worse than any other; `last` asks for the greater.
fn better<'d>(best: Value<'d>, value: Value<'d>, last: bool) -> Value<'d>
    ensures { datum_of result ≡ better last (datum_of best.entry) (datum_of value.entry) }
{
    if value.is_null() || (!best.is_null() && !comes_before(value, best, last)) {
        best
    } else {
        value
    }
}

/// Whether `a` comes before `b` in the order of values, or after it where `last` is true.
fn comes_before(a: Value<'_>, b: Value<'_>, last: bool) -> bool
    ensures { result ≡ comes_before last (datum_of a.entry) (datum_of b.entry) }
{
    if last {
        compare_values(b, a).is_lt()
    } else {
        compare_values(a, b).is_lt()
    }
}
