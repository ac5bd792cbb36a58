ghost use Rattle.std.specs.Prelude.{◌≡◌, refl};
ghost use Rattle.std.specs.Option.{option_map};
ghost use Rattle.std.specs.Cmp.{on_equiv, on_per, on_po, on_total, partial_equiv_from_equiv, po};
ghost use Rattle.std.specs.Ordering.{as_partial_cmp, eq_by_cmp, on};
ghost use Rattle.std.proofs.lemmas.Cmp.{eq_by_cmp_equiv};
ghost use Rattle.span_token.specs.Extents.{extent_of};
ghost use Rattle.row_values.specs.Datums.{datum_cmp, datum_of, integer_of, is_null, kind_of, span_of};
ghost use Rattle.row_values.specs.Hashing.{datum_input, datum_input-same};
ghost use Rattle.row_values.specs.RowOrder.{datum_cmp_total};

use span_token::Span;
use std::cmp::Ordering;
use std::hash::{Hash, Hasher};

/// A value of a row: Null, an integer, a truth value, text borrowed from a document or a program, or
/// a span of a document.
///
/// Values are ordered by kind in this order, numbers by size, false before true, texts by bytes, and
/// spans by begin and then by end. Null equals Null alone, and a text equals each text of the same
/// bytes, wherever they lie.
#[derive(Clone, Copy, Debug, Default)]
pub enum Value<'d> {
    #[default]
    Null,
    Int(i64),
    Bool(bool),
    Text(&'d str),
    Span(Span),
}

impl<'d> Value<'d> {
    /// Whether it is Null.
    #[inline(always)]
    pub fn is_null(self) -> bool
        ensures { result ≡ is_null (datum_of self.entry) }
    {
        matches!(self, Value::Null)
    }

    /// The integer that it is; of another kind none.
    #[inline(always)]
    pub fn as_int(self) -> Option<i64>
        ensures { result ≡ integer_of (datum_of self.entry) }
    {
        match self {
            Value::Int(n) => Some(n),
            _ => None,
        }
    }

    /// The span that it is; of another kind none.
    #[inline(always)]
    pub fn as_span(self) -> Option<Span>
        ensures { option_map extent_of result ≡ span_of (datum_of self.entry) }
    {
        match self {
            Value::Span(span) => Some(span),
            _ => None,
        }
    }

    /// The number of the value's kind in the order of values, from 0.
    fn kind(&self) -> u8
        ensures { result ≡ kind_of (datum_of self.now) }
    {
        match self {
            Value::Null => 0,
            Value::Int(_) => 1,
            Value::Bool(_) => 2,
            Value::Text(_) => 3,
            Value::Span(_) => 4,
        }
    }
}

impl<'d> PartialEq for Value<'d> {
    ghost eq = { on datum_of (eq_by_cmp datum_cmp) };

    ghost laws = { on_per datum_of (partial_equiv_from_equiv (eq_by_cmp_equiv datum_cmp_total)) };

    fn eq(&self, other: &Self) -> bool {
        self.cmp(other).is_eq()
    }
}

impl<'d> Eq for Value<'d> {
    ghost laws = { on_equiv datum_of (eq_by_cmp_equiv datum_cmp_total) };
}

impl<'d> PartialOrd for Value<'d> {
    ghost partial_cmp = { as_partial_cmp (on datum_of datum_cmp) };

    ghost laws = { on_po datum_of (po datum_cmp_total (λ x y. refl)) };

    fn partial_cmp(&self, other: &Self) -> Option<Ordering> {
        Some(self.cmp(other))
    }
}

impl<'d> Ord for Value<'d> {
    ghost cmp = { on datum_of datum_cmp };

    ghost total = { on_total datum_of datum_cmp_total };

    ghost matches_partial_cmp = { λ x y. refl };

    ghost matches_eq = { λ x y. refl };

    fn cmp(&self, other: &Self) -> Ordering {
        match (self, other) {
            (Value::Int(a), Value::Int(b)) => a.cmp(b),
            (Value::Bool(a), Value::Bool(b)) => a.cmp(b),
            (Value::Text(a), Value::Text(b)) => a.cmp(b),
            (Value::Span(a), Value::Span(b)) => a.cmp(b),
            _ => self.kind().cmp(&other.kind()),
        }
    }
}

impl<'d> Hash for Value<'d> {
    ghost hash_input = { λ v. datum_input (datum_of v) };

    ghost respects_eq = { λ x y h. datum_input-same (datum_of x) (datum_of y) h };

    fn hash<H: Hasher>(&self, state: &mut H) {
        self.kind().hash(state);
        match self {
            Value::Null => {}
            Value::Int(n) => n.hash(state),
            Value::Bool(b) => b.hash(state),
            Value::Text(t) => t.hash(state),
            Value::Span(s) => {
                s.begin.hash(state);
                s.end.hash(state);
            }
        }
    }
}
