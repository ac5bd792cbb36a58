//! Rows of two spans: made, sorted and walked.
ghost use Rattle.std.specs.Prelude.{◌≡◌, length, IfOk};

use crate::bench::Bench;
use row_values::{Row, Rows, Value, sort_rows};
use span_token::{OutOfMemory, Span};
use std::alloc::Global;

/// In which order rows are made.
#[derive(Clone, Copy)]
pub(crate) enum Order {
    Rising,
    Falling,
    Mixed,
}

/// The pairs of neighbours in a list of spans, in an order.
pub(crate) fn pairs(
    alloc: Global,
    spans: &[Span],
    order: Order,
) -> Result<Vec<(Span, Span)>, OutOfMemory> {
    let mut rising = Vec::new(alloc);
    for (first, second) in spans.iter().zip(spans.iter().skip(1)) {
        rising.push((*first, *second))?;
    }
    match order {
        Order::Rising => {}
        Order::Falling => rising.reverse(),
        Order::Mixed => mix(&mut rising),
    }
    Ok(rising)
}

/// Swaps each element with one far from it.
pub(crate) fn mix<T>(items: &mut Vec<T>) {
    let count = items.len();
    let mut other = 0usize;
    for i in 0..count {
        other = (other.wrapping_add(0x9e37_79b9)) % count;
        items.swap(i, other);
    }
}

/// A row of two spans is made of each pair, and the rows are sorted and walked.
#[derive(Drop)]
pub(crate) struct RowPairs {
    pub alloc: Global,
    pub pairs: Vec<(Span, Span)>,
}

impl Bench for RowPairs {
    fn round(&mut self) -> Result<u64, OutOfMemory> {
        let mut rows = Rows::new(self.alloc, 2);
        for (first, second) in self.pairs.iter() {
            rows.push(pair_row(self.alloc, *first, *second)?)?;
        }
        sort_rows(&mut rows)?;
        Ok(walked(&rows))
    }
}

fn pair_row<'d>(alloc: Global, first: Span, second: Span) -> Result<Row<'d>, OutOfMemory>
    ensures { IfOk result (λ row. length row ≡ 2) }
{
    Row::copied(alloc, &[Value::Span(first), Value::Span(second)])
}

/// A sum over the begins of all spans, with where they stand.
fn walked(rows: &Rows<'_>) -> u64 {
    let mut sum = 0u64;
    for row in rows.as_slice() {
        for value in row.values() {
            if let Value::Span(span) = value {
                sum = sum.wrapping_mul(31).wrapping_add(u64::from(span.begin));
            }
        }
    }
    sum
}
