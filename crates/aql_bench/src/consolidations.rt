//! Rows of one span that nest and overlap: made, sorted, and consolidated by each policy.
ghost use Rattle.std.specs.Prelude.{◌≡◌, length, vec_len, IfOk};

use crate::bench::Bench;
use crate::rows::mix;
use row_values::{Row, Rows, Value, sort_rows};
use span_sets::{Policy, consolidate};
use span_token::{OutOfMemory, Span};
use std::alloc::Global;

/// What is done with the rows once they are made.
#[derive(Clone, Copy)]
pub(crate) enum Work {
    Nothing,
    Sort,
    Consolidate(Policy),
}

/// From each span's begin to the end of one of the five from it on, so that the spans nest and overlap;
/// in mixed order.
pub(crate) fn nested(alloc: Global, spans: &[Span]) -> Result<Vec<Span>, OutOfMemory> {
    let mut nested = Vec::new(alloc);
    for (i, span) in spans.iter().enumerate() {
        let last = spans.get(i.saturating_add(i % 5)).unwrap_or(span);
        nested.push(Span {
            begin: span.begin,
            end: last.end.max(span.end),
        })?;
    }
    mix(&mut nested);
    Ok(nested)
}

/// A row is made of each span, with the span as its target, and the work is done on them.
#[derive(Drop)]
pub(crate) struct SpanRows {
    pub alloc: Global,
    pub spans: Vec<Span>,
    pub work: Work,
}

impl Bench for SpanRows {
    fn round(&mut self) -> Result<u64, OutOfMemory> {
        let mut rows = Rows::new(self.alloc, 1);
        let mut targets = Vec::new(self.alloc);
        for span in self.spans.iter() {
            rows.push(Row::single(self.alloc, Value::Span(*span)))?;
            targets.push(Some(*span))?;
        }
        match self.work {
            Work::Nothing => Ok(u64::from(rows.len())),
            Work::Sort => {
                sort_rows(&mut rows)?;
                Ok(u64::from(rows.len()))
            }
            Work::Consolidate(policy) => {
                let kept = consolidate(self.alloc, rows, targets, policy)?;
                Ok(u64::from(kept.len()))
            }
        }
    }
}
