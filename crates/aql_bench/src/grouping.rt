//! Rows of two numbers: in groups, and the first of them by the second number.
ghost use Rattle.std.specs.Prelude.{◌≡◌, length, IfOk};

use crate::bench::Bench;
use crate::rows::mix;
use group_agg::{Agg, group, order_limit};
use row_values::{Row, Rows, Value, sort_rows};
use span_token::{OutOfMemory, Span};
use std::alloc::Global;

/// A row for each span: a number below `groups`, each about equally often, and the span's begin.
pub(crate) fn numbered(
    alloc: Global,
    spans: &[Span],
    groups: usize,
    mixed: bool,
) -> Result<Rows<'static>, OutOfMemory> {
    let groups = groups.min(spans.len()).max(1);
    let mut pairs = Vec::new(alloc);
    for (i, span) in spans.iter().enumerate() {
        let key = i.wrapping_mul(0x9e37_79b9) % groups;
        pairs.push((u32::try_from(key).unwrap_or(0), span.begin))?;
    }
    if mixed {
        mix(&mut pairs);
    }
    let mut rows = Rows::new(alloc, 2);
    for (key, begin) in pairs.iter() {
        rows.push(pair_row(alloc, *key, *begin)?)?;
    }
    Ok(rows)
}

fn pair_row<'d>(alloc: Global, key: u32, begin: u32) -> Result<Row<'d>, OutOfMemory>
    ensures { IfOk result (λ row. length row ≡ 2) }
{
    Row::copied(
        alloc,
        &[Value::Int(i64::from(key)), Value::Int(i64::from(begin))],
    )
}

/// One row for each number in the first column, with how often it comes and the sum of the second.
#[derive(Drop)]
pub(crate) struct Groups {
    pub alloc: Global,
    pub rows: Rows<'static>,
}

impl Bench for Groups {
    fn round(&mut self) -> Result<u64, OutOfMemory> {
        if self.rows.width() != 2 {
            return Ok(0);
        }
        let out = group(
            self.alloc,
            &self.rows,
            &[0],
            &[Agg::Key(0), Agg::Count, Agg::Sum(1)],
        )?;
        Ok(u64::from(out.len()))
    }
}

/// What is done with a copy of the rows.
#[derive(Clone, Copy)]
pub(crate) enum Keep {
    /// Nothing: the copy alone.
    Copy,
    /// All are sorted, in row order.
    Sort,
    /// The first rows by the second column are kept, as many as this.
    First(u64),
}

/// The rows are copied, and the first of them are kept.
#[derive(Drop)]
pub(crate) struct FirstRows {
    pub alloc: Global,
    pub rows: Rows<'static>,
    pub keep: Keep,
}

impl Bench for FirstRows {
    fn round(&mut self) -> Result<u64, OutOfMemory> {
        let mut rows = self.rows.copy(self.alloc)?;
        if rows.width() != 2 {
            return Ok(0);
        }
        match self.keep {
            Keep::Copy => Ok(u64::from(rows.len())),
            Keep::Sort => {
                sort_rows(&mut rows)?;
                Ok(u64::from(rows.len()))
            }
            Keep::First(limit) => {
                let out = order_limit(self.alloc, rows, &[1], Some(limit))?;
                Ok(u64::from(out.len()))
            }
        }
    }
}
