//! Nested loops over sources: which conditions are tried before which loop.

ghost use Rattle.std.specs.Bool.{OnTrue};
ghost use Rattle.std.specs.Prelude.{◌≡◌, ◌<◌, ◌∷◌, [], ◌++◌, length, map, IfOk, OnOk};
ghost use Rattle.scalar_ops.specs.declared.op.Op.TheVariants.{And};
ghost use Rattle.scalar_ops.specs.SideLaws.{left_conditions, later_conditions};
ghost use Rattle.scalar_ops.specs.Views.{term_of};
ghost use Rattle.aql_meaning.specs.Nests.{HoldAlike, IsNest, terms_lent};

use row_values::Rows;
use scalar_ops::{Expr, Op, reads_below};
use span_token::OutOfMemory;
use std::alloc::Global;

/// One of nested loops: the rows that it goes over, and the conditions that are tried before, on the values
/// of the sources around it.
#[derive(Drop)]
pub(crate) struct Level<'r, 'd> {
    pub conds: Vec<&'d Expr>,
    pub source: &'r Rows<'d>,
}

/// Nested loops, the outermost first, and the conditions that are left for whole combinations. `width` is
/// the number of columns of all sources.
#[derive(Drop)]
pub(crate) struct Nest<'r, 'd> {
    pub levels: Vec<Level<'r, 'd>>,
    pub last: Vec<&'d Expr>,
    pub width: u32,
}

/// The loops over the sources in their order, and each condition as far out as it can be tried. Conditions
/// that an `And` joins are tried apart.
pub(crate) fn nest_of<'r, 'd>(
    alloc: Global,
    sources: &[&'r Rows<'d>],
    conds: &'d [Expr],
) -> Result<Nest<'r, 'd>, OutOfMemory>
    ensures { IfOk result (λ nest. IsNest (map (λ source. source.now) sources.now) (map term_of conds.now) nest.levels.items (terms_lent nest.last.items) nest.width) }
{
    let mut levels = Vec::new(alloc);
    let mut last = parted(alloc, conds)?;
    let mut width: u32 = 0;
    for source in sources {
        let conds = early(alloc, last.as_slice(), width)?;
        levels.push(Level { conds, source })?;
        last = later(last, width);
        let Some(wider) = width.checked_add(source.width()) else {
            return Err(OutOfMemory);
        };
        width = wider;
    }
    Ok(Nest {
        levels,
        last,
        width,
    })
}

/// The conditions, borrowed; in place of an `And` the conditions that it joins.
fn parted<'d>(alloc: Global, conds: &'d [Expr]) -> Result<Vec<&'d Expr>, OutOfMemory>
    ensures { IfOk result (λ parts. HoldAlike (terms_lent parts.items) (map term_of conds.now)) }
{
    let mut parts = Vec::new(alloc);
    push_all_parts(conds, &mut parts)?;
    Ok(parts)
}

/// Puts conditions after the others; in place of an `And` the conditions that it joins.
#[cycle(parts)]
fn push_all_parts<'d>(conds: &'d [Expr], into: &mut Vec<&'d Expr>) -> Result<(), OutOfMemory>
    ensures { OnOk result (HoldAlike (terms_lent into.new.items) (terms_lent into.old.items ++ map term_of conds.now)) }
{
    for cond in conds {
        push_parts(cond, into)?;
    }
    Ok(())
}

/// Puts a condition after the others, or the conditions that it joins. An `And` of none is false, and stays.
#[cycle(parts)]
fn push_parts<'d>(cond: &'d Expr, into: &mut Vec<&'d Expr>) -> Result<(), OutOfMemory>
    ensures { OnOk result (HoldAlike (terms_lent into.new.items) (terms_lent into.old.items ++ term_of cond.now ∷ [])) }
{
    if let Expr::Call { op, args } = cond {
        if joins(*op, args) {
            push_all_parts(args.as_slice(), into)?;
            return Ok(());
        }
    }
    into.push(cond)?;
    Ok(())
}

/// Whether a call joins conditions: an `And` of one or more.
fn joins(op: Op, args: &[Expr]) -> bool
    ensures { OnTrue result ((op ≡ And) × (0 < length args.now)) }
{
    match op {
        Op::And => !args.is_empty(),
        _ => false,
    }
}

/// The conditions that read columns below `width` alone.
fn early<'d>(alloc: Global, conds: &[&'d Expr], width: u32) -> Result<Vec<&'d Expr>, OutOfMemory>
    ensures { IfOk result (λ early. terms_lent early.items ≡ left_conditions width (terms_lent conds.now)) }
{
    let mut early = Vec::new(alloc);
    for cond in conds {
        if reads_below(cond, width) {
            early.push(*cond)?;
        }
    }
    Ok(early)
}

/// The others.
fn later<'d>(conds: Vec<&'d Expr>, width: u32) -> Vec<&'d Expr>
    ensures { terms_lent result.items ≡ later_conditions width (terms_lent conds.entry.items) }
{
    let mut later = conds;
    later.retain(|cond| !reads_below(cond, width));
    later
}
