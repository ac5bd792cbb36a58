ghost use Rattle.std.specs.Prelude.{◌≡◌};
ghost use Rattle.scalar_ops.specs.Views.{term_of};

use group_agg::Agg;
use scalar_ops::{Expr, Exprs};
use span_sets::Policy;
use span_token::OwnedList;
use std::marker::Model;

/// A node of a plan: an operator and the numbers of the nodes that it reads.
///
/// Columns count from 0 through the columns of the input, or of that side of a join. Patterns and
/// dictionaries are numbers in the plan's tables, from 0, and `groups` are numbers of capture groups, of
/// which 0 is the whole match; what isn't there is found nowhere. A conditional join doesn't ask for its
/// right input where its left one has no row, and means the same as another.
///
/// Meaning: `op`, `specs/Operators.antt`.
#[derive(Debug, Drop)]
pub enum Node {
    /// One row: the span of the whole document.
    Doc,
    /// The input row, followed by the span of each group, for each match of a pattern in the column.
    Regex {
        input: u32,
        column: u32,
        pattern: u32,
        groups: OwnedList<u32>,
    },
    /// The same for the longest runs of `low` to `high` tokens that a pattern matches whole.
    TokenRegex {
        input: u32,
        column: u32,
        low: u32,
        high: u32,
        pattern: u32,
        groups: OwnedList<u32>,
    },
    /// The input row, followed by the number in `dicts` of a dictionary and by a span, for each match of
    /// each of the dictionaries in the column.
    Dict {
        input: u32,
        column: u32,
        dicts: OwnedList<u32>,
    },
    /// The rows of a `Dict` node that have a number, without it: `number` is the number of a dictionary
    /// among those of that node, from 0.
    DictPart {
        input: u32,
        number: u32,
    },
    /// One span for each run of `low` to `high` neighbours among the spans of the column in all rows, with
    /// `gap_low` to `gap_high` characters, or tokens, between two of them.
    Blocks {
        input: u32,
        column: u32,
        low: u32,
        high: u32,
        gap_low: i64,
        gap_high: i64,
        tokens: bool,
    },
    /// The rows on which every condition holds.
    Select {
        input: u32,
        conds: Exprs,
    },
    /// The values of the expressions, for each row.
    Project {
        input: u32,
        items: Exprs,
    },
    /// Each left row, followed by each right row.
    Cross {
        left: u32,
        right: u32,
        conditional: bool,
    },
    /// Each left row, followed by each right row such that the predicate holds of the spans in column `lc`
    /// of the one and column `rc` of the other.
    SpanJoin {
        left: u32,
        right: u32,
        kind: JoinKind,
        lc: u32,
        rc: u32,
        conditional: bool,
    },
    /// Each outer row, followed by the row of `source` and a span that is found in it, such that the
    /// predicate holds of the span in column `lc` of the outer row and of that span.
    Restricted {
        outer: u32,
        source: u32,
        kind: JoinKind,
        lc: u32,
        local: Local,
    },
    /// The rows of both sides, with their multiplicities.
    Union {
        left: u32,
        right: u32,
    },
    /// The left rows, with their multiplicities, that occur nowhere on the right.
    Minus {
        left: u32,
        right: u32,
    },
    /// The rows that the policy keeps, told by the span of the target.
    Consolidate {
        input: u32,
        policy: Policy,
        target: Target,
    },
    /// One row for each group of rows with equal values in the columns `keys`.
    Group {
        input: u32,
        keys: OwnedList<u32>,
        aggs: OwnedList<Agg>,
    },
    /// The first rows by the values in the columns `keys`, then in row order; all without a limit.
    OrderLimit {
        input: u32,
        keys: OwnedList<u32>,
        limit: Option<u64>,
    },
}

/// The predicate of a join, from the span of the left row to that of the right one. A `Back` kind takes
/// the span of the right row first.
#[derive(Clone, Copy, Debug, PartialEq, Eq)]
pub enum JoinKind {
    Follows { min: i64, max: i64 },
    FollowsTok { min: i64, max: i64 },
    Overlaps,
    Contains,
    FollowsBack { min: i64, max: i64 },
    FollowsTokBack { min: i64, max: i64 },
    ContainsBack,
}

/// What a restricted join looks for in the document: runs of `low` to `high` tokens that a pattern matches
/// whole, or the matches of a dictionary.
#[derive(Clone, Copy, Debug, PartialEq, Eq)]
pub enum Local {
    TokenRegex { low: u32, high: u32, pattern: u32 },
    Dict { dict: u32 },
}

/// The expression whose span is a row's target, which contracts see as a term.
#[derive(Debug, Drop)]
pub struct Target {
    expr: Expr,
}

impl Model for Target {
    ghost use Rattle.scalar_ops.specs.Expressions.{Term};
    ghost use Rattle.scalar_ops.specs.Codes.{term_code};
    ghost use Rattle.scalar_ops.specs.Views.{term_of};

    ghost Value = { Term };

    ghost coded = { term_code };

    ghost view = { λ target. term_of target.expr };
}

impl From<Expr> for Target {
    ghost use Rattle.std.specs.Prelude.{◌≡◌};
    ghost use Rattle.scalar_ops.specs.Views.{term_of};

    ghost from_gives = { λ expr target. target ≡ term_of expr };

    fn from(expr: Expr) -> Target {
        Target { expr }
    }
}

impl Target {
    /// The expression, borrowed.
    pub fn as_expr(&self) -> &Expr
        ensures { term_of result.now ≡ self.now }
    {
        &self.expr
    }
}
