//! The typed tree of a program.

use group_agg::Agg;
use scalar_ops::{Expr, Exprs, Kind};
use span_sets::Policy;
use span_token::OwnedText;

/// A view with its columns, from the left.
#[derive(Debug, Drop)]
pub struct TypedView {
    pub name: OwnedText,
    pub columns: Vec<Column>,
    pub body: TypedQuery,
}

/// A column's name and the kind of its values.
#[derive(Debug, Drop)]
pub struct Column {
    pub name: OwnedText,
    pub kind: Kind,
}

/// An output: its name, and the number of its view in the list of views, from 0; None is `Document`.
#[derive(Debug, Drop)]
pub struct Output {
    pub name: OwnedText,
    pub view: Option<u32>,
}

/// A query whose names, columns and kinds are settled.
///
/// Meaning: `meaning_of`, `specs/Meaning.antt`.
#[derive(Debug, Drop)]
#[cycle(query)]
pub enum TypedQuery {
    Select(TypedSelect),
    Extract(TypedExtract),
    Union(Vec<TypedQuery>),
    Minus(Box<TypedQuery>, Box<TypedQuery>),
}

/// A source of a query: the document, a view by its number in the list of views, or a query.
#[derive(Debug, Drop)]
#[cycle(query)]
pub enum TypedSource {
    Document,
    View(u32),
    Nested(Box<TypedQuery>),
}

/// A selection. Columns count from 0 through the columns of all sources, from the left.
#[derive(Debug, Drop)]
#[cycle(query)]
pub struct TypedSelect {
    pub sources: Vec<TypedSource>,
    pub clauses: SelectClauses,
}

/// An extraction.
#[derive(Debug, Drop)]
#[cycle(query)]
pub struct TypedExtract {
    pub source: TypedSource,
    pub clauses: ExtractClauses,
}

/// What a selection does with the combinations of its sources' rows. The numbers in `order` are columns
/// of the projection, from 0; `limit` is a number of rows.
#[derive(Debug, Drop)]
pub struct SelectClauses {
    pub conds: Exprs,
    pub consolidate: Option<Consolidate>,
    pub projection: Projection,
    pub order: Vec<u32>,
    pub limit: Option<u64>,
}

/// What an extraction does with the rows of its source. `items` are over a row of the source; `conds`
/// and the target of `consolidate` over the items' values followed by the spans that are found.
#[derive(Debug, Drop)]
pub struct ExtractClauses {
    pub items: Exprs,
    pub extraction: Extraction,
    pub conds: Exprs,
    pub consolidate: Option<Consolidate>,
    pub limit: Option<u64>,
}

/// A policy, and the expression whose span is a row's target.
#[derive(Debug, Drop)]
pub struct Consolidate {
    pub policy: Policy,
    pub target: Expr,
}

/// The columns of a selection.
#[derive(Debug, Drop)]
pub enum Projection {
    /// One row for each row: the value of each expression.
    Plain(Exprs),
    /// One row for each group of rows with equal keys. The columns of `aggregates` are those of the keys
    /// followed by the arguments, from 0.
    Grouped {
        keys: Exprs,
        arguments: Exprs,
        aggregates: Vec<Agg>,
    },
}

/// What an extraction looks for in a column of its source. Patterns and dictionaries are numbers in the
/// program's tables, from 0; `groups` are numbers of capture groups, of which 0 is the whole match.
#[derive(Debug, Drop)]
pub enum Extraction {
    /// Successive matches of a pattern.
    Regex {
        column: u32,
        pattern: u32,
        groups: Vec<u32>,
    },
    /// From each token on, the longest run of `low` to `high` tokens that a pattern matches whole.
    TokenRegex {
        column: u32,
        low: u32,
        high: u32,
        pattern: u32,
        groups: Vec<u32>,
    },
    /// Runs of tokens that agree with an entry of a dictionary.
    Dict {
        column: u32,
        dict: u32,
    },
    /// Runs of `low` to `high` neighbours among the spans of the column in all rows, with `gap_low` to
    /// `gap_high` characters, or tokens, between two of them.
    Blocks {
        column: u32,
        low: u32,
        high: u32,
        gap_low: i64,
        gap_high: i64,
        tokens: bool,
    },
}
