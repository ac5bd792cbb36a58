//! Programs whose names, columns and kinds are settled, and what their views mean on a document.
//!
//! `TypedQuery` is a query as `check` of `aql_types` gives it: columns, patterns and dictionaries are
//! numbers, every default is filled in. `specs/Meaning.antt` has the meaning of a view: no plan, no
//! operator and no order of evaluation occurs in it. Stands on `scalar_ops` for expressions, on
//! `span_sets` and `group_agg` for consolidation, blocks, groups and limits.
#![tactic(auto)]

mod program;
mod tree;

pub use program::Typed;
pub use tree::{
    Column, Consolidate, ExtractClauses, Extraction, Output, Projection, SelectClauses,
    TypedExtract, TypedQuery, TypedSelect, TypedSource, TypedView,
};
