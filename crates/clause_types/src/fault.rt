//! Faults of types in one statement.

use scalar_ops::Kind;
use span_token::OwnedText;

/// A rule of types that is broken.
///
/// Where each comes is one definition of `specs/`, named after it; `DuplicateAlias` and `SchemaMismatch` come
/// in the queries of `aql_types`.
#[derive(Debug, Drop)]
pub enum TypeRule {
    /// No source has this alias, or a bare name stands in an item or in `where`.
    UnknownAlias(OwnedText),
    /// A source has no such column, a bare name is no output name, or an `order by` key is no item.
    UnknownColumn(OwnedText),
    /// Two sources have one alias.
    DuplicateAlias(OwnedText),
    /// Two output columns have one name.
    DuplicateColumn(OwnedText),
    /// There is no such function, an aggregate is no whole item of a selection, or `*` stands in another
    /// call than `Count`.
    UnknownFunction(OwnedText),
    /// An argument or a clause is of another kind than is wanted.
    WrongArgument { wanted: Kind, found: Kind },
    /// Two sides of a union or of a difference differ in a column's name or kind, or in their order.
    SchemaMismatch,
    /// A selection groups, and an item is neither an aggregate nor a key.
    NotGrouped,
    /// A range or a limit is out of its bounds.
    BadRange { low: i64, high: i64 },
    /// There is no such policy of consolidation.
    UnknownPolicy(OwnedText),
    /// A regular expression, or its whole-text form, isn't read.
    BadPattern,
    /// A regular expression has too many bytes, or too many for its weight.
    PatternLarge { bytes: u32, weight: u64 },
    /// The pattern has no group with this number.
    BadGroup(i64),
}

/// A fault in one statement: the number, from 0, of the first token of the part that breaks the rule, and
/// the rule.
#[derive(Debug, Drop)]
pub struct Breach {
    pub at: u32,
    pub rule: TypeRule,
}
