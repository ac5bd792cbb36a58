//! Nodes that are made of a list, with what definitions see of them.

ghost use Rattle.std.specs.Prelude.{◌≡◌, map};
ghost use Rattle.aql_syntax.specs.Trees as tree;
ghost use Rattle.aql_syntax.specs.Views as see;

use crate::tree::{Ast, Form, Query, Select};
use span_token::OwnedText;

impl Ast {
    /// The call of a function, whose first token has the number `at`.
    pub fn of_call(at: u32, name: OwnedText, args: Vec<Ast>) -> Ast
        ensures { see.term_of result ≡ tree.call at name (tree.as_terms (map see.term_of args.items)) }
    {
        Ast {
            at,
            form: Form::Call { name, args },
        }
    }
}

impl Query {
    /// A selection as a query.
    pub fn of_select(select: Select) -> Query
        ensures { see.query_of result ≡ tree.select select.at (map see.item_of select.items.items) (tree.as_sources (map see.source_of select.sources.items)) (see.clauses_of select) }
    {
        Query::Select(select)
    }

    /// The union of queries; it has tokens where there are two or more.
    pub fn of_union(sides: Vec<Query>) -> Query
        ensures { see.query_of result ≡ tree.union (tree.as_queries (map see.query_of sides.items)) }
    {
        Query::Union(sides)
    }
}
