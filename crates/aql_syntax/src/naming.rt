//! The names that a program gives: of a source, of a column, of an output.

ghost use Rattle.std.specs.Prelude.{◌≡◌, Some, None, MatchOption};
ghost use Rattle.aql_syntax.specs.Views.{name_of, term_of, item_of, source_of, statement_of};
ghost use Rattle.aql_syntax.specs.Naming as spec;

use crate::tree::{Ast, Form, FromPart, Ident, Item, Statement};

/// Whether the function with this name takes a dictionary as its first argument.
pub fn is_dictionary_predicate(name: &str) -> bool
    ensures { result ≡ spec.is_dictionary_predicate name.now }
{
    name == "ContainsDict" || name == "MatchesDict"
}

impl FromPart {
    /// The name by which a query speaks of the source: its alias, or else its view's name.
    pub fn alias(&self) -> &Ident
        ensures { name_of result.now ≡ spec.alias_of (source_of self.now) }
    {
        match self {
            FromPart::View { name, alias: None } => name,
            FromPart::View {
                alias: Some(alias),
                ..
            } => alias,
            FromPart::Nested { alias, .. } => alias,
        }
    }
}

impl Item {
    /// The name that the item is given, or else that of its column.
    pub fn column_name(&self) -> Option<&Ident>
        ensures { MatchOption result (spec.item_name (item_of self.now) ≡ None) (λ name. spec.item_name (item_of self.now) ≡ Some (name_of name.now)) }
    {
        match &self.name {
            Some(name) => Some(name),
            None => name_in(&self.expr),
        }
    }
}

impl Statement {
    /// The name of the output that the statement is, if it is one.
    pub fn output_name(&self) -> Option<&str>
        ensures { MatchOption result (spec.output_name (statement_of self.now) ≡ None) (λ name. spec.output_name (statement_of self.now) ≡ Some name.now) }
    {
        match self {
            Statement::Output {
                alias: Some(alias),
                ..
            } => Some(alias.as_str()),
            Statement::Output { name, alias: None } => Some(name.text.as_str()),
            _ => None,
        }
    }
}

/// The name of a column, where the expression is one.
fn name_in(ast: &Ast) -> Option<&Ident>
    ensures { MatchOption result (spec.column_name None (term_of ast.now) ≡ None) (λ name. spec.column_name None (term_of ast.now) ≡ Some (name_of name.now)) }
{
    match &ast.form {
        Form::Column(_, name) => Some(name),
        _ => None,
    }
}
