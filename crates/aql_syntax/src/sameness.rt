//! Equality of expressions but for places.

ghost use Rattle.std.specs.Prelude.{◌≡◌, map};
ghost use Rattle.std.specs.Bool.{Decides};
ghost use Rattle.aql_syntax.specs.Trees.{int, str, regex, column, bare, call, star, as_terms};
ghost use Rattle.aql_syntax.specs.Views.{name_of, term_of};
ghost use Rattle.aql_syntax.specs.Sameness as spec;

use crate::tree::{Ast, Form, Ident};

/// Whether two expressions are equal but for their places.
///
/// Recurses as deep as the expressions' calls nest.
///
/// Meaning: `AreSame`, `specs/Sameness.antt`.
pub fn same_term(a: &Ast, b: &Ast) -> bool
    ensures { Decides result (spec.AreSame (term_of a.now) (term_of b.now)) }
{
    term(a, b)
}

#[cycle(term)]
fn term(a: &Ast, b: &Ast) -> bool
    ensures { result ≡ spec.is_same (term_of a.now) (term_of b.now) }
{
    match &a.form {
        Form::Int(value) => is_int(*value, b),
        Form::Str(text) => is_string(text.as_str(), b),
        Form::Regex(text) => is_pattern(text.as_str(), b),
        Form::Column(alias, name) => is_column(alias, name, b),
        Form::Bare(name) => is_bare(name, b),
        Form::Call { name, args } => is_call(name.as_str(), args, b),
        Form::Star { name } => is_star(name.as_str(), b),
    }
}

fn is_int(value: i64, ast: &Ast) -> bool
    ensures { result ≡ spec.is_same (int 0 value) (term_of ast.now) }
{
    match &ast.form {
        Form::Int(other) => value == *other,
        _ => false,
    }
}

fn is_string(text: &str, ast: &Ast) -> bool
    ensures { result ≡ spec.is_same (str 0 text.now) (term_of ast.now) }
{
    match &ast.form {
        Form::Str(other) => text == other.as_str(),
        _ => false,
    }
}

fn is_pattern(text: &str, ast: &Ast) -> bool
    ensures { result ≡ spec.is_same (regex 0 text.now) (term_of ast.now) }
{
    match &ast.form {
        Form::Regex(other) => text == other.as_str(),
        _ => false,
    }
}

fn is_column(alias: &Ident, name: &Ident, ast: &Ast) -> bool
    ensures { result ≡ spec.is_same (column 0 (name_of alias.now) (name_of name.now)) (term_of ast.now) }
{
    match &ast.form {
        Form::Column(other_alias, other) => {
            same_name(alias, other_alias) && same_name(name, other)
        }
        _ => false,
    }
}

fn same_name(a: &Ident, b: &Ident) -> bool
    ensures { result ≡ spec.is_same_name (name_of a.now) (name_of b.now) }
{
    a.text.as_str() == b.text.as_str()
}

fn is_bare(name: &Ident, ast: &Ast) -> bool
    ensures { result ≡ spec.is_same (bare 0 (name_of name.now)) (term_of ast.now) }
{
    match &ast.form {
        Form::Bare(other) => same_name(name, other),
        _ => false,
    }
}

#[cycle(term)]
fn is_call(word: &str, args: &[Ast], ast: &Ast) -> bool
    ensures { result ≡ spec.is_same (call 0 word.now (as_terms (map term_of args.now))) (term_of ast.now) }
{
    match &ast.form {
        Form::Call { name, args: others } => word == name.as_str() && terms(args, others),
        _ => false,
    }
}

#[cycle(term)]
fn terms(args: &[Ast], others: &[Ast]) -> bool
    ensures { result ≡ spec.are_same (as_terms (map term_of args.now)) (as_terms (map term_of others.now)) }
{
    if args.len() != others.len() {
        return false;
    }
    for (i, arg) in args.iter().enumerate() {
        if !term(arg, &others[i]) {
            return false;
        }
    }
    true
}

fn is_star(word: &str, ast: &Ast) -> bool
    ensures { result ≡ spec.is_same (star 0 word.now) (term_of ast.now) }
{
    match &ast.form {
        Form::Star { name } => word == name.as_str(),
        _ => false,
    }
}
