//! Which key is which item: expressions are compared without tokens' numbers, and a bare name stands for
//! the expression of the item with that output name.

ghost use Rattle.std.specs.Prelude.{◌≡◌, map, MatchOption, Some, None};
ghost use Rattle.aql_syntax.specs.Sameness as same;
ghost use Rattle.aql_syntax.specs.Trees.{call, as_terms};
ghost use Rattle.aql_syntax.specs.Views.{name_of, term_of, item_of};
ghost use Rattle.clause_types.specs.Keys as spec;

use crate::item::label_text;
use aql_syntax::{Ast, Form, Ident, Item, same_term};

/// The number of the first key that is the item, from 0; how many they are where none is.
pub(crate) fn key_number(items: &[Item], keys: &[Ast], item: &Item) -> usize
    ensures { result ≡ spec.key_number (map item_of items.now) (map term_of keys.now) (item_of item.now) }
{
    for (number, key) in keys.iter().enumerate() {
        if key_same(items, key, &item.expr) {
            return number;
        }
    }
    keys.len()
}

/// Whether a key is the expression.
#[cycle(key)]
fn key_same(items: &[Item], key: &Ast, expr: &Ast) -> bool
    ensures { result ≡ same.is_same (spec.written_out (map item_of items.now) (term_of key.now)) (term_of expr.now) }
{
    match &key.form {
        Form::Bare(name) => bare_same(items, key, name, expr),
        Form::Call { name, args } => call_same(items, name.as_str(), args, expr),
        _ => plain_same(key, expr),
    }
}

/// Whether a bare name, or what it stands for, is the expression.
fn bare_same(items: &[Item], key: &Ast, name: &Ident, expr: &Ast) -> bool
    ensures { result ≡ same.is_same (spec.expr_or (term_of key.now) (spec.item_with_name name.now.text (map item_of items.now))) (term_of expr.now) }
{
    match item_with_name(name.text.as_str(), items) {
        Some(item) => plain_same(&item.expr, expr),
        None => plain_same(key, expr),
    }
}

/// The first item with an output name.
fn item_with_name<'a>(name: &str, items: &'a [Item]) -> Option<&'a Item>
    ensures { MatchOption result (spec.item_with_name name.now (map item_of items.now) ≡ None) (λ item. spec.item_with_name name.now (map item_of items.now) ≡ Some (item_of item.now)) }
{
    for item in items {
        if label_text(item) == name {
            return Some(item);
        }
    }
    None
}

fn plain_same(a: &Ast, b: &Ast) -> bool
    ensures { result ≡ same.is_same (term_of a.now) (term_of b.now) }
{
    same_term(a, b)
}

#[cycle(key)]
fn call_same(items: &[Item], word: &str, args: &[Ast], expr: &Ast) -> bool
    ensures { result ≡ same.is_same (call 0 word.now (as_terms (map (spec.written_out (map item_of items.now)) (map term_of args.now)))) (term_of expr.now) }
{
    match &expr.form {
        Form::Call { name, args: others } => {
            word == name.as_str() && args_same(items, args, others)
        }
        _ => false,
    }
}

#[cycle(key)]
fn args_same(items: &[Item], args: &[Ast], others: &[Ast]) -> bool
    ensures { result ≡ same.are_same (as_terms (map (spec.written_out (map item_of items.now)) (map term_of args.now))) (as_terms (map term_of others.now)) }
{
    if args.len() != others.len() {
        return false;
    }
    for (i, arg) in args.iter().enumerate() {
        if !key_same(items, arg, &others[i]) {
            return false;
        }
    }
    true
}

/// The number of the first item that is the key, from 0; how many they are where none is.
pub(crate) fn item_number(items: &[Item], key: &Ast) -> usize
    ensures { result ≡ spec.item_number (map item_of items.now) (term_of key.now) }
{
    for (number, item) in items.iter().enumerate() {
        if key_same(items, key, &item.expr) {
            return number;
        }
    }
    items.len()
}
