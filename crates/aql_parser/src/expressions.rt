//! Expressions and items.

ghost use Rattle.std.specs.Prelude.{◌≡◌, ◌<◌, ◌+◌, map, IsTrue};
ghost use Rattle.aql_syntax.specs.Views.{name_of, term_of, item_of};
ghost use Rattle.aql_parser.specs.Readers.{Gives, mapped, separated, sees, sees_sign, symbol};
ghost use Rattle.aql_syntax.specs.Trees.{star};
ghost use Rattle.aql_parser.specs.Reading.Expressions as spec;

use crate::cursor::{Cursor, NoTree, Refused, ident};
use aql_lexer::TokKind;
use aql_syntax::{Ast, Form, Ident, Item, is_reserved};
use span_token::{Failure, OwnedText};
use std::alloc::Global;

/// `alias.name`.
pub fn column(alloc: Global, toks: &mut Cursor<'_>) -> Result<(Ident, Ident), Refused>
    ensures { Gives (λ pair. (name_of pair.0, name_of pair.1)) (spec.read_column toks.old.at toks.old.kinds) result toks.new }
{
    let alias = toks.name(alloc)?;
    toks.expect(b'.')?;
    let name = toks.name(alloc)?;
    Ok((alias, name))
}

/// An expression within at most `depth` parentheses.
#[cycle(expression)]
#[tactic(auto, unfolding(crate::specs::Reading::Expressions::read_term))]
pub fn expression(alloc: Global, depth: u32, toks: &mut Cursor<'_>) -> Result<Ast, Refused>
    ensures { Gives term_of (spec.read_term depth toks.old.at toks.old.kinds) result toks.new }
{
    let at = toks.at();
    match toks.take() {
        Some(TokKind::Int(value)) => Ok(Ast {
            at,
            form: Form::Int(*value),
        }),
        Some(TokKind::Str(text)) => {
            let text = OwnedText::copied(alloc, text.as_str())?;
            Ok(Ast {
                at,
                form: Form::Str(text),
            })
        }
        Some(TokKind::Regex(text)) => {
            let text = OwnedText::copied(alloc, text.as_str())?;
            Ok(Ast {
                at,
                form: Form::Regex(text),
            })
        }
        Some(TokKind::Word(word)) => after_word(alloc, depth, toks, word.as_str(), at),
        Some(TokKind::Name(text)) => {
            let name = ident(alloc, text.as_str(), at)?;
            after_name(alloc, toks, name)
        }
        _ => Err(Failure::Fault(NoTree)),
    }
}

/// What follows a word: a call, or what follows a name.
#[cycle(expression)]
fn after_word(
    alloc: Global,
    depth: u32,
    toks: &mut Cursor<'_>,
    word: &str,
    at: u32,
) -> Result<Ast, Refused>
    ensures { Gives term_of (spec.after_word (spec.calls_within depth) at word.now toks.old.at toks.old.kinds) result toks.new }
{
    if toks.eat(b'(') {
        return call(alloc, depth, toks, word, at);
    }
    if is_reserved(word) {
        return Err(Failure::Fault(NoTree));
    }
    let name = ident(alloc, word, at)?;
    after_name(alloc, toks, name)
}

/// The rest of a call, after its `(`, which is one of `depth` parentheses.
#[cycle(expression)]
fn call(
    alloc: Global,
    depth: u32,
    toks: &mut Cursor<'_>,
    word: &str,
    at: u32,
) -> Result<Ast, Refused>
    ensures { Gives term_of (spec.calls_within depth at word.now toks.old.at toks.old.kinds) result toks.new }
{
    if depth == 0 {
        return Err(Failure::Fault(NoTree));
    }
    after_paren(alloc, depth - 1, toks, word, at)
}

/// The rest of a call, after its `(`, with arguments within at most `depth` parentheses.
#[cycle(expression)]
fn after_paren(
    alloc: Global,
    depth: u32,
    toks: &mut Cursor<'_>,
    word: &str,
    at: u32,
) -> Result<Ast, Refused>
    ensures { Gives term_of (spec.after_paren (spec.read_term depth) at word.now toks.old.at toks.old.kinds) result toks.new }
{
    if toks.eat(b')') {
        let name = OwnedText::copied(alloc, word)?;
        return Ok(Ast::of_call(at, name, Vec::new(alloc)));
    }
    if toks.eat(b'*') {
        return star(alloc, toks, word, at);
    }
    let args = arguments(alloc, depth, toks)?;
    toks.expect(b')')?;
    let name = OwnedText::copied(alloc, word)?;
    Ok(Ast::of_call(at, name, args))
}

/// The rest of `word(*)`, after its `*`.
fn star(alloc: Global, toks: &mut Cursor<'_>, word: &str, at: u32) -> Result<Ast, Refused>
    ensures { Gives term_of (mapped (λ u. star at word.now) (symbol ")") toks.old.at toks.old.kinds) result toks.new }
{
    toks.expect(b')')?;
    let name = OwnedText::copied(alloc, word)?;
    Ok(Ast {
        at,
        form: Form::Star { name },
    })
}

/// Expressions with commas between them.
#[cycle(expression)]
pub fn arguments(alloc: Global, depth: u32, toks: &mut Cursor<'_>) -> Result<Vec<Ast>, Refused>
    ensures { Gives (λ args. map term_of args.items) (separated (sees_sign ",") (spec.read_term depth) toks.old.at toks.old.kinds) result toks.new }
{
    let mut args = Vec::new(alloc);
    for _turn in 0..toks.left() + 1 {
        let arg = expression(alloc, depth, toks)?;
        args.push(arg)?;
        if !toks.eat(b',') {
            return Ok(args);
        }
    }
    Err(Failure::Fault(NoTree))
}

/// What follows a name: the rest of a column, or nothing.
fn after_name(alloc: Global, toks: &mut Cursor<'_>, name: Ident) -> Result<Ast, Refused>
    ensures { Gives term_of (spec.after_name (name_of name) toks.old.at toks.old.kinds) result toks.new }
{
    let at = name.at;
    if toks.eat(b'.') {
        let other = toks.name(alloc)?;
        return Ok(Ast {
            at,
            form: Form::Column(name, other),
        });
    }
    Ok(Ast {
        at,
        form: Form::Bare(name),
    })
}

/// Conditions with `and` between them.
pub fn conditions(alloc: Global, depth: u32, toks: &mut Cursor<'_>) -> Result<Vec<Ast>, Refused>
    ensures { Gives (λ conds. map term_of conds.items) (separated (sees "and") (spec.read_term depth) toks.old.at toks.old.kinds) result toks.new }
{
    let mut conds = Vec::new(alloc);
    for _turn in 0..toks.left() + 1 {
        let cond = expression(alloc, depth, toks)?;
        conds.push(cond)?;
        if !toks.eat_word("and") {
            return Ok(conds);
        }
    }
    Err(Failure::Fault(NoTree))
}

/// An item of a select list.
pub fn item(alloc: Global, depth: u32, toks: &mut Cursor<'_>) -> Result<Item, Refused>
    ensures { Gives item_of (spec.read_item depth toks.old.at toks.old.kinds) result toks.new }
{
    let expr = expression(alloc, depth, toks)?;
    after_expression(alloc, toks, expr)
}

/// What follows an item's expression: a name, which only a column can do without.
fn after_expression(alloc: Global, toks: &mut Cursor<'_>, expr: Ast) -> Result<Item, Refused>
    ensures { Gives item_of (spec.after_expression (term_of expr) toks.old.at toks.old.kinds) result toks.new }
{
    if toks.eat_word("as") {
        let name = match toks.name(alloc) {
            Ok(name) => name,
            Err(refused) => {
                drop(expr);
                return Err(refused);
            }
        };
        return Ok(Item {
            expr,
            name: Some(name),
        });
    }
    if is_column(&expr) {
        return Ok(Item { expr, name: None });
    }
    drop(expr);
    Err(Failure::Fault(NoTree))
}

fn is_column(ast: &Ast) -> bool
    ensures { result ≡ spec.is_column (term_of ast.now) }
{
    matches!(&ast.form, Form::Column(_, _))
}

/// Items with commas between them.
pub fn items(alloc: Global, depth: u32, toks: &mut Cursor<'_>) -> Result<Vec<Item>, Refused>
    ensures { Gives (λ items. map item_of items.items) (separated (sees_sign ",") (spec.read_item depth) toks.old.at toks.old.kinds) result toks.new }
{
    let mut items = Vec::new(alloc);
    for _turn in 0..toks.left() + 1 {
        let one = item(alloc, depth, toks)?;
        items.push(one)?;
        if !toks.eat(b',') {
            return Ok(items);
        }
    }
    Err(Failure::Fault(NoTree))
}
