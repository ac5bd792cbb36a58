//! Statements.

ghost use Rattle.std.specs.Prelude.{◌≡◌, ◌∷◌, [], map, option_map};
ghost use Rattle.aql_lexer.specs.Kinds.{kind_of};
ghost use Rattle.aql_syntax.specs.Views.{query_of, statement_of};
ghost use Rattle.aql_parser.specs.Readers.{Gives, optional, separated, sees, sees_sign, symbol, take_if, ◌◁◌};
ghost use Rattle.aql_parser.specs.Reading.Queries.{read_query};
ghost use Rattle.aql_parser.specs.Reading.Statements as spec;

use crate::cursor::{Cursor, NoTree, Refused};
use crate::queries::query;
use aql_syntax::{Query, Statement};
use span_token::{Failure, OwnedText};
use std::alloc::Global;

/// A statement within at most `depth` parentheses, with its `;`.
#[tactic(auto, unfolding(crate::specs::Reading::Statements::read_statement))]
pub fn statement(alloc: Global, depth: u32, toks: &mut Cursor<'_>) -> Result<Statement, Refused>
    ensures { Gives statement_of (spec.read_statement depth toks.old.at toks.old.kinds) result toks.new }
{
    if toks.eat_word("create") {
        return after_create(alloc, depth, toks);
    }
    if toks.eat_word("output") {
        return after_output(alloc, toks);
    }
    if toks.eat_word("export") {
        return after_export(alloc, toks);
    }
    if toks.eat_word("require") {
        return after_require(toks);
    }
    toks.expect_word("module")?;
    after_module(alloc, toks)
}

#[tactic(auto, unfolding(crate::specs::Reading::Statements::after_create))]
fn after_create(alloc: Global, depth: u32, toks: &mut Cursor<'_>) -> Result<Statement, Refused>
    ensures { Gives statement_of (spec.after_create depth toks.old.at toks.old.kinds) result toks.new }
{
    if toks.eat_word("dictionary") {
        return after_dictionary(alloc, toks);
    }
    toks.expect_word("view")?;
    after_view(alloc, depth, toks)
}

#[tactic(auto, unfolding(crate::specs::Reading::Statements::after_dictionary))]
fn after_dictionary(alloc: Global, toks: &mut Cursor<'_>) -> Result<Statement, Refused>
    ensures { Gives statement_of (spec.after_dictionary toks.old.at toks.old.kinds) result toks.new }
{
    let name = toks.name(alloc)?;
    toks.expect_word("as")?;
    toks.expect(b'(')?;
    let entries = texts(alloc, toks)?;
    toks.expect(b')')?;
    toks.expect(b';')?;
    Ok(Statement::Dictionary { name, entries })
}

/// Strings with commas between them.
fn texts(alloc: Global, toks: &mut Cursor<'_>) -> Result<Vec<OwnedText>, Refused>
    ensures { Gives (λ texts. texts.items) (separated (sees_sign ",") spec.a_text toks.old.at toks.old.kinds) result toks.new }
{
    let mut texts = Vec::new(alloc);
    for _turn in 0..toks.left() + 1 {
        let one = text(alloc, toks)?;
        texts.push(one)?;
        if !toks.eat(b',') {
            return Ok(texts);
        }
    }
    Err(Failure::Fault(NoTree))
}

fn text(alloc: Global, toks: &mut Cursor<'_>) -> Result<OwnedText, Refused>
    ensures { Gives (λ text. text) (spec.a_text toks.old.at toks.old.kinds) result toks.new }
{
    let string = toks.string(alloc)?;
    Ok(string.text)
}

#[tactic(auto, unfolding(crate::specs::Reading::Statements::after_view))]
fn after_view(alloc: Global, depth: u32, toks: &mut Cursor<'_>) -> Result<Statement, Refused>
    ensures { Gives statement_of (spec.after_view depth toks.old.at toks.old.kinds) result toks.new }
{
    let name = toks.name(alloc)?;
    toks.expect_word("as")?;
    let query = ended_query(alloc, depth, toks)?;
    Ok(Statement::View { name, query })
}

/// A query and its `;`.
fn ended_query(alloc: Global, depth: u32, toks: &mut Cursor<'_>) -> Result<Query, Refused>
    ensures { Gives query_of ((read_query depth ◁ symbol ";") toks.old.at toks.old.kinds) result toks.new }
{
    let query = query(alloc, depth, toks)?;
    toks.expect_after(query, b';')
}

#[tactic(auto, unfolding(crate::specs::Reading::Statements::after_output))]
fn after_output(alloc: Global, toks: &mut Cursor<'_>) -> Result<Statement, Refused>
    ensures { Gives statement_of (spec.after_output toks.old.at toks.old.kinds) result toks.new }
{
    toks.expect_word("view")?;
    let name = toks.name(alloc)?;
    let alias = alias(alloc, toks)?;
    toks.expect(b';')?;
    Ok(Statement::Output { name, alias })
}

fn alias(alloc: Global, toks: &mut Cursor<'_>) -> Result<Option<OwnedText>, Refused>
    ensures { Gives (λ alias. alias) (optional (sees "as") spec.a_text toks.old.at toks.old.kinds) result toks.new }
{
    if toks.eat_word("as") {
        let alias = text(alloc, toks)?;
        return Ok(Some(alias));
    }
    Ok(None)
}

#[tactic(auto, unfolding(crate::specs::Reading::Statements::after_export))]
fn after_export(alloc: Global, toks: &mut Cursor<'_>) -> Result<Statement, Refused>
    ensures { Gives statement_of (spec.after_export toks.old.at toks.old.kinds) result toks.new }
{
    toks.expect_word("view")?;
    let name = toks.name(alloc)?;
    toks.expect(b';')?;
    Ok(Statement::Export(name))
}

#[tactic(auto, unfolding(crate::specs::Reading::Statements::after_require))]
fn after_require(toks: &mut Cursor<'_>) -> Result<Statement, Refused>
    ensures { Gives statement_of (spec.after_require toks.old.at toks.old.kinds) result toks.new }
{
    toks.expect_word("document")?;
    toks.expect_word("with")?;
    toks.expect_word("columns")?;
    after_columns(toks)?;
    Ok(Statement::Require)
}

#[tactic(auto, unfolding(crate::specs::Reading::Statements::after_columns))]
fn after_columns(toks: &mut Cursor<'_>) -> Result<(), Refused>
    ensures { Gives (λ u. u) (spec.after_columns toks.old.at toks.old.kinds) result toks.new }
{
    toks.expect_exactly("text")?;
    toks.expect_exactly("Text")?;
    toks.expect(b';')
}

#[tactic(auto, unfolding(crate::specs::Reading::Statements::after_module))]
fn after_module(alloc: Global, toks: &mut Cursor<'_>) -> Result<Statement, Refused>
    ensures { Gives statement_of (spec.after_module toks.old.at toks.old.kinds) result toks.new }
{
    let name = toks.name(alloc)?;
    toks.expect(b';')?;
    Ok(Statement::Module(name))
}
