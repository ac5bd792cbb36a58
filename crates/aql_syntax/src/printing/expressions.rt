//! The tokens of expressions and items.

ghost use Rattle.std.specs.Prelude.{◌≡◌, [], ◌∷◌, ◌++◌, map, option_map, OnOk};
ghost use Rattle.aql_lexer.specs.Kinds.{word};
ghost use Rattle.aql_syntax.specs.Views as view;
ghost use Rattle.aql_syntax.specs.Printed as spec;
ghost use Rattle.aql_syntax.specs.Trees.{star};

use crate::printing::writer::Writer;
use crate::tree::{Ast, Form, Ident, Item};
use span_token::OutOfMemory;

pub fn column(out: &mut Writer, alias: &Ident, name: &Ident) -> Result<(), OutOfMemory>
    ensures { OnOk result (out.new ≡ out.old ++ spec.printed_column (view.name_of alias.now) (view.name_of name.now)) }
{
    out.name(alias)?;
    out.symbol(b'.')?;
    out.name(name)
}

#[cycle(expression)]
pub fn term(out: &mut Writer, ast: &Ast) -> Result<(), OutOfMemory>
    ensures { OnOk result (out.new ≡ out.old ++ spec.printed_term (view.term_of ast.now)) }
{
    match &ast.form {
        Form::Int(value) => out.int(*value),
        Form::Str(text) => out.string(text.as_str()),
        Form::Regex(text) => out.regex(text.as_str()),
        Form::Column(alias, name) => column(out, alias, name),
        Form::Bare(name) => out.name(name),
        Form::Call { name, args } => call(out, name.as_str(), args),
        Form::Star { name } => star(out, name.as_str()),
    }
}

#[cycle(expression)]
fn call(out: &mut Writer, name: &str, args: &[Ast]) -> Result<(), OutOfMemory>
    ensures { OnOk result (out.new ≡ out.old ++ spec.printed_call name.now (map view.term_of args.now)) }
{
    out.word(name)?;
    out.symbol(b'(')?;
    for (i, arg) in args.iter().enumerate() {
        out.comma(i)?;
        term(out, arg)?;
    }
    out.symbol(b')')
}

fn star(out: &mut Writer, name: &str) -> Result<(), OutOfMemory>
    ensures { OnOk result (out.new ≡ out.old ++ spec.printed_term (star 0 name.now)) }
{
    out.word(name)?;
    out.symbol(b'(')?;
    out.symbol(b'*')?;
    out.symbol(b')')
}

pub fn output(out: &mut Writer, name: &Ident) -> Result<(), OutOfMemory>
    ensures { OnOk result (out.new ≡ out.old ++ spec.printed_output (view.name_of name.now)) }
{
    out.word("as")?;
    out.name(name)
}

/// Items with commas between them.
pub fn items(out: &mut Writer, items: &[Item]) -> Result<(), OutOfMemory>
    ensures { OnOk result (out.new ≡ out.old ++ spec.printed_separated spec.comma spec.printed_item (map view.item_of items.now)) }
{
    for (i, one) in items.iter().enumerate() {
        out.comma(i)?;
        item(out, one)?;
    }
    Ok(())
}

fn item(out: &mut Writer, item: &Item) -> Result<(), OutOfMemory>
    ensures { OnOk result (out.new ≡ out.old ++ spec.printed_item (view.item_of item.now)) }
{
    term(out, &item.expr)?;
    optional_output(out, &item.name)
}

fn optional_output(out: &mut Writer, name: &Option<Ident>) -> Result<(), OutOfMemory>
    ensures { OnOk result (out.new ≡ out.old ++ spec.printed_optional spec.printed_output (option_map view.name_of name.now)) }
{
    match name {
        None => Ok(()),
        Some(name) => output(out, name),
    }
}

/// Items with a comma after each.
pub fn items_before(out: &mut Writer, items: &[Item]) -> Result<(), OutOfMemory>
    ensures { OnOk result (out.new ≡ out.old ++ spec.printed_each spec.printed_item_before (map view.item_of items.now)) }
{
    for one in items {
        item(out, one)?;
        out.symbol(b',')?;
    }
    Ok(())
}

/// `begin` and the conditions, if there are any.
pub fn conds(out: &mut Writer, begin: &str, conds: &[Ast]) -> Result<(), OutOfMemory>
    ensures { OnOk result (out.new ≡ out.old ++ spec.printed_clause (word begin.now ∷ []) spec.and spec.printed_term (map view.term_of conds.now)) }
{
    if conds.is_empty() {
        return Ok(());
    }
    out.word(begin)?;
    for (i, cond) in conds.iter().enumerate() {
        out.and(i)?;
        term(out, cond)?;
    }
    Ok(())
}

/// `begin`, `by` and the keys, if there are any.
pub fn keys(out: &mut Writer, begin: &str, keys: &[Ast]) -> Result<(), OutOfMemory>
    ensures { OnOk result (out.new ≡ out.old ++ spec.printed_clause (word begin.now ∷ spec.word "by" ∷ []) spec.comma spec.printed_term (map view.term_of keys.now)) }
{
    if keys.is_empty() {
        return Ok(());
    }
    out.word(begin)?;
    out.word("by")?;
    for (i, key) in keys.iter().enumerate() {
        out.comma(i)?;
        term(out, key)?;
    }
    Ok(())
}
