//! What expressions mention.

ghost use Rattle.std.specs.Prelude.{◌≡◌, ◌++◌, map, flat_map, OnOk};
ghost use Rattle.aql_syntax.specs.Trees.{as_terms};
ghost use Rattle.aql_syntax.specs.Views as see;
ghost use Rattle.aql_tables.specs.Mentions as spec;

use crate::mention::Mentions;
use aql_syntax::{Ast, Form, Item, is_dictionary_predicate};
use span_token::OutOfMemory;

/// What an expression mentions.
#[cycle(term)]
pub(crate) fn term<'a>(out: &mut Mentions<'a>, ast: &'a Ast) -> Result<(), OutOfMemory>
    ensures { OnOk result (out.new ≡ out.old ++ spec.mentions_in_term (see.term_of ast.now)) }
{
    match &ast.form {
        Form::Regex(text) => out.pattern(text.as_str()),
        Form::Call { name, args } => {
            arguments(out, name.as_str(), args)?;
            terms(out, args)
        }
        _ => Ok(()),
    }
}

/// The dictionary that an item's name may stand for elsewhere.
fn text<'a>(out: &mut Mentions<'a>, ast: &'a Ast) -> Result<(), OutOfMemory>
    ensures { OnOk result (out.new ≡ out.old ++ spec.mentions_in_text (see.term_of ast.now)) }
{
    match &ast.form {
        Form::Str(text) => out.dictionary_either_way(text.as_str()),
        _ => Ok(()),
    }
}

/// The dictionary that the call of the function `name` mentions by its first argument.
fn arguments<'a>(out: &mut Mentions<'a>, name: &str, args: &'a [Ast]) -> Result<(), OutOfMemory>
    ensures { OnOk result (out.new ≡ out.old ++ spec.mentions_in_arguments name.now (as_terms (map see.term_of args.now))) }
{
    match args {
        [] => Ok(()),
        [first, rest @ ..] => match &first.form {
            Form::Str(text) => {
                if is_dictionary_predicate(name) {
                    dictionary(out, text.as_str(), rest)
                } else {
                    Ok(())
                }
            }
            _ => Ok(()),
        },
    }
}

/// The dictionary of a predicate whose other arguments are `rest`.
fn dictionary<'a>(out: &mut Mentions<'a>, name: &'a str, rest: &'a [Ast]) -> Result<(), OutOfMemory>
    ensures { OnOk result (out.new ≡ out.old ++ spec.with_flags name.now (spec.flags_in (as_terms (map see.term_of rest.now)))) }
{
    match rest {
        [flag, _, ..] => flagged(out, name, flag),
        _ => out.dictionary(name, false),
    }
}

/// The dictionary, compared as the flag says.
fn flagged<'a>(out: &mut Mentions<'a>, name: &'a str, flag: &'a Ast) -> Result<(), OutOfMemory>
    ensures { OnOk result (out.new ≡ out.old ++ spec.with_flags name.now (spec.flags_of (see.term_of flag.now))) }
{
    match &flag.form {
        Form::Str(text) => out.dictionary(name, text.as_str() == "Exact"),
        _ => out.dictionary_either_way(name),
    }
}

/// What expressions mention, one after another.
#[cycle(term)]
pub(crate) fn terms<'a>(out: &mut Mentions<'a>, asts: &'a [Ast]) -> Result<(), OutOfMemory>
    ensures { OnOk result (out.new ≡ out.old ++ flat_map spec.mentions_in_term (map see.term_of asts.now)) }
{
    for ast in asts {
        term(out, ast)?;
    }
    Ok(())
}

/// What a selection's items mention.
pub(crate) fn items<'a>(out: &mut Mentions<'a>, items: &'a [Item]) -> Result<(), OutOfMemory>
    ensures { OnOk result (out.new ≡ out.old ++ flat_map spec.mentions_in_item (map see.item_of items.now)) }
{
    for one in items {
        item(out, one)?;
    }
    Ok(())
}

fn item<'a>(out: &mut Mentions<'a>, item: &'a Item) -> Result<(), OutOfMemory>
    ensures { OnOk result (out.new ≡ out.old ++ spec.mentions_in_item (see.item_of item.now)) }
{
    text(out, &item.expr)?;
    term(out, &item.expr)
}

/// What an extraction's items mention.
pub(crate) fn columns<'a>(out: &mut Mentions<'a>, items: &'a [Item]) -> Result<(), OutOfMemory>
    ensures { OnOk result (out.new ≡ out.old ++ flat_map spec.mentions_in_column (map see.item_of items.now)) }
{
    for item in items {
        term(out, &item.expr)?;
    }
    Ok(())
}
