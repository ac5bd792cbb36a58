//! The dictionaries that expressions name.

ghost use Rattle.std.specs.Prelude.{◌≡◌, ◌++◌, map, flat_map, OnOk};
ghost use Rattle.aql_syntax.specs.Trees.{as_terms};
ghost use Rattle.aql_syntax.specs.Views as see;
ghost use Rattle.view_graph.specs.Names as spec;

use crate::names::mentions::Mentions;
use aql_syntax::{Ast, Form, Item, is_dictionary_predicate};
use span_token::OutOfMemory;

/// The names in an expression.
#[cycle(term)]
pub(crate) fn term<'a>(out: &mut Mentions<'a>, ast: &'a Ast) -> Result<(), OutOfMemory>
    ensures { OnOk result (out.new ≡ out.old ++ spec.names_in_term (see.term_of ast.now)) }
{
    match &ast.form {
        Form::Call { name, args } => {
            dictionary_argument(out, name.as_str(), args)?;
            terms(out, args)
        }
        _ => Ok(()),
    }
}

/// The dictionary that the call of the function `name` names by its first argument.
fn dictionary_argument<'a>(
    out: &mut Mentions<'a>,
    name: &str,
    args: &'a [Ast],
) -> Result<(), OutOfMemory>
    ensures { OnOk result (out.new ≡ out.old ++ spec.dictionary_argument name.now (as_terms (map see.term_of args.now))) }
{
    match args {
        [] => Ok(()),
        [first, ..] => match &first.form {
            Form::Str(text) => {
                if is_dictionary_predicate(name) {
                    out.dictionary(text.as_str())
                } else {
                    Ok(())
                }
            }
            _ => Ok(()),
        },
    }
}

/// The names in expressions, one after another.
#[cycle(term)]
pub(crate) fn terms<'a>(out: &mut Mentions<'a>, asts: &'a [Ast]) -> Result<(), OutOfMemory>
    ensures { OnOk result (out.new ≡ out.old ++ flat_map spec.names_in_term (map see.term_of asts.now)) }
{
    for ast in asts {
        term(out, ast)?;
    }
    Ok(())
}

/// The names in items.
pub(crate) fn items<'a>(out: &mut Mentions<'a>, items: &'a [Item]) -> Result<(), OutOfMemory>
    ensures { OnOk result (out.new ≡ out.old ++ flat_map spec.names_in_item (map see.item_of items.now)) }
{
    for item in items {
        term(out, &item.expr)?;
    }
    Ok(())
}
