//! What a program mentions, in the order of the text.

ghost use Rattle.std.specs.Prelude.{◌≡◌, ◌++◌, map, OnOk, IfOk};
ghost use Rattle.aql_syntax.specs.Views.{statement_of};
ghost use Rattle.aql_tables.specs.Mentions.{mentions_in_statement, mentions_of};

mod queries;
mod terms;

use crate::mention::Mentions;
use aql_syntax::Statement;
use queries::query;
use span_token::OutOfMemory;
use std::alloc::Global;

/// What the statements mention.
pub(crate) fn mentions<'a>(
    alloc: Global,
    statements: &'a [Statement],
) -> Result<Mentions<'a>, OutOfMemory>
    ensures { IfOk result (λ mentions. mentions ≡ mentions_of (map statement_of statements.now)) }
{
    let mut out = Mentions::new(alloc);
    for one in statements {
        statement(&mut out, one)?;
    }
    Ok(out)
}

fn statement<'a>(out: &mut Mentions<'a>, statement: &'a Statement) -> Result<(), OutOfMemory>
    ensures { OnOk result (out.new ≡ out.old ++ mentions_in_statement (statement_of statement.now)) }
{
    match statement {
        Statement::View { query: body, .. } => query(out, body),
        _ => Ok(()),
    }
}
