//! The tokens of a tree.

ghost use Rattle.std.specs.Prelude.{◌≡◌, [], ◌∷◌, ◌++◌, map, option_map, OnOk, IfOk};
ghost use Rattle.aql_lexer.specs.Kinds.{kind_of};
ghost use Rattle.aql_syntax.specs.Views as see;
ghost use Rattle.aql_syntax.specs.Printed as spec;
ghost use Rattle.aql_syntax.specs.Printing.{CanBePrinted, IsPrinted};
ghost use Rattle.aql_syntax.specs.Trees as tree;

mod expressions;
mod extractions;
mod queries;
mod writer;

use crate::tree::{Ident, Query, Statement};
use aql_lexer::TokKind;
use queries::query;
use span_token::{OutOfMemory, OwnedText};
use std::alloc::Global;
use writer::Writer;

/// One list of tokens of a statement.
///
/// Keywords are in lower case. A name stands in quotes only where it must, because it is reserved
/// or no word; a dictionary's name in an extraction that can't stand in quotes either is a string.
/// The statement must have a list of tokens at all: a union, for one, has two sides or more, and a
/// name without characters has no token.
///
/// Meaning: `IsPrinted`, `specs/Printing.antt`, and the grammar, `specs/Grammar`.
pub fn print(alloc: Global, s: &Statement) -> Result<Vec<TokKind>, OutOfMemory>
    requires printable { CanBePrinted (see.statement_of s.now) }
    ensures printed { IfOk result (λ toks. IsPrinted (see.statement_of s.now) (map kind_of toks.items)) }
{
    let mut out = Writer::new(alloc);
    statement(&mut out, s)?;
    Ok(out.into_tokens())
}

fn statement(out: &mut Writer, statement: &Statement) -> Result<(), OutOfMemory>
    ensures { OnOk result (out.new ≡ out.old ++ spec.printed_statement (see.statement_of statement.now)) }
{
    match statement {
        Statement::Module(name) => module(out, name),
        Statement::Require => require(out),
        Statement::Export(name) => export(out, name),
        Statement::Dictionary { name, entries } => dictionary(out, name, entries),
        Statement::View { name, query } => view(out, name, query),
        Statement::Output { name, alias } => output(out, name, alias),
    }
}

fn module(out: &mut Writer, name: &Ident) -> Result<(), OutOfMemory>
    ensures { OnOk result (out.new ≡ out.old ++ spec.printed_statement (tree.module_ (see.name_of name.now))) }
{
    out.word("module")?;
    out.name(name)?;
    out.symbol(b';')
}

fn require(out: &mut Writer) -> Result<(), OutOfMemory>
    ensures { OnOk result (out.new ≡ out.old ++ spec.printed_statement tree.require) }
{
    out.word("require")?;
    out.word("document")?;
    out.word("with")?;
    columns(out)
}

fn columns(out: &mut Writer) -> Result<(), OutOfMemory>
    ensures { OnOk result (out.new ≡ out.old ++ spec.printed_columns) }
{
    out.word("columns")?;
    out.word("text")?;
    out.word("Text")?;
    out.symbol(b';')
}

fn export(out: &mut Writer, name: &Ident) -> Result<(), OutOfMemory>
    ensures { OnOk result (out.new ≡ out.old ++ spec.printed_statement (tree.export (see.name_of name.now))) }
{
    out.word("export")?;
    out.word("view")?;
    out.name(name)?;
    out.symbol(b';')
}

fn dictionary(out: &mut Writer, name: &Ident, texts: &[OwnedText]) -> Result<(), OutOfMemory>
    ensures { OnOk result (out.new ≡ out.old ++ spec.printed_statement (tree.dictionary (see.name_of name.now) texts.now)) }
{
    created(out, "dictionary", name)?;
    out.symbol(b'(')?;
    entries(out, texts)?;
    out.symbol(b')')?;
    out.symbol(b';')
}

fn created(out: &mut Writer, what: &str, name: &Ident) -> Result<(), OutOfMemory>
    ensures { OnOk result (out.new ≡ out.old ++ spec.printed_created what.now (see.name_of name.now)) }
{
    out.word("create")?;
    out.word(what)?;
    out.name(name)?;
    out.word("as")
}

fn entries(out: &mut Writer, entries: &[OwnedText]) -> Result<(), OutOfMemory>
    ensures { OnOk result (out.new ≡ out.old ++ spec.printed_separated spec.comma spec.printed_text entries.now) }
{
    for (i, entry) in entries.iter().enumerate() {
        out.comma(i)?;
        out.string(entry.as_str())?;
    }
    Ok(())
}

fn view(out: &mut Writer, name: &Ident, meaning: &Query) -> Result<(), OutOfMemory>
    ensures { OnOk result (out.new ≡ out.old ++ spec.printed_statement (tree.create (see.name_of name.now) (see.query_of meaning.now))) }
{
    created(out, "view", name)?;
    query(out, meaning)?;
    out.symbol(b';')
}

fn output(out: &mut Writer, name: &Ident, other: &Option<OwnedText>) -> Result<(), OutOfMemory>
    ensures { OnOk result (out.new ≡ out.old ++ spec.printed_statement (tree.output (see.name_of name.now) other.now)) }
{
    out.word("output")?;
    out.word("view")?;
    out.name(name)?;
    alias(out, other)?;
    out.symbol(b';')
}

fn alias(out: &mut Writer, alias: &Option<OwnedText>) -> Result<(), OutOfMemory>
    ensures { OnOk result (out.new ≡ out.old ++ spec.printed_optional spec.printed_alias alias.now) }
{
    match alias {
        None => Ok(()),
        Some(alias) => {
            out.word("as")?;
            out.string(alias.as_str())
        }
    }
}
