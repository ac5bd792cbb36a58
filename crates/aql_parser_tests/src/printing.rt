//! Statements with the tokens that they are printed as.

ghost use Rattle.aql_syntax.specs.Printing.{CanBePrinted};
ghost use Rattle.aql_syntax.specs.Views.{statement_of};

use crate::reading::{is_text, parsed};
use aql_lexer::TokKind;
use aql_syntax::{Statement, print};
use std::alloc::Global;
use std::fmt;
use std::process::Abort;
use std::test::Fail;

/// Statements with the tokens that they are printed as.
static PRINTED: [(&str, &str); 6] = [
    (
        "Create VIEW \"P\" as extract regex /[0-9]+/ on D.text as num from Document D;",
        "word create | word view | word P | word as | word extract | word regex | regex [0-9]+ | word on | word D | symbol . | word text | word as | word num | word from | word Document | word D | symbol ;",
    ),
    (
        "create view \"select\" as extract regex /a\\/b/ on 3 token in D.text as num from Document D;",
        "word create | word view | name select | word as | word extract | word regex | regex a/b | word on | int 3 | word tokens | word in | word D | symbol . | word text | word as | word num | word from | word Document | word D | symbol ;",
    ),
    (
        "output view P as 'x';",
        "word output | word view | word P | word as | str x | symbol ;",
    ),
    (
        "REQUIRE document with columns text Text;",
        "word require | word document | word with | word columns | word text | word Text | symbol ;",
    ),
    (
        "create view \"a b\" as (extract regex // on between 0 and 2 tokens in D.text as n from A D) union all (extract dictionary 'a b' with flags 'IgnoreCase' on D.text as n from A D) union all (extract dictionary 'a\"b' with flags 'Exact' on D.text as n from A D);",
        "word create | word view | name a b | word as | symbol ( | word extract | word regex | regex  | word on | word between | int 0 | word and | int 2 | word tokens | word in | word D | symbol . | word text | word as | word n | word from | word A | word D | symbol ) | word union | word all | symbol ( | word extract | word dictionary | name a b | word with | word flags | str IgnoreCase | word on | word D | symbol . | word text | word as | word n | word from | word A | word D | symbol ) | word union | word all | symbol ( | word extract | word dictionary | str a\"b | word with | word flags | str Exact | word on | word D | symbol . | word text | word as | word n | word from | word A | word D | symbol ) | symbol ;",
    ),
    (
        "create view a1 as (extract dictionary first on D.text as n from A D) minus (extract dictionary \"From\" on D.text as n from A D);",
        "word create | word view | word a1 | word as | symbol ( | word extract | word dictionary | word first | word on | word D | symbol . | word text | word as | word n | word from | word A | word D | symbol ) | word minus | symbol ( | word extract | word dictionary | name From | word on | word D | symbol . | word text | word as | word n | word from | word A | word D | symbol ) | symbol ;",
    ),
];

/// A token's kind as `KIND TEXT`.
#[derive(Drop)]
struct ShownKind<'t> {
    kind: &'t TokKind,
}

impl fmt::Display for ShownKind<'_> {
    fn fmt<W: fmt::Write>(&self, f: &mut fmt::Formatter<W>) -> fmt::Result {
        match self.kind {
            TokKind::Word(text) => write!(f, "word {}", text.as_str()),
            TokKind::Name(text) => write!(f, "name {}", text.as_str()),
            TokKind::Int(number) => write!(f, "int {number}"),
            TokKind::Str(text) => write!(f, "str {}", text.as_str()),
            TokKind::Regex(text) => write!(f, "regex {}", text.as_str()),
            TokKind::Symbol(byte) => write!(f, "symbol {}", char::from(*byte)),
        }
    }
}

/// The tokens as `KIND TEXT | KIND TEXT ..`.
#[derive(Drop)]
struct ShownKinds<'t> {
    kinds: &'t [TokKind],
}

impl fmt::Display for ShownKinds<'_> {
    fn fmt<W: fmt::Write>(&self, f: &mut fmt::Formatter<W>) -> fmt::Result {
        let mut between = "";
        for kind in self.kinds {
            let kind = ShownKind { kind };
            write!(f, "{between}{kind}")?;
            between = " | ";
        }
        Ok(())
    }
}

/// The tokens that a statement is printed as.
fn printed_as(alloc: Global, tree: &Statement) -> Result<String, Fail>
    requires { CanBePrinted (statement_of tree.now) }
{
    let kinds = print(alloc, tree)?;
    Ok(format!(in alloc; "{}", ShownKinds { kinds: &kinds })?)
}

#[test]
fn a_statement_is_printed_as_one_list_of_its_tokens(rt: HostRuntime) -> Result<(), Fail> {
    for (text, want) in PRINTED {
        let trees = parsed(rt.alloc(), text)?;
        for tree in &trees {
            let got = printed_as(rt.alloc(), tree)?;
            is_text(&rt, got.as_str(), want, text);
        }
    }
    Ok(())
}
