//! Worked texts with their tokens, as the language's rules give them.

use crate::{Tok, TokKind, lex};
use span_token::Failure;
use std::alloc::Global;
use std::fmt;
use std::process::Abort;
use std::test::Fail;

/// A token's kind as `KIND TEXT`.
#[derive(Drop)]
struct ShownKind<'t> {
    kind: &'t TokKind,
}

impl fmt::Display for ShownKind<'_> {
    fn fmt<W: fmt::Write>(&self, f: &mut fmt::Formatter<W>) -> fmt::Result {
        match self.kind {
            TokKind::Word(text) => write!(f, "word {}", text.as_str()),
            TokKind::Name(text) => write!(f, "name {}", text.as_str()),
            TokKind::Int(number) => write!(f, "int {number}"),
            TokKind::Str(text) => write!(f, "str {}", text.as_str()),
            TokKind::Regex(text) => write!(f, "regex {}", text.as_str()),
            TokKind::Symbol(byte) => write!(f, "symbol {}", char::from(*byte)),
        }
    }
}

/// Tokens as `KIND TEXT@BEGIN:LINE`, with bars between them.
#[derive(Drop)]
struct ShownToks<'t> {
    toks: &'t [Tok],
}

impl fmt::Display for ShownToks<'_> {
    fn fmt<W: fmt::Write>(&self, f: &mut fmt::Formatter<W>) -> fmt::Result {
        let mut between = "";
        for tok in self.toks {
            let kind = ShownKind { kind: &tok.kind };
            write!(f, "{between}{kind}@{}:{}", tok.begin, tok.line)?;
            between = " | ";
        }
        Ok(())
    }
}

/// The tokens of `text`, or the byte of its fault.
fn shown(alloc: Global, text: &str) -> Result<String, Fail> {
    if text.len() > 10_000 {
        return Err(Fail::from("a text of the table is short"));
    }
    match lex(alloc, text) {
        Ok(toks) => Ok(format!(in alloc; "{}", ShownToks { toks: &toks })?),
        Err(Failure::Fault(fault)) => Ok(format!(in alloc; "fault {}", fault.place)?),
        Err(Failure::OutOfMemory) => Err(Fail::from("out of memory")),
    }
}

fn check(rt: &impl Abort, alloc: Global, rows: &[(&str, &str)]) -> Result<(), Fail> {
    for (text, want) in rows {
        let got = shown(alloc, text)?;
        assert_eq!(rt; got.as_str(), *want, "{text}");
    }
    Ok(())
}

#[test]
fn words_numbers_and_names_take_all_they_can(rt: HostRuntime) -> Result<(), Fail> {
    check(
        &rt,
        rt.alloc(),
        &[
            ("", ""),
            (
                "selection _a Ab9 9a",
                "word selection@0:1 | word _a@10:1 | word Ab9@13:1 | int 9@17:1 | word a@18:1",
            ),
            ("1-2 -3", "int 1@0:1 | int -2@1:1 | int -3@4:1"),
            ("1.5", "int 1@0:1 | symbol .@1:1 | int 5@2:1"),
            ("- 2", "fault 0"),
            ("a -b", "fault 2"),
            ("007 -0", "int 7@0:1 | int 0@4:1"),
            ("9223372036854775807", "int 9223372036854775807@0:1"),
            ("9223372036854775808", "fault 0"),
            (
                "a -9223372036854775808",
                "word a@0:1 | int -9223372036854775808@2:1",
            ),
            ("a -9223372036854775809", "fault 2"),
            ("\"a b\"\"select\"", "name a b@0:1 | name select@5:1"),
            ("\"\"", "fault 0"),
            ("a \"b\nc\"", "fault 2"),
            ("a \"b", "fault 2"),
            (r#""a\""#, r"name a\@0:1"),
            (
                "(),.;*<>{}",
                "symbol (@0:1 | symbol )@1:1 | symbol ,@2:1 | symbol .@3:1 | symbol ;@4:1 | symbol *@5:1 | symbol <@6:1 | symbol >@7:1 | symbol {@8:1 | symbol }@9:1",
            ),
            ("a+", "fault 1"),
            ("a\u{e9}", "fault 1"),
            ("\u{e9}", "fault 0"),
            ("create view P as #", "fault 17"),
        ],
    )
}

#[test]
fn strings_and_patterns_end_at_the_first_bare_quote(rt: HostRuntime) -> Result<(), Fail> {
    check(
        &rt,
        rt.alloc(),
        &[
            ("'' 'it''s'", "str @0:1 | str it@3:1 | str s@7:1"),
            (r"'a\'b' c", "str a'b@0:1 | word c@7:1"),
            (r"'a\\' 'b'", r"str a\@0:1 | str b@6:1"),
            (r"'\n\/\é\\\''", r"str \n\/\é\'@0:1"),
            (r"'a\'", "fault 0"),
            ("'--' '/*' b", "str --@0:1 | str /*@5:1 | word b@10:1"),
            ("'a\nb' c", "str a\nb@0:1 | word c@6:2"),
            ("'\u{e9}' x", "str \u{e9}@0:1 | word x@5:1"),
            ("// a", "regex @0:1 | word a@3:1"),
            (r"/\d{3}\/\'\\/", r"regex \d{3}/\'\\@0:1"),
            (r"/a\/*b/", "regex a/*b@0:1"),
            ("/a/*", "regex a@0:1 | symbol *@3:1"),
            ("/[/*]/", "fault 4"),
            ("/a\nb/", "fault 0"),
            ("/a\\\nb/", "fault 0"),
            (r"/a\/", "fault 0"),
        ],
    )
}

#[test]
fn comments_and_white_space_only_move_places(rt: HostRuntime) -> Result<(), Fail> {
    check(
        &rt,
        rt.alloc(),
        &[
            (" \t\r\n\x0c a\n\nb", "word a@6:2 | word b@9:4"),
            ("a\x0b", "fault 1"),
            ("a--b", "word a@0:1"),
            ("a -- 'b\nc", "word a@0:1 | word c@8:2"),
            ("a/* 'b\n * /* */c", "word a@0:1 | word c@15:2"),
            ("/**/a/***/b", "word a@4:1 | word b@10:1"),
            ("/*/", "fault 0"),
            ("/*/ */a", "word a@6:1"),
            ("a /* b", "fault 2"),
            ("\u{feff}a", "word a@3:1"),
            ("a\u{feff}", "fault 1"),
            ("\u{feff}\u{feff}", "fault 3"),
            (
                "create view P as extract regex /[0-9]+/ on D.text as num from Document D;",
                "word create@0:1 | word view@7:1 | word P@12:1 | word as@14:1 | word extract@17:1 | word regex@25:1 | regex [0-9]+@31:1 | word on@40:1 | word D@43:1 | symbol .@44:1 | word text@45:1 | word as@50:1 | word num@53:1 | word from@57:1 | word Document@62:1 | word D@71:1 | symbol ;@72:1",
            ),
        ],
    )
}
