//! Which programs are refused, each with its line on standard error.
use crate::setup::{NO_NUMBERS, Setup, comes_to, repeated, usual};
use std::alloc::Global;
use std::test::Fail;

/// Each row: a program whose names can't be resolved, and its line.
const UNRESOLVED: [(&str, &str); 12] = [
    ("output view P;", "aqlx: statement 1: no view P\n"),
    (
        "create view Document as extract regex /a/ on D.text as n from Document D; output view Document;",
        "aqlx: statement 1: Document is defined again\n",
    ),
    (
        "create view P as extract regex /a/ on D.text as n from Document D; create dictionary P as ('x'); create dictionary P as ('y');",
        "aqlx: statement 3: P is defined again\n",
    ),
    (
        "create view P as extract regex /a/ on D.text as n from document D; output view P;",
        "aqlx: statement 1: no view document\n",
    ),
    (
        "create view P as extract regex /a/ on D.text as n from Document D; output view p;",
        "aqlx: statement 2: no view p\n",
    ),
    (
        "create view C as extract dictionary 'City' on D.text as c from Document D; output view C;",
        "aqlx: statement 1: no dictionary City\n",
    ),
    (
        "create view P as select D.text from Document D where MatchesDict('A\nB', D.text);",
        "aqlx: statement 1: no dictionary A\nB\n",
    ),
    (
        "create view P as extract regex /a/ on D.text as n from Document D; output view P; output view P;",
        "aqlx: statement 3: output P again\n",
    ),
    (
        "output view Document as 'a'; output view Document as 'b'; output view Document as 'a';",
        "aqlx: statement 3: output a again\n",
    ),
    (
        "create view A as select B.x from B; create view B as select A.x from A; output view A;",
        "aqlx: cycle: A, B\n",
    ),
    (
        "create view A as select A.x from (select A.x from A) A;",
        "aqlx: cycle: A\n",
    ),
    (
        "create view A as select B.x from B; output view C;",
        "aqlx: statement 1: no view B\n",
    ),
];

#[test]
fn names_that_cannot_be_resolved_are_told(rt: HostRuntime) -> Result<(), Fail> {
    for (program, line) in &UNRESOLVED {
        let setup = usual(program, NO_NUMBERS);
        comes_to(&rt, rt.alloc(), &setup, (1, b"", *line), (program, 0))?;
    }
    Ok(())
}

/// Each row: a program with a fault of types, and its line.
const MISTYPED: [(&str, &str); 16] = [
    (
        r#"create view A as select D.txt from Document D; output view A;"#,
        "aqlx: statement 1, byte 24: no column txt\n",
    ),
    (
        r#"create view P as extract regex /(/ on D.text as n from Document D;"#,
        "aqlx: statement 1, byte 31: bad pattern\n",
    ),
    (
        r#"create view P as extract regex /a{1000}{1000}/ on D.text as n from Document D;"#,
        "aqlx: statement 1, byte 31: pattern too large: 13 bytes, weight 1000000\n",
    ),
    (
        r#"create view A as select GetLength(3) as n from Document D;"#,
        "aqlx: statement 1, byte 34: wanted Span, found Integer\n",
    ),
    (
        r#"create view P as extract regex /[0-9]+/ on D.text as num from Document D; create view G as select P.num, Count(*) as n from P;"#,
        "aqlx: statement 2, byte 98: not grouped\n",
    ),
    (
        r#"create view A as select E.text from Document D;"#,
        "aqlx: statement 1, byte 24: no alias E\n",
    ),
    (
        r#"create view A as select D.text from Document D, Document D;"#,
        "aqlx: statement 1, byte 57: alias D again\n",
    ),
    (
        r#"create view A as select D.text, D.text from Document D;"#,
        "aqlx: statement 1, byte 32: column text again\n",
    ),
    (
        r#"create view A as select Nope(D.text) as n from Document D where 1;"#,
        "aqlx: statement 1, byte 24: no function Nope\n",
    ),
    (
        r#"create view A as (select D.text from Document D) union all (select D.text as t from Document D);"#,
        "aqlx: statement 1, byte 60: schemas differ\n",
    ),
    (
        r#"create view A as extract regex /a/ on between 2 and 1 tokens in D.text as n from Document D;"#,
        "aqlx: statement 1, byte 46: range 2 to 1\n",
    ),
    (
        r#"create view A as select D.text from Document D consolidate on D.text using 'Best';"#,
        "aqlx: statement 1, byte 75: no policy Best\n",
    ),
    (
        r#"create view A as extract regex /(a)/ on D.text return group 2 as n from Document D;"#,
        "aqlx: statement 1, byte 60: no group 2\n",
    ),
    (
        r#"create view A as select D.text from Document D limit -1;"#,
        "aqlx: statement 1, byte 53: range -1 to -1\n",
    ),
    (
        r#"create view A as select D.text as t from Document D where Follows(D.text, D.text, 3, 2) order by u;"#,
        "aqlx: statement 1, byte 82: range 3 to 2\n",
    ),
    (
        r#"create view B as select A.y from A; create view A as select D.text as x from Document D;"#,
        "aqlx: statement 1, byte 24: no column y\n",
    ),
];

#[test]
fn faults_of_types_have_their_place(rt: HostRuntime) -> Result<(), Fail> {
    for (program, line) in &MISTYPED {
        let setup = usual(program, NO_NUMBERS);
        comes_to(&rt, rt.alloc(), &setup, (1, b"", *line), (program, 0))?;
    }
    Ok(())
}

/// Each row: the bytes of a program that isn't read to its end, and its line.
const UNREAD: [(&[u8], &str); 6] = [
    (b"\x61\xff", "aqlx: program is not UTF-8 at byte 1\n"),
    (b"# \xc3", "aqlx: program is not UTF-8 at byte 2\n"),
    (b"create view P as #", "aqlx: no token at byte 17\n"),
    (b"; 'a", "aqlx: no token at byte 2\n"),
    (
        b"create dictionary A as ('x');\ncreate dictionary B as ('y');\ncreate dictionary C as ('z';\n",
        "aqlx: syntax: statement 3, line 3\n",
    ),
    (b"output view P; V1", "aqlx: syntax: statement 2, line 1\n"),
];

#[test]
fn faults_of_text_tokens_and_syntax_have_their_place(rt: HostRuntime) -> Result<(), Fail> {
    for (program, line) in &UNREAD {
        let setup = Setup {
            program,
            ..usual("", NO_NUMBERS)
        };
        comes_to(&rt, rt.alloc(), &setup, (1, b"", *line), (line, 0))?;
    }
    Ok(())
}

/// What a program without an output writes for a document.
const NO_VIEWS: &str = "{\"views\":{}}\n";

/// So many views of a pattern, with names of their own.
fn views(alloc: Global, count: u32) -> Result<String, Fail> {
    let mut program = String::new(alloc);
    for i in 0..count {
        let view = format!(in alloc;
            "create view P{i} as extract regex /[0-9]+/ on D.text as num from Document D;\n"
        )?;
        program.push_str(view.as_str())?;
    }
    Ok(program)
}

#[test]
fn two_thousand_statements_are_read_and_one_more_is_not(rt: HostRuntime) -> Result<(), Fail> {
    let alloc = rt.alloc();
    let rows = [
        (2000u32, 0u8, NO_VIEWS, ""),
        (2001, 1, "", "aqlx: program too large: statements 2001\n"),
    ];
    for (count, status, out, line) in &rows {
        let program = views(alloc, *count)?;
        let setup = usual(program.as_str(), NO_NUMBERS);
        let wanted = (*status, out.as_bytes(), *line);
        comes_to(
            &rt,
            alloc,
            &setup,
            wanted,
            ("statements", u64::from(*count)),
        )?;
    }
    Ok(())
}

#[test]
fn sixty_four_parentheses_are_read_and_one_more_is_not(rt: HostRuntime) -> Result<(), Fail> {
    let alloc = rt.alloc();
    let rows = [
        (63usize, 0u8, NO_VIEWS, ""),
        (64, 1, "", "aqlx: program too large: nesting 65\n"),
    ];
    for (count, status, out, line) in &rows {
        let open = repeated(alloc, "Not(", *count)?;
        let closed = repeated(alloc, ")", *count)?;
        let program = format!(in alloc;
            "create view P as select D.text from Document D where {open}Equals(1, 1{closed});"
        )?;
        let setup = usual(program.as_str(), NO_NUMBERS);
        let wanted = (*status, out.as_bytes(), *line);
        comes_to(&rt, alloc, &setup, wanted, ("calls", *count as u64))?;
    }
    Ok(())
}

#[test]
fn a_program_of_the_limit_is_read_and_a_longer_one_is_not(rt: HostRuntime) -> Result<(), Fail> {
    let alloc = rt.alloc();
    let rows = [
        (1_048_576usize, 0u8, NO_VIEWS, ""),
        (1_048_577, 1, "", "aqlx: program too large: bytes 1048577\n"),
        (1_100_000, 1, "", "aqlx: program too large: bytes 1048577\n"),
    ];
    for (count, status, out, line) in &rows {
        let spaces = repeated(alloc, " ", *count)?;
        let setup = usual(spaces.as_str(), NO_NUMBERS);
        let wanted = (*status, out.as_bytes(), *line);
        comes_to(&rt, alloc, &setup, wanted, ("spaces", *count as u64))?;
    }
    Ok(())
}
