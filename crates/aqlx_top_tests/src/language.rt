//! What programs of the whole language write: worked rows, each compared byte for byte.
use crate::setup::{
    IN_A_WINDOW, PERSONS, PERSONS_DOCUMENT, PERSONS_LINE, are_written, is_written, padded,
};
use std::test::Fail;

/// Each row: a program, a document, and the line that is written for it.
const LANGUAGE: [(&str, &str, &str); 24] = [
    // an empty pattern row
    (
        r#"create view P as extract regex /x*/ on D.text as num from Document D; output view P;"#,
        r#"{"text":""}"#,
        r#"{"views":{"P":[{"num":{"begin":0,"end":0,"text":""}}]}}"#,
    ),
    // beyond ASCII
    (
        r#"create view P as extract regex /[0-9]+/ on D.text as num from Document D; output view P;"#,
        r#"{"text":"é 7"}"#,
        r#"{"views":{"P":[{"num":{"begin":2,"end":3,"text":"7"}}]}}"#,
    ),
    // dictionary, each span once
    (
        r#"create dictionary City as ('new york','NEW YORK'); create view C as extract dictionary 'City' on D.text as c from Document D; output view C;"#,
        r#"{"text":"New  York"}"#,
        r#"{"views":{"C":[{"c":{"begin":0,"end":9,"text":"New  York"}}]}}"#,
    ),
    // token runs, the longest
    (
        r#"create view T as extract regex /\w+( \w+)?/ on between 1 and 2 tokens in D.text as t from Document D; output view T;"#,
        r#"{"text":"a b c"}"#,
        r#"{"views":{"T":[{"t":{"begin":0,"end":3,"text":"a b"}},{"t":{"begin":2,"end":5,"text":"b c"}},{"t":{"begin":4,"end":5,"text":"c"}}]}}"#,
    ),
    // union all keeps both
    (
        r#"create view P as extract regex /[0-9]+/ on D.text as num from Document D; create view Q as (select P.num from P) union all (select P.num from P); output view Q;"#,
        r#"{"text":"x 12"}"#,
        r#"{"views":{"Q":[{"num":{"begin":2,"end":4,"text":"12"}},{"num":{"begin":2,"end":4,"text":"12"}}]}}"#,
    ),
    // minus takes all copies
    (
        r#"create view P as extract regex /[0-9]+/ on D.text as num from Document D; create view Q as (select P.num from P) union all (select P.num from P); create view M as (select Q.num from Q) minus (select P.num from P); output view M;"#,
        r#"{"text":"x 12"}"#,
        r#"{"views":{"M":[]}}"#,
    ),
    // follows
    (
        r#"create view A as extract regex /a/ on D.text as x from Document D; create view B as extract regex /b/ on D.text as y from Document D; create view F as select CombineSpans(A.x, B.y) as ab from A, B where Follows(A.x, B.y, 0, 0); output view F;"#,
        r#"{"text":"ab a b"}"#,
        r#"{"views":{"F":[{"ab":{"begin":0,"end":2,"text":"ab"}}]}}"#,
    ),
    // follows, successive matches
    (
        r#"create view A as extract regex /^a/ on D.text as x from Document D; create view B as extract regex /aa/ on D.text as y from Document D; create view F as select CombineSpans(A.x, B.y) as ab from A, B where Follows(A.x, B.y, 0, 0); output view F;"#,
        r#"{"text":"aaaa"}"#,
        r#"{"views":{"F":[]}}"#,
    ),
    // output before its view
    (
        r#"output view P; create view P as extract regex /[0-9]+/ on D.text as num from Document D; "#,
        r#"{"label":"a","text":"x 12 345"}"#,
        r#"{"label":"a","views":{"P":[{"num":{"begin":2,"end":4,"text":"12"}},{"num":{"begin":5,"end":8,"text":"345"}}]}}"#,
    ),
    // persons and phones
    (PERSONS, PERSONS_DOCUMENT, PERSONS_LINE),
    // a total beyond the range
    (
        r#"create view P as extract regex /[0-9]+/ on D.text as num from Document D; create view S as select Sum(9223372036854775807) as total from P; output view S;"#,
        r#"{"text":"1 2"}"#,
        r#"{"views":{"S":[{"total":9223372036854775807}]}}"#,
    ),
    // a source without rows
    (
        r#"create view P as extract regex /[0-9]+/ on D.text as num from Document D; create view E as extract regex /z/ on D.text as z from Document D; create view J as select P.num from E, P where Follows(E.z, P.num, 0, 9); output view J; output view P;"#,
        r#"{"text":"x 12"}"#,
        r#"{"views":{"J":[],"P":[{"num":{"begin":2,"end":4,"text":"12"}}]}}"#,
    ),
    // groups
    (
        r#"create view P as extract regex /[0-9]+/ on D.text as num from Document D; create view G as select GetText(P.num) as t, Count(*) as n from P group by GetText(P.num); output view G;"#,
        r#"{"text":"7 8 7"}"#,
        r#"{"views":{"G":[{"n":2,"t":"7"},{"n":1,"t":"8"}]}}"#,
    ),
    // blocks
    (
        r#"create view P as extract regex /[0-9]+/ on D.text as num from Document D; create view B as extract blocks with count between 2 and 3 and separation between 0 and 1 characters on P.num as run from P; output view B;"#,
        r#"{"text":"1 2 3   4"}"#,
        r#"{"views":{"B":[{"run":{"begin":0,"end":3,"text":"1 2"}},{"run":{"begin":0,"end":5,"text":"1 2 3"}},{"run":{"begin":2,"end":5,"text":"2 3"}}]}}"#,
    ),
    // a pattern on a column
    (
        r#"create view A as extract regex /[a-z0-9]+/ on D.text as w from Document D; create view B as extract regex /[0-9]+/ on A.w as n from A; output view B as 'Nums';"#,
        r#"{"text":"ab1 22"}"#,
        r#"{"views":{"Nums":[{"n":{"begin":2,"end":3,"text":"1"}},{"n":{"begin":4,"end":6,"text":"22"}}]}}"#,
    ),
    // the first by an order
    (
        r#"create view P as extract regex /[0-9]+/ on D.text as num from Document D; create view F as select P.num from P order by P.num limit 1; output view F;"#,
        r#"{"text":"7 8"}"#,
        r#"{"views":{"F":[{"num":{"begin":0,"end":1,"text":"7"}}]}}"#,
    ),
    // a condition in And
    (
        r#"create view P as extract regex /[0-9]+/ on D.text as num from Document D; create view C as select A.num as a, B.num as b from P A, P B; create view S as select C.a from C where And(Follows(C.a, C.b, 0, 9)); output view S;"#,
        r#"{"text":"1 2"}"#,
        r#"{"views":{"S":[{"a":{"begin":0,"end":1,"text":"1"}}]}}"#,
    ),
    // a group that takes no part
    (
        r#"create view P as extract regex /a(b)?/ on D.text return group 0 as m and group 1 as t from Document D; output view P;"#,
        r#"{"text":"ab a"}"#,
        r#"{"views":{"P":[{"m":{"begin":0,"end":2,"text":"ab"},"t":{"begin":1,"end":2,"text":"b"}},{"m":{"begin":3,"end":4,"text":"a"},"t":null}]}}"#,
    ),
    // the document as an output, one view as two outputs
    (
        r#"create view P as extract regex /[0-9]+/ on D.text as num from Document D; output view Document; output view P as 'x'; output view P as 'y';"#,
        r#"{"text":"a1"}"#,
        r#"{"views":{"Document":[{"text":{"begin":0,"end":2,"text":"a1"}}],"x":[{"num":{"begin":1,"end":2,"text":"1"}}],"y":[{"num":{"begin":1,"end":2,"text":"1"}}]}}"#,
    ),
    // no outputs
    (
        r#"create view P as extract regex /[0-9]+/ on D.text as num from Document D; "#,
        r#"{"text":"a1"}"#,
        r#"{"views":{}}"#,
    ),
    // policies over nested sources
    (
        r#"create view W as extract regex /\w+/ on D.text as w from Document D; create view R as select A.w as a, B.w as b from W A, (select X.w from W X where GreaterThan(GetLength(X.w), 1)) B where Overlaps(A.w, B.w) consolidate on CombineSpans(A.w, B.w) using 'LeftToRight'; output view R;"#,
        r#"{"text":"a bc def bc"}"#,
        r#"{"views":{"R":[{"a":{"begin":2,"end":4,"text":"bc"},"b":{"begin":2,"end":4,"text":"bc"}},{"a":{"begin":5,"end":8,"text":"def"},"b":{"begin":5,"end":8,"text":"def"}},{"a":{"begin":9,"end":11,"text":"bc"},"b":{"begin":9,"end":11,"text":"bc"}}]}}"#,
    ),
    // having and limit in an extraction
    (
        r#"create dictionary N as ('ann','bo lee'); create view X as extract D.text as whole, dictionary 'N' with flags 'IgnoreCase' on D.text as n from Document D having GreaterThan(GetLength(n), 3) limit 2; output view X;"#,
        r#"{"text":"Ann, Bo Lee and bo  lee; BO LEE"}"#,
        r#"{"views":{"X":[{"n":{"begin":5,"end":11,"text":"Bo Lee"},"whole":{"begin":0,"end":31,"text":"Ann, Bo Lee and bo  lee; BO LEE"}},{"n":{"begin":16,"end":23,"text":"bo  lee"},"whole":{"begin":0,"end":31,"text":"Ann, Bo Lee and bo  lee; BO LEE"}}]}}"#,
    ),
    // predicates of dictionaries and patterns
    (
        r#"create dictionary N as ('ann'); create view W as extract regex /\S+/ on D.text as w from Document D; create view X as select W.w, MatchesDict('N', W.w) as m, ContainsDict('N', 'Exact', W.w) as c, MatchesRegex(/[a-z]+/, W.w) as r, NotNull(W.w) as k from W where Not(Equals(GetText(W.w), 'x')); output view X;"#,
        r#"{"text":"Ann ann, x ann"}"#,
        r#"{"views":{"X":[{"c":false,"k":true,"m":true,"r":false,"w":{"begin":0,"end":3,"text":"Ann"}},{"c":true,"k":true,"m":false,"r":false,"w":{"begin":4,"end":8,"text":"ann,"}},{"c":true,"k":true,"m":true,"r":true,"w":{"begin":11,"end":14,"text":"ann"}}]}}"#,
    ),
    // context and null
    (
        r#"create view P as extract regex /(\d+)(x)?/ on D.text return group 1 as n and group 2 as x from Document D; create view Q as select P.n, P.x as x, LeftContextTok(P.n, 1) as l, RightContext(P.n, 3) as r, GetBegin(P.x) as b, Equals(P.x, P.x) as e from P order by x limit 9; create view C as select Count(Q.b) as c, Count(*) as n, Min(Q.l) as lo, Max(Q.r) as hi, Sum(Q.b) as s from Q; output view Q; output view C;"#,
        r#"{"text":"a 12x b 3 4x"}"#,
        r#"{"views":{"C":[{"c":2,"hi":{"begin":11,"end":12,"text":"x"},"lo":{"begin":0,"end":2,"text":"a "},"n":3,"s":15}],"Q":[{"b":4,"e":true,"l":{"begin":0,"end":2,"text":"a "},"n":{"begin":2,"end":4,"text":"12"},"r":{"begin":4,"end":7,"text":"x b"},"x":{"begin":4,"end":5,"text":"x"}},{"b":null,"e":false,"l":{"begin":6,"end":8,"text":"b "},"n":{"begin":8,"end":9,"text":"3"},"r":{"begin":9,"end":12,"text":" 4x"},"x":null},{"b":11,"e":true,"l":{"begin":8,"end":10,"text":"3 "},"n":{"begin":10,"end":11,"text":"4"},"r":{"begin":11,"end":12,"text":"x"},"x":{"begin":11,"end":12,"text":"x"}}]}}"#,
    ),
];

#[test]
fn worked_rows_of_the_language_are_written_by_each_number_of_workers(
    rt: HostRuntime,
) -> Result<(), Fail> {
    for (program, document, line) in &LANGUAGE {
        let out = format!(in rt.alloc(); "{line}\n")?;
        are_written(&rt, rt.alloc(), (program, document, out.as_str()))?;
    }
    Ok(())
}

#[test]
fn worked_rows_of_the_language_are_written_of_documents_in_a_window(
    rt: HostRuntime,
) -> Result<(), Fail> {
    for (program, document, line) in &LANGUAGE {
        let padded = padded(rt.alloc(), document)?;
        let out = format!(in rt.alloc(); "{line}\n")?;
        let row = (*program, padded.as_str(), out.as_str());
        is_written(&rt, rt.alloc(), row, &IN_A_WINDOW)?;
    }
    Ok(())
}
