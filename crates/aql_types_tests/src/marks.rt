//! Programs in which a mark shows where their fault stands.

use crate::programs::{fault, told};
use span_token::OutOfMemory;
use std::alloc::Global;
use std::process::Abort;
use std::test::Fail;

/// What stands before each query: a dictionary, and a view with a column of each kind.
const BEFORE: &str =
    "create dictionary D as ('x'); create view V as select d.text as s, GetText(d.text) as t, 1 as i, Equals(1, 1) as b from Document d; create view A as ";

/// The program of a query, which is that of a third statement.
pub(crate) fn program_of(alloc: Global, query: &str) -> Result<String, OutOfMemory> {
    Ok(format!(in alloc; "{BEFORE}{query};")?)
}

/// Asks of each query of a table for its fault.
pub(crate) fn has_faults(
    rt: &impl Abort,
    alloc: Global,
    queries: &[(&str, &str)],
) -> Result<(), Fail> {
    for (query, rule) in queries {
        let marked = program_of(alloc, query)?;
        has_fault(rt, alloc, marked.as_str(), rule)?;
    }
    Ok(())
}

/// Asks for the fault of a program: the statement and the byte before which `^` stands, and the rule.
pub(crate) fn has_fault(
    rt: &impl Abort,
    alloc: Global,
    marked: &str,
    rule: &str,
) -> Result<(), Fail> {
    let Some((before, after)) = marked.split_once('^') else {
        return Err(Fail::from("a program of the table has a mark"));
    };
    let statement = before.split(';').count();
    let want = told(alloc, statement, before.len(), rule)?;
    let text = format!(in alloc; "{before}{after}")?;
    let got = fault(alloc, text.as_str())?;
    assert_eq!(rt; got.as_str(), want.as_str(), "of {marked}");
    Ok(())
}
