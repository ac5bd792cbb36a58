//! Summaries of counted rows.
ghost use Rattle.std.specs.Prelude.{◌≡◌, IfOk, length, vec_len};

use crate::expected::{DEMO_OF_1, DEMO_OF_2, DEMO_OF_200};
use demo_corpus::Totals;
use row_values::{Output, Row, Rows, Value};
use span_token::{OutOfMemory, OwnedList, OwnedText};
use std::alloc::Global;
use std::test::Fail;

/// The names of the demonstration's outputs, in the order of its program.
const NAMES: [&str; 11] = [
    "Person",
    "PersonPhone",
    "PersonRole",
    "PersonCity",
    "PersonOrg",
    "Date",
    "Digits",
    "NumberRun",
    "LongName",
    "FirstPerson",
    "LowerName",
];

/// How many rows they have on the first document, on the second, and on all of the first 200.
const ON_THE_FIRST: [u32; 11] = [3, 1, 0, 0, 1, 1, 2, 5, 2, 1, 0];

const ON_THE_SECOND: [u32; 11] = [2, 0, 0, 1, 1, 1, 1, 1, 1, 1, 0];

const ON_200: [u32; 11] = [300, 81, 0, 75, 75, 75, 369, 532, 225, 175, 75];

/// The outputs, without columns.
fn outputs(alloc: Global) -> Result<Vec<Output>, OutOfMemory>
    ensures { IfOk result (λ outputs. vec_len outputs ≡ 11) }
{
    let mut outputs = Vec::new(alloc);
    for name in &NAMES {
        let name = OwnedText::copied(alloc, *name)?;
        outputs.push(Output::new(name, OwnedList::new(alloc))?)?;
    }
    Ok(outputs)
}

/// So many rows of each output, all equal.
fn equal_rows<'d>(alloc: Global, counts: &[u32; 11]) -> Result<Vec<Rows<'d>>, OutOfMemory>
    ensures { IfOk result (λ rows. vec_len rows ≡ 11) }
{
    let mut rows = Vec::new(alloc);
    for count in counts {
        rows.push(copies(alloc, *count)?)?;
    }
    Ok(rows)
}

fn copies<'d>(alloc: Global, count: u32) -> Result<Rows<'d>, OutOfMemory> {
    let mut rows = Rows::new(alloc, 1);
    'copies: for _ in 0..count {
        rows.push(Row::single(alloc, Value::Int(7)))?;
    }
    Ok(rows)
}

/// The lists, borrowed.
fn lent<'r, 'd>(alloc: Global, lists: &'r [Rows<'d>]) -> Result<Vec<&'r Rows<'d>>, OutOfMemory>
    ensures { IfOk result (λ lent. vec_len lent ≡ length lists.now) }
{
    let mut lent = Vec::new(alloc);
    for list in lists {
        lent.push(list)?;
    }
    Ok(lent)
}

#[test]
fn equal_rows_count_each_time(rt: HostRuntime) -> Result<(), Fail> {
    let alloc = rt.alloc();
    let outputs = outputs(alloc)?;
    let first = equal_rows(alloc, &ON_THE_FIRST)?;
    let second = equal_rows(alloc, &ON_THE_SECOND)?;
    let mut totals = Totals::new(alloc, 11)?;
    totals.add(&lent(alloc, &first)?);
    assert_eq!(rt; totals.summary(alloc, &outputs)?.as_str(), DEMO_OF_1);
    totals.add(&lent(alloc, &second)?);
    assert_eq!(rt; totals.summary(alloc, &outputs)?.as_str(), DEMO_OF_2);
    Ok(())
}

/// The totals of 200 documents, of which the first has all rows.
fn totals_of_200(alloc: Global) -> Result<Totals, OutOfMemory>
    ensures { IfOk result (λ totals. length totals.totals ≡ 11) }
{
    let all = equal_rows(alloc, &ON_200)?;
    let none = equal_rows(alloc, &[0; 11])?;
    let none = lent(alloc, &none)?;
    let mut totals = Totals::new(alloc, 11)?;
    totals.add(&lent(alloc, &all)?);
    'documents: for _i in 0u32..199 {
        totals.add(&none);
    }
    Ok(totals)
}

#[test]
fn documents_without_rows_are_counted(rt: HostRuntime) -> Result<(), Fail> {
    let alloc = rt.alloc();
    let outputs = outputs(alloc)?;
    let totals = totals_of_200(alloc)?;
    assert_eq!(rt; totals.summary(alloc, &outputs)?.as_str(), DEMO_OF_200);
    let none = Totals::new(alloc, 0)?;
    assert_eq!(rt; none.summary(alloc, &[])?.as_str(), "documents 0\n");
    Ok(())
}
