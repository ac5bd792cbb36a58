//! Restricted joins whose outer rows stand far from each other, so that no stretch of tokens that is searched reaches
//! the next one.

use crate::evaluation::{NEAR, evaluated_on, put_words};
use crate::setup::{GREAT, tables_of};
use crate::standing::{put, showing};
use algebra::{Node, Nodes, Plan};
use span_token::Document;
use std::alloc::Global;
use std::test::Fail;

/// Ann 0-3; Then 72-76 and Bo 77-79; Cy 171-173, the last token.
const FAR: &str =
    "Ann met one two three four five six seven eight nine ten eleven twelve. Then Bo left, days ago days, one two three four five six seven eight nine ten eleven; days ago met Cy";

/// The restricted joins of great words, nodes 3 to 12.
fn far_joins(alloc: Global, shown: &[u32]) -> Result<Plan, Fail> {
    let mut nodes = Nodes::new(alloc);
    put_words(alloc, &mut nodes, GREAT)?;
    for (kind, local) in &NEAR {
        let node = Node::Restricted {
            outer: 2,
            source: 0,
            kind: *kind,
            lc: 0,
            local: *local,
        };
        put(&mut nodes, node)?;
    }
    showing(alloc, nodes, tables_of(alloc)?, shown)
}

#[test]
fn restricted_joins_look_at_each_outer_row(rt: HostRuntime) -> Result<(), Fail> {
    let alloc = rt.alloc();
    let shown = [3, 4, 5, 6, 7, 8, 9, 10, 11, 12];
    let plan = far_joins(alloc, &shown)?;
    let doc = Document::new(alloc, FAR, None)?;
    let got = evaluated_on(alloc, &plan, &doc, &shown)?;
    assert_eq!(rt;
        got.as_str(),
        "3 3:[0-3 0-173 4-7][0-3 0-173 8-11][72-76 0-173 80-84][77-79 0-173 80-84]
4 3:[0-3 0-173 4-11][0-3 0-173 8-15][72-76 0-173 80-84][77-79 0-173 80-84]
5 3:[0-3 0-173 12-15][0-3 0-173 16-21][72-76 0-173 86-90][77-79 0-173 86-90][77-79 0-173 91-94]
6 3:
7 3:
8 3:[171-173 0-173 167-170]
9 3:[171-173 0-173 158-166]
10 3:
11 3:[0-3 0-173 0-3][77-79 0-173 77-79]
12 3:
"
    );
    Ok(())
}
