//! Programs whose plans have many nodes.

use span_token::OutOfMemory;
use std::alloc::Global;

/// The nodes of a lowered plan that two views make, one of each chain: on each side a `Select` and a `Regex`,
/// a `Project` on both, and a `Union`.
const NODES_OF_A_LINK: u32 = 10;

/// A program whose lowered plan has about so many nodes: two equal chains of views, each of which has the rows
/// of the one before it that are long enough, and the numbers in all of its rows. Within a chain no two nodes
/// are equal.
pub(crate) fn chained(alloc: Global, nodes: u32) -> Result<String, OutOfMemory> {
    let links = nodes / NODES_OF_A_LINK;
    let mut text = String::new(alloc);
    for chain in ["A", "B"] {
        let first = format!(in alloc;
            "create view {chain}0 as extract regex /[0-9]+/ on D.text as n from Document D;\n"
        )?;
        text.push_str(first.as_str())?;
        for i in 0..links {
            text.push_str(link(alloc, chain, i)?.as_str())?;
        }
        let last = format!(in alloc; "output view {chain}{links};\n")?;
        text.push_str(last.as_str())?;
    }
    Ok(text)
}

/// The view behind view `i` of a chain, which stands on it.
fn link(alloc: Global, chain: &str, i: u32) -> Result<String, OutOfMemory> {
    let next = u64::from(i) + 1;
    Ok(format!(in alloc;
        "create view {chain}{next} as (select N.n as n from {chain}{i} N where GreaterThan(GetLength(N.n), {i}))
  union all (extract regex /[0-9]+/ on N.n as n from {chain}{i} N);\n"
    )?)
}
