//! Who reads the rows of each node of a plan.

ghost use Rattle.std.specs.Prelude.{◌≡◌, ℕ, ◌+◌, ◌<◌, ◌≤◌, ◌^◌, IfOk, All, List, length, map, vec_len};
ghost use Rattle.algebra.specs.Inputs.{IsAmong};
ghost use Rattle.plan_operators.specs.Readers.{AreCountedFrom, number_of_readers, reads_by, reads_through};

use algebra::{Nodes, PlanOut};
use span_token::OutOfMemory;
use std::alloc::Global;

/// For each node, by its number, how many readers it has: each node that has readers itself counts once for each of
/// its inputs that is the node, and all outputs that show the node count once together. A node without readers has 0.
pub(crate) fn count_readers(
    alloc: Global,
    nodes: &Nodes,
    outputs: &[PlanOut],
) -> Result<Vec<u64>, OutOfMemory>
    requires there { All (λ out. out.node < length nodes.now) outputs.now }
    ensures long { IfOk result (λ readers. vec_len readers ≡ length nodes.now) }
    ensures counted { IfOk result (λ readers. AreCountedFrom 0 nodes.now (map (λ out. out.node) outputs.now) readers.items) }
{
    let mut readers = none_of(alloc, nodes.len())?;
    count_shown(outputs, &mut readers);
    count_from_last(nodes, &mut readers);
    Ok(readers)
}

/// So many nodes that nobody reads.
fn none_of(alloc: Global, number: u32) -> Result<Vec<u64>, OutOfMemory>
    ensures long { IfOk result (λ readers. vec_len readers ≡ number) }
    ensures none { IfOk result (λ readers. (n : ℕ) → number_of_readers readers.items n ≡ 0) }
{
    let mut readers = Vec::with_capacity(alloc, number as usize)?;
    for _n in 0..number {
        readers.push(0)?;
    }
    Ok(readers)
}

/// Counts one reader of each node that outputs show.
fn count_shown(outputs: &[PlanOut], readers: &mut Vec<u64>)
    requires there { All (λ out. out.node < vec_len readers.old) outputs.now }
    requires none { (n : ℕ) → number_of_readers readers.old.items n ≡ 0 }
    ensures long { vec_len readers.new ≡ vec_len readers.old }
    ensures shown { All (λ out. number_of_readers readers.new.items out.node ≡ 1) outputs.now }
    ensures few { (n : ℕ) → number_of_readers readers.new.items n ≤ 1 }
{
    for out in outputs {
        readers[out.node as usize] = 1;
    }
}

/// Counts what the nodes read that somebody reads, from the last node on.
fn count_from_last(nodes: &Nodes, readers: &mut Vec<u64>)
    requires long { vec_len readers.old ≡ length nodes.now }
    requires few { (n : ℕ) → number_of_readers readers.old.items n ≤ 1 }
    ensures long { vec_len readers.new ≡ vec_len readers.old }
    ensures counted { (outs : List ℕ) → AreCountedFrom (length nodes.now) nodes.now outs readers.old.items → AreCountedFrom 0 nodes.now outs readers.new.items }
{
    let mut rest = nodes.len();
    'nodes: while rest > 0 {
        rest -= 1;
        if readers[rest as usize] > 0 {
            count_inputs(nodes, rest, readers);
        }
    }
}

/// Counts what node `n` reads.
fn count_inputs(nodes: &Nodes, n: u32, readers: &mut Vec<u64>)
    requires there { n < length nodes.now }
    requires long { vec_len readers.old ≡ length nodes.now }
    requires few { (k : ℕ) → number_of_readers readers.old.items k < 2 ^ 36 }
    ensures long { vec_len readers.new ≡ vec_len readers.old }
    ensures more { (k : ℕ) → number_of_readers readers.new.items k ≡ number_of_readers readers.old.items k + reads_by nodes.now n k }
    ensures most { (k : ℕ) → reads_by nodes.now n k ≤ 2 }
    ensures below { (k : ℕ) → n ≤ k → reads_by nodes.now n k ≡ 0 }
{
    let node = nodes.get(n);
    let (left, right) = node.inputs();
    count(left, readers);
    count(right, readers);
}

/// Counts one reader more of an input, where there is one.
fn count(input: Option<u32>, readers: &mut Vec<u64>)
    requires there { IsAmong (vec_len readers.old) input }
    requires few { (k : ℕ) → number_of_readers readers.old.items k < 2 ^ 40 }
    ensures long { vec_len readers.new ≡ vec_len readers.old }
    ensures more { (k : ℕ) → number_of_readers readers.new.items k ≡ number_of_readers readers.old.items k + reads_through input k }
{
    if let Some(i) = input {
        readers[i as usize] += 1;
    }
}
