//! Who reads the nodes of a plan.

ghost use Rattle.std.specs.Prelude.{◌≡◌, ◌<◌, ◌+◌, ◌↔◌, ◌⊎◌, false, true, ℕ, List, Contains, IsTrue, length, map, vec_len, slice_index_or, All, IfOk, OnOk};
ghost use Rattle.algebra.specs.declared.node.Node.{Node};
ghost use Rattle.algebra.specs.Inputs.{IsAmong};
ghost use Rattle.restrict_eval.specs.Readers.{is_shown, readers_in, noted, AreShown, AreReaders, IsOnly};
ghost use Rattle.restrict_eval.specs.Restricting.{IsLive};

use algebra::{Nodes, PlanOut};
use span_token::{OutOfMemory, OwnedList};
use std::alloc::Global;

/// Which nodes outputs show, and for each node the live nodes that read it.
#[derive(Debug, Drop)]
pub(crate) struct Readers {
    shown: Vec<bool>,
    lists: Vec<OwnedList<u32>>,
}

/// The readers of all nodes of a plan.
pub(crate) fn readers_of(
    alloc: Global,
    nodes: &Nodes,
    outputs: &[PlanOut],
) -> Result<Readers, OutOfMemory>
    requires there { All (λ out. out.node < length nodes.now) outputs.now }
    ensures { IfOk result (λ readers. AreReaders nodes.now (map (λ out. out.node) outputs.now) 0 readers.shown.items readers.lists.items) }
{
    let shown = shown_of(alloc, nodes.len(), outputs)?;
    let mut lists = none_of(alloc, nodes.len())?;
    let mut rest = nodes.len();
    'nodes: while rest > 0 {
        rest -= 1;
        note_inputs(nodes, rest, shown.as_slice(), &mut lists)?;
    }
    Ok(Readers { shown, lists })
}

/// For each of so many nodes whether an output shows it.
fn shown_of(alloc: Global, number: u32, outputs: &[PlanOut]) -> Result<Vec<bool>, OutOfMemory>
    requires there { All (λ out. out.node < number) outputs.now }
    ensures long { IfOk result (λ shown. vec_len shown ≡ number) }
    ensures shown { IfOk result (λ shown. AreShown (map (λ out. out.node) outputs.now) shown.items) }
{
    let mut shown = Vec::new(alloc);
    for _n in 0..number {
        shown.push(false)?;
    }
    mark_shown(outputs, &mut shown);
    Ok(shown)
}

/// Marks the nodes that outputs show.
fn mark_shown(outputs: &[PlanOut], shown: &mut Vec<bool>)
    requires there { All (λ out. out.node < vec_len shown.old) outputs.now }
    requires none { (n : ℕ) → is_shown shown.old.items n ≡ false }
    ensures long { vec_len shown.new ≡ vec_len shown.old }
    ensures shown { AreShown (map (λ out. out.node) outputs.now) shown.new.items }
{
    for out in outputs {
        shown[out.node as usize] = true;
    }
}

/// So many nodes that nobody reads.
fn none_of(alloc: Global, number: u32) -> Result<Vec<OwnedList<u32>>, OutOfMemory>
    ensures long { IfOk result (λ lists. vec_len lists ≡ number) }
    ensures none { IfOk result (λ lists. (n k : ℕ) → Contains (readers_in lists.items n) k → ⊥) }
{
    let mut lists = Vec::new(alloc);
    for _n in 0..number {
        lists.push(OwnedList::new(alloc))?;
    }
    Ok(lists)
}

/// Notes node `n` as a reader of its inputs, where it is live.
fn note_inputs(
    nodes: &Nodes,
    n: u32,
    shown: &[bool],
    lists: &mut Vec<OwnedList<u32>>,
) -> Result<(), OutOfMemory>
    requires there { n < length nodes.now }
    requires shown_long { length shown.now ≡ length nodes.now }
    requires lists_long { vec_len lists.old ≡ length nodes.now }
    ensures long { OnOk result (vec_len lists.new ≡ vec_len lists.old) }
    ensures noted { OnOk result ((outputs : List ℕ) → AreReaders nodes.now outputs (n + 1) shown.now lists.old.items → AreReaders nodes.now outputs n shown.now lists.new.items) }
{
    let (left, right) = nodes.get(n).inputs();
    if is_live(n, shown, lists.as_slice()) {
        note(left, n, lists)?;
        note(right, n, lists)?;
    }
    Ok(())
}

/// Whether an output shows node `n`, or a node reads it that is noted.
fn is_live(n: u32, shown: &[bool], lists: &[OwnedList<u32>]) -> bool
    requires in_shown { n < length shown.now }
    requires in_lists { n < length lists.now }
    ensures { IsTrue result ↔ ((is_shown shown.now n ≡ true) ⊎ ((k : ℕ) × Contains (readers_in lists.now n) k)) }
{
    shown[n as usize] || !lists[n as usize].as_slice().is_empty()
}

/// Notes a reader of a node, where there is one to read.
fn note(input: Option<u32>, reader: u32, lists: &mut Vec<OwnedList<u32>>) -> Result<(), OutOfMemory>
    requires there { IsAmong (vec_len lists.old) input }
    ensures long { OnOk result (vec_len lists.new ≡ vec_len lists.old) }
    ensures noted { OnOk result (lists.new.items ≡ noted input reader lists.old.items) }
{
    if let Some(i) = input {
        lists[i as usize].push(reader)?;
    }
    Ok(())
}

impl Readers {
    /// Whether node `n` is live.
    pub(crate) fn is_live(&self, n: u32) -> bool
        requires { (nodes : List Node) × (outputs : List ℕ) × AreReaders nodes outputs 0 self.now.shown.items self.now.lists.items × (n < length nodes) }
        ensures { (nodes : List Node) (outputs : List ℕ) → AreReaders nodes outputs 0 self.now.shown.items self.now.lists.items → IsTrue result ↔ IsLive nodes outputs n }
    {
        is_live(n, self.shown.as_slice(), self.lists.as_slice())
    }

    /// Whether no output shows node `n`, and no live node but these two reads it.
    pub(crate) fn is_only(&self, n: u32, a: u32, b: u32) -> bool
        requires { (nodes : List Node) × (outputs : List ℕ) × AreReaders nodes outputs 0 self.now.shown.items self.now.lists.items × (n < length nodes) }
        ensures { (nodes : List Node) (outputs : List ℕ) → AreReaders nodes outputs 0 self.now.shown.items self.now.lists.items → IsTrue result ↔ IsOnly nodes outputs n a b }
    {
        !self.shown.as_slice()[n as usize]
            && are_these(self.lists.as_slice()[n as usize].as_slice(), a, b)
    }
}

/// Whether all of these are one of the two.
fn are_these(readers: &[u32], a: u32, b: u32) -> bool
    ensures { IsTrue result ↔ All (λ k. (k ≡ a) ⊎ (k ≡ b)) readers.now }
{
    for k in readers {
        if *k != a && *k != b {
            return false;
        }
    }
    true
}
