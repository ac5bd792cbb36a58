//! Nodes that are put together, each found by its numbers.

ghost use Rattle.std.specs.Prelude.{◌≡◌, ◌∷◌, ◌++◌, [], ℕ, Some, List, length, slice_get, set, IfOk, OnOk, IsTrue};
ghost use Rattle.algebra.specs.declared.node.Node.TheVariants as variant;
ghost use Rattle.algebra.specs.Growth.{Grows, Stands};
ghost use Rattle.algebra.specs.Nodes.{IsNode};
ghost use Rattle.algebra.specs.Shapes.{shapes_of};
ghost use Rattle.share_plan.specs.Indexes.{IsIndex, IsInserted};
ghost use Rattle.share_plan.specs.Kinds as spec;
ghost use Rattle.share_plan.specs.Putting.{Keeps, Extends, IsFoundOrPut, IsPartAt, IsDictOf, IsFound, HasSource, MayPut, IsPut};
ghost use Rattle.share_plan.specs.declared.kind.Kind.TheVariants as kinds;

use crate::kind::{Kind, kind_of};
use crate::words::{words_of, words_of_dict, words_of_part};
use algebra::Node;
use indexmap::IndexSet;
use span_token::{OutOfMemory, OwnedList};
use std::alloc::Global;

/// Nodes that are put together, with their numbers in the same order, and the `Dict` nodes of the old plan,
/// which wait for their parts.
#[derive(Drop)]
pub(crate) struct Shared {
    pub(crate) nodes: Vec<Node>,
    pub(crate) index: IndexSet<Vec<i128>>,
    pub(crate) sources: Vec<Node>,
}

impl Shared {
    /// No node. It takes no memory.
    pub(crate) fn new(alloc: Global) -> Shared
        ensures nodes { result.nodes.items ≡ [] }
        ensures sources { result.sources.items ≡ [] }
        ensures index { IsIndex result.nodes.items result.index.keys }
    {
        Shared {
            nodes: Vec::new(alloc),
            index: IndexSet::new(alloc),
            sources: Vec::new(alloc),
        }
    }

    /// Puts a node, and gives the number of a node that stands for it; of a `Dict` node its number among the
    /// sources. More than `u32` can count are want of memory.
    pub(crate) fn put(&mut self, alloc: Global, node: Node) -> Result<u32, OutOfMemory>
        requires index { IsIndex self.old.nodes.items self.old.index.keys }
        requires may { MayPut self.old.sources.items self.old.nodes.items (spec.kind_of node) node }
        ensures put { IfOk result (λ n. IsPut self.old.sources.items self.old.nodes.items self.new.sources.items self.new.nodes.items n (spec.kind_of node) node) }
        ensures index { OnOk result (IsIndex self.new.nodes.items self.new.index.keys) }
    {
        match kind_of(&node) {
            Kind::Source => self.keep_source(node),
            Kind::Part { input, number } => self.put_part(alloc, input, number),
            Kind::Plain => self.put_plain(alloc, node),
        }
    }

    /// Puts a `Dict` node behind the sources, and gives its number there.
    fn keep_source(&mut self, node: Node) -> Result<u32, OutOfMemory>
        ensures number { IfOk result (λ n. n ≡ length self.old.sources.items) }
        ensures sources { OnOk result (self.new.sources.items ≡ self.old.sources.items ++ node ∷ []) }
        ensures nodes { self.new.nodes ≡ self.old.nodes }
        ensures index { self.new.index ≡ self.old.index }
    {
        let Ok(number) = u32::try_from(self.sources.len()) else {
            return Err(OutOfMemory);
        };
        self.sources.push(node)?;
        Ok(number)
    }

    /// The number of a node that is equal to this one: one that is there, or one that is put behind the
    /// others.
    fn put_plain(&mut self, alloc: Global, node: Node) -> Result<u32, OutOfMemory>
        requires index { IsIndex self.old.nodes.items self.old.index.keys }
        requires plain { spec.kind_of node ≡ kinds.Plain }
        requires valid { IsNode (shapes_of self.old.nodes.items) node }
        ensures stands { IfOk result (λ n. Stands self.old.nodes.items self.new.nodes.items n node) }
        ensures found_or_put { IfOk result (λ n. IsFoundOrPut self.old.nodes.items self.new.nodes.items n node) }
        ensures index { OnOk result (IsIndex self.new.nodes.items self.new.index.keys) }
        ensures sources { self.new.sources ≡ self.old.sources }
    {
        let key = words_of(alloc, &node)?;
        let (number, is_new) = put_key(&mut self.index, key)?;
        if !is_new {
            return Ok(number);
        }
        self.nodes.push(node)?;
        Ok(number)
    }

    /// Puts the part of a dictionary of a source, by its number there: a `DictPart` of the `Dict` node of its column.
    fn put_part(&mut self, alloc: Global, source: u32, dict_number: u32) -> Result<u32, OutOfMemory>
        requires index { IsIndex self.old.nodes.items self.old.index.keys }
        requires may { (has : HasSource self.old.sources.items source dict_number) × IsNode (shapes_of self.old.nodes.items) (variant.Dict has.input has.column []) }
        ensures keeps { OnOk result (Keeps self.old.nodes.items self.new.nodes.items) }
        ensures extends { OnOk result (Extends self.old.nodes.items self.new.nodes.items) }
        ensures part { IfOk result (λ n. IsPartAt self.new.nodes.items n) }
        ensures found { IfOk result (λ n. (input column d : ℕ) (dicts : List ℕ) → slice_get self.old.sources.items source ≡ Some (variant.Dict input column dicts)
            → slice_get dicts dict_number ≡ Some d → IsFound self.old.nodes.items self.new.nodes.items n input column d) }
        ensures index { OnOk result (IsIndex self.new.nodes.items self.new.index.keys) }
        ensures sources { self.new.sources ≡ self.old.sources }
    {
        let (input, column, dict) = sought_at(self.sources.as_slice(), source, dict_number);
        let searching = self.put_dict(alloc, input, column)?;
        let number = self.put_dictionary(alloc, searching, dict)?;
        Ok(number)
    }

    /// The number of the `Dict` node of a column: the one that is there, or one without a dictionary that is
    /// put behind the others.
    fn put_dict(&mut self, alloc: Global, input: u32, column: u32) -> Result<u32, OutOfMemory>
        requires index { IsIndex self.old.nodes.items self.old.index.keys }
        requires valid { IsNode (shapes_of self.old.nodes.items) (variant.Dict input column []) }
        ensures there { IfOk result (λ m. IsDictOf self.new.nodes.items m input column) }
        ensures grows { OnOk result (Grows self.old.nodes.items self.new.nodes.items) }
        ensures extends { OnOk result (Extends self.old.nodes.items self.new.nodes.items) }
        ensures index { OnOk result (IsIndex self.new.nodes.items self.new.index.keys) }
        ensures sources { self.new.sources ≡ self.old.sources }
    {
        let key = words_of_dict(alloc, input, column)?;
        let (number, is_new) = put_key(&mut self.index, key)?;
        if !is_new {
            return Ok(number);
        }
        let dicts = OwnedList::new(alloc);
        self.nodes.push(Node::Dict {
            input,
            column,
            dicts,
        })?;
        Ok(number)
    }

    /// The number of the part of a dictionary of a `Dict` node: the one that is there, or one that is put
    /// behind the others, the dictionary behind the node's others.
    fn put_dictionary(&mut self, alloc: Global, input: u32, dict: u32) -> Result<u32, OutOfMemory>
        requires index { IsIndex self.old.nodes.items self.old.index.keys }
        requires there { (source column : ℕ) × IsDictOf self.old.nodes.items input source column }
        ensures found { IfOk result (λ n. (source column : ℕ) → IsDictOf self.old.nodes.items input source column
            → IsFound self.old.nodes.items self.new.nodes.items n source column dict) }
        ensures keeps { OnOk result (Keeps self.old.nodes.items self.new.nodes.items) }
        ensures extends { OnOk result (Extends self.old.nodes.items self.new.nodes.items) }
        ensures part { IfOk result (λ n. IsPartAt self.new.nodes.items n) }
        ensures index { OnOk result (IsIndex self.new.nodes.items self.new.index.keys) }
        ensures sources { self.new.sources ≡ self.old.sources }
    {
        let key = words_of_part(alloc, input, dict)?;
        let (number, is_new) = put_key(&mut self.index, key)?;
        if !is_new {
            return Ok(number);
        }
        let part_number = push_dictionary(&mut self.nodes, input, dict)?;
        self.nodes.push(Node::DictPart {
            input,
            number: part_number,
        })?;
        Ok(number)
    }
}

/// The number of a key among the others, and whether it is new: then it goes last.
fn put_key(index: &mut IndexSet<Vec<i128>>, key: Vec<i128>) -> Result<(u32, bool), OutOfMemory>
    ensures { IfOk result (λ put. IsInserted index.old.keys index.new.keys key put.0 put.1) }
{
    let (key_number, is_new) = index.insert_full(key)?;
    let Ok(number) = u32::try_from(key_number) else {
        return Err(OutOfMemory);
    };
    Ok((number, is_new))
}

/// The input, the column and a dictionary of a source, by its number there.
fn sought_at(sources: &[Node], source: u32, dict_number: u32) -> (u32, u32, u32)
    requires { HasSource sources.now source dict_number }
    ensures { (input column : ℕ) (dicts : List ℕ) → slice_get sources.now source ≡ Some (variant.Dict input column dicts)
        → (result.0 ≡ input) × (result.1 ≡ column) × (slice_get dicts dict_number ≡ Some result.2) }
{
    match &sources[source as usize] {
        Node::Dict {
            input,
            column,
            dicts,
        } => (*input, *column, dicts.as_slice()[dict_number as usize]),
        _ => unreachable!(),
    }
}

/// Puts a dictionary behind those of a `Dict` node, and gives its number among them, from 0.
fn push_dictionary(nodes: &mut Vec<Node>, n: u32, dict: u32) -> Result<u32, OutOfMemory>
    requires { (input column : ℕ) × IsDictOf nodes.old.items n input column }
    ensures { IfOk result (λ number. (input column : ℕ) (dicts : List ℕ) → slice_get nodes.old.items n ≡ Some (variant.Dict input column dicts)
        → (number ≡ length dicts) × (nodes.new.items ≡ set nodes.old.items n (variant.Dict input column (dicts ++ dict ∷ [])))) }
{
    match &mut nodes[n as usize] {
        Node::Dict { dicts, .. } => {
            let Ok(number) = u32::try_from(dicts.len()) else {
                return Err(OutOfMemory);
            };
            dicts.push(dict)?;
            Ok(number)
        }
        _ => unreachable!(),
    }
}
