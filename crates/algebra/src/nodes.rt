ghost use Rattle.std.specs.Prelude.{◌≡◌, ◌<◌, ◌+◌, ◌++◌, ◌∷◌, [], length, slice_index_or, IfOk, OnOk, OnErr};
ghost use Rattle.algebra.specs.Folds.{had};
ghost use Rattle.algebra.specs.Growth.{Stands, IsAt};
ghost use Rattle.algebra.specs.Nodes.{IsNode, IsPlan};
ghost use Rattle.algebra.specs.Shapes.{shape_by, shapes_of, no_shape};

use crate::shape::shape_after;
use crate::{Node, Shape};
use span_token::OutOfMemory;
use std::alloc::Global;
use std::marker::Model;

/// The nodes of a plan, fewer than 2^32: each reads nodes before it, of shapes that it may read.
///
/// Contracts see the list of nodes.
#[derive(Debug, Drop)]
pub struct Nodes {
    nodes: Vec<Node>,
    shapes: Vec<Shape>,
}

impl Model for Nodes {
    ghost use Rattle.std.specs.Prelude.{◌≡◌, ◌<◌, ◌^◌, List, vec_len};
    ghost use Rattle.std.specs.Coded.{codes};
    ghost use Rattle.scalar_ops.specs.Codes.{term_code};
    ghost use Rattle.algebra.specs.declared.node.Node.{Node};
    ghost use Rattle.algebra.specs.Nodes.{IsPlan};
    ghost use Rattle.algebra.specs.Shapes.{shapes_of};

    ghost Value = { List Node };

    ghost coded = { Prim.hlevel (codes, term_code) };

    ghost view = { λ list. list.nodes.items };

    ghost invariant = { λ list. (vec_len list.nodes < 2 ^ 32) × (list.shapes.items ≡ shapes_of list.nodes.items) × IsPlan list.nodes.items };
}

impl Nodes {
    /// No node. It takes no memory.
    pub fn new(alloc: Global) -> Nodes
        ensures { result ≡ [] }
    {
        Nodes {
            nodes: Vec::new(alloc),
            shapes: Vec::new(alloc),
        }
    }

    /// The number of nodes.
    pub fn len(&self) -> u32
        ensures { result ≡ length self.now }
    {
        self.nodes.len() as u32
    }

    /// What the rows of node `n`, from 0, are.
    #[tactic(auto, using(crate::proofs::Placing::shape_there))]
    pub fn shape(&self, n: u32) -> Shape
        requires in_range { n < length self.now }
        ensures { result ≡ slice_index_or (shapes_of self.now) n no_shape }
    {
        self.shapes.as_slice()[n as usize]
    }

    /// Node `n`, from 0.
    #[tactic(auto, using(crate::proofs::Placing::node_at))]
    pub fn get(&self, n: u32) -> &Node
        requires in_range { n < length self.now }
        ensures node { result.now ≡ slice_index_or self.now n result.now }
        ensures at { IsAt self.now n result.now }
    {
        &self.nodes.as_slice()[n as usize]
    }

    /// The nodes, borrowed.
    pub fn as_slice(&self) -> &[Node]
        ensures nodes { result.now ≡ self.now }
        ensures plan { IsPlan self.now }
    {
        self.nodes.as_slice()
    }

    /// The nodes, handed over.
    pub fn into_vec(self) -> Vec<Node>
        ensures nodes { result.items ≡ self }
        ensures plan { IsPlan self }
    {
        self.nodes
    }

    /// Puts `node` after the others, and gives its number. After want of memory, which is also what a node
    /// or a column is that `u32` can't count, the nodes are as they were.
    pub fn add(&mut self, node: Node) -> Result<u32, OutOfMemory>
        requires valid { IsNode (shapes_of self.old) node }
        ensures ok { IfOk result (λ n. (n ≡ length self.old) × (self.new ≡ self.old ++ node ∷ [])) }
        ensures stands { IfOk result (λ n. Stands self.old self.new n node) }
        ensures err { OnErr result (self.new ≡ self.old) }
    {
        if self.nodes.len() >= u32::MAX as usize {
            return Err(OutOfMemory);
        }
        let n = self.nodes.len() as u32;
        let shape = shape_after(self.shapes.as_slice(), &node)?;
        push_both(&mut self.nodes, &mut self.shapes, node, shape)?;
        Ok(n)
    }
}

/// Puts a node and its shape after the others. After want of memory neither is there.
fn push_both(
    nodes: &mut Vec<Node>,
    shapes: &mut Vec<Shape>,
    node: Node,
    shape: Shape,
) -> Result<(), OutOfMemory>
    ensures nodes { OnOk result (nodes.new.items ≡ nodes.old.items ++ node ∷ []) }
    ensures shapes { OnOk result (shapes.new.items ≡ shapes.old.items ++ shape ∷ []) }
    ensures same_nodes { OnErr result (nodes.new.items ≡ nodes.old.items) }
    ensures same_shapes { OnErr result (shapes.new.items ≡ shapes.old.items) }
{
    shapes.push(shape)?;
    if nodes.push(node).is_err() {
        shapes.pop();
        return Err(OutOfMemory);
    }
    Ok(())
}
