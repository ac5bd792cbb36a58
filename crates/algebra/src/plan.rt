ghost use Rattle.std.specs.Prelude.{◌≡◌};
ghost use Rattle.algebra.specs.Plans.{AreOutputs};

use crate::{Nodes, PlanOut};
use scalar_ops::Tables;
use std::marker::Model;

/// A plan: its nodes, the patterns and dictionaries that they name by their numbers, compiled once, and the
/// outputs.
///
/// Contracts see the three. Each output shows a node that has a column for each of its names, but not one
/// whose rows tell dictionaries apart, and no two outputs have one name.
///
/// Meaning: `val`, `specs/Values.antt`.
#[derive(Drop)]
pub struct Plan {
    nodes: Nodes,
    tables: Tables,
    outputs: Vec<PlanOut>,
}

impl Model for Plan {
    ghost use Rattle.std.specs.Coded.{codes};
    ghost use Rattle.scalar_ops.specs.Codes.{term_code};
    ghost use Rattle.algebra.specs.Plans.{Parts, AreOutputs};

    ghost Value = { Parts };

    ghost coded = { Prim.hlevel (codes, term_code) };

    ghost view = { λ plan. record { nodes = plan.nodes; lists = plan.tables; outputs = plan.outputs.items } };

    ghost invariant = { λ plan. AreOutputs plan.nodes plan.outputs.items };
}

impl Plan {
    /// The plan of these nodes, tables and outputs. It takes no memory.
    pub fn new(nodes: Nodes, tables: Tables, outputs: Vec<PlanOut>) -> Plan
        requires outputs { AreOutputs nodes outputs.items }
        ensures { result ≡ record { nodes = nodes; lists = tables; outputs = outputs.items } }
    {
        Plan {
            nodes,
            tables,
            outputs,
        }
    }

    /// The nodes.
    pub fn nodes(&self) -> &Nodes
        ensures { result.now ≡ self.now.nodes }
    {
        &self.nodes
    }

    /// The patterns and dictionaries that nodes name by their numbers.
    pub fn tables(&self) -> &Tables
        ensures { result.now ≡ self.now.lists }
    {
        &self.tables
    }

    /// The outputs, in their order.
    pub fn outputs(&self) -> &[PlanOut]
        ensures outputs { result.now ≡ self.now.outputs }
        ensures valid { AreOutputs self.now.nodes self.now.outputs }
    {
        self.outputs.as_slice()
    }

    /// The nodes, the tables and the outputs, handed over.
    pub fn into_parts(self) -> (Nodes, Tables, Vec<PlanOut>)
        ensures nodes { result.0 ≡ self.nodes }
        ensures tables { result.1 ≡ self.lists }
        ensures outputs { result.2.items ≡ self.outputs }
        ensures valid { AreOutputs self.nodes self.outputs }
    {
        (self.nodes, self.tables, self.outputs)
    }
}
