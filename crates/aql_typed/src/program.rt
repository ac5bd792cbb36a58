//! A typed program.

ghost use Rattle.std.specs.Prelude.{◌≡◌, length};
ghost use Rattle.aql_typed.specs.Programs.{AreTypedViews, AreTypedOutputs};

use crate::{Output, TypedView};
use scalar_ops::Tables;
use std::marker::Model;

/// A program without a fault: its views, each standing on those before it, its patterns and dictionaries,
/// and its outputs.
///
/// Contracts see the three. The rows of a view have as many values as it has columns, and every column that
/// an expression or an extraction reads is there; no two columns of a view and no two outputs have one name,
/// and each output names a view or the document.
#[derive(Drop)]
pub struct Typed {
    views: Vec<TypedView>,
    tables: Tables,
    outputs: Vec<Output>,
}

impl Model for Typed {
    ghost use Rattle.std.specs.Prelude.{List, length};
    ghost use Rattle.std.specs.Coded.{codes};
    ghost use Rattle.aql_typed.specs.contracts.tree.TypedView as typed_view;
    ghost use Rattle.aql_typed.specs.contracts.tree.Output as output;
    ghost use Rattle.aql_typed.specs.declared.tree.TypedView.{TypedView};
    ghost use Rattle.aql_typed.specs.declared.tree.Output.{Output};
    ghost use Rattle.aql_typed.specs.Programs.{AreTypedViews, AreTypedOutputs};
    ghost use Rattle.scalar_ops.specs.Tables.{Lists};

    ghost Value = { List TypedView × (Lists × List Output) };

    ghost coded = { Prim.hlevel (codes, typed_view.the_row.coded, output.the_row.coded) };

    ghost view = { λ typed. (typed.views.items, (typed.tables, typed.outputs.items)) };

    ghost invariant = { λ typed. AreTypedViews typed.views.items × AreTypedOutputs (length typed.views.items) typed.outputs.items };
}

impl Typed {
    /// A program of these views, tables and outputs.
    pub fn new(views: Vec<TypedView>, tables: Tables, outputs: Vec<Output>) -> Typed
        requires views { AreTypedViews views.items }
        requires outputs { AreTypedOutputs (length views.items) outputs.items }
        ensures { result ≡ (views.items, (tables, outputs.items)) }
    {
        Typed {
            views,
            tables,
            outputs,
        }
    }

    /// The views; a view's number is its index here, from 0.
    pub fn views(&self) -> &[TypedView]
        ensures views { result.now ≡ self.now.0 }
        ensures valid { AreTypedViews self.now.0 }
    {
        self.views.as_slice()
    }

    /// The patterns and dictionaries that expressions and extractions name by their numbers.
    pub fn tables(&self) -> &Tables
        ensures { result.now ≡ self.now.1.0 }
    {
        &self.tables
    }

    /// The outputs, in their order.
    pub fn outputs(&self) -> &[Output]
        ensures outputs { result.now ≡ self.now.1.1 }
        ensures valid { AreTypedOutputs (length self.now.0) self.now.1.1 }
    {
        self.outputs.as_slice()
    }

    /// The views, the tables and the outputs, handed over.
    pub fn into_parts(self) -> (Vec<TypedView>, Tables, Vec<Output>)
        ensures views { result.0.items ≡ self.0 }
        ensures tables { result.1 ≡ self.1.0 }
        ensures outputs { result.2.items ≡ self.1.1 }
        ensures valid_views { AreTypedViews self.0 }
        ensures valid_outputs { AreTypedOutputs (length self.0) self.1.1 }
    {
        (self.views, self.tables, self.outputs)
    }
}
