ghost use Rattle.std.specs.Prelude.{◌≡◌, ◌<◌, ◌%◌, length, option_map, IfOk, IfSome};
ghost use Rattle.std.specs.Arc.{arc_value};
ghost use Rattle.algebra.specs.Folds.{of_input};
ghost use Rattle.algebra.specs.Growth.{IsAt};
ghost use Rattle.algebra.specs.Inputs.{IsAmong};
ghost use Rattle.algebra.specs.Items.{IsItem, item_count};
ghost use Rattle.algebra.specs.Shapes.{no_shape, shapes_of};
ghost use Rattle.plan_operators.specs.Given.{input_rows};
ghost use Rattle.run_tables.specs.Inputs.{rows_given};
ghost use Rattle.run_tables.specs.Items.{IsResult, MayCompute};

use crate::Work;
use algebra::{Node, Nodes, Plan};
use plan_operators::{Input, apply};
use row_values::Rows;
use scalar_ops::Tools;
use span_token::{Document, OutOfMemory};
use std::alloc::Global;
use std::marker::{Model, PhantomData};
use std::sync::Arc;

/// What an item came to: its number, and its rows, which are shared and never copied.
///
/// The type keeps that the rows are the item's value by the plan and the documents of its name, as a bag,
/// and that the item is needed. Contracts see the number and the rows.
///
/// Meaning: `IsResult`, `specs/Items.antt`.
#[derive(Drop)]
pub struct Published<'d, W: Work> {
    item: u32,
    rows: Arc<Rows<'d>, Global>,
    of: PhantomData<W>,
}

impl<'d, W: Work> Model for Published<'d, W> {
    ghost use Rattle.std.specs.Arc.{arc_value};
    ghost use Rattle.run_tables.specs.Items.{ItemRows, IsResult};

    ghost Value = { ItemRows };

    ghost view = { λ found. record { item = found.item; rows = arc_value found.rows } };

    ghost invariant = { λ found. IsResult W.plan W.docs found.item (arc_value found.rows) };
}

impl<'d, W: Work> Published<'d, W> {
    /// The result of an item, computed from those of its node's inputs on the same document.
    ///
    /// `left` and `right` are None where the node has no such input; `right` also for a conditional join whose
    /// left result has no row. The item is needed. `tools` are made of the plan's tables.
    ///
    /// Meaning: `MayCompute`, `specs/Items.antt`.
    pub fn compute(
        alloc: Global,
        tools: &mut Tools<'_>,
        plan: &'d Plan,
        docs: &[Document<'d>],
        item: u32,
        left: Option<&Published<'d, W>>,
        right: Option<&Published<'d, W>>,
    ) -> Result<Box<Published<'d, W>>, OutOfMemory>
        requires work { (plan.now ≡ W.plan) × (docs.now ≡ W.docs) × (tools.old ≡ W.plan.lists) }
        requires inputs { MayCompute W.plan W.docs item (option_map (λ found. found.now) left) (option_map (λ found. found.now) right) }
        ensures item { IfOk result (λ found. found.value.item ≡ item) }
        ensures is_result { IfOk result (λ found. IsResult W.plan W.docs item found.value.rows) }
        ensures same { tools.new ≡ tools.old }
    {
        let (node, doc) = node_and_document::<W>(plan, docs, item);
        let (left_input, right_input) = node.inputs();
        let left_rows = rows_given(alloc, plan.nodes(), left_input, left);
        let right_rows = rows_given(alloc, plan.nodes(), right_input, right);
        let rows = apply(alloc, tools, doc, node, left_rows, right_rows)?;
        Published::new(alloc, item, rows)
    }

    /// The result of an item, from its rows.
    pub fn new(
        alloc: Global,
        item: u32,
        rows: Rows<'d>,
    ) -> Result<Box<Published<'d, W>>, OutOfMemory>
        requires is_result { IsResult W.plan W.docs item rows }
        ensures published { IfOk result (λ found. found.value ≡ record { item = item; rows = rows.entry }) }
    {
        let rows = Arc::new(alloc, rows)?;
        Ok(Box::new(
            alloc,
            Published {
                item,
                rows,
                of: PhantomData,
            },
        )?)
    }

    /// The number of the item. It takes no memory.
    pub fn item(&self) -> u32
        ensures { result ≡ self.now.item }
    {
        self.item
    }

    /// The rows. It takes no memory.
    pub fn rows(&self) -> &Rows<'d>
        ensures rows { result.now ≡ self.now.rows }
        ensures is_result { IsResult W.plan W.docs self.now.item result.now }
    {
        &self.rows
    }

    /// The rows, to be kept after the cell is gone. No row is copied; that it fails comes from the count of
    /// those who share them alone.
    pub fn share(&self) -> Result<Arc<Rows<'d>, Global>, OutOfMemory>
        ensures rows { IfOk result (λ rows. arc_value rows ≡ self.now.rows) }
        ensures is_result { IfOk result (λ rows. IsResult W.plan W.docs self.now.item (arc_value rows)) }
    {
        Ok(Arc::try_clone(&self.rows)?)
    }

    /// The result, for another one who keeps it. No row is copied; that it fails comes from the count of
    /// those who share the rows alone.
    pub fn again(&self) -> Result<Published<'d, W>, OutOfMemory>
        ensures same { IfOk result (λ found. found ≡ self.now) }
        ensures is_result { IsResult W.plan W.docs self.now.item self.now.rows }
    {
        Ok(Published {
            item: self.item,
            rows: Arc::try_clone(&self.rows)?,
            of: PhantomData,
        })
    }
}

/// The node and the document of an item.
fn node_and_document<'r, 'd, W: Work>(
    plan: &'d Plan,
    docs: &'r [Document<'d>],
    item: u32,
) -> (&'d Node, &'r Document<'d>)
    requires work { (plan.now ≡ W.plan) × (docs.now ≡ W.docs) }
    requires there { item < item_count W.plan W.docs }
    ensures node { (of_item : IsItem W.plan W.docs item) → result.0.now ≡ of_item.node }
    ensures at { IsAt W.plan.nodes (item % length W.plan.nodes) result.0.now }
    ensures doc { (of_item : IsItem W.plan W.docs item) → result.1.now ≡ of_item.doc }
{
    let nodes = plan.nodes();
    let node = nodes.get(item % nodes.len());
    (node, &docs[(item / nodes.len()) as usize])
}

/// The rows of an input's result, which are lent; no row, of the input's columns, where there is no result.
fn rows_given<'r, 'd, W: Work>(
    alloc: Global,
    nodes: &Nodes,
    input: Option<u32>,
    found: Option<&'r Published<'d, W>>,
) -> Input<'r, 'd>
    requires among { IsAmong (length nodes.now) input }
    ensures rows { input_rows result ≡ rows_given nodes.now input (option_map (λ found. found.now) found.entry) }
    ensures known { IfSome (option_map (λ found. found.now) found.entry) (λ found. IsResult W.plan W.docs found.item found.rows) }
{
    match found {
        Some(found) => Input::Lent(found.rows()),
        None => Input::Given(Rows::new(alloc, width_of(nodes, input))),
    }
}

/// The number of an input's columns.
fn width_of(nodes: &Nodes, input: Option<u32>) -> u32
    requires among { IsAmong (length nodes.now) input }
    ensures { result ≡ (of_input no_shape (shapes_of nodes.now) input).width }
{
    match input {
        Some(i) => nodes.shape(i).width,
        None => 0,
    }
}
