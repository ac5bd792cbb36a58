ghost use Rattle.std.specs.Prelude.{◌≡◌, ◌<◌, ◌+◌, length, slice_index_or, IfOk};
ghost use Rattle.algebra.specs.Folds.{had};
ghost use Rattle.algebra.specs.Nodes.{IsNode};
ghost use Rattle.algebra.specs.Shapes.{columns, shape_by, no_shape};

use crate::Node;
use span_token::OutOfMemory;

/// What the rows of a node are.
#[derive(Clone, Copy, Debug, PartialEq, Eq)]
pub enum Form {
    /// The one row of the document.
    Document,
    /// Matches of so many dictionaries, with the number of the dictionary in the last column but one.
    Marked(u32),
    /// Any other rows.
    Plain,
}

/// What is known of the rows of a node: the number of their columns, and what they are.
#[derive(Clone, Copy, Debug, PartialEq, Eq)]
pub struct Shape {
    pub width: u32,
    pub form: Form,
}

/// What the rows of a node are that is put after nodes with these shapes. Columns that `u32` can't count
/// are want of memory.
pub(crate) fn shape_after(shapes: &[Shape], node: &Node) -> Result<Shape, OutOfMemory>
    requires valid { IsNode shapes.now node.now }
    ensures { IfOk result (λ shape. shape ≡ had no_shape shape_by shapes.now node.now) }
{
    match node {
        Node::Doc => Ok(Shape {
            width: 1,
            form: Form::Document,
        }),
        Node::Regex { input, groups, .. } => wider(width_at(shapes, *input), groups.len()),
        Node::TokenRegex { input, groups, .. } => wider(width_at(shapes, *input), groups.len()),
        Node::Dict { input, dicts, .. } => marked(width_at(shapes, *input), dicts.len()),
        Node::DictPart { input, .. } => Ok(columns(width_at(shapes, *input).saturating_sub(1))),
        Node::Blocks { .. } => Ok(columns(1)),
        Node::Select { input, .. } => Ok(columns(width_at(shapes, *input))),
        Node::Project { items, .. } => wider(0, items.as_slice().len()),
        Node::Cross { left, right, .. } => {
            wider(width_at(shapes, *left), width_at(shapes, *right) as usize)
        }
        Node::SpanJoin { left, right, .. } => {
            wider(width_at(shapes, *left), width_at(shapes, *right) as usize)
        }
        Node::Restricted { outer, .. } => wider(width_at(shapes, *outer), 2),
        Node::Union { left, .. } => Ok(columns(width_at(shapes, *left))),
        Node::Minus { left, .. } => Ok(columns(width_at(shapes, *left))),
        Node::Consolidate { input, .. } => Ok(columns(width_at(shapes, *input))),
        Node::Group { aggs, .. } => wider(0, aggs.len()),
        Node::OrderLimit { input, .. } => Ok(columns(width_at(shapes, *input))),
    }
}

/// The number of columns of a node.
fn width_at(shapes: &[Shape], n: u32) -> u32
    requires in_range { n < length shapes.now }
    ensures { result ≡ (slice_index_or shapes.now n no_shape).width }
{
    shapes[n as usize].width
}

/// Any rows of so many columns.
fn columns(width: u32) -> Shape
    ensures { result ≡ columns width }
{
    Shape {
        width,
        form: Form::Plain,
    }
}

/// Any rows of so many columns and more.
fn wider(width: u32, more: usize) -> Result<Shape, OutOfMemory>
    ensures { IfOk result (λ shape. shape ≡ columns (width + more)) }
{
    let Ok(more) = u32::try_from(more) else {
        return Err(OutOfMemory);
    };
    match width.checked_add(more) {
        Some(width) => Ok(columns(width)),
        None => Err(OutOfMemory),
    }
}

/// Rows of so many columns, followed by the number of one of so many dictionaries and a span.
fn marked(width: u32, dicts: usize) -> Result<Shape, OutOfMemory>
    ensures { IfOk result (λ shape. shape ≡ record { width = width + 2; form = Form.Marked dicts }) }
{
    let Ok(dicts) = u32::try_from(dicts) else {
        return Err(OutOfMemory);
    };
    match width.checked_add(2) {
        Some(width) => Ok(Shape {
            width,
            form: Form::Marked(dicts),
        }),
        None => Err(OutOfMemory),
    }
}
