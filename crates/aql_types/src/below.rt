//! The views that a query may use, by their names.

ghost use Rattle.std.specs.Prelude.{◌≡◌, ◌+◌, map, IfOk};
ghost use Rattle.aql_syntax.specs.Views.{name_of};
ghost use Rattle.aql_typed.specs.Views.{source_of};
ghost use Rattle.aql_types.specs.Queries as spec;
ghost use Rattle.aql_types.specs.Programs.{view_seen};
ghost use Rattle.aql_types.specs.Sources.{source_seen, columns_seen, below_seen};

use crate::source::CheckedSource;
use aql_syntax::Ident;
use aql_typed::{Column, TypedSource, TypedView};
use scalar_ops::Kind;
use span_token::{OutOfMemory, OwnedText};
use std::alloc::Global;

/// The columns of a source: borrowed from a view, or its own.
#[derive(Debug, Drop)]
pub(crate) enum Columns<'a> {
    OfView(&'a [Column]),
    Own(Vec<Column>),
}

impl Columns<'_> {
    pub(crate) fn as_slice(&self) -> &[Column]
        ensures { result.now ≡ columns_seen self.now }
    {
        match self {
            Columns::OfView(columns) => columns,
            Columns::Own(columns) => columns.as_slice(),
        }
    }
}

/// What a view's name stands for.
#[derive(Debug, Drop)]
pub(crate) struct Below<'a> {
    columns: Columns<'a>,
    body: TypedSource,
}

/// A view as a source.
pub(crate) fn view_source<'a>(
    alloc: Global,
    below: &'a [TypedView],
    alias: &Ident,
    name: &str,
) -> Result<CheckedSource<'a>, OutOfMemory>
    ensures { IfOk result (λ s. spec.typing_of_view (name_of alias.now) (spec.view_named name.now 0 (map view_seen below.now)) ≡ source_seen s) }
{
    let text = OwnedText::copied(alloc, alias.text.as_str())?;
    let Below { columns, body } = view_named(alloc, name, below)?;
    Ok(CheckedSource {
        alias: Ident { text, at: alias.at },
        columns,
        body,
    })
}

/// The first view with a name, and the document where there is none.
fn view_named<'a>(
    alloc: Global,
    name: &str,
    below: &'a [TypedView],
) -> Result<Below<'a>, OutOfMemory>
    ensures { IfOk result (λ b. below_seen b ≡ spec.view_named name.now 0 (map view_seen below.now)) }
{
    for (index, view) in below.iter().enumerate() {
        if view.name.as_str() == name {
            return numbered(index, view);
        }
    }
    document(alloc)
}

/// The view with this number.
fn numbered(index: usize, view: &TypedView) -> Result<Below<'_>, OutOfMemory>
    ensures { IfOk result (λ b. below_seen b ≡ spec.view_below index (view_seen view.now)) }
{
    let Ok(number) = u32::try_from(index) else {
        return Err(OutOfMemory);
    };
    Ok(Below {
        columns: Columns::OfView(&view.columns),
        body: TypedSource::View(number),
    })
}

/// The document: one column, the span of its text.
fn document<'a>(alloc: Global) -> Result<Below<'a>, OutOfMemory>
    ensures { IfOk result (λ b. below_seen b ≡ spec.document_below) }
{
    let name = OwnedText::copied(alloc, "text")?;
    let mut columns = Vec::new(alloc);
    columns.push(Column {
        name,
        kind: Kind::Span,
    })?;
    Ok(Below {
        columns: Columns::Own(columns),
        body: TypedSource::Document,
    })
}
