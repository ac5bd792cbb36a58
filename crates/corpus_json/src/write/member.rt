ghost use Rattle.std.specs.Prelude.{◌≡◌, IfOk, map};
ghost use Rattle.corpus_json.specs.NameIndexes.{column_index, name_index, name_indexes};

use super::key::{Key, key_of};
use super::order::{Named, in_order};
use row_values::Output;
use span_token::OutOfMemory;
use std::alloc::Global;

/// An output in a line: its name, its index among the outputs, and its columns by their names.
#[derive(Drop)]
pub(crate) struct Member<'p> {
    pub(crate) key: Key<'p>,
    pub(crate) index: usize,
    pub(crate) output: &'p Output,
    pub(crate) columns: Vec<Column<'p>>,
    ghost in_order: { map column_index columns.items ≡ name_indexes output.now.columns },
}

/// A column in a line: its name, and its index among the output's columns.
#[derive(Drop)]
pub(crate) struct Column<'p> {
    pub(crate) key: Key<'p>,
    pub(crate) index: usize,
}

/// The output at the index of `named`.
pub(crate) fn member_at<'p>(
    alloc: Global,
    named: Named<'p>,
    output: &'p Output,
) -> Result<Member<'p>, OutOfMemory>
    ensures name { IfOk result (λ member. member.key.name.now ≡ named.entry.name.now) }
    ensures index { IfOk result (λ member. member.index ≡ named.entry.index) }
    ensures output { IfOk result (λ member. member.output.now ≡ output.now) }
{
    let names = column_names(alloc, output)?;
    let order = in_order(alloc, names.as_slice())?;
    let columns = columns_of(alloc, order.as_slice())?;
    let key = key_of(alloc, named.name)?;
    Ok(Member {
        key,
        index: named.index,
        output,
        columns,
    })
}

/// The names of an output's columns.
fn column_names<'p>(alloc: Global, output: &'p Output) -> Result<Vec<&'p str>, OutOfMemory>
    ensures { IfOk result (λ names. map (λ name. name.now) names.items ≡ output.now.columns) }
{
    let mut names = Vec::new(alloc);
    'columns: for column in 0..output.width() {
        names.push(output.column(column))?;
    }
    Ok(names)
}

/// The columns of these names.
fn columns_of<'p>(alloc: Global, order: &[Named<'p>]) -> Result<Vec<Column<'p>>, OutOfMemory>
    ensures { IfOk result (λ columns. map column_index columns.items ≡ map name_index order.now) }
{
    let mut columns = Vec::new(alloc);
    'order: for named in order {
        let key = key_of(alloc, named.name)?;
        columns.push(Column {
            key,
            index: named.index,
        })?;
    }
    Ok(columns)
}
