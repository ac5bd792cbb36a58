//! The outputs of a program, by the bytes of their names.

ghost use Rattle.std.specs.Prelude.{◌≡◌, ◌∷◌, [], map, option_to_list, Some, IfOk, OnOk};
ghost use Rattle.std.specs.Ordering.{is_lt};
ghost use Rattle.std.specs.List.{prefix_len};
ghost use Rattle.aql_base.specs.Sorting.{put_in_order, sorted_by};
ghost use Rattle.aql_syntax.specs.Naming.{output_name};
ghost use Rattle.aql_syntax.specs.Trees as tree;
ghost use Rattle.aql_syntax.specs.Views as see;
ghost use Rattle.aql_types.specs.Programs as spec;

use aql_syntax::{Ident, Statement};
use aql_typed::{Output, TypedView};
use span_token::{OutOfMemory, OwnedText};
use std::alloc::Global;

/// The outputs of a program with these views.
pub(crate) fn outputs(
    alloc: Global,
    views: &[TypedView],
    statements: &[Statement],
) -> Result<Vec<Output>, OutOfMemory>
    ensures { IfOk result (λ outputs. outputs.items ≡ spec.outputs_of_program (map spec.view_seen views.now) (map see.statement_of statements.now)) }
{
    let listed = listed(alloc, views, statements)?;
    sorted(alloc, listed)
}

/// The outputs, in the order of their statements.
fn listed(
    alloc: Global,
    views: &[TypedView],
    statements: &[Statement],
) -> Result<Vec<Output>, OutOfMemory>
    ensures { IfOk result (λ outputs. outputs.items ≡ spec.outputs_in (map spec.view_seen views.now) (map see.statement_of statements.now)) }
{
    let mut outputs = Vec::new(alloc);
    for statement in statements {
        if let Some(output) = output_of(alloc, views, statement)? {
            outputs.push(output)?;
        }
    }
    Ok(outputs)
}

/// The output that a statement is, if it is one.
fn output_of(
    alloc: Global,
    views: &[TypedView],
    statement: &Statement,
) -> Result<Option<Output>, OutOfMemory>
    ensures { IfOk result (λ out. option_to_list out ≡ spec.output_in (map spec.view_seen views.now) (see.statement_of statement.now)) }
{
    match statement {
        Statement::Output { name, alias } => {
            let output = output_with(alloc, views, name, alias)?;
            Ok(Some(output))
        }
        Statement::Module(_) => Ok(None),
        Statement::Require => Ok(None),
        Statement::Export(_) => Ok(None),
        Statement::Dictionary { .. } => Ok(None),
        Statement::View { .. } => Ok(None),
    }
}

/// An output with its view.
fn output_with(
    alloc: Global,
    views: &[TypedView],
    name: &Ident,
    alias: &Option<OwnedText>,
) -> Result<Output, OutOfMemory>
    ensures { IfOk result (λ out. out ∷ [] ≡ spec.output_in (map spec.view_seen views.now) (tree.output (see.name_of name.now) alias.now)) }
{
    let view = view_number(name.text.as_str(), views)?;
    let name = OwnedText::copied(alloc, output_text(name, alias))?;
    Ok(Output { name, view })
}

/// The number of the first view with a name.
fn view_number(name: &str, views: &[TypedView]) -> Result<Option<u32>, OutOfMemory>
    ensures { IfOk result (λ number. number ≡ spec.view_number name.now (map spec.view_seen views.now)) }
{
    for (index, view) in views.iter().enumerate() {
        if view.name.as_str() == name {
            return match u32::try_from(index) {
                Ok(number) => Ok(Some(number)),
                Err(_) => Err(OutOfMemory),
            };
        }
    }
    Ok(None)
}

/// The name of an output: its alias, or else its view's name.
fn output_text<'a>(name: &'a Ident, alias: &'a Option<OwnedText>) -> &'a str
    ensures { output_name (tree.output (see.name_of name.now) alias.now) ≡ Some result.now }
{
    match alias {
        Some(alias) => alias.as_str(),
        None => name.text.as_str(),
    }
}

/// Outputs by the bytes of their names.
fn sorted(alloc: Global, listed: Vec<Output>) -> Result<Vec<Output>, OutOfMemory>
    ensures { IfOk result (λ outputs. outputs.items ≡ sorted_by spec.by_name listed.items) }
{
    let mut rest = listed;
    let mut outputs = Vec::new(alloc);
    while let Some(output) = rest.pop() {
        put(&mut outputs, output)?;
    }
    Ok(outputs)
}

/// Puts an output among others in order.
#[tactic(auto, using(crate::proofs::Sorting::put_is, crate::proofs::Sorting::prefix_within))]
fn put(outputs: &mut Vec<Output>, output: Output) -> Result<(), OutOfMemory>
    ensures { OnOk result (outputs.new.items ≡ put_in_order spec.by_name output outputs.old.items) }
{
    let index = outputs_before(outputs, &output);
    outputs.insert(index, output)?;
    Ok(())
}

/// How many outputs stand before one, from the front on.
fn outputs_before(outputs: &[Output], output: &Output) -> usize
    ensures { result ≡ prefix_len (λ other. is_lt (spec.by_name other output.now)) outputs.now }
{
    for (index, other) in outputs.iter().enumerate() {
        if !is_before(other, output) {
            return index;
        }
    }
    outputs.len()
}

fn is_before(a: &Output, b: &Output) -> bool
    ensures { result ≡ is_lt (spec.by_name a.now b.now) }
{
    a.name.as_str().cmp(b.name.as_str()).is_lt()
}
