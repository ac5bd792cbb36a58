//! The names of outputs, each given once.

ghost use Rattle.std.specs.Prelude.{◌≡◌, ◌+◌, List, ◌∷◌, [], ◌++◌, ◌^◌, ◌<◌, map, length, IfOk, OnOk, IfErr};
ghost use Rattle.aql_syntax.specs.Trees as tree;
ghost use Rattle.aql_syntax.specs.Views.{statement_of};
ghost use Rattle.view_graph.specs.Names.{outputs_of, AllDiffer};
ghost use Rattle.span_token.specs.Refusals.{OfFault};
ghost use Rattle.view_graph.specs.Indexes.{has};
ghost use Rattle.view_graph.specs.Outputs.{HasSeen, IsOutputAgain};

use crate::NameFault;
use crate::index::add_name;
use aql_syntax::Statement;
use indexmap::IndexSet;
use span_token::{Failure, OutOfMemory, OwnedText};
use std::alloc::Global;

/// Refuses the first output whose name an earlier one has.
pub(crate) fn distinct_outputs(
    alloc: Global,
    statements: &[Statement],
) -> Result<(), Failure<NameFault>>
    requires { length statements.now < 2 ^ 32 }
    ensures ok { OnOk result (AllDiffer (outputs_of (map statement_of statements.now))) }
    ensures fault { IfErr result (OfFault (IsOutputAgain (map statement_of statements.now))) }
{
    let mut seen = IndexSet::new(alloc);
    for (index, statement) in statements.iter().enumerate() {
        note(alloc, &mut seen, index as u32 + 1, statement)?;
    }
    Ok(())
}

/// Notes the output that the statement with this number is, or refuses a name that was seen.
fn note<'a>(
    alloc: Global,
    seen: &mut IndexSet<&'a str>,
    number: u32,
    statement: &'a Statement,
) -> Result<(), Failure<NameFault>>
    ensures ok { (before : List tree.Statement) → HasSeen before (has seen.old) → OnOk result (HasSeen (before ++ statement_of statement.now ∷ []) (has seen.new)) }
    ensures fault { (before after : List tree.Statement) → number ≡ length before + 1 → HasSeen before (has seen.old) → IfErr result (OfFault (IsOutputAgain (before ++ statement_of statement.now ∷ after))) }
{
    match statement.output_name() {
        None => Ok(()),
        Some(name) => {
            if add_name(seen, name)? {
                Ok(())
            } else {
                Err(Failure::Fault(output_again(alloc, number, name)?))
            }
        }
    }
}

/// The fault of the statement with this number, an output whose name an earlier one has.
fn output_again(alloc: Global, statement: u32, name: &str) -> Result<NameFault, OutOfMemory>
    ensures { IfOk result (λ fault. fault ≡ NameFault.DuplicateOutput statement name.now) }
{
    let name = OwnedText::copied(alloc, name)?;
    Ok(NameFault::DuplicateOutput { statement, name })
}
