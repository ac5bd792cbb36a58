ghost use Rattle.std.specs.Prelude.{◌≡◌, ◌++◌, IfOk, OnOk, length, map, string_bytes};
ghost use Rattle.std.specs.List.{flat_map, zip};
ghost use Rattle.demo_corpus.specs.Summaries.{by_name, summary_line, summary_of};
ghost use Rattle.demo_corpus.specs.NamedTotals.{named_total};

use row_values::Output;
use span_token::OutOfMemory;
use std::alloc::Global;
use std::collections::BTreeMap;

/// The summary of `documents` documents, where the outputs have these totals.
#[tactic(auto, unfolding(crate::specs::Summaries::summary_of))]
pub(crate) fn summary(
    alloc: Global,
    documents: u32,
    outputs: &[Output],
    totals: &[u64],
) -> Result<String, OutOfMemory>
    requires one_of_each { length outputs.now ≡ length totals.now }
    ensures { IfOk result (λ text. string_bytes text ≡ summary_of outputs.now (record { documents = documents; totals = totals.now })) }
{
    let mut text = format!(in alloc; "documents {documents}\n")?;
    push_totals(alloc, &mut text, named(alloc, outputs, totals)?)?;
    Ok(text)
}

/// The totals under their outputs' names.
fn named<'p>(
    alloc: Global,
    outputs: &'p [Output],
    totals: &[u64],
) -> Result<BTreeMap<&'p str, u64>, OutOfMemory>
    requires one_of_each { length outputs.now ≡ length totals.now }
    ensures { IfOk result (λ named. map named_total named.entries ≡ by_name (zip (map (λ output. output.name) outputs.now) totals.now)) }
{
    let mut named = BTreeMap::new(alloc);
    'outputs: for (index, output) in outputs.iter().enumerate() {
        named.insert(output.name(), totals[index])?;
    }
    Ok(named)
}

/// Puts the lines of the totals after the text.
fn push_totals(
    alloc: Global,
    text: &mut String,
    named: BTreeMap<&str, u64>,
) -> Result<(), OutOfMemory>
    ensures { OnOk result (string_bytes text.new ≡ string_bytes text.old ++ flat_map summary_line (map named_total named.entry.entries)) }
{
    'totals: for (name, total) in named {
        let line = format!(in alloc; "{name} {total}\n")?;
        text.push_str(&line)?;
    }
    Ok(())
}
