ghost use Rattle.std.specs.Prelude.{◌≡◌, ◌+◌, ◌<◌, ◌≤◌, ◌^◌, ◌++◌, Bool, List, All, take, IfOk, OnOk, length};
ghost use Rattle.std.specs.List.{filter};
ghost use Rattle.aql_base.specs.Bags.{SameBag};
ghost use Rattle.span_token.specs.Documents.{characters};
ghost use Rattle.span_token.specs.Tokens.{tokens_of};
ghost use Rattle.row_values.specs.Datums.{Datum, IsOfDocument};
ghost use Rattle.row_values.specs.Rows.{RowsLieIn};
ghost use Rattle.algebra.specs.declared.node.Local.TheVariants as sought;
ghost use Rattle.algebra.specs.Operators.{restricted, sought_by, followed};
ghost use Rattle.algebra.specs.Shapes.{IsSought};
ghost use Rattle.row_operators.specs.Searches.{extraction_for};
ghost use Rattle.plan_operators.specs.Neighbourhoods.{IsReach, BeginIn, FirstsRise, PutsStretch, rows_between};

use crate::span_join::span_join;
use crate::stretches::{Stretch, stretches_around};
use algebra::{JoinKind, Local};
use row_operators::{Search, append_rows, push_found, source_in};
use row_values::{Row, Rows, Value};
use scalar_ops::Tools;
use span_token::{Document, OutOfMemory, Span};
use std::alloc::Global;

/// `Restricted`: each outer row, followed by the row of the source and each span that is found in it and
/// passes the predicate.
///
/// A source is searched near the outer rows alone: from the tokens from which a match may join with one.
pub(crate) fn restricted<'d>(
    alloc: Global,
    tools: &mut Tools<'_>,
    doc: &Document<'d>,
    outer: &Rows<'d>,
    source: &Rows<'d>,
    kind: JoinKind,
    lc: u32,
    local: Local,
) -> Result<Rows<'d>, OutOfMemory>
    requires outer_column { lc < outer.now.width }
    requires source_width { source.now.width ≡ 1 }
    requires sought { IsSought local }
    requires outer_in_document { RowsLieIn doc.now outer.now.rows }
    requires source_in_document { RowsLieIn doc.now source.now.rows }
    ensures rows { IfOk result (λ out. SameBag out.rows (restricted tools.old doc.now kind lc local outer.now.rows source.now.rows)) }
    ensures width { IfOk result (λ out. out.width ≡ outer.now.width + 2) }
    ensures lies { IfOk result (λ out. RowsLieIn doc.now out.rows) }
    ensures same { tools.new ≡ tools.old }
{
    let reach = reach_of(tools, doc, local);
    let stretches = stretches_around(alloc, doc, kind, outer, lc, reach)?;
    let stretches = stretches.as_slice();
    let _width = source.width();
    let mut found = Rows::new(alloc, 2);
    for row in source.as_slice() {
        push_near(alloc, tools, doc, row, local, reach, stretches, &mut found)?;
    }
    let out = span_join(alloc, doc, outer, lc, &found, 1, kind)?;
    Ok(out)
}

/// How many tokens a match has at most, and one or more.
fn reach_of(tools: &Tools<'_>, doc: &Document<'_>, local: Local) -> u64
    ensures reach { IsReach tools.now doc.now local result }
    ensures some { 1 ≤ result }
    ensures few { result < 2 ^ 32 }
{
    let most = match local {
        Local::TokenRegex { high, .. } => high,
        Local::Dict { dict } => most_tokens(tools, doc, dict),
    };
    u64::from(most.max(1))
}

/// How many tokens of the document a match of a dictionary has at most.
#[tactic(auto, using(crate::proofs::Reached::reach_by, crate::proofs::Reached::reach_all))]
fn most_tokens(tools: &Tools<'_>, doc: &Document<'_>, dict: u32) -> u32
    ensures { IsReach tools.now doc.now (sought.Dict dict) result }
{
    let all = doc.token_count();
    let most = tools.most_tokens(dict);
    if most < all as usize {
        most as u32
    } else {
        all
    }
}

/// Puts the row, followed by a span, after the others, for each match in it that begins in one of the
/// stretches, and perhaps for others.
fn push_near<'d>(
    alloc: Global,
    tools: &mut Tools<'_>,
    doc: &Document<'d>,
    row: &Row<'d>,
    local: Local,
    reach: u64,
    stretches: &[Stretch],
    into: &mut Rows<'d>,
) -> Result<(), OutOfMemory>
    requires in_document { All (IsOfDocument doc.now) row.now }
    requires sought { IsSought local }
    requires reach { IsReach tools.old doc.now local reach }
    requires some { 1 ≤ reach }
    requires few { reach < 2 ^ 32 }
    requires rise { FirstsRise stretches.now }
    requires width { length row.now + 1 ≡ into.old.width }
    ensures rows { (keep : List Datum → Bool) → BeginIn doc.now reach stretches.now row.now keep → OnOk result (filter keep into.new.rows ≡ filter keep (into.old.rows ++ followed tools.old doc.now (sought_by local) row.now)) }
    ensures width { OnOk result (into.new.width ≡ into.old.width) }
    ensures lies { RowsLieIn doc.now into.old.rows → OnOk result (RowsLieIn doc.now into.new.rows) }
    ensures same { tools.new ≡ tools.old }
{
    let Some(source) = source_in(doc, row, 0) else {
        return Ok(());
    };
    let _text = doc.text();
    let (first, end) = doc.tokens_in(source);
    let begin = u64::from(first);
    let past = u64::from(end);
    let mut done = begin;
    for stretch in stretches {
        done = push_stretch(
            alloc, tools, doc, row, local, reach, *stretch, done, past, into,
        )?;
    }
    Ok(())
}

/// Puts the row, followed by a span, after the others, for each match that begins in a stretch from token
/// `from` on, where tokens from number `past` on aren't looked at. Gives the token up to which all are passed.
fn push_stretch<'d>(
    alloc: Global,
    tools: &mut Tools<'_>,
    doc: &Document<'d>,
    row: &Row<'d>,
    local: Local,
    reach: u64,
    stretch: Stretch,
    from: u64,
    past: u64,
    into: &mut Rows<'d>,
) -> Result<u64, OutOfMemory>
    requires in_document { All (IsOfDocument doc.now) row.now }
    requires sought { IsSought local }
    requires reach { IsReach tools.old doc.now local reach }
    requires some { 1 ≤ reach }
    requires few { reach < 2 ^ 32 }
    requires ahead { from ≤ past }
    requires there { past ≤ length (tokens_of (characters doc.now)) }
    requires short { past < 2 ^ 32 }
    requires width { length row.now + 1 ≡ into.old.width }
    ensures put { IfOk result (λ done. PutsStretch tools.old doc.now local row.now stretch from past done into.old into.new) }
    ensures lies { RowsLieIn doc.now into.old.rows → OnOk result (RowsLieIn doc.now into.new.rows) }
    ensures same { tools.new ≡ tools.old }
{
    let _text = doc.text();
    let begin = stretch.first.max(from);
    let stop = stretch.past.min(past);
    if begin >= stop {
        return Ok(begin.min(past));
    }
    if past - stop < reach {
        push_found_in(alloc, tools, doc, row, local, begin, past, into)?;
        return Ok(past);
    }
    push_found_before(
        alloc,
        tools,
        doc,
        row,
        local,
        begin,
        stop,
        stop + (reach - 1),
        into,
    )?;
    Ok(stop)
}

/// Puts the row, followed by a span, after the others, for each match in the tokens from number `first` to
/// before `past` that begins before number `stop`.
///
/// The matches that begin later are those in the tokens from `stop` on, and stand behind the others.
fn push_found_before<'d>(
    alloc: Global,
    tools: &mut Tools<'_>,
    doc: &Document<'d>,
    row: &Row<'d>,
    local: Local,
    first: u64,
    stop: u64,
    past: u64,
    into: &mut Rows<'d>,
) -> Result<(), OutOfMemory>
    requires in_document { All (IsOfDocument doc.now) row.now }
    requires sought { IsSought local }
    requires in_order { first ≤ stop }
    requires inside { stop ≤ past }
    requires there { past ≤ length (tokens_of (characters doc.now)) }
    requires short { past < 2 ^ 32 }
    requires width { length row.now + 1 ≡ into.old.width }
    ensures rows { OnOk result (into.new ≡ record { width = into.old.width; rows = into.old.rows ++ rows_between tools.old doc.now local row.now past first stop }) }
    ensures lies { RowsLieIn doc.now into.old.rows → OnOk result (RowsLieIn doc.now into.new.rows) }
    ensures same { tools.new ≡ tools.old }
{
    let width = into.width();
    let mut here = Rows::new(alloc, width);
    push_found_in(alloc, tools, doc, row, local, first, past, &mut here)?;
    let mut behind = Rows::new(alloc, width);
    push_found_in(alloc, tools, doc, row, local, stop, past, &mut behind)?;
    let number = here.len() - behind.len();
    append_first(here, number, into)?;
    Ok(())
}

/// Puts the first rows after the others.
fn append_first<'d>(rows: Rows<'d>, number: u32, into: &mut Rows<'d>) -> Result<(), OutOfMemory>
    requires width { rows.width ≡ into.old.width }
    ensures { OnOk result (into.new ≡ record { width = into.old.width; rows = into.old.rows ++ take number rows.entry.rows }) }
{
    let width = rows.width();
    let mut first = rows.into_vec();
    first.truncate(number as usize);
    append_rows(Rows::from_vec(width, first), into)
}

/// Puts the row, followed by a span, after the others, for each match in the tokens from number `first` to
/// before `past`.
fn push_found_in<'d>(
    alloc: Global,
    tools: &mut Tools<'_>,
    doc: &Document<'d>,
    row: &Row<'d>,
    local: Local,
    first: u64,
    past: u64,
    into: &mut Rows<'d>,
) -> Result<(), OutOfMemory>
    requires in_document { All (IsOfDocument doc.now) row.now }
    requires sought { IsSought local }
    requires there { past ≤ length (tokens_of (characters doc.now)) }
    requires short { past < 2 ^ 32 }
    requires width { length row.now + 1 ≡ into.old.width }
    ensures rows { OnOk result (into.new ≡ record { width = into.old.width; rows = into.old.rows ++ rows_between tools.old doc.now local row.now past first past }) }
    ensures lies { RowsLieIn doc.now into.old.rows → OnOk result (RowsLieIn doc.now into.new.rows) }
    ensures same { tools.new ≡ tools.old }
{
    if first >= past {
        return Ok(());
    }
    let begin = doc.token(first as u32).begin;
    let end = doc.token((past - 1) as u32).end;
    let part = Row::single(alloc, Value::Span(Span { begin, end }));
    let mut found = Vec::new(alloc);
    push_found(
        alloc,
        tools,
        doc,
        &part,
        search_for(local),
        row,
        &mut found,
        into,
    )?;
    Ok(())
}

/// What a restricted join looks for, in column 0.
fn search_for(local: Local) -> Search<'static>
    ensures { extraction_for result ≡ sought_by local }
{
    match local {
        Local::TokenRegex { low, high, pattern } => Search::TokenRegex {
            column: 0,
            low,
            high,
            pattern,
            groups: &[0],
        },
        Local::Dict { dict } => Search::Dict { column: 0, dict },
    }
}
