//! The tokens of what an extraction looks for.

ghost use Rattle.std.specs.Prelude.{◌≡◌, [], ◌∷◌, ◌++◌, map, option_map, codes, OnOk};
ghost use Rattle.aql_syntax.specs.Grammar.Extractions.{flag_text, unit_of};
ghost use Rattle.aql_syntax.specs.Trees.{two, pattern, dict, blocks};
ghost use Rattle.aql_syntax.specs.Views as view;
ghost use Rattle.aql_syntax.specs.Printed as spec;

use crate::printing::expressions::{column, output};
use crate::printing::writer::Writer;
use crate::tree::{Flag, Ident, Number, Range, Spec};
use span_token::OutOfMemory;

pub fn extraction(out: &mut Writer, wanted: &Spec) -> Result<(), OutOfMemory>
    ensures { OnOk result (out.new ≡ out.old ++ spec.printed_spec (view.spec_of wanted.now)) }
{
    match wanted {
        Spec::Regex {
            pattern,
            bound,
            on,
            groups,
        } => regex(out, pattern, bound, on, groups),
        Spec::Dict {
            dict,
            flag,
            on,
            name,
        } => dictionary(out, dict, flag, on, name),
        Spec::Blocks {
            count,
            gap,
            tokens,
            on,
            name,
        } => block(out, count, gap, *tokens, on, name),
    }
}

fn bound(out: &mut Writer, bound: &Option<Range>) -> Result<(), OutOfMemory>
    ensures { OnOk result (out.new ≡ out.old ++ spec.printed_optional spec.printed_bound (option_map view.range_of bound.now)) }
{
    match bound {
        None => Ok(()),
        Some(bound) => {
            range(out, bound)?;
            out.word("tokens")?;
            out.word("in")
        }
    }
}

fn range(out: &mut Writer, range: &Range) -> Result<(), OutOfMemory>
    ensures { OnOk result (out.new ≡ out.old ++ spec.printed_range (view.range_of range.now)) }
{
    match range {
        Range::One(number) => out.int(number.value),
        Range::Two(low, high) => between(out, low, high),
    }
}

fn number(out: &mut Writer, number: &Option<Number>) -> Result<(), OutOfMemory>
    ensures { OnOk result (out.new ≡ out.old ++ spec.printed_optional spec.printed_number (option_map view.number_of number.now)) }
{
    match number {
        None => Ok(()),
        Some(number) => {
            out.word("group")?;
            out.int(number.value)
        }
    }
}

fn between(out: &mut Writer, low: &Number, high: &Number) -> Result<(), OutOfMemory>
    ensures { OnOk result (out.new ≡ out.old ++ spec.printed_range (two (view.number_of low.now) (view.number_of high.now))) }
{
    out.word("between")?;
    out.int(low.value)?;
    out.word("and")?;
    out.int(high.value)
}

fn groups(out: &mut Writer, groups: &[(Option<Number>, Ident)]) -> Result<(), OutOfMemory>
    ensures { OnOk result (out.new ≡ out.old ++ spec.printed_groups (map view.group_of groups.now)) }
{
    begin(out, groups)?;
    for (i, one) in groups.iter().enumerate() {
        out.and(i)?;
        group(out, one)?;
    }
    Ok(())
}

/// `return`, where the first group has a number.
fn begin(out: &mut Writer, groups: &[(Option<Number>, Ident)]) -> Result<(), OutOfMemory>
    ensures { OnOk result (out.new ≡ out.old ++ spec.printed_begin (map view.group_of groups.now)) }
{
    match groups {
        [(Some(_), _), ..] => out.word("return"),
        _ => Ok(()),
    }
}

fn group(out: &mut Writer, group: &(Option<Number>, Ident)) -> Result<(), OutOfMemory>
    ensures { OnOk result (out.new ≡ out.old ++ spec.printed_numbered (view.group_of group.now)) }
{
    number(out, &group.0)?;
    output(out, &group.1)
}

fn regex(
    out: &mut Writer,
    text: &Ident,
    limits: &Option<Range>,
    on: &(Ident, Ident),
    all: &[(Option<Number>, Ident)],
) -> Result<(), OutOfMemory>
    ensures { OnOk result (out.new ≡ out.old ++ spec.printed_spec (pattern (view.name_of text.now) (option_map view.range_of limits.now) (view.name_of on.now.0) (view.name_of on.now.1) (map view.group_of all.now))) }
{
    out.word("regex")?;
    out.regex(text.text.as_str())?;
    out.word("on")?;
    bound(out, limits)?;
    column(out, &on.0, &on.1)?;
    groups(out, all)
}

fn flag(out: &mut Writer, flag: &Option<Flag>) -> Result<(), OutOfMemory>
    ensures { OnOk result (out.new ≡ out.old ++ spec.printed_optional spec.printed_flag (option_map view.flag_of flag.now)) }
{
    match flag {
        None => Ok(()),
        Some(flag) => {
            out.word("with")?;
            out.word("flags")?;
            out.string(flag_name(*flag))
        }
    }
}

fn flag_name(flag: Flag) -> &'static str
    ensures { result.now ≡ flag_text (view.flag_of flag) }
{
    match flag {
        Flag::Exact => "Exact",
        Flag::IgnoreCase => "IgnoreCase",
    }
}

fn dictionary(
    out: &mut Writer,
    name: &Ident,
    how: &Option<Flag>,
    on: &(Ident, Ident),
    column_name: &Ident,
) -> Result<(), OutOfMemory>
    ensures { OnOk result (out.new ≡ out.old ++ spec.printed_spec (dict (view.name_of name.now) (option_map view.flag_of how.now) (view.name_of on.now.0) (view.name_of on.now.1) (view.name_of column_name.now))) }
{
    out.word("dictionary")?;
    out.dictionary(name)?;
    flag(out, how)?;
    on_column(out, on, column_name)
}

fn on_column(out: &mut Writer, on: &(Ident, Ident), name: &Ident) -> Result<(), OutOfMemory>
    ensures { OnOk result (out.new ≡ out.old ++ spec.printed_on (view.name_of on.now.0) (view.name_of on.now.1) (view.name_of name.now)) }
{
    out.word("on")?;
    column(out, &on.0, &on.1)?;
    output(out, name)
}

fn block(
    out: &mut Writer,
    count: &Range,
    gap: &Range,
    tokens: bool,
    on: &(Ident, Ident),
    name: &Ident,
) -> Result<(), OutOfMemory>
    ensures { OnOk result (out.new ≡ out.old ++ spec.printed_spec (blocks (view.range_of count.now) (view.range_of gap.now) tokens (view.name_of on.now.0) (view.name_of on.now.1) (view.name_of name.now))) }
{
    out.word("blocks")?;
    out.word("with")?;
    out.word("count")?;
    range(out, count)?;
    separation(out, gap, tokens)?;
    on_column(out, on, name)
}

fn separation(out: &mut Writer, gap: &Range, tokens: bool) -> Result<(), OutOfMemory>
    ensures { OnOk result (out.new ≡ out.old ++ spec.printed_separation (view.range_of gap.now) tokens) }
{
    out.word("and")?;
    out.word("separation")?;
    range(out, gap)?;
    out.word(unit(tokens))
}

fn unit(tokens: bool) -> &'static str
    ensures { result.now ≡ codes (unit_of tokens) }
{
    match tokens {
        true => "tokens",
        false => "characters",
    }
}
