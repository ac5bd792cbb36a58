//! What an extraction looks for.

ghost use Rattle.std.specs.Prelude.{◌≡◌, ◌∷◌, [], map, option_map, IfOk};
ghost use Rattle.aql_lexer.specs.Kinds.{kind_of};
ghost use Rattle.aql_syntax.specs.Views.{name_of, number_of, range_of, flag_of, group_of, spec_of};
ghost use Rattle.aql_parser.specs.Readers.{Gives, separated, sees};
ghost use Rattle.aql_parser.specs.Reading.Extractions as spec;

use crate::cursor::{Cursor, NoTree, Refused, ident};
use crate::expressions::column;
use aql_lexer::TokKind;
use aql_syntax::{Flag, Ident, Number, Range, Spec};
use span_token::{Failure, OutOfMemory};
use std::alloc::Global;

pub fn blocks(alloc: Global, toks: &mut Cursor<'_>) -> Result<Spec, Refused>
    ensures { Gives spec_of (spec.read_blocks toks.old.at toks.old.kinds) result toks.new }
{
    toks.expect_word("blocks")?;
    toks.expect_word("with")?;
    toks.expect_word("count")?;
    let count = range(toks)?;
    let (gap, tokens) = separation(toks)?;
    toks.expect_word("on")?;
    let on = column(alloc, toks)?;
    let name = output(alloc, toks)?;
    Ok(Spec::Blocks {
        count,
        gap,
        tokens,
        on,
        name,
    })
}

fn range(toks: &mut Cursor<'_>) -> Result<Range, Refused>
    ensures { Gives range_of (spec.read_range toks.old.at toks.old.kinds) result toks.new }
{
    if toks.eat_word("between") {
        let low = toks.int()?;
        toks.expect_word("and")?;
        let high = toks.int()?;
        return Ok(Range::Two(low, high));
    }
    let number = toks.int()?;
    Ok(Range::One(number))
}

fn separation(toks: &mut Cursor<'_>) -> Result<(Range, bool), Refused>
    ensures { Gives (λ pair. (range_of pair.0, pair.1)) (spec.read_separation toks.old.at toks.old.kinds) result toks.new }
{
    toks.expect_word("and")?;
    toks.expect_word("separation")?;
    let gap = range(toks)?;
    let tokens = tokens_or_characters(toks)?;
    Ok((gap, tokens))
}

fn tokens_or_characters(toks: &mut Cursor<'_>) -> Result<bool, Refused>
    ensures { Gives (λ tokens. tokens) (spec.tokens_or_characters toks.old.at toks.old.kinds) result toks.new }
{
    if toks.eat_word("tokens") {
        return Ok(true);
    }
    toks.expect_word("characters")?;
    Ok(false)
}

fn output(alloc: Global, toks: &mut Cursor<'_>) -> Result<Ident, Refused>
    ensures { Gives name_of (spec.read_output toks.old.at toks.old.kinds) result toks.new }
{
    toks.expect_word("as")?;
    toks.name(alloc)
}

/// A pattern or a dictionary.
pub fn sought(alloc: Global, toks: &mut Cursor<'_>) -> Result<Spec, Refused>
    ensures { Gives spec_of (spec.read_sought toks.old.at toks.old.kinds) result toks.new }
{
    if toks.begins_pattern() {
        return pattern(alloc, toks);
    }
    dictionary(alloc, toks)
}

fn pattern(alloc: Global, toks: &mut Cursor<'_>) -> Result<Spec, Refused>
    ensures { Gives spec_of (spec.read_pattern toks.old.at toks.old.kinds) result toks.new }
{
    toks.expect_word("regex")?;
    let pattern = toks.pattern(alloc)?;
    toks.expect_word("on")?;
    let bound = bound(toks)?;
    let on = column(alloc, toks)?;
    let groups = groups(alloc, toks)?;
    Ok(Spec::Regex {
        pattern,
        bound,
        on,
        groups,
    })
}

/// The range of tokens that a match takes, if one is written.
fn bound(toks: &mut Cursor<'_>) -> Result<Option<Range>, Refused>
    ensures { Gives (λ o. option_map range_of o) (spec.read_bound toks.old.at toks.old.kinds) result toks.new }
{
    if !begins_range(toks) {
        return Ok(None);
    }
    let range = range(toks)?;
    token_or_tokens(toks)?;
    toks.expect_word("in")?;
    Ok(Some(range))
}

fn begins_range(toks: &Cursor<'_>) -> bool
    ensures { result ≡ spec.begins_range toks.now.kinds }
{
    toks.sees_word("between") || toks.sees_int()
}

fn token_or_tokens(toks: &mut Cursor<'_>) -> Result<(), Refused>
    ensures { Gives (λ u. u) (spec.token_or_tokens toks.old.at toks.old.kinds) result toks.new }
{
    if toks.eat_word("token") {
        return Ok(());
    }
    toks.expect_word("tokens")
}

/// The groups that a match gives: one that is only named, or numbered ones.
fn groups(alloc: Global, toks: &mut Cursor<'_>) -> Result<Vec<(Option<Number>, Ident)>, Refused>
    ensures { Gives (λ groups. map group_of groups.items) (spec.read_groups toks.old.at toks.old.kinds) result toks.new }
{
    if toks.eat_word("as") {
        let name = toks.name(alloc)?;
        return Ok(only(alloc, name)?);
    }
    toks.expect_word("return")?;
    all_numbered(alloc, toks)
}

fn only(alloc: Global, name: Ident) -> Result<Vec<(Option<Number>, Ident)>, OutOfMemory>
    ensures { IfOk result (λ groups. map group_of groups.items ≡ spec.unnumbered (name_of name)) }
{
    let mut groups = Vec::new(alloc);
    groups.push((None, name))?;
    Ok(groups)
}

/// Numbered groups with `and` between them.
fn all_numbered(
    alloc: Global,
    toks: &mut Cursor<'_>,
) -> Result<Vec<(Option<Number>, Ident)>, Refused>
    ensures { Gives (λ groups. map group_of groups.items) (separated (sees "and") spec.read_numbered toks.old.at toks.old.kinds) result toks.new }
{
    let mut groups = Vec::new(alloc);
    for _turn in 0..toks.left() + 1 {
        let group = numbered(alloc, toks)?;
        groups.push(group)?;
        if !toks.eat_word("and") {
            return Ok(groups);
        }
    }
    Err(Failure::Fault(NoTree))
}

fn numbered(alloc: Global, toks: &mut Cursor<'_>) -> Result<(Option<Number>, Ident), Refused>
    ensures { Gives group_of (spec.read_numbered toks.old.at toks.old.kinds) result toks.new }
{
    toks.expect_word("group")?;
    let number = toks.int()?;
    let name = output(alloc, toks)?;
    Ok((Some(number), name))
}

fn dictionary(alloc: Global, toks: &mut Cursor<'_>) -> Result<Spec, Refused>
    ensures { Gives spec_of (spec.read_dict toks.old.at toks.old.kinds) result toks.new }
{
    toks.expect_word("dictionary")?;
    let dict = dictionary_name(alloc, toks)?;
    let flag = flag(toks)?;
    toks.expect_word("on")?;
    let on = column(alloc, toks)?;
    let name = output(alloc, toks)?;
    Ok(Spec::Dict {
        dict,
        flag,
        on,
        name,
    })
}

/// A dictionary's name: a name or a string.
fn dictionary_name(alloc: Global, toks: &mut Cursor<'_>) -> Result<Ident, Refused>
    ensures { Gives name_of (spec.a_dictionary toks.old.at toks.old.kinds) result toks.new }
{
    if toks.sees_string() {
        return toks.string(alloc);
    }
    toks.name(alloc)
}

fn flag(toks: &mut Cursor<'_>) -> Result<Option<Flag>, Refused>
    ensures { Gives (λ o. option_map flag_of o) (spec.read_flag toks.old.at toks.old.kinds) result toks.new }
{
    if !toks.eat_word("with") {
        return Ok(None);
    }
    toks.expect_word("flags")?;
    let flag = a_flag(toks)?;
    Ok(Some(flag))
}

fn a_flag(toks: &mut Cursor<'_>) -> Result<Flag, Refused>
    ensures { Gives flag_of (spec.a_flag toks.old.at toks.old.kinds) result toks.new }
{
    match toks.take() {
        Some(TokKind::Str(text)) => match flag_named(text.as_str()) {
            Some(flag) => Ok(flag),
            None => Err(Failure::Fault(NoTree)),
        },
        _ => Err(Failure::Fault(NoTree)),
    }
}

fn flag_named(text: &str) -> Option<Flag>
    ensures { option_map flag_of result ≡ spec.flag_named text.now }
{
    if text == "Exact" {
        return Some(Flag::Exact);
    }
    if text == "IgnoreCase" {
        return Some(Flag::IgnoreCase);
    }
    None
}
