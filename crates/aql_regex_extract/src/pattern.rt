ghost use Rattle.std.specs.Prelude.{◌≡◌, IfOk, IfErr, OnOk, IsSome, string_bytes};
ghost use Rattle.regex.specs.Patterns.{default_config};
ghost use Rattle.regex.specs.Views.{builder_source, builder_config};
ghost use Rattle.regex.specs.Strings.{regex_source, regex_config, IsReadFromSource};
ghost use Rattle.aql_regex_extract.specs.Patterns.{tree_of, group_count_of, whole_form};
ghost use Rattle.aql_regex_extract.specs.Weight.{IsLarge};
ghost use Rattle.aql_regex_extract.specs.Faults.{IsPattern, HasCause, IsUnread};

use crate::admitted::Admitted;
use crate::weight::weigh;
use regex::{Error, Regex, RegexBuilder};
use span_token::{Failure, OutOfMemory};
use std::alloc::Global;
use std::marker::Model;

/// The most bytes of a pattern.
const MOST_BYTES: u32 = 1_000;

/// The most that the bytes of a pattern times its weight may be.
const MOST_GROWTH: u64 = 50_000;

/// A compiled pattern, which contracts see as its text. It doesn't change, and threads share it by `&`.
#[derive(Drop)]
pub struct Pattern {
    pub(crate) plain: Regex,
    pub(crate) whole: Regex,
    pub(crate) admitted: Admitted,
    groups: u32,
}

impl Model for Pattern {
    ghost use Rattle.std.specs.Prelude.{ℕ, List};

    ghost Value = { List ℕ };

    ghost use Rattle.aql_regex_extract.specs.Views.{pattern_text, IsCompiled};

    ghost view = { pattern_text };

    ghost invariant = { IsCompiled };
}

impl Pattern {
    /// The number of capture groups, without group 0.
    pub fn group_count(&self) -> u32
        ensures { result ≡ group_count_of self.now }
    {
        self.groups
    }
}

/// Why a text is no pattern here.
#[derive(Clone, Copy, Debug, PartialEq, Eq)]
pub enum PatternFault {
    /// It, or its whole-text form, isn't read by the grammar or nests deeper than 250.
    Bad,
    /// It is longer than 1,000 bytes, or its bytes times its weight are more than 50,000.
    Large { bytes: u32, weight: u64 },
}

/// The pattern that `text` stands for.
///
/// It is `Large` exactly where it is longer than 1,000 bytes, or its bytes times its weight are more
/// than 50,000, and that is looked at first. It is `Bad` exactly where it or its whole-text form
/// isn't read by the grammar of `regex`, or nests deeper than 250.
///
/// Meaning: `IsPattern` and `HasFault`, `specs/Faults.antt`; the weight, `specs/Weight.antt`.
pub fn compile_pattern(alloc: Global, text: &str) -> Result<Pattern, Failure<PatternFault>>
    ensures ok { IfOk result (λ p. p ≡ text.now) }
    ensures pattern { OnOk result (IsPattern text.now) }
    ensures fault { IfErr result (HasCause text.now) }
{
    refuse_large(alloc, text)?;
    compile(alloc, text)
}

/// The fault of a text that is large. A text of more bytes than a `u32` counts is want of memory.
fn refuse_large(alloc: Global, text: &str) -> Result<(), Failure<PatternFault>>
    ensures not_large { OnOk result (¬ (IsLarge text.now)) }
    ensures fault { IfErr result (HasCause text.now) }
{
    let Ok(bytes) = u32::try_from(text.len()) else {
        return Err(Failure::OutOfMemory);
    };
    let weight = weigh(alloc, text.as_bytes())?;
    if bytes > MOST_BYTES || u64::from(bytes) * weight > MOST_GROWTH {
        return Err(Failure::Fault(PatternFault::Large { bytes, weight }));
    }
    Ok(())
}

/// The pattern of a text that isn't large.
fn compile(alloc: Global, text: &str) -> Result<Pattern, Failure<PatternFault>>
    requires not_large { ¬ (IsLarge text.now) }
    ensures ok { IfOk result (λ p. p ≡ text.now) }
    ensures pattern { OnOk result (IsPattern text.now) }
    ensures fault { IfErr result (HasCause text.now) }
{
    let plain = build(alloc, text)?;
    let groups = groups_of(&plain, text)?;
    let form = whole_text_form(alloc, text)?;
    let whole = build(alloc, form.as_str())?;
    let admitted = Admitted::of_form(alloc, form.as_str());
    Ok(Pattern {
        plain,
        whole,
        admitted,
        groups,
    })
}

/// The number of groups of an expression, without group 0; a number past `u32` is want of memory.
fn groups_of(expression: &Regex, text: &str) -> Result<u32, OutOfMemory>
    requires source { regex_source expression.now ≡ text.now }
    requires config { regex_config expression.now ≡ default_config }
    requires read { IsReadFromSource expression.now }
    ensures { IfOk result (λ count. count ≡ group_count_of text.now) }
{
    match u32::try_from(expression.captures_len() - 1) {
        Ok(count) => Ok(count),
        Err(_) => Err(OutOfMemory),
    }
}

/// The whole-text form of a pattern, which matches where the pattern matches a text from end to end.
#[tactic(auto, unfolding(crate::specs::Patterns::whole_form))]
fn whole_text_form(alloc: Global, text: &str) -> Result<String, OutOfMemory>
    ensures { IfOk result (λ form. string_bytes form ≡ whole_form text.now) }
{
    let mut form = String::from_str(alloc, r"\A(?:")?;
    form.push_str(text)?;
    form.push_str(r")\z")?;
    Ok(form)
}

/// The expression that a text stands for. What isn't read, or nests too deep, is bad; any other
/// refusal is want of memory.
fn build(alloc: Global, text: &str) -> Result<Regex, Failure<PatternFault>>
    ensures source { IfOk result (λ r. regex_source r ≡ text.now) }
    ensures config { IfOk result (λ r. regex_config r ≡ default_config) }
    ensures read { IfOk result IsReadFromSource }
    ensures good { OnOk result (IsSome (tree_of text.now)) }
    ensures unread { IfErr result (IsUnread text.now) }
{
    match options(text).build(alloc) {
        Ok(built) => Ok(built),
        Err(Error::Syntax(_)) => Err(Failure::Fault(PatternFault::Bad)),
        Err(_) => Err(Failure::OutOfMemory),
    }
}

fn options(text: &str) -> RegexBuilder<'_>
    ensures source { builder_source result ≡ text.now }
    ensures config { builder_config result ≡ default_config }
{
    RegexBuilder::new(text).size_limit(usize::MAX)
}
