ghost use Rattle.std.specs.Prelude.{◌≡◌, ◌<◌, ◌≤◌, ◌++◌, ◌%◌, ◌^◌, IfOk, OnOk, chars, encode_utf8_all, length, string_bytes};
ghost use Rattle.corpus_json.specs.Inputs.{doc_of};
ghost use Rattle.span_token.specs.Limits.{text_limit};
ghost use Rattle.demo_corpus.specs.Generator.{filled, four_digits, generated, pattern_of, placed};

use crate::sentences::sentence;
use corpus_json::Input;
use span_token::{OutOfMemory, OwnedText};
use std::alloc::Global;

/// Document `i` of the generator, from 0.
///
/// Its label is `d` and `i` in decimal. Its text is three of eight sentences, chosen by `i`, with single
/// spaces between them, and the last four digits of `i` where a sentence has a number of its own.
///
/// Meaning: `generated`, `specs/Generator.antt`; docs/FORMATS.md, "Generated corpora".
pub fn gen_document(alloc: Global, i: u32) -> Result<Input, OutOfMemory>
    ensures document { IfOk result (λ input. doc_of input ≡ generated i) }
    ensures short { IfOk result (λ input. length input.text ≤ text_limit) }
{
    let number = last_digits(alloc, i)?;
    let text = text_of(alloc, u64::from(i), &number)?;
    let label = format!(in alloc; "d{i}")?;
    Ok(Input {
        label: Some(OwnedText::from(label)),
        text: OwnedText::from(text),
    })
}

/// The last four digits of a number, with zeros in front.
fn last_digits(alloc: Global, i: u32) -> Result<String, OutOfMemory>
    ensures { IfOk result (λ digits. string_bytes digits ≡ four_digits (i % 10000)) }
{
    let last = i % 10_000;
    Ok(format!(in alloc; "{last:04}")?)
}

/// The three sentences of document `i`, with `number` in place of each `#`.
fn text_of(alloc: Global, i: u64, number: &str) -> Result<String, OutOfMemory>
    requires small { i < 2 ^ 32 }
    ensures { IfOk result (λ text. string_bytes text ≡ encode_utf8_all (filled (chars number.now) (pattern_of i))) }
{
    let mut text = String::new(alloc);
    push_filled(&mut text, sentence(i), number)?;
    text.push(' ')?;
    push_filled(&mut text, sentence(3 * i + 1), number)?;
    text.push(' ')?;
    push_filled(&mut text, sentence(5 * i + 2 + i / 8), number)?;
    Ok(text)
}

/// Puts a sentence after the text, with `number` in place of each `#`.
fn push_filled(text: &mut String, sentence: &str, number: &str) -> Result<(), OutOfMemory>
    ensures { OnOk result (string_bytes text.new ≡ string_bytes text.old ++ encode_utf8_all (filled (chars number.now) (chars sentence.now))) }
{
    'characters: for c in sentence.chars() {
        push_placed(text, c, number)?;
    }
    Ok(())
}

/// Puts what stands for one character of a sentence after the text.
fn push_placed(text: &mut String, c: char, number: &str) -> Result<(), OutOfMemory>
    ensures { OnOk result (string_bytes text.new ≡ string_bytes text.old ++ encode_utf8_all (placed (chars number.now) c)) }
{
    if c == '#' {
        text.push_str(number)?;
    } else {
        text.push(c)?;
    }
    Ok(())
}
