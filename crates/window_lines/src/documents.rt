//! The documents of a window, made in stretches.

ghost use Rattle.std.specs.Prelude.{◌≡◌, ◌<◌, ◌≤◌, ◌*◌, ℕ, IfOk, length, map, vec_len, slice_index_or};
ghost use Rattle.std.specs.Fork.{slice_chunk};
ghost use Rattle.corpus_json.specs.Inputs.{doc_of};
ghost use Rattle.span_token.specs.Limits.{text_limit};
ghost use Rattle.window_lines.specs.Lines.{AreShort};

use crate::answer::{document_of, lent};
use crate::stretch::{stretch, stretch_count, stretch_size};
use corpus_json::Input;
use span_token::{Document, OutOfMemory};
use std::alloc::Global;
use std::thread::{self, Threads};

/// What the threads that make documents share.
#[derive(Drop)]
struct Reading<'d> {
    alloc: Global,
    with_tokens: bool,
    size: usize,
    inputs: &'d [Input],
    ghost some: { 0 < size },
    ghost short: { AreShort inputs.now },
}

impl<'d> Reading<'d> {
    /// The documents of the stretch of number `n`.
    fn part(&self, n: usize) -> Result<Vec<Document<'d>>, OutOfMemory>
        requires begun { n * self.now.size < length self.now.inputs.now }
        ensures { IfOk result (λ docs. docs.items ≡ map doc_of (slice_chunk self.now.inputs.now self.now.size n)) }
    {
        documents_in(
            self.alloc,
            self.with_tokens,
            stretch(self.inputs, self.size, n),
        )
    }
}

/// The documents that were read, in their order, with their tokens kept or not, made in so many threads at
/// most.
pub(crate) fn documents_of<'d, R: Threads + Sync>(
    rt: &R,
    alloc: Global,
    with_tokens: bool,
    threads: usize,
    inputs: &'d [Input],
) -> Result<Vec<Document<'d>>, OutOfMemory>
    requires some { 0 < threads }
    requires short { AreShort inputs.now }
    ensures { IfOk result (λ docs. docs.items ≡ map doc_of inputs.now) }
{
    if threads == 1 {
        return documents_in(alloc, with_tokens, inputs);
    }
    let size = stretch_size(inputs.len(), threads);
    let reading = Reading {
        alloc,
        with_tokens,
        size,
        inputs,
    };
    let parts = parts_of(rt, &reading)?;
    joined(alloc, inputs, size, parts)
}

/// The documents of each stretch.
fn parts_of<'d, R: Threads + Sync>(
    rt: &R,
    reading: &Reading<'d>,
) -> Result<Vec<Result<Vec<Document<'d>>, OutOfMemory>>, OutOfMemory>
    ensures all { IfOk result (λ parts. length reading.now.inputs.now ≤ vec_len parts * reading.now.size) }
    ensures each { IfOk result (λ parts. (n : ℕ) (d : _) → n < vec_len parts →
        IfOk (slice_index_or parts.items n d) (λ docs. docs.items ≡ map doc_of (slice_chunk reading.now.inputs.now reading.now.size n))) }
{
    let count = stretch_count(reading.inputs.len(), reading.size);
    let job = |n: usize| -> Result<Vec<Document<'_>>, OutOfMemory>
        requires { n * reading.now.size < length reading.now.inputs.now }
        ensures { IfOk result (λ docs. docs.items ≡ map doc_of (slice_chunk reading.entry.now.inputs.now reading.entry.now.size n)) }
    { reading.part(n) };
    let parts = thread::map_indices(rt, reading.alloc, count, &job)?;
    Ok(parts)
}

/// The documents of all stretches, in their order.
fn joined<'d>(
    alloc: Global,
    inputs: &[Input],
    size: usize,
    parts: Vec<Result<Vec<Document<'d>>, OutOfMemory>>,
) -> Result<Vec<Document<'d>>, OutOfMemory>
    requires all { length inputs.now ≤ vec_len parts * size }
    requires each { (n : ℕ) (d : _) → n < vec_len parts →
        IfOk (slice_index_or parts.items n d) (λ docs. docs.items ≡ map doc_of (slice_chunk inputs.now size n)) }
    ensures { IfOk result (λ docs. docs.items ≡ map doc_of inputs.now) }
{
    let _ = size;
    let mut docs = Vec::with_capacity(alloc, inputs.len())?;
    for part in parts {
        let mut more = part?;
        docs.append(&mut more)?;
    }
    Ok(docs)
}

/// The documents that were read, one after another.
fn documents_in<'d>(
    alloc: Global,
    with_tokens: bool,
    inputs: &'d [Input],
) -> Result<Vec<Document<'d>>, OutOfMemory>
    requires short { AreShort inputs.now }
    ensures { IfOk result (λ docs. docs.items ≡ map doc_of inputs.now) }
{
    let mut docs = Vec::with_capacity(alloc, inputs.len())?;
    for input in inputs {
        docs.push(document_from(alloc, with_tokens, input)?)?;
    }
    Ok(docs)
}

/// The document that was read.
fn document_from(
    alloc: Global,
    with_tokens: bool,
    input: &Input,
) -> Result<Document<'_>, OutOfMemory>
    requires short { length input.now.text ≤ text_limit }
    ensures { IfOk result (λ document. document ≡ doc_of input.now) }
{
    document_of(alloc, with_tokens, lent(input))
}
