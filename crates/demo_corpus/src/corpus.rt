ghost use Rattle.std.specs.Prelude.{◌≡◌, ◌++◌, ◌∷◌, [], MatchResult, OnOk, is_some};
ghost use Rattle.demo_corpus.specs.Corpora.{corpus_of, generated_corpus};
ghost use Rattle.demo_corpus.specs.Prefixes.{GainsAllBut, GainsFront, AppendsFront, HasWriteCause};
ghost use Rattle.demo_corpus.specs.Generator.{generated};

use crate::generator::gen_document;
use crate::line::append_line;
use crate::put::put;
use aql_io::{Failed, Sink};
use span_token::{Failure, OutOfMemory};
use std::alloc::Global;
use std::mem;

/// How many bytes are held before they are written.
const PIECE: usize = 65_536;

/// Writes the first `count` documents of the generator to `out`, as the lines of a corpus.
///
/// Nothing is flushed. After a refusal a beginning of the corpus is written: `Fault` comes where a write
/// failed. It holds one piece of the corpus at a time.
///
/// Meaning: `generated_corpus`, `specs/Corpora.antt`; docs/FORMATS.md, "Generated corpora".
pub fn write_corpus<O: Sink>(alloc: Global, count: u32, out: &mut O) -> Result<(), Failure<Failed>>
    ensures bytes { AppendsFront (O.held out.old) (O.held out.new) result (generated_corpus count) }
    ensures told { is_some (O.held out.new) ≡ is_some (O.held out.old) }
    ensures flushed { O.flushed out.new ≡ O.flushed out.old }
    ensures cause { HasWriteCause (O.faults out.old) (O.faults out.new) result }
{
    let mut pending = Vec::new(alloc);
    'documents: for i in 0..count {
        write_next(alloc, i, &mut pending, out)?;
    }
    send(&mut pending, out)
}

/// Puts the line of document `i` after what is pending, and writes that where it is a piece.
fn write_next<O: Sink>(
    alloc: Global,
    i: u32,
    pending: &mut Vec<u8>,
    out: &mut O,
) -> Result<(), Failure<Failed>>
    ensures bytes { MatchResult result
        (λ _. GainsAllBut pending.new.items (O.held out.old) (O.held out.new) (pending.old.items ++ corpus_of (generated i ∷ [])))
        (λ _. GainsFront (O.held out.old) (O.held out.new) (pending.old.items ++ corpus_of (generated i ∷ []))) }
    ensures told { is_some (O.held out.new) ≡ is_some (O.held out.old) }
    ensures flushed { O.flushed out.new ≡ O.flushed out.old }
    ensures cause { HasWriteCause (O.faults out.old) (O.faults out.new) result }
{
    append_generated(alloc, i, pending)?;
    if pending.len() < PIECE {
        return Ok(());
    }
    send(pending, out)
}

/// Puts the line of document `i` after what is pending.
fn append_generated(alloc: Global, i: u32, pending: &mut Vec<u8>) -> Result<(), OutOfMemory>
    ensures { OnOk result (pending.new.items ≡ pending.old.items ++ corpus_of (generated i ∷ [])) }
{
    let document = gen_document(alloc, i)?;
    let line = mem::replace(pending, Vec::new(alloc));
    *pending = append_line(line, &document)?;
    Ok(())
}

/// Writes what is pending.
fn send<O: Sink>(pending: &mut Vec<u8>, out: &mut O) -> Result<(), Failure<Failed>>
    ensures bytes { AppendsFront (O.held out.old) (O.held out.new) result pending.old.items }
    ensures cleared { OnOk result (pending.new.items ≡ []) }
    ensures told { is_some (O.held out.new) ≡ is_some (O.held out.old) }
    ensures flushed { O.flushed out.new ≡ O.flushed out.old }
    ensures cause { HasWriteCause (O.faults out.old) (O.faults out.new) result }
{
    match put(out, pending) {
        Ok(()) => {
            pending.clear();
            Ok(())
        }
        Err(failed) => Err(Failure::Fault(failed)),
    }
}
