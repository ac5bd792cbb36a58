ghost use Rattle.std.specs.Prelude.{◌≡◌, ◌≤◌, OnErr, OnOk, is_some};
ghost use Rattle.aql_io.specs.Causes.{Rose};
ghost use Rattle.line_parts.specs.Fronts.{AppendsFront};
ghost use Rattle.line_parts.specs.Pending.{texts_of};

use crate::pending::Pending;
use aql_io::{Failed, Sink};

/// Writes `piece` whole, in as many calls as the sink wants; after a failed call a prefix of it is written, and nothing more
/// is tried.
pub fn put<O: Sink>(out: &mut O, piece: &[u8]) -> Result<(), Failed>
    ensures bytes { AppendsFront (O.held out.old) (O.held out.new) result piece.now }
    ensures told { is_some (O.held out.new) ≡ is_some (O.held out.old) }
    ensures flushed { O.flushed out.new ≡ O.flushed out.old }
    ensures stands { OnOk result (O.faults out.new ≡ O.faults out.old) }
    ensures later { O.faults out.old ≤ O.faults out.new }
    ensures cause { OnErr result (Rose (O.faults out.old) (O.faults out.new)) }
{
    let mut written = 0usize;
    while written < piece.len() {
        let taken = out.write(&piece[written..])?;
        written += taken;
    }
    Ok(())
}

/// Writes all that is pending, one text after another, as `put` does.
pub fn put_all<O: Sink>(out: &mut O, pending: &Pending) -> Result<(), Failed>
    ensures bytes { AppendsFront (O.held out.old) (O.held out.new) result pending.now }
    ensures told { is_some (O.held out.new) ≡ is_some (O.held out.old) }
    ensures flushed { O.flushed out.new ≡ O.flushed out.old }
    ensures stands { OnOk result (O.faults out.new ≡ O.faults out.old) }
    ensures later { O.faults out.old ≤ O.faults out.new }
    ensures cause { OnErr result (Rose (O.faults out.old) (O.faults out.new)) }
{
    let texts = pending.texts();
    put_texts(out, texts.whole)?;
    put(out, texts.last)
}

/// Writes texts, one after another.
fn put_texts<O: Sink>(out: &mut O, texts: &[Vec<u8>]) -> Result<(), Failed>
    ensures bytes { AppendsFront (O.held out.old) (O.held out.new) result (texts_of texts.now) }
    ensures told { is_some (O.held out.new) ≡ is_some (O.held out.old) }
    ensures flushed { O.flushed out.new ≡ O.flushed out.old }
    ensures stands { OnOk result (O.faults out.new ≡ O.faults out.old) }
    ensures later { O.faults out.old ≤ O.faults out.new }
    ensures cause { OnErr result (Rose (O.faults out.old) (O.faults out.new)) }
{
    for text in texts {
        put(out, text.as_slice())?;
    }
    Ok(())
}
