ghost use Rattle.std.specs.Prelude.{◌≡◌, ◌≤◌, OnErr, OnOk, is_some};
ghost use Rattle.aql_io.specs.Causes.{Rose};
ghost use Rattle.demo_corpus.specs.Prefixes.{AppendsFront};

use aql_io::{Failed, Sink};

/// Writes `piece` whole, in as many calls as the sink wants; after a failed call a beginning of it is
/// written, and nothing more is tried.
pub(crate) fn put<O: Sink>(out: &mut O, piece: &[u8]) -> Result<(), Failed>
    ensures bytes { AppendsFront (O.held out.old) (O.held out.new) result piece.now }
    ensures told { is_some (O.held out.new) ≡ is_some (O.held out.old) }
    ensures flushed { O.flushed out.new ≡ O.flushed out.old }
    ensures stands { OnOk result (O.faults out.new ≡ O.faults out.old) }
    ensures later { O.faults out.old ≤ O.faults out.new }
    ensures cause { OnErr result (Rose (O.faults out.old) (O.faults out.new)) }
{
    let mut written = 0usize;
    while written < piece.len() {
        let taken = out.write(&piece[written..])?;
        written += taken;
    }
    Ok(())
}
