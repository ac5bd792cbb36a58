ghost use Rattle.std.specs.Prelude.{◌≡◌, ◌≤◌, OnErr, OnOk, IfSome, is_some, length};
ghost use Rattle.aql_io.specs.Causes.{Rose};
ghost use Rattle.line_parts.specs.Fronts.{AppendsFront};

use aql_io::{Failed, Sink};
use line_parts::{Pending, put, put_all};

/// Writes `piece` whole and hands on all that the sink holds.
pub(crate) fn put_and_flush<O: Sink>(out: &mut O, piece: &[u8]) -> Result<(), Failed>
    ensures bytes { AppendsFront (O.held out.old) (O.held out.new) result piece.now }
    ensures told { is_some (O.held out.new) ≡ is_some (O.held out.old) }
    ensures flushed { OnOk result (IfSome (O.held out.new) (λ bytes. O.flushed out.new ≡ length bytes)) }
    ensures stands { OnOk result (O.faults out.new ≡ O.faults out.old) }
    ensures later { O.faults out.old ≤ O.faults out.new }
    ensures cause { OnErr result (Rose (O.faults out.old) (O.faults out.new)) }
{
    match put(out, piece) {
        Ok(()) => out.flush(),
        Err(failed) => Err(failed),
    }
}

/// Writes all that is pending and hands on all that the sink holds.
pub(crate) fn put_all_and_flush<O: Sink>(out: &mut O, pending: &Pending) -> Result<(), Failed>
    ensures bytes { AppendsFront (O.held out.old) (O.held out.new) result pending.now }
    ensures told { is_some (O.held out.new) ≡ is_some (O.held out.old) }
    ensures flushed { OnOk result (IfSome (O.held out.new) (λ bytes. O.flushed out.new ≡ length bytes)) }
    ensures stands { OnOk result (O.faults out.new ≡ O.faults out.old) }
    ensures later { O.faults out.old ≤ O.faults out.new }
    ensures cause { OnErr result (Rose (O.faults out.old) (O.faults out.new)) }
{
    match put_all(out, pending) {
        Ok(()) => out.flush(),
        Err(failed) => Err(failed),
    }
}
