ghost use Rattle.span_token.specs.Refusals.{OfFault, Renames};

use std::alloc::{AllocError, AllocFailed};
use std::fmt;

/// Want of memory: the one answer that any call that allocates may give.
#[derive(Clone, Copy, Debug, PartialEq, Eq)]
pub struct OutOfMemory;

impl fmt::Display for OutOfMemory {
    fn fmt<W: fmt::Write>(&self, f: &mut fmt::Formatter<W>) -> fmt::Result {
        write!(f, "out of memory")
    }
}

impl std::error::Error for OutOfMemory {}

impl From<AllocError> for OutOfMemory {
    fn from(_refused: AllocError) -> OutOfMemory {
        OutOfMemory
    }
}

impl<T: Drop> From<AllocFailed<T>> for OutOfMemory {
    fn from(_refused: AllocFailed<T>) -> OutOfMemory {
        OutOfMemory
    }
}

/// Why a call with causes of its own refused: want of memory, or the fault that it names.
#[derive(Debug, Drop, PartialEq, Eq)]
pub enum Failure<F> {
    OutOfMemory,
    Fault(F),
}

impl<F> Failure<F> {
    /// The same refusal, with the fault that `rename` makes of this one's.
    pub fn renamed<G, R: FnOnce(F) -> G>(self, rename: R) -> Failure<G>
        requires callable { OfFault (R.pre rename) self }
        ensures renamed { Renames (R.post rename) self result }
    {
        match self {
            Failure::OutOfMemory => Failure::OutOfMemory,
            Failure::Fault(fault) => Failure::Fault(rename(fault)),
        }
    }
}

impl<F> From<OutOfMemory> for Failure<F> {
    ghost use Rattle.std.specs.Prelude.{◌≡◌};
    ghost use Rattle.span_token.specs.declared.refusal.Failure.TheVariants.{OutOfMemory as WantOfMemory};

    ghost from_gives = { λ _ failure. failure ≡ WantOfMemory };

    fn from(_refused: OutOfMemory) -> Failure<F> {
        Failure::OutOfMemory
    }
}

impl<F> From<AllocError> for Failure<F> {
    ghost use Rattle.std.specs.Prelude.{◌≡◌};
    ghost use Rattle.span_token.specs.declared.refusal.Failure.TheVariants.{OutOfMemory as WantOfMemory};

    ghost from_gives = { λ _ failure. failure ≡ WantOfMemory };

    fn from(_refused: AllocError) -> Failure<F> {
        Failure::OutOfMemory
    }
}

impl<T: Drop, F> From<AllocFailed<T>> for Failure<F> {
    ghost use Rattle.std.specs.Prelude.{◌≡◌};
    ghost use Rattle.span_token.specs.declared.refusal.Failure.TheVariants.{OutOfMemory as WantOfMemory};

    ghost from_gives = { λ _ failure. failure ≡ WantOfMemory };

    fn from(_refused: AllocFailed<T>) -> Failure<F> {
        Failure::OutOfMemory
    }
}
