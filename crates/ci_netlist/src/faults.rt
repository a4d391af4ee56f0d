//! Why bytes are no text of netlists.
use ci_reading::Stop;
use std::alloc::{AllocError, AllocFailed};

/// Why bytes are no text of netlists.
#[derive(Debug, Drop, thiserror::Error)]
pub enum GateFault {
    /// So many bytes stand before the first one with which no text goes on. Where the bytes are the beginning of a text
    /// and end too early, it is their number.
    #[error("no text of netlists from byte {0} on")]
    Bad(u32),
    /// Memory ran out.
    #[error("out of memory")]
    NoMemory,
}

/// Why nothing was read.
#[derive(Drop)]
pub(crate) enum Failure {
    /// With so many bytes left, of which the first is bad. With none left the text ends too early.
    Stopped(usize),
    NoMemory,
}

impl From<Stop> for Failure {
    ghost use Rattle.std.specs.Prelude.{◌≡◌};
    ghost use Rattle.ci_netlist.specs.declared.faults.Failure.TheVariants.{Stopped};

    ghost from_gives = { λ stop e. e ≡ Stopped stop.left };

    fn from(stop: Stop) -> Self {
        Failure::Stopped(stop.left)
    }
}

impl From<AllocError> for Failure {
    ghost use Rattle.std.specs.Prelude.{◌≡◌};
    ghost use Rattle.ci_netlist.specs.declared.faults.Failure.TheVariants.{NoMemory};

    ghost from_gives = { λ _ e. e ≡ NoMemory };

    fn from(_: AllocError) -> Self {
        Failure::NoMemory
    }
}

impl<T: Drop> From<AllocFailed<T>> for Failure {
    ghost use Rattle.std.specs.Prelude.{◌≡◌};
    ghost use Rattle.ci_netlist.specs.declared.faults.Failure.TheVariants.{NoMemory};

    ghost from_gives = { λ _ e. e ≡ NoMemory };

    fn from(_: AllocFailed<T>) -> Self {
        Failure::NoMemory
    }
}
