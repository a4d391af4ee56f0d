//! Why a text spells no log book.
ghost use Rattle.std.specs.Prelude.{◌≡◌, length, false};

use std::alloc::{AllocError, AllocFailed};

/// Why bytes spell no log book. Offsets are in bytes, from the text's first.
#[derive(Debug, Drop, thiserror::Error)]
pub enum LogFault {
    /// The text differs from the first line of each version, newline included, in a byte that is
    /// there.
    #[error("no log book of version 1 or 2")]
    BadHeader,
    /// The byte at the offset is the first with which no book goes on, and none of `Trailing`'s. In version 2 a byte is
    /// so for either half, also for a filling half that isn't 0.
    #[error("no log book has this byte: {0}")]
    BadItem(u32),
    /// The text is the beginning of a book and ends too early.
    #[error("the text ends too early")]
    Unfinished,
    /// At the offset stands a byte other than a newline directly behind a whole tree, its filling half included, or the
    /// first byte behind the finish.
    #[error("a byte behind the end: {0}")]
    Trailing(u32),
    /// Memory ran out.
    #[error("out of memory")]
    NoMemory,
}

impl From<AllocError> for LogFault {
    ghost use Rattle.std.specs.Prelude.{◌≡◌};
    ghost use Rattle.ci_log.specs.declared.faults.LogFault.TheVariants.{NoMemory};

    ghost from_gives = { λ _ e. e ≡ NoMemory };

    fn from(_: AllocError) -> Self {
        LogFault::NoMemory
    }
}

/// Where reading stopped.
#[derive(Clone, Copy)]
pub(crate) struct Stop {
    /// How many bytes are left, the first of which is bad. With none left the text ends too early.
    pub left: usize,
    /// Whether a whole tree stands directly before them, so that a newline is due.
    pub behind_tree: bool,
}

/// Why nothing was read.
#[derive(Drop)]
pub(crate) enum Failure {
    Stopped(Stop),
    NoMemory,
}

/// A stop before these bytes.
pub(crate) fn stopped(rest: &[u8]) -> Failure
    ensures { result ≡ Failure.Stopped (record { left = length rest.now; behind_tree = false }) }
{
    Failure::Stopped(Stop {
        left: rest.len(),
        behind_tree: false,
    })
}

impl From<ci_reading::Stop> for Failure {
    ghost use Rattle.std.specs.Prelude.{◌≡◌, false};
    ghost use Rattle.ci_log.specs.declared.faults.Failure.TheVariants.{Stopped};

    ghost from_gives = { λ stop e. e ≡ Stopped (record { left = stop.left; behind_tree = false }) };

    fn from(stop: ci_reading::Stop) -> Self {
        Failure::Stopped(Stop {
            left: stop.left,
            behind_tree: false,
        })
    }
}

impl From<AllocError> for Failure {
    ghost use Rattle.std.specs.Prelude.{◌≡◌};
    ghost use Rattle.ci_log.specs.declared.faults.Failure.TheVariants.{NoMemory};

    ghost from_gives = { λ _ e. e ≡ NoMemory };

    fn from(_: AllocError) -> Self {
        Failure::NoMemory
    }
}

impl<T: Drop> From<AllocFailed<T>> for Failure {
    ghost use Rattle.std.specs.Prelude.{◌≡◌};
    ghost use Rattle.ci_log.specs.declared.faults.Failure.TheVariants.{NoMemory};

    ghost from_gives = { λ _ e. e ≡ NoMemory };

    fn from(_: AllocFailed<T>) -> Self {
        Failure::NoMemory
    }
}
