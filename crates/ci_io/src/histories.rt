//! The calls that were made on a shelf or on a sink, which only proofs read. They take no memory.
ghost use Rattle.std.specs.Prelude.{◌≡◌, List, [], ◌∷◌, ◌++◌};
ghost use base.Fml.{ftrue};
ghost use Rattle.ci_io.specs.private.CallCodes.{calls_code};
ghost use Rattle.ci_io.specs.CallLists.{Call};

use crate::{ShelfErr, SinkErr};
use std::marker::Model;

/// The calls that were made, the first of them first.
#[derive(Drop)]
pub(crate) struct CallHistory {
    pub ghost calls: { List Call } by { calls_code },
}

impl Model for CallHistory {
    ghost also_owns = { λ _. ftrue };
}

/// A call that was made, with its arguments and its answer.
#[derive(Clone, Copy, Drop)]
pub(crate) enum NotedCall<'a> {
    Read {
        name: &'a str,
        limit: u64,
        answer: &'a Result<Vec<u8>, ShelfErr>,
    },
    Write {
        name: &'a str,
        bytes: &'a [u8],
        outcome: &'a Result<(), ShelfErr>,
    },
    Put {
        bytes: &'a [u8],
        outcome: &'a Result<(), SinkErr>,
    },
}

impl CallHistory {
    ghost use Rattle.ci_io.specs.private.Noted.{call_of};

    /// No call.
    pub(crate) fn new() -> CallHistory
        ensures { result.calls ≡ [] }
    {
        CallHistory {}
    }

    /// One more call.
    #[inline(always)]
    pub(crate) fn then(&self, _call: &NotedCall<'_>) -> CallHistory
        ensures { result.calls ≡ self.now.calls ++ call_of _call.now ∷ [] }
    {
        CallHistory {}
    }
}
