//! Which calls of an object in memory are to fail.
ghost use Rattle.std.specs.Prelude.{◌≡◌, ◌↔◌, IsTrue};
ghost use Rattle.ci_io.specs.Counts.{IsNextToFail, one_more_call};

use std::marker::Model;

/// The number of calls made, and the numbers of those that are to fail. The first call has number 1.
///
/// The number of calls stays at its last value.
#[derive(Drop)]
pub struct Calls {
    made: u64,
    failing: Vec<u64>,
}

impl Model for Calls {
    ghost use Rattle.ci_io.specs.Counts.{CallsMade};

    ghost Value = { CallsMade };

    ghost view = { λ calls. record { made = calls.made; failing = calls.failing.items } };
}

impl Calls {
    /// No call made so far, and these to fail.
    pub fn new(failing: Vec<u64>) -> Calls
        ensures { result ≡ record { made = 0; failing = failing.items } }
    {
        Calls { made: 0, failing }
    }

    /// Counts a call, and says whether it is to fail.
    pub fn is_next_to_fail(&mut self) -> bool
        ensures listed { IsTrue result ↔ IsNextToFail self.old }
        ensures counted { self.new ≡ one_more_call self.old }
    {
        self.made = self.made.saturating_add(1);
        self.failing.as_slice().contains(&self.made)
    }
}
