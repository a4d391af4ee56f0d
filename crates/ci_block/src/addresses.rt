//! Lists of leaders.

use std::marker::Model;

/// The addresses at which the blocks of a file begin.
#[derive(Drop)]
pub struct Leaders {
    pub(crate) addresses: Vec<u32>,
}

impl Model for Leaders {
    ghost use Rattle.std.specs.Prelude.{ℕ, List};

    ghost Value = { List ℕ };

    ghost view = { λ l. l.addresses.items };
}

impl Leaders {
    ghost use Rattle.std.specs.Prelude.{◌≡◌};

    /// The addresses, in ascending order.
    pub fn all(&self) -> &[u32]
        ensures { result.now ≡ self.now }
    {
        &self.addresses
    }
}
