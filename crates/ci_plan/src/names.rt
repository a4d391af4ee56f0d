//! Where the names of a module stand.
ghost use Rattle.std.specs.Prelude.{◌≤◌, length, IfSome};
ghost use Rattle.ci_plan.specs.private.Drafts.{Draft, StandsFor};
ghost use Rattle.ci_plan.specs.private.Names.{AreHeld};

use crate::founds::Found;
use ci_verilog::{Module, Name, input_named, wire_named};

/// A module, and where the first of its wires stand.
#[derive(Clone, Copy)]
pub(crate) struct Scope<'a> {
    pub(crate) module: &'a Module,
    pub(crate) wires: &'a [Option<Found>],
}

impl Scope<'_> {
    /// Where what the name stands for is. None: it is no input and none of the first wires.
    pub(crate) fn name(&self, name: &Name) -> Option<Found>
        requires { length self.now.wires.now ≤ length self.now.module.now.wires.list }
        ensures { IfSome result (λ found. (draft : Draft) → AreHeld self.now.module.now self.now.wires.now draft
            → StandsFor self.now.module.now draft found.place found.width (λ names. names name.now)) }
    {
        if let Some(place) = input_named(self.module.is_wide(), name.as_bytes()) {
            return Some(Found {
                width: 32,
                place: place as u8,
            });
        }
        let wires = self.module.wires().as_slice();
        let k = wire_named(&wires[..self.wires.len()], name)?;
        self.wires[k]
    }
}
