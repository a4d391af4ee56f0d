//! The machine of a list of modules that are made ready.
ghost use Rattle.std.specs.Prelude.{true, length, map, nat_lt, slice_index};
ghost use Rattle.ci_machine.specs.Extended.{IsExtended};
ghost use Rattle.ci_xemu.specs.ExtendedReadings.{extended_stands};

use ci_emu::Machine;
use ci_plan::Prepared;

/// The machine whose unit words do what these modules compute, for runs of many steps. Module k is the one at place k,
/// from 0.
#[derive(Clone, Copy)]
pub(crate) struct PreparedMachine<'a> {
    pub(crate) units: &'a [Prepared<'a>],
}

impl Machine for PreparedMachine<'_> {
    ghost meanings = { λ machine meaning. IsExtended machine.units.now meaning };

    ghost has_unit = { λ machine number. nat_lt number (length machine.units.now) };

    ghost has_hidden = { λ machine. true };

    ghost unit_cycles = { λ machine number. slice_index (map (λ m. m.cycles) machine.units.now) number };

    ghost stands = { λ machine. extended_stands machine.units.now };

    fn unit(&self, number: u8, a: u32, b: u32, c: u32, d: u32, e: u32) -> Option<(u32, u32, u32)> {
        let unit = self.units.get(number as usize)?;
        Some(unit.results(a, b, c, d, e))
    }

    fn cycles(&self, number: u8) -> u32 {
        match self.units.get(number as usize) {
            Some(unit) => unit.cycles(),
            None => 0,
        }
    }

    fn has_hidden(&self) -> bool {
        true
    }
}
