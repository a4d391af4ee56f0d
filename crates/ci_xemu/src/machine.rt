//! The machine of a list of modules: its units, and that it has hidden registers.
ghost use Rattle.std.specs.Prelude.{true, length, map, nat_lt, slice_index};
ghost use Rattle.ci_machine.specs.Extended.{IsExtended};
ghost use Rattle.ci_xemu.specs.ExtendedReadings.{extended_stands};

use ci_emu::Machine;
use ci_verilog::{Module, eval};

/// The machine whose unit words do what these modules compute. Module k is the one at place k, from 0.
#[derive(Clone, Copy)]
pub(crate) struct ExtendedMachine<'a> {
    pub(crate) modules: &'a [Module],
}

impl Machine for ExtendedMachine<'_> {
    ghost meanings = { λ machine meaning. IsExtended machine.modules.now meaning };

    ghost has_unit = { λ machine number. nat_lt number (length machine.modules.now) };

    ghost has_hidden = { λ machine. true };

    ghost unit_cycles = { λ machine number. slice_index (map (λ m. m.cycles) machine.modules.now) number };

    ghost stands = { λ machine. extended_stands machine.modules.now };

    fn unit(&self, number: u8, a: u32, b: u32, c: u32, d: u32, e: u32) -> Option<(u32, u32, u32)> {
        let module = self.modules.get(number as usize)?;
        prove!(module.wires().len() <= 2048);
        Some(eval(module, a, b, c, d, e))
    }

    fn cycles(&self, number: u8) -> u32 {
        match self.modules.get(number as usize) {
            Some(module) => module.cycles(),
            None => 0,
        }
    }

    fn has_hidden(&self) -> bool {
        true
    }
}
