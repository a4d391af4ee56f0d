//! Which byte of the text an instruction touches first.
#![tactic(auto, unfolding(crate::proofs::StateViews::views))]

use crate::state::State;
use ci_isa::Width;

impl State {
    ghost use Rattle.std.specs.Prelude.{◌≡◌, ◌-◌, ◌&&◌, ◌||◌, find, nat_lt};
    ghost use Rattle.ci_isa.specs.Effects.{width_bytes};
    ghost use Rattle.ci_machine.specs.Accesses.{addresses};
    ghost use Rattle.ci_machine.specs.Calls.{may_end_at, read_length};
    ghost use Rattle.ci_machine.specs.Cores.{register};
    ghost use Rattle.ci_machine.specs.Touches.{may_change_below, may_move_heap_below, moved_by_call, moved_range};
    ghost use Rattle.ci_machine.specs.Programs.{in_text};
    ghost use Rattle.ci_machine.specs.States.{state_of, program_of};

    /// The first byte of text among so many bytes from an address on. Addresses wrap.
    fn first_in_text(&self, address: u32, count: u32) -> Option<u32>
        ensures { result ≡ find (in_text (program_of self.now)) (addresses count address) }
    {
        for i in 0..count {
            let place = address.wrapping_add(i);
            if self.in_text(place) {
                return Some(place);
            }
        }
        None
    }

    /// The first byte of text that an access of this width at the address moves, in the order of the access, also where
    /// it ends the run.
    pub fn touched_by_access(&self, address: u32, width: Width) -> Option<u32>
        ensures { result ≡ find (in_text (program_of self.now)) (addresses (width_bytes width) address) }
    {
        self.first_in_text(address, width.bytes())
    }

    /// The first byte of text that the environment call that the registers ask for moves. One that answers a fault
    /// moves none.
    pub fn touched_by_call(&self) -> Option<u32>
        ensures { result ≡ find (in_text (program_of self.now)) (moved_by_call (state_of self.now).core) }
    {
        let file = self.registers[10];
        match self.registers[17] {
            63 if file == 0 => self.touched_by_move(self.read_length()),
            64 if file == 1 || file == 2 => self.touched_by_move(self.registers[12]),
            _ => None,
        }
    }

    /// The first byte of text among so many from the address in x11 on, where they are all mapped.
    fn touched_by_move(&self, count: u32) -> Option<u32>
        ensures { result ≡ find (in_text (program_of self.now)) (moved_range (state_of self.now).core count) }
    {
        let address = self.registers[11];
        if !self.memory.is_range(address, count) {
            return None;
        }
        self.first_in_text(address, count)
    }

    /// Whether the environment call that the registers ask for may change bytes below this address: each read may, and
    /// so may a call that sets the end of the heap, where that lies below the address before or behind the call.
    pub fn may_change_below(&self, address: u64) -> bool
        ensures { result ≡ may_change_below (program_of self.now) address (state_of self.now).core }
    {
        match self.registers[17] {
            63 => true,
            214 => self.may_move_heap_below(address),
            _ => false,
        }
    }

    /// Whether the heap ends below this address, or would where the call asks for.
    fn may_move_heap_below(&self, address: u64) -> bool
        ensures { result ≡ may_move_heap_below (program_of self.now) address (state_of self.now).core }
    {
        let asked = self.registers[10];
        u64::from(self.memory.heap_end()) < address
            || self.may_end_at(asked) && u64::from(asked) < address
    }

    /// Whether the heap may end there.
    fn may_end_at(&self, end: u32) -> bool
        ensures { result ≡ may_end_at (program_of self.now) end }
    {
        self.memory.may_end_at(end)
    }

    /// How many bytes a read gives: those that are wanted, or those that are left.
    fn read_length(&self) -> u32
        ensures { result ≡ read_length (state_of self.now).core }
    {
        let left = self.input.len() - self.read;
        left.min(self.registers[12] as usize) as u32
    }
}
