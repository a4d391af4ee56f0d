//! The state of a machine.
#![tactic(auto, unfolding(crate::proofs::StateViews::views))]

ghost use Rattle.std.specs.Prelude.{◌≡◌, ◌<◌, ◌≤◌, length, slice_index};

use crate::memory::Memory;
use ci_elf::{Places, Range};
use ci_isa::{Reg, Width};

/// A byte of an access is not mapped.
#[derive(Clone, Copy, Debug, PartialEq, Eq)]
pub struct Unmapped;

/// What an environment call comes to: the run goes on, or ends with this exit code.
#[derive(Clone, Copy, PartialEq, Eq)]
pub enum Call {
    Goes,
    Exit(u32),
}

/// The place of the first hidden result among the registers.
const RESULTS: usize = 32;

/// The place of the first hidden operand.
const OPERANDS: usize = 34;

/// How many registers a state has: x0 to x31, the hidden results and the hidden operands.
pub(crate) const REGISTERS: usize = 36;

/// The state of a machine: pc, registers, memory, what is left of the input, and the output.
#[derive(Drop)]
pub struct State {
    pub(crate) pc: u32,
    /// x0 to x31, two hidden results and two hidden operands. x0 stays 0.
    pub(crate) registers: [u32; REGISTERS],
    pub(crate) memory: Memory,
    pub(crate) text: Places,
    pub(crate) input: Vec<u8>,
    /// How many bytes of the input were read.
    pub(crate) read: usize,
    pub(crate) output: Vec<u8>,
    ghost zero: { slice_index registers 0 ≡ 0 },
    ghost within: { read ≤ length input.items },
}

impl State {
    ghost use Rattle.std.specs.Prelude.{is_ok, is_some};
    ghost use Rattle.std.specs.Option.{option_map};
    ghost use Rattle.std.specs.Result.{result_ok};
    ghost use Rattle.ci_elf.specs.Executables.{IsAscending};
    ghost use Rattle.ci_machine.specs.Accesses.{number_of_bytes};
    ghost use Rattle.ci_machine.specs.Cores.{register, with_register, hidden_result, hidden_operand};
    ghost use Rattle.ci_machine.specs.Programs.{in_text};
    ghost use Rattle.ci_machine.specs.States.{after_store, bytes_of, state_of, program_of};

    /// The address of the next instruction.
    pub fn pc(&self) -> u32
        ensures { result ≡ (state_of self.now).pc }
    {
        self.pc
    }

    /// Sets the address of the next instruction.
    pub fn set_pc(&mut self, pc: u32)
        ensures state { state_of self.new ≡ record (state_of self.old) { pc = pc } }
        ensures program { program_of self.new ≡ program_of self.old }
    {
        self.pc = pc;
    }

    /// The register's value. x0 is always 0.
    pub fn register(&self, r: Reg) -> u32
        ensures { result ≡ register (state_of self.now).core r }
    {
        self.registers[r.number() as usize]
    }

    /// Sets the register. A write to x0 is dropped.
    pub fn set_register(&mut self, r: Reg, value: u32)
        ensures state { state_of self.new
            ≡ record (state_of self.old) { core = with_register (state_of self.old).core r value } }
        ensures program { program_of self.new ≡ program_of self.old }
    {
        let number = r.number() as usize;
        if number != 0 {
            self.registers[number] = value;
        }
    }

    /// The hidden result of this number: 0 for a unit's second result, 1 for its third.
    pub fn hidden(&self, n: u8) -> u32
        requires { n < 2 }
        ensures { result ≡ register (state_of self.now).core (hidden_result n) }
    {
        self.registers[RESULTS + usize::from(n)]
    }

    /// Sets the hidden result of this number.
    pub fn set_hidden(&mut self, n: u8, value: u32)
        requires { n < 2 }
        ensures state { state_of self.new
            ≡ record (state_of self.old) { core = with_register (state_of self.old).core (hidden_result n) value } }
        ensures program { program_of self.new ≡ program_of self.old }
    {
        let place = RESULTS + usize::from(n);
        self.registers[place] = value;
    }

    /// The hidden operand of this number, which a unit takes behind the three of its word.
    pub fn operand(&self, n: u8) -> u32
        requires { n < 2 }
        ensures { result ≡ register (state_of self.now).core (hidden_operand n) }
    {
        self.registers[OPERANDS + usize::from(n)]
    }

    /// Sets the hidden operand of this number.
    pub fn set_operand(&mut self, n: u8, value: u32)
        requires { n < 2 }
        ensures state { state_of self.new
            ≡ record (state_of self.old) { core = with_register (state_of self.old).core (hidden_operand n) value } }
        ensures program { program_of self.new ≡ program_of self.old }
    {
        let place = OPERANDS + usize::from(n);
        self.registers[place] = value;
    }

    /// The bytes that were written to the output.
    pub fn output(&self) -> &[u8]
        ensures { result.now ≡ (state_of self.now).core.output }
    {
        &self.output
    }

    /// The bytes that were written to the output, without a copy.
    pub fn into_output(self) -> Vec<u8>
        ensures { result.items ≡ (state_of self).core.output }
    {
        self.output
    }

    /// The ranges of the text.
    pub fn text(&self) -> &[Range]
        ensures value { result.now ≡ (program_of self.now).text }
        ensures ascending { IsAscending result.now }
    {
        self.text.ranges()
    }

    /// Whether the byte at the address is text.
    pub fn in_text(&self, address: u32) -> bool
        ensures { result ≡ in_text (program_of self.now) address }
    {
        self.text.in_text(address)
    }

    /// The number of the bytes at the address, the lowest first, where all are mapped. Addresses wrap
    /// (RISC-V Unprivileged ISA 20191213, section 2.6).
    pub fn load(&self, address: u32, width: Width) -> Result<u32, Unmapped>
        ensures { result_ok result ≡ option_map number_of_bytes (bytes_of (state_of self.now).core address width) }
    {
        self.memory.load(address, width).ok_or(Unmapped)
    }

    /// The same. A further access beside it is made faster.
    pub fn load_near(&mut self, address: u32, width: Width) -> Result<u32, Unmapped>
        ensures value { result_ok result
            ≡ option_map number_of_bytes (bytes_of (state_of self.old).core address width) }
        ensures state { state_of self.new ≡ state_of self.old }
        ensures program { program_of self.new ≡ program_of self.old }
    {
        self.memory.load_near(address, width).ok_or(Unmapped)
    }

    /// Writes the low bytes of the value at the address, the lowest first, where all are mapped. Addresses wrap
    /// (RISC-V Unprivileged ISA 20191213, section 2.6). Nothing changes where one is not.
    pub fn store(&mut self, address: u32, width: Width, value: u32) -> Result<(), Unmapped>
        ensures mapped { is_ok result ≡ is_some (bytes_of (state_of self.old).core address width) }
        ensures state { state_of self.new
            ≡ record (state_of self.old) { core = after_store (state_of self.old).core address width value } }
        ensures program { program_of self.new ≡ program_of self.old }
    {
        if self.memory.store(address, width, value) {
            Ok(())
        } else {
            Err(Unmapped)
        }
    }
}
