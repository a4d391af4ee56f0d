//! The environment calls (RISC-V Unprivileged ISA 20191213, section 2.8; their numbers and answers are those of Linux).
#![tactic(auto, unfolding(crate::proofs::StateViews::views))]

ghost use Rattle.std.specs.Prelude.{◌≡◌};
ghost use Rattle.ci_machine.specs.Calls.{is_output};

use crate::state::{Call, State};
use std::alloc::AllocError;

/// The answer where the file number is not one that is open.
const BAD_FILE: u32 = 0xfffffff7;

/// The answer where a byte is not mapped.
const BAD_ADDRESS: u32 = 0xfffffff2;

/// The answer where there is no such call.
const NO_SUCH_CALL: u32 = 0xffffffda;

/// Whether the file number is one that takes the output.
fn is_output(file: u32) -> bool
    ensures { result ≡ is_output file }
{
    file == 1 || file == 2
}

impl State {
    ghost use Rattle.std.specs.Prelude.{◌≡◌, OnOk, OnErr, IfOk, min, ◌==◌};
    ghost use Rattle.ci_machine.specs.Calls.{answering, heap_call, read_call};
    ghost use Rattle.ci_machine.specs.Calls.{range_at, write_call, written_from};
    ghost use Rattle.ci_machine.specs.Cores.{register};
    ghost use Rattle.ci_machine.specs.States.{called, end_of, state_of, program_of};

    /// Gives the answer of a call.
    fn answer(&mut self, value: u32)
        ensures state { state_of self.new
            ≡ record (state_of self.old) { core = answering (state_of self.old).core value } }
        ensures program { program_of self.new ≡ program_of self.old }
    {
        self.registers[10] = value;
    }

    /// Reads from the input.
    fn read_call(&mut self)
        ensures state { state_of self.new
            ≡ record (state_of self.old) { core = read_call (state_of self.old).core } }
        ensures program { program_of self.new ≡ program_of self.old }
    {
        if self.registers[10] != 0 {
            self.answer(BAD_FILE);
            return;
        }
        let address = self.registers[11];
        let left = self.input.len() - self.read;
        let count = left.min(self.registers[12] as usize);
        if self.memory.is_range(address, count as u32) {
            self.memory
                .write(address, &self.input[self.read..self.read + count]);
            self.read += count;
            self.answer(count as u32);
        } else {
            self.answer(BAD_ADDRESS);
        }
    }

    /// Writes to the output. Nothing changes where there is no memory.
    fn write_call(&mut self) -> Result<(), AllocError>
        ensures state { OnOk result (state_of self.new
            ≡ record (state_of self.old) { core = write_call (state_of self.old).core }) }
        ensures refused { OnErr result (state_of self.new ≡ state_of self.old) }
        ensures program { program_of self.new ≡ program_of self.old }
    {
        if is_output(self.registers[10]) {
            return self.write_from();
        }
        self.answer(BAD_FILE);
        Ok(())
    }

    /// Writes bytes of memory to the output. Nothing changes where there is no memory.
    fn write_from(&mut self) -> Result<(), AllocError>
        ensures state { OnOk result (let core = (state_of self.old).core in
            state_of self.new ≡ record (state_of self.old) {
              core = written_from core (range_at core.memory (register core 11) (register core 12));
            }) }
        ensures refused { OnErr result (state_of self.new ≡ state_of self.old) }
        ensures program { program_of self.new ≡ program_of self.old }
    {
        let address = self.registers[11];
        let count = self.registers[12];
        if !self.memory.is_range(address, count) {
            self.answer(BAD_ADDRESS);
            return Ok(());
        }
        self.output.try_reserve(count as usize)?;
        self.memory.append_to(&mut self.output, address, count);
        self.answer(count);
        Ok(())
    }

    /// Sets the end of the heap.
    fn heap_call(&mut self)
        ensures state { state_of self.new
            ≡ record (state_of self.old) { core = heap_call (program_of self.old) (state_of self.old).core } }
        ensures program { program_of self.new ≡ program_of self.old }
    {
        let end = self.registers[10];
        if self.memory.may_end_at(end) {
            self.memory.set_heap_end(end);
        }
        let end = self.memory.heap_end();
        self.answer(end);
    }

    /// The environment call that the registers ask for: its number in x17, its arguments in x10, x11 and x12, its
    /// answer in x10. Only a write takes memory, for the output. Nothing changes where there is none.
    pub fn environment_call(&mut self) -> Result<Call, AllocError>
        ensures state { OnOk result (state_of self.new
            ≡ record (state_of self.old) { core = (called (program_of self.old) (state_of self.old).core).state }) }
        ensures answer { IfOk result (λ answer. end_of answer
            ≡ (called (program_of self.old) (state_of self.old).core).end) }
        ensures refused { OnErr result (state_of self.new ≡ state_of self.old) }
        ensures only_writes { OnErr result (register (state_of self.old).core 17 ≡ 64) }
        ensures program { program_of self.new ≡ program_of self.old }
    {
        match self.registers[17] {
            63 => self.read_call(),
            64 => self.write_call()?,
            93 => return Ok(Call::Exit(self.registers[10])),
            214 => self.heap_call(),
            _ => self.answer(NO_SUCH_CALL),
        }
        Ok(Call::Goes)
    }
}
