//! A machine that runs a file of three segments: accesses at the edges of what is mapped, and environment calls.
ghost use Rattle.std.specs.Prelude.{◌≡◌, ◌<◌};

use crate::common::file_of;
use ci_elf::{Range, read};
use ci_isa::{Reg, Width};
use ci_machine::{Call, State, Unmapped};
use std::alloc::{AllocError, Global};
use std::process::Abort;
use std::test::Fail;

// Files and tables are the answers of functions, so that the proof of a test looks at none of them, and states are let
// go by calls of `drop`.

/// A file with text of two words at 10000, eight bytes of which four come from the file at 10008, and two bytes at
/// 20001.
fn file() -> &'static [u32] {
    &[
        // The file header, with the entry at 10004.
        0x464c457f, 0x00010101, 0, 0, 0x00f30002, 1, 0x10004, 52, 164, 0, 0x00200034, 0x00280003,
        2,
        // Program headers: kind, offset, address, address, size in the file, size in memory, flags, alignment.
        1, 148, 0x10000, 0x10000, 8, 8, 5, 4,
        // The second segment begins where the first ends.
        1, 156, 0x10008, 0x10008, 4, 8, 6, 4,
        // The last one ends at 20003, so the heap begins at 20010.
        1, 160, 0x20001, 0x20001, 2, 2, 6, 1,
        // The bytes of the segments, from offset 148 on.
        0x04030201, 0x88070605, 0x0c0b0a99, 0x0000bbaa,
        // Section headers: an empty one, and that of the text.
        0, 0, 0, 0, 0, 0, 0, 0, 0, 0,
        // Name, kind, flags, address, offset, size, and four fields more.
        0, 1, 6, 0x10000, 148, 8, 0, 0, 4, 0,
    ]
}

/// The bytes of these words.
fn bytes_of(alloc: Global, words: &[u32]) -> Result<Vec<u8>, AllocError> {
    let mut bytes = Vec::new(alloc);
    for word in words {
        bytes.extend_from_slice(&word.to_le_bytes())?;
    }
    Ok(bytes)
}

/// The opening state of the file of these bytes on an input.
fn started(rt: &impl Abort, alloc: Global, bytes: &[u8], input: &[u8]) -> Result<State, Fail> {
    assert!(rt; bytes.len() <= 268_435_456);
    let image = read(alloc, bytes)?;
    let state = State::start(alloc, &image, input);
    drop(image);
    Ok(state?)
}

/// The opening state of the file of three segments.
fn sample(rt: &impl Abort, alloc: Global) -> Result<State, Fail> {
    let bytes = bytes_of(alloc, file())?;
    let state = started(rt, alloc, &bytes, b"hello, world");
    drop(bytes);
    state
}

/// The opening state of a small file of one word.
fn small(rt: &impl Abort, alloc: Global) -> Result<State, Fail> {
    let bytes = file_of(rt, alloc, &[0x13], &[], &[])?;
    let state = started(rt, alloc, &bytes, b"");
    drop(bytes);
    state
}

/// The register of this number.
fn x(n: u8) -> Reg
    requires { n < 32 }
    ensures { result ≡ n }
{
    Reg::new(n).unwrap()
}

/// The number of an environment call and its arguments.
type Asked = (u32, (u32, u32, u32));

/// Sets what an environment call asks for.
fn ask(state: &mut State, asked: Asked) {
    let (number, (first, second, third)) = asked;
    state.set_register(x(17), number);
    state.set_register(x(10), first);
    state.set_register(x(11), second);
    state.set_register(x(12), third);
}

/// What is done with a state, with the answer that is due.
#[derive(Clone, Copy)]
enum Step {
    Load(u32, Width, Result<u32, Unmapped>),
    /// A load that keeps where it looked.
    Near(u32, Width, Result<u32, Unmapped>),
    /// A store of a value.
    Store(u32, Width, u32, Result<(), Unmapped>),
    /// An environment call, with what its first argument's register holds then.
    Answer(Asked, u32),
    /// The first byte of text that a word at an address has.
    Access(u32, Option<u32>),
    /// The first byte of text that an environment call moves.
    Moved(Asked, Option<u32>),
    /// Whether an environment call may change bytes below an address.
    Changes(Asked, u64, bool),
    /// All that was written.
    Output(&'static [u8]),
}

/// Makes an environment call, and gives what its first argument's register holds then.
fn answer(state: &mut State, asked: Asked) -> Result<u32, AllocError> {
    ask(state, asked);
    state.environment_call()?;
    Ok(state.register(x(10)))
}

// What is compared is the answer of a function, which costs a proof less than an assertion does.

/// Whether these bytes were written.
fn has_put(state: &State, due: &[u8]) -> bool {
    state.output() == due
}

/// Takes a step, and tells whether its answer is the one that is due.
fn is_due(state: &mut State, step: &Step) -> Result<bool, AllocError> {
    Ok(match step {
        Step::Load(address, width, due) => state.load(*address, *width) == *due,
        Step::Near(address, width, due) => state.load_near(*address, *width) == *due,
        Step::Store(address, width, value, due) => state.store(*address, *width, *value) == *due,
        Step::Answer(asked, due) => answer(state, *asked)? == *due,
        Step::Access(address, due) => state.touched_by_access(*address, Width::Word) == *due,
        Step::Moved(asked, due) => {
            ask(state, *asked);
            state.touched_by_call() == *due
        }
        Step::Changes(asked, address, due) => {
            ask(state, *asked);
            state.may_change_below(*address) == *due
        }
        Step::Output(due) => has_put(state, due),
    })
}

/// Takes these steps, one after the other, and fails where an answer is another one.
fn expect_steps(
    rt: &impl Abort,
    state: &mut State,
    name: &str,
    steps: &[Step],
) -> Result<(), AllocError> {
    for (number, step) in steps.iter().enumerate() {
        assert!(rt; is_due(state, step)?, "{name}, step {number}");
    }
    Ok(())
}

/// The same from the opening state of the file of three segments on.
fn expect(rt: &impl Abort, alloc: Global, name: &str, steps: &[Step]) -> Result<(), Fail> {
    let mut state = sample(rt, alloc)?;
    let outcome = expect_steps(rt, &mut state, name, steps);
    drop(state);
    outcome?;
    Ok(())
}

/// The same from the opening state of the small file on.
fn expect_of_small(rt: &impl Abort, alloc: Global, name: &str, steps: &[Step]) -> Result<(), Fail> {
    let mut state = small(rt, alloc)?;
    let outcome = expect_steps(rt, &mut state, name, steps);
    drop(state);
    outcome?;
    Ok(())
}

/// Whether x0, x31 and x2, the hidden results, the further operands and the pc are these.
fn has_registers(
    state: &State,
    registers: [u32; 3],
    hidden: [u32; 2],
    operands: [u32; 2],
    pc: u32,
) -> bool {
    let [zero, last, stack] = registers;
    let [first, second] = hidden;
    let [third, fourth] = operands;
    state.register(x(0)) == zero
        && state.register(x(31)) == last
        && state.register(x(2)) == stack
        && state.hidden(0) == first
        && state.hidden(1) == second
        && state.operand(0) == third
        && state.operand(1) == fourth
        && state.pc() == pc
}

/// Fails where a register but x2 is not 0.
fn expect_zeros(rt: &impl Abort, state: &State) {
    for n in 0..32 {
        assert!(rt; n == 2 || state.register(x(n)) == 0, "x{n}");
    }
}

#[test]
fn opens(rt: HostRuntime) -> Result<(), Fail> {
    let state = sample(&rt, rt.alloc())?;
    let is_open = has_registers(&state, [0, 0, 0x7ffffff0], [0, 0], [0, 0], 0x10004);
    expect_zeros(&rt, &state);
    let has_output = !state.output().is_empty();
    drop(state);
    assert!(&rt; is_open && !has_output);
    Ok(())
}

/// The text of the file.
const TEXT: Range = Range {
    start: 0x10000,
    words: 2,
};

/// Whether a state has that text.
fn has_text(state: &State) -> bool {
    state.text() == [TEXT].as_slice()
        && state.in_text(0x10000)
        && state.in_text(0x10007)
        && !state.in_text(0xffff)
        && !state.in_text(0x10008)
}

#[test]
fn knows_its_text(rt: HostRuntime) -> Result<(), Fail> {
    let state = sample(&rt, rt.alloc())?;
    let is_known = has_text(&state);
    drop(state);
    assert!(&rt; is_known);
    Ok(())
}

#[test]
fn keeps_registers(rt: HostRuntime) -> Result<(), Fail> {
    let mut state = sample(&rt, rt.alloc())?;
    state.set_register(x(0), 7);
    state.set_register(x(31), 8);
    state.set_hidden(0, 9);
    state.set_hidden(1, 10);
    state.set_operand(0, 11);
    state.set_operand(1, 13);
    state.set_pc(12);
    let is_kept = has_registers(&state, [0, 8, 0x7ffffff0], [9, 10], [11, 13], 12);
    drop(state);
    assert!(&rt; is_kept);
    Ok(())
}

/// Loads of the opening state at the edges of segments.
fn loads_at_segments() -> &'static [Step] {
    &[
        Step::Load(0x10000, Width::Word, Ok(0x04030201)),
        Step::Load(0x10006, Width::Word, Ok(0x0a998807)),
        Step::Load(0x10007, Width::Half, Ok(0x9988)),
        Step::Load(0x1000c, Width::Word, Ok(0)),
        Step::Load(0x1000d, Width::Word, Err(Unmapped)),
        Step::Load(0x1000f, Width::Byte, Ok(0)),
        Step::Load(0x10010, Width::Byte, Err(Unmapped)),
        Step::Load(0xffff, Width::Half, Err(Unmapped)),
        Step::Load(0x20001, Width::Half, Ok(0xbbaa)),
        Step::Load(0x20002, Width::Half, Err(Unmapped)),
    ]
}

/// Loads of the opening state at the ends of the stack and of all addresses.
fn loads_at_ends() -> &'static [Step] {
    &[
        Step::Load(0x7fefffff, Width::Half, Err(Unmapped)),
        Step::Load(0x7ff00000, Width::Word, Ok(0)),
        Step::Load(0x7ffffffc, Width::Word, Ok(0)),
        Step::Load(0x7ffffffd, Width::Word, Err(Unmapped)),
        Step::Load(0x80000000, Width::Byte, Err(Unmapped)),
        Step::Load(0xffffffff, Width::Word, Err(Unmapped)),
        Step::Load(0, Width::Byte, Err(Unmapped)),
    ]
}

/// Stores of all widths, of which one is unmapped, and what they leave.
fn some_stores() -> &'static [Step] {
    &[
        Step::Store(0x10006, Width::Word, 0xddccbbaa, Ok(())),
        Step::Load(0x10004, Width::Word, Ok(0xbbaa0605)),
        Step::Load(0x10008, Width::Word, Ok(0x0c0bddcc)),
        Step::Store(0x1000d, Width::Word, 0x11111111, Err(Unmapped)),
        Step::Load(0x1000c, Width::Word, Ok(0)),
        Step::Store(0x7ffffffe, Width::Half, 0x12345678, Ok(())),
        Step::Load(0x7ffffffc, Width::Word, Ok(0x56780000)),
        Step::Store(0x20002, Width::Byte, 0x1ff, Ok(())),
        Step::Load(0x20001, Width::Half, Ok(0xffaa)),
    ]
}

/// Calls that read, of which the first are of another file, of memory that is not there, and both, and what they leave.
fn some_reads() -> &'static [Step] {
    &[
        Step::Answer((63, (1, 0x7ff00000, 5)), 0xfffffff7),
        Step::Answer((63, (0, 0x7fffffff, 5)), 0xfffffff2),
        Step::Answer((63, (1, 0x7fffffff, 5)), 0xfffffff7),
        Step::Answer((63, (0, 0x10006, 5)), 5),
        Step::Load(0x10006, Width::Word, Ok(0x6c6c6568)),
        Step::Answer((63, (0, 0x7ffffff9, 100)), 7),
        Step::Load(0x7ffffffc, Width::Word, Ok(0x646c726f)),
        Step::Answer((63, (0, 0, 100)), 0),
    ]
}

/// Calls that write, to files that are there and are not, from memory that is there and is not.
fn some_writes() -> &'static [Step] {
    &[
        Step::Answer((64, (0, 0x10006, 3)), 0xfffffff7),
        Step::Answer((64, (1, 0x10006, 3)), 3),
        Step::Answer((64, (2, 0x10000, 1)), 1),
        Step::Answer((64, (1, 0x1000f, 2)), 0xfffffff2),
        Step::Answer((64, (3, 0x1000f, 2)), 0xfffffff7),
        Step::Answer((64, (1, 0xffffffff, 0)), 0),
        Step::Output(&[7, 0x88, 0x99, 1]),
    ]
}

/// The heap grows, shrinks and grows again within a word.
fn moves_of_the_heap() -> &'static [Step] {
    &[
        Step::Answer((214, (0, 0, 0)), 0x20010),
        Step::Answer((214, (0x20018, 0, 0)), 0x20018),
        Step::Store(0x20014, Width::Word, 0xffffffff, Ok(())),
        Step::Store(0x20015, Width::Word, 0, Err(Unmapped)),
        Step::Answer((214, (0x20016, 0, 0)), 0x20016),
        Step::Load(0x20014, Width::Word, Err(Unmapped)),
        Step::Answer((214, (0x20020, 0, 0)), 0x20020),
        Step::Load(0x20014, Width::Word, Ok(0x0000ffff)),
    ]
}

/// Pages of the heap that go, and come again.
fn pages_that_went() -> &'static [Step] {
    &[
        Step::Answer((214, (0x12080, 0, 0)), 0x12080),
        Step::Store(0x11000, Width::Word, 0xffffffff, Ok(())),
        Step::Answer((214, (0x10080, 0, 0)), 0x10080),
        Step::Answer((214, (0x12080, 0, 0)), 0x12080),
        Step::Load(0x11000, Width::Word, Ok(0)),
        Step::Load(0x1207d, Width::Word, Err(Unmapped)),
    ]
}

/// Bytes of the heap that were never stored to, and one that was.
fn untouched_bytes() -> &'static [Step] {
    &[
        Step::Answer((214, (0x2ffff, 0, 0)), 0x2ffff),
        Step::Load(0x2f000, Width::Word, Ok(0)),
        Step::Near(0x2f004, Width::Word, Ok(0)),
        Step::Near(0x2f008, Width::Half, Ok(0)),
        Step::Near(0x2fffe, Width::Half, Err(Unmapped)),
        Step::Near(0x2dffe, Width::Word, Ok(0)),
        Step::Store(0x2f008, Width::Half, 0x1234, Ok(())),
        Step::Near(0x2f006, Width::Word, Ok(0x12340000)),
        Step::Load(0x2f008, Width::Word, Ok(0x1234)),
    ]
}

/// Bytes of the heap that were stored, went and came again, beside some that stayed.
fn bytes_that_went() -> &'static [Step] {
    &[
        Step::Answer((214, (0x24000, 0, 0)), 0x24000),
        Step::Store(0x22ffc, Width::Word, 0x01020304, Ok(())),
        Step::Store(0x21802, Width::Word, 0x0d0c0b0a, Ok(())),
        Step::Answer((214, (0x21804, 0, 0)), 0x21804),
        Step::Load(0x21802, Width::Half, Ok(0x0b0a)),
        Step::Near(0x22ffc, Width::Word, Err(Unmapped)),
        Step::Answer((214, (0x24000, 0, 0)), 0x24000),
        Step::Near(0x22ffc, Width::Word, Ok(0)),
        Step::Load(0x21802, Width::Word, Ok(0x0b0a)),
    ]
}

/// Stores on pages of the heap that are far apart, the last one first, whose pages go from the last one on.
fn far_stores() -> &'static [Step] {
    &[
        Step::Answer((214, (0x3f00000, 0, 0)), 0x3f00000),
        Step::Store(0x3efffff, Width::Byte, 5, Ok(())),
        Step::Store(0x2000000, Width::Word, 6, Ok(())),
        Step::Near(0x3efffff, Width::Byte, Ok(5)),
        Step::Store(0x1000000, Width::Word, 7, Ok(())),
        Step::Near(0x3efffff, Width::Byte, Ok(5)),
        Step::Near(0x2000000, Width::Word, Ok(6)),
        Step::Answer((214, (0x2000000, 0, 0)), 0x2000000),
        Step::Near(0x1000000, Width::Word, Ok(7)),
        Step::Near(0x2000000, Width::Word, Err(Unmapped)),
        Step::Answer((214, (0x3f00000, 0, 0)), 0x3f00000),
        Step::Near(0x3efffff, Width::Byte, Ok(0)),
        Step::Near(0x2000000, Width::Word, Ok(0)),
        Step::Near(0x1000000, Width::Word, Ok(7)),
    ]
}

/// Calls over pages of the heap that nothing was stored to, and stores over their ends.
fn over_untouched_pages() -> &'static [Step] {
    &[
        Step::Answer((214, (0x30000, 0, 0)), 0x30000),
        Step::Answer((64, (1, 0x21fff, 2)), 2),
        Step::Store(0x24001, Width::Byte, 7, Ok(())),
        Step::Answer((64, (1, 0x23fff, 4)), 4),
        Step::Output(&[0, 0, 0, 0, 7, 0]),
        Step::Answer((63, (0, 0x25ffe, 5)), 5),
        Step::Load(0x25ffe, Width::Word, Ok(0x6c6c6568)),
        Step::Load(0x26002, Width::Half, Ok(0x6f)),
        Step::Store(0x27fff, Width::Half, 0xbbaa, Ok(())),
        Step::Load(0x27ffc, Width::Word, Ok(0xaa000000)),
        Step::Load(0x28000, Width::Word, Ok(0xbb)),
        Step::Store(0x2ffff, Width::Half, 0xbbaa, Err(Unmapped)),
        Step::Load(0x2ffff, Width::Byte, Ok(0)),
    ]
}

/// Loads that keep where they looked, over bytes that go, and come again.
fn near_loads() -> &'static [Step] {
    &[
        Step::Answer((214, (0x11010, 0, 0)), 0x11010),
        Step::Store(0x1100c, Width::Word, 0x04030201, Ok(())),
        Step::Near(0x1100c, Width::Word, Ok(0x04030201)),
        Step::Near(0x1100d, Width::Word, Err(Unmapped)),
        Step::Near(0x10ffe, Width::Word, Ok(0)),
        Step::Answer((214, (0x1100e, 0, 0)), 0x1100e),
        Step::Near(0x1100c, Width::Word, Err(Unmapped)),
        Step::Answer((214, (0x11010, 0, 0)), 0x11010),
        Step::Near(0x1100c, Width::Word, Ok(0x0201)),
    ]
}

/// Accesses and calls over the border of two pages.
fn over_borders() -> &'static [Step] {
    &[
        Step::Store(0x7ff00ffe, Width::Word, 0x04030201, Ok(())),
        Step::Load(0x7ff01000, Width::Half, Ok(0x0403)),
        Step::Load(0x7ff00ffd, Width::Word, Ok(0x03020100)),
        Step::Answer((63, (0, 0x7ff01ff8, 12)), 12),
        Step::Load(0x7ff01ffe, Width::Word, Ok(0x726f7720)),
        Step::Answer((64, (1, 0x7ff01ffe, 3)), 3),
        Step::Output(b" wo"),
    ]
}

/// The ends that the heap may have or not: 64 mebibytes less the stack and the 18 bytes of the segments.
fn ends_of_the_heap() -> &'static [Step] {
    &[
        Step::Answer((214, (0x2000f, 0, 0)), 0x20010),
        Step::Answer((214, (0x7ff00001, 0, 0)), 0x20010),
        Step::Answer((214, (0x20010 + 0x3f00000 - 18, 0, 0)), 0x3f1fffe),
        Step::Answer((214, (0x20010 + 0x3f00000 - 17, 0, 0)), 0x3f1fffe),
    ]
}

/// Fails where a call that there is not is answered, or the call that exits does not end the run.
fn expect_end(rt: &impl Abort, state: &mut State) -> Result<(), AllocError> {
    assert!(rt; answer(state, (1, (5, 6, 7)))? == 0xffffffda);
    assert!(rt; state.register(x(11)) == 6);
    ask(state, (93, (0x12345, 0, 0)));
    assert!(rt; state.environment_call()? == Call::Exit(0x12345));
    assert!(rt; state.register(x(10)) == 0x12345);
    Ok(())
}

#[test]
fn ends_and_refuses(rt: HostRuntime) -> Result<(), Fail> {
    let mut state = sample(&rt, rt.alloc())?;
    let outcome = expect_end(&rt, &mut state);
    drop(state);
    outcome?;
    Ok(())
}

/// Accesses and calls that move text or other bytes.
fn touches() -> &'static [Step] {
    &[
        Step::Access(0x10004, Some(0x10004)),
        Step::Access(0xffff, Some(0x10000)),
        Step::Access(0x10008, None),
        // Reads: of a file that is not open, and of more than the 12 bytes that are left, which fill what is mapped.
        Step::Moved((63, (0, 0x10007, 3)), Some(0x10007)),
        Step::Moved((63, (1, 0x10007, 3)), None),
        Step::Moved((63, (0, 0x10004, 100)), Some(0x10004)),
        Step::Moved((63, (0, 0x10005, 100)), None),
        // Writes to both files, of bytes that are not all mapped, to a file that is not open, and of other bytes.
        Step::Moved((64, (1, 0x10007, 3)), Some(0x10007)),
        Step::Moved((64, (2, 0x10003, 1)), Some(0x10003)),
        Step::Moved((64, (1, 0x10007, 100)), None),
        Step::Moved((64, (0, 0x10007, 3)), None),
        Step::Moved((64, (2, 0x10008, 8)), None),
        Step::Moved((214, (0x10000, 0, 0)), None),
    ]
}

/// Calls that may change bytes below an address, or may not: reads, and moves of the heap, which begins at 0x20010.
fn changes_below() -> &'static [Step] {
    &[
        Step::Changes((63, (0, 0x20004, 4)), 0, true),
        Step::Changes((64, (1, 0x10000, 4)), 0x80000000, false),
        Step::Changes((93, (0, 0, 0)), 0x80000000, false),
        Step::Changes((214, (0x20018, 0, 0)), 0x20010, false),
        Step::Changes((214, (0x20018, 0, 0)), 0x20011, true),
        Step::Changes((214, (0x2000f, 0, 0)), 0x20010, false),
        Step::Answer((214, (0x24000, 0, 0)), 0x24000),
        Step::Changes((214, (0x21000, 0, 0)), 0x21000, false),
        Step::Changes((214, (0x21000, 0, 0)), 0x21001, true),
    ]
}

#[test]
fn takes_these_steps(rt: HostRuntime) -> Result<(), Fail> {
    let alloc = rt.alloc();
    expect(&rt, alloc, "loads", loads_at_segments())?;
    expect(&rt, alloc, "loads at the ends", loads_at_ends())?;
    expect(&rt, alloc, "stores", some_stores())?;
    expect(&rt, alloc, "reads", some_reads())?;
    expect(&rt, alloc, "writes", some_writes())?;
    expect(&rt, alloc, "moves the heap", moves_of_the_heap())?;
    expect(
        &rt,
        alloc,
        "has zeros where nothing was stored",
        untouched_bytes(),
    )?;
    expect(&rt, alloc, "keeps no bytes that went", bytes_that_went())?;
    expect(&rt, alloc, "keeps far pages apart", far_stores())?;
    expect(
        &rt,
        alloc,
        "crosses untouched pages",
        over_untouched_pages(),
    )?;
    expect(&rt, alloc, "crosses pages", over_borders())?;
    expect(&rt, alloc, "bounds the heap", ends_of_the_heap())?;
    expect(&rt, alloc, "touches the text", touches())?;
    expect(&rt, alloc, "changes bytes", changes_below())
}

#[test]
fn takes_these_steps_of_a_small_file(rt: HostRuntime) -> Result<(), Fail> {
    let alloc = rt.alloc();
    expect_of_small(
        &rt,
        alloc,
        "keeps no bytes of pages that went",
        pages_that_went(),
    )?;
    expect_of_small(&rt, alloc, "loads near as it loads", near_loads())
}
