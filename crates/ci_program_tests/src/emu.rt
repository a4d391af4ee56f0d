//! Runs of small programs, whose outcomes were worked out by hand or by other simulators.
use crate::common::{calls, expect_counts, opening, table};
use ci_emu::{End, Outcome, Profile, run, step};
use ci_isa::{Reg, Width};
use ci_lat::Table;
use ci_machine::State;
use std::alloc::{AllocError, Global};
use std::process::Abort;
use std::test::Fail;

// States and profiles are let go by calls of `drop`, which a proof does not look into.

/// The profile of a run of these words, of at most `n` steps.
fn profile(rt: &impl Abort, alloc: Global, text: &[u32], n: u64) -> Result<Profile, Fail> {
    assert!(rt; n <= 100);
    let mut state = opening(rt, alloc, text, &[], &[], b"")?;
    let profile = run(alloc, &mut state, &Table::usual(), n);
    drop(state);
    Ok(profile?)
}

/// Fails where blocks were entered another number of times.
fn check_entries(rt: &impl Abort, profile: &Profile, due: &[(u32, u64)]) {
    for (leader, entries) in due {
        assert!(rt; profile.entries(*leader) == *entries, "{leader:x}");
    }
}

#[test]
fn calls_write_and_exit(rt: HostRuntime) -> Result<(), Fail> {
    let alloc = rt.alloc();
    let mut state = opening(&rt, alloc, calls(), &[1000], table(), b"")?;
    let profile = run(alloc, &mut state, &Table::usual(), 4294967296);
    let has_left = state.output() == [0xe8, 0x1d, 0, 0].as_slice() && state.pc() == 0x100c0;
    drop(state);
    assert!(&rt; has_left);
    let profile = profile?;
    expect_calls(&rt, &profile);
    drop(profile);
    Ok(())
}

/// Fails where the run of the calls had other counts.
fn expect_calls(rt: &impl Abort, profile: &Profile) {
    expect_counts(rt, profile, Some(End::Exit(0)), 61, 75);
    let entries = [(0x10074, 1), (0x10080, 4), (0x100d4, 2), (0x100d6, 0)];
    check_entries(rt, profile, &entries);
    let targets = [0x1008c, 0x100c4, 0x100d4];
    assert!(rt; profile.touched == None && profile.targets() == targets.as_slice());
}

#[test]
fn ends_after_so_many_steps(rt: HostRuntime) -> Result<(), Fail> {
    let jump_to_itself = profile(&rt, rt.alloc(), &[0x0000006f], 3)?;
    expect_counts(&rt, &jump_to_itself, None, 3, 6);
    check_entries(&rt, &jump_to_itself, &[(0x10074, 3)]);
    assert!(&rt; jump_to_itself.targets() == [].as_slice());
    drop(jump_to_itself);
    Ok(())
}

/// Fails where a run of these words, of at most nine steps, has another end, or other counts.
fn check_run(
    rt: &impl Abort,
    alloc: Global,
    text: &[u32],
    end: End,
    steps: u64,
    cost: u64,
) -> Result<(), Fail> {
    let profile = profile(rt, alloc, text, 9)?;
    expect_counts(rt, &profile, Some(end), steps, cost);
    drop(profile);
    Ok(())
}

#[test]
fn ends_by_each_cause(rt: HostRuntime) -> Result<(), Fail> {
    let alloc = rt.alloc();
    let odd_jump = profile(&rt, alloc, &[0x00200067], 9)?;
    expect_counts(&rt, &odd_jump, Some(End::Misaligned(2)), 1, 2);
    assert!(&rt; odd_jump.targets() == [].as_slice());
    drop(odd_jump);
    let no_op = [0x00000013];
    check_run(&rt, alloc, &no_op, End::Fetch(0x10078), 2, 0)?;
    let unit_word = [0x0000000b];
    check_run(&rt, alloc, &unit_word, End::Illegal(0xb), 1, 0)?;
    let load_at_zero = [0x00b502b3, 0x00002303];
    check_run(&rt, alloc, &load_at_zero, End::Access(0, Width::Word), 2, 3)?;
    Ok(())
}

#[test]
fn tells_the_first_touch(rt: HostRuntime) -> Result<(), Fail> {
    // auipc x5, 0; lw x6, 0(x5); ebreak
    let profile = profile(&rt, rt.alloc(), &[0x00000297, 0x0002a303, 0x00100073], 9)?;
    expect_counts(&rt, &profile, Some(End::Break), 3, 4);
    assert!(&rt; profile.touched == Some((0x10078, 0x10074)));
    drop(profile);
    Ok(())
}

/// Makes a step, and fails where its outcome or the address behind it is another.
fn check_step(
    rt: &impl Abort,
    state: &mut State,
    outcome: Outcome,
    pc: u32,
) -> Result<(), AllocError> {
    assert!(rt; step(state)? == outcome);
    assert!(rt; state.pc() == pc);
    Ok(())
}

#[test]
fn makes_one_step(rt: HostRuntime) -> Result<(), Fail> {
    let alloc = rt.alloc();
    let mut state = opening(&rt, alloc, &[0x00000013], &[], &[], b"")?;
    let first = check_step(&rt, &mut state, Outcome::Next, 0x10078);
    let end = Outcome::Ended(End::Fetch(0x10078));
    let second = check_step(&rt, &mut state, end, 0x10078);
    drop(state);
    first?;
    second?;
    Ok(())
}

/// A word at 10074, the outcome of its step, and the pc and x1 behind it. Before it x1 has 7.
type Told = (u32, Outcome, u32, u32);

/// Jumps, branches and loads of which some end the run.
fn directed() -> &'static [Told] {
    &[
        // jal x1, 2; jalr x1, 6(x0); jal x1, 4; jalr x1, 5(x0)
        (
            0x0020_00ef,
            Outcome::Ended(End::Misaligned(0x10076)),
            0x10074,
            7,
        ),
        (0x0060_00e7, Outcome::Ended(End::Misaligned(6)), 0x10074, 7),
        (0x0040_00ef, Outcome::Next, 0x10078, 0x10078),
        (0x0050_00e7, Outcome::Next, 4, 0x10078),
        // beq x0, x0, 2; bne x0, x0, 2; beq x0, x0, 8
        (
            0x0000_0163,
            Outcome::Ended(End::Misaligned(0x10076)),
            0x10074,
            7,
        ),
        (0x0000_1163, Outcome::Next, 0x10078, 7),
        (0x0000_0463, Outcome::Next, 0x1007c, 7),
        // lw x1, 0(x0); lw x0, 0(x0); lw x0, 0(x2); lw x1, 0(x2)
        (
            0x0000_2083,
            Outcome::Ended(End::Access(0, Width::Word)),
            0x10074,
            7,
        ),
        (
            0x0000_2003,
            Outcome::Ended(End::Access(0, Width::Word)),
            0x10074,
            7,
        ),
        (0x0001_2003, Outcome::Next, 0x10078, 7),
        (0x0001_2083, Outcome::Next, 0x10078, 0),
        // ebreak, and a word that is no instruction
        (0x0010_0073, Outcome::Ended(End::Break), 0x10074, 7),
        (
            0xffff_ffff,
            Outcome::Ended(End::Illegal(0xffff_ffff)),
            0x10074,
            7,
        ),
    ]
}

/// Makes the step of a word, and fails where it is another one.
fn check_directed(rt: &impl Abort, alloc: Global, told: Told) -> Result<(), Fail> {
    let (word, outcome, pc, value) = told;
    let link = Reg::new(1).expect(rt, "the number of a register");
    let mut state = opening(rt, alloc, &[word], &[], &[], b"")?;
    state.set_register(link, 7);
    let made = check_step(rt, &mut state, outcome, pc);
    assert!(rt; state.register(link) == value, "{word:08x}");
    drop(state);
    made?;
    Ok(())
}

#[test]
fn a_step_that_ends_changes_nothing(rt: HostRuntime) -> Result<(), Fail> {
    for told in directed() {
        check_directed(&rt, rt.alloc(), *told)?;
    }
    Ok(())
}

/// Fails where a block was entered another number of times, or other text was touched first.
fn check_touched(rt: &impl Abort, profile: &Profile, entered: (u32, u64), touched: (u32, u32)) {
    let (leader, entries) = entered;
    assert!(rt; profile.entries(leader) == entries && profile.touched == Some(touched));
}

/// A loop that is made twice, and then entered again after EBREAK was written over its first word.
fn overwritten() -> &'static [u32] {
    &[
        0x000102b7, 0x00200393, 0x00150513, 0xfff38393, 0xfe039ce3, 0x0982a303, 0x0662ae23,
        0x00500393, 0xfe9ff06f, 0x00100073,
    ]
}

#[test]
fn decodes_a_word_that_was_written(rt: HostRuntime) -> Result<(), Fail> {
    let profile = profile(&rt, rt.alloc(), overwritten(), 99)?;
    expect_counts(&rt, &profile, Some(End::Break), 13, 15);
    check_touched(&rt, &profile, (0x1007c, 3), (0x10088, 0x10098));
    drop(profile);
    Ok(())
}

/// A read of a word over one that was executed, to which it then jumps.
fn read_over() -> &'static [u32] {
    &[
        0x00000297, 0x01028593, 0x00400613, 0x03f00893, 0x00000513, 0x00000073, 0xff9ff06f,
    ]
}

#[test]
fn decodes_a_word_that_was_read(rt: HostRuntime) -> Result<(), Fail> {
    let alloc = rt.alloc();
    let mut state = opening(&rt, alloc, read_over(), &[], &[], &[0x73, 0x00, 0x10, 0x00])?;
    let profile = run(alloc, &mut state, &Table::usual(), 99);
    drop(state);
    let profile = profile?;
    expect_counts(&rt, &profile, Some(End::Break), 8, 9);
    check_touched(&rt, &profile, (0x10084, 2), (0x10088, 0x10084));
    drop(profile);
    Ok(())
}
