//! Runs of small programs, whose outcomes were worked out by hand.
use crate::common::{expect_counts, opening};
use ci_isa::{Reg, Width};
use ci_lat::Table;
use ci_machine::State;
use ci_verilog::{Expr, Module, Operator, Simple, Term, Wires};
use ci_xemu::{End, Outcome, run_x, step_x};
use std::alloc::{AllocError, Global};
use std::process::Abort;
use std::test::Fail;

// Modules, expressions, states and profiles are let go by calls of `drop`, which a proof does not look into.

/// All bits of an input.
fn input(alloc: Global, wires: &Wires, name: u8) -> Result<Simple, AllocError> {
    Ok(Simple::Whole(wires.name([name].to_vec(alloc)?)))
}

/// The difference of two inputs.
fn difference(alloc: Global, wires: &Wires, left: u8, right: u8) -> Result<Expr, AllocError> {
    let left = input(alloc, wires, left)?;
    match input(alloc, wires, right) {
        Ok(right) => Ok(Expr::Two(Operator::Minus, Term::Plain(left), Term::Plain(right))),
        Err(e) => {
            drop(left);
            Err(e)
        }
    }
}

/// a - b and b - c.
fn both_differences(alloc: Global, wires: &Wires) -> Result<(Expr, Expr), AllocError> {
    let y = difference(alloc, wires, b'a', b'b')?;
    match difference(alloc, wires, b'b', b'c') {
        Ok(z) => Ok((y, z)),
        Err(e) => {
            drop(y);
            Err(e)
        }
    }
}

/// The module of a - b and b - c, with this number written in it.
fn differences(
    rt: &impl Abort,
    alloc: Global,
    number: u8,
    cycles: u32,
) -> Result<Module, AllocError> {
    let wires = Wires::new(false, alloc);
    match both_differences(alloc, &wires) {
        Ok((y, z)) => {
            assert!(rt; wires.expr_width(&y) == Some(32));
            let x = Expr::One(Term::Plain(Simple::Number {
                width: 32,
                value: 0,
            }));
            assert!(rt; wires.expr_width(&z) == Some(32));
            assert!(rt; wires.expr_width(&x) == Some(32));
            Ok(Module::new(number, cycles, wires, y, z, x))
        }
        Err(e) => {
            drop(wires);
            Err(e)
        }
    }
}

/// Puts that module at the end.
fn push_differences(
    rt: &impl Abort,
    alloc: Global,
    modules: &mut Vec<Module>,
    number: u8,
    cycles: u32,
) -> Result<(), AllocError> {
    let module = differences(rt, alloc, number, cycles)?;
    modules.push(module)?;
    Ok(())
}

/// What the register of this number holds.
fn value(rt: &impl Abort, state: &State, number: u8) -> u32 {
    state.register(Reg::new(number).expect(rt, "the number of a register"))
}

/// A unit word in place of two instructions, a no-op, a load from 0, and the words of an exit.
const UNIT_AND_LOAD: [u32; 5] = [0x60b5050b, 0x00000013, 0x00002303, 0x05d00893, 0x00000073];

/// Asserts how a run of that program with these modules ends, and its counts.
fn expect_unit_and_load(
    rt: &impl Abort,
    alloc: Global,
    modules: &[Module],
    end: End,
    steps: u64,
    cost: u64,
) -> Result<(), Fail> {
    let mut state = opening(rt, alloc, &UNIT_AND_LOAD, &[], &[], b"")?;
    let profile = run_x(alloc, &mut state, modules, &Table::usual(), 99);
    drop(state);
    let profile = profile?;
    expect_counts(rt, &profile, Some(end), steps, cost);
    assert!(rt; profile.entries(0x10074) == 1);
    drop(profile);
    Ok(())
}

/// Asserts it with the module of two differences, which is put into an empty list.
fn expect_with_module(
    rt: &impl Abort,
    alloc: Global,
    modules: &mut Vec<Module>,
) -> Result<(), Fail> {
    push_differences(rt, alloc, modules, 0, 1)?;
    expect_unit_and_load(rt, alloc, modules, End::Access(0, Width::Word), 3, 3)
}

#[test]
fn a_unit_word_runs_its_module(rt: HostRuntime) -> Result<(), Fail> {
    let mut modules = Vec::new(rt.alloc());
    let outcome = expect_with_module(&rt, rt.alloc(), &mut modules);
    drop(modules);
    outcome
}

#[test]
fn a_unit_word_without_a_module_is_illegal(rt: HostRuntime) -> Result<(), Fail> {
    expect_unit_and_load(&rt, rt.alloc(), &[], End::Illegal(0x60b5050b), 1, 0)
}

/// addi x10, x0, 5; addi x11, x0, 7; addi x12, x0, 1; unit 1 x10 of x10, x11 and x12; cread x13; unit 0 x0 of x11, x12
/// and x10; cread x14; unit 2 x0 of x0, x0 and x0.
const UNITS: [u32; 8] = [
    0x00500513, 0x00700593, 0x00100613, 0x60b5150b, 0x000006ab, 0x50c5800b, 0x0000072b, 0x0000200b,
];

/// Asserts what registers hold.
fn expect_values(rt: &impl Abort, state: &State, rows: &[(u8, u32)]) {
    for (number, due) in rows {
        assert!(rt; value(rt, state, *number) == *due, "x{number}");
    }
}

/// Asserts how a run of that program with these modules ends, its counts, and what registers hold then.
fn expect_units(rt: &impl Abort, alloc: Global, modules: &[Module]) -> Result<(), Fail> {
    let mut state = opening(rt, alloc, &UNITS, &[], &[], b"")?;
    let profile = run_x(alloc, &mut state, modules, &Table::usual(), 99);
    expect_values(rt, &state, &[(10, 0xfffffffe), (13, 6), (0, 0), (14, 3)]);
    drop(state);
    let profile = profile?;
    expect_counts(rt, &profile, Some(End::Illegal(0x200b)), 8, 10000024);
    drop(profile);
    Ok(())
}

/// Asserts it with two modules, which are put into an empty list.
fn expect_with_two(rt: &impl Abort, alloc: Global, modules: &mut Vec<Module>) -> Result<(), Fail> {
    push_differences(rt, alloc, modules, 1, 9999999)?;
    push_differences(rt, alloc, modules, 0, 20)?;
    expect_units(rt, alloc, modules)
}

// x10 is a - b and a source too; what goes to x0 is dropped, and the second result is not.
#[test]
fn units_are_numbered_by_place(rt: HostRuntime) -> Result<(), Fail> {
    let mut modules = Vec::new(rt.alloc());
    let outcome = expect_with_two(&rt, rt.alloc(), &mut modules);
    drop(modules);
    outcome
}

/// Makes a step without modules, and fails where it goes wrong, or the next one does not end behind the text.
fn expect_one_step(rt: &impl Abort, state: &mut State) -> Result<(), AllocError> {
    assert!(rt; step_x(state, &[])? == Outcome::Next);
    assert!(rt; value(rt, state, 10) == 0);
    let end = Outcome::Ended(End::Fetch(0x10078));
    assert!(rt; step_x(state, &[])? == end);
    Ok(())
}

// cread x10
#[test]
fn makes_one_step(rt: HostRuntime) -> Result<(), Fail> {
    let mut state = opening(&rt, rt.alloc(), &[0x0000052b], &[], &[], b"")?;
    let outcome = expect_one_step(&rt, &mut state);
    drop(state);
    outcome?;
    Ok(())
}

/// The hidden operands and the hidden results, by their numbers.
fn hidden_registers(state: &State) -> [u32; 4] {
    [
        state.operand(0),
        state.operand(1),
        state.hidden(0),
        state.hidden(1),
    ]
}

/// Makes a step without modules, and fails where it passes other operands than the stack pointer and 0.
fn expect_operands(rt: &impl Abort, state: &mut State) -> Result<(), AllocError> {
    assert!(rt; hidden_registers(state) == [0, 0, 0, 0]);
    assert!(rt; step_x(state, &[])? == Outcome::Next);
    assert!(rt; hidden_registers(state) == [0x7fff_fff0, 0, 0, 0]);
    Ok(())
}

// cput x2, x0
#[test]
fn passes_operands_in_their_order(rt: HostRuntime) -> Result<(), Fail> {
    let mut state = opening(&rt, rt.alloc(), &[0x0001102b], &[], &[], b"")?;
    let outcome = expect_operands(&rt, &mut state);
    drop(state);
    outcome?;
    Ok(())
}
