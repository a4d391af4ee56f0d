//! Words of 32 bits at the edges of their operations, and sets of numbers below 256 with their members as text.
use ci_word::{Op, Row, alu, push_members};
use std::alloc::AllocError;
use std::process::Abort;

// Tables are the answers of functions, so that the proof of a test looks at none of them.

/// An operation, its operands, and the result.
type Told = (Op, u32, u32, u32);

/// Asserts these results.
fn expect(rt: &impl Abort, rows: &[Told]) {
    for (op, a, b, due) in rows {
        assert!(rt; alu(*op, *a, *b) == *due, "{op:?} {a:x} {b:x}");
    }
}

fn edge_cases() -> &'static [Told] {
    &[
        (Op::Add, 0xffff_ffff, 2, 1),
        (Op::Sub, 1, 2, 0xffff_ffff),
        (Op::Sll, 0x8000_0001, 33, 2),
        (Op::Slt, 0x8000_0000, 0, 1),
        (Op::Slt, 0, 0x8000_0000, 0),
        (Op::Slt, 5, 5, 0),
        (Op::Sltu, 0x8000_0000, 0, 0),
        (Op::Sltu, 0, 0x8000_0000, 1),
        (Op::Sltu, 5, 5, 0),
        (Op::Xor, 0xf0f0_f0f0, 0xff00_ff00, 0x0ff0_0ff0),
        (Op::Or, 0xf0f0_f0f0, 0xff00_ff00, 0xfff0_fff0),
        (Op::And, 0xf0f0_f0f0, 0xff00_ff00, 0xf000_f000),
        (Op::Srl, 0x8000_0000, 63, 1),
        (Op::Sra, 0x8000_0000, 31, 0xffff_ffff),
        (Op::Sra, 0x8000_0000, 36, 0xf800_0000),
        (Op::Sra, 0x7fff_ffff, 30, 1),
    ]
}

fn edge_cases_of_products() -> &'static [Told] {
    &[
        (Op::Mul, 0xffff_ffff, 0xffff_ffff, 1),
        (Op::Mulh, 0x8000_0000, 0x8000_0000, 0x4000_0000),
        (Op::Mulh, 0xffff_ffff, 1, 0xffff_ffff),
        (Op::Mulh, 0xaaaa_aaab, 0x0002_fe7d, 0xffff_0081),
        (Op::Mulhsu, 0x8000_0000, 0xffff_ffff, 0x8000_0000),
        (Op::Mulhsu, 0xffff_ffff, 0xffff_ffff, 0xffff_ffff),
        (Op::Mulhsu, 0xaaaa_aaab, 0x0002_fe7d, 0xffff_0081),
        (Op::Mulhu, 0xffff_ffff, 0xffff_ffff, 0xffff_fffe),
        (Op::Mulhu, 0xaaaa_aaab, 0x0002_fe7d, 0x0001_fefe),
    ]
}

fn edge_cases_of_quotients() -> &'static [Told] {
    &[
        (Op::Div, 20, 6, 3),
        (Op::Div, 0xffff_ffec, 6, 0xffff_fffd),
        (Op::Div, 0x8000_0000, 0xffff_ffff, 0x8000_0000),
        (Op::Div, 0x8000_0000, 0, 0xffff_ffff),
        (Op::Divu, 0xffff_ffec, 6, 0x2aaa_aaa7),
        (Op::Divu, 1, 0, 0xffff_ffff),
        (Op::Rem, 0xffff_ffec, 6, 0xffff_fffe),
        (Op::Rem, 20, 0xffff_fffa, 2),
        (Op::Rem, 0x8000_0000, 0xffff_ffff, 0),
        (Op::Rem, 0x8000_0000, 0, 0x8000_0000),
        (Op::Remu, 0xffff_ffec, 6, 2),
        (Op::Remu, 7, 0, 7),
    ]
}

#[test]
fn operations(rt: HostRuntime) {
    expect(&rt, edge_cases());
    expect(&rt, edge_cases_of_products());
    expect(&rt, edge_cases_of_quotients());
}

/// Numbers at each end of a machine word, and both ends of the range.
fn ends() -> &'static [u8] {
    &[0, 63, 64, 127, 128, 255]
}

/// The set of these numbers.
fn set_of_ends() -> Row {
    let mut row = Row::empty();
    for number in ends() {
        row.insert(*number);
    }
    row
}

#[test]
fn has_what_was_put_in(rt: HostRuntime) {
    let row = set_of_ends();
    assert!(rt; row.count() == 6);
    for number in ends() {
        assert!(rt; row.has(*number), "{number} is in");
    }
    for number in [1, 62, 65, 126, 129, 192, 254] {
        assert!(rt; !row.has(number), "{number} is out");
    }
}

#[test]
fn loses_what_was_taken_out(rt: HostRuntime) {
    let mut row = set_of_ends();
    row.remove(64);
    row.remove(65);
    assert!(rt; row.count() == 5);
    assert!(rt; !row.has(64));
    assert!(rt; row.has(63));
}

#[test]
fn joins_and_meets(rt: HostRuntime) {
    let row = set_of_ends();
    let mut other = Row::empty();
    assert!(rt; !row.meets(&other));
    other.insert(1);
    other.insert(254);
    assert!(rt; !row.meets(&other));
    assert!(rt; row.union(&other).count() == 8);
    other.insert(255);
    assert!(rt; row.meets(&other));
    assert!(rt; row.union(&other).count() == 8);
    assert!(rt; row.minus(&other).count() == 5);
    assert!(rt; other.minus(&row).count() == 2);
    assert!(rt; row.union(&row) == row);
    assert!(rt; row != other);
}

#[test]
fn greatest_number(rt: HostRuntime) {
    let mut row = set_of_ends();
    for number in [255, 128, 127, 64, 63, 0] {
        assert!(rt; row.greatest() == Some(number));
        row.remove(number);
    }
    assert!(rt; row.greatest() == None);
}

#[test]
fn members_behind_a_text(rt: HostRuntime) -> Result<(), AllocError> {
    let mut text = String::from_str(rt.alloc(), "cut")?;
    push_members(&mut text, &Row::empty())?;
    assert!(rt; text.as_str() == "cut");
    let mut numbers = Row::empty();
    numbers.insert(255);
    numbers.insert(10);
    numbers.insert(0);
    push_members(&mut text, &numbers)?;
    assert!(rt; text.as_str() == "cut 0 10 255");
    drop(text);
    Ok(())
}
