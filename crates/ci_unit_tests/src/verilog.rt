//! Modules built by hand.
use ci_verilog::{Expr, Item, Items, Module, Name, Operator, Simple, Term, Wire, Wires, eval};
use std::alloc::{AllocError, Global};
use std::process::Abort;

/// All bits of a name.
fn whole(alloc: Global, wires: &Wires, name: &[u8]) -> Result<Simple, AllocError> {
    Ok(Simple::Whole(wires.name(name.to_vec(alloc)?)))
}

/// Some bits of a name.
fn bits(
    alloc: Global,
    wires: &Wires,
    name: &[u8],
    high: u8,
    low: u8,
) -> Result<Simple, AllocError> {
    Ok(Simple::Bits(wires.name(name.to_vec(alloc)?), high, low))
}

fn number(width: u8, value: u64) -> Simple {
    Simple::Number { width, value }
}

/// Puts two items at the end.
fn push_both(items: &mut Items, first: Item, second: Item) -> Result<(), AllocError> {
    match items.push(first) {
        Ok(()) => items.push(second),
        Err(e) => {
            drop(second);
            Err(e)
        }
    }
}

fn joined(alloc: Global, first: Item, second: Item) -> Result<Term, AllocError> {
    let mut items = Items::new(alloc);
    match push_both(&mut items, first, second) {
        Ok(()) => Ok(Term::Join(items)),
        Err(e) => {
            drop(items);
            Err(e)
        }
    }
}

fn two(operator: Operator, left: Simple, right: Simple) -> Expr {
    Expr::Two(operator, Term::Plain(left), Term::Plain(right))
}

fn one(simple: Simple) -> Expr {
    Expr::One(Term::Plain(simple))
}

/// Puts a wire of this width at the end.
fn declare(
    rt: &impl Abort,
    wires: &mut Wires,
    name: Name,
    width: u8,
    value: Expr,
) -> Result<(), AllocError> {
    let wire = Wire { name, width, value };
    assert!(rt; !wires.is_full());
    assert!(rt; wires.allows(&wire));
    wires.push(wire)
}

/// The narrow module of these wires with y and z.
fn module(rt: &impl Abort, wires: Wires, y: Expr, z: Expr) -> Module {
    let x = Expr::One(Term::Plain(Simple::Number {
        width: 32,
        value: 0,
    }));
    assert!(rt; wires.expr_width(&y) == Some(32));
    assert!(rt; wires.expr_width(&z) == Some(32));
    assert!(rt; wires.expr_width(&x) == Some(32));
    Module::new(0, 1, wires, y, z, x)
}

/// The wide module of these wires with y, z and x.
fn wide_module(rt: &impl Abort, wires: Wires, y: Expr, z: Expr, x: Expr) -> Module {
    assert!(rt; wires.is_wide());
    assert!(rt; wires.expr_width(&y) == Some(32));
    assert!(rt; wires.expr_width(&z) == Some(32));
    assert!(rt; wires.expr_width(&x) == Some(32));
    Module::new(0, 1, wires, y, z, x)
}

// Modules and expressions are let go by calls of `drop`, which a proof does not look into.

/// y, z and x, of which nothing is known.
fn value(module: Module, a: u32, b: u32, c: u32, d: u32, e: u32) -> (u32, u32, u32) {
    let values = eval(&module, a, b, c, d, e);
    drop(module);
    values
}

/// The module without wires, y and with z of this value.
fn constant(rt: &impl Abort, alloc: Global, z: u64) -> Module {
    module(
        rt,
        Wires::new(false, alloc),
        one(number(32, 7)),
        one(number(32, z)),
    )
}

/// Asserts the width of a name.
fn expect_width(
    rt: &impl Abort,
    alloc: Global,
    wires: &Wires,
    name: &[u8],
    width: Option<u8>,
) -> Result<(), AllocError> {
    let name = Name::new(name.to_vec(alloc)?);
    assert!(rt; wires.width_of(&name) == width);
    Ok(())
}

/// Asserts that an expression has no width.
fn expect_no_width(rt: &impl Abort, wires: &Wires, expr: Expr) {
    assert!(rt; wires.expr_width(&expr) == None);
    drop(expr);
}

/// A vector of 64 bits: the sign of a name of 32 bits above it.
fn signed(alloc: Global, wires: &Wires, name: &[u8]) -> Result<Term, AllocError> {
    let sign = Item::Repeat(32, bits(alloc, wires, name, 31, 31)?);
    joined(alloc, sign, Item::Plain(whole(alloc, wires, name)?))
}

/// A vector of 64 bits: zeros above a name of 32 bits.
fn unsigned(alloc: Global, wires: &Wires, name: &[u8]) -> Result<Term, AllocError> {
    let low = Item::Plain(whole(alloc, wires, name)?);
    joined(alloc, Item::Plain(number(32, 0)), low)
}

/// The product of a as a signed number and b as one that is not.
fn product(alloc: Global, wires: &Wires) -> Result<Expr, AllocError> {
    let left = signed(alloc, wires, b"a")?;
    match unsigned(alloc, wires, b"b") {
        Ok(right) => Ok(Expr::Two(Operator::Times, left, right)),
        Err(e) => {
            drop(left);
            Err(e)
        }
    }
}

/// An operator on two inputs.
fn on_both(
    alloc: Global,
    wires: &Wires,
    operator: Operator,
    left: &[u8],
    right: &[u8],
) -> Result<Expr, AllocError> {
    let left = whole(alloc, wires, left)?;
    let right = whole(alloc, wires, right)?;
    Ok(two(operator, left, right))
}

/// y of one operator on a and b.
fn on(
    rt: &impl Abort,
    alloc: Global,
    operator: Operator,
    a: u32,
    b: u32,
) -> Result<u32, AllocError> {
    let wires = Wires::new(false, alloc);
    match on_both(alloc, &wires, operator, b"a", b"b") {
        Ok(y) => {
            let module = module(rt, wires, y, one(number(32, 0)));
            Ok(value(module, a, b, 0, 0, 0).0)
        }
        Err(e) => {
            drop(wires);
            Err(e)
        }
    }
}

/// The upper half of the product, which is put into a wire.
fn upper_half(rt: &impl Abort, alloc: Global, wires: &mut Wires) -> Result<Expr, AllocError> {
    let name = Name::new(b"w0".to_vec(alloc)?);
    let product = product(alloc, wires)?;
    declare(rt, wires, name, 64, product)?;
    Ok(one(bits(alloc, wires, b"w0", 63, 32)?))
}

#[test]
fn mulhsu(rt: HostRuntime) -> Result<(), AllocError> {
    let mut wires = Wires::new(false, rt.alloc());
    match upper_half(&rt, rt.alloc(), &mut wires) {
        Ok(y) => {
            let module = module(&rt, wires, y, one(number(32, 0)));
            let values = value(module, 0x8000_0000, 0xffff_ffff, 0, 7, 9);
            assert!(rt; values == (0x8000_0000, 0, 0));
            Ok(())
        }
        Err(e) => {
            drop(wires);
            Err(e)
        }
    }
}

#[test]
fn five_inputs_and_three_results(rt: HostRuntime) -> Result<(), AllocError> {
    let wires = Wires::new(true, rt.alloc());
    match on_both(rt.alloc(), &wires, Operator::Minus, b"d", b"e") {
        Ok(y) => {
            let module = wide_module(&rt, wires, y, one(number(32, 3)), one(number(32, 5)));
            assert!(rt; module.is_wide());
            assert!(rt; value(module, 100, 200, 300, 10, 4) == (6, 3, 5));
            Ok(())
        }
        Err(e) => {
            drop(wires);
            Err(e)
        }
    }
}

/// Whether the first wire of a module may have the name.
fn allows(alloc: Global, wide: bool, name: &[u8]) -> Result<bool, AllocError> {
    let name = Name::new(name.to_vec(alloc)?);
    let wires = Wires::new(wide, alloc);
    let wire = Wire {
        name,
        width: 32,
        value: one(number(32, 7)),
    };
    let is_allowed = wires.allows(&wire);
    drop(wire);
    drop(wires);
    Ok(is_allowed)
}

/// Names of one letter, and whether a wire of a narrow module and of a wide one may have them.
fn letters() -> &'static [(u8, bool, bool)] {
    &[
        (b'a', false, false),
        (b'c', false, false),
        (b'd', true, false),
        (b'e', true, false),
        (b'x', true, false),
        (b'f', true, true),
    ]
}

#[test]
fn words_of_a_wide_module_name_no_wire(rt: HostRuntime) -> Result<(), AllocError> {
    for (letter, narrow, wide) in letters() {
        assert!(rt;
            allows(rt.alloc(), false, &[*letter])? == *narrow,
            "{letter}"
        );
        assert!(rt; allows(rt.alloc(), true, &[*letter])? == *wide, "{letter}");
    }
    Ok(())
}

// A long table is the answer of a function, so that the proof of a test doesn't look at it.

/// Operators, a, b and y.
fn corners() -> &'static [(Operator, u32, u32, u32)] {
    &[
        (Operator::Plus, 0xffff_ffff, 2, 1),
        (Operator::Minus, 1, 2, 0xffff_ffff),
        (Operator::Times, 0xffff_ffff, 0xffff_ffff, 1),
        (Operator::And, 0xf0f0_f0f0, 0xff00_ff00, 0xf000_f000),
        (Operator::Or, 0xf0f0_f0f0, 0xff00_ff00, 0xfff0_fff0),
        (Operator::Xor, 0xf0f0_f0f0, 0xff00_ff00, 0x0ff0_0ff0),
        (Operator::Left, 0x8000_0001, 31, 0x8000_0000),
        (Operator::Left, 1, 32, 0),
        (Operator::Right, 0x8000_0000, 31, 1),
        (Operator::Right, 0xffff_ffff, 32, 0),
    ]
}

#[test]
fn operators_at_corners(rt: HostRuntime) -> Result<(), AllocError> {
    for (operator, a, b, want) in corners() {
        assert!(rt;
            on(&rt, rt.alloc(), *operator, *a, *b)? == *want,
            "{operator:?} {a:x} {b:x}"
        );
    }
    Ok(())
}

/// Asserts the widths of names and of expressions with a wire of one bit.
fn expect_widths(rt: &impl Abort, alloc: Global, wires: &mut Wires) -> Result<(), AllocError> {
    let name = Name::new(b"w".to_vec(alloc)?);
    let less = two(Operator::Less, number(7, 1), number(7, 2));
    declare(rt, wires, name, 1, less)?;
    expect_width(rt, alloc, wires, b"w", Some(1))?;
    expect_width(rt, alloc, wires, b"c", Some(32))?;
    expect_width(rt, alloc, wires, b"y", None)?;
    let beyond = one(bits(alloc, wires, b"a", 32, 0)?);
    expect_no_width(rt, wires, beyond);
    let unlike = two(Operator::Plus, number(7, 1), number(8, 2));
    expect_no_width(rt, wires, unlike);
    Ok(())
}

#[test]
fn names_are_told(rt: HostRuntime) -> Result<(), AllocError> {
    let mut wires = Wires::new(false, rt.alloc());
    let outcome = expect_widths(&rt, rt.alloc(), &mut wires);
    drop(wires);
    outcome
}

/// Whether two modules with these values of z are equal.
fn equal_constants(rt: &impl Abort, alloc: Global, left: u64, right: u64) -> bool {
    let left = constant(rt, alloc, left);
    let right = constant(rt, alloc, right);
    let are_equal = left == right;
    drop(left);
    drop(right);
    are_equal
}

#[test]
fn equal_modules(rt: HostRuntime) {
    assert!(rt; equal_constants(&rt, rt.alloc(), 1, 1));
    assert!(rt; !equal_constants(&rt, rt.alloc(), 0, 1));
}
