//! What modules compute.
ghost use Rattle.std.specs.Prelude.{◌≡◌, ℕ, ◌<◌, ◌≤◌, ◌^◌, List, [], ◌∷◌, length, map, All};
ghost use Rattle.std.specs.List.{Contains};
ghost use Rattle.ci_verilog.specs.declared.vectors.Vector.{Vector};
ghost use Rattle.ci_verilog.specs.declared.expressions.Wire.{Wire};
ghost use Rattle.ci_verilog.specs.Modules.{known_by, vector, wires_of};
ghost use Rattle.ci_verilog.specs.Values.{joined, simple_bits, item_bits, term_bits, expr_value};
ghost use Rattle.ci_verilog.specs.Values.{IsValueOf, Settles};
ghost use Rattle.ci_verilog.specs.private.Held.{Holds, IsHeld, SimpleFits, ItemFits, ItemsFit, TermFits, ExprFits};

use crate::expressions::{Expr, Item, Name, Simple, Term, Wire};
use crate::lookup::{input_named, wire_named};
use crate::modules::Module;
use crate::vectors::{Vector, operate};

/// The values of the inputs, and of the wires so far.
#[derive(Clone, Copy)]
struct Scope<'a> {
    arguments: [u32; 5],
    wide: bool,
    wires: &'a [Wire],
    values: &'a [u64],
}

impl Scope<'_> {
    /// What the name stands for.
    fn name(&self, name: &Name) -> Vector
        requires room { length self.now.wires.now ≤ length self.now.values.now }
        requires known { (width : ℕ)
            × Contains (known_by (wires_of self.now.wide self.now.wires.now)) (vector name.now width) }
        ensures { (names : List ℕ → Vector)
            → Holds names self.now.arguments (wires_of self.now.wide self.now.wires.now) self.now.values.now
            → result ≡ names name.now }
    {
        match input_named(self.wide, name.as_bytes()) {
            Some(k) => Vector {
                width: 32,
                value: u64::from(self.arguments[k]),
            },
            None => match wire_named(self.wires, name) {
                Some(k) => Vector {
                    width: self.wires[k].width,
                    value: self.values[k],
                },
                None => Vector::empty(),
            },
        }
    }

    /// The bits of a simple.
    fn simple(&self, simple: &Simple) -> Vector
        requires room { length self.now.wires.now ≤ length self.now.values.now }
        requires held { IsHeld self.now.arguments (wires_of self.now.wide self.now.wires.now) self.now.values.now }
        requires fits { SimpleFits (wires_of self.now.wide self.now.wires.now) simple.now }
        ensures { (names : List ℕ → Vector)
            → Holds names self.now.arguments (wires_of self.now.wide self.now.wires.now) self.now.values.now
            → result ≡ simple_bits names simple.now }
    {
        match simple {
            Simple::Whole(name) => self.name(name),
            Simple::Bits(name, high, low) => self.name(name).part(*high, *low),
            Simple::Number { width, value } => Vector {
                width: *width,
                value: *value,
            },
        }
    }

    /// The bits of an item.
    fn item(&self, item: &Item) -> Vector
        requires room { length self.now.wires.now ≤ length self.now.values.now }
        requires held { IsHeld self.now.arguments (wires_of self.now.wide self.now.wires.now) self.now.values.now }
        requires fits { ItemFits (wires_of self.now.wide self.now.wires.now) item.now }
        ensures { (names : List ℕ → Vector)
            → Holds names self.now.arguments (wires_of self.now.wide self.now.wires.now) self.now.values.now
            → result ≡ item_bits names item.now }
    {
        match item {
            Item::Plain(simple) => self.simple(simple),
            Item::Repeat(count, simple) => self.simple(simple).repeated(*count),
        }
    }

    /// The bits of items, one behind the other.
    fn items(&self, items: &[Item]) -> Vector
        requires room { length self.now.wires.now ≤ length self.now.values.now }
        requires held { IsHeld self.now.arguments (wires_of self.now.wide self.now.wires.now) self.now.values.now }
        requires fits { ItemsFit (wires_of self.now.wide self.now.wires.now) items.now }
        ensures { (names : List ℕ → Vector)
            → Holds names self.now.arguments (wires_of self.now.wide self.now.wires.now) self.now.values.now
            → result ≡ joined (map (item_bits names) items.now) }
    {
        let mut bits = Vector::empty();
        for item in items {
            bits = bits.above(self.item(item));
        }
        bits
    }

    /// The bits of an operand.
    fn term(&self, term: &Term) -> Vector
        requires room { length self.now.wires.now ≤ length self.now.values.now }
        requires held { IsHeld self.now.arguments (wires_of self.now.wide self.now.wires.now) self.now.values.now }
        requires fits { TermFits (wires_of self.now.wide self.now.wires.now) term.now }
        ensures { (names : List ℕ → Vector)
            → Holds names self.now.arguments (wires_of self.now.wide self.now.wires.now) self.now.values.now
            → result ≡ term_bits names term.now }
    {
        match term {
            Term::Plain(simple) => self.simple(simple),
            Term::Repeat(count, simple) => self.simple(simple).repeated(*count),
            Term::Join(items) => self.items(items.as_slice()),
        }
    }

    /// The value of an expression.
    fn expr(&self, expr: &Expr) -> u64
        requires room { length self.now.wires.now ≤ length self.now.values.now }
        requires held { IsHeld self.now.arguments (wires_of self.now.wide self.now.wires.now) self.now.values.now }
        requires fits { ExprFits (wires_of self.now.wide self.now.wires.now) expr.now }
        ensures { (names : List ℕ → Vector)
            → Holds names self.now.arguments (wires_of self.now.wide self.now.wires.now) self.now.values.now
            → result ≡ expr_value names expr.now }
    {
        match expr {
            Expr::One(term) => self.term(term).value,
            Expr::Two(operator, left, right) => {
                operate(*operator, self.term(left), self.term(right))
            }
            Expr::Choose(test, first, second) => {
                if self.term(test).value == 0 {
                    self.term(second).value
                } else {
                    self.term(first).value
                }
            }
        }
    }
}

/// The values of the wires, in their order.
fn evaluate(module: &Module, arguments: [u32; 5], values: &mut [u64])
    requires words { All (λ n. n < 2 ^ 32) arguments }
    requires room { length values.old ≡ 2048 }
    ensures { (names : List ℕ → Vector) → Settles «module».now arguments names
        → Holds names arguments «module».now.wires values.new }
{
    let all = module.wires();
    let wide = all.is_wide();
    let wires = all.as_slice();
    for k in 0..wires.len() {
        let scope = Scope {
            arguments,
            wide,
            wires: &wires[..k],
            values,
        };
        values[k] = scope.expr(&wires[k].value);
    }
}

/// The values of y, z and x where the inputs have the values a to e (IEEE 1364-2005, section 6.1). It takes no memory.
pub fn eval(module: &Module, a: u32, b: u32, c: u32, d: u32, e: u32) -> (u32, u32, u32)
    ensures { IsValueOf «module».now (a ∷ b ∷ c ∷ d ∷ e ∷ []) (result.0 ∷ result.1 ∷ result.2 ∷ []) }
{
    let arguments = [a, b, c, d, e];
    let mut values = [0; 2048];
    evaluate(module, arguments, &mut values);
    let all = module.wires();
    let scope = Scope {
        arguments,
        wide: all.is_wide(),
        wires: all.as_slice(),
        values: &values,
    };
    (
        scope.expr(module.y()) as u32,
        scope.expr(module.z()) as u32,
        scope.expr(module.x()) as u32,
    )
}
