//! The widths of terms and expressions (IEEE 1364-2005, section 5.4), and which have none.
ghost use Rattle.std.specs.Prelude.{◌≡◌, ℕ, ◌*◌, ◌≤◌, ◌<◌, ◌^◌, ◌+◌, ◌-◌, ◌↔◌, Some, IsTrue};
ghost use Rattle.std.specs.List.{Contains};
ghost use Rattle.ci_verilog.specs.Modules.{known_by, vector, Makes};
ghost use Rattle.ci_verilog.specs.Modules.{IsSimple, IsItem, AreItems, IsTerm, IsExpr, IsNew, IsWire, IsFree};

use crate::expressions::{Expr, Item, Name, Operator, Simple, Term, Wire};
use crate::lookup::{input_named, wire_named};
use crate::wires::Wires;

/// The width of the bits from the high one to the low one, in a vector of this width.
fn part(width: u8, high: u8, low: u8) -> Option<u8>
    ensures { (w : ℕ) → (result ≡ Some w) ↔ ((high < width) × (low ≤ high) × (w ≡ high + 1 - low)) }
{
    if high < width && low <= high {
        Some(high + 1 - low)
    } else {
        None
    }
}

/// The width of so many copies of this width.
fn repeated(count: u8, width: u8) -> Option<u8>
    ensures { (w : ℕ) → (result ≡ Some w) ↔ ((1 ≤ count) × (count * width ≤ 64) × (w ≡ count * width)) }
{
    if count >= 1 && u16::from(count) * u16::from(width) <= 64 {
        Some(count * width)
    } else {
        None
    }
}

/// The width of a constant, where it is in range and the value fits it.
fn constant(width: u8, value: u64) -> Option<u8>
    ensures { (w : ℕ) → (result ≡ Some w) ↔ ((1 ≤ width) × (width ≤ 64) × (value < 2 ^ width) × (w ≡ width)) }
{
    if 1 <= width && width <= 64 && u128::from(value) < 1 << width {
        Some(width)
    } else {
        None
    }
}

/// The width that the operator makes of operands of these widths.
fn made(operator: Operator, left: u8, right: u8) -> Option<u8>
    ensures { (w : ℕ) → (result ≡ Some w) ↔ Makes operator left right w }
{
    match operator {
        Operator::Left | Operator::Right => Some(left),
        Operator::Less => (left == right).then_some(1),
        _ => (left == right).then_some(left),
    }
}

/// The width of a choice with operands of these widths.
fn chosen(test: u8, first: u8, second: u8) -> Option<u8>
    ensures { (w : ℕ) → (result ≡ Some w) ↔ ((test ≡ 1) × (first ≡ second) × (w ≡ first)) }
{
    if test == 1 && first == second {
        Some(first)
    } else {
        None
    }
}

/// Whether a wire may have this name, in a wide module or in a narrow one.
fn is_free(wide: bool, name: &[u8]) -> bool
    ensures { IsTrue result ↔ IsFree wide name.now }
{
    match name {
        b"x" => !wide,
        _ => true,
    }
}

/// Whether a wire of the first width may have an expression of the second.
fn is_declared(declared: u8, width: u8) -> bool
    ensures { IsTrue result ↔ ((1 ≤ declared) × (declared ≤ 64) × (declared ≡ width)) }
{
    1 <= declared && declared <= 64 && declared == width
}

impl Wires {
    /// The width of an input or a wire with this name.
    pub fn width_of(&self, name: &Name) -> Option<u8>
        ensures { (w : ℕ) → (result ≡ Some w) ↔ Contains (known_by self.now) (vector name.now w) }
    {
        let wires = self.as_slice();
        match input_named(self.is_wide(), name.as_bytes()) {
            Some(_) => Some(32),
            None => match wire_named(wires, name) {
                Some(place) => Some(wires[place].width),
                None => None,
            },
        }
    }

    /// Whether no input or wire has this name.
    pub fn is_new(&self, name: &Name) -> bool
        ensures { IsTrue result ↔ IsNew (known_by self.now) name.now }
    {
        self.width_of(name).is_none()
    }

    /// The width of a name, of bits of it, or of a constant, where it has one: the name is known, the bits are in its
    /// range, and the constant fits.
    pub fn simple_width(&self, simple: &Simple) -> Option<u8>
        ensures { (w : ℕ) → (result ≡ Some w) ↔ IsSimple (known_by self.now) simple.now w }
    {
        match simple {
            Simple::Whole(name) => self.width_of(name),
            Simple::Bits(name, high, low) => match self.width_of(name) {
                Some(width) => part(width, *high, *low),
                None => None,
            },
            Simple::Number { width, value } => constant(*width, *value),
        }
    }

    /// The width of an item, where it has one.
    pub fn item_width(&self, item: &Item) -> Option<u8>
        ensures { (w : ℕ) → (result ≡ Some w) ↔ IsItem (known_by self.now) item.now w }
    {
        match item {
            Item::Plain(simple) => self.simple_width(simple),
            Item::Repeat(count, simple) => match self.simple_width(simple) {
                Some(width) => repeated(*count, width),
                None => None,
            },
        }
    }

    /// The width of the items of a concatenation together, where each has one and the sum is at most 64.
    pub fn items_width(&self, items: &[Item]) -> Option<u8>
        ensures { (w : ℕ) → (result ≡ Some w) ↔ (AreItems (known_by self.now) items.now w × (w ≤ 64)) }
    {
        let mut sum = 0;
        for item in items {
            let width = self.item_width(item)?;
            if width > 64 - sum {
                return None;
            }
            sum += width;
        }
        if items.is_empty() { None } else { Some(sum) }
    }

    /// The width of an operand, where it has one.
    pub fn term_width(&self, term: &Term) -> Option<u8>
        ensures { (w : ℕ) → (result ≡ Some w) ↔ IsTerm (known_by self.now) term.now w }
    {
        match term {
            Term::Plain(simple) => self.simple_width(simple),
            Term::Repeat(count, simple) => match self.simple_width(simple) {
                Some(width) => repeated(*count, width),
                None => None,
            },
            Term::Join(items) => self.items_width(items.as_slice()),
        }
    }

    /// The width of an expression, where it has one: its operands have one, and these agree.
    pub fn expr_width(&self, expr: &Expr) -> Option<u8>
        ensures { (w : ℕ) → (result ≡ Some w) ↔ IsExpr (known_by self.now) expr.now w }
    {
        match expr {
            Expr::One(term) => self.term_width(term),
            Expr::Two(operator, left, right) => {
                let left = self.term_width(left)?;
                let right = self.term_width(right)?;
                made(*operator, left, right)
            }
            Expr::Choose(test, first, second) => {
                let test = self.term_width(test)?;
                let first = self.term_width(first)?;
                let second = self.term_width(second)?;
                chosen(test, first, second)
            }
        }
    }

    /// Whether the wire may be the next one: its name is new, and in a wide module it isn't x, and it has the width of
    /// its expression, from 1 to 64.
    pub fn allows(&self, wire: &Wire) -> bool
        ensures { IsTrue result ↔ (IsWire (known_by self.now) wire.now × IsFree self.now.wide wire.now.name) }
    {
        if !self.is_new(&wire.name) {
            return false;
        }
        if !is_free(self.is_wide(), wire.name.as_bytes()) {
            return false;
        }
        match self.expr_width(&wire.value) {
            Some(width) => is_declared(wire.width, width),
            None => false,
        }
    }
}
