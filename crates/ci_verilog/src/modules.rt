//! Whole modules (IEEE 1364-2005, section 12.1).
ghost use Rattle.std.specs.Prelude.{◌≡◌, false};

use crate::expressions::Expr;
use crate::wires::Wires;
use std::marker::Model;

/// A narrow module, with the inputs a, b and c and the results y and z, or a wide one, which has the inputs d and e and
/// the result x too, all of 32 bits. The x of a narrow one is the constant 0.
///
/// Each name in a term is an input or an earlier wire, no two of these have one name, no wire of a wide one is named x,
/// widths are from 1 to 64 and agree, constants, counts, indices and ranges are within their bounds, and there are at
/// most 2,048 wires.
#[derive(Drop)]
pub struct Module {
    number: u8,
    cycles: u32,
    wires: Wires,
    y: Expr,
    z: Expr,
    x: Expr,
}

impl Model for Module {
    ghost use Rattle.ci_verilog.specs.Modules.{Module, IsModule};

    ghost Value = { Module };

    ghost view = { λ m. record { number = m.number; cycles = m.cycles; wires = m.wires; y = m.y; z = m.z; x = m.x } };

    ghost invariant = { λ m.
        IsModule (record { number = m.number; cycles = m.cycles; wires = m.wires; y = m.y; z = m.z; x = m.x }) };
}

/// Modules are equal where their numbers, their cycles, their wires and the expressions of their results are.
impl PartialEq for Module {
    ghost use Rattle.std.specs.Cmp.{partial_equiv_from_equiv};
    ghost use Rattle.ci_verilog.specs.ModuleEquality.{same_module, modules_equivalent};

    ghost eq = { same_module };

    ghost laws = { partial_equiv_from_equiv modules_equivalent };

    fn eq(&self, other: &Module) -> bool {
        self.number == other.number
            && self.cycles == other.cycles
            && self.wires == other.wires
            && self.y == other.y
            && self.z == other.z
            && self.x == other.x
    }
}

impl Eq for Module {
    ghost use Rattle.ci_verilog.specs.ModuleEquality.{modules_equivalent};

    ghost laws = { modules_equivalent };
}

impl Module {
    ghost use Rattle.ci_verilog.specs.Modules.{IsModule, IsExpr, known_by, nothing};

    /// The module of this number with these wires and results. `cycles` are those of one use.
    pub fn new(number: u8, cycles: u32, wires: Wires, y: Expr, z: Expr, x: Expr) -> Module
        requires y_is_word { IsExpr (known_by wires) y 32 }
        requires z_is_word { IsExpr (known_by wires) z 32 }
        requires x_is_word { IsExpr (known_by wires) x 32 }
        requires narrow { wires.wide ≡ false → x ≡ nothing }
        ensures { result ≡ record { number = number; cycles = cycles; wires = wires; y = y; z = z; x = x } }
    {
        let _count = wires.len();
        Module {
            number,
            cycles,
            wires,
            y,
            z,
            x,
        }
    }

    /// The number, from 0 in the order of the text.
    pub fn number(&self) -> u8
        ensures { result ≡ self.now.number }
    {
        self.number
    }

    /// The cycles of one use.
    pub fn cycles(&self) -> u32
        ensures { result ≡ self.now.cycles }
    {
        self.cycles
    }

    /// The wires, in their order.
    pub fn wires(&self) -> &Wires
        ensures value { result.now ≡ self.now.wires }
        ensures kept { IsModule self.now }
    {
        &self.wires
    }

    /// Whether it is a wide one.
    pub fn is_wide(&self) -> bool
        ensures { result ≡ self.now.wires.wide }
    {
        self.wires.is_wide()
    }

    /// The expression of y.
    pub fn y(&self) -> &Expr
        ensures { result.now ≡ self.now.y }
    {
        &self.y
    }

    /// The expression of z.
    pub fn z(&self) -> &Expr
        ensures { result.now ≡ self.now.z }
    {
        &self.z
    }

    /// The expression of x.
    pub fn x(&self) -> &Expr
        ensures { result.now ≡ self.now.x }
    {
        &self.x
    }
}
