//! How many gates a module takes.
ghost use Rattle.std.specs.Prelude.{◌≡◌, ◌≤◌};
ghost use Rattle.ci_verilog.specs.Modules.{known_by, IsTerm};
ghost use Rattle.ci_verilog.specs.private.Held.{TermFits, ExprFits};
ghost use Rattle.ci_gates.specs.Counts.{operator_gates, HasGates, IsCountOf};

use ci_verilog::{Expr, Module, Operator, Term, Wires};

/// The most gates of an expression: those of a product of words of 64 bits.
const MOST: u64 = 12_480;

/// The gates of an operator on words of these widths.
fn operator_gates(operator: Operator, left: u64, right: u64) -> u64
    requires left { left ≤ 64 }
    requires right { right ≤ 64 }
    ensures value { result ≡ operator_gates operator left right }
    ensures most { result ≤ 12480 }
{
    match operator {
        Operator::And | Operator::Or | Operator::Xor => left,
        Operator::Plus => 5 * left,
        Operator::Minus => 6 * left,
        Operator::Less => 6 * left + 1,
        Operator::Times => 3 * left * (left + 1),
        Operator::Left | Operator::Right => 3 * left * right,
    }
}

/// The width of an operand.
fn width(wires: &Wires, term: &Term) -> u64
    requires { TermFits wires.now term.now }
    ensures width { IsTerm (known_by wires.now) term.now result }
    ensures narrow { result ≤ 64 }
{
    // What the wires keep.
    let _wires = wires.as_slice();
    match wires.term_width(term) {
        Some(width) => u64::from(width),
        None => 0,
    }
}

/// The gates of an expression.
fn expr_gates(wires: &Wires, expr: &Expr) -> u64
    requires { ExprFits wires.now expr.now }
    ensures value { HasGates (known_by wires.now) expr.now result }
    ensures most { result ≤ 12480 }
{
    match expr {
        Expr::One(_) => 0,
        Expr::Two(operator, left, right) => {
            operator_gates(*operator, width(wires, left), width(wires, right))
        }
        Expr::Choose(_, first, _) => 3 * width(wires, first),
    }
}

/// How many gates the module takes: those of the operators in its wires and results, whatever their operands are. It
/// takes no memory.
pub fn count(module: &Module) -> u64
    ensures value { IsCountOf «module».now result }
    ensures most { result ≤ 25596480 }
{
    let wires = module.wires();
    let list = wires.as_slice();
    let mut sum = 0;
    for wire in list {
        sum += expr_gates(wires, &wire.value);
    }
    sum + expr_gates(wires, module.y())
        + expr_gates(wires, module.z())
        + expr_gates(wires, module.x())
}
