//! From modules to their text.
ghost use Rattle.std.specs.Prelude.{◌≡◌, ◌++◌, codes, IfOk, OnOk};
ghost use Rattle.std.specs.List.{join_by};
ghost use Rattle.std.specs.Fmt.{decimal};
ghost use Rattle.ci_vread.specs.Lexicon.{operator_spelling};
ghost use Rattle.ci_vread.specs.Spelling.{Spell};
ghost use Rattle.ci_vemit.specs.Templates.{modules_of};
ghost use Rattle.ci_vemit.specs.Texts.{hex_digits, range_text, simple_text, repeat_text, item_text, term_text};
ghost use Rattle.ci_vemit.specs.Texts.{expr_text, assign_text, wire_text, cycles_text, ports_text, header_text};
ghost use Rattle.ci_vemit.specs.Texts.{third_text, end_text, module_text, text_of, AreSpellable};

use crate::building::modules;
use ci_reading::hex_text;
use ci_unit::UnitTable;
use ci_verilog::{Expr, Item, Items, Module, Name, Operator, Simple, Term, Wire};
use std::alloc::{AllocError, Global};

/// Appends words or marks.
fn push_str(text: &mut Vec<u8>, piece: &str) -> Result<(), AllocError>
    ensures { OnOk result (text.new.items ≡ text.old.items ++ piece.now) }
{
    text.extend_from_slice(piece.as_bytes())
}

/// Appends a name.
fn push_name(text: &mut Vec<u8>, name: &Name) -> Result<(), AllocError>
    ensures { OnOk result (text.new.items ≡ text.old.items ++ name.now) }
{
    text.extend_from_slice(name.as_bytes())
}

/// Appends a number in decimal digits.
fn push_number(text: &mut Vec<u8>, number: u32) -> Result<(), AllocError>
    ensures { OnOk result (text.new.items ≡ text.old.items ++ decimal number) }
{
    let digits = format!(in *text.allocator(); "{number}")?;
    text.extend_from_slice(digits.as_bytes())
}

/// Appends the hexadecimal digits of a value of this width.
fn push_hex_digits(text: &mut Vec<u8>, width: u8, value: u64) -> Result<(), AllocError>
    ensures { OnOk result (text.new.items ≡ text.old.items ++ hex_digits width value) }
{
    let alloc = *text.allocator();
    if width > 32 {
        text.extend_from_slice(hex_text(alloc, (value >> 32) as u32)?.as_bytes())?;
    }
    text.extend_from_slice(hex_text(alloc, (value % (1 << 32)) as u32)?.as_bytes())
}

/// Appends a range of bits.
fn push_range(text: &mut Vec<u8>, high: u8, low: u8) -> Result<(), AllocError>
    ensures { OnOk result (text.new.items ≡ text.old.items ++ range_text high low) }
{
    push_number(text, u32::from(high))?;
    if high != low {
        push_str(text, ":")?;
        push_number(text, u32::from(low))?;
    }
    Ok(())
}

fn push_simple(text: &mut Vec<u8>, simple: &Simple) -> Result<(), AllocError>
    ensures { OnOk result (text.new.items ≡ text.old.items ++ simple_text simple.now) }
{
    match simple {
        Simple::Whole(name) => push_name(text, name),
        Simple::Bits(name, high, low) => {
            push_name(text, name)?;
            push_str(text, "[")?;
            push_range(text, *high, *low)?;
            push_str(text, "]")
        }
        Simple::Number { width, value } => {
            push_number(text, u32::from(*width))?;
            push_str(text, "'h")?;
            push_hex_digits(text, *width, *value)
        }
    }
}

fn push_repeat(text: &mut Vec<u8>, count: u8, simple: &Simple) -> Result<(), AllocError>
    ensures { OnOk result (text.new.items ≡ text.old.items ++ repeat_text count simple.now) }
{
    push_str(text, "{")?;
    push_number(text, u32::from(count))?;
    push_str(text, "{")?;
    push_simple(text, simple)?;
    push_str(text, "}}")
}

fn push_item(text: &mut Vec<u8>, item: &Item) -> Result<(), AllocError>
    ensures { OnOk result (text.new.items ≡ text.old.items ++ item_text item.now) }
{
    match item {
        Item::Plain(simple) => push_simple(text, simple),
        Item::Repeat(count, simple) => push_repeat(text, *count, simple),
    }
}

/// Appends the items of a concatenation.
fn push_items(text: &mut Vec<u8>, items: &Items) -> Result<(), AllocError>
    ensures { OnOk result (text.new.items ≡ text.old.items ++ join_by item_text (codes ", ") items.now) }
{
    if let Some((first, others)) = items.as_slice().split_first() {
        push_item(text, first)?;
        for item in others {
            push_str(text, ", ")?;
            push_item(text, item)?;
        }
    }
    Ok(())
}

fn push_term(text: &mut Vec<u8>, term: &Term) -> Result<(), AllocError>
    ensures { OnOk result (text.new.items ≡ text.old.items ++ term_text term.now) }
{
    match term {
        Term::Plain(simple) => push_simple(text, simple),
        Term::Repeat(count, simple) => push_repeat(text, *count, simple),
        Term::Join(items) => {
            push_str(text, "{")?;
            push_items(text, items)?;
            push_str(text, "}")
        }
    }
}

fn push_operator(text: &mut Vec<u8>, operator: Operator) -> Result<(), AllocError>
    ensures { OnOk result (text.new.items ≡ text.old.items ++ operator_spelling operator) }
{
    push_str(
        text,
        match operator {
            Operator::Plus => "+",
            Operator::Minus => "-",
            Operator::Times => "*",
            Operator::And => "&",
            Operator::Or => "|",
            Operator::Xor => "^",
            Operator::Left => "<<",
            Operator::Right => ">>",
            Operator::Less => "<",
        },
    )
}

fn push_expr(text: &mut Vec<u8>, expr: &Expr) -> Result<(), AllocError>
    ensures { OnOk result (text.new.items ≡ text.old.items ++ expr_text expr.now) }
{
    match expr {
        Expr::One(term) => push_term(text, term),
        Expr::Two(operator, left, right) => {
            push_term(text, left)?;
            push_str(text, " ")?;
            push_operator(text, *operator)?;
            push_str(text, " ")?;
            push_term(text, right)
        }
        Expr::Choose(test, first, second) => {
            push_term(text, test)?;
            push_str(text, " ? ")?;
            push_term(text, first)?;
            push_str(text, " : ")?;
            push_term(text, second)
        }
    }
}

/// Appends the assignment of a value to the wire or result of this name.
#[tactic(auto, unfolding(crate::specs::Texts::assign_text))]
fn push_assign(text: &mut Vec<u8>, name: &[u8], value: &Expr) -> Result<(), AllocError>
    ensures { OnOk result (text.new.items ≡ text.old.items ++ assign_text name.now value.now) }
{
    push_str(text, "assign ")?;
    text.extend_from_slice(name)?;
    push_str(text, " = ")?;
    push_expr(text, value)?;
    push_str(text, ";\n")
}

#[tactic(auto, unfolding(crate::specs::Texts::wire_text))]
fn push_wire(text: &mut Vec<u8>, wire: &Wire) -> Result<(), AllocError>
    ensures { OnOk result (text.new.items ≡ text.old.items ++ wire_text wire.now) }
{
    push_str(text, "wire [")?;
    push_number(text, u32::from(wire.width.saturating_sub(1)))?;
    push_str(text, ":0] ")?;
    push_name(text, &wire.name)?;
    push_str(text, ";\n")?;
    push_assign(text, wire.name.as_bytes(), &wire.value)
}

/// Appends the line of a module's cycles.
#[tactic(auto, unfolding(crate::specs::Texts::cycles_text))]
fn push_cycles(text: &mut Vec<u8>, cycles: u32) -> Result<(), AllocError>
    ensures { OnOk result (text.new.items ≡ text.old.items ++ cycles_text cycles) }
{
    push_str(text, "// cycles ")?;
    push_number(text, cycles)?;
    push_str(text, "\n")
}

/// Appends the ports of a narrow module, or of a wide one.
#[tactic(auto, unfolding(crate::specs::Texts::ports_text))]
fn push_ports(text: &mut Vec<u8>, wide: bool) -> Result<(), AllocError>
    ensures { OnOk result (text.new.items ≡ text.old.items ++ ports_text wide) }
{
    if !wide {
        return push_str(
            text,
            "(input [31:0] a, input [31:0] b, input [31:0] c, output [31:0] y, output [31:0] z);",
        );
    }
    push_str(
        text,
        "(input [31:0] a, input [31:0] b, input [31:0] c, input [31:0] d, input [31:0] e, ",
    )?;
    push_str(text, "output [31:0] y, output [31:0] z, output [31:0] x);")
}

/// Appends the line of a module's name and ports.
#[tactic(auto, unfolding(crate::specs::Texts::header_text))]
fn push_header(text: &mut Vec<u8>, wide: bool, number: u8) -> Result<(), AllocError>
    ensures { OnOk result (text.new.items ≡ text.old.items ++ header_text wide number) }
{
    push_str(text, "module ci_")?;
    push_number(text, u32::from(number))?;
    push_ports(text, wide)?;
    push_str(text, "\n")
}

#[tactic(auto, unfolding(crate::specs::Texts::module_text))]
fn push_module(text: &mut Vec<u8>, module: &Module) -> Result<(), AllocError>
    ensures { OnOk result (text.new.items ≡ text.old.items ++ module_text «module».now) }
{
    push_cycles(text, module.cycles())?;
    let wires = module.wires();
    push_header(text, wires.is_wide(), module.number())?;
    for wire in wires.as_slice() {
        push_wire(text, wire)?;
    }
    push_end(text, module)
}

/// Appends the assignments of a module's results, and its end.
#[tactic(auto, unfolding(crate::specs::Texts::end_text))]
fn push_end(text: &mut Vec<u8>, module: &Module) -> Result<(), AllocError>
    ensures { OnOk result (text.new.items ≡ text.old.items ++ end_text «module».now) }
{
    push_assign(text, b"y", module.y())?;
    push_assign(text, b"z", module.z())?;
    push_third(text, module.wires().is_wide(), module.x())?;
    push_str(text, "endmodule\n")
}

/// Appends the assignment of the result x of a wide module.
#[tactic(auto, unfolding(crate::specs::Texts::third_text))]
fn push_third(text: &mut Vec<u8>, wide: bool, x: &Expr) -> Result<(), AllocError>
    ensures { OnOk result (text.new.items ≡ text.old.items ++ third_text wide x.now) }
{
    if wide {
        push_assign(text, b"x", x)
    } else {
        Ok(())
    }
}

/// The text of the modules, in their order: one statement a line.
///
/// # Errors
///
/// Out of memory.
pub fn text(alloc: Global, modules: &[Module]) -> Result<Vec<u8>, AllocError>
    ensures value { IfOk result (λ bytes. bytes.items ≡ text_of modules.now) }
    ensures spells { AreSpellable 0 modules.now → IfOk result (λ bytes. Spell bytes.items modules.now) }
{
    let mut text = Vec::new(alloc);
    for module in modules {
        push_module(&mut text, module)?;
    }
    Ok(text)
}

/// The text of the modules of a table's units, in the order of their numbers.
///
/// # Errors
///
/// Out of memory.
pub fn emit(alloc: Global, units: &UnitTable) -> Result<Vec<u8>, AllocError>
    ensures value { IfOk result (λ bytes. bytes.items ≡ text_of (modules_of units.now)) }
    ensures spells { IfOk result (λ bytes. Spell bytes.items (modules_of units.now)) }
{
    // What a table keeps is known where its units are read.
    let _units = units.as_slice();
    let modules = modules(alloc, units)?;
    text(alloc, &modules)
}
