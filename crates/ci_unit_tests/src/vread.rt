//! The fault of texts by its kind and place: for each kind one that has it, and some that have none; and values of
//! modules that were read.
use ci_verilog::{Module, eval};
use ci_vread::{VFault, read};
use std::alloc::AllocError;
use std::process::Abort;

/// The first three ports of a module, behind its name.
const INPUTS: &str = "(input [31:0] a, input [31:0] b, input [31:0] c, ";

/// The others of a narrow module.
const NARROW: &str = "output [31:0] y, output [31:0] z);\n";

/// The others of a wide module.
const WIDE: &str =
    "input [31:0] d, input [31:0] e, output [31:0] y, output [31:0] z, output [31:0] x);\n";

// Long tables are the answers of functions, so that the proof of a test looks at none of them, and what owns memory is
// let go by a call of `drop`.

/// Texts, and the kind and the offset of their fault: twice 0 where a text has none.
fn texts() -> &'static [(&'static str, u8, u32)] {
    &[
        ("", 0, 0),
        (" \t\n", 0, 0),
        ("@", 1, 0),
        ("// cycles 01\n", 1, 0),
        ("// cycles 12345678\n", 1, 0),
        ("x", 2, 0),
        ("d", 2, 0),
        ("// cycles 0\n moduleci_0(", 2, 13),
        ("// cycles 0\nmodules ci_0(", 2, 12),
        ("// cycles 1\nmodule 0", 2, 19),
        ("// cycles 1\nmodule ci_0(input [30:0] a", 2, 31),
        ("// cycles 1\nmodule ci_1(", 9, 19),
        ("// cycles 1\nmodule ci_0 x", 2, 24),
        ("// cycles 1\nmodule d(", 9, 19),
        ("// cycles 1\nmodule x", 9, 19),
    ]
}

/// What stands behind the first three ports, up to which there are 72 bytes, and the kind and the offset of the fault.
fn ports() -> &'static [(&'static str, u8, u32)] {
    &[
        ("", 2, 72),
        ("in", 2, 72),
        ("input", 2, 77),
        ("output", 2, 78),
        ("wire", 2, 72),
        ("@", 1, 72),
        ("d", 2, 72),
        ("input [30:0] d", 2, 79),
        ("input [31:0] d", 2, 86),
        ("input [31:0] e", 2, 85),
        ("input [31:0] d,", 2, 87),
        ("input [31:0] d, output", 2, 88),
        ("input [31:0] d, input [31:0] d", 2, 101),
        (
            "input [31:0] d, input [31:0] e, output [31:0] y, output [31:0] z)",
            2,
            136,
        ),
        (
            "input [31:0] d, input [31:0] e, output [31:0] y, output [31:0] z, output [31:0] w",
            2,
            152,
        ),
        (
            "input [31:0] d, input [31:0] e, output [31:0] y, output [31:0] z, input",
            2,
            138,
        ),
        (
            "output [31:0] y, output [31:0] z, output [31:0] x);",
            2,
            104,
        ),
        ("output [31:0] y, input", 2, 89),
        ("input [31:0] dd", 2, 85),
        (
            "input [31:0] d, input [31:0] e, output [31:0] y, output [31:0] z, output [31:0] x,",
            2,
            153,
        ),
    ]
}

/// What stands behind the first two lines of a narrow module, which are 107 bytes, and the kind and the offset of the
/// fault.
fn bodies() -> &'static [(&'static str, u8, u32)] {
    &[
        (
            "assign y = {a[31], a[30:1], b[3:3]};\nassign z = {1{a}};\nendmodule\n",
            0,
            0,
        ),
        ("assign\ty=b;assign z=32'hFFFFffff;endmodule", 0, 0),
        ("assign y = 'h0;", 1, 118),
        ("assign y = a + b + c;", 2, 124),
        ("assign y = 31'h0", 2, 123),
        ("wire [0:0] w;\nassign w = 1'h1;\nwire [0:0] w;", 4, 149),
        ("wire [0:0] w;\nassign w = 1'h1;\nassign y = w;", 5, 149),
        ("assign y = {a[15:0], b[14:0]};", 5, 135),
        ("wire [6:0] w;\nassign w = {32'h0}@", 5, 138),
        (
            "wire [0:0] w;\nassign w = 1'h1;\nassign y = w ? a : b;\nassign z = a;\nendmodule\n",
            0,
            0,
        ),
        ("assign y = 65'h0;", 5, 118),
        ("assign y = 65'h0", 6, 118),
        ("wire [64:0] w;", 6, 113),
        (
            "wire [63:0] v;\nassign v = {a, b};\nassign y = a;\nassign z = a;\nendmodule\n",
            0,
            0,
        ),
        ("assign y = {a, b, c};", 6, 125),
        ("wire [0:0] w;\nassign v = 1'h0;", 7, 128),
        ("assign y = a;\nassign z = b;\nendmodule\n", 0, 0),
        (
            "assign y = a;\nassign z = b;\nassign x = c;\nendmodule\n",
            2,
            135,
        ),
        ("assign y = x;", 3, 118),
        ("assign y = d;", 3, 118),
        ("assign y = e;", 3, 118),
        (
            "wire [31:0] d;\nassign d = a;\nwire [31:0] e;\nassign e = d;\nwire [31:0] x;\nassign x = e;\nassign y = x;\nassign z = d;\nendmodule\n",
            0,
            0,
        ),
        ("wire [31:0] d;\nassign d = a;\nwire [31:0] d;", 4, 148),
        ("wire [31:0] x;\nassign d = a;", 7, 129),
        ("wire [31:0] w;\nassign x = a;", 7, 129),
        ("wire [31:0] w;\nassign d = a;", 7, 129),
    ]
}

/// What stands behind the first two lines of a wide module, which are 156 bytes, and the kind and the offset of the
/// fault.
fn wide_bodies() -> &'static [(&'static str, u8, u32)] {
    &[
        (
            "assign y = a;\nassign z = b;\nassign x = c;\nendmodule\n",
            0,
            0,
        ),
        (
            "assign y = d;\nassign z = d ^ e;\nassign x = {d[31:16], e[15:0]};\nendmodule",
            0,
            0,
        ),
        ("assign y = a;\nassign z = b;\nendmodule\n", 2, 184),
        ("assign y = a;\nassign x = b;", 2, 177),
        ("assign y = a;\nassign z = b;\nassign z = c;", 2, 191),
        ("assign y = a;\nassign z = b;\nassign x = 31'h0;", 5, 195),
        ("assign y = a;\nassign z = b;\nassign x = 32'h0", 2, 200),
        (
            "assign y = a;\nassign z = b;\nassign x = 33'h1ffffffff;",
            5,
            195,
        ),
        ("assign y = a;\nassign z = b;\nassign d = a;", 2, 191),
        ("assign x = a;", 2, 163),
        (
            "assign y = a;\nassign z = b;\nassign x = c;\nassign",
            2,
            198,
        ),
        ("assign y = x;", 2, 167),
        ("assign y = x", 2, 167),
        ("assign y = y;", 2, 167),
        ("assign y = w;", 3, 167),
        ("assign y = {2{x", 2, 170),
        ("assign y = a + x[0];", 2, 171),
        ("assign y = d + e", 2, 172),
        ("wire [31:0] d", 2, 168),
        ("wire [31:0] e;", 2, 168),
        ("wire [31:0] x;", 2, 168),
        ("wire [31:0] a", 2, 168),
        (
            "wire [31:0] dx;\nassign dx = e;\nassign y = a;\nassign z = b;\nassign x = c;\nendmodule\n",
            0,
            0,
        ),
        (
            "wire [0:0] xx; assign xx = d < e;\nassign y = a;\nassign z = b;\nassign x = c;\nendmodule\n",
            0,
            0,
        ),
        ("wire [31:0] w;\nassign x = a;", 2, 178),
        ("wire [31:0] w;\nassign d = a;", 2, 178),
        ("wire [31:0] w;\nassign e = a;", 2, 178),
        ("wire [31:0] w;\nassign v = a;", 7, 178),
        ("wire [31:0] w;\nassign y = a;", 2, 178),
        ("wire [31:0] w;\nassign w = e;\nwire [31:0] w;", 4, 197),
        (
            "wire [7:0] w;\nassign w = e[7:0];\nassign y = {w, w, d[15:0]};\nassign z = e >> w;\nassign x = {4{w}};\nendmodule\n",
            0,
            0,
        ),
        ("assign y = d[32];", 6, 169),
        ("assign y = e[3:4];", 6, 171),
        ("assign y = {d, e, 1'h0};", 6, 174),
    ]
}

/// Whether the first module is wide, whether the second is, what stands behind the first two lines of the second, and
/// the kind and the offset of the fault. The first one is 208 bytes where it is wide, else 145.
fn second_bodies() -> &'static [(bool, bool, &'static str, u8, u32)] {
    &[
        (true, false, "assign y = d;", 3, 326),
        (true, false, "assign y = x;", 3, 326),
        (
            true,
            false,
            "wire [31:0] d;\nassign d = a;\nassign y = d;\nassign z = d;\nendmodule",
            0,
            0,
        ),
        (
            false,
            true,
            "assign y = d;\nassign z = e;\nassign x = a;\nendmodule",
            0,
            0,
        ),
        (false, true, "assign y = x", 2, 312),
        (true, true, "wire [31:0] x", 2, 376),
        (true, false, "wire [31:0] x", 2, 328),
    ]
}

/// The beginning of a module, up to its first three ports.
fn inputs(rt: &impl AllocGlobal, number: u8) -> Result<String, AllocError> {
    let mut text = format!(in rt.alloc(); "// cycles 1\nmodule ci_{number}")?;
    text.push_str(INPUTS)?;
    Ok(text)
}

/// The first two lines of a module.
pub(crate) fn head(rt: &impl AllocGlobal, number: u8, wide: bool) -> Result<String, AllocError> {
    let mut text = inputs(rt, number)?;
    text.push_str(if wide { WIDE } else { NARROW })?;
    Ok(text)
}

/// Behind the wires of a module.
fn rest(wide: bool) -> &'static str {
    if wide {
        "assign y = a;\nassign z = a;\nassign x = a;\nendmodule\n"
    } else {
        "assign y = a;\nassign z = a;\nendmodule\n"
    }
}

fn has_fault(rt: &(impl AllocGlobal + Abort), text: &str, due: (u8, u32)) {
    assert!(rt; text.len() <= 268_435_456);
    match read(rt.alloc(), text.as_bytes()) {
        Ok(modules) => {
            drop(modules);
            assert!(rt; (0, 0) == due, "{text}");
        }
        Err(VFault::Bad { kind, offset }) => assert!(rt; (kind, offset) == due, "{text}"),
        Err(VFault::NoMemory) => assert!(rt; false, "{text}"),
    }
}

#[test]
fn the_first_fault_of_texts(rt: HostRuntime) {
    for (text, kind, offset) in texts() {
        has_fault(&rt, text, (*kind, *offset));
    }
}

#[test]
fn the_first_fault_of_the_ports(rt: HostRuntime) -> Result<(), AllocError> {
    for (ports, kind, offset) in ports() {
        let mut text = inputs(&rt, 0)?;
        text.push_str(ports)?;
        has_fault(&rt, text.as_str(), (*kind, *offset));
        drop(text);
    }
    Ok(())
}

/// A module with so much behind its first two lines has this fault.
fn has_fault_behind(
    rt: &(impl AllocGlobal + Abort),
    wide: bool,
    body: &str,
    due: (u8, u32),
) -> Result<(), AllocError> {
    let mut text = head(rt, 0, wide)?;
    text.push_str(body)?;
    has_fault(rt, text.as_str(), due);
    drop(text);
    Ok(())
}

#[test]
fn the_first_fault_of_a_module(rt: HostRuntime) -> Result<(), AllocError> {
    for (body, kind, offset) in bodies() {
        has_fault_behind(&rt, false, body, (*kind, *offset))?;
    }
    Ok(())
}

#[test]
fn the_first_fault_of_a_wide_module(rt: HostRuntime) -> Result<(), AllocError> {
    for (body, kind, offset) in wide_bodies() {
        has_fault_behind(&rt, true, body, (*kind, *offset))?;
    }
    Ok(())
}

/// So many modules.
fn modules(rt: &impl AllocGlobal, count: u8, wide: bool) -> Result<String, AllocError> {
    let mut text = String::new(rt.alloc());
    for number in 0..count {
        let head = head(rt, number, wide)?;
        text.push_str(head.as_str())?;
        drop(head);
        text.push_str(rest(wide))?;
    }
    Ok(text)
}

/// A module, and then a second one with so much behind its first two lines.
fn second(
    rt: &impl AllocGlobal,
    first_is_wide: bool,
    wide: bool,
    body: &str,
) -> Result<String, AllocError> {
    let mut text = modules(rt, 1, first_is_wide)?;
    let head = head(rt, 1, wide)?;
    text.push_str(head.as_str())?;
    drop(head);
    text.push_str(body)?;
    Ok(text)
}

#[test]
fn the_first_fault_of_a_second_module(rt: HostRuntime) -> Result<(), AllocError> {
    for (first_is_wide, wide, body, kind, offset) in second_bodies() {
        let text = second(&rt, *first_is_wide, *wide, body)?;
        has_fault(&rt, text.as_str(), (*kind, *offset));
        drop(text);
    }
    Ok(())
}

#[test]
fn the_second_module_has_the_second_name(rt: HostRuntime) -> Result<(), AllocError> {
    let mut text = modules(&rt, 1, true)?;
    let head = head(&rt, 0, false)?;
    text.push_str(head.as_str())?;
    drop(head);
    has_fault(&rt, text.as_str(), (9, 227));
    drop(text);
    Ok(())
}

/// So many modules have this fault.
fn has_fault_in_all(
    rt: &(impl AllocGlobal + Abort),
    count: u8,
    due: (u8, u32),
) -> Result<(), AllocError> {
    let text = modules(rt, count, false)?;
    has_fault(rt, text.as_str(), due);
    drop(text);
    Ok(())
}

#[test]
fn at_most_32_modules(rt: HostRuntime) -> Result<(), AllocError> {
    has_fault_in_all(&rt, 32, (0, 0))?;
    has_fault_in_all(&rt, 33, (9, 4_681))
}

/// The beginning of a module of so many wires.
fn wires(rt: &impl AllocGlobal, count: u16, wide: bool) -> Result<String, AllocError> {
    let mut text = head(rt, 0, wide)?;
    for number in 0..count {
        write!(text, "wire [0:0] w{number};\n")?;
        write!(text, "assign w{number} = 1'h1;\n")?;
    }
    Ok(text)
}

/// A module of 2,048 wires has no fault, and with one wire more the one of kind 8 at this place.
fn has_most_wires(
    rt: &(impl AllocGlobal + Abort),
    wide: bool,
    offset: u32,
) -> Result<(), AllocError> {
    let mut text = wires(rt, 2048, wide)?;
    text.push_str(rest(wide))?;
    has_fault(rt, text.as_str(), (0, 0));
    drop(text);
    let text = wires(rt, 2049, wide)?;
    has_fault(rt, text.as_str(), (8, offset));
    drop(text);
    Ok(())
}

#[test]
fn at_most_2048_wires(rt: HostRuntime) -> Result<(), AllocError> {
    has_most_wires(&rt, false, 77_770)?;
    has_most_wires(&rt, true, 77_819)
}

/// What stands behind the first two lines of a wide module, the values of its inputs, and those of y, z and x.
fn wide_values() -> &'static [(&'static str, [u32; 5], (u32, u32, u32))] {
    &[
        (
            "assign y = a;\nassign z = b;\nassign x = c;\nendmodule\n",
            [1, 2, 3, 4, 5],
            (1, 2, 3),
        ),
        (
            "assign y = d;\nassign z = d ^ e;\nassign x = {d[31:16], e[15:0]};\nendmodule",
            [1, 2, 3, 0x1234_5678, 0xffff_0001],
            (0x1234_5678, 0xedcb_5679, 0x1234_0001),
        ),
        (
            "wire [0:0] xx;\nassign xx = d < e;\nassign y = xx ? d : e;\nassign z = e - d;\nassign x = a;\nendmodule",
            [9, 2, 3, 7, 5],
            (5, 0xffff_fffe, 9),
        ),
        (
            "wire [7:0] w;\nassign w = e[7:0];\nassign y = {w, w, d[15:0]};\nassign z = e >> w;\nassign x = {4{w}};\nendmodule",
            [1, 2, 3, 0xaaaa_5555, 0x0000_0104],
            (0x0404_5555, 0x0000_0010, 0x0404_0404),
        ),
    ]
}

/// The same of a narrow module, in which d, e and x are names.
fn narrow_values() -> &'static [(&'static str, [u32; 5], (u32, u32, u32))] {
    &[
        (
            "assign y = b;\nassign z = c;\nendmodule",
            [1, 2, 3, 4, 5],
            (2, 3, 0),
        ),
        (
            "wire [31:0] d;\nassign d = a;\nwire [31:0] e;\nassign e = b;\nwire [31:0] x;\nassign x = d + e;\nassign y = x;\nassign z = d;\nendmodule",
            [6, 8, 3, 4, 5],
            (14, 6, 0),
        ),
    ]
}

/// The values of y, z and x of the first module.
fn first_values(modules: &[Module], inputs: &[u32; 5]) -> Option<(u32, u32, u32)> {
    match modules.first() {
        Some(module) => Some(eval(
            module, inputs[0], inputs[1], inputs[2], inputs[3], inputs[4],
        )),
        None => None,
    }
}

/// A module with so much behind its first two lines has these values.
fn has_values(
    rt: &(impl AllocGlobal + Abort),
    wide: bool,
    body: &str,
    inputs: &[u32; 5],
    due: (u32, u32, u32),
) -> Result<(), AllocError> {
    let mut text = head(rt, 0, wide)?;
    text.push_str(body)?;
    assert!(rt; text.len() <= 268_435_456);
    let modules = read(rt.alloc(), text.as_bytes());
    drop(text);
    match modules {
        Ok(modules) => {
            assert!(rt; first_values(&modules, inputs) == Some(due), "{body}");
            drop(modules);
        }
        Err(_) => assert!(rt; false, "{body}"),
    }
    Ok(())
}

#[test]
fn values_of_modules(rt: HostRuntime) -> Result<(), AllocError> {
    for (body, inputs, due) in wide_values() {
        has_values(&rt, true, body, inputs, *due)?;
    }
    for (body, inputs, due) in narrow_values() {
        has_values(&rt, false, body, inputs, *due)?;
    }
    Ok(())
}
