//! Modules that are made ready. The values of the table are those that Icarus Verilog gives of its texts.
use crate::vread::head;
use ci_plan::prepare;
use ci_verilog::{Module, eval};
use ci_vread::read;
use std::alloc::AllocError;
use std::process::Abort;

// Long tables are the answers of functions, so that the proof of a test looks at none of them, and what owns memory is
// let go by a call of `drop`.

/// The number of a module, whether it is wide, and what stands behind its first two lines.
fn bodies() -> &'static [(u8, bool, &'static str)] {
    &[
        (
            0,
            true,
            "assign y = d + e;\nassign z = d - e;\nassign x = d * e;\nendmodule\n",
        ),
        (
            1,
            true,
            "assign y = d & e;\nassign z = d | e;\nassign x = d ^ e;\nendmodule\n",
        ),
        (
            2,
            true,
            "wire [0:0] l;\nassign l = d < e;\n\
            assign y = d << e;\nassign z = d >> e;\nassign x = l ? a : b;\nendmodule\n",
        ),
        (
            3,
            false,
            "wire [63:0] p;\nassign p = {{32{a[31]}}, a} * {32'h0, b};\n\
            assign y = p[63:32];\nassign z = p[31:0];\nendmodule\n",
        ),
        (
            4,
            false,
            "wire [63:0] v;\nassign v = {a, b};\nwire [63:0] s;\nassign s = v << c;\n\
            assign y = s[63:32];\nassign z = s[31:0];\nendmodule\n",
        ),
        (
            5,
            false,
            "wire [63:0] v;\nassign v = {a, b};\nwire [63:0] s;\nassign s = v - {c, a};\n\
            assign y = s[63:32];\nassign z = s[31:0];\nendmodule\n",
        ),
        (
            6,
            false,
            "wire [7:0] s;\nassign s = a[7:0] + b[7:0];\nwire [7:0] d;\nassign d = a[7:0] - b[7:0];\n\
            wire [7:0] p;\nassign p = a[7:0] * b[7:0];\nwire [7:0] l;\nassign l = a[7:0] << b[3:0];\n\
            assign y = {s, d, p, l};\nassign z = {4{d}};\nendmodule\n",
        ),
        (
            7,
            false,
            "wire [15:0] k;\nassign k = 16'habcd;\nwire [15:0] n;\nassign n = k;\n\
            assign y = {n[7:0], k[15:8], 16'h1234};\n\
            assign z = {a[3:0], 4'h0, n[11:4], {2{b[15:12]}}, {8{c[0]}}};\nendmodule\n",
        ),
        (
            8,
            false,
            "wire [63:0] s;\nassign s = {{32{a[31]}}, a} >> b[4:0];\n\
            assign y = s[63:32];\nassign z = s[31:0];\nendmodule\n",
        ),
        (
            9,
            false,
            "wire [63:0] s;\nassign s = {{32{a[31]}}, b};\n\
            assign y = s[63:32];\nassign z = s[31:0];\nendmodule\n",
        ),
        (
            10,
            true,
            "wire [63:0] v;\nassign v = {a, b};\nwire [63:0] s;\nassign s = v << 6'h3f;\n\
            wire [63:0] t;\nassign t = v >> 6'h3f;\nwire [63:0] u;\nassign u = v >> 7'h40;\n\
            assign y = s[63:32];\nassign z = t[31:0];\nassign x = u[31:0];\nendmodule\n",
        ),
        (
            11,
            false,
            "assign y = a << 5'h04;\nassign z = b >> 5'h08;\nendmodule\n",
        ),
        (
            12,
            false,
            "wire [63:0] p;\nassign p = {{32{a[31]}}, a} * {{32{b[31]}}, b};\n\
            assign y = p[63:32];\nassign z = p[31:0];\nendmodule\n",
        ),
        (
            13,
            false,
            "wire [63:0] p;\nassign p = {{32{a[31]}}, a} * {{32{b[31]}}, b};\nwire [31:0] h;\n\
            assign h = p[63:32];\nwire [63:0] q;\nassign q = {32'h0, a} * {32'h0, b};\nwire [31:0] k;\n\
            assign k = q[63:32];\nassign y = h;\nassign z = k;\nendmodule\n",
        ),
        (
            14,
            false,
            "wire [31:0] r;\nassign r = b >> 5'h18;\nwire [31:0] l;\nassign l = a << 5'h08;\nwire [31:0] o;\n\
            assign o = l | r;\nwire [31:0] m;\nassign m = a * b;\nwire [31:0] s;\nassign s = c + m;\n\
            wire [31:0] t;\nassign t = b << 5'h02;\nwire [31:0] u;\nassign u = t + s;\nassign y = o;\n\
            assign z = u;\nendmodule\n",
        ),
        (
            15,
            false,
            "wire [31:0] t;\nassign t = a * b;\nwire [31:0] s;\nassign s = t + c;\nassign y = s;\n\
            assign z = t;\nendmodule\n",
        ),
    ]
}

/// Numbers of modules, the values of the inputs, and those of y, z and x.
pub(crate) fn values() -> &'static [(usize, [u32; 5], (u32, u32, u32))] {
    &[
        (0, [1, 2, 3, 0xffff_ffff, 2], (1, 0xffff_fffd, 0xffff_fffe)),
        (0, [0, 0, 0, 7, 9], (16, 0xffff_fffe, 63)),
        (
            1,
            [0, 0, 0, 0xf0f0_f0f0, 0xff00_ff00],
            (0xf000_f000, 0xfff0_fff0, 0x0ff0_0ff0),
        ),
        (2, [1, 2, 3, 0x8000_0001, 31], (0x8000_0000, 1, 2)),
        (2, [1, 2, 3, 5, 0xffff_ffff], (0, 0, 1)),
        (2, [1, 2, 3, 0xffff_ffff, 32], (0, 0, 2)),
        (
            3,
            [0x8000_0000, 0xffff_ffff, 0, 0, 0],
            (0x8000_0000, 0x8000_0000, 0),
        ),
        (
            3,
            [0x7fff_ffff, 0xffff_ffff, 0, 0, 0],
            (0x7fff_fffe, 0x8000_0001, 0),
        ),
        (4, [0x89ab_cdef, 0x0123_4567, 36, 0, 0], (0x1234_5670, 0, 0)),
        (4, [0x89ab_cdef, 0x0123_4567, 64, 0, 0], (0, 0, 0)),
        (5, [1, 0, 0, 0, 0], (0, 0xffff_ffff, 0)),
        (5, [0, 1, 2, 0, 0], (0xffff_fffe, 1, 0)),
        (6, [0x1f0, 0x223, 0, 0, 0], (0x13cd_d080, 0xcdcd_cdcd, 0)),
        (6, [0x10, 0x3f9, 0, 0, 0], (0x0917_9000, 0x1717_1717, 0)),
        (7, [9, 0xf000, 1, 0, 0], (0xcdab_1234, 0x90bc_ffff, 0)),
        (
            7,
            [0x1234_5678, 0x9abc, 2, 0, 0],
            (0xcdab_1234, 0x80bc_9900, 0),
        ),
        (8, [0x8000_0000, 4, 0, 0, 0], (0x0fff_ffff, 0xf800_0000, 0)),
        (8, [0x7fff_ffff, 4, 0, 0, 0], (0, 0x07ff_ffff, 0)),
        (9, [0x8000_0000, 1, 0, 0, 0], (0xffff_ffff, 1, 0)),
        (9, [1, 0x8000_0000, 0, 0, 0], (0, 0x8000_0000, 0)),
        (10, [0x8000_0001, 0x8000_0003, 0, 0, 0], (0x8000_0000, 1, 0)),
        (
            11,
            [0x1234_5678, 0x9abc_def0, 0, 0, 0],
            (0x2345_6780, 0x009a_bcde, 0),
        ),
        (12, [0x8000_0000, 0x8000_0000, 0, 0, 0], (0x4000_0000, 0, 0)),
        (
            12,
            [0xffff_ffff, 0x7fff_ffff, 0, 0, 0],
            (0xffff_ffff, 0x8000_0001, 0),
        ),
        (
            13,
            [0x8000_0000, 0x8000_0003, 0, 0, 0],
            (0x3fff_fffe, 0x4000_0001, 0),
        ),
        (
            13,
            [0xffff_ffff, 0x7fff_ffff, 0, 0, 0],
            (0xffff_ffff, 0x7fff_fffe, 0),
        ),
        (
            14,
            [0x89ab_cdef, 0x1234_5678, 0x90ab_cdef, 0, 0],
            (0xabcd_ef12, 0xbbbf_f9d7, 0),
        ),
        (
            14,
            [0x8000_0001, 0xc000_0000, 0xffff_ffff, 0, 0],
            (0x0000_01c0, 0xbfff_ffff, 0),
        ),
        (
            15,
            [0xc000_0001, 0xffff_fffd, 0x1234_5678, 0, 0],
            (0xd234_5675, 0xbfff_fffd, 0),
        ),
    ]
}

/// Modules have these values, as they are and made ready; whether a plan has room for each.
fn have_values(
    rt: &(impl AllocGlobal + Abort),
    modules: &[Module],
    planned: bool,
    rows: &[(usize, [u32; 5], (u32, u32, u32))],
) -> Result<(), AllocError> {
    let units = prepare(rt.alloc(), modules)?;
    for (number, inputs, due) in rows {
        let [a, b, c, d, e] = *inputs;
        assert!(rt; *number < modules.len());
        assert!(rt; *number < units.len());
        assert!(rt;
            eval(&modules[*number], a, b, c, d, e) == *due,
            "{number} {a:x}"
        );
        assert!(rt;
            units[*number].results(a, b, c, d, e) == *due,
            "{number} {a:x}"
        );
        assert!(rt; units[*number].cycles() == 1);
        assert!(rt; units[*number].is_planned() == planned);
    }
    drop(units);
    Ok(())
}

/// The modules of a text have these values; whether a plan has room for each.
fn text_has_values(
    rt: &(impl AllocGlobal + Abort),
    text: &str,
    planned: bool,
    rows: &[(usize, [u32; 5], (u32, u32, u32))],
) -> Result<(), AllocError> {
    assert!(rt; text.len() <= 268_435_456);
    match read(rt.alloc(), text.as_bytes()) {
        Ok(modules) => {
            let outcome = have_values(rt, &modules, planned, rows);
            drop(modules);
            outcome
        }
        Err(_) => {
            assert!(rt; false, "{text}");
            Ok(())
        }
    }
}

/// The text of all modules of the table.
pub(crate) fn all_bodies(rt: &impl AllocGlobal) -> Result<String, AllocError> {
    let mut text = String::new(rt.alloc());
    for (number, wide, body) in bodies() {
        let head = head(rt, *number, *wide)?;
        text.push_str(head.as_str())?;
        drop(head);
        text.push_str(body)?;
    }
    Ok(text)
}

#[test]
fn values_of_modules_made_ready(rt: HostRuntime) -> Result<(), AllocError> {
    let text = all_bodies(&rt)?;
    let outcome = text_has_values(&rt, text.as_str(), true, values());
    drop(text);
    outcome
}

/// A module in which y is a with so many times b added, a wire for each sum.
fn sums(rt: &impl AllocGlobal, count: u8) -> Result<String, AllocError> {
    let mut text = head(rt, 0, false)?;
    text.push_str("wire [31:0] w0;\nassign w0 = a;\n")?;
    for number in 0..count {
        let next = number + 1;
        write!(text, "wire [31:0] w{next};\n")?;
        write!(text, "assign w{next} = w{number} + b;\n")?;
    }
    write!(text, "assign y = w{count};\nassign z = c;\nendmodule\n")?;
    Ok(text)
}

/// So many sums have this value of y, with 7 for a and 3 for b; whether a plan has room for them.
fn has_sums(
    rt: &(impl AllocGlobal + Abort),
    count: u8,
    planned: bool,
    due: u32,
) -> Result<(), AllocError> {
    let text = sums(rt, count)?;
    let outcome = text_has_values(
        rt,
        text.as_str(),
        planned,
        &[(0, [7, 3, 9, 0, 0], (due, 9, 0))],
    );
    drop(text);
    outcome
}

// Beside the inputs and the 0 of x, a plan has room for 2 steps in the first 8 words, for 10 in the first 16, for 26 in
// the first 32, and for 58 in all.
#[test]
fn modules_with_and_without_room(rt: HostRuntime) -> Result<(), AllocError> {
    has_sums(&rt, 2, true, 13)?;
    has_sums(&rt, 3, true, 16)?;
    has_sums(&rt, 10, true, 37)?;
    has_sums(&rt, 11, true, 40)?;
    has_sums(&rt, 26, true, 85)?;
    has_sums(&rt, 27, true, 88)?;
    has_sums(&rt, 58, true, 181)?;
    has_sums(&rt, 59, false, 184)
}
