//! Worked calls of `gates` and `geval`, over one file `F` in memory.
use crate::common::{Step, UNIT_OF_SUMS, expect, files_after, files_of, hold};
use crate::units::PRODUCT;
use std::alloc::{AllocError, Global};
use std::process::Abort;

/// A module whose results are one gate and an input.
const ONE_GATE: &[u8] = b"// cycles 1
module ci_0(input [31:0] a, input [31:0] b, input [31:0] c, output [31:0] y, output [31:0] z);
wire [0:0] w;
assign w = a[0:0] ^ b[31:31];
assign y = {31'h00000000, w};
assign z = c;
endmodule
";

/// Its netlist.
const ITS_NETLIST: &[u8] = b"netlist 0 gates 1
xor a0 b31
y g0 0 0 0 0 0 0 0 0 0 0 0 0 0 0 0 0 0 0 0 0 0 0 0 0 0 0 0 0 0 0 0
z c0 c1 c2 c3 c4 c5 c6 c7 c8 c9 c10 c11 c12 c13 c14 c15 c16 c17 c18 c19 c20 c21 c22 c23 c24 c25 c26 c27 c28 c29 c30 c31
x 0 0 0 0 0 0 0 0 0 0 0 0 0 0 0 0 0 0 0 0 0 0 0 0 0 0 0 0 0 0 0 0
";

/// Two netlists: the results of the second are the inputs d and e, and all bits set.
const TWO_NETLISTS: &[u8] = b"netlist 0 gates 2
and a0 b0
or g0 1
y g0 g1 0 0 0 0 0 0 0 0 0 0 0 0 0 0 0 0 0 0 0 0 0 0 0 0 0 0 0 0 0 0
z 0 0 0 0 0 0 0 0 0 0 0 0 0 0 0 0 0 0 0 0 0 0 0 0 0 0 0 0 0 0 0 c31
x 0 0 0 0 0 0 0 0 0 0 0 0 0 0 0 0 0 0 0 0 0 0 0 0 0 0 0 0 0 0 0 0
netlist 1 gates 0
y d0 d1 d2 d3 d4 d5 d6 d7 d8 d9 d10 d11 d12 d13 d14 d15 d16 d17 d18 d19 d20 d21 d22 d23 d24 d25 d26 d27 d28 d29 d30 d31
z e0 e1 e2 e3 e4 e5 e6 e7 e8 e9 e10 e11 e12 e13 e14 e15 e16 e17 e18 e19 e20 e21 e22 e23 e24 e25 e26 e27 e28 e29 e30 e31
x 1 1 1 1 1 1 1 1 1 1 1 1 1 1 1 1 1 1 1 1 1 1 1 1 1 1 1 1 1 1 1 1
";

/// Units as gates, and netlists with values.
fn units_and_netlists() -> &'static [Step] {
    &[
        Step::File("F", ONE_GATE),
        Step::Call("gates F OUT", 0, b"modules 1 gates 1\n"),
        Step::Holds("OUT", ITS_NETLIST),
        // No module.
        Step::Clear,
        Step::File("F", b""),
        Step::Call("gates F OUT", 0, b"modules 0 gates 0\n"),
        Step::Holds("OUT", b""),
        // Counts of units.
        Step::Clear,
        Step::File("F", UNIT_OF_SUMS),
        Step::Call("gates F OUT", 0, b"modules 1 gates 320\n"),
        Step::Clear,
        Step::File("F", PRODUCT),
        Step::Call("gates -- F OUT", 0, b"modules 1 gates 12480\n"),
        // The second call reads what the first wrote.
        Step::Clear,
        Step::File("F", PRODUCT),
        Step::Call("gates F OUT", 0, b"modules 1 gates 12480\n"),
        Step::Call(
            "geval OUT 0 0x80000000 0xffffffff 0x0",
            0,
            b"80000000 00000000 00000000\n",
        ),
        // Calls on two netlists. d and e are 0 where they are not given.
        Step::Clear,
        Step::File("F", TWO_NETLISTS),
        Step::Call("geval F 0 0x1 0x1 0x0", 0, b"00000003 00000000 00000000\n"),
        Step::Call(
            "geval F 0 0x1 0x2 0x80000000",
            0,
            b"00000002 80000000 00000000\n",
        ),
        Step::Call("geval F 1 0x1 0x2 0x3", 0, b"00000000 00000000 ffffffff\n"),
        Step::Call(
            "geval F 01 0x0 0x0 0x0 --d 0x12345678 --e 0x9",
            0,
            b"12345678 00000009 ffffffff\n",
        ),
        Step::Call(
            "geval --e=0x7 F 1 0x0 --d=0x8 0x0 0x0",
            0,
            b"00000008 00000007 ffffffff\n",
        ),
        Step::Call(
            "geval F 2 0x0 0x0 0x0",
            7,
            b"fault 7 unsupported 00000002 00000000\n",
        ),
        Step::Call(
            "geval F 31 0x0 0x0 0x0",
            7,
            b"fault 7 unsupported 0000001f 00000000\n",
        ),
    ]
}

#[test]
fn modules_as_gates_and_netlists_evaluated(rt: HostRuntime) -> Result<(), AllocError> {
    expect(&rt, units_and_netlists())
}

/// Calls that are refused, and calls that fail.
fn refused() -> &'static [Step] {
    &[
        // Words that have no reading.
        Step::File("F", TWO_NETLISTS),
        Step::Call("gates", 1, b"fault 1 usage\n"),
        Step::Call("gates F", 1, b"fault 1 usage\n"),
        Step::Call("gates F F", 1, b"fault 1 usage\n"),
        Step::Call("gates F OUT N", 1, b"fault 1 usage\n"),
        Step::Call("gates F OUT --log 1", 1, b"fault 1 usage\n"),
        Step::Call("geval F", 1, b"fault 1 usage\n"),
        Step::Call("geval F 32 0x0 0x0 0x0", 1, b"fault 1 usage\n"),
        Step::Call("geval F 0 0x0 0x0", 1, b"fault 1 usage\n"),
        Step::Call("geval F 0 1 0x0 0x0", 1, b"fault 1 usage\n"),
        Step::Call("geval F 0 0x0 0x0 0x0 0x0", 1, b"fault 1 usage\n"),
        Step::Call("geval F 0 0x0 0x0 0x0 --d 1", 1, b"fault 1 usage\n"),
        Step::Call(
            "geval F 0 0x0 0x0 0x0 --d 0x1 --d 0x1",
            1,
            b"fault 1 usage\n",
        ),
        // Texts that are none of netlists, and what is said of them.
        Step::File("F", b"q"),
        Step::Call("geval F 0 0x0 0x0 0x0", 15, b"fault 15 nets 0\n"),
        Step::File("F", b"netlist 0"),
        Step::Call("geval F 0 0x0 0x0 0x0", 15, b"fault 15 nets 9\n"),
        Step::File("F", b"netlist 1 gates 0\n"),
        Step::Call("geval F 0 0x0 0x0 0x0", 15, b"fault 15 nets 8\n"),
        Step::File("F", b"netlist 0 gates 01"),
        Step::Call("geval F 0 0x0 0x0 0x0", 15, b"fault 15 nets 17\n"),
        Step::File("F", b"netlist 0 gates 4194305"),
        Step::Call("geval F 0 0x0 0x0 0x0", 15, b"fault 15 nets 22\n"),
        Step::File("F", b"netlist 0 gates 1\nand g"),
        Step::Call("geval F 0 0x0 0x0 0x0", 15, b"fault 15 nets 22\n"),
        Step::File("F", b"netlist 0 gates 1\nand a32"),
        Step::Call("geval F 0 0x0 0x0 0x0", 15, b"fault 15 nets 24\n"),
        Step::File("F", b"netlist 0 gates 2\nor 0 1\nxor a1 g1"),
        Step::Call("geval F 0 0x0 0x0 0x0", 15, b"fault 15 nets 33\n"),
        Step::File("F", b"netlist 0 gates 1\nnor 0 1"),
        Step::Call("geval F 0 0x0 0x0 0x0", 15, b"fault 15 nets 18\n"),
        // A netlist is no unit.
        Step::File("F", ITS_NETLIST),
        Step::Call("gates F OUT", 9, b"fault 9 units 2 0\n"),
        // The first call of the shelf is the read of `F`, the second the write of `OUT`.
        Step::File("F", ONE_GATE),
        Step::Failing(1, "gates F OUT", 2, b"fault 2 read F\n"),
        Step::Failing(1, "geval F 0 0x0 0x0 0x0", 2, b"fault 2 read F\n"),
        Step::Failing(2, "gates F OUT", 3, b"fault 3 write OUT\n"),
        // The netlists are written before the line is put.
        Step::Unheard("gates F OUT", 3, b"fault 3 write -\n"),
        Step::Holds("OUT", ITS_NETLIST),
    ]
}

#[test]
fn calls_that_are_refused(rt: HostRuntime) -> Result<(), AllocError> {
    expect(&rt, refused())
}

/// Appends a module with so many products of 64 bits, each of 12,480 gates.
fn push_products(text: &mut String, number: usize, count: usize) -> Result<(), AllocError> {
    write!(
        text,
        "// cycles 1\nmodule ci_{number}(input [31:0] a, input [31:0] b, "
    )?;
    text.push_str("input [31:0] c, output [31:0] y, output [31:0] z);\n")?;
    for k in 0..count {
        write!(
            text,
            "wire [63:0] w{k};\nassign w{k} = {{a, b}} * {{b, c}};\n"
        )?;
    }
    text.push_str("assign y = a;\nassign z = b;\nendmodule\n")
}

/// Modules with so many products.
fn products(alloc: Global, counts: &[usize]) -> Result<String, AllocError> {
    let mut text = String::new(alloc);
    for (number, count) in counts.iter().enumerate() {
        push_products(&mut text, number, *count)?;
    }
    Ok(text)
}

/// Numbers of products in modules, and what is said where they are too many gates, of which 336 products are few
/// enough.
fn too_many() -> &'static [(&'static [usize], &'static [u8])] {
    &[
        (&[337], b"fault 14 many 0 4205760\n"),
        (&[300, 1, 36, 5], b"fault 14 many 2 4205760\n"),
        (&[1, 2, 400], b"fault 14 many 2 5029440\n"),
    ]
}

/// Asserts what is said of modules with so many products, and that no file is made.
fn expect_too_many(
    rt: &(impl Abort + AllocGlobal),
    counts: &[usize],
    line: &[u8],
) -> Result<(), AllocError> {
    let alloc = rt.alloc();
    let units = products(alloc, counts)?;
    let mut files = files_of(rt, &[])?;
    let held = hold(&mut files, alloc, "F", units.as_bytes());
    drop(units);
    held?;
    let after = files_after(rt, &files, (0, 0), "gates F OUT", 14, line)?;
    assert!(rt; after == files, "the files of too many gates");
    drop(after);
    drop(files);
    Ok(())
}

#[test]
fn modules_with_too_many_gates(rt: HostRuntime) -> Result<(), AllocError> {
    for (counts, line) in too_many() {
        expect_too_many(&rt, counts, line)?;
    }
    Ok(())
}
