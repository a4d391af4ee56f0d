//! Worked calls of `eval`, over one file `F` in memory.
use crate::common::{Step, UNIT_OF_SUMS, expect};
use std::alloc::AllocError;

/// The unit of the upper word of a product of a signed and an unsigned number.
pub(crate) const PRODUCT: &[u8] = b"// cycles 4
module ci_0(input [31:0] a, input [31:0] b, input [31:0] c, output [31:0] y, output [31:0] z);
wire [31:0] p0;
assign p0 = a;
wire [31:0] q0;
assign q0 = b;
wire [63:0] w0;
assign w0 = {{32{p0[31]}}, p0} * {32'h00000000, q0};
wire [31:0] t0;
assign t0 = w0[63:32];
assign y = t0;
assign z = 32'h00000000;
endmodule
";

/// The unit of a shift to the right that keeps the sign.
const SHIFT: &[u8] = b"// cycles 1
module ci_0(input [31:0] a, input [31:0] b, input [31:0] c, output [31:0] y, output [31:0] z);
wire [31:0] p0;
assign p0 = a;
wire [31:0] q0;
assign q0 = b;
wire [63:0] w0;
assign w0 = {{32{p0[31]}}, p0} >> q0[4:0];
wire [31:0] t0;
assign t0 = w0[31:0];
assign y = t0;
assign z = 32'h00000000;
endmodule
";

/// A constant in two parts: no input is used.
const CONSTANT: &[u8] = b"// cycles 1
module ci_0(input [31:0] a, input [31:0] b, input [31:0] c, output [31:0] y, output [31:0] z);
wire [31:0] p0;
assign p0 = 32'h12345000;
wire [31:0] q0;
assign q0 = 32'h00000000;
wire [31:0] t0;
assign t0 = p0 + q0;
wire [31:0] p1;
assign p1 = t0;
wire [31:0] q1;
assign q1 = 32'h00000678;
wire [31:0] t1;
assign t1 = p1 + q1;
assign y = t1;
assign z = 32'h00000000;
endmodule
";

/// A narrow unit of a sum, and a wide one whose results are a sum, a difference of the inputs d and e and all bits that
/// any input has.
const NARROW_AND_WIDE: &[u8] = b"// cycles 1
module ci_0(input [31:0] a, input [31:0] b, input [31:0] c, output [31:0] y, output [31:0] z);
assign y = a + b;
assign z = c;
endmodule
// cycles 1
module ci_1(input [31:0] a, input [31:0] b, input [31:0] c, input [31:0] d, input [31:0] e, \
    output [31:0] y, output [31:0] z, output [31:0] x);
wire [31:0] f;
assign f = a | b;
wire [31:0] g;
assign g = f | c;
wire [31:0] h;
assign h = g | d;
assign y = a + d;
assign z = d - e;
assign x = h | e;
endmodule
";

/// A unit that names a wire which isn't there.
const NAMELESS: &[u8] = b"// cycles 1
module ci_0(input [31:0] a, input [31:0] b, input [31:0] c, output [31:0] y, output [31:0] z);
assign y = d;";

/// Narrow and wide modules.
fn modules() -> &'static [Step] {
    &[
        Step::File("F", UNIT_OF_SUMS),
        Step::Call("eval F 0 0x1 0x20 0xfffffff0", 0, b"00000011 00000000\n"),
        Step::File("F", PRODUCT),
        Step::Call(
            "eval F 0 0x80000000 0xffffffff 0x0",
            0,
            b"80000000 00000000\n",
        ),
        Step::File("F", SHIFT),
        Step::Call("eval F 00 0x80000000 0x1F 0x0", 0, b"ffffffff 00000000\n"),
        Step::File("F", CONSTANT),
        Step::Call("eval -- F 0 0x7 0x8 0x9", 0, b"12345678 00000000\n"),
        // A narrow and a wide module. d and e are 0 where they are not given.
        Step::File("F", NARROW_AND_WIDE),
        Step::Call("eval F 0 0x1 0x2 0x4", 0, b"00000003 00000004\n"),
        Step::Call(
            "eval F 0 0x1 0x2 0x4 --d 0x8 --e 0x10",
            0,
            b"00000003 00000004\n",
        ),
        Step::Call(
            "eval F 1 0x1 0x2 0x4 --d 0x8 --e 0x10",
            0,
            b"00000009 fffffff8 0000001f\n",
        ),
        Step::Call(
            "eval --e=0x10 F 1 0x1 --d=0x8 0x2 0x4",
            0,
            b"00000009 fffffff8 0000001f\n",
        ),
        Step::Call(
            "eval F 1 0x1 0x2 0x4 --e 0x10",
            0,
            b"00000001 fffffff0 00000017\n",
        ),
        Step::Call(
            "eval F 1 0xffffffff 0x2 0x4 --d 0x8",
            0,
            b"00000007 00000008 ffffffff\n",
        ),
        Step::Call("eval F 1 0x1 0x2 0x4", 0, b"00000001 00000000 00000007\n"),
    ]
}

#[test]
fn modules_evaluated(rt: HostRuntime) -> Result<(), AllocError> {
    expect(&rt, modules())
}

/// Calls that are refused.
fn refused() -> &'static [Step] {
    &[
        // No file.
        Step::Call("eval F 0 0x0 0x0 0x0", 2, b"fault 2 read F\n"),
        // Texts that spell no modules.
        Step::File("F", b"x"),
        Step::Call("eval F 0 0x0 0x0 0x0", 9, b"fault 9 units 2 0\n"),
        Step::File("F", b"@"),
        Step::Call("eval F 0 0x0 0x0 0x0", 9, b"fault 9 units 1 0\n"),
        Step::File("F", b"// cycles 1\nmodule ci_1("),
        Step::Call("eval F 0 0x0 0x0 0x0", 9, b"fault 9 units 9 19\n"),
        Step::File("F", NAMELESS),
        Step::Call("eval F 3 0x0 0x0 0x0", 9, b"fault 9 units 3 118\n"),
        // No unit of this number.
        Step::File("F", b""),
        Step::Call(
            "eval F 3 0x0 0x0 0x0",
            7,
            b"fault 7 unsupported 00000003 00000000\n",
        ),
        Step::File("F", UNIT_OF_SUMS),
        Step::Call(
            "eval F 1 0x0 0x0 0x0",
            7,
            b"fault 7 unsupported 00000001 00000000\n",
        ),
        // Words that have no reading.
        Step::Call("eval F 32 0x0 0x0 0x0", 1, b"fault 1 usage\n"),
        Step::Call("eval F 0 0x0 0x0", 1, b"fault 1 usage\n"),
        Step::Call("eval F 0 0x0 0x0 1", 1, b"fault 1 usage\n"),
        Step::Call("eval F 0 0x0 0x0 0x0 0x0", 1, b"fault 1 usage\n"),
        Step::Call("eval F 0 0x0 0x0 0x0 --d 1", 1, b"fault 1 usage\n"),
        Step::Call(
            "eval F 0 0x0 0x0 0x0 --e 0x1 --e 0x1",
            1,
            b"fault 1 usage\n",
        ),
    ]
}

#[test]
fn calls_that_are_refused(rt: HostRuntime) -> Result<(), AllocError> {
    expect(&rt, refused())
}
