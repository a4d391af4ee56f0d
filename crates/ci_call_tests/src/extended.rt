//! Worked calls of `run --units`, over several files in memory.
use crate::common::{BREAK_AS_F, Step, UNIT_OF_SUMS, expect};
use std::alloc::AllocError;

/// A unit word, the no-op of a place that it left, a load from where no memory is, and an exit.
const FOLDED: Step = Step::Executable(
    "F",
    &[0x60B5050B, 0x00000013, 0x00002303, 0x05D00893, 0x00000073],
    &[],
    &[],
);

/// A unit word of five, six and seven, a read of its second result, a sum of both, and an exit.
const BOTH_RESULTS: Step = Step::Executable(
    "F",
    &[
        0x00500513, 0x00600593, 0x00700613, 0x60B5050B, 0x000005AB, 0x00B50533, 0x05D00893,
        0x00000073,
    ],
    &[],
    &[],
);

/// A read of the first hidden result, and a break.
const READ: Step = Step::Executable("F", &[0x0000032B, 0x00100073], &[], &[]);

/// A read of the second hidden result, and a break.
const SECOND_READ: Step = Step::Executable("F", &[0x001003AB, 0x00100073], &[], &[]);

/// Seven, a read of the second hidden result over it, and an exit.
const WITH_A_READ_AT_FIRST: Step = Step::Executable(
    "F",
    &[0x00700513, 0x0010052B, 0x05D00893, 0x00000073],
    &[],
    &[],
);

/// Seven, a unit word over it, and an exit.
const WITH_A_UNIT_AT_FIRST: Step = Step::Executable(
    "F",
    &[0x00700513, 0x0000050B, 0x05D00893, 0x00000073],
    &[],
    &[],
);

/// The unit of a sum and a difference.
const SUM_AND_DIFFERENCE: &[u8] = b"// cycles 7
module ci_0(input [31:0] a, input [31:0] b, input [31:0] c, output [31:0] y, output [31:0] z);
assign y = a + b;
assign z = a - c;
endmodule
";

/// Two and three as hidden operands, a unit word without sources, and an exit.
const WITH_OPERANDS: Step = Step::Executable(
    "F",
    &[
        0x00200513, 0x00300593, 0x00B5102B, 0x0000050B, 0x05D00893, 0x00000073,
    ],
    &[],
    &[],
);

/// Two and three as hidden operands, two words of a unit, reads of its further results, their difference, and an exit.
const WITH_FURTHER_RESULTS: Step = Step::Executable(
    "F",
    &[
        0x00200513, 0x00300593, 0x00B5102B, 0x0000060B, 0x0000050B, 0x000006AB, 0x0010072B,
        0x40E68533, 0x05D00893, 0x00000073,
    ],
    &[],
    &[],
);

/// Two and three as hidden operands, the words of two units, a read of the last one's third result, and an exit.
const WITH_TWO_UNITS: Step = Step::Executable(
    "F",
    &[
        0x00200513, 0x00300593, 0x00B5102B, 0x0000050B, 0x0005150B, 0x0010052B, 0x05D00893,
        0x00000073,
    ],
    &[],
    &[],
);

/// Two and three as hidden operands, the word of a narrow unit, that of a wide one, and an exit.
const WITH_A_NARROW_UNIT_BETWEEN: Step = Step::Executable(
    "F",
    &[
        0x00200513, 0x00300593, 0x00B5102B, 0x0000160B, 0x0000050B, 0x05D00893, 0x00000073,
    ],
    &[],
    &[],
);

/// The wide unit of the sum of the hidden operands.
const SUM_OF_OPERANDS: &[u8] = b"// cycles 1
module ci_0(input [31:0] a, input [31:0] b, input [31:0] c, input [31:0] d, input [31:0] e, \
output [31:0] y, output [31:0] z, output [31:0] x);
assign y = d + e;
assign z = 32'h0;
assign x = 32'h0;
endmodule
";

/// The wide unit of the sum of the hidden operands and of each of them, and a narrow unit.
const OPERANDS_AND_COPY: &[u8] = b"// cycles 1
module ci_0(input [31:0] a, input [31:0] b, input [31:0] c, input [31:0] d, input [31:0] e, \
output [31:0] y, output [31:0] z, output [31:0] x);
assign y = d + e;
assign z = d;
assign x = e;
endmodule
// cycles 1
module ci_1(input [31:0] a, input [31:0] b, input [31:0] c, output [31:0] y, output [31:0] z);
assign y = a;
assign z = a;
endmodule
";

/// A run with units.
const RUN: &str = "run F --units U";

/// Programs with unit words and hidden registers, units, and a table by which a read costs five.
fn programs() -> &'static [Step] {
    &[
        Step::File("T", b"read = 5"),
        FOLDED,
        Step::File("U", UNIT_OF_SUMS),
        Step::Call(RUN, 0, b"end access 00000000 4 steps 3 cost 3\n"),
        Step::Call("run F", 0, b"end illegal 60b5050b steps 1 cost 0\n"),
        Step::File("U", b""),
        Step::Call(RUN, 0, b"end illegal 60b5050b steps 1 cost 0\n"),
        BOTH_RESULTS,
        Step::File("U", SUM_AND_DIFFERENCE),
        Step::Call("run --units=U F", 0, b"end exit 00000009 steps 8 cost 14\n"),
        Step::Call(
            "run F --table T --units U",
            0,
            b"end exit 00000009 steps 8 cost 18\n",
        ),
        // Hidden operands. A word that passes operands costs what a read does.
        WITH_OPERANDS,
        Step::File("U", SUM_OF_OPERANDS),
        Step::Call(RUN, 0, b"end exit 00000005 steps 6 cost 6\n"),
        Step::Call(
            "run F --table T --units U",
            0,
            b"end exit 00000005 steps 6 cost 10\n",
        ),
        Step::Call("run F", 0, b"end illegal 00b5102b steps 3 cost 2\n"),
        // Further results. The operands stay for the second word.
        WITH_FURTHER_RESULTS,
        Step::File("U", OPERANDS_AND_COPY),
        Step::Call(RUN, 0, b"end exit ffffffff steps 10 cost 10\n"),
        // A narrow unit has no third result, and leaves the operands as they are.
        WITH_TWO_UNITS,
        Step::Call(RUN, 0, b"end exit 00000000 steps 8 cost 8\n"),
        WITH_A_NARROW_UNIT_BETWEEN,
        Step::Call(RUN, 0, b"end exit 00000005 steps 7 cost 7\n"),
        // Hidden registers at first.
        WITH_A_READ_AT_FIRST,
        Step::File("U", b""),
        Step::Call(RUN, 0, b"end exit 00000000 steps 4 cost 4\n"),
        WITH_A_UNIT_AT_FIRST,
        Step::File("U", SUM_OF_OPERANDS),
        Step::Call(RUN, 0, b"end exit 00000000 steps 4 cost 4\n"),
        // Reads of hidden results. Without modules a program may still read them.
        Step::File("U", b""),
        READ,
        Step::Call(RUN, 0, b"end break steps 2 cost 2\n"),
        Step::Call("run F", 0, b"end illegal 0000032b steps 1 cost 0\n"),
        SECOND_READ,
        Step::Call(RUN, 0, b"end break steps 2 cost 2\n"),
        Step::Call("run F", 0, b"end illegal 001003ab steps 1 cost 0\n"),
        // Words that are nearly a read of a hidden result, or one that passes operands: another index, and bits where
        // none of theirs are.
        Step::File("U", SUM_OF_OPERANDS),
        Step::Executable("F", &[0x0020032B], &[], &[]),
        Step::Call(RUN, 0, b"end illegal 0020032b steps 1 cost 0\n"),
        Step::Executable("F", &[0x0000832B], &[], &[]),
        Step::Call(RUN, 0, b"end illegal 0000832b steps 1 cost 0\n"),
        Step::Executable("F", &[0x0200032B], &[], &[]),
        Step::Call(RUN, 0, b"end illegal 0200032b steps 1 cost 0\n"),
        Step::Executable("F", &[0x00E690AB], &[], &[]),
        Step::Call(RUN, 0, b"end illegal 00e690ab steps 1 cost 0\n"),
        Step::Executable("F", &[0x02E6902B], &[], &[]),
        Step::Call(RUN, 0, b"end illegal 02e6902b steps 1 cost 0\n"),
        Step::Executable("F", &[0x00E6A02B], &[], &[]),
        Step::Call(RUN, 0, b"end illegal 00e6a02b steps 1 cost 0\n"),
    ]
}

#[test]
fn programs_with_unit_words(rt: HostRuntime) -> Result<(), AllocError> {
    expect(&rt, programs())
}

/// A run with all files.
const RUN_OF_ALL: &str = "run --input I --table T --units U F";

/// Each file is read, and its form tested, before the next: the executable, the units, the table and then the input.
fn units_by_their_order() -> &'static [Step] {
    &[
        Step::File("U", b"x"),
        Step::Call(RUN_OF_ALL, 2, b"fault 2 read F\n"),
        Step::Clear,
        Step::File("F", b"x"),
        Step::Call(RUN_OF_ALL, 5, b"fault 5 elf 1 0 0\n"),
        BREAK_AS_F,
        Step::File("T", b"="),
        Step::Call(RUN_OF_ALL, 2, b"fault 2 read U\n"),
        Step::File("U", b"x"),
        Step::Call(RUN_OF_ALL, 9, b"fault 9 units 2 0\n"),
        // Another number.
        Step::Clear,
        BREAK_AS_F,
        Step::File("U", b"// cycles 1\nmodule ci_1("),
        Step::Call(RUN_OF_ALL, 9, b"fault 9 units 9 19\n"),
        Step::File("U", UNIT_OF_SUMS),
        Step::Call(RUN_OF_ALL, 2, b"fault 2 read T\n"),
        Step::File("T", b"="),
        Step::Call(RUN_OF_ALL, 6, b"fault 6 table 1\n"),
        Step::File("T", b""),
        Step::Call(RUN_OF_ALL, 2, b"fault 2 read I\n"),
    ]
}

#[test]
fn units_in_their_order(rt: HostRuntime) -> Result<(), AllocError> {
    expect(&rt, units_by_their_order())
}
