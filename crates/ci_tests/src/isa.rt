//! Words and their instructions as the tables have them. The words of RV32IM are from the assemblers of LLVM and GNU.
ghost use Rattle.std.specs.Prelude.{◌≡◌, ◌<◌};

use ci_isa::{
    Cond, Insn, LoadKind, Reg, Width, class, decode, decode_x, destination, encode, insn_at,
    is_access, is_cput, is_cread, is_eligible, is_terminator, is_unit, operands, reads,
    reads_register, writes, writes_register,
};
use ci_word::{Class, Op, Row};
use std::process::Abort;

/// The register of this number.
fn x(n: u8) -> Reg
    requires { n < 32 }
    ensures { result ≡ n }
{
    Reg::new(n).unwrap()
}

// What is compared is the answer of a function, which costs a proof less than an assertion does.

/// Asserts what was found of a word.
fn expect(rt: &impl Abort, word: u32, what: &str, is_due: bool) {
    assert!(rt; is_due, "{what} of {word:08x}");
}

/// Whether both tables have this row.
fn is_row(word: u32, insn: &Insn) -> bool {
    decode(word) == Some(*insn) && insn_at(word) == *insn && is_extended_row(word, insn)
}

/// Whether the extended table has no row for this word.
fn is_no_row(word: u32) -> bool {
    decode_x(word) == None && insn_at(word) == Insn::Illegal { word }
}

/// Whether the extended table has this row.
fn is_extended_row(word: u32, insn: &Insn) -> bool {
    match decode_x(word) {
        Some(found) => found == *insn && encode(&found) == word,
        None => false,
    }
}

/// Asserts that both tables have this row.
fn expect_row(rt: &impl Abort, word: u32, insn: Insn) {
    expect(rt, word, "the row", is_row(word, &insn));
}

/// Asserts that the extended table has this row, and that of the standard's instructions none.
fn expect_extended_row(rt: &impl Abort, word: u32, insn: Insn) {
    expect(rt, word, "the extended row", is_extended_row(word, &insn));
    expect(rt, word, "no row", decode(word) == None);
}

// Long tables are the answers of functions, so that the proof of a test looks at none of them.

/// Operations, and their words on registers 5, 6 and 7.
fn operations() -> &'static [(Op, u32)] {
    &[
        (Op::Add, 0x0073_02b3),
        (Op::Sub, 0x4073_02b3),
        (Op::Sll, 0x0073_12b3),
        (Op::Slt, 0x0073_22b3),
        (Op::Sltu, 0x0073_32b3),
        (Op::Xor, 0x0073_42b3),
        (Op::Srl, 0x0073_52b3),
        (Op::Sra, 0x4073_52b3),
        (Op::Or, 0x0073_62b3),
        (Op::And, 0x0073_72b3),
        (Op::Mul, 0x0273_02b3),
        (Op::Mulh, 0x0273_12b3),
        (Op::Mulhsu, 0x0273_22b3),
        (Op::Mulhu, 0x0273_32b3),
        (Op::Div, 0x0273_42b3),
        (Op::Divu, 0x0273_52b3),
        (Op::Rem, 0x0273_62b3),
        (Op::Remu, 0x0273_72b3),
    ]
}

#[test]
fn reads_operations_on_registers(rt: HostRuntime) {
    for (op, word) in operations() {
        let insn = Insn::Alu {
            op: *op,
            rd: x(5),
            rs1: x(6),
            rs2: x(7),
        };
        expect_row(&rt, *word, insn);
    }
}

/// Operations on register 6 and a constant, and their words for register 5.
fn constants() -> &'static [(Op, i32, u32)] {
    &[
        (Op::Add, -1, 0xfff3_0293),
        (Op::Slt, 2047, 0x7ff3_2293),
        (Op::Sltu, -2048, 0x8003_3293),
        (Op::Xor, 100, 0x0643_4293),
        (Op::Or, -100, 0xf9c3_6293),
        (Op::And, 255, 0x0ff3_7293),
        (Op::Sll, 31, 0x01f3_1293),
        (Op::Srl, 1, 0x0013_5293),
        (Op::Sra, 17, 0x4113_5293),
    ]
}

#[test]
fn reads_operations_on_a_constant(rt: HostRuntime) {
    for (op, imm, word) in constants() {
        let insn = Insn::AluImm {
            op: *op,
            rd: x(5),
            rs1: x(6),
            imm: *imm,
        };
        expect_row(&rt, *word, insn);
    }
}

#[test]
fn reads_upper_immediates_and_jumps(rt: HostRuntime) {
    expect_row(
        &rt,
        0x1234_52b7,
        Insn::Lui {
            rd: x(5),
            upper: 0x1234_5000,
        },
    );
    expect_row(
        &rt,
        0xffff_ff97,
        Insn::Auipc {
            rd: x(31),
            upper: 0xffff_f000,
        },
    );
    expect_row(
        &rt,
        0x8000_00ef,
        Insn::Jal {
            rd: x(1),
            offset: -1_048_576,
        },
    );
    expect_row(
        &rt,
        0x7fff_f06f,
        Insn::Jal {
            rd: x(0),
            offset: 1_048_574,
        },
    );
    expect_row(
        &rt,
        0x0030_00ef,
        Insn::Jal {
            rd: x(1),
            offset: 2050,
        },
    );
    expect_row(
        &rt,
        0xffc2_80e7,
        Insn::Jalr {
            rd: x(1),
            rs1: x(5),
            offset: -4,
        },
    );
}

/// Conditions, the registers that they compare, the offsets and the words.
fn branches() -> [(Cond, Reg, Reg, i32, u32); 6] {
    [
        (Cond::Eq, x(1), x(2), -4096, 0x8020_8063),
        (Cond::Ne, x(9), x(0), 4094, 0x7e04_9fe3),
        (Cond::Lt, x(3), x(4), 2048, 0x0041_c0e3),
        (Cond::Ge, x(3), x(4), -2, 0xfe41_dfe3),
        (Cond::Ltu, x(3), x(4), 30, 0x0041_ef63),
        (Cond::Geu, x(31), x(30), -2050, 0xffef_ff63),
    ]
}

#[test]
fn reads_branches(rt: HostRuntime) {
    for (cond, rs1, rs2, offset, word) in branches() {
        let insn = Insn::Branch {
            cond,
            rs1,
            rs2,
            offset,
        };
        expect_row(&rt, word, insn);
    }
}

/// Loads of register 1 from offsets of register 2, and their words.
fn loads() -> &'static [(LoadKind, i32, u32)] {
    &[
        (LoadKind::B, -2048, 0x8001_0083),
        (LoadKind::H, 2047, 0x7ff1_1083),
        (LoadKind::W, 0, 0x0001_2083),
        (LoadKind::Bu, 1, 0x0011_4083),
        (LoadKind::Hu, 2, 0x0021_5083),
    ]
}

/// Stores of register 1 to offsets of register 2, and their words.
fn stores() -> &'static [(Width, i32, u32)] {
    &[
        (Width::Byte, -2048, 0x8011_0023),
        (Width::Half, 2047, 0x7e11_1fa3),
        (Width::Word, 16, 0x0011_2823),
    ]
}

#[test]
fn reads_loads_and_stores(rt: HostRuntime) {
    for (kind, offset, word) in loads() {
        let insn = Insn::Load {
            kind: *kind,
            rd: x(1),
            rs1: x(2),
            offset: *offset,
        };
        expect_row(&rt, *word, insn);
    }
    for (width, offset, word) in stores() {
        let insn = Insn::Store {
            width: *width,
            rs1: x(2),
            rs2: x(1),
            offset: *offset,
        };
        expect_row(&rt, *word, insn);
    }
}

#[test]
fn reads_the_environment(rt: HostRuntime) {
    expect_row(
        &rt,
        0x0330_000f,
        Insn::Fence {
            bits: 0x033,
            rs1: x(0),
            rd: x(0),
        },
    );
    expect_row(
        &rt,
        0x8330_000f,
        Insn::Fence {
            bits: 0x833,
            rs1: x(0),
            rd: x(0),
        },
    );
    expect_row(&rt, 0x0000_0073, Insn::Ecall);
    expect_row(&rt, 0x0010_0073, Insn::Ebreak);
}

#[test]
fn reads_the_words_of_units(rt: HostRuntime) {
    let first = Insn::Unit {
        number: 0,
        rd: x(5),
        rs1: x(10),
        rs2: x(11),
        rs3: x(12),
    };
    expect_extended_row(&rt, 0x60b5_028b, first);
    let last = Insn::Unit {
        number: 31,
        rd: x(31),
        rs1: x(1),
        rs2: x(2),
        rs3: x(3),
    };
    expect_extended_row(&rt, 0x1e20_ff8b, last);
}

#[test]
fn reads_what_passes_further_operands_and_results(rt: HostRuntime) {
    expect_extended_row(&rt, 0x0000_032b, Insn::Cread { rd: x(6), index: 0 });
    let second = Insn::Cread { rd: x(7), index: 1 };
    expect_extended_row(&rt, 0x0010_03ab, second);
    let pair = Insn::Cput {
        rs1: x(13),
        rs2: x(14),
    };
    expect_extended_row(&rt, 0x00e6_902b, pair);
    expect(
        &rt,
        0x0010_03ab,
        "the kind",
        is_cread(&second) && !is_cput(&second),
    );
    expect(
        &rt,
        0x00e6_902b,
        "the operands",
        puts(&pair, [13, 14, 0, 0]),
    );
}

/// Whether an instruction hands on these operands, and does nothing else.
fn puts(insn: &Insn, due: [u8; 4]) -> bool {
    is_cput(insn)
        && !is_cread(insn)
        && !is_unit(insn)
        && operands(insn) == due
        && destination(insn) == 0
}

/// Words that are no instructions.
fn others() -> &'static [u32] {
    &[
        0,
        0xffff_ffff,
        0x0000_1067,
        0x0000_2063,
        0x0000_3003,
        0x0000_3023,
        0x0000_3063,
        0x0000_6003,
        0x0000_7003,
        0x0000_7023,
        0x0200_1013,
        0x4000_1013,
        0x0200_5013,
        0x4000_1033,
        0x0400_0033,
        0x0000_100f,
        0x3020_0073,
        0x0000_00f3,
        0x0000_8073,
        0x0020_0073,
        0x2000_0033,
        0x4000_4033,
        // cread x0, 2; cread x0, 31; cread with rs1, with bits 25 and 31
        0x0020_002b,
        0x01f0_002b,
        0x0000_802b,
        0x0200_002b,
        0x8000_002b,
        // cput x0, x0 with rd, with bit 25; the other codes of funct3
        0x0000_10ab,
        0x0200_102b,
        0x0000_202b,
        0x0000_302b,
        0x0000_402b,
        0x0000_502b,
        0x0000_602b,
        0x0000_702b,
    ]
}

#[test]
fn reads_no_other_word(rt: HostRuntime) {
    for word in others() {
        expect(&rt, *word, "no row", is_no_row(*word));
    }
    assert!(rt; encode(&insn_at(0xffff_ffff)) == 0xffff_ffff);
}

/// Whether a set has these registers, and no others.
fn has_all(set: &Row, registers: &[u8]) -> bool {
    for register in registers {
        if !set.has(*register) {
            return false;
        }
    }
    set.count() as usize == registers.len()
}

/// Whether an instruction reads and writes these registers.
fn has_registers(insn: &Insn, read: &[u8], written: &[u8]) -> bool {
    has_all(&reads(insn), read) && has_all(&writes(insn), written)
}

/// Whether this is a store of register 18 to an address in register 11.
fn is_store(store: &Insn) -> bool {
    has_registers(store, &[11, 18], &[])
        && operands(store) == [11, 18, 0, 0]
        && destination(store) == 0
        && reads_register(store, 18)
        && !reads_register(store, 0)
        && is_access(store)
}

/// Whether this reads and writes what an environment call does.
fn is_call(call: &Insn) -> bool {
    has_registers(call, &[10, 11, 12, 17], &[10])
        && writes_register(call, 10)
        && !is_access(call)
        && !is_unit(call)
        && !is_cread(call)
}

/// Whether this reads and writes nothing.
fn is_no_op(insn: &Insn) -> bool {
    has_registers(insn, &[], &[]) && !writes_register(insn, 0)
}

#[test]
fn knows_the_registers(rt: HostRuntime) {
    expect(&rt, 0x0000_0073, "the kind", is_call(&Insn::Ecall));
    expect(
        &rt,
        0x0125_a823,
        "the kind",
        is_store(&insn_at(0x0125_a823)),
    );
    expect(
        &rt,
        0x0000_0013,
        "the kind",
        is_no_op(&insn_at(0x0000_0013)),
    );
}

/// What an instruction may be in a block.
#[derive(Clone, Copy)]
enum Place {
    /// In a unit.
    Unit,
    /// Anywhere, but in no unit.
    Block,
    /// Only last.
    End,
}

/// A word, the class of its instruction, where that may stand, and what registers it reads and writes.
type Told = (u32, Class, Place, &'static [u8], &'static [u8]);

/// Operations on x6 and x7, or on x6 and a constant.
fn kinds_of_operations() -> &'static [Told] {
    &[
        (0x0073_02b3, Class::Add, Place::Unit, &[6, 7], &[5]),
        (0x4073_02b3, Class::Add, Place::Unit, &[6, 7], &[5]),
        (0x0073_12b3, Class::Shift, Place::Unit, &[6, 7], &[5]),
        (0x0073_22b3, Class::Compare, Place::Unit, &[6, 7], &[5]),
        (0x0073_32b3, Class::Compare, Place::Unit, &[6, 7], &[5]),
        (0x0073_42b3, Class::Logic, Place::Unit, &[6, 7], &[5]),
        (0x0073_52b3, Class::Shift, Place::Unit, &[6, 7], &[5]),
        (0x4073_52b3, Class::Shift, Place::Unit, &[6, 7], &[5]),
        (0x0073_62b3, Class::Logic, Place::Unit, &[6, 7], &[5]),
        (0x0073_72b3, Class::Logic, Place::Unit, &[6, 7], &[5]),
        (0x0273_02b3, Class::Mul, Place::Unit, &[6, 7], &[5]),
        (0x0273_12b3, Class::Mulh, Place::Unit, &[6, 7], &[5]),
        (0x0273_22b3, Class::Mulh, Place::Unit, &[6, 7], &[5]),
        (0x0273_32b3, Class::Mulh, Place::Unit, &[6, 7], &[5]),
        (0x0273_42b3, Class::Div, Place::Block, &[6, 7], &[5]),
        (0x0273_52b3, Class::Div, Place::Block, &[6, 7], &[5]),
        (0x0273_62b3, Class::Div, Place::Block, &[6, 7], &[5]),
        (0x0273_72b3, Class::Div, Place::Block, &[6, 7], &[5]),
        (0xfff3_0293, Class::Add, Place::Unit, &[6], &[5]),
        (0x7ff3_2293, Class::Compare, Place::Unit, &[6], &[5]),
        (0x8003_3293, Class::Compare, Place::Unit, &[6], &[5]),
        (0x0643_4293, Class::Logic, Place::Unit, &[6], &[5]),
        (0xf9c3_6293, Class::Logic, Place::Unit, &[6], &[5]),
        (0x0ff3_7293, Class::Logic, Place::Unit, &[6], &[5]),
        (0x01f3_1293, Class::ShiftConst, Place::Unit, &[6], &[5]),
        (0x0013_5293, Class::ShiftConst, Place::Unit, &[6], &[5]),
        (0x4113_5293, Class::ShiftConst, Place::Unit, &[6], &[5]),
        (0x1234_52b7, Class::Lui, Place::Unit, &[], &[5]),
        // With x0: add x0, x6, x7; add x5, x0, x0; addi x0, x6, 1; addi x0, x0, 1; lui x0, 1; mv x5, x0.
        (0x0073_0033, Class::Add, Place::Block, &[6, 7], &[]),
        (0x0000_02b3, Class::Add, Place::Unit, &[], &[5]),
        (0x0013_0013, Class::Add, Place::Block, &[6], &[]),
        (0x0010_0013, Class::Add, Place::Block, &[], &[]),
        (0x0000_1037, Class::Lui, Place::Block, &[], &[]),
        (0x0000_0293, Class::Add, Place::Unit, &[], &[5]),
    ]
}

/// All others.
fn kinds_of_others() -> &'static [Told] {
    &[
        // lw x5, 0(x6); lbu x0, 0(x6); sw x7, 0(x6); sb x0, 0(x6)
        (0x0003_2283, Class::Load, Place::Block, &[6], &[5]),
        (0x0003_4003, Class::Load, Place::Block, &[6], &[]),
        (0x0073_2023, Class::Store, Place::Block, &[6, 7], &[]),
        (0x0003_0023, Class::Store, Place::Block, &[6], &[]),
        // auipc x5, 1; jal x1, 8; jal x0, 8; jalr x1, 0(x6); jalr x0, 0(x1); beq x6, x7, 8; bgeu x6, x0, 8
        (0x0000_1297, Class::Auipc, Place::End, &[], &[5]),
        (0x0080_00ef, Class::Jump, Place::End, &[], &[1]),
        (0x0080_006f, Class::Jump, Place::End, &[], &[]),
        (0x0003_00e7, Class::Jump, Place::End, &[6], &[1]),
        (0x0000_8067, Class::Jump, Place::End, &[1], &[]),
        (0x0073_0463, Class::Branch, Place::End, &[6, 7], &[]),
        (0x0003_7463, Class::Branch, Place::End, &[6], &[]),
        // fence 4095, x31, x1; ecall; ebreak; a word that is no instruction
        (0xffff_808f, Class::Fence, Place::End, &[], &[]),
        (
            0x0000_0073,
            Class::System,
            Place::End,
            &[10, 11, 12, 17],
            &[10],
        ),
        (0x0010_0073, Class::System, Place::End, &[], &[]),
        (0xffff_ffff, Class::Free, Place::End, &[], &[]),
        // ci 0, x5, x10, x11, x12; cread x6; cread x7, 1; cput x13, x14; cput x0, x1; addi x0, x0, 0
        (0x60b5_028b, Class::Free, Place::Block, &[10, 11, 12], &[5]),
        (0x0000_032b, Class::Free, Place::Block, &[], &[6]),
        (0x0010_03ab, Class::Free, Place::Block, &[], &[7]),
        (0x00e6_902b, Class::Free, Place::Block, &[13, 14], &[]),
        (0x0010_102b, Class::Free, Place::Block, &[1], &[]),
        (0x0000_0013, Class::Free, Place::Block, &[], &[]),
    ]
}

/// Whether an instruction may stand there, and nowhere else.
fn belongs(insn: &Insn, place: Place) -> bool {
    let (joins, ends) = match place {
        Place::Unit => (true, false),
        Place::Block => (false, false),
        Place::End => (false, true),
    };
    is_eligible(insn) == joins && is_terminator(insn) == ends
}

/// Asserts what these words stand for, by the extended table.
fn expect_kinds(rt: &impl Abort, rows: &[Told]) {
    for (word, due, place, read, written) in rows {
        let insn = decode_x(*word).unwrap_or(Insn::Illegal { word: *word });
        expect(rt, *word, "the class", class(&insn) == *due);
        expect(rt, *word, "the place", belongs(&insn, *place));
        expect(
            rt,
            *word,
            "the registers",
            has_registers(&insn, read, written),
        );
    }
}

#[test]
fn knows_each_instruction(rt: HostRuntime) {
    expect_kinds(&rt, kinds_of_operations());
    expect_kinds(&rt, kinds_of_others());
}

#[test]
fn knows_the_widths(rt: HostRuntime) {
    for (width, bytes) in [(Width::Byte, 1), (Width::Half, 2), (Width::Word, 4)] {
        assert!(rt; width.bytes() == bytes);
    }
}
