//! Texts and their words. The words of RV32IM were made by GNU as, and read by GNU objdump.
use ci_asm::{AsmFault, assemble, show};
use ci_isa::{decode_x, insn_at};
use std::alloc::AllocError;
use std::process::Abort;
use std::test::Fail;

// Long tables are the answers of functions, so that the proof of a test looks at none of them.

/// One line, and the word that it assembles to.
fn lines() -> &'static [(&'static str, u32)] {
    &[
        ("add x5, x10, x11", 0x00b5_02b3),
        ("sub x5, x10, x11", 0x40b5_02b3),
        ("sll x5, x10, x11", 0x00b5_12b3),
        ("slt x5, x10, x11", 0x00b5_22b3),
        ("sltu x5, x10, x11", 0x00b5_32b3),
        ("xor x5, x10, x11", 0x00b5_42b3),
        ("srl x5, x10, x11", 0x00b5_52b3),
        ("sra x5, x10, x11", 0x40b5_52b3),
        ("or x5, x10, x11", 0x00b5_62b3),
        ("and x5, x10, x11", 0x00b5_72b3),
        ("mul x31, x30, x29", 0x03df_0fb3),
        ("mulh x31, x30, x29", 0x03df_1fb3),
        ("mulhsu x31, x30, x29", 0x03df_2fb3),
        ("mulhu x31, x30, x29", 0x03df_3fb3),
        ("div x31, x30, x29", 0x03df_4fb3),
        ("divu x31, x30, x29", 0x03df_5fb3),
        ("rem x31, x30, x29", 0x03df_6fb3),
        ("remu x31, x30, x29", 0x03df_7fb3),
        ("addi x5, x6, -2048", 0x8003_0293),
        ("slti x5, x6, 2047", 0x7ff3_2293),
        ("sltiu x5, x6, -1", 0xfff3_3293),
        ("xori x5, x6, 255", 0x0ff3_4293),
        ("ori x5, x6, 7", 0x0073_6293),
        ("andi x5, x6, 1", 0x0013_7293),
        ("slli x5, x6, 31", 0x01f3_1293),
        ("srli x5, x6, 0", 0x0003_5293),
        ("srai x5, x6, 17", 0x4113_5293),
        ("lui x5, 0xfffff", 0xffff_f2b7),
        ("auipc x7, 0x10", 0x0001_0397),
        ("jal x1, -1048576", 0x8000_00ef),
        ("jalr x1, 4(x5)", 0x0042_80e7),
        ("beq x9, x0, 4094", 0x7e04_8fe3),
        ("bne x9, x0, -4096", 0x8004_9063),
        ("blt x9, x3, 8", 0x0034_c463),
        ("bge x9, x3, 12", 0x0034_d663),
        ("bltu x9, x3, 16", 0x0034_e863),
        ("bgeu x9, x3, -20", 0xfe34_f6e3),
        ("lb x6, 0(x5)", 0x0002_8303),
        ("lh x6, 2(x5)", 0x0022_9303),
        ("lw x6, -4(x5)", 0xffc2_a303),
        ("lbu x6, 2047(x5)", 0x7ff2_c303),
        ("lhu x6, -2048(x5)", 0x8002_d303),
        ("sb x18, 1(x11)", 0x0125_80a3),
        ("sh x18, 2(x11)", 0x0125_9123),
        ("sw x18, -16(x11)", 0xff25_a823),
        ("ecall", 0x0000_0073),
        ("ebreak", 0x0010_0073),
        ("fence 4095, x31, x1", 0xffff_808f),
        ("ci 0, x5, x10, x11, x12", 0x60b5_028b),
        ("ci 3, x5, x10, x11, x12", 0x60b5_328b),
        ("ci 31, x31, x1, x2, x3", 0x1e20_ff8b),
        ("cput x13, x14", 0x00e6_902b),
        ("cput x1, x31", 0x01f0_902b),
        ("cread x6", 0x0000_032b),
        ("cread x7, 1", 0x0010_03ab),
        (".word 0x00000013", 0x0000_0013),
        (".word 0xffffffff", 0xffff_ffff),
    ]
}

/// The words of a short text.
fn assembly(rt: &(impl Abort + AllocGlobal), text: &str) -> Result<Vec<u32>, AsmFault> {
    assert!(rt; text.len() < 2_000_000);
    assemble(rt.alloc(), text)
}

/// The text has these words.
fn are_words(rt: &(impl Abort + AllocGlobal), text: &str, due: &[u32]) -> Result<(), AsmFault> {
    let words = assembly(rt, text)?;
    assert!(rt; words.as_slice() == due, "{text}");
    Ok(())
}

/// The word is shown as this text, where it is an instruction.
fn is_shown(rt: &(impl Abort + AllocGlobal), word: u32, text: &str) -> Result<(), AllocError> {
    if let Some(insn) = decode_x(word) {
        let shown = show(rt.alloc(), &insn)?;
        assert!(rt; shown.as_str() == text);
    }
    Ok(())
}

/// The word, which is no instruction of RV32IM, is shown as this text.
fn is_shown_as_word(
    rt: &(impl Abort + AllocGlobal),
    word: u32,
    text: &str,
) -> Result<(), AllocError> {
    let shown = show(rt.alloc(), &insn_at(word))?;
    assert!(rt; shown.as_str() == text);
    Ok(())
}

/// The text's first fault.
fn has_fault(rt: &(impl Abort + AllocGlobal), text: &str, fault: (u8, u32, u32)) {
    let found = match assembly(rt, text) {
        Ok(words) => {
            drop(words);
            None
        }
        Err(AsmFault::Bad { kind, line, column }) => Some((kind, line, column)),
        Err(_) => None,
    };
    assert!(rt; found == Some(fault), "{text}");
}

#[test]
fn assembles_every_mnemonic(rt: HostRuntime) -> Result<(), AsmFault> {
    for (text, word) in lines() {
        are_words(&rt, text, &[*word])?;
    }
    Ok(())
}

#[test]
fn shows_every_mnemonic(rt: HostRuntime) -> Result<(), AllocError> {
    for (text, word) in lines() {
        if *word != 0x13 {
            is_shown(&rt, *word, text)?;
        }
    }
    Ok(())
}

#[test]
fn shows_words_that_are_no_instructions(rt: HostRuntime) -> Result<(), AllocError> {
    is_shown_as_word(&rt, 0xffff_ffff, ".word 0xffffffff")?;
    is_shown_as_word(&rt, 0x0000_03ab, ".word 0x000003ab")
}

/// Other spellings, and the word that each assembles to.
fn spellings() -> &'static [(&'static str, u32)] {
    &[
        ("\tadd\tx5 ,x10,  x11 # a comment: @ é\n", 0x00b5_02b3),
        ("_L1 :add x5,x10,x11", 0x00b5_02b3),
        ("\n\n# nothing\nL:\nadd x5, x10, x11\n", 0x00b5_02b3),
        ("T: bne x9, x0, T", 0x0004_9063),
        ("x5: jal x0, x5", 0x0000_006f),
        ("add: jal x0, add", 0x0000_006f),
        ("_azAZ09: jal x0, _azAZ09", 0x0000_006f),
        ("AazZ_: jal x0, AazZ_", 0x0000_006f),
        ("zA: jal x0, zA", 0x0000_006f),
        ("Za: jal x0, Za", 0x0000_006f),
        ("jal x0, 1048574", 0x7fff_f06f),
        (".word 19", 0x0000_0013),
        (".word 0xFFFFFFFF", 0xffff_ffff),
        (".word 0x09afAF", 0x0009_afaf),
        (".word 0x00000000ff", 0x0000_00ff),
        (".word-0", 0),
        ("lui x5, 74565", 0x1234_52b7),
        ("addi x5, x6, 0x7fF", 0x7ff3_0293),
        ("slli x5, x6, -0", 0x0003_1293),
        ("addi x5, x6, 0000000001", 0x0013_0293),
        ("cread x6# 1", 0x0000_032b),
        ("cread x6 ,01 # the second", 0x0010_032b),
        ("cread x6, 0x1\n", 0x0010_032b),
        ("cread: jal x0, cread", 0x0000_006f),
    ]
}

#[test]
fn reads_blanks_comments_and_other_spellings(rt: HostRuntime) -> Result<(), AsmFault> {
    for (text, word) in spellings() {
        are_words(&rt, text, &[*word])?;
    }
    Ok(())
}

#[test]
fn reaches_labels_in_both_directions(rt: HostRuntime) -> Result<(), AsmFault> {
    are_words(
        &rt,
        "start: jal x0, end\nback: ecall # first\nbeq x0, x0, start\nend: jal x1, back",
        &[0x00c0_006f, 0x0000_0073, 0xfe00_0ce3, 0xff9f_f0ef],
    )
}

/// Texts, and the kind, the line and the column of their fault.
fn faults() -> &'static [(&'static str, (u8, u32, u32))] {
    &[
        // What stands beside letters and digits in ASCII.
        ("@", (1, 1, 1)),
        ("[", (1, 1, 1)),
        ("^", (1, 1, 1)),
        ("`", (1, 1, 1)),
        ("{", (1, 1, 1)),
        ("/", (1, 1, 1)),
        (".word 0x1g", (7, 1, 10)),
        (".word 0x1G", (7, 1, 10)),
        (".word 0x1/", (1, 1, 10)),
        ("  - x5", (1, 1, 3)),
        ("add x5, .x10, x11", (1, 1, 9)),
        ("ecall\r\n", (1, 1, 6)),
        ("é: ecall", (1, 1, 1)),
        ("foo\n", (2, 1, 1)),
        ("foo @", (2, 1, 1)),
        ("T: T2: ecall", (2, 1, 4)),
        ("12", (2, 1, 1)),
        (": ecall", (2, 1, 1)),
        ("addx5 x5, x10, x11", (2, 1, 1)),
        ("add x5, x10\n", (3, 1, 12)),
        ("add x5, x10  # more\n", (3, 1, 20)),
        ("add x5 x10, x11", (3, 1, 8)),
        ("add x32, x10, x11", (3, 1, 5)),
        ("add x05, x10, x11", (3, 1, 5)),
        ("addi x5, x5, x6", (3, 1, 14)),
        ("lw x5, x6", (3, 1, 8)),
        ("addi x5, x5, 4096\n", (4, 1, 14)),
        ("addi x5, x5, -2049", (4, 1, 14)),
        ("slli x5, x5, 32", (4, 1, 14)),
        ("lui x5, -1", (4, 1, 9)),
        ("jal x0, 1", (4, 1, 9)),
        ("bne x0, x0, 4096", (4, 1, 13)),
        (".word -1", (4, 1, 7)),
        (".word 0x000000000000", (4, 1, 7)),
        (".word 0x00000000000", (4, 1, 7)),
        (".word 00000000001", (4, 1, 7)),
        ("jal x0, T\nfoo", (2, 2, 1)),
        ("jal x1, T\n", (5, 1, 9)),
        ("T:\nT:\n", (6, 2, 1)),
        ("jal x0, U\nT:\nT:", (5, 1, 9)),
        ("T:\n T: jal x0, U", (6, 2, 2)),
        ("ecall x5", (7, 1, 7)),
        ("addi x5, x5, -0x5", (7, 1, 16)),
        (".wordx 5", (3, 1, 6)),
        ("ecall ecall", (7, 1, 7)),
        ("cread x6 @", (1, 1, 10)),
        ("cread x6, -", (1, 1, 11)),
        ("cread", (3, 1, 6)),
        ("cread 1", (3, 1, 7)),
        ("cread x6,", (3, 1, 10)),
        ("cread x6, x1", (3, 1, 11)),
        ("cread x6,, 1", (3, 1, 10)),
        ("cread x6, 0", (4, 1, 11)),
        ("cread x6, 2", (4, 1, 11)),
        ("cread x6, -1", (4, 1, 11)),
        ("cread x6, 0x00", (4, 1, 11)),
        ("cread x6, 00000000001", (4, 1, 11)),
        ("cread x6 1", (7, 1, 10)),
        ("cread x6 x7, 1", (7, 1, 10)),
        ("cread x6: ecall", (7, 1, 9)),
        ("cread x6, 1, 1", (7, 1, 12)),
        ("cput", (3, 1, 5)),
        ("cput x13", (3, 1, 9)),
        ("cput x13 x14", (3, 1, 10)),
        ("cput x13, 1", (3, 1, 11)),
        ("cput x13, x14, 1", (7, 1, 14)),
    ]
}

#[test]
fn names_the_first_fault(rt: HostRuntime) {
    for (text, fault) in faults() {
        has_fault(&rt, text, *fault);
    }
}

/// A text with so many statements between two others.
fn around(
    rt: &impl AllocGlobal,
    before: &str,
    count: u32,
    after: &str,
) -> Result<String, AllocError> {
    let mut text = String::from_str(rt.alloc(), before)?;
    for _ in 0..count {
        text.push_str("ecall\n")?;
    }
    text.push_str(after)?;
    Ok(text)
}

/// The first fault of a text with so many statements between two others.
fn has_fault_around(
    rt: &(impl Abort + AllocGlobal),
    before: &str,
    count: u32,
    after: &str,
    fault: (u8, u32, u32),
) -> Result<(), AllocError> {
    let text = around(rt, before, count, after)?;
    has_fault(rt, text.as_str(), fault);
    Ok(())
}

/// The words of a text with so many statements between two others.
fn words_around(
    rt: &(impl Abort + AllocGlobal),
    before: &str,
    count: u32,
    after: &str,
) -> Result<Vec<u32>, AsmFault> {
    let text = around(rt, before, count, after)?;
    assembly(rt, text.as_str())
}

/// The first word of a text with so many statements between two others.
fn has_first(
    rt: &(impl Abort + AllocGlobal),
    before: &str,
    count: u32,
    after: &str,
    word: u32,
) -> Result<(), AsmFault> {
    let words = words_around(rt, before, count, after)?;
    assert!(rt; words.as_slice().first().copied() == Some(word));
    Ok(())
}

/// The last word of a text with so many statements between two others.
fn has_last(
    rt: &(impl Abort + AllocGlobal),
    before: &str,
    count: u32,
    after: &str,
    word: u32,
) -> Result<(), AsmFault> {
    let words = words_around(rt, before, count, after)?;
    assert!(rt; words.as_slice().last().copied() == Some(word));
    Ok(())
}

#[test]
fn has_at_most_262144_words(rt: HostRuntime) -> Result<(), Fail> {
    let words = words_around(&rt, "", 262_144, "")?;
    assert!(rt; words.len() == 262_144);
    has_fault_around(&rt, "", 262_144, "# no word\nebreak @", (7, 262_146, 1))?;
    Ok(())
}

#[test]
fn reaches_the_farthest_labels_of_a_branch(rt: HostRuntime) -> Result<(), AsmFault> {
    has_first(&rt, "beq x0, x0, T\n", 1022, "T:\n", 0x7e00_0ee3)?;
    has_last(&rt, "T:\n", 1024, "beq x0, x0, T\n", 0x8000_0063)
}

#[test]
fn reaches_no_label_beyond_the_range_of_a_branch(rt: HostRuntime) -> Result<(), AllocError> {
    has_fault_around(&rt, "beq x0, x0, T\n", 1023, "T:\n", (4, 1, 13))?;
    has_fault_around(&rt, "T:\n", 1025, "beq x0, x0, T\n", (4, 1027, 13))
}

#[test]
fn reaches_the_farthest_label_before_a_jump(rt: HostRuntime) -> Result<(), AsmFault> {
    has_first(&rt, "jal x0, T\n", 262_142, "T:\n", 0x7fdf_f06f)
}

#[test]
fn reaches_the_farthest_label_behind_a_jump(rt: HostRuntime) -> Result<(), AsmFault> {
    has_last(&rt, "T:\n", 262_143, "jal x0, T\n", 0x8040_006f)
}

// A text has too few statements for a label that lies too far behind a jump.
#[test]
fn reaches_no_label_beyond_the_range_of_a_jump(rt: HostRuntime) -> Result<(), AllocError> {
    has_fault_around(&rt, "jal x0, T\n", 262_143, "T:\n", (4, 1, 9))
}
