//! Renamed blocks of a few instructions, by their words.
use crate::common::{insns_of, set_of};
use ci_rename::rename_block;
use std::alloc::{AllocError, Global};
use std::process::Abort;

// Lists of instructions are let go by calls of `drop`, which a proof does not look into.

/// A block, the registers that are live after it, the renamed block and how many of its values were renamed.
type Renaming = (&'static [u32], &'static [u8], &'static [u32], u32);

/// Renames a block, and compares its instructions and the number of its values.
fn expect(
    rt: &impl Abort,
    alloc: Global,
    number: usize,
    renaming: &Renaming,
) -> Result<(), AllocError> {
    let (words, live, due, values) = *renaming;
    let insns = insns_of(alloc, words)?;
    assert!(rt; insns.len() <= 256);
    let renamed = rename_block(alloc, insns.as_slice(), set_of(live))?;
    let wanted = insns_of(alloc, due)?;
    assert!(rt; renamed.values == values, "values of row {number}");
    assert!(rt;
        renamed.insns.as_slice() == wanted.as_slice(),
        "row {number}"
    );
    drop(insns);
    drop(renamed);
    drop(wanted);
    Ok(())
}

/// Asserts each of these.
fn expect_each(rt: &impl Abort, alloc: Global, renamings: &[Renaming]) -> Result<(), AllocError> {
    for (number, renaming) in renamings.iter().enumerate() {
        expect(rt, alloc, number, renaming)?;
    }
    Ok(())
}

/// Each shows one part of the rule.
fn worked() -> &'static [Renaming] {
    &[
        // add x5, x10, x11; lw x10, 0(x12); add x10, x5, x10; addi x17, x0, 93; ecall: the loaded value moves to the
        // least free register
        (
            &[0x00b502b3, 0x00062503, 0x00a28533, 0x05d00893, 0x00000073],
            &[10],
            &[0x00b502b3, 0x00062083, 0x00128533, 0x05d00893, 0x00000073],
            1,
        ),
        // add x5, x10, x11; lw x10, 0(x12); add x10, x5, x10: where a register is live, it is not free
        (
            &[0x00b502b3, 0x00062503, 0x00a28533],
            &[1, 2, 10],
            &[0x00b502b3, 0x00062183, 0x00328533],
            1,
        ),
        // lw x10, 0(x12); add x10, x5, x10: what is live after the block stays
        (
            &[0x00062503, 0x00a28533],
            &[10],
            &[0x00062083, 0x00128533],
            1,
        ),
        // addi x17, x0, 64; addi x17, x0, 93; ecall: an environment call reads it
        (
            &[0x04000893, 0x05d00893, 0x00000073],
            &[],
            &[0x04000093, 0x05d00893, 0x00000073],
            1,
        ),
        // addi x5, x5, 1; addi x5, x5, 2; sw x5, 0(x2); ecall: an environment call stands there, but reads another
        (
            &[0x00128293, 0x00228293, 0x00512023, 0x00000073],
            &[],
            &[0x00128093, 0x00208193, 0x00312023, 0x00000073],
            2,
        ),
        // addi x5, x5, 1; sw x5, 0(x2): the register's earlier value alone ties it, and stays in it
        (&[0x00128293, 0x00512023], &[], &[0x00128093, 0x00112023], 1),
        // addi x5, x6, 1; sw x5, 0(x2): nothing ties it
        (&[0x00130293, 0x00512023], &[], &[0x00130293, 0x00512023], 0),
        // addi x5, x0, 1; addi x5, x0, 2; sw x5, 0(x2): a value that nothing reads moves, and then the second one is
        // tied no more
        (
            &[0x00100293, 0x00200293, 0x00512023],
            &[],
            &[0x00100093, 0x00200293, 0x00512023],
            1,
        ),
        // sw x5, 0(x2); addi x5, x0, 2; sw x5, 4(x2): an earlier node reads the register
        (
            &[0x00512023, 0x00200293, 0x00512223],
            &[],
            &[0x00512023, 0x00200093, 0x00112223],
            1,
        ),
        // addi x5, x0, 2; add x6, x5, x5; sw x6, 0(x2): a later node that reads the register does not tie it
        (
            &[0x00200293, 0x00528333, 0x00612023],
            &[],
            &[0x00200293, 0x00528333, 0x00612023],
            0,
        ),
        // addi x5, x5, 5; add x6, x5, x5; addi x6, x6, 5; sw x6, 5(x5): both operands, and not the bits of a constant
        (
            &[0x00528293, 0x00528333, 0x00530313, 0x0062a2a3],
            &[5],
            &[0x00528293, 0x005280b3, 0x00508313, 0x0062a2a3],
            1,
        ),
        // addi x5, x5, 5; sw x5, 5(x5); addi x5, x0, 0: both operands of a store
        (
            &[0x00528293, 0x0052a2a3, 0x00000293],
            &[5],
            &[0x00528093, 0x0010a2a3, 0x00000293],
            1,
        ),
        // lui x5, 16; addi x5, x5, 124; jalr x5, 0(x5): an end is no value that moves, and its operands are
        (
            &[0x000102b7, 0x07c28293, 0x000282e7],
            &[],
            &[0x000100b7, 0x07c08113, 0x000102e7],
            2,
        ),
        // lui x5, 16; lui x6, 17; addi x7, x5, 1; lui x7, 1; beq x7, x5, 8: operands of a branch
        (
            &[0x000102b7, 0x00011337, 0x00128393, 0x000013b7, 0x00538463],
            &[6],
            &[0x000102b7, 0x00011337, 0x00128093, 0x000013b7, 0x00538463],
            1,
        ),
        // lw x0, 0(x2); lw x0, 4(x0); add x0, x0, x0: x0 is no value
        (
            &[0x00012003, 0x00402003, 0x00000033],
            &[],
            &[0x00012003, 0x00402003, 0x00000033],
            0,
        ),
    ]
}

#[test]
fn worked_blocks(rt: HostRuntime) -> Result<(), AllocError> {
    expect_each(&rt, rt.alloc(), worked())
}

/// Blocks that were made up, which a plain model in another language renamed: with few free registers, or with many
/// values that move.
fn made_up() -> &'static [Renaming] {
    &[
        (
            &[
                0x00012283, 0x005102b3, 0x00128313, 0x00110313, 0x00632023, 0x00001117,
            ],
            &[
                1, 2, 3, 4, 5, 6, 7, 8, 9, 10, 11, 12, 13, 14, 15, 16, 18, 19, 20, 21, 22, 23, 24,
                25, 26, 27, 28, 29, 30, 31,
            ],
            &[
                0x00012883, 0x011102b3, 0x00128313, 0x00110313, 0x00632023, 0x00001117,
            ],
            1,
        ),
        (
            &[
                0x00b205b3, 0x00b58233, 0x00b22023, 0x004585b3, 0x00b58233, 0x00b22023, 0x00458233,
                0x00b20233, 0x00022203, 0x0005a583, 0x00001597,
            ],
            &[
                1, 2, 3, 4, 5, 8, 9, 10, 11, 12, 13, 14, 15, 16, 17, 19, 20, 21, 22, 24, 25, 26,
                27, 28, 29, 30, 31,
            ],
            &[
                0x00b20333, 0x006303b3, 0x0063a023, 0x00730933, 0x01290bb3, 0x012ba023, 0x01790233,
                0x01220233, 0x00022203, 0x00092583, 0x00001597,
            ],
            4,
        ),
        (
            &[
                0x003301b3, 0x00420fb3, 0x00430fb3, 0x000fa303, 0x000011b7, 0x001f8213, 0x0031a023,
                0x00430233, 0x0001a303, 0x006301b3,
            ],
            &[
                1, 2, 3, 4, 5, 6, 8, 9, 10, 11, 12, 13, 14, 15, 16, 17, 18, 19, 20, 21, 22, 23, 24,
                25, 26, 27, 28, 29, 30, 31,
            ],
            &[
                0x003303b3, 0x00420fb3, 0x00430fb3, 0x000fa303, 0x000011b7, 0x001f8213, 0x0031a023,
                0x00430233, 0x0001a303, 0x006301b3,
            ],
            1,
        ),
        (
            &[
                0x0060a023, 0x00108093, 0x00630333, 0x00032303, 0x0000a303, 0x00130333, 0x0000a083,
                0x00032083, 0x00008367,
            ],
            &[1, 6],
            &[
                0x0060a023, 0x00108113, 0x006301b3, 0x0001a203, 0x00012283, 0x002283b3, 0x00012403,
                0x0003a083, 0x00008367,
            ],
            6,
        ),
        (
            &[
                0x0031a023, 0x000011b7, 0x003181b3, 0x0031a023, 0x00118193, 0x0001a183, 0x00118193,
                0x0001a183, 0x0001a183, 0x00319863,
            ],
            &[],
            &[
                0x0031a023, 0x000010b7, 0x00108133, 0x00212023, 0x00110213, 0x00022283, 0x00128313,
                0x00032383, 0x0003a403, 0x00841863,
            ],
            7,
        ),
        (
            &[
                0x00562023, 0x0111a023, 0x0008a883, 0x00118293, 0x002101b3, 0x00c28133, 0x00c10633,
                0x0052a023, 0x00c12023,
            ],
            &[5, 17],
            &[
                0x00562023, 0x0111a023, 0x0008a883, 0x00118293, 0x002100b3, 0x00c28233, 0x00c20333,
                0x0052a023, 0x00622023,
            ],
            3,
        ),
        (
            &[
                0x0002a283, 0x00552023, 0x00a2a023, 0x00150513, 0x00a50533, 0x00a282b3, 0x00128293,
                0x0080056f,
            ],
            &[5, 10],
            &[
                0x0002a083, 0x00152023, 0x00a0a023, 0x00150113, 0x002101b3, 0x00308233, 0x00120293,
                0x0080056f,
            ],
            4,
        ),
    ]
}

#[test]
fn made_up_blocks(rt: HostRuntime) -> Result<(), AllocError> {
    expect_each(&rt, rt.alloc(), made_up())
}
