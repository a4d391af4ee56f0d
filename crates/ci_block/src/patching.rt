//! Words of blocks in a file.
ghost use Rattle.std.specs.Prelude.{ℕ, ◌+◌, ◌*◌, ◌≤◌, ◌<◌, length, Ok};
ghost use Rattle.ci_isa.specs.Sequences.{nth_insn};
ghost use Rattle.ci_isa.specs.Table.{IsWellFormed};
ghost use Rattle.ci_elf.specs.Executables.{IsTextWord};
ghost use Rattle.ci_elf.specs.Rules.{IsReadAs};
ghost use Rattle.ci_block.specs.Patches.{PatchesBlock};

use ci_elf::Image;
use ci_isa::{Insn, encode};

/// Writes the words of the block at the leader into the file.
pub fn patch_block(image: &mut Image, leader: u32, insns: &[Insn])
    requires read { IsReadAs image.old.bytes (Ok image.old) }
    requires few { length insns.now ≤ 256 }
    requires text { (k : ℕ) → k < length insns.now → IsTextWord image.old.ranges (leader + 4 * k) }
    requires formed { (k : ℕ) → k < length insns.now → IsWellFormed (nth_insn insns.now k) }
    ensures { PatchesBlock image.old image.new leader insns.now }
{
    for (k, insn) in insns.iter().enumerate() {
        image.patch(leader + 4 * k as u32, encode(insn));
    }
}
