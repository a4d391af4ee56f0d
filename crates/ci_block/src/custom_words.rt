//! Words of the custom opcodes, found range by range.
ghost use Rattle.std.specs.Prelude.{◌<◌, MatchOption, length};
ghost use Rattle.ci_block.specs.private.CustomSearch.{HasNoCustomWordIn, IsFirstCustomWordIn};
ghost use Rattle.ci_block.specs.CustomWords.{HasNoCustomWord, IsFirstCustomWord};
ghost use Rattle.ci_block.specs.private.Marking.{range_at};

use ci_elf::Image;
use ci_isa::has_custom_opcode;

/// A word of the text with a custom opcode, and its address.
#[derive(Clone, Copy, PartialEq, Eq)]
pub struct CustomWord {
    pub address: u32,
    pub word: u32,
}

/// The first word of the text, by its address, that has one of the opcodes custom-0 and custom-1 (RISC-V Unprivileged
/// ISA 20191213, table 24.1), if there is one.
pub fn first_custom_word(image: &Image) -> Option<CustomWord>
    ensures { MatchOption result (HasNoCustomWord image.now)
        (λ found. IsFirstCustomWord image.now found.address found.word) }
{
    for index in 0..image.ranges().len() {
        if let Some(found) = first_custom_word_in(image, index) {
            return Some(found);
        }
    }
    None
}

/// The first word of range `index` of the text with a custom opcode.
fn first_custom_word_in(image: &Image, index: usize) -> Option<CustomWord>
    requires { index < length image.now.ranges }
    ensures { MatchOption result (HasNoCustomWordIn image.now index (range_at image.now.ranges index).words)
        (λ found. IsFirstCustomWordIn image.now index found.address found.word) }
{
    let range = image.ranges()[index];
    for place in 0..range.words {
        let address = range.start + 4 * place;
        let word = image.word(address);
        if has_custom_opcode(word) {
            return Some(CustomWord { address, word });
        }
    }
    None
}
