//! What data marks: words loaded from the file whose value is the address of a word of the text.
ghost use Rattle.std.specs.Prelude.{◌≡◌, ℕ, ◌+◌, ◌%◌, ◌^◌, ◌≤◌, Some, IfSome};
ghost use Rattle.std.specs.List.{Contains};
ghost use Rattle.ci_elf.specs.Executables.{IsWellFormed};
ghost use Rattle.ci_block.specs.private.Loading.{IsFromDataWords, end_word, first_word};
ghost use Rattle.ci_block.specs.private.Marks.{Adds};
ghost use Rattle.ci_block.specs.private.Sources.{IsFromData};
ghost use Rattle.ci_block.specs.Text.{IsDataWord, IsLoadedWord};

use crate::marks::Marks;
use byteorder::{ByteOrder, LittleEndian};
use ci_elf::{Image, Segment};

/// The little-endian value of four bytes from an address on that segments load from the file.
fn loaded_word(image: &Image, address: u32) -> Option<u32>
    requires { address + 4 ≤ 2 ^ 32 }
    ensures found { IfSome result (λ value. IsLoadedWord image.now address value) }
    ensures only { (value : ℕ) → IsLoadedWord image.now address value → result ≡ Some value }
{
    let first = image.loaded_byte(address)?;
    let second = image.loaded_byte(address + 1)?;
    let third = image.loaded_byte(address + 2)?;
    let fourth = image.loaded_byte(address + 3)?;
    Some(LittleEndian::read_u32(&[first, second, third, fourth]))
}

/// The value of the data word at an address, if one is there.
fn data_word(image: &Image, address: u32) -> Option<u32>
    requires well_formed { IsWellFormed image.now }
    requires aligned { address % 4 ≡ 0 }
    ensures found { IfSome result (λ value. IsDataWord image.now address value) }
    ensures only { (value : ℕ) → IsDataWord image.now address value → result ≡ Some value }
{
    if image.in_text(address) {
        return None;
    }
    loaded_word(image, address)
}

/// Marks the values of the data words of which a segment loads a byte.
fn mark_from_segment(marks: &mut Marks, image: &Image, segment: Segment)
    requires well_formed { IsWellFormed image.now }
    requires there { Contains image.now.segments segment }
    ensures { Adds marks.old marks.new (IsFromDataWords image.now (first_word segment) (end_word segment)) }
{
    let first = segment.address / 4;
    let end = (segment.address + segment.file_size + 3) / 4;
    for word in first..end {
        marks.mark_if_some(data_word(image, 4 * word));
    }
}

/// Marks the values of all data words.
pub(crate) fn mark_from_data(marks: &mut Marks, image: &Image)
    ensures { Adds marks.old marks.new (IsFromData image.now) }
{
    for segment in image.segments() {
        mark_from_segment(marks, image, *segment);
    }
}
