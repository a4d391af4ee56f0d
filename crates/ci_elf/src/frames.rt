//! The smallest file with some text, constants and values.
ghost use Rattle.std.specs.Prelude.{◌≡◌, ◌+◌, ◌*◌, ◌^◌, ◌<◌, ◌≤◌, ◌++◌, length, IfOk, OnOk};
ghost use Rattle.byteorder.specs.Endian.{little_bytes};
ghost use Rattle.ci_elf.specs.Frames.{file_header, frame_of, halves, headers, load_header, section, sections, words};

use byteorder::{ByteOrder, LittleEndian};
use std::alloc::{AllocError, Global};

/// Adds half words of two bytes.
fn push_halves(bytes: &mut Vec<u8>, numbers: &[u16]) -> Result<(), AllocError>
    ensures { OnOk result (bytes.new.items ≡ bytes.old.items ++ halves numbers.now) }
{
    for number in numbers {
        push_half(bytes, *number)?;
    }
    Ok(())
}

/// Adds a half word of two bytes.
fn push_half(bytes: &mut Vec<u8>, number: u16) -> Result<(), AllocError>
    ensures { OnOk result (bytes.new.items ≡ bytes.old.items ++ little_bytes 2 number) }
{
    let mut buffer = [0; 2];
    LittleEndian::write_u16(&mut buffer, number);
    bytes.extend_from_slice(&buffer)
}

/// Adds words of four bytes.
fn push_words(bytes: &mut Vec<u8>, numbers: &[u32]) -> Result<(), AllocError>
    ensures { OnOk result (bytes.new.items ≡ bytes.old.items ++ words numbers.now) }
{
    for number in numbers {
        push_word(bytes, *number)?;
    }
    Ok(())
}

/// Adds a word of four bytes.
fn push_word(bytes: &mut Vec<u8>, number: u32) -> Result<(), AllocError>
    ensures { OnOk result (bytes.new.items ≡ bytes.old.items ++ little_bytes 4 number) }
{
    let mut buffer = [0; 4];
    LittleEndian::write_u32(&mut buffer, number);
    bytes.extend_from_slice(&buffer)
}

/// Adds the file header.
fn push_file_header(bytes: &mut Vec<u8>, section_table: u32) -> Result<(), AllocError>
    ensures { OnOk result (bytes.new.items ≡ bytes.old.items ++ file_header section_table) }
{
    bytes.extend_from_slice(b"\x7fELF\x01\x01\x01\0\0\0\0\0\0\0\0\0")?;
    push_halves(bytes, &[2, 243])?;
    push_words(bytes, &[1, 0x1_0074, 52, section_table, 0])?;
    push_halves(bytes, &[52, 32, 2, 40, 4, 0])
}

/// Adds the header of a segment whose memory all comes from the file.
fn push_segment(
    bytes: &mut Vec<u8>,
    offset: u32,
    address: u32,
    size: u32,
    flags: u32,
) -> Result<(), AllocError>
    ensures { OnOk result (bytes.new.items ≡ bytes.old.items ++ load_header offset address size flags) }
{
    push_words(bytes, &[1, offset, address, address, size, size, flags, 4])
}

/// Adds a section header.
fn push_section(
    bytes: &mut Vec<u8>,
    kind: u32,
    flags: u32,
    address: u32,
    offset: u32,
    size: u32,
) -> Result<(), AllocError>
    ensures { OnOk result (bytes.new.items ≡ bytes.old.items ++ section kind flags address offset size) }
{
    push_words(bytes, &[0, kind, flags, address, offset, size, 0, 0, 0, 0])
}

/// Adds the headers in front of the words.
fn push_headers(bytes: &mut Vec<u8>, values_offset: u32, values_size: u32) -> Result<(), AllocError>
    requires { values_offset + values_size < 2 ^ 32 }
    ensures { OnOk result (bytes.new.items ≡ bytes.old.items ++ headers values_offset values_size) }
{
    push_file_header(bytes, values_offset + values_size)?;
    push_segment(bytes, 0, 0x1_0000, values_offset, 5)?;
    push_segment(bytes, values_offset, 0x2_0000, values_size, 6)
}

/// Adds the section headers.
fn push_sections(
    bytes: &mut Vec<u8>,
    text_size: u32,
    constants_size: u32,
    values_size: u32,
) -> Result<(), AllocError>
    requires { text_size + constants_size ≤ 65420 }
    ensures { OnOk result (bytes.new.items ≡ bytes.old.items ++ sections text_size constants_size values_size) }
{
    let constants_offset = 116 + text_size;
    let values_offset = constants_offset + constants_size;
    push_section(bytes, 0, 0, 0, 0, 0)?;
    push_section(bytes, 1, 6, 0x1_0074, 116, text_size)?;
    push_section(
        bytes,
        1,
        2,
        0x1_0000 + constants_offset,
        constants_offset,
        constants_size,
    )?;
    push_section(bytes, 1, 3, 0x2_0000, values_offset, values_size)?;
    Ok(())
}

/// The file with this text, these constants behind it, and these values in a segment of their own.
///
/// The text begins at address 0x10074, the values at 0x20000.
pub fn frame(
    alloc: Global,
    text: &[u32],
    constants: &[u32],
    values: &[u32],
) -> Result<Vec<u8>, AllocError>
    requires text { 0 < length text.now }
    requires constants { length text.now + length constants.now ≤ 16355 }
    requires values { length values.now ≤ 262144 }
    ensures { IfOk result (λ bytes. bytes.items ≡ frame_of text.now constants.now values.now) }
{
    let text_size = 4 * text.len() as u32;
    let constants_size = 4 * constants.len() as u32;
    let values_size = 4 * values.len() as u32;
    let mut bytes = Vec::new(alloc);
    push_headers(&mut bytes, 116 + text_size + constants_size, values_size)?;
    push_words(&mut bytes, text)?;
    push_words(&mut bytes, constants)?;
    push_words(&mut bytes, values)?;
    push_sections(&mut bytes, text_size, constants_size, values_size)?;
    Ok(bytes)
}
