//! Numbers as bytes of a slice, the lowest first.
ghost use Rattle.std.specs.Prelude.{◌≡◌, ◌+◌, ◌≤◌, length};
ghost use Rattle.ci_isa.specs.Effects.{width_bytes};
ghost use Rattle.ci_machine.specs.Accesses.{bytes_of_number, number_of_bytes};
ghost use Rattle.ci_machine.specs.ByteLists.{bytes_from, overwritten};

use ci_isa::Width;

/// The number that stands at an index.
pub(crate) fn number_at(bytes: &[u8], index: usize, width: Width) -> u32
    requires { index + width_bytes width ≤ length bytes.now }
    ensures { result ≡ number_of_bytes (bytes_from (width_bytes width) bytes.now index) }
{
    match width {
        Width::Byte => u32::from(bytes[index]),
        Width::Half => half_at(bytes, index),
        Width::Word => word_at(bytes, index),
    }
}

/// The number of two bytes.
fn half_at(bytes: &[u8], index: usize) -> u32
    requires { index + 2 ≤ length bytes.now }
    ensures { result ≡ number_of_bytes (bytes_from 2 bytes.now index) }
{
    let mut half = [0; 2];
    half.copy_from_slice(&bytes[index..index + 2]);
    u32::from(u16::from_le_bytes(half))
}

/// The number of four bytes.
fn word_at(bytes: &[u8], index: usize) -> u32
    requires { index + 4 ≤ length bytes.now }
    ensures { result ≡ number_of_bytes (bytes_from 4 bytes.now index) }
{
    let mut word = [0; 4];
    word.copy_from_slice(&bytes[index..index + 4]);
    u32::from_le_bytes(word)
}

/// Writes the low bytes of a number from an index on.
pub(crate) fn put_number(bytes: &mut [u8], index: usize, width: Width, value: u32)
    requires { index + width_bytes width ≤ length bytes.old }
    ensures { bytes.new ≡ overwritten bytes.old index (bytes_of_number (width_bytes width) value) }
{
    match width {
        Width::Byte => bytes[index] = (value % 256) as u8,
        Width::Half => {
            bytes[index + 1] = (value / 256 % 256) as u8;
            bytes[index] = (value % 256) as u8;
        }
        Width::Word => {
            bytes[index + 3] = (value / 16777216) as u8;
            bytes[index + 2] = (value / 65536 % 256) as u8;
            bytes[index + 1] = (value / 256 % 256) as u8;
            bytes[index] = (value % 256) as u8;
        }
    }
}

/// The four bytes of a number.
pub(crate) fn bytes_of(value: u32) -> [u8; 4]
    ensures { result ≡ bytes_of_number 4 value }
{
    [
        (value % 256) as u8,
        (value / 256 % 256) as u8,
        (value / 65536 % 256) as u8,
        (value / 16777216) as u8,
    ]
}
