//! The fields of a file, read little-endian.
ghost use Rattle.std.specs.Prelude.{◌≡◌, ◌+◌, ◌*◌, ◌<◌, ◌≤◌, length};
ghost use Rattle.ci_elf.specs.Fields.{field, e_entry, e_phoff, e_phnum, e_shoff, e_shnum, p_type, program_header};
ghost use Rattle.ci_elf.specs.Fields.{section_header, sh_type};
ghost use Rattle.ci_elf.specs.private.Checks.{HasTables};

use byteorder::{ByteOrder, LittleEndian};

/// The byte at an offset.
#[tactic(auto, unfolding(crate::specs::Fields::field))]
pub(crate) fn byte_at(bytes: &[u8], offset: usize) -> u8
    requires { offset < length bytes.now }
    ensures { result ≡ field 1 offset bytes.now }
{
    bytes[offset]
}

/// The half word of two bytes at an offset.
pub(crate) fn half_at(bytes: &[u8], offset: usize) -> u16
    requires { offset + 2 ≤ length bytes.now }
    ensures { result ≡ field 2 offset bytes.now }
{
    LittleEndian::read_u16(&bytes[offset..])
}

/// The word of four bytes at an offset.
pub(crate) fn word_at(bytes: &[u8], offset: usize) -> u32
    requires { offset + 4 ≤ length bytes.now }
    ensures { result ≡ field 4 offset bytes.now }
{
    LittleEndian::read_u32(&bytes[offset..])
}

/// How many program headers the file has.
#[tactic(auto, unfolding(crate::specs::Fields::e_phnum))]
pub(crate) fn program_count(bytes: &[u8]) -> u32
    requires { 52 ≤ length bytes.now }
    ensures count { result ≡ e_phnum bytes.now }
    ensures small { result < 65536 }
{
    u32::from(half_at(bytes, 44))
}

/// How many section headers the file has.
#[tactic(auto, unfolding(crate::specs::Fields::e_shnum))]
pub(crate) fn section_count(bytes: &[u8]) -> u32
    requires { 52 ≤ length bytes.now }
    ensures count { result ≡ e_shnum bytes.now }
    ensures small { result < 65536 }
{
    u32::from(half_at(bytes, 48))
}

/// Where the table of program headers begins.
#[tactic(auto, unfolding(crate::specs::Fields::e_phoff))]
pub(crate) fn program_table(bytes: &[u8]) -> u32
    requires { 52 ≤ length bytes.now }
    ensures { result ≡ e_phoff bytes.now }
{
    word_at(bytes, 28)
}

/// Where the table of section headers begins.
#[tactic(auto, unfolding(crate::specs::Fields::e_shoff))]
pub(crate) fn section_table(bytes: &[u8]) -> u32
    requires { 52 ≤ length bytes.now }
    ensures { result ≡ e_shoff bytes.now }
{
    word_at(bytes, 32)
}

/// The address of the first instruction.
#[tactic(auto, unfolding(crate::specs::Fields::e_entry))]
pub(crate) fn entry(bytes: &[u8]) -> u32
    requires { 52 ≤ length bytes.now }
    ensures { result ≡ e_entry bytes.now }
{
    word_at(bytes, 24)
}

/// Where program header `n` begins.
pub(crate) fn program_header_at(bytes: &[u8], n: u32) -> usize
    requires tables { HasTables bytes.now }
    requires exists { n < e_phnum bytes.now }
    ensures offset { result ≡ program_header bytes.now n }
    ensures within { result + 32 ≤ length bytes.now }
{
    program_table(bytes) as usize + 32 * n as usize
}

/// Where section header `n` begins.
pub(crate) fn section_header_at(bytes: &[u8], n: u32) -> usize
    requires tables { HasTables bytes.now }
    requires exists { n < e_shnum bytes.now }
    ensures offset { result ≡ section_header bytes.now n }
    ensures within { result + 40 ≤ length bytes.now }
{
    section_table(bytes) as usize + 40 * n as usize
}

/// The type of program header `n`.
#[tactic(auto, unfolding(crate::specs::Fields::p_type))]
pub(crate) fn program_type(bytes: &[u8], n: u32) -> u32
    requires tables { HasTables bytes.now }
    requires exists { n < e_phnum bytes.now }
    ensures { result ≡ p_type bytes.now n }
{
    word_at(bytes, program_header_at(bytes, n))
}

/// The type of section header `n`.
#[tactic(auto, unfolding(crate::specs::Fields::sh_type))]
pub(crate) fn section_type(bytes: &[u8], n: u32) -> u32
    requires tables { HasTables bytes.now }
    requires exists { n < e_shnum bytes.now }
    ensures { result ≡ sh_type bytes.now n }
{
    word_at(bytes, section_header_at(bytes, n) + 4)
}
