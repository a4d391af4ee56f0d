//! The rules on the file header, and that the tables of headers lie in the file.
ghost use Rattle.std.specs.Prelude.{◌≡◌, ◌≢◌, ◌+◌, ◌<◌, ◌≤◌, ◌⊎◌, MatchResult, [], ◌∷◌, length, IsTrue, ◌↔◌};
ghost use Rattle.ci_elf.specs.Fields.{field};
ghost use Rattle.ci_elf.specs.Rules.{LiesIn, FieldIs, HasNoCompressedCode, HasProgramEntrySize, HasSectionEntrySize};
ghost use Rattle.ci_elf.specs.Rules.{HasProgramTable, HasSectionTable, file_header_rules, kind_rules, table_rules};
ghost use Rattle.ci_elf.specs.private.Checks.{IsTestOf};

use crate::ElfFault;
use crate::fields::{
    byte_at, half_at, program_count, program_table, section_count, section_table, word_at,
};

/// That the file has a header, which begins with the magic number.
pub(crate) fn check_file_header(bytes: &[u8]) -> Result<(), ElfFault>
    ensures { IsTestOf bytes.now file_header_rules result }
{
    if bytes.len() < 52 {
        return Err(ElfFault::Short(0));
    }
    if &bytes[..4] != b"\x7fELF".as_slice() {
        return Err(ElfFault::NotElf);
    }
    Ok(())
}

/// The number in the field at an offset.
fn field_at(bytes: &[u8], width: usize, offset: usize) -> u32
    requires width { (width ≡ 1) ⊎ ((width ≡ 2) ⊎ (width ≡ 4)) }
    requires within { offset + width ≤ length bytes.now }
    ensures { result ≡ field width offset bytes.now }
{
    match width {
        1 => u32::from(byte_at(bytes, offset)),
        2 => u32::from(half_at(bytes, offset)),
        _ => word_at(bytes, offset),
    }
}

/// That the field at an offset has a value.
fn expect_field(bytes: &[u8], width: usize, offset: u32, value: u32) -> Result<(), ElfFault>
    requires width { (width ≡ 1) ⊎ ((width ≡ 2) ⊎ (width ≡ 4)) }
    requires within { offset + width ≤ length bytes.now }
    ensures { IsTestOf bytes.now (FieldIs width offset value ∷ []) result }
{
    let found = field_at(bytes, width, offset as usize);
    if found == value {
        Ok(())
    } else {
        Err(ElfFault::WrongKind(offset, found))
    }
}

/// That the file is for 32 bits and little-endian, of version 1.
fn check_identification(bytes: &[u8]) -> Result<(), ElfFault>
    requires { 52 ≤ length bytes.now }
    ensures { IsTestOf bytes.now (FieldIs 1 4 1 ∷ FieldIs 1 5 1 ∷ FieldIs 1 6 1 ∷ []) result }
{
    expect_field(bytes, 1, 4, 1)?;
    expect_field(bytes, 1, 5, 1)?;
    expect_field(bytes, 1, 6, 1)
}

/// That the file is an executable for RISC-V, of version 1.
fn check_machine(bytes: &[u8]) -> Result<(), ElfFault>
    requires { 52 ≤ length bytes.now }
    ensures { IsTestOf bytes.now (FieldIs 2 16 2 ∷ FieldIs 2 18 243 ∷ FieldIs 4 20 1 ∷ []) result }
{
    expect_field(bytes, 2, 16, 2)?;
    expect_field(bytes, 2, 18, 243)?;
    expect_field(bytes, 4, 20, 1)
}

/// That the file has no compressed code (EF_RISCV_RVC).
#[tactic(auto, unfolding(crate::specs::Fields::e_flags))]
fn check_no_compressed_code(bytes: &[u8]) -> Result<(), ElfFault>
    requires { 52 ≤ length bytes.now }
    ensures { IsTestOf bytes.now (HasNoCompressedCode ∷ []) result }
{
    let flags = word_at(bytes, 36);
    if flags % 2 == 0 {
        Ok(())
    } else {
        Err(ElfFault::WrongKind(36, flags))
    }
}

/// That a table which has entries has them of this size, which the field at `offset` tells.
fn check_entry_size(count: u32, offset: u32, size: u16, expected: u16) -> Result<(), ElfFault>
    ensures { MatchResult result (λ _. count ≢ 0 → size ≡ expected)
        (λ fault. ¬ (count ≢ 0 → size ≡ expected) × (fault ≡ ElfFault.WrongKind offset size)) }
{
    if count == 0 || size == expected {
        Ok(())
    } else {
        Err(ElfFault::WrongKind(offset, u32::from(size)))
    }
}

/// That program headers have the standard's size.
fn check_program_entry(bytes: &[u8]) -> Result<(), ElfFault>
    requires { 52 ≤ length bytes.now }
    ensures { IsTestOf bytes.now (HasProgramEntrySize ∷ []) result }
{
    check_entry_size(program_count(bytes), 42, half_at(bytes, 42), 32)
}

/// That section headers have the standard's size.
fn check_section_entry(bytes: &[u8]) -> Result<(), ElfFault>
    requires { 52 ≤ length bytes.now }
    ensures { IsTestOf bytes.now (HasSectionEntrySize ∷ []) result }
{
    check_entry_size(section_count(bytes), 46, half_at(bytes, 46), 40)
}

/// That the file has no compressed code, and table entries of the standard's sizes.
fn check_sizes(bytes: &[u8]) -> Result<(), ElfFault>
    requires { 52 ≤ length bytes.now }
    ensures { IsTestOf bytes.now (HasNoCompressedCode ∷ HasProgramEntrySize ∷ HasSectionEntrySize ∷ []) result }
{
    check_no_compressed_code(bytes)?;
    check_program_entry(bytes)?;
    check_section_entry(bytes)
}

/// That the file is of the one kind that is supported.
pub(crate) fn check_kind(bytes: &[u8]) -> Result<(), ElfFault>
    requires { 52 ≤ length bytes.now }
    ensures { IsTestOf bytes.now kind_rules result }
{
    check_identification(bytes)?;
    check_machine(bytes)?;
    check_sizes(bytes)
}

/// Whether a part of this size lies in the file.
pub(crate) fn lies_in(bytes: &[u8], offset: u32, size: u32) -> bool
    ensures { IsTrue result ↔ LiesIn bytes.now offset size }
{
    size == 0 || offset as usize + size as usize <= bytes.len()
}

/// That the table of program headers lies in the file.
fn check_program_table(bytes: &[u8]) -> Result<(), ElfFault>
    requires { 52 ≤ length bytes.now }
    ensures { IsTestOf bytes.now (HasProgramTable ∷ []) result }
{
    let offset = program_table(bytes);
    if lies_in(bytes, offset, 32 * program_count(bytes)) {
        Ok(())
    } else {
        Err(ElfFault::Short(offset))
    }
}

/// That the table of section headers lies in the file.
fn check_section_table(bytes: &[u8]) -> Result<(), ElfFault>
    requires { 52 ≤ length bytes.now }
    ensures { IsTestOf bytes.now (HasSectionTable ∷ []) result }
{
    let offset = section_table(bytes);
    if lies_in(bytes, offset, 40 * section_count(bytes)) {
        Ok(())
    } else {
        Err(ElfFault::Short(offset))
    }
}

/// That the tables of headers lie in the file.
pub(crate) fn check_tables(bytes: &[u8]) -> Result<(), ElfFault>
    requires { 52 ≤ length bytes.now }
    ensures { IsTestOf bytes.now table_rules result }
{
    check_program_table(bytes)?;
    check_section_table(bytes)
}
