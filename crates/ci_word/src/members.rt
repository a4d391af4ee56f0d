//! The members of a set of numbers, as text.
ghost use Rattle.std.specs.Prelude.{◌≡◌, ◌++◌, [], if◌then◌else◌, codes, OnOk, OnErr};
ghost use Rattle.std.specs.String.{string_bytes};
ghost use Rattle.std.specs.Fmt.{decimal};
ghost use Rattle.std.specs.FinSet as set;
ghost use Rattle.ci_word.specs.Members.{members_text};

use crate::row_set::Row;
use std::alloc::AllocError;

/// Appends the set's members in ascending order, each in decimal after a blank.
///
/// # Errors
///
/// Out of memory. The text then stays as it was.
#[tactic(auto, using(crate::proofs::MemberLaws::members))]
pub fn push_members(text: &mut String, numbers: &Row) -> Result<(), AllocError>
    ensures written { OnOk result
        (string_bytes text.new ≡ string_bytes text.old ++ members_text (set.contains numbers.now)) }
    ensures unchanged { OnErr result (string_bytes text.new ≡ string_bytes text.old) }
{
    let mut members = String::new(*text.allocator());
    for number in 0..256u32 {
        push_if_member(&mut members, number as u8, numbers)?;
    }
    text.push_str(&members)
}

/// Appends the number in decimal after a blank, where it is a member.
fn push_if_member(text: &mut String, number: u8, numbers: &Row) -> Result<(), AllocError>
    ensures { OnOk result (string_bytes text.new ≡ string_bytes text.old
        ++ (if set.contains numbers.now number then codes " " ++ decimal number else [])) }
{
    if numbers.has(number) {
        write!(text, " {number}")?;
    }
    Ok(())
}
