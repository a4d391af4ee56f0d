//! Words of 32 bits as bytes, the lowest byte first.
ghost use Rattle.std.specs.Prelude.{◌≡◌, ◌+◌, ◌*◌, ◌≤◌, length, slice_get, Some, IfOk};
ghost use Rattle.ci_reading.specs.Bytes as terms;

use std::alloc::{AllocError, Global};

/// The bytes of the words, in their order, the lowest byte of each first.
///
/// # Errors
///
/// Out of memory.
pub fn bytes_of_words(alloc: Global, words: &[u32]) -> Result<Vec<u8>, AllocError>
    ensures bytes { IfOk result (λ bytes. bytes.items ≡ terms.bytes_of_words words.now) }
    ensures words { IfOk result (λ bytes. terms.words_of_bytes bytes.items ≡ words.now) }
{
    let mut bytes = Vec::new(alloc);
    for word in words {
        bytes.extend_from_slice(&word.to_le_bytes())?;
    }
    Ok(bytes)
}

/// The word at this place among the words of the bytes, counted from 0.
///
/// Its four bytes have to be there.
pub fn word_at(bytes: &[u8], place: usize) -> u32
    requires { 4 * place + 4 ≤ length bytes.now }
    ensures { slice_get (terms.words_of_bytes bytes.now) place ≡ Some result }
{
    let first = 4 * place;
    u32::from_le_bytes([
        bytes[first],
        bytes[first + 1],
        bytes[first + 2],
        bytes[first + 3],
    ])
}
