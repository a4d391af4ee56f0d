//! What may be wrong with a table's text.
use crate::keys::Key;

/// Why bytes are no latency table.
#[derive(Clone, Copy, Debug, PartialEq, Eq, thiserror::Error)]
pub enum LatFault {
    /// The bytes are no TOML document.
    #[error("no TOML document")]
    NotToml,
    /// A key that is none of a latency table's stands in the text, or in its `software` or
    /// `hardware`.
    #[error("an unknown key")]
    UnknownKey,
    /// The value at the key is no integer in the key's range, or no table where one is due.
    #[error("out of range: {0}")]
    OutOfRange(Key),
    /// `pad` is greater than the number at the key.
    #[error("pad is greater than {0}")]
    PadTooLarge(Key),
    /// Memory ran out.
    #[error("out of memory")]
    NoMemory,
}
