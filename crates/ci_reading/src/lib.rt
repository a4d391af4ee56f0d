//! What the texts of several formats have in common: lines, tokens, digits, words in hexadecimal digits, words as
//! bytes, and the first element of a list that breaks a property.
#![tactic(auto)]

pub use bytes::{bytes_of_words, word_at};
pub use digits::{digit_value, number_of_digits};
pub use fields::{Numbers, Stop, address, begins_with, number, word};
pub use hex::{hex_text, push_hex, push_word};

mod bytes;
mod digits;
mod fields;
mod hex;
