//! The tokens of a text of modules, as the code has them.

use ci_verilog::Operator;
use std::mem::size_of;

/// The words of the grammar, which are no names, and its marks, but operators (IEEE 1364-2005, sections 3.7.1 and A.1).
/// d, e and x are names: they are words of wide modules alone.
#[derive(Clone, Copy, PartialEq, Eq)]
pub enum Sign {
    ModuleWord,
    InputWord,
    OutputWord,
    WireWord,
    AssignWord,
    EndModuleWord,
    NameA,
    NameB,
    NameC,
    NameY,
    NameZ,
    Opening,
    Closing,
    LeftBracket,
    RightBracket,
    LeftBrace,
    RightBrace,
    Comma,
    Semicolon,
    Colon,
    Equals,
    Question,
}

/// What a token is.
#[derive(Clone, Copy, PartialEq, Eq)]
pub(crate) enum Kind {
    Sign(Sign),
    Operator(Operator),
    Name,
    Number,
    Constant,
    /// The line of a module's cycles.
    Cycles,
    /// A token that is allowed nowhere.
    Never,
    /// A byte that begins no token.
    Stray,
    /// The text's end.
    End,
}

/// A token of a text, or what ends its tokens. Names, numbers, constants and cycles are so many bytes from `start` on;
/// of other kinds `size` says nothing.
#[derive(Clone, Copy)]
pub(crate) struct Token {
    pub kind: Kind,
    pub size: u8,
    pub start: u32,
}

// A text may have as many tokens as bytes.
const _: () = prove!(size_of::<Token>() == 8);
