//! What may be wrong with a text.
ghost use Rattle.std.specs.Prelude.{◌≡◌};
ghost use Rattle.ci_asm.specs.private.Programs.{kind_of};

use std::alloc::{AllocError, AllocFailed};

/// Why a text has no words.
#[derive(Debug, Drop, thiserror::Error)]
pub enum AsmFault {
    /// The first fault of the text: its kind, and the line and the column, in bytes, where it
    /// stands, both counted from 1.
    ///
    /// The kinds are: 1 a byte that begins no token; 2 another token where a mnemonic is due; 3
    /// another token, or the line's end, where an operand, a comma or a bracket is due; 4 a number
    /// or an offset out of its field, or an odd offset; 5 a label that isn't defined; 6 a label
    /// defined twice, at the second; 7 a token behind a whole statement, or a statement past the
    /// 262,144th word.
    #[error("line {line}, column {column}: fault {kind}")]
    Bad { kind: u8, line: u32, column: u32 },
    /// Memory ran out.
    #[error("out of memory")]
    NoMemory,
}

impl From<AllocError> for AsmFault {
    ghost use Rattle.std.specs.Prelude.{◌≡◌};
    ghost use Rattle.ci_asm.specs.declared.faults.AsmFault.TheVariants.{NoMemory};

    ghost from_gives = { λ _ e. e ≡ NoMemory };

    fn from(_: AllocError) -> Self {
        AsmFault::NoMemory
    }
}

impl<T: Drop> From<AllocFailed<T>> for AsmFault {
    ghost use Rattle.std.specs.Prelude.{◌≡◌};
    ghost use Rattle.ci_asm.specs.declared.faults.AsmFault.TheVariants.{NoMemory};

    ghost from_gives = { λ _ e. e ≡ NoMemory };

    fn from(_: AllocFailed<T>) -> Self {
        AsmFault::NoMemory
    }
}

/// What may be wrong with a line.
#[derive(Clone, Copy)]
pub(crate) enum Rule {
    /// A byte that begins no token.
    NoToken,
    /// Another token than a mnemonic, where a statement is due.
    NoMnemonic,
    /// Another token, or the line's end, where an operand, a comma or a bracket is due.
    NoOperand,
    /// A number or an offset out of its field, or an odd offset.
    OutOfField,
    /// A label that isn't defined.
    Undefined,
    /// A label that is defined on an earlier line.
    DefinedTwice,
    /// A token behind a whole statement, or a statement past the last word.
    Surplus,
}

impl Rule {
    /// The kind that faults of this rule have.
    pub(crate) fn kind(self) -> u8
        ensures { result ≡ kind_of self }
    {
        match self {
            Rule::NoToken => 1,
            Rule::NoMnemonic => 2,
            Rule::NoOperand => 3,
            Rule::OutOfField => 4,
            Rule::Undefined => 5,
            Rule::DefinedTwice => 6,
            Rule::Surplus => 7,
        }
    }
}

/// A rule, and how many bytes of the line stand before the place where it is broken.
#[derive(Clone, Copy)]
pub(crate) struct Fault {
    pub rule: Rule,
    pub place: usize,
}
