//! Why a text spells no modules.
ghost use Rattle.std.specs.Prelude.{◌≡◌};

use std::alloc::{AllocError, AllocFailed};

/// Why bytes spell no modules.
#[derive(Debug, Drop, thiserror::Error)]
pub enum VFault {
    /// The first fault of the text: its kind, and how many bytes stand before it. Of several kinds at one place it is
    /// the least.
    ///
    /// The kinds are: 1 a byte that begins no token; 2 a token that the grammar doesn't allow there, or the text's end,
    /// and in a wide module d, e or x as the name or the target of a wire, or x in a term; 3 a name that no assigned
    /// wire or input has; 4 the declaration of a name that the module has already; 5 the end of an operand, a branch or
    /// a right side of the wrong width, or a constant that doesn't fit its width; 6 a width, an index, a count or a
    /// range out of its bounds, or the part that makes a concatenation wider than 64; 7 another target than the wire
    /// just declared; 8 the declaration of a wire past the 2,048th; 9 another module name than is due, or that of a
    /// module past the 32nd.
    #[error("byte {offset}: fault {kind}")]
    Bad { kind: u8, offset: u32 },
    /// Memory ran out.
    #[error("out of memory")]
    NoMemory,
}

impl From<AllocError> for VFault {
    ghost use Rattle.std.specs.Prelude.{◌≡◌};
    ghost use Rattle.ci_vread.specs.declared.faults.VFault.TheVariants.{NoMemory};

    ghost from_gives = { λ _ e. e ≡ NoMemory };

    fn from(_: AllocError) -> Self {
        VFault::NoMemory
    }
}

impl<T: Drop> From<AllocFailed<T>> for VFault {
    ghost use Rattle.std.specs.Prelude.{◌≡◌};
    ghost use Rattle.ci_vread.specs.declared.faults.VFault.TheVariants.{NoMemory};

    ghost from_gives = { λ _ e. e ≡ NoMemory };

    fn from(_: AllocFailed<T>) -> Self {
        VFault::NoMemory
    }
}
