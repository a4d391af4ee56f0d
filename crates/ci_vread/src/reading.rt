//! From a text to its modules.
ghost use Rattle.std.specs.Prelude.{◌≤◌, length, IfOk, IfErr};
ghost use Rattle.ci_vread.specs.Spelling.{Spell};
ghost use Rattle.ci_vread.specs.Promised.{IsFaultOf};

use crate::building::build;
use crate::checking::{Fault, first_fault};
use crate::faults::VFault;
use crate::scanning::symbols;
use ci_verilog::Module;
use std::alloc::Global;

/// The modules that the bytes spell.
///
/// # Errors
///
/// `Bad` is the first fault of the text. `NoMemory`: out of memory.
pub fn read(alloc: Global, bytes: &[u8]) -> Result<Vec<Module>, VFault>
    requires { length bytes.now ≤ 268435456 }
    ensures modules { IfOk result (λ modules. Spell bytes.now modules.items) }
    ensures fault { IfErr result (IsFaultOf bytes.now) }
{
    let tokens = symbols(alloc, bytes)?;
    if let Some(Fault { kind, place }) = first_fault(alloc, bytes, &tokens)? {
        return Err(VFault::Bad {
            kind,
            offset: place,
        });
    }
    Ok(build(alloc, bytes, &tokens)?)
}
