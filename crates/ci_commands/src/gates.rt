//! The command `gates`: the netlists of the modules of a text.
ghost use Rattle.std.specs.Prelude.{◌≡◌, ℕ, ◌≤◌, List, IfOk, IfErr};
ghost use Rattle.std.specs.List.{AllZip};
ghost use Rattle.std.specs.String.{string_bytes};
ghost use Rattle.ci_vread.specs.Spelling.{Spell};
ghost use Rattle.ci_gates.specs.Modules.{IsNetlistOf};
ghost use Rattle.ci_calls.specs.Evaluations.{IsManyGates};
ghost use Rattle.ci_calls.specs.Reads.{IsAnswerOf};
ghost use Rattle.ci_commands.specs.GatesCommand.{gates_inputs, gates_line, HaveTogether, IsFirstTooMany};
ghost use Rattle.ci_commands.specs.GatesCommand.{IsGatesMade, IsGatesRefused};

use ci_calls::{Refusal, Success, Written, read_units};
use ci_gates::{GATES, Netlist, count, of_module, write};
use ci_io::Shelf;
use ci_verilog::Module;
use std::alloc::{AllocError, Global};

/// The most gates of all netlists together.
const MOST: u64 = GATES as u64;

/// Makes the text of the netlists of the modules that a file spells, and the line of how many netlists there are and
/// how many gates they have.
///
/// # Errors
///
/// `Read` where no file has the name of the modules, or reading it failed. `TooLarge` where the file has more than
/// 4,194,304 bytes. `BadUnits` where it spells no modules, by its first fault. `ManyGates` where its modules have more
/// than 4,194,304 gates together: the first module up to which they do, and how many they have up to it. `NoMemory`:
/// memory ran out.
pub fn evaluate<'a, F: Shelf>(
    alloc: Global,
    units: &'a str,
    out: &'a str,
    shelf: &mut F,
) -> Result<Success<'a>, Refusal<'a>>
    ensures { IsAnswerOf F.read_may_fail F.write_may_fail (F.state shelf.old) (F.state shelf.new)
        (gates_inputs units.now) (IsGatesMade out.now) IsGatesRefused result }
{
    let modules = read_units(alloc, units, shelf)?;
    let gates = counted(modules.as_slice())?;
    let nets = netlists(alloc, modules.as_slice())?;
    let bytes = write(alloc, nets.as_slice())?;
    let text = gates_text(alloc, nets.len(), gates)?;
    Ok(Success {
        writes: vec![in alloc; Written { name: out, bytes }]?,
        text: text.into_bytes(),
    })
}

/// How many gates the modules of a text have together.
///
/// # Errors
///
/// `ManyGates` where they are more than 4,194,304.
fn counted<'a>(modules: &[Module]) -> Result<u64, Refusal<'a>>
    requires { (bytes : List ℕ) × Spell bytes modules.now }
    ensures together { IfOk result (HaveTogether modules.now) }
    ensures few { IfOk result (λ gates. gates ≤ 4194304) }
    ensures many { IfErr result (IsManyGates (IsFirstTooMany modules.now)) }
{
    let mut gates = 0;
    for (number, module) in modules.iter().enumerate() {
        gates += count(module);
        if gates > MOST {
            return Err(Refusal::ManyGates {
                module: number as u32,
                gates,
            });
        }
    }
    Ok(gates)
}

/// The netlists of the modules, in their order.
fn netlists(alloc: Global, modules: &[Module]) -> Result<Vec<Netlist>, AllocError>
    requires { (gates : ℕ) × HaveTogether modules.now gates × (gates ≤ 4194304) }
    ensures { IfOk result (λ nets. AllZip IsNetlistOf modules.now nets.items) }
{
    let mut nets = Vec::new(alloc);
    for module in modules {
        let net = of_module(alloc, module)?;
        nets.push(net)?;
    }
    Ok(nets)
}

/// The line of how many netlists there are, and of their gates.
fn gates_text(alloc: Global, nets: usize, gates: u64) -> Result<String, AllocError>
    ensures { IfOk result (λ text. string_bytes text ≡ gates_line nets gates) }
{
    format!(in alloc; "modules {nets} gates {gates}\n")
}
