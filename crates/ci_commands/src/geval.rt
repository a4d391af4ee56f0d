//! The command `geval`: what a netlist of a text computes.
ghost use Rattle.std.specs.Prelude.{[], ◌∷◌};
ghost use Rattle.ci_calls.specs.Reads.{IsAnswerOf};
ghost use Rattle.ci_commands.specs.GevalCommand.{geval_inputs, IsGevalMade, IsGevalRefused};

use crate::eval::results_text;
use ci_calls::{Refusal, Success, read_nets};
use ci_io::Shelf;
use std::alloc::Global;

/// Makes the line of the results y, z and x that the netlist of this number, counted from 0, has at these values of its
/// inputs a, b, c, d and e.
///
/// # Errors
///
/// `Read` where no file has the name, or reading it failed. `TooLarge` where the file has more than 268,435,456 bytes.
/// `BadNets` where it is no text of netlists, by its fault. `Unsupported` where it has no netlist of the number: the
/// number, and 0. `NoMemory`: memory ran out.
pub fn evaluate<'a, F: Shelf>(
    alloc: Global,
    file: &'a str,
    number: u32,
    arguments: (u32, u32, u32, u32, u32),
    shelf: &mut F,
) -> Result<Success<'a>, Refusal<'a>>
    ensures { IsAnswerOf F.read_may_fail F.write_may_fail (F.state shelf.old) (F.state shelf.new)
        (geval_inputs file.now)
        (IsGevalMade number (arguments.0 ∷ arguments.1 ∷ arguments.2 ∷ arguments.3 ∷ arguments.4 ∷ []))
        (IsGevalRefused number) result }
{
    let nets = read_nets(alloc, file, shelf)?;
    let Some(chosen) = nets.get(number as usize) else {
        return Err(Refusal::Unsupported {
            position: number,
            word: 0,
        });
    };
    let (a, b, c, d, e) = arguments;
    let (y, z, x) = ci_gates::value(alloc, chosen, a, b, c, d, e)?;
    let text = results_text(alloc, true, y, z, x)?;
    Ok(Success {
        writes: Vec::new(alloc),
        text: text.into_bytes(),
    })
}
