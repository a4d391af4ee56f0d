//! The command `eval`: what a module of a text computes.
ghost use Rattle.std.specs.Prelude.{◌≡◌, [], ◌∷◌, ◌++◌, IfOk, OnOk};
ghost use Rattle.std.specs.String.{string_bytes};
ghost use Rattle.ci_calls.specs.Reads.{IsAnswerOf};
ghost use Rattle.ci_commands.specs.EvalCommand.{eval_inputs, IsEvalMade, IsEvalRefused};
ghost use Rattle.ci_commands.specs.EvalCommand.{results_line, third_result};

use ci_calls::{Refusal, Success, read_units};
use ci_io::Shelf;
use ci_reading::{hex_text, push_word};
use std::alloc::{AllocError, Global};

/// Makes the line of the results y and z, and of a wide module x too, that the module of this number, counted from 0,
/// has at these values of its inputs a, b, c, d and e, of which a narrow one has the first three alone.
///
/// # Errors
///
/// `Read` where no file has the name, or reading it failed. `TooLarge` where the file has more than 4,194,304 bytes.
/// `BadUnits` where it spells no modules, by its first fault. `Unsupported` where it has no module of the number: the
/// number, and 0. `NoMemory`: memory ran out.
pub fn evaluate<'a, F: Shelf>(
    alloc: Global,
    file: &'a str,
    number: u32,
    arguments: (u32, u32, u32, u32, u32),
    shelf: &mut F,
) -> Result<Success<'a>, Refusal<'a>>
    ensures { IsAnswerOf F.read_may_fail F.write_may_fail (F.state shelf.old) (F.state shelf.new)
        (eval_inputs file.now)
        (IsEvalMade number (arguments.0 ∷ arguments.1 ∷ arguments.2 ∷ arguments.3 ∷ arguments.4 ∷ []))
        (IsEvalRefused number) result }
{
    let modules = read_units(alloc, file, shelf)?;
    let Some(chosen) = modules.get(number as usize) else {
        return Err(Refusal::Unsupported {
            position: number,
            word: 0,
        });
    };
    let (a, b, c, d, e) = arguments;
    let (y, z, x) = ci_verilog::eval(chosen, a, b, c, d, e);
    let text = results_text(alloc, chosen.is_wide(), y, z, x)?;
    Ok(Success {
        writes: Vec::new(alloc),
        text: text.into_bytes(),
    })
}

/// The line of the results of a module, or of a netlist, which has three.
pub(crate) fn results_text(
    alloc: Global,
    wide: bool,
    y: u32,
    z: u32,
    x: u32,
) -> Result<String, AllocError>
    ensures { IfOk result (λ text. string_bytes text ≡ results_line wide y z x) }
{
    let mut text = hex_text(alloc, y)?;
    push_word(&mut text, " ", z)?;
    push_third(&mut text, wide, x)?;
    text.push('\n')?;
    Ok(text)
}

/// Appends the third result of a wide module; of a narrow one, nothing.
fn push_third(text: &mut String, wide: bool, x: u32) -> Result<(), AllocError>
    ensures { OnOk result (string_bytes text.new ≡ string_bytes text.old ++ third_result wide x) }
{
    if wide {
        push_word(text, " ", x)
    } else {
        Ok(())
    }
}
