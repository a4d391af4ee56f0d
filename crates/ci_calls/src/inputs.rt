//! The files that a command reads.
ghost use Rattle.std.specs.Prelude.{◌≡◌, ◌≤◌, [], ◌∷◌, ℕ, List, Ok, Err, IfOk, IfErr, length};
ghost use Rattle.ci_elf.specs.Executables.{IsImageOf};
ghost use Rattle.ci_lat.specs.Faults.{AreTable};
ghost use Rattle.ci_vread.specs.Spelling.{Spell};
ghost use Rattle.ci_log.specs.Books.{Spells};
ghost use Rattle.ci_netlist.specs.Texts.{Spells as SpellsNets};
ghost use Rattle.ci_calls.specs.Files.{book_input, executable_input, new_file_input, program_input, table_input};
ghost use Rattle.ci_calls.specs.Files.{nets_input, units_input, AreLatencies, AreModules, input_bytes};
ghost use Rattle.ci_io.specs.CallLists.{read as made_read};
ghost use Rattle.ci_io.specs.MadeCalls.{AreMade};
ghost use Rattle.ci_calls.specs.Refused.{name_in, modules_in};
ghost use Rattle.ci_calls.specs.Forms.{Form};
ghost use Rattle.ci_calls.specs.Inputs.{Input};
ghost use Rattle.ci_calls.specs.Reads.{HaveRead, HaveNotRead, IsRefusedAs, IsReadingOf, IsOptionalReadingOf};

use crate::refusals::Refusal;
use ci_elf::Image;
use ci_io::{Shelf, ShelfErr};
use ci_lat::Table;
use ci_log::LogBook;
use ci_netlist::Netlist;
use ci_verilog::Module;
use std::alloc::Global;

/// The maximum length of an executable file, in bytes.
const EXECUTABLE_LIMIT: u64 = 16_777_216;

/// The maximum length of a latency table, in bytes.
const TABLE_LIMIT: u64 = 65_536;

/// The maximum length of a text of modules, in bytes.
const UNITS_LIMIT: u64 = 4_194_304;

/// The maximum length of a text of a log book, in bytes.
const BOOK_LIMIT: u64 = 268_435_456;

/// The maximum length of a text of netlists, in bytes.
const NETS_LIMIT: u64 = 268_435_456;

/// The maximum length of the input of a program, in bytes.
const INPUT_LIMIT: u64 = 16_777_216;

/// The bytes of the file of a name, which may have up to `limit`.
///
/// # Errors
///
/// `Read` where no file has the name, or reading it failed. `TooLarge` where the file has more bytes. `NoMemory`:
/// memory ran out.
pub fn read_file<'a, F: Shelf>(
    alloc: Global,
    name: &'a str,
    limit: u64,
    shelf: &mut F,
) -> Result<Vec<u8>, Refusal<'a>>
    ensures read { IfOk result (λ bytes. AreMade F.read_may_fail F.write_may_fail
        (F.state shelf.old) (F.state shelf.new) (made_read name.now limit (Ok bytes.items) ∷ [])) }
    ensures within_limit { IfOk result (λ bytes. length bytes.items ≤ limit) }
    // Whatever form the file has, and whatever files come after it.
    ensures refused { IfErr result (λ refusal. (form : Form) (others : List Input)
        → HaveNotRead F.read_may_fail F.write_may_fail (F.state shelf.old) (F.state shelf.new)
        (record { name = name.now; limit = limit; form = form } ∷ others) refusal) }
{
    match shelf.read(alloc, name, limit) {
        Ok(bytes) => Ok(bytes),
        Err(fault) => Err(unread(name, fault)),
    }
}

/// The refusal of a file by why its read failed.
fn unread<'a>(name: &'a str, fault: ShelfErr) -> Refusal<'a>
    ensures { (limit : ℕ) (form : Form)
        → IsRefusedAs (record { name = name.now; limit = limit; form = form }) (Err fault) result }
{
    match fault {
        ShelfErr::Absent => Refusal::Read(name),
        ShelfErr::Fault => Refusal::Read(name),
        ShelfErr::TooLarge => Refusal::TooLarge(name),
        ShelfErr::NoMemory => Refusal::NoMemory,
    }
}

/// The image of the executable file of a name.
///
/// # Errors
///
/// `Read` where no file has the name, or reading it failed. `TooLarge` where the file has more than 16,777,216 bytes.
/// `BadElf` where it is no executable, by the first rule that it breaks. `NoMemory`: memory ran out.
pub fn read_image<'a, F: Shelf>(
    alloc: Global,
    name: &'a str,
    shelf: &mut F,
) -> Result<Image, Refusal<'a>>
    ensures { IsReadingOf F.read_may_fail F.write_may_fail (F.state shelf.old) (F.state shelf.new)
        (executable_input name.now) result IsImageOf }
{
    let bytes = read_file(alloc, name, EXECUTABLE_LIMIT, shelf)?;
    let image = ci_elf::read_vec(alloc, bytes)?;
    Ok(image)
}

/// The latency table in the file of a name.
///
/// # Errors
///
/// Those of [`read_table`].
fn read_table_file<'a, F: Shelf>(
    alloc: Global,
    name: &'a str,
    shelf: &mut F,
) -> Result<Table, Refusal<'a>>
    ensures { IsReadingOf F.read_may_fail F.write_may_fail (F.state shelf.old) (F.state shelf.new)
        (table_input name.now) result AreTable }
{
    let bytes = read_file(alloc, name, TABLE_LIMIT, shelf)?;
    let table = Table::from_toml(alloc, bytes.as_slice())?;
    Ok(table)
}

/// The latency table in the file of a name, or the usual table where none is given.
///
/// # Errors
///
/// `Read` where no file has the name, or reading it failed. `TooLarge` where the file has more than 65,536 bytes.
/// `BadTable` where it is no latency table, by its first fault. `NoMemory`: memory ran out.
pub fn read_table<'a, F: Shelf>(
    alloc: Global,
    name: Option<&'a str>,
    shelf: &mut F,
) -> Result<Table, Refusal<'a>>
    ensures { IsOptionalReadingOf F.read_may_fail F.write_may_fail (F.state shelf.old) (F.state shelf.new)
        table_input (name_in name.entry) result AreLatencies }
{
    match name {
        Some(name) => read_table_file(alloc, name, shelf),
        None => Ok(Table::usual()),
    }
}

/// The modules that the file of a name spells.
///
/// # Errors
///
/// `Read` where no file has the name, or reading it failed. `TooLarge` where the file has more than 4,194,304 bytes.
/// `BadUnits` where it spells no modules, by its first fault. `NoMemory`: memory ran out.
pub fn read_units<'a, F: Shelf>(
    alloc: Global,
    name: &'a str,
    shelf: &mut F,
) -> Result<Vec<Module>, Refusal<'a>>
    ensures { IsReadingOf F.read_may_fail F.write_may_fail (F.state shelf.old) (F.state shelf.new)
        (units_input name.now) result (λ bytes modules. Spell bytes modules.items) }
{
    let bytes = read_file(alloc, name, UNITS_LIMIT, shelf)?;
    let modules = ci_vread::read(alloc, bytes.as_slice())?;
    Ok(modules)
}

/// The modules that the file of a name spells, where one is given.
///
/// # Errors
///
/// Those of [`read_units`].
pub fn read_optional_units<'a, F: Shelf>(
    alloc: Global,
    name: Option<&'a str>,
    shelf: &mut F,
) -> Result<Option<Vec<Module>>, Refusal<'a>>
    ensures { IsOptionalReadingOf F.read_may_fail F.write_may_fail (F.state shelf.old) (F.state shelf.new)
        units_input (name_in name.entry) result (λ bytes modules. AreModules bytes (modules_in modules)) }
{
    match name {
        Some(name) => Ok(Some(read_units(alloc, name, shelf)?)),
        None => Ok(None),
    }
}

/// The log book that the file of a name spells.
///
/// # Errors
///
/// `Read` where no file has the name, or reading it failed. `TooLarge` where the file has more than 268,435,456 bytes.
/// `BadLog` where it spells no log book, by its first fault. `NoMemory`: memory ran out.
pub fn read_book<'a, F: Shelf>(
    alloc: Global,
    name: &'a str,
    shelf: &mut F,
) -> Result<LogBook, Refusal<'a>>
    ensures { IsReadingOf F.read_may_fail F.write_may_fail (F.state shelf.old) (F.state shelf.new)
        (book_input name.now) result Spells }
{
    let bytes = read_file(alloc, name, BOOK_LIMIT, shelf)?;
    let book = ci_log::read(alloc, bytes.as_slice())?;
    Ok(book)
}

/// The netlists whose text the file of a name is.
///
/// # Errors
///
/// `Read` where no file has the name, or reading it failed. `TooLarge` where the file has more than 268,435,456 bytes.
/// `BadNets` where it is no text of netlists, by its fault. `NoMemory`: memory ran out.
pub fn read_nets<'a, F: Shelf>(
    alloc: Global,
    name: &'a str,
    shelf: &mut F,
) -> Result<Vec<Netlist>, Refusal<'a>>
    ensures { IsReadingOf F.read_may_fail F.write_may_fail (F.state shelf.old) (F.state shelf.new)
        (nets_input name.now) result (λ bytes nets. SpellsNets bytes nets.items) }
{
    let bytes = read_file(alloc, name, NETS_LIMIT, shelf)?;
    let nets = ci_netlist::read(alloc, bytes.as_slice())?;
    Ok(nets)
}

/// The bytes of the file of a name, which may hold anything.
///
/// # Errors
///
/// `Read` where no file has the name, or reading it failed. `TooLarge` where the file has more than 16,777,216 bytes.
/// `NoMemory`: memory ran out.
pub fn read_new_file<'a, F: Shelf>(
    alloc: Global,
    name: &'a str,
    shelf: &mut F,
) -> Result<Vec<u8>, Refusal<'a>>
    ensures read { IfOk result (λ bytes. HaveRead F.read_may_fail F.write_may_fail
        (F.state shelf.old) (F.state shelf.new) (new_file_input name.now ∷ []) (bytes.items ∷ [])) }
    ensures refused { IfErr result (λ refusal. (others : List Input) → HaveNotRead F.read_may_fail F.write_may_fail
        (F.state shelf.old) (F.state shelf.new) (new_file_input name.now ∷ others) refusal) }
{
    read_file(alloc, name, EXECUTABLE_LIMIT, shelf)
}

/// The input of a program, from the file of a name, or none where no name is given.
///
/// # Errors
///
/// `Read` where no file has the name, or reading it failed. `TooLarge` where the file has more than 16,777,216 bytes.
/// `NoMemory`: memory ran out.
pub fn read_input<'a, F: Shelf>(
    alloc: Global,
    name: Option<&'a str>,
    shelf: &mut F,
) -> Result<Vec<u8>, Refusal<'a>>
    ensures { IsOptionalReadingOf F.read_may_fail F.write_may_fail (F.state shelf.old) (F.state shelf.new)
        program_input (name_in name.entry) result (λ bytes input. input.items ≡ input_bytes bytes) }
{
    match name {
        Some(name) => read_file(alloc, name, INPUT_LIMIT, shelf),
        None => Ok(Vec::new(alloc)),
    }
}
