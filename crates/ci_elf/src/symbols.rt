//! The values of symbols.
ghost use Rattle.std.specs.Prelude.{◌≡◌, ◌<◌, ◌++◌, IfOk, OnOk};
ghost use Rattle.ci_elf.specs.Fields.{e_shnum};
ghost use Rattle.ci_elf.specs.Executables.{begins_entry, symbols_of};
ghost use Rattle.ci_elf.specs.Rules.{KeepsRules, section_rules};
ghost use Rattle.ci_elf.specs.private.Checks.{HasTables};
ghost use Rattle.ci_elf.specs.private.SymbolChecks.{IsSpan, IsTableAmong, TakesToo, free_values};

use crate::fields::{section_count, word_at};
use crate::parts::Part;
use crate::sections::symbol_part;
use crate::taken::TakenPlaces;
use std::alloc::{AllocError, Global};

/// The part of the file from the first place of a symbol table to the last one.
fn table_span(bytes: &[u8]) -> Part
    requires tables { HasTables bytes.now }
    requires sections { KeepsRules bytes.now (section_rules bytes.now) }
    ensures { IsSpan bytes.now (e_shnum bytes.now) result }
{
    let mut span = Part {
        start: bytes.len() as u64,
        end: 0,
    };
    for n in 0..section_count(bytes) {
        span = span.widened(symbol_part(bytes, n));
    }
    span
}

/// Adds the value of each entry of a symbol table that isn't taken, and takes it.
fn push_values(
    symbols: &mut Vec<u32>,
    taken: &mut TakenPlaces,
    bytes: &[u8],
    table: Part,
) -> Result<(), AllocError>
    requires { IsTableAmong bytes.now taken.old table }
    ensures values { OnOk result (symbols.new.items ≡ symbols.old.items ++ free_values bytes.now taken.old table) }
    ensures taken { OnOk result (TakesToo taken.old taken.new (begins_entry table.start table.end)) }
{
    let start = table.start as usize;
    let count = (table.end - table.start) as usize / 16;
    let mut k = 0;
    while k < count {
        let place = start + 16 * k;
        let run = taken.run_at(place) as usize;
        if run == 0 {
            symbols.push(word_at(bytes, place + 4))?;
            taken.take(place);
            k += 1;
        } else {
            k += run.min(count - k);
        }
    }
    Ok(())
}

/// The value of each symbol, in the order of the file's tables. An entry that several tables have counts once, at the
/// first of them.
pub(crate) fn symbol_values(alloc: Global, bytes: &[u8]) -> Result<Vec<u32>, AllocError>
    requires tables { HasTables bytes.now }
    requires sections { KeepsRules bytes.now (section_rules bytes.now) }
    ensures { IfOk result (λ v. v.items ≡ symbols_of bytes.now) }
{
    let mut symbols = Vec::new(alloc);
    let mut taken = TakenPlaces::new(alloc, table_span(bytes))?;
    for n in 0..section_count(bytes) {
        push_values(&mut symbols, &mut taken, bytes, symbol_part(bytes, n))?;
    }
    Ok(symbols)
}
