//! The labels of a text.
ghost use Rattle.std.specs.Prelude.{◌≡◌, ℕ, List, OnOk, if◌then◌else◌, Some, None};
ghost use Rattle.std.specs.Option.{option_or};
ghost use Rattle.std.specs.Str.{bytes_eq};
ghost use Rattle.ci_asm.specs.private.LabelMap.{found_in};

use std::alloc::AllocError;
use std::collections::BTreeMap;

/// Where a label is defined: its line, from 1 on, and how many words stand before it.
#[derive(Clone, Copy)]
pub(crate) struct Definition {
    pub line: u32,
    pub words: u32,
}

/// The first definition of each label.
pub(crate) type Definitions<'a> = BTreeMap<&'a [u8], Definition>;

/// The first definition of the label, if it has one.
pub(crate) fn definition_in<'a>(definitions: &Definitions<'a>, name: &'a [u8]) -> Option<Definition>
    ensures { result ≡ found_in definitions.now name.now }
{
    definitions.get(&name).copied()
}

/// Defines the label, if it isn't defined yet.
pub(crate) fn define<'a>(
    definitions: &mut Definitions<'a>,
    name: &'a [u8],
    definition: Definition,
) -> Result<(), AllocError>
    ensures { OnOk result ((q : List ℕ) → found_in definitions.new q
        ≡ option_or (found_in definitions.old q) (if bytes_eq name.now q then Some definition else None)) }
{
    if definitions.get(&name).is_none() {
        definitions.insert(name, definition)?;
    }
    Ok(())
}
