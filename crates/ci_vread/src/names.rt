//! The names of a module that a term may have.
ghost use Rattle.std.specs.Prelude.{◌≡◌, ℕ, false, List, [], ◌∷◌, ◌++◌, length, nat_lt, OnOk, IfOk, Some, None};
ghost use Rattle.std.specs.Prelude.{if◌then◌else◌};
ghost use Rattle.std.specs.Str.{bytes_eq};
ghost use Rattle.ci_verilog.specs.Modules.{Known, inputs, vector};
ghost use Rattle.ci_vread.specs.Rules.{is_known, width_of, most_names};
ghost use Rattle.ci_vread.specs.private.Names.{Knows, width_at, earlier};

use std::alloc::{AllocError, Global};
use std::collections::BTreeMap;

/// A narrow module has at most this many names: three inputs and its wires.
const MOST_NARROW: usize = 2051;

/// A wide module has at most this many names: five inputs and its wires.
const MOST_NAMES: usize = 2053;

/// The names that a term may have, with their widths in bits.
#[derive(Drop)]
pub(crate) struct Names<'a> {
    widths: BTreeMap<&'a [u8], u64>,
    /// How many names there are; from `MOST_NAMES` on it stands still.
    count: usize,
}

/// Gives the name this width, if it has none yet.
fn define_width<'a>(
    widths: &mut BTreeMap<&'a [u8], u64>,
    name: &'a [u8],
    width: u64,
) -> Result<(), AllocError>
    ensures { OnOk result ((q : List ℕ) → width_at widths.new q
        ≡ earlier (width_at widths.old q) (if bytes_eq name.now q then Some width else None)) }
{
    if widths.get(&name).is_none() {
        widths.insert(name, width)?;
    }
    Ok(())
}

impl<'a> Names<'a> {
    /// No names.
    pub(crate) fn new(alloc: Global) -> Names<'a>
        ensures { Knows result [] }
    {
        Names {
            widths: BTreeMap::new(alloc),
            count: 0,
        }
    }

    /// The names of the inputs of a narrow module.
    pub(crate) fn of_inputs(alloc: Global) -> Result<Names<'a>, AllocError>
        ensures { IfOk result (λ names. Knows names (inputs false)) }
    {
        let mut names = Names::new(alloc);
        names.define(b"a", 32)?;
        names.define(b"b", 32)?;
        names.define(b"c", 32)?;
        Ok(names)
    }

    /// A term may have the name.
    pub(crate) fn contains(&self, name: &'a [u8]) -> bool
        ensures { (known : List Known) → Knows self.now known → result ≡ is_known known name.now }
    {
        self.widths.get(&name).is_some()
    }

    /// The width of the name, and 0 if no term may have it.
    pub(crate) fn width(&self, name: &'a [u8]) -> u64
        ensures { (known : List Known) → Knows self.now known → result ≡ width_of known name.now }
    {
        self.widths.get(&name).copied().unwrap_or(0)
    }

    /// There is room for one wire more.
    pub(crate) fn has_room(&self, wide: bool) -> bool
        ensures { (known : List Known) → Knows self.now known → result ≡ nat_lt (length known) (most_names wide) }
    {
        if wide {
            self.count < MOST_NAMES
        } else {
            self.count < MOST_NARROW
        }
    }

    /// One name more, behind those that are there.
    pub(crate) fn define(&mut self, name: &'a [u8], width: u64) -> Result<(), AllocError>
        ensures { OnOk result ((known : List Known) → Knows self.old known
            → Knows self.new (known ++ vector name.now width ∷ [])) }
    {
        define_width(&mut self.widths, name, width)?;
        self.count = self.count.min(MOST_NAMES - 1) + 1;
        Ok(())
    }
}
