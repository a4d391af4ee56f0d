//! The wires of a module, taken one after the other.
ghost use Rattle.std.specs.Prelude.{◌≡◌, ◌<◌, ◌≤◌, ◌↔◌, [], ◌∷◌, ◌++◌, length, IsTrue, OnOk, OnErr};
ghost use Rattle.ci_verilog.specs.Modules.{IsWire, IsFree, AreWires, AreFree, known_by, inputs};

use crate::expressions::{Name, Wire};
use crate::lookup::wire_named;
use std::alloc::{AllocError, Global};
use std::marker::Model;

/// The most wires of a module.
pub const WIRES: usize = 2048;

/// The wires of a module in their order, at most 2,048.
///
/// Each names only inputs and earlier wires, and has a name of its own, which in a wide module isn't x, and the width
/// of its expression. Contracts see a list, and whether the module is a wide one. A reader or an emitter takes the
/// wires of a module one after the other; before each it may ask of what width a name, a term or an expression is, if
/// any, and whether a wire may come next.
#[derive(Drop)]
pub struct Wires {
    wide: bool,
    wires: Vec<Wire>,
}

impl Model for Wires {
    ghost use Rattle.std.specs.Prelude.{◌≤◌, length};
    ghost use Rattle.ci_verilog.specs.declared.expressions.Wire.{Wire};
    ghost use Rattle.ci_verilog.specs.Modules.{WireList, AreWires, AreFree, inputs};

    ghost Value = { WireList };

    ghost view = { λ w. record { wide = w.wide; list = w.wires.items } };

    ghost invariant = { λ w.
        AreWires (inputs w.wide) w.wires.items × AreFree w.wide w.wires.items × (length w.wires.items ≤ 2048) };
}

/// Lists of wires are equal where their wires are, and both are those of a wide module or of a narrow one.
impl PartialEq for Wires {
    ghost use Rattle.std.specs.Cmp.{partial_equiv_from_equiv};
    ghost use Rattle.ci_verilog.specs.WireEquality.{same_lists_of, lists_equivalent};

    ghost eq = { same_lists_of };

    ghost laws = { partial_equiv_from_equiv lists_equivalent };

    fn eq(&self, other: &Wires) -> bool {
        self.wide == other.wide && self.wires == other.wires
    }
}

impl Eq for Wires {
    ghost use Rattle.ci_verilog.specs.WireEquality.{lists_equivalent};

    ghost laws = { lists_equivalent };
}

impl Wires {
    /// No wires, of a wide module or of a narrow one. It takes no memory.
    pub fn new(wide: bool, alloc: Global) -> Wires
        ensures { result ≡ record { wide = wide; list = [] } }
    {
        Wires {
            wide,
            wires: Vec::new(alloc),
        }
    }

    /// These wires, of which each one comes next behind those before it.
    pub fn from_vec(wide: bool, wires: Vec<Wire>) -> Wires
        requires are_wires { AreWires (inputs wide) wires.items }
        requires are_free { AreFree wide wires.items }
        requires few { length wires.items ≤ 2048 }
        ensures { result ≡ record { wide = wide; list = wires.items } }
    {
        Wires { wide, wires }
    }

    /// Whether they are those of a wide module.
    pub fn is_wide(&self) -> bool
        ensures { result ≡ self.now.wide }
    {
        self.wide
    }

    /// The wires in their order.
    pub fn as_slice(&self) -> &[Wire]
        ensures value { result.now ≡ self.now.list }
        ensures kept { AreWires (inputs self.now.wide) self.now.list }
        ensures few { length self.now.list ≤ 2048 }
    {
        &self.wires
    }

    /// How many there are.
    pub fn len(&self) -> usize
        ensures value { result ≡ length self.now.list }
        ensures kept { AreWires (inputs self.now.wide) self.now.list }
        ensures free { AreFree self.now.wide self.now.list }
        ensures few { length self.now.list ≤ 2048 }
    {
        self.wires.len()
    }

    /// Whether there is none.
    pub fn is_empty(&self) -> bool
        ensures { IsTrue result ↔ (self.now.list ≡ []) }
    {
        self.wires.is_empty()
    }

    /// Whether there are as many as a module may have.
    pub fn is_full(&self) -> bool
        ensures value { IsTrue result ↔ (length self.now.list ≡ 2048) }
        ensures few { length self.now.list ≤ 2048 }
    {
        self.wires.len() == WIRES
    }

    /// Puts a wire at the end. An Err is out of memory, and nothing changes.
    pub fn push(&mut self, wire: Wire) -> Result<(), AllocError>
        requires room { length self.old.list < 2048 }
        requires is_wire { IsWire (known_by self.old) wire }
        requires is_free { IsFree self.old.wide wire.name }
        ensures ok { OnOk result (self.new ≡ record { wide = self.old.wide; list = self.old.list ++ wire ∷ [] }) }
        ensures err { OnErr result (self.new ≡ self.old) }
    {
        self.wires.push(wire)?;
        Ok(())
    }

    /// The name with these bytes, for a term. Where a wire has it, the wire's number stands beside them.
    pub fn name(&self, bytes: Vec<u8>) -> Name
        ensures { result ≡ bytes.items }
    {
        let name = Name::new(bytes);
        match wire_named(&self.wires, &name) {
            Some(place) => name.placed(place),
            None => name,
        }
    }
}
