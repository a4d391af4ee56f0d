//! Names, terms, expressions and wires (IEEE 1364-2005, sections 5.1, expressions, and 6.1, continuous assignments).
ghost use Rattle.std.specs.Prelude.{◌≡◌, ◌<◌, ◌∷◌, ◌++◌, [], OnOk, OnErr};

use std::alloc::{AllocError, Global};
use std::marker::Model;

/// The name of an input or a wire (IEEE 1364-2005, section 3.7). Contracts see its bytes.
///
/// Where `Wires::name` made it, the number of its wire stands beside the bytes, so that the wire is found at once.
/// The number is tried before all others, and nothing depends on it.
#[derive(Drop)]
pub struct Name {
    bytes: Vec<u8>,
    place: u16,
}

impl Model for Name {
    ghost use Rattle.std.specs.Prelude.{ℕ, List};

    ghost Value = { List ℕ };

    ghost view = { λ name. name.bytes.items };
}

impl Name {
    /// The name with these bytes.
    pub fn new(bytes: Vec<u8>) -> Name
        ensures { result ≡ bytes.items }
    {
        Name { bytes, place: 0 }
    }

    /// The same name, which the wire of this number likely has.
    pub fn placed(self, place: usize) -> Name
        requires { place < 65536 }
        ensures { result ≡ self }
    {
        let Name { bytes, place: _ } = self;
        Name {
            bytes,
            place: place as u16,
        }
    }

    /// The bytes.
    pub fn as_bytes(&self) -> &[u8]
        ensures { result.now ≡ self.now }
    {
        &self.bytes
    }

    /// The number of the wire that likely has the name.
    pub(crate) fn place(&self) -> usize {
        usize::from(self.place)
    }
}

/// Names are equal where their bytes are.
impl PartialEq for Name {
    ghost use Rattle.std.specs.Cmp.{partial_equiv_from_equiv};
    ghost use Rattle.ci_verilog.specs.NameEquality.{same_name, names_equivalent};

    ghost eq = { same_name };

    ghost laws = { partial_equiv_from_equiv names_equivalent };

    fn eq(&self, other: &Name) -> bool {
        self.bytes == other.bytes
    }
}

impl Eq for Name {
    ghost use Rattle.ci_verilog.specs.NameEquality.{names_equivalent};

    ghost laws = { names_equivalent };
}

/// A part of a term that names one thing.
#[derive(Drop, PartialEq, Eq)]
pub enum Simple {
    /// All bits of a name.
    Whole(Name),
    /// The bits of a name from the high one to the low one, which may be the same one (IEEE 1364-2005, section 5.2.1).
    Bits(Name, u8, u8),
    /// A constant of this width (IEEE 1364-2005, section 3.5.1).
    Number { width: u8, value: u64 },
}

/// A part of a concatenation.
#[derive(Drop, PartialEq, Eq)]
pub enum Item {
    Plain(Simple),
    /// So many copies, one behind the other (IEEE 1364-2005, section 5.1.14).
    Repeat(u8, Simple),
}

/// The items of a concatenation, the highest first. Contracts see a list.
#[derive(Drop)]
pub struct Items {
    items: Vec<Item>,
}

impl Model for Items {
    ghost use Rattle.std.specs.Prelude.{List};
    ghost use Rattle.ci_verilog.specs.declared.expressions.Item.{Item};

    ghost Value = { List Item };

    ghost view = { λ items. items.items.items };
}

impl Items {
    /// No items. It takes no memory.
    pub fn new(alloc: Global) -> Items
        ensures { result ≡ [] }
    {
        Items {
            items: Vec::new(alloc),
        }
    }

    /// Puts an item at the end, as the lowest. An Err is out of memory, and nothing changes.
    pub fn push(&mut self, item: Item) -> Result<(), AllocError>
        ensures ok { OnOk result (self.new ≡ self.old ++ item ∷ []) }
        ensures err { OnErr result (self.new ≡ self.old) }
    {
        self.items.push(item)?;
        Ok(())
    }

    /// The items in their order.
    pub fn as_slice(&self) -> &[Item]
        ensures { result.now ≡ self.now }
    {
        &self.items
    }
}

/// Lists of items are equal where their items are.
impl PartialEq for Items {
    ghost use Rattle.std.specs.Cmp.{partial_equiv_from_equiv};
    ghost use Rattle.ci_verilog.specs.ItemEquality.{same_items, items_equivalent};

    ghost eq = { same_items };

    ghost laws = { partial_equiv_from_equiv items_equivalent };

    fn eq(&self, other: &Items) -> bool {
        self.items == other.items
    }
}

impl Eq for Items {
    ghost use Rattle.ci_verilog.specs.ItemEquality.{items_equivalent};

    ghost laws = { items_equivalent };
}

/// An operand.
#[derive(Drop, PartialEq, Eq)]
pub enum Term {
    Plain(Simple),
    /// So many copies, one behind the other (IEEE 1364-2005, section 5.1.14).
    Repeat(u8, Simple),
    /// A concatenation (IEEE 1364-2005, section 5.1.14).
    Join(Items),
}

/// An operator on two operands (IEEE 1364-2005, sections 5.1.5, 5.1.7, 5.1.10 and 5.1.12).
#[derive(Clone, Copy, Debug, PartialEq, Eq)]
pub enum Operator {
    Plus,
    Minus,
    Times,
    And,
    Or,
    Xor,
    /// The shift to the left.
    Left,
    /// The shift to the right, which fills with zeros.
    Right,
    Less,
}

/// An expression (IEEE 1364-2005, section 5.1).
#[derive(Drop, PartialEq, Eq)]
pub enum Expr {
    One(Term),
    Two(Operator, Term, Term),
    /// The second operand where the first isn't 0, else the third (IEEE 1364-2005, section 5.1.13).
    Choose(Term, Term, Term),
}

/// A wire of so many bits, which always has the value of its expression (IEEE 1364-2005, section 6.1).
#[derive(Drop, PartialEq, Eq)]
pub struct Wire {
    pub name: Name,
    pub width: u8,
    pub value: Expr,
}
