//! The bits that names, and terms made of them, stand for.
ghost use Rattle.std.specs.Prelude.{◌≡◌, ℕ, ◌+◌, ◌-◌, ◌^◌, ◌<◌, ◌≤◌, Bool, List, length, map, take, drop, replicate, IfOk};
ghost use Rattle.std.specs.List.{Contains};
ghost use Rattle.std.specs.Int.{bit_at};
ghost use Rattle.ci_verilog.specs.declared.vectors.Vector.{Vector};
ghost use Rattle.ci_netlist.specs.declared.bits.Bit.{Bit};
ghost use Rattle.ci_verilog.specs.Modules.{WireList, known_by, vector, wires_of};
ghost use Rattle.ci_verilog.specs.Values.{of_width, joined, simple_bits, item_bits, term_bits};
ghost use Rattle.ci_verilog.specs.private.Held.{SimpleFits, ItemFits, ItemsFit, TermFits};
ghost use Rattle.ci_netlist.specs.Netlists.{bit_value, digit, spelt, IsBit};
ghost use Rattle.ci_gates.specs.private.Scopes.{slot, IsScope, HoldsWords, Stands};

use ci_netlist::Bit;
use ci_verilog::{Item, Name, Simple, Term, Wire, input_named, wire_named};
use std::alloc::{AllocError, Global};

/// Where the bits of a name begin, and how many there are.
#[derive(Clone, Copy)]
struct Place {
    start: usize,
    width: u8,
}

/// The bits of the inputs, and of the wires so far: 64 for each, with zeros above its width.
#[derive(Clone, Copy)]
pub(crate) struct Scope<'a> {
    pub wide: bool,
    pub wires: &'a [Wire],
    pub words: &'a [Bit],
}

/// The bits from the first place to before the second.
fn part(alloc: Global, bits: &[Bit], start: usize, end: usize) -> Result<Vec<Bit>, AllocError>
    requires order { start ≤ end }
    requires within { end ≤ length bits.now }
    ensures { IfOk result (λ v. v.items ≡ take (end - start) (drop start bits.now)) }
{
    Vec::from_slice(alloc, &bits[start..end])
}

/// A bit of a constant.
fn constant_bit(value: u64, place: u8) -> Bit
    requires { place < 64 }
    ensures is_constant { (made : ℕ) → IsBit made result }
    ensures value { (arguments : List ℕ) (gives : ℕ → Bool) → digit (bit_value arguments gives result) ≡ bit_at value place }
{
    if (value >> place) & 1 == 1 {
        Bit::One
    } else {
        Bit::Zero
    }
}

/// The bits of a constant.
fn constant(alloc: Global, width: u8, value: u64) -> Result<Vec<Bit>, AllocError>
    requires narrow { width ≤ 64 }
    requires fits { value < 2 ^ width }
    ensures { IfOk result (λ v. (wires : WireList) (words : List Bit) → Stands wires words v.items (λ names. of_width width value)) }
{
    let mut bits = Vec::new(alloc);
    for k in 0..width {
        bits.push(constant_bit(value, k))?;
    }
    Ok(bits)
}

/// So many copies of a word, one above the other.
fn repeated(alloc: Global, word: &[Bit], count: u8) -> Result<Vec<Bit>, AllocError>
    ensures { IfOk result (λ v. (wires : WireList) (words : List Bit) (of : (List ℕ → Vector) → Vector)
        → Stands wires words word.now of → Stands wires words v.items (λ names. joined (replicate count (of names)))) }
{
    let mut copies = Vec::new(alloc);
    for _ in 0..count {
        copies.extend_from_slice(word)?;
    }
    Ok(copies)
}

impl Scope<'_> {
    /// Where the bits of the name are.
    fn place(&self, name: &Name) -> Place
        requires scope { IsScope (wires_of self.now.wide self.now.wires.now) self.now.words.now }
        requires known { (width : ℕ) × Contains (known_by (wires_of self.now.wide self.now.wires.now)) (vector name.now width) }
        ensures room { result.start + 64 ≤ length self.now.words.now }
        ensures width { result.width ≤ 64 }
        ensures value { (arguments : List ℕ) (gives : ℕ → Bool) (names : List ℕ → Vector)
            → HoldsWords (bit_value arguments gives) names (wires_of self.now.wide self.now.wires.now) self.now.words.now
            → names name.now ≡ of_width result.width (spelt (bit_value arguments gives) (slot self.now.words.now result.start)) }
    {
        match input_named(self.wide, name.as_bytes()) {
            Some(k) => Place {
                start: 64 * k,
                width: 32,
            },
            None => match wire_named(self.wires, name) {
                Some(k) => Place {
                    start: 64 * (5 + k),
                    width: self.wires[k].width,
                },
                None => Place { start: 0, width: 0 },
            },
        }
    }

    /// The bits of a simple.
    fn simple(&self, alloc: Global, simple: &Simple) -> Result<Vec<Bit>, AllocError>
        requires scope { IsScope (wires_of self.now.wide self.now.wires.now) self.now.words.now }
        requires fits { SimpleFits (wires_of self.now.wide self.now.wires.now) simple.now }
        ensures { IfOk result (λ v.
            Stands (wires_of self.now.wide self.now.wires.now) self.now.words.now v.items (λ names. simple_bits names simple.now)) }
    {
        match simple {
            Simple::Whole(name) => {
                let place = self.place(name);
                let end = place.start + usize::from(place.width);
                part(alloc, self.words, place.start, end)
            }
            Simple::Bits(name, high, low) => {
                let place = self.place(name);
                let start = place.start + usize::from(*low);
                let end = place.start + usize::from(*high) + 1;
                part(alloc, self.words, start, end)
            }
            Simple::Number { width, value } => constant(alloc, *width, *value),
        }
    }

    /// The bits of an item.
    fn item(&self, alloc: Global, item: &Item) -> Result<Vec<Bit>, AllocError>
        requires scope { IsScope (wires_of self.now.wide self.now.wires.now) self.now.words.now }
        requires fits { ItemFits (wires_of self.now.wide self.now.wires.now) item.now }
        ensures { IfOk result (λ v.
            Stands (wires_of self.now.wide self.now.wires.now) self.now.words.now v.items (λ names. item_bits names item.now)) }
    {
        match item {
            Item::Plain(simple) => self.simple(alloc, simple),
            Item::Repeat(count, simple) => {
                let word = self.simple(alloc, simple)?;
                repeated(alloc, &word, *count)
            }
        }
    }

    /// The bits of items, the first one the highest.
    fn items(&self, alloc: Global, items: &[Item]) -> Result<Vec<Bit>, AllocError>
        requires scope { IsScope (wires_of self.now.wide self.now.wires.now) self.now.words.now }
        requires fits { ItemsFit (wires_of self.now.wide self.now.wires.now) items.now }
        ensures { IfOk result (λ v.
            Stands (wires_of self.now.wide self.now.wires.now) self.now.words.now v.items (λ names. joined (map (item_bits names) items.now))) }
    {
        let mut bits = Vec::new(alloc);
        for item in items {
            let mut lower = self.item(alloc, item)?;
            lower.extend_from_slice(&bits)?;
            bits = lower;
        }
        Ok(bits)
    }

    /// The bits of an operand.
    pub(crate) fn term(&self, alloc: Global, term: &Term) -> Result<Vec<Bit>, AllocError>
        requires scope { IsScope (wires_of self.now.wide self.now.wires.now) self.now.words.now }
        requires fits { TermFits (wires_of self.now.wide self.now.wires.now) term.now }
        ensures { IfOk result (λ v.
            Stands (wires_of self.now.wide self.now.wires.now) self.now.words.now v.items (λ names. term_bits names term.now)) }
    {
        match term {
            Term::Plain(simple) => self.simple(alloc, simple),
            Term::Repeat(count, simple) => {
                let word = self.simple(alloc, simple)?;
                repeated(alloc, &word, *count)
            }
            Term::Join(items) => self.items(alloc, items.as_slice()),
        }
    }
}
