//! The grammar of a text of modules, as tables.
ghost use Rattle.std.specs.Prelude.{◌≡◌, ◌↔◌, ℕ, true, false, IsTrue, List, [], ◌∷◌, ◌++◌, map};
ghost use Rattle.ci_vread.specs.Grammar.{unit, made, ends, of_three, units, body, body_of, declaration, wires, others};
ghost use Rattle.ci_vread.specs.Grammar.{term, inside, item, items, simple, bits, range, repetition, parts_of};
ghost use Rattle.ci_vread.specs.private.Scanned.{symbol_by};
ghost use Rattle.ci_vread.specs.private.Tables.{IsOperator, part_of, phrase_of, needs_next};

use crate::tokens::{Kind, Sign};

/// What a token is there for.
#[derive(Clone, Copy)]
pub(crate) enum Role {
    /// This word or mark.
    Sign(Sign),
    /// This number.
    Number(u8),
    /// This letter, which is a name.
    Letter(u8),
    Cycles,
    Module,
    High,
    Name,
    Target,
    Use,
    Index,
    Low,
    Count,
    Constant,
    Operator,
}

/// What ends behind a token.
#[derive(Clone, Copy)]
pub(crate) enum End {
    Simple,
    Term,
    /// A right side that is one term.
    Side,
    Condition,
    /// The second branch of a choice.
    Branch,
    /// An operator's second operand.
    Operand,
    /// A wire with its assign.
    Wire,
    /// All wires of a module.
    Wires,
    /// The first three inputs of a wide module.
    Three,
}

/// A phrase of the grammar.
#[derive(Clone, Copy)]
pub(crate) enum Phrase {
    Units,
    /// What follows the first three inputs of a module.
    Body,
    Wires,
    /// A right side.
    Side,
    /// What follows the first term of a right side.
    Others,
    Term,
    /// What follows the brace that begins a term.
    Inside,
    Item,
    /// What follows an item.
    Items,
    Simple,
    /// What follows a name in a term.
    Bits,
    /// What follows the first index of a name.
    Range,
}

/// What is due at a place of a text.
#[derive(Clone, Copy)]
pub(crate) enum Part {
    Reads(Role),
    Ends(End),
    Made(Phrase),
}

/// The parts of a module, and the modules behind it.
fn unit() -> &'static [Part]
    ensures { map part_of result.now ≡ unit ++ made units ∷ [] }
{
    &[
        Part::Reads(Role::Cycles),
        Part::Reads(Role::Sign(Sign::ModuleWord)),
        Part::Reads(Role::Module),
        Part::Reads(Role::Sign(Sign::Opening)),
        Part::Reads(Role::Sign(Sign::InputWord)),
        Part::Reads(Role::Sign(Sign::LeftBracket)),
        Part::Reads(Role::Number(31)),
        Part::Reads(Role::Sign(Sign::Colon)),
        Part::Reads(Role::Number(0)),
        Part::Reads(Role::Sign(Sign::RightBracket)),
        Part::Reads(Role::Sign(Sign::NameA)),
        Part::Reads(Role::Sign(Sign::Comma)),
        Part::Reads(Role::Sign(Sign::InputWord)),
        Part::Reads(Role::Sign(Sign::LeftBracket)),
        Part::Reads(Role::Number(31)),
        Part::Reads(Role::Sign(Sign::Colon)),
        Part::Reads(Role::Number(0)),
        Part::Reads(Role::Sign(Sign::RightBracket)),
        Part::Reads(Role::Sign(Sign::NameB)),
        Part::Reads(Role::Sign(Sign::Comma)),
        Part::Reads(Role::Sign(Sign::InputWord)),
        Part::Reads(Role::Sign(Sign::LeftBracket)),
        Part::Reads(Role::Number(31)),
        Part::Reads(Role::Sign(Sign::Colon)),
        Part::Reads(Role::Number(0)),
        Part::Reads(Role::Sign(Sign::RightBracket)),
        Part::Reads(Role::Sign(Sign::NameC)),
        Part::Reads(Role::Sign(Sign::Comma)),
        Part::Made(Phrase::Body),
        Part::Made(Phrase::Units),
    ]
}

/// What follows the first three inputs of a narrow module.
fn narrow_body() -> &'static [Part]
    ensures { map part_of result.now ≡ body_of false }
{
    &[
        Part::Reads(Role::Sign(Sign::OutputWord)),
        Part::Reads(Role::Sign(Sign::LeftBracket)),
        Part::Reads(Role::Number(31)),
        Part::Reads(Role::Sign(Sign::Colon)),
        Part::Reads(Role::Number(0)),
        Part::Reads(Role::Sign(Sign::RightBracket)),
        Part::Reads(Role::Sign(Sign::NameY)),
        Part::Reads(Role::Sign(Sign::Comma)),
        Part::Reads(Role::Sign(Sign::OutputWord)),
        Part::Reads(Role::Sign(Sign::LeftBracket)),
        Part::Reads(Role::Number(31)),
        Part::Reads(Role::Sign(Sign::Colon)),
        Part::Reads(Role::Number(0)),
        Part::Reads(Role::Sign(Sign::RightBracket)),
        Part::Reads(Role::Sign(Sign::NameZ)),
        Part::Reads(Role::Sign(Sign::Closing)),
        Part::Reads(Role::Sign(Sign::Semicolon)),
        Part::Made(Phrase::Wires),
        Part::Ends(End::Wires),
        Part::Reads(Role::Sign(Sign::AssignWord)),
        Part::Reads(Role::Sign(Sign::NameY)),
        Part::Reads(Role::Sign(Sign::Equals)),
        Part::Made(Phrase::Side),
        Part::Reads(Role::Sign(Sign::Semicolon)),
        Part::Reads(Role::Sign(Sign::AssignWord)),
        Part::Reads(Role::Sign(Sign::NameZ)),
        Part::Reads(Role::Sign(Sign::Equals)),
        Part::Made(Phrase::Side),
        Part::Reads(Role::Sign(Sign::Semicolon)),
        Part::Reads(Role::Sign(Sign::EndModuleWord)),
    ]
}

/// What follows the first three inputs of a wide module.
fn wide_body() -> &'static [Part]
    ensures { map part_of result.now ≡ ends of_three ∷ body_of true }
{
    &[
        Part::Ends(End::Three),
        Part::Reads(Role::Sign(Sign::InputWord)),
        Part::Reads(Role::Sign(Sign::LeftBracket)),
        Part::Reads(Role::Number(31)),
        Part::Reads(Role::Sign(Sign::Colon)),
        Part::Reads(Role::Number(0)),
        Part::Reads(Role::Sign(Sign::RightBracket)),
        Part::Reads(Role::Letter(b'd')),
        Part::Reads(Role::Sign(Sign::Comma)),
        Part::Reads(Role::Sign(Sign::InputWord)),
        Part::Reads(Role::Sign(Sign::LeftBracket)),
        Part::Reads(Role::Number(31)),
        Part::Reads(Role::Sign(Sign::Colon)),
        Part::Reads(Role::Number(0)),
        Part::Reads(Role::Sign(Sign::RightBracket)),
        Part::Reads(Role::Letter(b'e')),
        Part::Reads(Role::Sign(Sign::Comma)),
        Part::Reads(Role::Sign(Sign::OutputWord)),
        Part::Reads(Role::Sign(Sign::LeftBracket)),
        Part::Reads(Role::Number(31)),
        Part::Reads(Role::Sign(Sign::Colon)),
        Part::Reads(Role::Number(0)),
        Part::Reads(Role::Sign(Sign::RightBracket)),
        Part::Reads(Role::Sign(Sign::NameY)),
        Part::Reads(Role::Sign(Sign::Comma)),
        Part::Reads(Role::Sign(Sign::OutputWord)),
        Part::Reads(Role::Sign(Sign::LeftBracket)),
        Part::Reads(Role::Number(31)),
        Part::Reads(Role::Sign(Sign::Colon)),
        Part::Reads(Role::Number(0)),
        Part::Reads(Role::Sign(Sign::RightBracket)),
        Part::Reads(Role::Sign(Sign::NameZ)),
        Part::Reads(Role::Sign(Sign::Comma)),
        Part::Reads(Role::Sign(Sign::OutputWord)),
        Part::Reads(Role::Sign(Sign::LeftBracket)),
        Part::Reads(Role::Number(31)),
        Part::Reads(Role::Sign(Sign::Colon)),
        Part::Reads(Role::Number(0)),
        Part::Reads(Role::Sign(Sign::RightBracket)),
        Part::Reads(Role::Letter(b'x')),
        Part::Reads(Role::Sign(Sign::Closing)),
        Part::Reads(Role::Sign(Sign::Semicolon)),
        Part::Made(Phrase::Wires),
        Part::Ends(End::Wires),
        Part::Reads(Role::Sign(Sign::AssignWord)),
        Part::Reads(Role::Sign(Sign::NameY)),
        Part::Reads(Role::Sign(Sign::Equals)),
        Part::Made(Phrase::Side),
        Part::Reads(Role::Sign(Sign::Semicolon)),
        Part::Reads(Role::Sign(Sign::AssignWord)),
        Part::Reads(Role::Sign(Sign::NameZ)),
        Part::Reads(Role::Sign(Sign::Equals)),
        Part::Made(Phrase::Side),
        Part::Reads(Role::Sign(Sign::Semicolon)),
        Part::Reads(Role::Sign(Sign::AssignWord)),
        Part::Reads(Role::Letter(b'x')),
        Part::Reads(Role::Sign(Sign::Equals)),
        Part::Made(Phrase::Side),
        Part::Reads(Role::Sign(Sign::Semicolon)),
        Part::Reads(Role::Sign(Sign::EndModuleWord)),
    ]
}

/// The parts of a wire with its assign, and the wires behind it.
fn declaration() -> &'static [Part]
    ensures { map part_of result.now ≡ declaration ++ made wires ∷ [] }
{
    &[
        Part::Reads(Role::Sign(Sign::WireWord)),
        Part::Reads(Role::Sign(Sign::LeftBracket)),
        Part::Reads(Role::High),
        Part::Reads(Role::Sign(Sign::Colon)),
        Part::Reads(Role::Number(0)),
        Part::Reads(Role::Sign(Sign::RightBracket)),
        Part::Reads(Role::Name),
        Part::Reads(Role::Sign(Sign::Semicolon)),
        Part::Reads(Role::Sign(Sign::AssignWord)),
        Part::Reads(Role::Target),
        Part::Reads(Role::Sign(Sign::Equals)),
        Part::Made(Phrase::Side),
        Part::Reads(Role::Sign(Sign::Semicolon)),
        Part::Ends(End::Wire),
        Part::Made(Phrase::Wires),
    ]
}

/// The kind is this word or mark.
pub(crate) fn is_sign(kind: Kind, sign: Sign) -> bool
    ensures { IsTrue result ↔ (kind ≡ Kind.Sign sign) }
{
    kind == Kind::Sign(sign)
}

/// The kind is an operator.
pub(crate) fn is_operator(kind: Kind) -> bool
    ensures { IsTrue result ↔ IsOperator kind }
{
    matches!(kind, Kind::Operator(_))
}

/// The parts behind the brace that begins a repetition.
fn repetition() -> &'static [Part]
    ensures { map part_of result.now ≡ repetition }
{
    &[
        Part::Reads(Role::Count),
        Part::Reads(Role::Sign(Sign::LeftBrace)),
        Part::Made(Phrase::Simple),
        Part::Reads(Role::Sign(Sign::RightBrace)),
        Part::Reads(Role::Sign(Sign::RightBrace)),
    ]
}

/// What follows the first term of a right side, where a symbol of this kind comes next.
fn others(next: Kind) -> &'static [Part]
    ensures { (bytes : List ℕ) → map part_of result.now ≡ parts_of others (symbol_by next bytes) }
{
    if is_operator(next) {
        &[
            Part::Reads(Role::Operator),
            Part::Made(Phrase::Term),
            Part::Ends(End::Operand),
        ]
    } else if is_sign(next, Sign::Question) {
        &[
            Part::Ends(End::Condition),
            Part::Reads(Role::Sign(Sign::Question)),
            Part::Made(Phrase::Term),
            Part::Reads(Role::Sign(Sign::Colon)),
            Part::Made(Phrase::Term),
            Part::Ends(End::Branch),
        ]
    } else {
        &[Part::Ends(End::Side)]
    }
}

/// What follows the brace that begins a term, where a symbol of this kind comes next.
fn inside(next: Kind) -> &'static [Part]
    ensures { (bytes : List ℕ) → map part_of result.now ≡ parts_of inside (symbol_by next bytes) }
{
    if next == Kind::Number {
        repetition()
    } else {
        &[Part::Made(Phrase::Item), Part::Made(Phrase::Items)]
    }
}

/// An item, where a symbol of this kind comes next.
fn item(next: Kind) -> &'static [Part]
    ensures { (bytes : List ℕ) → map part_of result.now ≡ parts_of item (symbol_by next bytes) }
{
    if is_sign(next, Sign::LeftBrace) {
        &[
            Part::Reads(Role::Sign(Sign::LeftBrace)),
            Part::Reads(Role::Count),
            Part::Reads(Role::Sign(Sign::LeftBrace)),
            Part::Made(Phrase::Simple),
            Part::Reads(Role::Sign(Sign::RightBrace)),
            Part::Reads(Role::Sign(Sign::RightBrace)),
        ]
    } else {
        &[Part::Made(Phrase::Simple)]
    }
}

/// What follows an item, where a symbol of this kind comes next.
fn items(next: Kind) -> &'static [Part]
    ensures { (bytes : List ℕ) → map part_of result.now ≡ parts_of items (symbol_by next bytes) }
{
    if is_sign(next, Sign::Comma) {
        &[
            Part::Reads(Role::Sign(Sign::Comma)),
            Part::Made(Phrase::Item),
            Part::Made(Phrase::Items),
        ]
    } else {
        &[Part::Reads(Role::Sign(Sign::RightBrace))]
    }
}

/// A term, where a symbol of this kind comes next.
fn term(next: Kind) -> &'static [Part]
    ensures { (bytes : List ℕ) → map part_of result.now ≡ parts_of term (symbol_by next bytes) }
{
    if is_sign(next, Sign::LeftBrace) {
        &[
            Part::Reads(Role::Sign(Sign::LeftBrace)),
            Part::Made(Phrase::Inside),
            Part::Ends(End::Term),
        ]
    } else {
        &[Part::Made(Phrase::Simple), Part::Ends(End::Term)]
    }
}

/// A part of a term that names one thing, where a symbol of this kind comes next.
fn simple(next: Kind) -> &'static [Part]
    ensures { (bytes : List ℕ) → map part_of result.now ≡ parts_of simple (symbol_by next bytes) }
{
    if next == Kind::Constant {
        &[Part::Reads(Role::Constant), Part::Ends(End::Simple)]
    } else {
        &[
            Part::Reads(Role::Use),
            Part::Made(Phrase::Bits),
            Part::Ends(End::Simple),
        ]
    }
}

/// What follows a name in a term, where a symbol of this kind comes next.
fn bits(next: Kind) -> &'static [Part]
    ensures { (bytes : List ℕ) → map part_of result.now ≡ parts_of bits (symbol_by next bytes) }
{
    if is_sign(next, Sign::LeftBracket) {
        &[
            Part::Reads(Role::Sign(Sign::LeftBracket)),
            Part::Reads(Role::Index),
            Part::Made(Phrase::Range),
            Part::Reads(Role::Sign(Sign::RightBracket)),
        ]
    } else {
        &[]
    }
}

/// What follows the first index of a name, where a symbol of this kind comes next.
fn range(next: Kind) -> &'static [Part]
    ensures { (bytes : List ℕ) → map part_of result.now ≡ parts_of range (symbol_by next bytes) }
{
    if is_sign(next, Sign::Colon) {
        &[Part::Reads(Role::Sign(Sign::Colon)), Part::Reads(Role::Low)]
    } else {
        &[]
    }
}

/// Modules, where a symbol of this kind comes next.
fn units(next: Kind) -> &'static [Part]
    ensures { (bytes : List ℕ) → map part_of result.now ≡ parts_of units (symbol_by next bytes) }
{
    if next == Kind::End { &[] } else { unit() }
}

/// What follows the first three inputs, where a symbol of this kind comes next.
fn body(next: Kind) -> &'static [Part]
    ensures { (bytes : List ℕ) → map part_of result.now ≡ parts_of body (symbol_by next bytes) }
{
    if is_sign(next, Sign::InputWord) {
        wide_body()
    } else {
        narrow_body()
    }
}

/// Wires, where a symbol of this kind comes next.
fn wires(next: Kind) -> &'static [Part]
    ensures { (bytes : List ℕ) → map part_of result.now ≡ parts_of wires (symbol_by next bytes) }
{
    if is_sign(next, Sign::WireWord) {
        declaration()
    } else {
        &[]
    }
}

impl Phrase {
    /// The parts that the phrase consists of, where a symbol of this kind comes next.
    pub(crate) fn parts(self, next: Kind) -> &'static [Part]
        ensures { (bytes : List ℕ) → map part_of result.now ≡ parts_of (phrase_of self) (symbol_by next bytes) }
    {
        match self {
            Phrase::Units => units(next),
            Phrase::Body => body(next),
            Phrase::Wires => wires(next),
            Phrase::Side => &[Part::Made(Phrase::Term), Part::Made(Phrase::Others)],
            Phrase::Others => others(next),
            Phrase::Term => term(next),
            Phrase::Inside => inside(next),
            Phrase::Item => item(next),
            Phrase::Items => items(next),
            Phrase::Simple => simple(next),
            Phrase::Bits => bits(next),
            Phrase::Range => range(next),
        }
    }

    /// The end of the phrase is seen only by the symbol behind it.
    fn needs_next(self) -> bool
        ensures { result ≡ needs_next self }
    {
        match self {
            Phrase::Bits | Phrase::Others => true,
            Phrase::Units
            | Phrase::Body
            | Phrase::Wires
            | Phrase::Side
            | Phrase::Term
            | Phrase::Inside
            | Phrase::Item
            | Phrase::Items
            | Phrase::Simple
            | Phrase::Range => false,
        }
    }

    /// A symbol behind the phrase has to show its end, but the text ends.
    pub(crate) fn is_cut_off(self, next: Kind) -> bool
        ensures cut_off { IsTrue result → (next ≡ Kind.End) × (needs_next self ≡ true) }
        ensures whole { result ≡ false → next ≡ Kind.End → needs_next self ≡ false }
    {
        next == Kind::End && self.needs_next()
    }
}
