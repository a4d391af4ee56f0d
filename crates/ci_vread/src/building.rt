//! The modules of a text that has no fault.
ghost use Rattle.std.specs.Prelude.{◌≡◌, ◌<◌, List, drop, IfOk, OnOk};
ghost use Rattle.std.specs.List.{AllByRecursion};
ghost use Rattle.ci_verilog.specs.Modules.{Module, IsModule};
ghost use Rattle.ci_vread.specs.private.Building.{token_of, left, front, is_sign, is_number, is_cycles, number_in, cycles_in};
ghost use Rattle.ci_vread.specs.private.Building.{operator_in, constant_in, name_in, input_in, low_of, bits_of, simple_of};
ghost use Rattle.ci_vread.specs.private.Building.{repeated_of};
ghost use Rattle.ci_vread.specs.private.Building.{item_of, items_of, inside_of, term_of, others_of, expr_of, wire_of, wires_of};
ghost use Rattle.ci_vread.specs.private.Building.{result_of, third_of, is_wide, ports_behind, module_of, modules_of, AreBuilt};

use crate::tokens::{Kind, Sign, Token};
use crate::values::{constant_of, cycles_of, name_of, number_of};
use ci_verilog::{Expr, Item, Items, Module, Name, Operator, Simple, Term, Wire, Wires};
use std::alloc::{AllocError, Global};
use std::collections::BTreeMap;

/// The most items of a concatenation: each has a bit.
const ITEMS: usize = 64;

/// The most wires of a module.
const WIRES: u16 = 2048;

/// The most modules of a text.
const MODULES: u8 = 32;

/// How many tokens stand before the ports that tell a wide module from a narrow one: its cycles, `module`, its name,
/// `(` and the 24 of its first three inputs.
const HEAD: usize = 28;

/// How many tokens the other ports of a narrow module have.
const NARROW: usize = 17;

/// How many tokens the other ports of a wide module have.
const WIDE: usize = 41;

/// What is left of a text, and the numbers of the wires of the present module, by their names.
#[derive(Drop)]
struct Builder<'a> {
    alloc: Global,
    text: &'a [u8],
    tokens: &'a [Token],
    places: BTreeMap<&'a [u8], u16>,
}

/// The bytes of the name of an input.
fn input_bytes(sign: Sign) -> &'static [u8]
    ensures { result.now ≡ input_in sign }
{
    match sign {
        Sign::NameA => b"a",
        Sign::NameB => b"b",
        Sign::NameC => b"c",
        _ => b"",
    }
}

/// The bytes of a name or of an input.
fn name_bytes<'a>(text: &'a [u8], token: Token) -> &'a [u8]
    ensures { result.now ≡ name_in (token_of text.now token) }
{
    match token.kind {
        Kind::Name => name_of(text, token),
        Kind::Sign(sign) => input_bytes(sign),
        _ => b"",
    }
}

// A term or an expression that was read is let go by `drop`: at a `?` the proof would walk through all that it can be.
impl<'a> Builder<'a> {
    /// The next token.
    fn front(&self) -> Token
        ensures { token_of self.now.text.now result ≡ front (left self.now) }
    {
        match self.tokens.first() {
            Some(token) => *token,
            None => Token {
                kind: Kind::End,
                size: 0,
                start: 0,
            },
        }
    }

    /// Passes over so many tokens.
    fn pass(&mut self, count: usize)
        ensures { left self.new ≡ drop count (left self.old) }
    {
        self.tokens = &self.tokens[count.min(self.tokens.len())..];
    }

    /// Whether the word or mark comes next.
    fn begins(&self, sign: Sign) -> bool
        ensures { result ≡ is_sign sign (front (left self.now)) }
    {
        match self.front().kind {
            Kind::Sign(found) => found == sign,
            _ => false,
        }
    }

    /// Whether a number comes next.
    fn begins_number(&self) -> bool
        ensures { result ≡ is_number (front (left self.now)) }
    {
        matches!(self.front().kind, Kind::Number)
    }

    /// Whether a module comes next.
    fn begins_module(&self) -> bool
        ensures { result ≡ is_cycles (front (left self.now)) }
    {
        matches!(self.front().kind, Kind::Cycles)
    }

    /// The operator that comes next, if one does.
    fn operator(&self) -> Option<Operator>
        ensures { result ≡ operator_in (front (left self.now)) }
    {
        match self.front().kind {
            Kind::Operator(operator) => Some(operator),
            _ => None,
        }
    }

    /// The constant that comes next, if one does.
    fn constant(&self) -> Option<Simple>
        ensures { result ≡ constant_in (front (left self.now)) }
    {
        let token = self.front();
        match token.kind {
            Kind::Constant => {
                let (width, value) = constant_of(self.text, token);
                Some(Simple::Number {
                    width: (width % 128) as u8,
                    value,
                })
            }
            _ => None,
        }
    }

    /// The number that comes next.
    fn number(&self) -> u8
        ensures value { result ≡ number_in (front (left self.now)) }
        ensures small { result < 128 }
    {
        let token = self.front();
        match token.kind {
            Kind::Number => (number_of(self.text, token) % 128) as u8,
            _ => 0,
        }
    }

    /// The cycles that come next.
    fn cycles(&self) -> u32
        ensures { result ≡ cycles_in (front (left self.now)) }
    {
        let token = self.front();
        match token.kind {
            Kind::Cycles => cycles_of(self.text, token),
            _ => 0,
        }
    }

    /// The name that comes next.
    fn name(&self) -> Result<Name, AllocError>
        ensures { IfOk result (λ name. name ≡ name_in (front (left self.now))) }
    {
        let bytes = name_bytes(self.text, self.front());
        let place = self.places.get(&bytes).copied().unwrap_or(0);
        let name = Name::new(Vec::from_slice(self.alloc, bytes)?);
        Ok(name.placed(usize::from(place)))
    }

    /// The low end of a range, behind its high end; the same where it is a single index.
    #[tactic(auto, unfolding(crate::specs::private::Building::low_of))]
    fn low(&mut self, high: u8) -> u8
        ensures value { result ≡ (low_of high (left self.old)).0 }
        ensures rest { left self.new ≡ (low_of high (left self.old)).1 }
    {
        if !self.begins(Sign::Colon) {
            return high;
        }
        self.pass(1);
        let low = self.number();
        self.pass(1);
        low
    }

    /// The bits of the name, behind `[`.
    #[tactic(auto, unfolding(crate::specs::private::Building::bits_of))]
    fn bits(&mut self, name: Name) -> Simple
        ensures value { result ≡ (bits_of name (left self.old)).0 }
        ensures rest { left self.new ≡ (bits_of name (left self.old)).1 }
    {
        let high = self.number();
        self.pass(1);
        let low = self.low(high);
        self.pass(1);
        Simple::Bits(name, high, low)
    }

    /// A simple.
    #[tactic(auto, unfolding(crate::specs::private::Building::simple_of))]
    fn simple(&mut self) -> Result<Simple, AllocError>
        ensures value { IfOk result (λ simple. simple ≡ (simple_of (left self.old)).0) }
        ensures rest { OnOk result (left self.new ≡ (simple_of (left self.old)).1) }
    {
        if let Some(constant) = self.constant() {
            self.pass(1);
            return Ok(constant);
        }
        let name = self.name()?;
        self.pass(1);
        if !self.begins(Sign::LeftBracket) {
            return Ok(Simple::Whole(name));
        }
        self.pass(1);
        Ok(self.bits(name))
    }

    /// The simple of a repetition whose count comes next.
    #[tactic(auto, unfolding(crate::specs::private::Building::repeated_of))]
    fn repeated(&mut self) -> Result<Simple, AllocError>
        ensures value { IfOk result (λ simple. simple ≡ (repeated_of (left self.old)).0) }
        ensures rest { OnOk result (left self.new ≡ (repeated_of (left self.old)).1) }
    {
        self.pass(2);
        let simple = self.simple()?;
        self.pass(2);
        Ok(simple)
    }

    /// An item of a concatenation.
    #[tactic(auto, unfolding(crate::specs::private::Building::item_of))]
    fn item(&mut self) -> Result<Item, AllocError>
        ensures value { IfOk result (λ item. item ≡ (item_of (left self.old)).0) }
        ensures rest { OnOk result (left self.new ≡ (item_of (left self.old)).1) }
    {
        if !self.begins(Sign::LeftBrace) {
            return Ok(Item::Plain(self.simple()?));
        }
        self.pass(1);
        let count = self.number();
        Ok(Item::Repeat(count, self.repeated()?))
    }

    /// The items of a concatenation.
    #[tactic(auto, unfolding(crate::specs::private::Building::items_of))]
    fn items(&mut self) -> Result<Items, AllocError>
        ensures value { IfOk result (λ items. items ≡ (items_of (left self.old)).0) }
        ensures rest { OnOk result (left self.new ≡ (items_of (left self.old)).1) }
    {
        let mut items = Items::new(self.alloc);
        items.push(self.item()?)?;
        for _count in 1..ITEMS {
            if !self.begins(Sign::Comma) {
                break;
            }
            self.pass(1);
            items.push(self.item()?)?;
        }
        Ok(items)
    }

    /// The term behind a `{`.
    #[tactic(auto, unfolding(crate::specs::private::Building::inside_of))]
    fn inside(&mut self) -> Result<Term, AllocError>
        ensures value { IfOk result (λ term. term ≡ (inside_of (left self.old)).0) }
        ensures rest { OnOk result (left self.new ≡ (inside_of (left self.old)).1) }
    {
        if self.begins_number() {
            let count = self.number();
            return Ok(Term::Repeat(count, self.repeated()?));
        }
        let items = self.items()?;
        self.pass(1);
        Ok(Term::Join(items))
    }

    /// A term.
    #[tactic(auto, unfolding(crate::specs::private::Building::term_of))]
    fn term(&mut self) -> Result<Term, AllocError>
        ensures value { IfOk result (λ term. term ≡ (term_of (left self.old)).0) }
        ensures rest { OnOk result (left self.new ≡ (term_of (left self.old)).1) }
    {
        if !self.begins(Sign::LeftBrace) {
            return Ok(Term::Plain(self.simple()?));
        }
        self.pass(1);
        self.inside()
    }

    /// The second and the third term of a choice.
    fn branches(&mut self) -> Result<(Term, Term), AllocError>
        ensures second { IfOk result (λ both. both.0 ≡ (term_of (left self.old)).0) }
        ensures third { IfOk result (λ both. both.1 ≡ (term_of (drop 1 (term_of (left self.old)).1)).0) }
        ensures rest { OnOk result (left self.new ≡ (term_of (drop 1 (term_of (left self.old)).1)).1) }
    {
        let second = self.term()?;
        self.pass(1);
        match self.term() {
            Ok(third) => Ok((second, third)),
            Err(error) => {
                drop(second);
                Err(error)
            }
        }
    }

    /// The expression that begins with the term.
    #[tactic(auto, unfolding(crate::specs::private::Building::others_of))]
    fn others(&mut self, first: Term) -> Result<Expr, AllocError>
        ensures value { IfOk result (λ expr. expr ≡ (others_of first (left self.old)).0) }
        ensures rest { OnOk result (left self.new ≡ (others_of first (left self.old)).1) }
    {
        if let Some(operator) = self.operator() {
            self.pass(1);
            return match self.term() {
                Ok(second) => Ok(Expr::Two(operator, first, second)),
                Err(error) => {
                    drop(first);
                    Err(error)
                }
            };
        }
        if !self.begins(Sign::Question) {
            return Ok(Expr::One(first));
        }
        self.pass(1);
        match self.branches() {
            Ok((second, third)) => Ok(Expr::Choose(first, second, third)),
            Err(error) => {
                drop(first);
                Err(error)
            }
        }
    }

    /// An expression.
    #[tactic(auto, unfolding(crate::specs::private::Building::expr_of))]
    fn expr(&mut self) -> Result<Expr, AllocError>
        ensures value { IfOk result (λ expr. expr ≡ (expr_of (left self.old)).0) }
        ensures rest { OnOk result (left self.new ≡ (expr_of (left self.old)).1) }
    {
        let first = self.term()?;
        self.others(first)
    }

    /// The wire that is declared next, as the one of this number.
    #[tactic(auto, unfolding(crate::specs::private::Building::wire_of))]
    fn wire(&mut self, number: u16) -> Result<Wire, AllocError>
        ensures value { IfOk result (λ wire. wire ≡ (wire_of (left self.old)).0) }
        ensures rest { OnOk result (left self.new ≡ (wire_of (left self.old)).1) }
    {
        self.pass(2);
        let high = self.number();
        self.pass(4);
        let name = self.name()?;
        let bytes = name_bytes(self.text, self.front());
        self.places.insert(bytes, number)?;
        self.pass(5);
        let value = self.expr()?;
        self.pass(1);
        Ok(Wire {
            name,
            width: high + 1,
            value,
        })
    }

    /// The wires of a module.
    #[tactic(auto, unfolding(crate::specs::private::Building::wires_of))]
    fn wires(&mut self) -> Result<Vec<Wire>, AllocError>
        ensures value { IfOk result (λ wires. wires.items ≡ (wires_of (left self.old)).0) }
        ensures rest { OnOk result (left self.new ≡ (wires_of (left self.old)).1) }
    {
        let mut wires = Vec::new(self.alloc);
        for number in 0..WIRES {
            if !self.begins(Sign::WireWord) {
                break;
            }
            wires.push(self.wire(number)?)?;
        }
        Ok(wires)
    }

    /// The expression that is assigned to a result.
    #[tactic(auto, unfolding(crate::specs::private::Building::result_of))]
    fn assigned(&mut self) -> Result<Expr, AllocError>
        ensures value { IfOk result (λ expr. expr ≡ (result_of (left self.old)).0) }
        ensures rest { OnOk result (left self.new ≡ (result_of (left self.old)).1) }
    {
        self.pass(3);
        let value = self.expr()?;
        self.pass(1);
        Ok(value)
    }

    /// The expression of x, which is 0 in a narrow module.
    #[tactic(auto, unfolding(crate::specs::private::Building::third_of))]
    fn third(&mut self, wide: bool) -> Result<Expr, AllocError>
        ensures value { IfOk result (λ expr. expr ≡ (third_of wide (left self.old)).0) }
        ensures rest { OnOk result (left self.new ≡ (third_of wide (left self.old)).1) }
    {
        if wide {
            self.assigned()
        } else {
            Ok(Expr::One(Term::Plain(Simple::Number {
                width: 32,
                value: 0,
            })))
        }
    }

    /// The expressions of z and x.
    fn other_results(&mut self, wide: bool) -> Result<(Expr, Expr), AllocError>
        ensures z { IfOk result (λ both. both.0 ≡ (result_of (left self.old)).0) }
        ensures x { IfOk result (λ both. both.1 ≡ (third_of wide (result_of (left self.old)).1).0) }
        ensures rest { OnOk result (left self.new ≡ (third_of wide (result_of (left self.old)).1).1) }
    {
        let z = self.assigned()?;
        match self.third(wide) {
            Ok(x) => Ok((z, x)),
            Err(error) => {
                drop(z);
                Err(error)
            }
        }
    }

    /// Whether a fourth input comes next.
    #[tactic(auto, unfolding(crate::specs::private::Building::is_wide))]
    fn begins_wide(&self) -> bool
        ensures { result ≡ is_wide (left self.now) }
    {
        self.begins(Sign::InputWord)
    }

    /// Passes over the ports behind the first three inputs.
    #[tactic(auto, unfolding(crate::specs::private::Building::ports_behind))]
    fn pass_ports(&mut self, wide: bool)
        ensures { left self.new ≡ drop (ports_behind wide) (left self.old) }
    {
        self.pass(if wide { WIDE } else { NARROW });
    }

    /// The module of this number.
    #[tactic(auto, unfolding(crate::specs::private::Building::module_of))]
    fn unit(&mut self, number: u8) -> Result<Module, AllocError>
        requires { IsModule (module_of number (left self.old)).0 }
        ensures value { IfOk result (λ unit. unit ≡ (module_of number (left self.old)).0) }
        ensures rest { OnOk result (left self.new ≡ (module_of number (left self.old)).1) }
    {
        let cycles = self.cycles();
        self.pass(HEAD);
        let wide = self.begins_wide();
        self.pass_ports(wide);
        self.places.clear();
        let wires = Wires::from_vec(wide, self.wires()?);
        let y = self.assigned()?;
        let (z, x) = match self.other_results(wide) {
            Ok(both) => both,
            Err(error) => {
                drop(y);
                return Err(error);
            }
        };
        self.pass(1);
        Ok(Module::new(number, cycles, wires, y, z, x))
    }

    /// The modules of the text.
    #[tactic(auto, unfolding(crate::specs::private::Building::modules_of))]
    fn units(&mut self) -> Result<Vec<Module>, AllocError>
        requires { AllByRecursion IsModule (modules_of (left self.old)) }
        ensures { IfOk result (λ units. units.items ≡ modules_of (left self.old)) }
    {
        let mut units = Vec::new(self.alloc);
        for number in 0..MODULES {
            if !self.begins_module() {
                break;
            }
            units.push(self.unit(number)?)?;
        }
        Ok(units)
    }
}

/// The modules that the tokens of a text without fault spell.
pub(crate) fn build(alloc: Global, text: &[u8], tokens: &[Token]) -> Result<Vec<Module>, AllocError>
    requires { (modules : List Module) × AreBuilt text.now tokens.now modules }
    ensures { (modules : List Module) → AreBuilt text.now tokens.now modules
        → IfOk result (λ built. built.items ≡ modules) }
{
    let mut builder = Builder {
        alloc,
        text,
        tokens,
        places: BTreeMap::new(alloc),
    };
    builder.units()
}
