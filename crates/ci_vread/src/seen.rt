//! What the tokens of a text of modules say so far, and the rules that they break.
ghost use Rattle.std.specs.Prelude.{◌≡◌, ◌+◌, ◌*◌, ◌^◌, ◌<◌, ◌≤◌, ◌∷◌, ◌++◌, ℕ, [], Option, codes, reverse};
ghost use Rattle.std.specs.Prelude.{nat_lt, IfOk, OnOk, Some, None, if◌then◌else◌};
ghost use Rattle.std.specs.Fmt.{decimal};
ghost use Rattle.ci_vread.specs.Lexicon as lexicon;
ghost use Rattle.ci_vread.specs.Grammar.{its_module, its_high, its_name, its_target, its_use, its_index, its_low};
ghost use Rattle.ci_vread.specs.Grammar.{its_count, its_constant, its_operator, of_simple, of_term, of_side};
ghost use Rattle.ci_vread.specs.Grammar.{of_condition, of_branch, of_operand, of_wire, of_wires, of_three, read, ended};
ghost use Rattle.ci_vread.specs.Rules.{same, makes, nothing, bytes_of, is_word};
ghost use Rattle.ci_vread.specs.private.Tables.{end_of};
ghost use Rattle.ci_vread.specs.private.Checked.{least, Shows, StepsOn, IsCalm, IsStill, IsBounded};

use crate::grammar::End;
use crate::names::Names;
use ci_verilog::Operator;
use std::alloc::{AllocError, Global};

/// What the tokens so far say, as far as it counts for those behind them.
#[derive(Drop)]
pub(crate) struct Seen<'a> {
    /// Module names.
    modules: u32,
    /// The module is a wide one.
    wide: bool,
    /// The names that a term may have.
    names: Names<'a>,
    /// The wire that is declared but has no value yet.
    declared: &'a [u8],
    /// The width that a right side has to have.
    due: u64,
    /// The operator of the right side so far.
    operator: Operator,
    /// The widths of its whole terms.
    widths: Vec<u128>,
    /// The width of the items of the present term so far.
    sum: u128,
    /// The count of the present item.
    pub(crate) times: u32,
    /// The width of the present simple.
    pub(crate) width: u64,
    /// The index in it.
    index: u32,
}

/// The kind, where its rule is broken.
fn unless(is_kept: bool, kind: u8) -> Option<u8>
    ensures { result ≡ (if is_kept then None else Some kind) }
{
    if is_kept { None } else { Some(kind) }
}

/// The lesser kind of two.
pub(crate) fn least(first: Option<u8>, second: Option<u8>) -> Option<u8>
    ensures { result ≡ least first second }
{
    match (first, second) {
        (None, _) => second,
        (Some(kind), None) => Some(kind),
        (Some(kind), Some(other)) => Some(kind.min(other)),
    }
}

/// The name is that of the module of this number.
fn is_name_of(alloc: Global, number: u32, name: &[u8]) -> Result<bool, AllocError>
    ensures { IfOk result (λ is_name. is_name ≡ same name.now (codes "ci_" ++ decimal number)) }
{
    let due = format!(in alloc; "ci_{number}")?;
    Ok(name == due.as_bytes())
}

/// The bytes are the same.
fn is_same(bytes: &[u8], others: &[u8]) -> bool
    ensures { result ≡ same bytes.now others.now }
{
    bytes == others
}

/// The name is a word of a wide module.
fn is_word(wide: bool, name: &[u8]) -> bool
    ensures { result ≡ is_word wide name.now }
{
    wide && (is_same(name, b"d") || is_same(name, b"e") || is_same(name, b"x"))
}

/// A constant of this width can have the value.
fn fits(width: u32, value: u64) -> bool
    ensures { result ≡ nat_lt value (2 ^ width) }
{
    width >= 64 || value < 1 << width
}

/// The operator makes this width of operands of those widths.
fn makes(operator: Operator, left: u128, right: u128, due: u64) -> bool
    ensures { result ≡ makes operator (right ∷ left ∷ []) due }
{
    let due = u128::from(due);
    match operator {
        Operator::Left | Operator::Right => left == due,
        Operator::Less => left == right && due == 1,
        Operator::Plus
        | Operator::Minus
        | Operator::Times
        | Operator::And
        | Operator::Or
        | Operator::Xor => left == right && left == due,
    }
}

/// The one term has this width.
fn has_width(widths: &[u128], due: u128) -> bool
    ensures { result ≡ same (reverse widths.now) (due ∷ []) }
{
    match widths {
        [width] => *width == due,
        _ => false,
    }
}

/// The operator makes this width of the two terms.
fn make(operator: Operator, widths: &[u128], due: u64) -> bool
    ensures { result ≡ makes operator (reverse widths.now) due }
{
    match widths {
        [left, right] => makes(operator, *left, *right, due),
        _ => false,
    }
}

/// The three terms make a choice of this width.
fn are_of_choice(widths: &[u128], due: u128) -> bool
    ensures { result ≡ same (reverse widths.now) (due ∷ due ∷ 1 ∷ []) }
{
    match widths {
        [test, first, second] => *second == due && *first == due && *test == 1,
        _ => false,
    }
}

impl<'a> Seen<'a> {
    /// Nothing yet.
    pub(crate) fn new(alloc: Global, text: &'a [u8]) -> Seen<'a>
        ensures shows { Shows result nothing }
        ensures tame { IsBounded result None }
    {
        Seen {
            modules: 0,
            wide: false,
            names: Names::new(alloc),
            declared: &text[..0],
            due: 0,
            operator: Operator::Plus,
            widths: Vec::new(alloc),
            sum: 0,
            times: 1,
            width: 0,
            index: 0,
        }
    }

    /// The name of a module.
    pub(crate) fn read_module(
        &mut self,
        alloc: Global,
        name: &'a [u8],
    ) -> Result<Option<u8>, AllocError>
        requires { self.old.modules ≤ 32 }
        ensures on { IfOk result (λ broken. StepsOn self.old self.new broken (read its_module (lexicon.name name.now))) }
        ensures tame { IfOk result (λ broken. (self.new.sum ≡ self.old.sum)
            × (broken ≡ None → self.new.modules ≤ 32)) }
    {
        let is_due = is_name_of(alloc, self.modules, name)?;
        let broken = unless(is_due && self.modules < 32, 9);
        self.names = Names::of_inputs(alloc)?;
        self.modules += 1;
        self.wide = false;
        Ok(broken)
    }

    /// The highest index of a wire.
    pub(crate) fn read_high(&mut self, number: u32) -> Option<u8>
        ensures on { StepsOn self.old self.new result (read its_high (lexicon.number number)) }
        ensures calm { IsCalm self.old self.new }
    {
        self.due = u64::from(number) + 1;
        unless(number < 64, 6)
    }

    /// The name of a wire that is declared.
    pub(crate) fn read_name(&mut self, name: &'a [u8]) -> Option<u8>
        ensures on { StepsOn self.old self.new result (read its_name (lexicon.name name.now)) }
        ensures calm { IsCalm self.old self.new }
    {
        let is_new = !self.names.contains(name);
        let has_room = self.names.has_room(self.wide);
        let is_word = is_word(self.wide, name);
        self.declared = name;
        least(
            unless(!is_word, 2),
            least(unless(is_new, 4), unless(has_room, 8)),
        )
    }

    /// The name of a wire that is assigned.
    pub(crate) fn read_target(&mut self, name: &'a [u8]) -> Option<u8>
        ensures on { StepsOn self.old self.new result (read its_target (lexicon.name name.now)) }
        ensures calm { IsCalm self.old self.new }
    {
        let kind = if is_word(self.wide, name) { 2 } else { 7 };
        unless(name == self.declared, kind)
    }

    /// A name in a term.
    pub(crate) fn read_use(&mut self, name: &'a [u8]) -> Option<u8>
        ensures on { (t : lexicon.Token) → bytes_of t ≡ name.now → StepsOn self.old self.new result (read its_use t) }
        ensures calm { IsCalm self.old self.new }
    {
        self.width = self.names.width(name);
        let kind = if is_word(self.wide, name) { 2 } else { 3 };
        unless(self.names.contains(name), kind)
    }

    /// An index of a name.
    pub(crate) fn read_index(&mut self, number: u32) -> Option<u8>
        ensures on { StepsOn self.old self.new result (read its_index (lexicon.number number)) }
        ensures calm { IsCalm self.old self.new }
    {
        let is_within = u64::from(number) < self.width;
        self.index = number;
        self.width = 1;
        unless(is_within, 6)
    }

    /// The low index of a range.
    pub(crate) fn read_low(&mut self, number: u32) -> Option<u8>
        ensures on { StepsOn self.old self.new result (read its_low (lexicon.number number)) }
        ensures calm { IsCalm self.old self.new }
    {
        self.width = (u64::from(self.index) + 1).saturating_sub(u64::from(number));
        unless(number <= self.index, 6)
    }

    /// The count of a repetition.
    pub(crate) fn read_count(&mut self, number: u32) -> Option<u8>
        ensures on { StepsOn self.old self.new result (read its_count (lexicon.number number)) }
        ensures calm { IsCalm self.old self.new }
    {
        self.times = number;
        unless(1 <= number && number <= 64, 6)
    }

    /// A constant.
    pub(crate) fn read_constant(&mut self, width: u32, value: u64) -> Option<u8>
        ensures on { StepsOn self.old self.new result (read its_constant (lexicon.constant width value)) }
        ensures calm { IsCalm self.old self.new }
    {
        self.width = u64::from(width);
        least(
            unless(fits(width, value), 5),
            unless(1 <= width && width <= 64, 6),
        )
    }

    /// An operator.
    pub(crate) fn read_operator(&mut self, operator: Operator) -> Option<u8>
        ensures on { StepsOn self.old self.new result (read its_operator (lexicon.operator operator)) }
        ensures calm { IsCalm self.old self.new }
    {
        self.operator = operator;
        None
    }

    /// The end of what names one thing in a term.
    fn end_simple(&mut self) -> Option<u8>
        requires { self.old.sum + self.old.times * self.old.width < 2 ^ 128 }
        ensures on { StepsOn self.old self.new result (ended of_simple) }
        ensures bounded { (broken : Option ℕ) → IsBounded self.old broken
            → IsBounded self.new (least broken result) }
    {
        self.sum += u128::from(self.times) * u128::from(self.width);
        self.times = 1;
        self.width = 0;
        self.index = 0;
        unless(self.sum <= 64, 6)
    }

    /// The end of a term.
    fn end_term(&mut self) -> Result<(), AllocError>
        ensures on { OnOk result (StepsOn self.old self.new None (ended of_term)) }
        ensures bounded { OnOk result ((broken : Option ℕ) → IsBounded self.old broken
            → IsBounded self.new (least broken None)) }
    {
        self.widths.push(self.sum)?;
        self.sum = 0;
        Ok(())
    }

    /// The end of a right side that is one term.
    fn end_side(&mut self) -> Option<u8>
        ensures on { StepsOn self.old self.new result (ended of_side) }
        ensures calm { IsStill self.old self.new }
    {
        let is_due = has_width(&self.widths, u128::from(self.due));
        self.widths.clear();
        unless(is_due, 5)
    }

    /// The end of the condition of a choice.
    fn end_condition(&mut self) -> Option<u8>
        ensures on { StepsOn self.old self.new result (ended of_condition) }
        ensures calm { IsStill self.old self.new }
    {
        unless(has_width(&self.widths, 1), 5)
    }

    /// The end of an operator's second operand.
    fn end_operand(&mut self) -> Option<u8>
        ensures on { StepsOn self.old self.new result (ended of_operand) }
        ensures calm { IsStill self.old self.new }
    {
        let is_due = make(self.operator, &self.widths, self.due);
        self.widths.clear();
        self.operator = Operator::Plus;
        unless(is_due, 5)
    }

    /// The end of the second branch of a choice.
    fn end_branch(&mut self) -> Option<u8>
        ensures on { StepsOn self.old self.new result (ended of_branch) }
        ensures calm { IsStill self.old self.new }
    {
        let is_due = are_of_choice(&self.widths, u128::from(self.due));
        self.widths.clear();
        unless(is_due, 5)
    }

    /// The end of a wire with its assign.
    fn end_wire(&mut self) -> Result<(), AllocError>
        ensures on { OnOk result (StepsOn self.old self.new None (ended of_wire)) }
        ensures calm { OnOk result (IsStill self.old self.new) }
    {
        self.names.define(self.declared, self.due)
    }

    /// The end of a module's wires.
    fn end_wires(&mut self)
        ensures on { StepsOn self.old self.new None (ended of_wires) }
        ensures calm { IsStill self.old self.new }
    {
        self.due = 32;
    }

    /// The end of the first three inputs of a wide module.
    fn end_three(&mut self) -> Result<(), AllocError>
        ensures on { OnOk result (StepsOn self.old self.new None (ended of_three)) }
        ensures calm { OnOk result (IsStill self.old self.new) }
    {
        self.wide = true;
        self.names.define(b"d", 32)?;
        self.names.define(b"e", 32)
    }

    /// What ended behind a token.
    #[tactic(auto, using(crate::proofs::SeenLaws::still))]
    pub(crate) fn end(&mut self, what: End) -> Result<Option<u8>, AllocError>
        requires { self.old.sum + self.old.times * self.old.width < 2 ^ 128 }
        ensures on { IfOk result (λ broken. StepsOn self.old self.new broken (ended (end_of what))) }
        ensures bounded { IfOk result (λ broken. (before : Option ℕ) → IsBounded self.old before
            → IsBounded self.new (least before broken)) }
    {
        match what {
            End::Simple => Ok(self.end_simple()),
            End::Term => {
                self.end_term()?;
                Ok(None)
            }
            End::Side => Ok(self.end_side()),
            End::Condition => Ok(self.end_condition()),
            End::Branch => Ok(self.end_branch()),
            End::Operand => Ok(self.end_operand()),
            End::Wire => {
                self.end_wire()?;
                Ok(None)
            }
            End::Three => {
                self.end_three()?;
                Ok(None)
            }
            End::Wires => {
                self.end_wires();
                Ok(None)
            }
        }
    }
}
