//! The steps of operands and expressions.
ghost use Rattle.std.specs.Prelude.{◌≡◌, ℕ, List, [], ◌∷◌, map, replicate, IfSome};
ghost use Rattle.std.specs.List.{Contains};
ghost use Rattle.ci_verilog.specs.Modules.{IsModule};
ghost use Rattle.ci_verilog.specs.Values.{simple_bits, item_bits, joined, operated, term_bits, expr_value};
ghost use Rattle.ci_verilog.specs.declared.vectors.Vector.{Vector};
ghost use Rattle.ci_verilog.specs.declared.expressions.Operator.TheVariants.{Times};
ghost use Rattle.ci_verilog.specs.declared.expressions.Expr.TheVariants.{Two, Choose};
ghost use Rattle.ci_verilog.specs.declared.expressions.Item.TheVariants.{Plain, Repeat};
ghost use Rattle.ci_verilog.specs.declared.expressions.Simple.TheVariants.{Whole, Bits};
ghost use Rattle.ci_plan.specs.private.Drafts.{Grows, HasNumber, MakesAs, Stands, StandsFor};
ghost use Rattle.ci_plan.specs.private.Names.{AreHeld};
ghost use Rattle.ci_plan.specs.private.Steps.{IsStep};
ghost use Rattle.ci_plan.specs.private.Operators.{step_of, AgreeFor, widened_bits};

use crate::drafts::Draft;
use crate::founds::{Found, constant, copies, joined, part, signed};
use crate::names::Scope;
use crate::steps::Step;
use ci_verilog::{Expr, Item, Name, Operator, Simple, Term, Wire};

/// The step of an operator. None: the operands don't agree.
fn operator_step(operator: Operator, left: Found, right: Found) -> Option<Step>
    ensures is { IfSome result (λ step. step ≡ step_of operator left.place right.place left.width) }
    ensures agree { IfSome result (λ _. AgreeFor operator left.width right.width) }
    ensures step { IfSome result (λ step. IsStep 64 step) }
{
    match operator {
        Operator::Plus => Some(Step::Plus(left.place, right.place, left.width)),
        Operator::Minus => if left.width == right.width {
            Some(Step::Minus(left.place, right.place, left.width))
        } else {
            None
        },
        Operator::Times => Some(Step::Times(left.place, right.place, left.width)),
        Operator::And => Some(Step::And(left.place, right.place)),
        Operator::Or => Some(Step::Or(left.place, right.place)),
        Operator::Xor => Some(Step::Xor(left.place, right.place)),
        Operator::Left => Some(Step::Left(left.place, right.place, left.width)),
        Operator::Right => Some(Step::Right(left.place, right.place)),
        Operator::Less => Some(Step::Less(left.place, right.place)),
    }
}

/// The number that stands at the place, if one below 64 does.
fn amount_at(draft: &Draft, place: u8) -> Option<u8>
    ensures { IfSome result (λ amount. HasNumber draft.now place amount) }
{
    match draft.number_at(place) {
        Some(number) if number < 64 => Some(number as u8),
        _ => None,
    }
}

/// The step, or where it shifts by a number, one that has the number in it.
fn by_number(draft: &Draft, step: Step) -> Step
    requires { IsStep 64 step }
    ensures { MakesAs draft.now step result }
{
    match step {
        Step::Left(from, place, width) => match amount_at(draft, place) {
            Some(amount) => Step::LeftBy(from, amount, width),
            None => step,
        },
        Step::Right(from, place) => match amount_at(draft, place) {
            Some(amount) => Step::RightBy(from, amount),
            None => step,
        },
        _ => step,
    }
}

/// The name where the item is 32 copies of its bit 31.
fn sign(item: &Item) -> Option<&Name>
    ensures { IfSome result (λ name. item.now ≡ Repeat 32 (Bits name.now 31 31)) }
{
    match item {
        Item::Repeat(count, Simple::Bits(name, high, low)) => {
            if *count == 32 && *high == 31 && *low == 31 {
                Some(name)
            } else {
                None
            }
        }
        _ => None,
    }
}

/// The name whose bits the item is.
fn whole(item: &Item) -> Option<&Name>
    ensures { IfSome result (λ name. item.now ≡ Plain (Whole name.now)) }
{
    match item {
        Item::Plain(Simple::Whole(name)) => Some(name),
        _ => None,
    }
}

/// The name that the items widen to 64 bits by its sign, where they are `{32{name[31]}}, name`.
fn widened(items: &[Item]) -> Option<&Name>
    ensures { IfSome result (λ name. items.now ≡ Repeat 32 (Bits name.now 31 31) ∷ Plain (Whole name.now) ∷ []) }
{
    if items.len() != 2 {
        return None;
    }
    let copied = sign(&items[0])?;
    let name = whole(&items[1])?;
    if copied == name { Some(name) } else { None }
}

/// The name that the operand widens to 64 bits by its sign, where it is so.
fn widened_name(term: &Term) -> Option<&Name>
    ensures { IfSome result (λ name. (names : List ℕ → Vector) → term_bits names term.now ≡ widened_bits (names name.now)) }
{
    match term {
        Term::Join(items) => widened(items.as_slice()),
        _ => None,
    }
}

/// The names whose product the operator makes, each widened to 64 bits by its sign, where it is so.
fn signed_factors<'a>(
    operator: Operator,
    left: &'a Term,
    right: &'a Term,
) -> Option<(&'a Name, &'a Name)>
    ensures { IfSome result (λ factors. (names : List ℕ → Vector) → expr_value names (Two operator left.now right.now)
        ≡ operated Times (widened_bits (names factors.0.now)) (widened_bits (names factors.1.now))) }
{
    match operator {
        Operator::Times => {
            let first = widened_name(left)?;
            let second = widened_name(right)?;
            Some((first, second))
        }
        _ => None,
    }
}

/// Each of these answers where the value is behind the steps that it adds. None: there is no room, or the widths don't
/// agree.
impl Scope<'_> {
    /// The bits of a simple.
    fn simple(&self, draft: &mut Draft, simple: &Simple) -> Option<Found>
        requires { AreHeld self.now.module.now self.now.wires.now draft.old }
        ensures grows { IfSome result (λ _. Grows draft.old draft.new) }
        ensures found { IfSome result (λ found.
            StandsFor self.now.module.now draft.new found.place found.width (λ names. simple_bits names simple.now)) }
    {
        match simple {
            Simple::Whole(name) => self.name(name),
            Simple::Bits(name, high, low) => {
                let from = self.name(name)?;
                part(draft, from, *high, *low)
            }
            Simple::Number { width, value } => constant(draft, *width, *value),
        }
    }

    /// Copies of a simple.
    fn copied(&self, draft: &mut Draft, count: u8, simple: &Simple) -> Option<Found>
        requires { AreHeld self.now.module.now self.now.wires.now draft.old }
        ensures grows { IfSome result (λ _. Grows draft.old draft.new) }
        ensures found { IfSome result (λ found.
            StandsFor self.now.module.now draft.new found.place found.width
            (λ names. joined (replicate count (simple_bits names simple.now)))) }
    {
        let one = self.simple(draft, simple)?;
        copies(draft, count, one)
    }

    /// The bits of an item.
    fn item(&self, draft: &mut Draft, item: &Item) -> Option<Found>
        requires { AreHeld self.now.module.now self.now.wires.now draft.old }
        ensures grows { IfSome result (λ _. Grows draft.old draft.new) }
        ensures found { IfSome result (λ found.
            StandsFor self.now.module.now draft.new found.place found.width (λ names. item_bits names item.now)) }
    {
        match item {
            Item::Plain(simple) => self.simple(draft, simple),
            Item::Repeat(count, simple) => self.copied(draft, *count, simple),
        }
    }

    /// The bits of items, one behind the other.
    fn items(&self, draft: &mut Draft, items: &[Item]) -> Option<Found>
        requires { AreHeld self.now.module.now self.now.wires.now draft.old }
        ensures grows { IfSome result (λ _. Grows draft.old draft.new) }
        ensures found { IfSome result (λ found.
            StandsFor self.now.module.now draft.new found.place found.width
            (λ names. joined (map (item_bits names) items.now))) }
    {
        if let Some(name) = widened(items) {
            let from = self.name(name)?;
            return signed(draft, from);
        }
        let mut bits = constant(draft, 0, 0)?;
        for item in items {
            let next = self.item(draft, item)?;
            let more = joined(draft, bits, next)?;
            bits = more;
        }
        Some(bits)
    }

    /// The bits of an operand.
    fn term(&self, draft: &mut Draft, term: &Term) -> Option<Found>
        requires { AreHeld self.now.module.now self.now.wires.now draft.old }
        ensures grows { IfSome result (λ _. Grows draft.old draft.new) }
        ensures found { IfSome result (λ found.
            StandsFor self.now.module.now draft.new found.place found.width (λ names. term_bits names term.now)) }
    {
        match term {
            Term::Plain(simple) => self.simple(draft, simple),
            Term::Repeat(count, simple) => self.copied(draft, *count, simple),
            Term::Join(items) => self.items(draft, items.as_slice()),
        }
    }

    /// The product of two names, each widened to 64 bits by its sign. None: there is no room, or one has other bits than
    /// 32.
    fn signed_product(&self, draft: &mut Draft, left: &Name, right: &Name) -> Option<u8>
        requires { AreHeld self.now.module.now self.now.wires.now draft.old }
        ensures grows { IfSome result (λ _. Grows draft.old draft.new) }
        ensures stands { IfSome result (λ place.
            Stands self.now.module.now draft.new place
            (λ names. operated Times (widened_bits (names left.now)) (widened_bits (names right.now)))) }
    {
        let first = self.name(left)?;
        let second = self.name(right)?;
        if first.width != 32 || second.width != 32 {
            return None;
        }
        draft.step(Step::SignedTimes(first.place, second.place))
    }

    /// The value of an operator on two operands.
    fn two(&self, draft: &mut Draft, operator: Operator, left: &Term, right: &Term) -> Option<u8>
        requires { AreHeld self.now.module.now self.now.wires.now draft.old }
        ensures grows { IfSome result (λ _. Grows draft.old draft.new) }
        ensures stands { IfSome result (λ place.
            Stands self.now.module.now draft.new place
            (λ names. expr_value names (Two operator left.now right.now))) }
    {
        if let Some((first, second)) = signed_factors(operator, left, right) {
            return self.signed_product(draft, first, second);
        }
        let first = self.term(draft, left)?;
        let second = self.term(draft, right)?;
        let step = operator_step(operator, first, second)?;
        let step = by_number(draft, step);
        draft.step(step)
    }

    /// The value of a choice.
    fn choice(&self, draft: &mut Draft, test: &Term, first: &Term, second: &Term) -> Option<u8>
        requires { AreHeld self.now.module.now self.now.wires.now draft.old }
        ensures grows { IfSome result (λ _. Grows draft.old draft.new) }
        ensures stands { IfSome result (λ place.
            Stands self.now.module.now draft.new place
            (λ names. expr_value names (Choose test.now first.now second.now))) }
    {
        let test = self.term(draft, test)?;
        let first = self.term(draft, first)?;
        let second = self.term(draft, second)?;
        draft.step(Step::Choose(test.place, first.place, second.place))
    }

    /// The value of an expression.
    pub(crate) fn expr(&self, draft: &mut Draft, expr: &Expr) -> Option<u8>
        requires { AreHeld self.now.module.now self.now.wires.now draft.old }
        ensures grows { IfSome result (λ _. Grows draft.old draft.new) }
        ensures stands { IfSome result (λ place.
            Stands self.now.module.now draft.new place (λ names. expr_value names expr.now)) }
    {
        match expr {
            Expr::One(term) => {
                let one = self.term(draft, term)?;
                Some(one.place)
            }
            Expr::Two(operator, left, right) => self.two(draft, *operator, left, right),
            Expr::Choose(test, first, second) => self.choice(draft, test, first, second),
        }
    }

    /// The bits of a wire of the module.
    pub(crate) fn wire(&self, draft: &mut Draft, wire: &Wire) -> Option<Found>
        requires held { AreHeld self.now.module.now self.now.wires.now draft.old }
        requires is_module { IsModule self.now.module.now }
        requires is_there { Contains self.now.module.now.wires.list wire.now }
        ensures grows { IfSome result (λ _. Grows draft.old draft.new) }
        ensures found { IfSome result (λ found.
            StandsFor self.now.module.now draft.new found.place found.width (λ names. names wire.now.name)) }
    {
        if wire.width > 64 {
            return None;
        }
        let place = self.expr(draft, &wire.value)?;
        Some(Found {
            width: wire.width,
            place,
        })
    }
}
