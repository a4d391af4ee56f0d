//! The gates of expressions.
ghost use Rattle.std.specs.Prelude.{◌≡◌, ℕ, ◌+◌, ◌≤◌, ◌∷◌, [], Bool, List, length, IfOk};
ghost use Rattle.ci_verilog.specs.declared.vectors.Vector.{Vector};
ghost use Rattle.ci_verilog.specs.Modules.{IsExpr, known_by, wires_of};
ghost use Rattle.ci_verilog.specs.Values.{expr_value};
ghost use Rattle.ci_verilog.specs.private.Held.{ExprFits};
ghost use Rattle.ci_verilog.specs.declared.expressions.Expr.TheVariants.{Two, Choose};
ghost use Rattle.ci_netlist.specs.Netlists.{bit_value, spelt, AreBits, Settles};
ghost use Rattle.ci_gates.specs.private.Growing.{MakesWord};
ghost use Rattle.ci_gates.specs.Counts.{HasGates};
ghost use Rattle.ci_gates.specs.private.Scopes.{IsScope, IsHeld, HoldsWords};

use crate::building::Builder;
use crate::scopes::Scope;
use ci_netlist::Bit;
use ci_verilog::{Expr, Operator, Term};
use std::alloc::{AllocError, Global};

impl Scope<'_> {
    /// The bits of an operator on two operands, for which gates are appended.
    fn two(
        &self,
        alloc: Global,
        builder: &mut Builder,
        operator: Operator,
        left: &Term,
        right: &Term,
    ) -> Result<Vec<Bit>, AllocError>
        requires scope { IsScope (wires_of self.now.wide self.now.wires.now) self.now.words.now }
        requires held { IsHeld (wires_of self.now.wide self.now.wires.now) self.now.words.now }
        requires fits { ExprFits (wires_of self.now.wide self.now.wires.now) (Two operator left.now right.now) }
        requires words_are { AreBits (length builder.old) self.now.words.now }
        requires room { (n : ℕ) → HasGates (known_by (wires_of self.now.wide self.now.wires.now)) (Two operator left.now right.now) n
            → length builder.old + n ≤ 4194304 }
        ensures makes { IfOk result (λ v. (n width : ℕ) → HasGates (known_by (wires_of self.now.wide self.now.wires.now)) (Two operator left.now right.now) n
            → IsExpr (known_by (wires_of self.now.wide self.now.wires.now)) (Two operator left.now right.now) width
            → MakesWord builder.old builder.new n width v.items) }
        ensures value { IfOk result (λ v. (arguments : List ℕ) (gives : ℕ → Bool) (names : List ℕ → Vector)
            → Settles builder.new arguments gives
            → HoldsWords (bit_value arguments gives) names (wires_of self.now.wide self.now.wires.now) self.now.words.now
            → spelt (bit_value arguments gives) v.items ≡ expr_value names (Two operator left.now right.now)) }
    {
        let left = self.term(alloc, left)?;
        let right = self.term(alloc, right)?;
        builder.operated(alloc, operator, &left, &right)
    }

    /// The bits of a choice, for which gates are appended.
    fn choose(
        &self,
        alloc: Global,
        builder: &mut Builder,
        test: &Term,
        first: &Term,
        second: &Term,
    ) -> Result<Vec<Bit>, AllocError>
        requires scope { IsScope (wires_of self.now.wide self.now.wires.now) self.now.words.now }
        requires held { IsHeld (wires_of self.now.wide self.now.wires.now) self.now.words.now }
        requires fits { ExprFits (wires_of self.now.wide self.now.wires.now) (Choose test.now first.now second.now) }
        requires words_are { AreBits (length builder.old) self.now.words.now }
        requires room { (n : ℕ) → HasGates (known_by (wires_of self.now.wide self.now.wires.now)) (Choose test.now first.now second.now) n
            → length builder.old + n ≤ 4194304 }
        ensures makes { IfOk result (λ v. (n width : ℕ) → HasGates (known_by (wires_of self.now.wide self.now.wires.now)) (Choose test.now first.now second.now) n
            → IsExpr (known_by (wires_of self.now.wide self.now.wires.now)) (Choose test.now first.now second.now) width
            → MakesWord builder.old builder.new n width v.items) }
        ensures value { IfOk result (λ v. (arguments : List ℕ) (gives : ℕ → Bool) (names : List ℕ → Vector)
            → Settles builder.new arguments gives
            → HoldsWords (bit_value arguments gives) names (wires_of self.now.wide self.now.wires.now) self.now.words.now
            → spelt (bit_value arguments gives) v.items ≡ expr_value names (Choose test.now first.now second.now)) }
    {
        let bits = self.term(alloc, test)?;
        let first = self.term(alloc, first)?;
        let second = self.term(alloc, second)?;
        let test = the_bit(&bits);
        builder.choice(alloc, test, &first, &second)
    }

    /// The bits of an expression, for which gates are appended.
    pub(crate) fn expr(
        &self,
        alloc: Global,
        builder: &mut Builder,
        expr: &Expr,
    ) -> Result<Vec<Bit>, AllocError>
        requires scope { IsScope (wires_of self.now.wide self.now.wires.now) self.now.words.now }
        requires held { IsHeld (wires_of self.now.wide self.now.wires.now) self.now.words.now }
        requires fits { ExprFits (wires_of self.now.wide self.now.wires.now) expr.now }
        requires words_are { AreBits (length builder.old) self.now.words.now }
        requires room { (n : ℕ) → HasGates (known_by (wires_of self.now.wide self.now.wires.now)) expr.now n → length builder.old + n ≤ 4194304 }
        ensures makes { IfOk result (λ v. (n width : ℕ) → HasGates (known_by (wires_of self.now.wide self.now.wires.now)) expr.now n
            → IsExpr (known_by (wires_of self.now.wide self.now.wires.now)) expr.now width → MakesWord builder.old builder.new n width v.items) }
        ensures value { IfOk result (λ v. (arguments : List ℕ) (gives : ℕ → Bool) (names : List ℕ → Vector)
            → Settles builder.new arguments gives
            → HoldsWords (bit_value arguments gives) names (wires_of self.now.wide self.now.wires.now) self.now.words.now
            → spelt (bit_value arguments gives) v.items ≡ expr_value names expr.now) }
    {
        match expr {
            Expr::One(term) => self.term(alloc, term),
            Expr::Two(operator, left, right) => self.two(alloc, builder, *operator, left, right),
            Expr::Choose(test, first, second) => self.choose(alloc, builder, test, first, second),
        }
    }
}

/// The one bit of a word of width 1.
fn the_bit(bits: &[Bit]) -> Bit
    requires { length bits.now ≡ 1 }
    ensures { bits.now ≡ result ∷ [] }
{
    bits[0]
}
