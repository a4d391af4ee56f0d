//! The operations of a unit.
use ci_word::{Class, Op};
use std::hash::{Hash, Hasher};

/// What an operation of a unit is applied to.
#[derive(Clone, Copy, PartialEq, Eq, Hash)]
pub enum Arg {
    /// The input of this number.
    Input(u8),
    /// The result of the earlier operation of this number.
    Earlier(u8),
    /// A constant.
    Constant(u32),
}

/// An operation of a unit.
#[derive(Clone, Copy, PartialEq, Eq)]
pub struct UnitOp {
    /// The class of the instruction that it was, which has its delay.
    pub class: Class,
    /// What it computes.
    pub op: Op,
    /// The first operand.
    pub left: Arg,
    /// The second operand.
    pub right: Arg,
}

/// Class and operation are not hashed: few units differ in these alone.
impl Hash for UnitOp {
    ghost use Rattle.std.specs.Prelude.{◌++◌};
    ghost use Rattle.ci_unit.specs.EqualityLaws.{same_op};

    ghost hash_input = { λ op. ⟦<Arg as Hash>⟧.hash_input op.left ++ ⟦<Arg as Hash>⟧.hash_input op.right };

    ghost respects_eq = { λ x y e i.
        ⟦<Arg as Hash>⟧.hash_input (same_op x y e i).left ++ ⟦<Arg as Hash>⟧.hash_input (same_op x y e i).right };

    fn hash<H: Hasher>(&self, state: &mut H) {
        self.left.hash(state);
        self.right.hash(state);
    }
}
