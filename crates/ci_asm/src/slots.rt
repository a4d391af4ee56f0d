//! The shapes of statements.
ghost use Rattle.std.specs.Prelude.{◌≡◌};
ghost use Rattle.ci_asm.specs.Forms.{most_below, most_above, is_offset};
ghost use Rattle.ci_asm.specs.private.Shapes.{fits, immediate_field, slots_of, field_of};
ghost use Rattle.ci_asm.specs.private.Statements.{ends_before};

use crate::mnemonics::Mnemonic;
use crate::numbers::Number;
use crate::scanner::Kind;
use ci_word::Op;

/// A field of a word that holds a number.
#[derive(Clone, Copy)]
pub(crate) enum Field {
    /// Twelve bits with a sign.
    Immediate,
    /// The amount of a shift.
    ShiftAmount,
    /// The upper twenty bits of a word.
    UpperBits,
    /// The offset of a branch, in bytes.
    BranchOffset,
    /// The offset of a jump, in bytes.
    JumpOffset,
    /// The twelve upper bits of FENCE.
    FenceBits,
    /// The number of a unit.
    UnitNumber,
    /// A whole word.
    WholeWord,
}

/// The place of a register in an instruction.
#[derive(Clone, Copy)]
pub(crate) enum RegisterPlace {
    Rd,
    Rs1,
    Rs2,
    Rs3,
}

/// What is due at a place of a statement.
#[derive(Clone, Copy)]
pub(crate) enum Slot {
    Register(RegisterPlace),
    /// A number of this field.
    Value(Field),
    Comma,
    /// An opening bracket.
    Open,
    /// A closing bracket.
    Close,
    /// A comma, before which the statement may end.
    Further,
    /// The number 1, of the second hidden result.
    Second,
}

// Short names for the table below.
const RD: Slot = Slot::Register(RegisterPlace::Rd);

const RS1: Slot = Slot::Register(RegisterPlace::Rs1);

const RS2: Slot = Slot::Register(RegisterPlace::Rs2);

const RS3: Slot = Slot::Register(RegisterPlace::Rs3);

const COMMA: Slot = Slot::Comma;

const OPEN: Slot = Slot::Open;

const CLOSE: Slot = Slot::Close;

impl Slot {
    /// Whether the statement may end before the slot, and a token of this kind ends the line there.
    pub(crate) fn ends_before(self, kind: Kind) -> bool
        ensures { result ≡ ends_before self kind }
    {
        matches!((self, kind), (Slot::Further, Kind::End))
    }
}

impl Field {
    /// How far below 0 the field's numbers go.
    fn most_below(self) -> u64
        ensures { result ≡ most_below self }
    {
        match self {
            Field::Immediate => 2048,
            Field::BranchOffset => 4096,
            Field::JumpOffset => 1_048_576,
            _ => 0,
        }
    }

    /// How far above 0 the field's numbers go.
    fn most_above(self) -> u64
        ensures { result ≡ most_above self }
    {
        match self {
            Field::Immediate => 2047,
            Field::ShiftAmount | Field::UnitNumber => 31,
            Field::UpperBits => 0xfffff,
            Field::BranchOffset => 4094,
            Field::JumpOffset => 1_048_574,
            Field::FenceBits => 4095,
            Field::WholeWord => 0xffff_ffff,
        }
    }

    /// Whether the field is an offset: it is even, and a label may stand for it.
    pub(crate) fn is_offset(self) -> bool
        ensures { result ≡ is_offset self }
    {
        matches!(self, Field::BranchOffset | Field::JumpOffset)
    }

    /// Whether the number lies in the field.
    pub(crate) fn fits(self, number: Number) -> bool
        ensures { result ≡ fits self number }
    {
        let most = if number.negative {
            self.most_below()
        } else {
            self.most_above()
        };
        number.magnitude <= most && (!self.is_offset() || number.magnitude % 2 == 0)
    }
}

/// The field of the immediate of a register-immediate form.
fn immediate_field(op: Op) -> Field
    ensures { result ≡ immediate_field op }
{
    match op {
        Op::Sll | Op::Srl | Op::Sra => Field::ShiftAmount,
        _ => Field::Immediate,
    }
}

impl Mnemonic {
    /// The field that holds the statement's number. Where the statement has no such field, as `cread`,
    /// one that holds 0 and 1.
    pub(crate) fn field(self) -> Field
        ensures { result ≡ field_of self }
    {
        match self {
            Mnemonic::RegisterRegister(_)
            | Mnemonic::Ecall
            | Mnemonic::Ebreak
            | Mnemonic::Cput
            | Mnemonic::Cread => Field::ShiftAmount,
            Mnemonic::RegisterImmediate(op) => immediate_field(op),
            Mnemonic::Lui | Mnemonic::Auipc => Field::UpperBits,
            Mnemonic::Jal => Field::JumpOffset,
            Mnemonic::Jalr | Mnemonic::Load(_) | Mnemonic::Store(_) => Field::Immediate,
            Mnemonic::Branch(_) => Field::BranchOffset,
            Mnemonic::Fence => Field::FenceBits,
            Mnemonic::Custom => Field::UnitNumber,
            Mnemonic::Data => Field::WholeWord,
        }
    }

    /// What stands behind the mnemonic.
    pub(crate) fn slots(self) -> &'static [Slot]
        ensures { result.now ≡ slots_of self }
    {
        match self {
            Mnemonic::RegisterRegister(_) => &[RD, COMMA, RS1, COMMA, RS2],
            Mnemonic::RegisterImmediate(op) => match immediate_field(op) {
                Field::ShiftAmount => &[RD, COMMA, RS1, COMMA, Slot::Value(Field::ShiftAmount)],
                _ => &[RD, COMMA, RS1, COMMA, Slot::Value(Field::Immediate)],
            },
            Mnemonic::Lui | Mnemonic::Auipc => &[RD, COMMA, Slot::Value(Field::UpperBits)],
            Mnemonic::Jal => &[RD, COMMA, Slot::Value(Field::JumpOffset)],
            Mnemonic::Jalr | Mnemonic::Load(_) => {
                &[RD, COMMA, Slot::Value(Field::Immediate), OPEN, RS1, CLOSE]
            }
            Mnemonic::Store(_) => &[RS2, COMMA, Slot::Value(Field::Immediate), OPEN, RS1, CLOSE],
            Mnemonic::Branch(_) => &[RS1, COMMA, RS2, COMMA, Slot::Value(Field::BranchOffset)],
            Mnemonic::Fence => &[Slot::Value(Field::FenceBits), COMMA, RS1, COMMA, RD],
            Mnemonic::Ecall | Mnemonic::Ebreak => &[],
            Mnemonic::Custom => &[
                Slot::Value(Field::UnitNumber),
                COMMA,
                RD,
                COMMA,
                RS1,
                COMMA,
                RS2,
                COMMA,
                RS3,
            ],
            Mnemonic::Cput => &[RS1, COMMA, RS2],
            Mnemonic::Cread => &[RD, Slot::Further, Slot::Second],
            Mnemonic::Data => &[Slot::Value(Field::WholeWord)],
        }
    }
}
