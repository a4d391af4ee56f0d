//! The names of statements.
ghost use Rattle.std.specs.Prelude.{◌≡◌, find};
ghost use Rattle.ci_asm.specs.private.Shapes.{immediate_name, name_of, mnemonics, is_named, mnemonic_of};
ghost use Rattle.ci_asm.specs.Forms.{operation_name, branch_name, load_name, store_name};

use ci_isa::{Cond, LoadKind, Width};
use ci_word::Op;

/// What a statement says, but for its operands.
#[derive(Clone, Copy)]
pub(crate) enum Mnemonic {
    /// A register-register form.
    RegisterRegister(Op),
    /// A register-immediate form.
    RegisterImmediate(Op),
    Lui,
    Auipc,
    Jal,
    Jalr,
    Branch(Cond),
    Load(LoadKind),
    Store(Width),
    Fence,
    Ecall,
    Ebreak,
    /// A unit word.
    Custom,
    Cput,
    Cread,
    /// A whole word.
    Data,
}

/// All mnemonics.
const MNEMONICS: [Mnemonic; 52] = [
    Mnemonic::RegisterRegister(Op::Add),
    Mnemonic::RegisterRegister(Op::Sub),
    Mnemonic::RegisterRegister(Op::Sll),
    Mnemonic::RegisterRegister(Op::Slt),
    Mnemonic::RegisterRegister(Op::Sltu),
    Mnemonic::RegisterRegister(Op::Xor),
    Mnemonic::RegisterRegister(Op::Srl),
    Mnemonic::RegisterRegister(Op::Sra),
    Mnemonic::RegisterRegister(Op::Or),
    Mnemonic::RegisterRegister(Op::And),
    Mnemonic::RegisterRegister(Op::Mul),
    Mnemonic::RegisterRegister(Op::Mulh),
    Mnemonic::RegisterRegister(Op::Mulhsu),
    Mnemonic::RegisterRegister(Op::Mulhu),
    Mnemonic::RegisterRegister(Op::Div),
    Mnemonic::RegisterRegister(Op::Divu),
    Mnemonic::RegisterRegister(Op::Rem),
    Mnemonic::RegisterRegister(Op::Remu),
    Mnemonic::RegisterImmediate(Op::Add),
    Mnemonic::RegisterImmediate(Op::Slt),
    Mnemonic::RegisterImmediate(Op::Sltu),
    Mnemonic::RegisterImmediate(Op::Xor),
    Mnemonic::RegisterImmediate(Op::Or),
    Mnemonic::RegisterImmediate(Op::And),
    Mnemonic::RegisterImmediate(Op::Sll),
    Mnemonic::RegisterImmediate(Op::Srl),
    Mnemonic::RegisterImmediate(Op::Sra),
    Mnemonic::Lui,
    Mnemonic::Auipc,
    Mnemonic::Jal,
    Mnemonic::Jalr,
    Mnemonic::Branch(Cond::Eq),
    Mnemonic::Branch(Cond::Ne),
    Mnemonic::Branch(Cond::Lt),
    Mnemonic::Branch(Cond::Ge),
    Mnemonic::Branch(Cond::Ltu),
    Mnemonic::Branch(Cond::Geu),
    Mnemonic::Load(LoadKind::B),
    Mnemonic::Load(LoadKind::H),
    Mnemonic::Load(LoadKind::W),
    Mnemonic::Load(LoadKind::Bu),
    Mnemonic::Load(LoadKind::Hu),
    Mnemonic::Store(Width::Byte),
    Mnemonic::Store(Width::Half),
    Mnemonic::Store(Width::Word),
    Mnemonic::Fence,
    Mnemonic::Ecall,
    Mnemonic::Ebreak,
    Mnemonic::Custom,
    Mnemonic::Cput,
    Mnemonic::Cread,
    Mnemonic::Data,
];

impl Mnemonic {
    /// How the mnemonic is written.
    pub(crate) fn name(self) -> &'static str
        ensures { result.now ≡ name_of self }
    {
        match self {
            Mnemonic::RegisterRegister(op) => operation_name(op),
            Mnemonic::RegisterImmediate(op) => immediate_name(op),
            Mnemonic::Lui => "lui",
            Mnemonic::Auipc => "auipc",
            Mnemonic::Jal => "jal",
            Mnemonic::Jalr => "jalr",
            Mnemonic::Branch(cond) => branch_name(cond),
            Mnemonic::Load(kind) => load_name(kind),
            Mnemonic::Store(width) => store_name(width),
            Mnemonic::Fence => "fence",
            Mnemonic::Ecall => "ecall",
            Mnemonic::Ebreak => "ebreak",
            Mnemonic::Custom => "ci",
            Mnemonic::Cput => "cput",
            Mnemonic::Cread => "cread",
            Mnemonic::Data => ".word",
        }
    }
}

/// The mnemonic with this name.
#[tactic(auto, unfolding(crate::specs::private::Shapes::mnemonic_of))]
pub(crate) fn mnemonic_of(text: &[u8]) -> Option<Mnemonic>
    ensures { result ≡ mnemonic_of text.now }
{
    first_named(text, &MNEMONICS)
}

/// The first of the mnemonics with this name.
fn first_named(text: &[u8], mnemonics: &[Mnemonic]) -> Option<Mnemonic>
    ensures { result ≡ find (is_named text.now) mnemonics.now }
{
    for mnemonic in mnemonics {
        if is_named(text, *mnemonic) {
            return Some(*mnemonic);
        }
    }
    None
}

/// The text is the mnemonic's name.
fn is_named(text: &[u8], mnemonic: Mnemonic) -> bool
    ensures { result ≡ is_named text.now mnemonic }
{
    text == mnemonic.name().as_bytes()
}

pub(crate) fn operation_name(op: Op) -> &'static str
    ensures { result.now ≡ operation_name op }
{
    match op {
        Op::Add => "add",
        Op::Sub => "sub",
        Op::Sll => "sll",
        Op::Slt => "slt",
        Op::Sltu => "sltu",
        Op::Xor => "xor",
        Op::Srl => "srl",
        Op::Sra => "sra",
        Op::Or => "or",
        Op::And => "and",
        Op::Mul => "mul",
        Op::Mulh => "mulh",
        Op::Mulhsu => "mulhsu",
        Op::Mulhu => "mulhu",
        Op::Div => "div",
        Op::Divu => "divu",
        Op::Rem => "rem",
        Op::Remu => "remu",
    }
}

/// The name of the register-immediate form of an operation. Nine operations have none.
pub(crate) fn immediate_name(op: Op) -> &'static str
    ensures { result.now ≡ immediate_name op }
{
    match op {
        Op::Add => "addi",
        Op::Slt => "slti",
        Op::Sltu => "sltiu",
        Op::Xor => "xori",
        Op::Or => "ori",
        Op::And => "andi",
        Op::Sll => "slli",
        Op::Srl => "srli",
        Op::Sra => "srai",
        _ => "",
    }
}

pub(crate) fn branch_name(cond: Cond) -> &'static str
    ensures { result.now ≡ branch_name cond }
{
    match cond {
        Cond::Eq => "beq",
        Cond::Ne => "bne",
        Cond::Lt => "blt",
        Cond::Ge => "bge",
        Cond::Ltu => "bltu",
        Cond::Geu => "bgeu",
    }
}

pub(crate) fn load_name(kind: LoadKind) -> &'static str
    ensures { result.now ≡ load_name kind }
{
    match kind {
        LoadKind::B => "lb",
        LoadKind::H => "lh",
        LoadKind::W => "lw",
        LoadKind::Bu => "lbu",
        LoadKind::Hu => "lhu",
    }
}

pub(crate) fn store_name(width: Width) -> &'static str
    ensures { result.now ≡ store_name width }
{
    match width {
        Width::Byte => "sb",
        Width::Half => "sh",
        Width::Word => "sw",
    }
}
