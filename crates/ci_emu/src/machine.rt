//! Machines: whether they have units and hidden registers, and what these give and take.
ghost use Rattle.std.specs.Prelude.{◌≡◌, ℕ, Bool, false, [], ◌∷◌, if◌then◌else◌, is_some, IfSome};
ghost use Rattle.ci_machine.specs.Steps.{Meaning, IsPlain};
ghost use Rattle.ci_emu.specs.Machines.{Gives, StandAs};
ghost use Rattle.ci_emu.specs.PlainLaws.{plain_stands};

/// A machine: which instructions of its own it has beside those of the plain table, and what its units give and take.
///
/// None of its methods takes memory. All else is the same of every machine. What is said of a machine is said of all
/// its meanings: of one that has none, nothing is said.
pub trait Machine {
    /// The meanings that are this machine's.
    ghost meanings: { Self → Meaning → Type 0 };

    /// Whether it has the unit of this number.
    ghost has_unit: { Self → ℕ → Bool };

    /// Whether it has `cread` and `cput`.
    ghost has_hidden: { Self → Bool };

    /// How many cycles the unit of this number takes.
    ghost unit_cycles: { Self → ℕ → ℕ };

    /// What the unit gives of the words a to e, where it is there: the first result, which goes to `rd`, and those that
    /// go to the hidden results 0 and 1. Where it is not, a word that names it is no instruction.
    fn unit(&self, number: u8, a: u32, b: u32, c: u32, d: u32, e: u32) -> Option<(u32, u32, u32)>
        ensures there { is_some result ≡ has_unit self.now number }
        ensures given { IfSome result (λ given. (meaning : Meaning) → meanings self.now meaning
            → Gives meaning.units number (a ∷ b ∷ c ∷ d ∷ e ∷ []) given) };

    /// How long the unit takes, in cycles: no time where it is not there.
    fn cycles(&self, number: u8) -> u32
        ensures { result ≡ (if has_unit self.now number then unit_cycles self.now number else 0) };

    /// Whether it has `cread` and `cput`. Where it has not, their words are no instructions.
    fn has_hidden(&self) -> bool
        ensures { result ≡ has_hidden self.now };

    /// At each word stands what the extended table has for it, but for the instructions that the machine has not.
    ghost stands: { (machine : Self) → StandAs (meanings machine) (has_unit machine) (has_hidden machine) };
}

/// The machine of RV32IM alone. Unit words, `cread` and `cput` are no instructions of it.
#[derive(Clone, Copy)]
pub struct PlainMachine;

impl Machine for PlainMachine {
    ghost meanings = { λ machine meaning. IsPlain meaning };

    ghost has_unit = { λ machine number. false };

    ghost has_hidden = { λ machine. false };

    ghost unit_cycles = { λ machine number. 0 };

    ghost stands = { λ machine. plain_stands };

    fn unit(
        &self,
        _number: u8,
        _a: u32,
        _b: u32,
        _c: u32,
        _d: u32,
        _e: u32,
    ) -> Option<(u32, u32, u32)> {
        None
    }

    fn cycles(&self, _number: u8) -> u32 {
        0
    }

    fn has_hidden(&self) -> bool {
        false
    }
}
