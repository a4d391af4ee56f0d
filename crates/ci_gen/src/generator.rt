//! A linear congruential generator.
ghost use Rattle.std.specs.Prelude.{◌≡◌, ◌+◌, ◌/◌, ◌%◌};
ghost use Rattle.ci_gen.specs.Draws.{following};

use ci_isa::Reg;

/// The state of the generator.
#[derive(Drop)]
pub struct Generator {
    state: u32,
}

impl Generator {
    /// The generator of a seed.
    pub fn new(seed: u32) -> Generator
        ensures { result.state ≡ seed }
    {
        Generator { state: seed }
    }

    /// The next draw, below 65,536.
    pub fn next(&mut self) -> u32
        ensures moves { self.new.state ≡ following self.old.state }
        ensures draws { result ≡ self.new.state / 65536 }
    {
        self.state = self
            .state
            .wrapping_mul(1_664_525)
            .wrapping_add(1_013_904_223);
        self.state >> 16
    }

    /// The next draw, as one of eight kinds.
    pub fn kind(&mut self) -> u32
        ensures moves { self.new.state ≡ following self.old.state }
        ensures draws { result ≡ self.new.state / 65536 % 8 }
    {
        self.next() % 8
    }

    /// The next draw, as one of the registers x5 to x12.
    pub fn register(&mut self) -> Reg
        ensures moves { self.new.state ≡ following self.old.state }
        ensures draws { result ≡ 5 + self.new.state / 65536 % 8 }
    {
        let number = 5 + self.next() % 8;
        Reg::new(number as u8).unwrap()
    }
}
