//! A set of numbers below 256.
ghost use Rattle.std.specs.Prelude.{◌≡◌, ℕ, ◌<◌, IsTrue, MatchOption, ◌↔◌};
ghost use Rattle.std.specs.FinSet as set;
ghost use Rattle.ci_word.specs.Numbers.{Meets, IsGreatest, count_below};

use std::marker::Model;

/// A set of numbers below 256. It is copied, and allocates nothing.
///
/// Number `n` is bit `n % 64` of word `n / 64`.
#[derive(Clone, Copy, Debug, PartialEq, Eq)]
pub struct Row {
    words: [u64; 4],
}

impl Model for Row {
    ghost use Rattle.std.specs.FinSet as set;
    ghost use Rattle.std.specs.Ordering.{nat_cmp};
    ghost use Rattle.std.specs.Coded.{coded_ℕ};

    ghost Value = { set.FinSet nat_cmp };

    ghost coded = { set.code coded_ℕ };

    ghost use Rattle.ci_word.specs.private.Words.{numbers_in, words_of, AreRowWords};

    ghost view = { λ row. numbers_in row.words };

    ghost invariant = { λ row. AreRowWords row.words };

    ghost inverse = { λ numbers. record { words = words_of numbers } };

    ghost use Rattle.std.proofs.Common.{ap};
    ghost use Rattle.ci_word.specs.private.WordLaws.{words_of-numbers_in};

    ghost inverse_ok = { λ row words. ap (λ items. record { words = items }) (words_of-numbers_in row.words words) };
}

impl Row {
    /// The set without a number.
    pub fn empty() -> Row
        ensures { result ≡ set.empty }
    {
        Row { words: [0; 4] }
    }

    /// Puts a number in.
    pub fn insert(&mut self, n: u8)
        ensures { self.new ≡ set.insert self.old n }
    {
        self.words[(n / 64) as usize] |= 1 << (n % 64);
    }

    /// Takes a number out.
    pub fn remove(&mut self, n: u8)
        ensures { self.new ≡ set.remove self.old n }
    {
        self.words[(n / 64) as usize] &= !(1 << (n % 64));
    }

    /// The law of rows: each number is below 256. Nothing happens when it runs.
    pub fn numbers_are_below_256(&self)
        ensures { (k : ℕ) → IsTrue (set.contains self.now k) → k < 256 }
    {
        let _words = self.words;
    }

    /// Whether a number is in.
    pub fn has(&self, n: u8) -> bool
        ensures value { result ≡ set.contains self.now n }
    {
        (self.words[(n / 64) as usize] >> (n % 64)) & 1 == 1
    }

    /// The numbers of either set.
    pub fn union(&self, other: &Row) -> Row
        ensures value { result ≡ set.union self.now other.now }
    {
        Row {
            words: [
                self.words[0] | other.words[0],
                self.words[1] | other.words[1],
                self.words[2] | other.words[2],
                self.words[3] | other.words[3],
            ],
        }
    }

    /// The numbers of this set that are not in the other one.
    pub fn minus(&self, other: &Row) -> Row
        ensures value { result ≡ set.difference self.now other.now }
    {
        Row {
            words: [
                self.words[0] & !other.words[0],
                self.words[1] & !other.words[1],
                self.words[2] & !other.words[2],
                self.words[3] & !other.words[3],
            ],
        }
    }

    /// Whether some number is in both sets.
    pub fn meets(&self, other: &Row) -> bool
        ensures value { IsTrue result ↔ Meets self.now other.now }
    {
        let shared = (self.words[0] & other.words[0])
            | (self.words[1] & other.words[1])
            | (self.words[2] & other.words[2])
            | (self.words[3] & other.words[3]);
        shared != 0
    }

    /// The greatest number, or `None` where there is no number.
    pub fn greatest(&self) -> Option<u8>
        ensures { MatchOption result (self.now ≡ set.empty) (IsGreatest self.now) }
    {
        let mut index = 4;
        while index > 0 {
            index -= 1;
            let word = self.words[index];
            if word != 0 {
                return Some((index * 64 + 63 - word.leading_zeros() as usize) as u8);
            }
        }
        None
    }

    /// How many numbers are in.
    pub fn count(&self) -> u32
        ensures value { result ≡ set.len self.now }
        ensures counted { result ≡ count_below 256 (set.contains self.now) }
    {
        self.words[0].count_ones()
            + self.words[1].count_ones()
            + self.words[2].count_ones()
            + self.words[3].count_ones()
    }
}
