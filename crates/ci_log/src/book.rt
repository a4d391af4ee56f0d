//! Log books.
ghost use Rattle.std.specs.Prelude.{◌≡◌};
ghost use Rattle.ci_log.specs.Books.{Book, IsBook};

use crate::log::Log;
use ci_word::Row;
use std::marker::Model;

/// An entry of a log book. The leader is the address of the block that it speaks of.
#[derive(Drop)]
pub enum Entry {
    /// A search that found the cut, whose nodes are numbered in the block, and its log.
    Best { leader: u32, cut: Row, log: Log },
    /// A search that found no cut, and its log.
    Without { leader: u32, log: Log },
    /// A search that needs more than the budget.
    Spent { leader: u32, budget: u32 },
    /// The cut that was found last in the block becomes an instruction of the unit.
    Take { leader: u32, unit: u8 },
}

/// Why a choice of cuts ends.
#[derive(Clone, Copy, Debug, PartialEq, Eq)]
pub enum Finish {
    /// No block that isn't skipped has a cut left.
    Empty,
    /// The next cut needs a new unit, and there are as many as there may be.
    Count,
}

/// How a book spells its logs.
#[derive(Clone, Copy)]
pub enum Version {
    /// A letter for each item.
    One,
    /// Half bytes, with runs of equal leaves.
    Two,
}

/// A log book: entries, first searches alone and then takes, each with the search that follows it,
/// and the finish.
///
/// The cut of a search has a node, each unit is below 32, and each budget is at most 9,999,999.
#[derive(Drop)]
pub struct LogBook {
    entries: Vec<Entry>,
    finish: Finish,
}

impl Model for LogBook {
    ghost use Rattle.ci_log.specs.Books.{Book, IsBook};
    ghost use Rattle.ci_log.specs.private.Stored.{coded_book};

    ghost Value = { Book };

    ghost coded = { coded_book };

    ghost view = { λ book. record { entries = book.entries.items; finish = book.finish } };

    ghost invariant = { λ book. IsBook (record { entries = book.entries.items; finish = book.finish }) };
}

impl LogBook {
    /// The book of these entries, which have to be in order, with this finish.
    pub fn new(entries: Vec<Entry>, finish: Finish) -> LogBook
        requires { IsBook (record { entries = entries.items; finish = finish }) }
        ensures { result ≡ record { entries = entries.items; finish = finish } }
    {
        LogBook { entries, finish }
    }

    /// The entries in their order.
    pub fn entries(&self) -> &[Entry]
        ensures entries { result.now ≡ self.now.entries }
        ensures book { IsBook self.now }
    {
        &self.entries
    }

    /// Why the choice ended.
    pub fn finish(&self) -> Finish
        ensures { result ≡ self.now.finish }
    {
        self.finish
    }
}
