//! Places of a file at which entries of symbol tables were read.
ghost use Rattle.std.specs.Prelude.{◌≤◌, length};
ghost use Rattle.ci_elf.specs.Runs.{AreRuns};

use crate::parts::Part;
use std::alloc::{AllocError, Global};

/// Places of a file, of which some are taken by an entry that begins there.
///
/// A walk passes a run of taken entries at once, and joins it with the run behind it. So all walks together take a
/// time like n log n, where n counts the places, the walks and the entries that they take.
#[derive(Drop)]
pub(crate) struct TakenPlaces {
    /// The first of the places.
    first: usize,
    /// For each place, how many entries from there on, one behind the other, are known to be taken: none where the
    /// place is free.
    runs: Vec<u32>,
    ghost small: { length runs.items ≤ 268435456 },
    ghost sound: { AreRuns runs.items },
}

impl TakenPlaces {
    ghost use Rattle.std.specs.Prelude.{◌≡◌, ◌-◌, ◌==◌, false, length, slice_index, IfOk};
    ghost use Rattle.ci_elf.specs.private.SymbolChecks.{IsAmong, IsRun, TakesToo, is_taken};

    /// The places of a part of the file, all of them free.
    pub(crate) fn new(alloc: Global, part: Part) -> Result<Self, AllocError>
        requires { part.end ≤ 268435456 }
        ensures first { IfOk result (λ places. places.first ≡ part.start) }
        ensures many { IfOk result (λ places. length places.runs.items ≡ part.end - part.start) }
        ensures free { IfOk result (λ places. (place : _) → is_taken places place ≡ false) }
    {
        let many = part.end.saturating_sub(part.start) as usize;
        Ok(TakenPlaces {
            first: part.start as usize,
            runs: vec![in alloc; 0u32; many]?,
        })
    }

    /// How many entries from place `index` on are known to be taken, and none behind the last place.
    fn run(&self, index: usize) -> u32
        ensures { result ≡ slice_index self.now.runs.items index }
    {
        self.runs.get(index).copied().unwrap_or(0)
    }

    /// How many entries from the place on are known to be taken: none where the place is free.
    ///
    /// The run is joined with the one behind it, where there is one.
    pub(crate) fn run_at(&mut self, place: usize) -> u32
        requires { IsAmong self.old place }
        ensures run { IsRun self.old place result }
        ensures same { TakesToo self.old self.new (λ _. false) }
    {
        let index = place - self.first;
        let run = self.run(index);
        let longer = run + self.run(index + 16 * run as usize);
        self.runs[index] = longer;
        longer
    }

    /// Takes the place.
    pub(crate) fn take(&mut self, place: usize)
        requires { IsAmong self.old place }
        ensures { TakesToo self.old self.new (λ other. other == place) }
    {
        self.runs[place - self.first] = 1;
    }
}
