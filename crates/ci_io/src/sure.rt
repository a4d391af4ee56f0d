//! A shelf and a sink in memory that never fail.
ghost use Rattle.std.specs.Prelude.{false, ◌≡◌, ◌≤◌, ◌++◌, [], Some, OnOk, OnErr, IsErrOf};
ghost use Rattle.ci_io.specs.Counts.{raised};
ghost use Rattle.ci_io.specs.Maps.{files_of};

use crate::held::{read_held, write_held};
use crate::histories::{CallHistory, NotedCall};
use crate::{Shelf, ShelfErr, Sink, SinkErr};
use std::alloc::Global;
use std::collections::BTreeMap;
use std::marker::Model;

/// A shelf of files in memory, on which no call fails, unless memory runs out.
///
/// Contracts see it as the files by name, and the calls.
#[derive(Drop)]
pub struct SureShelf {
    files: BTreeMap<String, Vec<u8>>,
    history: CallHistory,
}

impl Model for SureShelf {
    ghost use Rattle.ci_io.specs.MemoryStates.{SureFiles, sure_files_code};
    ghost use Rattle.ci_io.specs.Maps.{files_of};

    ghost Value = { SureFiles };

    ghost coded = { sure_files_code };

    ghost view = { λ shelf. record { files = files_of shelf.files; history = shelf.history.calls } };
}

impl SureShelf {
    /// A shelf that holds these files.
    pub fn new(files: BTreeMap<String, Vec<u8>>) -> SureShelf
        ensures holds { result ≡ record { files = files_of files; history = [] } }
        ensures told { ⟦<SureShelf as Shelf>⟧.state result
            ≡ record { files = Some (files_of files); read_faults = 0; write_faults = 0; calls = [] } }
    {
        SureShelf {
            files,
            history: CallHistory::new(),
        }
    }

    /// The files that the shelf holds now.
    pub fn files(&self) -> &BTreeMap<String, Vec<u8>>
        ensures holds { files_of result.now ≡ self.now.files }
        ensures told { (⟦<SureShelf as Shelf>⟧.state self.now).files ≡ Some (files_of result.now) }
    {
        &self.files
    }
}

impl Shelf for SureShelf {
    ghost state = { λ shelf. record {
      files = Some shelf.files;
      read_faults = 0;
      write_faults = 0;
      calls = shelf.history;
    } };

    ghost read_may_fail = { λ _. false };

    ghost write_may_fail = { λ _. false };

    fn read(&mut self, alloc: Global, name: &str, limit: u64) -> Result<Vec<u8>, ShelfErr> {
        let answer = read_held(alloc, &self.files, name, limit);
        self.history = self.history.then(&NotedCall::Read {
            name,
            limit,
            answer: &answer,
        });
        answer
    }

    fn write(&mut self, alloc: Global, name: &str, bytes: &[u8]) -> Result<(), ShelfErr> {
        let outcome = match write_held(alloc, &mut self.files, name, bytes) {
            Ok(()) => Ok(()),
            Err(_) => Err(ShelfErr::NoMemory),
        };
        self.history = self.history.then(&NotedCall::Write {
            name,
            bytes,
            outcome: &outcome,
        });
        outcome
    }
}

/// A sink in memory, on which no call fails, unless memory runs out.
///
/// Contracts see it as the bytes taken, the count of puts that ran out of memory, which stays at its last value, and
/// the calls.
#[derive(Drop)]
pub struct SureSink {
    taken: Vec<u8>,
    memory_faults: u64,
    history: CallHistory,
}

impl Model for SureSink {
    ghost use Rattle.ci_io.specs.MemoryStates.{SureOutput, sure_output_code};

    ghost Value = { SureOutput };

    ghost coded = { sure_output_code };

    ghost view = { λ sink. record {
      taken = sink.taken.items;
      memory_faults = sink.memory_faults;
      history = sink.history.calls;
    } };
}

impl SureSink {
    /// A sink that has taken nothing. It keeps the allocator for the bytes that it takes.
    pub fn new(alloc: Global) -> SureSink
        ensures empty { result.taken ≡ [] }
        ensures told { ⟦<SureSink as Sink>⟧.state result
            ≡ record { taken = Some []; faults = 0; memory_faults = 0; calls = [] } }
    {
        SureSink {
            taken: Vec::new(alloc),
            memory_faults: 0,
            history: CallHistory::new(),
        }
    }

    /// The bytes that the sink has taken so far.
    pub fn taken(&self) -> &[u8]
        ensures bytes { result.now ≡ self.now.taken }
        ensures told { (⟦<SureSink as Sink>⟧.state self.now).taken ≡ Some result.now }
    {
        self.taken.as_slice()
    }
}

impl Sink for SureSink {
    ghost state = { λ sink. record {
      taken = Some sink.taken;
      faults = 0;
      memory_faults = sink.memory_faults;
      calls = sink.history;
    } };

    fn put(&mut self, bytes: &[u8]) -> Result<(), SinkErr> {
        let outcome = match self.taken.extend_from_slice(bytes) {
            Ok(()) => Ok(()),
            Err(_) => {
                self.memory_faults = self.memory_faults.saturating_add(1);
                Err(SinkErr::NoMemory)
            }
        };
        self.history = self.history.then(&NotedCall::Put {
            bytes,
            outcome: &outcome,
        });
        outcome
    }
}
