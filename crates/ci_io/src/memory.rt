//! A shelf and a sink in memory that fail at the calls that they are told.
ghost use Rattle.std.specs.Prelude.{true, ◌≡◌, ◌≢◌, ◌≤◌, ◌↔◌, ◌++◌, [], ℕ, List, Option, Some, IfOk, OnOk, IsErrOf};
ghost use Rattle.std.specs.Prelude.{vec_len};
ghost use Rattle.std.specs.FinMap as map;
ghost use Rattle.std.specs.Prelude.{◌∷◌};
ghost use Rattle.ci_io.specs.CallLists.{read as made_read, write as made_write, put as made_put, answer_of};
ghost use Rattle.ci_io.specs.Counts.{raised, IsNextToFail, one_more_call};
ghost use Rattle.ci_io.specs.Maps.{files_of};
ghost use Rattle.ci_io.specs.Outcomes.{with_file};
ghost use Rattle.ci_io.specs.Reads.{IsReadOf};

use crate::calls::Calls;
use crate::held::{read_held, write_held};
use crate::histories::{CallHistory, NotedCall};
use crate::{Shelf, ShelfErr, Sink, SinkErr};
use std::alloc::Global;
use std::collections::BTreeMap;
use std::marker::Model;

/// A shelf of files in memory, on which the calls fail whose numbers it is told. Calls of `read` and of `write`
/// are numbered together, from 1.
///
/// Contracts see it as its files by name, its two counts of faults, the number of its calls with those that are to
/// fail, and the calls. The counts of faults rise only by the calls that fail, and each number stays at its last value.
#[derive(Drop)]
pub struct MemShelf {
    files: BTreeMap<String, Vec<u8>>,
    calls: Calls,
    read_faults: u64,
    write_faults: u64,
    history: CallHistory,
}

impl Model for MemShelf {
    ghost use Rattle.ci_io.specs.Maps.{files_of};
    ghost use Rattle.ci_io.specs.MemoryStates.{MemoryShelf, memory_shelf_code};

    ghost Value = { MemoryShelf };

    ghost coded = { memory_shelf_code };

    ghost view = { λ shelf. record {
      files = files_of shelf.files;
      read_faults = shelf.read_faults;
      write_faults = shelf.write_faults;
      calls = shelf.calls;
      history = shelf.history.calls;
    } };
}

impl MemShelf {
    /// A shelf that holds these files, on which the calls of these numbers are to fail.
    pub fn new(files: BTreeMap<String, Vec<u8>>, failing: Vec<u64>) -> MemShelf
        ensures holds { result.files ≡ files_of files }
        ensures told { ⟦<MemShelf as Shelf>⟧.state result
            ≡ record { files = Some (files_of files); read_faults = 0; write_faults = 0; calls = [] } }
        ensures calls { result.calls ≡ record { made = 0; failing = failing.items } }
    {
        MemShelf {
            files,
            calls: Calls::new(failing),
            read_faults: 0,
            write_faults: 0,
            history: CallHistory::new(),
        }
    }

    /// The files that the shelf holds now.
    pub fn files(&self) -> &BTreeMap<String, Vec<u8>>
        ensures holds { files_of result.now ≡ self.now.files }
        ensures told { (⟦<MemShelf as Shelf>⟧.state self.now).files ≡ Some (files_of result.now) }
    {
        &self.files
    }
}

impl Shelf for MemShelf {
    ghost state = { λ shelf. record {
      files = Some shelf.files;
      read_faults = shelf.read_faults;
      write_faults = shelf.write_faults;
      calls = shelf.history;
    } };

    ghost read_may_fail = { λ _. true };

    ghost write_may_fail = { λ _. true };

    fn read(&mut self, alloc: Global, name: &str, limit: u64) -> Result<Vec<u8>, ShelfErr>
        ensures of_the_file { IsReadOf self.old.files name.now limit (answer_of result) }
        ensures within_limit { IfOk result (λ bytes. vec_len bytes ≤ limit) }

        // A call fails exactly where its number is listed. Then its count rises, and else nothing but the number of
        // calls.
        ensures fault_listed { IsErrOf result ShelfErr.Fault ↔ IsNextToFail self.old.calls }
        ensures after_fault { IsErrOf result ShelfErr.Fault → self.new ≡ record self.old {
          calls = one_more_call self.old.calls;
          history = self.old.history ++ made_read name.now limit (answer_of result) ∷ [];
          read_faults = raised self.old.read_faults;
        } }
        ensures after_others { result ≢ Err ShelfErr.Fault → self.new ≡ record self.old {
          calls = one_more_call self.old.calls;
          history = self.old.history ++ made_read name.now limit (answer_of result) ∷ [];
        } }
        ensures never_falls { self.old.read_faults ≤ self.new.read_faults }
    {
        let answer = if self.calls.is_next_to_fail() {
            self.read_faults = self.read_faults.saturating_add(1);
            Err(ShelfErr::Fault)
        } else {
            read_held(alloc, &self.files, name, limit)
        };
        self.history = self.history.then(&NotedCall::Read {
            name,
            limit,
            answer: &answer,
        });
        answer
    }

    fn write(&mut self, alloc: Global, name: &str, bytes: &[u8]) -> Result<(), ShelfErr>
        ensures never_absent { result ≢ Err ShelfErr.Absent }
        ensures never_too_large { result ≢ Err ShelfErr.TooLarge }

        // A call fails exactly where its number is listed. Then its count rises, and the file stays.
        ensures fault_listed { IsErrOf result ShelfErr.Fault ↔ IsNextToFail self.old.calls }
        ensures after_ok { OnOk result (self.new ≡ record self.old {
          calls = one_more_call self.old.calls;
          history = self.old.history ++ made_write name.now bytes.now result ∷ [];
          files = map.insert self.old.files name.now bytes.now;
        }) }
        ensures after_fault { IsErrOf result ShelfErr.Fault → self.new ≡ record self.old {
          calls = one_more_call self.old.calls;
          history = self.old.history ++ made_write name.now bytes.now result ∷ [];
          write_faults = raised self.old.write_faults;
        } }
        ensures fault { IsErrOf result ShelfErr.Fault → (content : Option (List ℕ))
            × (self.new.files ≡ with_file name.now content self.old.files) }
        ensures after_no_memory { IsErrOf result ShelfErr.NoMemory → self.new ≡ record self.old {
          calls = one_more_call self.old.calls;
          history = self.old.history ++ made_write name.now bytes.now result ∷ [];
        } }
        ensures never_falls { self.old.write_faults ≤ self.new.write_faults }
    {
        if self.calls.is_next_to_fail() {
            self.write_faults = self.write_faults.saturating_add(1);
            self.history = self.history.then(&NotedCall::Write {
                name,
                bytes,
                outcome: &Err(ShelfErr::Fault),
            });
            return Err(ShelfErr::Fault);
        }
        let outcome = match write_held(alloc, &mut self.files, name, bytes) {
            Ok(()) => Ok(()),
            Err(_) => Err(ShelfErr::NoMemory),
        };
        self.history = self.history.then(&NotedCall::Write {
            name,
            bytes,
            outcome: &outcome,
        });
        outcome
    }
}

/// A sink in memory, on which the calls of `put` fail whose numbers it is told. They are numbered from 1.
///
/// Contracts see it as the bytes taken, its counts of faults and of puts that ran out of memory, the number of its
/// calls with those that are to fail, and the calls. The count of faults rises only by the calls that are to fail, and
/// each number stays at its last value.
#[derive(Drop)]
pub struct MemSink {
    taken: Vec<u8>,
    calls: Calls,
    faults: u64,
    memory_faults: u64,
    history: CallHistory,
}

impl Model for MemSink {
    ghost use Rattle.ci_io.specs.MemoryStates.{MemoryOutput, memory_output_code};

    ghost Value = { MemoryOutput };

    ghost coded = { memory_output_code };

    ghost view = { λ sink. record {
      taken = sink.taken.items;
      faults = sink.faults;
      memory_faults = sink.memory_faults;
      calls = sink.calls;
      history = sink.history.calls;
    } };
}

impl MemSink {
    /// A sink that has taken nothing, on which the calls of these numbers are to fail. It keeps the allocator for
    /// the bytes that it takes.
    pub fn new(alloc: Global, failing: Vec<u64>) -> MemSink
        ensures empty { result.taken ≡ [] }
        ensures told { ⟦<MemSink as Sink>⟧.state result
            ≡ record { taken = Some []; faults = 0; memory_faults = 0; calls = [] } }
        ensures calls { result.calls ≡ record { made = 0; failing = failing.items } }
    {
        MemSink {
            taken: Vec::new(alloc),
            calls: Calls::new(failing),
            faults: 0,
            memory_faults: 0,
            history: CallHistory::new(),
        }
    }

    /// The bytes that the sink has taken so far.
    pub fn taken(&self) -> &[u8]
        ensures bytes { result.now ≡ self.now.taken }
        ensures told { (⟦<MemSink as Sink>⟧.state self.now).taken ≡ Some result.now }
    {
        self.taken.as_slice()
    }
}

impl Sink for MemSink {
    ghost state = { λ sink. record {
      taken = Some sink.taken;
      faults = sink.faults;
      memory_faults = sink.memory_faults;
      calls = sink.history;
    } };

    fn put(&mut self, bytes: &[u8]) -> Result<(), SinkErr>
        // A call fails exactly where its number is listed. Then the count rises, and no byte is taken.
        ensures fault_listed { IsErrOf result SinkErr.Fault ↔ IsNextToFail self.old.calls }
        ensures after_ok { OnOk result (self.new ≡ record self.old {
          calls = one_more_call self.old.calls;
          history = self.old.history ++ made_put bytes.now result ∷ [];
          taken = self.old.taken ++ bytes.now;
        }) }
        ensures after_fault { IsErrOf result SinkErr.Fault → self.new ≡ record self.old {
          calls = one_more_call self.old.calls;
          history = self.old.history ++ made_put bytes.now result ∷ [];
          faults = raised self.old.faults;
        } }
        ensures after_no_memory { IsErrOf result SinkErr.NoMemory → self.new ≡ record self.old {
          calls = one_more_call self.old.calls;
          history = self.old.history ++ made_put bytes.now result ∷ [];
          memory_faults = raised self.old.memory_faults;
        } }
        ensures never_falls { self.old.faults ≤ self.new.faults }
        ensures memory_never_falls { self.old.memory_faults ≤ self.new.memory_faults }
    {
        let outcome = if self.calls.is_next_to_fail() {
            self.faults = self.faults.saturating_add(1);
            Err(SinkErr::Fault)
        } else {
            match self.taken.extend_from_slice(bytes) {
                Ok(()) => Ok(()),
                Err(_) => {
                    self.memory_faults = self.memory_faults.saturating_add(1);
                    Err(SinkErr::NoMemory)
                }
            }
        };
        self.history = self.history.then(&NotedCall::Put {
            bytes,
            outcome: &outcome,
        });
        outcome
    }
}
