//! A shelf over the files of the system, and a sink over its standard output.
//!
//! What they do to real files and to the real output is not proved.
ghost use Rattle.std.specs.Prelude.{◌≡◌, ◌≢◌, ◌≤◌, ◌++◌, ◌∷◌, [], true, None, OnOk, OnErr, IfOk, IsErrOf, vec_len};
ghost use Rattle.ci_io.specs.CallLists.{read as made_read, write as made_write, put as made_put, answer_of};
ghost use Rattle.ci_io.specs.Counts.{raised};

use crate::histories::{CallHistory, NotedCall};
use crate::replacing::write_whole;
use crate::{Shelf, ShelfErr, Sink, SinkErr};
use std::alloc::Global;
use std::io::{Read, Write};
use std::marker::Model;
use std::rt::Files;
use std::{fs, io};

/// A shelf of the system's files, by their paths. It tells no file.
///
/// A missing file, a folder and a file that cannot be read are faults of reading. What is written goes to a new file
/// beside the name, which then takes its place; through a link it replaces what that leads to. Contracts see it as its
/// two counts of faults, each of which stays at its last value, and the calls.
#[derive(Drop)]
pub struct FileShelf<'a, R: Files> {
    rt: &'a R,
    read_faults: u64,
    write_faults: u64,
    history: CallHistory,
}

impl<'a, R: Files> Model for FileShelf<'a, R> {
    ghost use Rattle.ci_io.specs.MemoryStates.{SystemFiles, system_files_code};

    ghost Value = { SystemFiles };

    ghost coded = { system_files_code };

    ghost view = { λ shelf. record {
      reads = shelf.read_faults;
      writes = shelf.write_faults;
      history = shelf.history.calls;
    } };
}

impl<'a, R: Files> FileShelf<'a, R> {
    /// The shelf of the runtime's files, with no fault so far.
    pub fn new(rt: &'a R) -> FileShelf<'a, R>
        ensures counts { result ≡ record { reads = 0; writes = 0; history = [] } }
        ensures untold { ⟦<FileShelf<'a, R> as Shelf>⟧.state result
            ≡ record { files = None; read_faults = 0; write_faults = 0; calls = [] } }
    {
        FileShelf {
            rt,
            read_faults: 0,
            write_faults: 0,
            history: CallHistory::new(),
        }
    }
}

impl<'a, R: Files> Shelf for FileShelf<'a, R> {
    ghost state = { λ counts. record {
      files = None;
      read_faults = counts.reads;
      write_faults = counts.writes;
      calls = counts.history;
    } };

    ghost read_may_fail = { λ _. true };

    ghost write_may_fail = { λ _. true };

    fn read(&mut self, alloc: Global, name: &str, limit: u64) -> Result<Vec<u8>, ShelfErr>
        ensures within_limit { IfOk result (λ bytes. vec_len bytes ≤ limit) }
        ensures never_absent { result ≢ Err ShelfErr.Absent }

        // The count of reads rises by a fault alone.
        ensures after_fault { IsErrOf result ShelfErr.Fault → self.new.reads ≡ raised self.old.reads }
        ensures after_others { result ≢ Err ShelfErr.Fault → self.new.reads ≡ self.old.reads }
        ensures never_falls { self.old.reads ≤ self.new.reads }
        ensures writes_stay { self.new.writes ≡ self.old.writes }
        ensures called { self.new.history ≡ self.old.history ++ made_read name.now limit (answer_of result) ∷ [] }
    {
        let answer = match read_file(self.rt, alloc, name, limit) {
            Ok(bytes) if bytes.len() as u64 > limit => Err(ShelfErr::TooLarge),
            Ok(bytes) => Ok(bytes),
            Err(error) if error.kind() == io::ErrorKind::OutOfMemory => Err(ShelfErr::NoMemory),
            Err(_) => {
                self.read_faults = self.read_faults.saturating_add(1);
                Err(ShelfErr::Fault)
            }
        };
        self.history = self.history.then(&NotedCall::Read {
            name,
            limit,
            answer: &answer,
        });
        answer
    }

    fn write(&mut self, alloc: Global, name: &str, bytes: &[u8]) -> Result<(), ShelfErr>
        ensures never_absent { result ≢ Err ShelfErr.Absent }
        ensures never_too_large { result ≢ Err ShelfErr.TooLarge }

        // The count of writes rises by a fault alone.
        ensures after_fault { IsErrOf result ShelfErr.Fault → self.new.writes ≡ raised self.old.writes }
        ensures after_others { result ≢ Err ShelfErr.Fault → self.new.writes ≡ self.old.writes }
        ensures never_falls { self.old.writes ≤ self.new.writes }
        ensures reads_stay { self.new.reads ≡ self.old.reads }
        ensures called { self.new.history ≡ self.old.history ++ made_write name.now bytes.now result ∷ [] }
    {
        let outcome = write_whole(self.rt, alloc, name, bytes);
        if outcome == Err(ShelfErr::Fault) {
            self.write_faults = self.write_faults.saturating_add(1);
        }
        self.history = self.history.then(&NotedCall::Write {
            name,
            bytes,
            outcome: &outcome,
        });
        outcome
    }
}

// The file's bytes, or more than `limit` of them where it has more. No more than one byte past the limit is read.
fn read_file<R: Files>(rt: &R, alloc: Global, name: &str, limit: u64) -> io::Result<Vec<u8>> {
    let mut bytes = Vec::new(alloc);
    fs::open(rt, name)?
        .take(limit.saturating_add(1))
        .read_to_end(&mut bytes)?;
    Ok(bytes)
}

/// A sink over standard output. It tells no byte.
///
/// Contracts see it as its count of faults, which stays at its last value, and the calls.
#[derive(Drop)]
pub struct StdSink<'a, R: Print> {
    rt: &'a R,
    faults: u64,
    history: CallHistory,
}

impl<'a, R: Print> Model for StdSink<'a, R> {
    ghost use Rattle.ci_io.specs.MemoryStates.{SystemOutput, system_output_code};

    ghost Value = { SystemOutput };

    ghost coded = { system_output_code };

    ghost view = { λ sink. record { faults = sink.faults; history = sink.history.calls } };
}

impl<'a, R: Print> StdSink<'a, R> {
    /// The sink over the runtime's standard output, with no fault so far.
    pub fn new(rt: &'a R) -> StdSink<'a, R>
        ensures count { result ≡ record { faults = 0; history = [] } }
        ensures untold { ⟦<StdSink<'a, R> as Sink>⟧.state result
            ≡ record { taken = None; faults = 0; memory_faults = 0; calls = [] } }
    {
        StdSink {
            rt,
            faults: 0,
            history: CallHistory::new(),
        }
    }
}

impl<'a, R: Print> Sink for StdSink<'a, R> {
    ghost state = { λ sink. record {
      taken = None;
      faults = sink.faults;
      memory_faults = 0;
      calls = sink.history;
    } };

    fn put(&mut self, bytes: &[u8]) -> Result<(), SinkErr>
        ensures never_no_memory { result ≢ Err SinkErr.NoMemory }

        // The count rises by a fault alone.
        ensures after_ok { OnOk result (self.new.faults ≡ self.old.faults) }
        ensures after_fault { OnErr result (self.new.faults ≡ raised self.old.faults) }
        ensures never_falls { self.old.faults ≤ self.new.faults }
        ensures called { self.new.history ≡ self.old.history ++ made_put bytes.now result ∷ [] }
    {
        let outcome = match self.rt.write_all(bytes) {
            Ok(()) => Ok(()),
            Err(_) => {
                self.faults = self.faults.saturating_add(1);
                Err(SinkErr::Fault)
            }
        };
        self.history = self.history.then(&NotedCall::Put {
            bytes,
            outcome: &outcome,
        });
        outcome
    }
}
