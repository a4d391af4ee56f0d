//! From a success to the end of the call: the writes of its files, and the put of its text.
ghost use Rattle.std.specs.Prelude.{◌≡◌, ◌≤◌, [], ◌∷◌, List, OnOk, IfErr};
ghost use Rattle.ci_io.specs.CallLists.{Call};
ghost use Rattle.ci_io.specs.MadeCalls.{AreMade, ArePut};
ghost use Rattle.ci_calls.specs.Called.{FinishesBy, PutsText, writes_of};
ghost use Rattle.ci_calls.specs.Finishing.{AreWritten, Finishes, changed};
ghost use Rattle.ci_calls.specs.private.Finish.{AreNotWritten, AreUnwritten, IsNotWritten, IsUnwrittenFile, IsTextPut};

use crate::refusals::{Refusal, put_fault, refuse_memory, refuse_put};
use crate::success::{Success, Written};
use ci_io::{Shelf, ShelfErr, Sink, SinkErr};
use std::alloc::{AllocError, Global};

/// The status of success.
const SUCCESS: u8 = 0;

/// Why a file was not written.
#[derive(Drop)]
pub enum WriteErr<'a> {
    /// The write failed: the refusal, and its fault line.
    Fault { refusal: Refusal<'a>, line: String },
    /// Memory ran out, and this file did not change.
    NoMemory,
}

impl<'a> From<AllocError> for WriteErr<'a> {
    ghost use Rattle.std.specs.Prelude.{◌≡◌};
    ghost use Rattle.ci_calls.specs.declared.finishing.WriteErr.TheVariants.{NoMemory};

    ghost from_gives = { λ _ error. error ≡ NoMemory };

    fn from(_: AllocError) -> WriteErr<'a> {
        WriteErr::NoMemory
    }
}

/// Writes what a success writes, then puts its text, and answers the status: 0 where all was done.
///
/// # Errors
///
/// With any other status the call ends early, and a fault line is put; what came before stays done. 3: a write failed,
/// and then the name of its file holds any bytes or nothing; or the put of the text failed, and then only a front of it
/// was taken. 12: memory ran out for a write, and then its file did not change; or for the put, and then nothing of the
/// text was taken.
pub fn finish<F: Shelf, O: Sink>(
    alloc: Global,
    success: &Success<'_>,
    shelf: &mut F,
    out: &mut O,
) -> u8
    ensures finished { Finishes (changed F.read_may_fail F.write_may_fail
        (F.state shelf.old) (F.state shelf.new) (O.state out.old) (O.state out.new))
        success.now result }
    ensures no_read { (F.state shelf.new).read_faults ≡ (F.state shelf.old).read_faults }
    ensures called { (calls : List Call) × (puts : List Call)
        × AreMade F.read_may_fail F.write_may_fail (F.state shelf.old) (F.state shelf.new) calls
        × ArePut (O.state out.old) (O.state out.new) puts × FinishesBy success.now calls puts result }
{
    match write_files(alloc, success.writes.as_slice(), shelf) {
        Ok(()) => put_success(success.text.as_slice(), out),
        Err(WriteErr::Fault { refusal, line }) => put_fault(&refusal, line.as_str(), out),
        Err(WriteErr::NoMemory) => refuse_memory(out),
    }
}

/// Writes the files, in order, up to the first that can't be written.
fn write_files<'a, F: Shelf>(
    alloc: Global,
    writes: &[Written<'a>],
    shelf: &mut F,
) -> Result<(), WriteErr<'a>>
    ensures written { OnOk result (AreWritten (F.state shelf.old) (F.state shelf.new) writes.now) }
    ensures none { writes.now ≡ []
        → (F.state shelf.new).write_faults ≡ (F.state shelf.old).write_faults }
    ensures unwritten { IfErr result
        (AreUnwritten F.write_may_fail writes.now (F.state shelf.old) (F.state shelf.new)) }
    ensures no_read { (F.state shelf.new).read_faults ≡ (F.state shelf.old).read_faults }
    ensures called { OnOk result (AreMade F.read_may_fail F.write_may_fail (F.state shelf.old) (F.state shelf.new)
        (writes_of writes.now)) }
    ensures not_all { IfErr result (λ error. (calls : List Call)
        × AreMade F.read_may_fail F.write_may_fail (F.state shelf.old) (F.state shelf.new) calls
        × AreNotWritten writes.now calls error) }
{
    for file in writes {
        write_file(alloc, file, shelf)?;
    }
    Ok(())
}

/// Writes the file. Its fault line is made before, so that memory doesn't run out after a failed write.
fn write_file<'a, F: Shelf>(
    alloc: Global,
    file: &Written<'a>,
    shelf: &mut F,
) -> Result<(), WriteErr<'a>>
    ensures written { OnOk result (AreWritten (F.state shelf.old) (F.state shelf.new) (file.now ∷ [])) }
    ensures unwritten { IfErr result
        (IsUnwrittenFile F.write_may_fail file.now (F.state shelf.old) (F.state shelf.new)) }
    ensures no_read { (F.state shelf.new).read_faults ≡ (F.state shelf.old).read_faults }
    ensures never_falls { (F.state shelf.old).write_faults ≤ (F.state shelf.new).write_faults }
    ensures called { OnOk result (AreMade F.read_may_fail F.write_may_fail (F.state shelf.old) (F.state shelf.new)
        (writes_of (file.now ∷ []))) }
    ensures not_written { IfErr result (λ error. (calls : List Call)
        × AreMade F.read_may_fail F.write_may_fail (F.state shelf.old) (F.state shelf.new) calls
        × IsNotWritten file.now calls error) }
{
    let refusal = Refusal::Write(file.name);
    let line = refusal.line(alloc)?;
    match shelf.write(alloc, file.name, file.bytes.as_slice()) {
        Ok(()) => Ok(()),
        Err(ShelfErr::Fault) => Err(WriteErr::Fault { refusal, line }),
        Err(ShelfErr::NoMemory) => Err(WriteErr::NoMemory),
        // These never come from a write.
        Err(ShelfErr::Absent) => Err(WriteErr::NoMemory),
        Err(ShelfErr::TooLarge) => Err(WriteErr::NoMemory),
    }
}

/// Puts the text of success, unless it is empty, and answers the status.
fn put_success<O: Sink>(text: &[u8], out: &mut O) -> u8
    ensures text_put { IsTextPut text.now (O.state out.old) (O.state out.new) result }
    ensures called { (puts : List Call)
        × ArePut (O.state out.old) (O.state out.new) puts × PutsText text.now puts result }
{
    if text.is_empty() {
        return SUCCESS;
    }
    match out.put(text) {
        Ok(()) => SUCCESS,
        Err(SinkErr::Fault) => refuse_put(out),
        Err(SinkErr::NoMemory) => refuse_memory(out),
    }
}
