//! A shelf of files.
ghost use Rattle.std.specs.Prelude.{◌≡◌, ◌≢◌, ℕ, ◌≤◌, Bool, IsTrue, List, Option, None, Some, IfSome, IfOk, OnOk};
ghost use Rattle.std.specs.Prelude.{OnErr, IsErrOf, vec_len, [], ◌∷◌, ◌++◌};
ghost use Rattle.std.specs.Option.{option_map};
ghost use Rattle.ci_io.specs.Outcomes.{ShelfState, Rises, with_file};
ghost use Rattle.ci_io.specs.CallLists.{read as made_read, write as made_write, answer_of};
ghost use Rattle.ci_io.specs.Reads.{IsReadOf};

use std::alloc::Global;

/// Why a shelf did not do what it was asked.
#[derive(Clone, Copy, Debug, PartialEq, Eq)]
pub enum ShelfErr {
    /// No file has the name. Only a shelf that tells its files answers so.
    Absent,
    /// Reading or writing failed, and the shelf's count of such faults rose.
    Fault,
    /// The file is longer than the limit.
    TooLarge,
    /// Memory ran out.
    NoMemory,
}

/// Files by name, two counts of faults, of reads and of writes, and the calls that were made.
///
/// A shelf may tell its files, as one in memory does. Of one over real files only the calls are known: what was asked,
/// and what was answered.
pub trait Shelf {
    /// The files by name, where the shelf tells them, how many reads and how many writes failed, and the calls so far.
    ghost state: { Self → ShelfState };

    /// Whether reading the file of a name may fail.
    ghost read_may_fail: { List ℕ → Bool };

    /// Whether writing the file of a name may fail.
    ghost write_may_fail: { List ℕ → Bool };

    /// Reads the whole file of a name. No file changes.
    ///
    /// # Errors
    ///
    /// `Absent` where the shelf tells its files and none has the name; `TooLarge` where the file has more than `limit`
    /// bytes; `Fault` where reading failed; `NoMemory`.
    fn read(&mut self, alloc: Global, name: &str, limit: u64) -> Result<Vec<u8>, ShelfErr>
        // The calls grow by this one, with its answer.
        ensures called { (state self.new).calls
            ≡ (state self.old).calls ++ made_read name.now limit (answer_of result) ∷ [] }
        // Where the shelf tells its files, the answer is that of the name's file.
        ensures of_the_file { IfSome (state self.old).files (λ held. IsReadOf held name.now limit (answer_of result)) }
        ensures within_limit { IfOk result (λ bytes. vec_len bytes ≤ limit) }
        ensures absent_where_told { IsErrOf result ShelfErr.Absent → (state self.old).files ≢ None }
        ensures fault_where_it_may { IsErrOf result ShelfErr.Fault → IsTrue (read_may_fail name.now) }
        ensures fault_counted { IsErrOf result ShelfErr.Fault
            → Rises (state self.old).read_faults (state self.new).read_faults }
        ensures absent_not_counted { IsErrOf result ShelfErr.Absent
            → (state self.new).read_faults ≡ (state self.old).read_faults }
        ensures never_falls { (state self.old).read_faults ≤ (state self.new).read_faults }
        ensures files_stay { (state self.new).files ≡ (state self.old).files }
        ensures writes_stay { (state self.new).write_faults ≡ (state self.old).write_faults };

    /// Makes the name hold exactly these bytes. All other files stay, where the shelf tells its files.
    ///
    /// # Errors
    ///
    /// `Fault` where writing failed, and then the name holds any bytes or nothing; `NoMemory`, and then no file
    /// changed. No other error comes.
    fn write(&mut self, alloc: Global, name: &str, bytes: &[u8]) -> Result<(), ShelfErr>
        // The calls grow by this one, with its outcome.
        ensures called { (state self.new).calls
            ≡ (state self.old).calls ++ made_write name.now bytes.now result ∷ [] }
        ensures ok { OnOk result ((state self.new).files
            ≡ option_map (with_file name.now (Some bytes.now)) (state self.old).files) }
        ensures fault { IsErrOf result ShelfErr.Fault → (content : Option (List ℕ))
            × ((state self.new).files ≡ option_map (with_file name.now content) (state self.old).files) }
        ensures no_memory { IsErrOf result ShelfErr.NoMemory → (state self.new).files ≡ (state self.old).files }
        ensures never_absent { result ≢ Err ShelfErr.Absent }
        ensures never_too_large { result ≢ Err ShelfErr.TooLarge }
        ensures fault_where_it_may { IsErrOf result ShelfErr.Fault → IsTrue (write_may_fail name.now) }
        ensures fault_counted { IsErrOf result ShelfErr.Fault
            → Rises (state self.old).write_faults (state self.new).write_faults }
        ensures never_falls { (state self.old).write_faults ≤ (state self.new).write_faults }
        ensures reads_stay { (state self.new).read_faults ≡ (state self.old).read_faults };
}
