//! A sink of output bytes.
ghost use Rattle.std.specs.Prelude.{◌≡◌, ◌≢◌, ℕ, ◌≤◌, ◌++◌, [], ◌∷◌, take, Err, OnOk, IsErrOf};
ghost use Rattle.std.specs.Option.{option_map};
ghost use Rattle.ci_io.specs.CallLists.{put as made_put};
ghost use Rattle.ci_io.specs.Outcomes.{SinkState, Rises};

/// Why a sink did not take all bytes.
#[derive(Clone, Copy, Debug, PartialEq, Eq)]
pub enum SinkErr {
    /// Writing failed, and the sink's count of such faults rose.
    Fault,
    /// Memory ran out.
    NoMemory,
}

/// Takes bytes one after the other, and counts its faults.
///
/// A sink may tell the bytes that it took, as one in memory does. Of standard output nothing is known.
pub trait Sink {
    /// The bytes taken so far, where the sink tells them, how many puts failed, how many ran out of memory, and the
    /// calls so far.
    ghost state: { Self → SinkState };

    /// Takes all the bytes.
    ///
    /// # Errors
    ///
    /// `Fault` where writing failed, and then only the first of the bytes, some or none, were taken; `NoMemory`, and
    /// then none was.
    fn put(&mut self, bytes: &[u8]) -> Result<(), SinkErr>
        // The calls grow by this one, with its outcome.
        ensures called { (state self.new).calls ≡ (state self.old).calls ++ made_put bytes.now result ∷ [] }
        ensures ok { OnOk result ((state self.new).taken
            ≡ option_map (λ before. before ++ bytes.now) (state self.old).taken) }
        ensures fault { IsErrOf result SinkErr.Fault → (n : ℕ)
            × ((state self.new).taken ≡ option_map (λ before. before ++ take n bytes.now) (state self.old).taken) }
        ensures no_memory { IsErrOf result SinkErr.NoMemory → (state self.new).taken ≡ (state self.old).taken }
        ensures fault_counted { IsErrOf result SinkErr.Fault → Rises (state self.old).faults (state self.new).faults }
        ensures no_memory_counted { IsErrOf result SinkErr.NoMemory
            → Rises (state self.old).memory_faults (state self.new).memory_faults }
        ensures others_not_counted { result ≢ Err SinkErr.NoMemory
            → (state self.new).memory_faults ≡ (state self.old).memory_faults }
        ensures never_falls { (state self.old).faults ≤ (state self.new).faults }
        ensures memory_never_falls { (state self.old).memory_faults ≤ (state self.new).memory_faults };
}
