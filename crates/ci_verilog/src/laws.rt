//! What holds of all modules. The functions do nothing; their contracts are the laws.
ghost use Rattle.ci_verilog.specs.Laws.{ValueExists, ValueIsOne, ValuesAreWords, NarrowIgnores};

/// A module has results at each list of values of its inputs, and no others; at words they are words.
pub fn modules_have_values()
    ensures some { ValueExists }
    ensures one { ValueIsOne }
    ensures words { ValuesAreWords }
    ensures narrow { NarrowIgnores }
{}
