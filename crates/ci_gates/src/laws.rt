//! What holds of all modules. The function does nothing; its contracts are the laws.
ghost use Rattle.ci_gates.specs.Laws.{CountExists, CountIsOne};

/// A module has a count of gates, and no other.
pub fn modules_have_counts()
    ensures some { CountExists }
    ensures one { CountIsOne }
{}
