//! Laws of assembler text. Nothing happens when they run.
ghost use Rattle.std.specs.Prelude.{◌≡◌, ◌⊎◌, ℕ, List};
ghost use Rattle.ci_asm.specs.Assembly.{IsAssembly, HasFault};

/// A text is the assembly of one list of words at most.
pub fn a_text_has_one_assembly()
    ensures { (text words others : List ℕ) → IsAssembly text words → IsAssembly text others
        → words ≡ others }
{}

/// No text that is the assembly of some words has a fault.
pub fn an_assembly_has_no_fault()
    ensures { (text words : List ℕ) (kind line column : ℕ) → IsAssembly text words
        → ¬ HasFault text kind line column }
{}

/// A text has one fault at most.
pub fn a_text_has_one_fault()
    ensures { (text : List ℕ) (kind line column other row place : ℕ)
        → HasFault text kind line column → HasFault text other row place
        → (kind ≡ other) × (line ≡ row) × (column ≡ place) }
{}

/// A text is the assembly of some words, or has a fault.
pub fn a_text_has_words_or_a_fault()
    ensures { (text : List ℕ) → ((words : List ℕ) × IsAssembly text words)
        ⊎ ((kind : ℕ) × (line : ℕ) × (column : ℕ) × HasFault text kind line column) }
{}
