//! What holds of words and of instructions in a row. The functions do nothing; their contracts are the laws.
ghost use Rattle.ci_isa.specs.Laws.{WellFormedWhereFieldsFit, TablesAgree, OneInsnAtEachWord};
ghost use Rattle.ci_isa.specs.Laws.{ReadTestsAreSets, WriteTestsAreSets, LatestWriterIsLast};

/// Some word stands for an instruction exactly where its fields are within their bounds (RISC-V Unprivileged ISA
/// 20191213, sections 2.2 and 2.3).
pub fn well_formed_where_fields_fit()
    ensures { WellFormedWhereFieldsFit }
{}

/// Both tables say the same of each word without a custom opcode.
pub fn tables_agree()
    ensures { TablesAgree }
{}

/// By each table one instruction stands at a word, and one alone.
pub fn one_insn_at_each_word()
    ensures { OneInsnAtEachWord }
{}

/// The tests of one register find what the sets of registers have, of what an instruction reads and of what it writes.
pub fn register_tests_are_sets()
    ensures read { ReadTestsAreSets }
    ensures written { WriteTestsAreSets }
{}

/// The latest writer of a register before a place is the last instruction there that writes it.
pub fn latest_writer_is_last()
    ensures { LatestWriterIsLast }
{}
