//! Why a call of the program is refused, and the fault lines that say it.
ghost use Rattle.std.specs.Prelude.{◌≡◌, IfOk};
ghost use Rattle.std.specs.String.{string_bytes};
ghost use Rattle.std.specs.Prelude.{List};
ghost use Rattle.ci_io.specs.CallLists.{Call};
ghost use Rattle.ci_io.specs.MadeCalls.{ArePut};
ghost use Rattle.ci_calls.specs.Called.{IsLinePut, IsBytesPut, PutsRefusal};
ghost use Rattle.ci_calls.specs.Finishing.{IsPut};
ghost use Rattle.ci_calls.specs.RefusedCalls.{IsRefused};
ghost use Rattle.ci_calls.specs.Refusals.{elf_fault_numbers, elf_text, line_of, log_fault_numbers, log_text};
ghost use Rattle.ci_calls.specs.Refusals.{numbers_text, pair_text, rejected_text, status_of, table_text, text_of};
ghost use Rattle.ci_calls.specs.Refusals.{many_text, words_text};

use ci_asm::AsmFault;
use ci_elf::ElfFault;
use ci_io::Sink;
use ci_lat::LatFault;
use ci_log::LogFault;
use ci_netlist::GateFault;
use ci_reading::push_word;
use ci_vread::VFault;
use std::alloc::{AllocError, AllocFailed, Global};

/// Why a call ends with another status than that of success. Each has one status and one fault line.
#[derive(Drop)]
pub enum Refusal<'a> {
    /// The words have no reading.
    Usage,
    /// The file of this name isn't there, or reading it failed.
    Read(&'a str),
    /// Writing the file of this name failed.
    Write(&'a str),
    /// The sink failed to take the text of success.
    Put,
    /// The file of this name is longer than its limit.
    TooLarge(&'a str),
    /// The file is no executable.
    BadElf(ElfFault),
    /// The file is no latency table.
    BadTable(LatFault),
    /// The file isn't one that the command takes, for this word at this position.
    Unsupported {
        position: u32,
        word: u32,
    },
    /// The profiled run touches its text: the instruction at this pc, at this byte.
    TextTouched {
        pc: u32,
        address: u32,
    },
    /// The file holds no modules, by a fault of this kind at this offset in bytes.
    BadUnits {
        kind: u8,
        offset: u32,
    },
    /// The file holds no log book, by this fault.
    BadLog(LogFault),
    /// The log book, the modules or the new file aren't those of a choice: the first place that is wrong, by the cuts
    /// that were taken before, the leader of the block that is due there or 0, the item of its log or 0, and why.
    Rejected {
        round: u32,
        leader: u32,
        item: u32,
        reason: u8,
    },
    /// Memory ran out.
    NoMemory,
    /// The file holds no assembler text, by a fault of this kind at this line and column.
    BadAsm {
        kind: u8,
        line: u32,
        column: u32,
    },
    /// The modules up to the one of this number have together so many gates, more than a netlist may have; those before
    /// it don't.
    ManyGates {
        module: u32,
        gates: u64,
    },
    /// The file holds no netlists, by a fault at this offset in bytes.
    BadNets {
        offset: u32,
    },
}

impl<'a, T: Drop> From<AllocFailed<T>> for Refusal<'a> {
    ghost use Rattle.std.specs.Prelude.{◌≡◌};
    ghost use Rattle.ci_calls.specs.declared.refusals.Refusal.TheVariants.{NoMemory};

    ghost from_gives = { λ _ refusal. refusal ≡ NoMemory };

    fn from(_: AllocFailed<T>) -> Refusal<'a> {
        Refusal::NoMemory
    }
}

impl<'a> From<AllocError> for Refusal<'a> {
    ghost use Rattle.std.specs.Prelude.{◌≡◌};
    ghost use Rattle.ci_calls.specs.declared.refusals.Refusal.TheVariants.{NoMemory};

    ghost from_gives = { λ _ refusal. refusal ≡ NoMemory };

    fn from(_: AllocError) -> Refusal<'a> {
        Refusal::NoMemory
    }
}

/// A file is no executable, or memory ran out for it.
impl<'a> From<ElfFault> for Refusal<'a> {
    ghost use Rattle.std.specs.Prelude.{◌≡◌};
    ghost use Rattle.ci_calls.specs.Refused.{elf_refusal};

    ghost from_gives = { λ fault refusal. refusal ≡ elf_refusal fault };

    fn from(fault: ElfFault) -> Refusal<'a> {
        match fault {
            ElfFault::NoMemory => Refusal::NoMemory,
            _ => Refusal::BadElf(fault),
        }
    }
}

/// A file is no latency table, or memory ran out for it.
impl<'a> From<LatFault> for Refusal<'a> {
    ghost use Rattle.std.specs.Prelude.{◌≡◌};
    ghost use Rattle.ci_calls.specs.Refused.{table_refusal};

    ghost from_gives = { λ fault refusal. refusal ≡ table_refusal fault };

    fn from(fault: LatFault) -> Refusal<'a> {
        match fault {
            LatFault::NoMemory => Refusal::NoMemory,
            _ => Refusal::BadTable(fault),
        }
    }
}

/// A file holds no modules, or memory ran out for it.
impl<'a> From<VFault> for Refusal<'a> {
    ghost use Rattle.std.specs.Prelude.{◌≡◌};
    ghost use Rattle.ci_calls.specs.Refused.{units_refusal};

    ghost from_gives = { λ fault refusal. refusal ≡ units_refusal fault };

    fn from(fault: VFault) -> Refusal<'a> {
        match fault {
            VFault::Bad { kind, offset } => Refusal::BadUnits { kind, offset },
            VFault::NoMemory => Refusal::NoMemory,
        }
    }
}

/// A file holds no log book, or memory ran out for it.
impl<'a> From<LogFault> for Refusal<'a> {
    ghost use Rattle.std.specs.Prelude.{◌≡◌};
    ghost use Rattle.ci_calls.specs.Refused.{log_refusal};

    ghost from_gives = { λ fault refusal. refusal ≡ log_refusal fault };

    fn from(fault: LogFault) -> Refusal<'a> {
        match fault {
            LogFault::NoMemory => Refusal::NoMemory,
            _ => Refusal::BadLog(fault),
        }
    }
}

/// A file holds no assembler text, or memory ran out for it.
impl<'a> From<AsmFault> for Refusal<'a> {
    ghost use Rattle.std.specs.Prelude.{◌≡◌};
    ghost use Rattle.ci_calls.specs.Refused.{asm_refusal};

    ghost from_gives = { λ fault refusal. refusal ≡ asm_refusal fault };

    fn from(fault: AsmFault) -> Refusal<'a> {
        match fault {
            AsmFault::Bad { kind, line, column } => Refusal::BadAsm { kind, line, column },
            AsmFault::NoMemory => Refusal::NoMemory,
        }
    }
}

/// A file holds no netlists, or memory ran out for it.
impl<'a> From<GateFault> for Refusal<'a> {
    ghost use Rattle.std.specs.Prelude.{◌≡◌};
    ghost use Rattle.ci_calls.specs.Refused.{nets_refusal};

    ghost from_gives = { λ fault refusal. refusal ≡ nets_refusal fault };

    fn from(fault: GateFault) -> Refusal<'a> {
        match fault {
            GateFault::Bad(offset) => Refusal::BadNets { offset },
            GateFault::NoMemory => Refusal::NoMemory,
        }
    }
}

impl<'a> Refusal<'a> {
    /// The status with which the call ends.
    pub fn status(&self) -> u8
        ensures { result ≡ status_of self.now }
    {
        match self {
            Refusal::Usage => 1,
            Refusal::Read(_) => 2,
            Refusal::Write(_) => 3,
            Refusal::Put => 3,
            Refusal::TooLarge(_) => 4,
            Refusal::BadElf(_) => 5,
            Refusal::BadTable(_) => 6,
            Refusal::Unsupported { .. } => 7,
            Refusal::TextTouched { .. } => 8,
            Refusal::BadUnits { .. } => 9,
            Refusal::BadLog(_) => 10,
            Refusal::Rejected { .. } => 11,
            Refusal::NoMemory => 12,
            Refusal::BadAsm { .. } => 13,
            Refusal::ManyGates { .. } => 14,
            Refusal::BadNets { .. } => 15,
        }
    }

    /// The fault line.
    pub(crate) fn line(&self, alloc: Global) -> Result<String, AllocError>
        ensures { IfOk result (λ line. string_bytes line ≡ line_of self.now) }
    {
        let status = self.status();
        let text = self.text(alloc)?;
        format!(in alloc; "fault {status} {text}\n")
    }

    /// What stands in the fault line behind the status.
    fn text(&self, alloc: Global) -> Result<String, AllocError>
        ensures { IfOk result (λ text. string_bytes text ≡ text_of self.now) }
    {
        match self {
            Refusal::Usage => String::from_str(alloc, "usage"),
            Refusal::Read(name) => format!(in alloc; "read {name}"),
            Refusal::Write(name) => format!(in alloc; "write {name}"),
            Refusal::Put => String::from_str(alloc, "write -"),
            Refusal::TooLarge(name) => format!(in alloc; "too large {name}"),
            Refusal::BadElf(fault) => elf_text(alloc, fault),
            Refusal::BadTable(fault) => table_text(alloc, fault),
            Refusal::Unsupported { position, word } => {
                words_text(alloc, "unsupported", *position, *word)
            }
            Refusal::TextTouched { pc, address } => words_text(
                alloc,
                "text touched",
                *pc,
                *address,
            ),
            Refusal::BadUnits { kind, offset } => pair_text(alloc, "units", *kind, *offset),
            Refusal::BadLog(fault) => log_text(alloc, fault),
            Refusal::Rejected {
                round,
                leader,
                item,
                reason,
            } => rejected_text(alloc, *round, *leader, *item, *reason),
            Refusal::NoMemory => String::from_str(alloc, "no memory"),
            Refusal::BadAsm { kind, line, column } => {
                numbers_text(alloc, "asm", *kind, *line, *column)
            }
            Refusal::ManyGates { module, gates } => many_text(alloc, *module, *gates),
            Refusal::BadNets { offset } => format!(in alloc; "nets {offset}"),
        }
    }
}

/// A word and three numbers.
fn numbers_text(
    alloc: Global,
    word: &str,
    first: u8,
    second: u32,
    third: u32,
) -> Result<String, AllocError>
    ensures { IfOk result (λ text. string_bytes text ≡ numbers_text word.now first second third) }
{
    format!(in alloc; "{word} {first} {second} {third}")
}

/// That a file is no executable.
fn elf_text(alloc: Global, fault: &ElfFault) -> Result<String, AllocError>
    ensures { IfOk result (λ text. string_bytes text ≡ elf_text fault.now) }
{
    let (rule, first, second) = elf_fault_numbers(fault);
    numbers_text(alloc, "elf", rule, first, second)
}

/// The number of the rule that a file breaks, and the numbers of the fault, 0 where it has none.
fn elf_fault_numbers(fault: &ElfFault) -> (u8, u32, u32)
    ensures { result ≡ elf_fault_numbers fault.now }
{
    match fault {
        ElfFault::Short(offset) => (1, *offset, 0),
        ElfFault::NotElf => (2, 0, 0),
        ElfFault::WrongKind(offset, value) => (3, *offset, *value),
        ElfFault::BadSegment(n) => (4, *n, 0),
        ElfFault::Overlap(m, n) => (5, *m, *n),
        ElfFault::SharedText(m, n) => (6, *m, *n),
        ElfFault::BadSection(n) => (7, *n, 0),
        ElfFault::EntryNotText => (8, 0, 0),
        ElfFault::TooLarge => (9, 0, 0),
        ElfFault::NoMemory => (10, 0, 0),
    }
}

/// That a file is no latency table.
fn table_text(alloc: Global, fault: &LatFault) -> Result<String, AllocError>
    ensures { IfOk result (λ text. string_bytes text ≡ table_text fault.now) }
{
    match fault {
        LatFault::NotToml => String::from_str(alloc, "table 1"),
        LatFault::UnknownKey => String::from_str(alloc, "table 2"),
        LatFault::OutOfRange(key) => format!(in alloc; "table 3 {key}"),
        LatFault::PadTooLarge(key) => format!(in alloc; "table 4 {key}"),
        LatFault::NoMemory => String::from_str(alloc, "table 5"),
    }
}

/// The number of a fault of a log book, and its offset, 0 where it has none.
fn log_fault_numbers(fault: &LogFault) -> (u8, u32)
    ensures { result ≡ log_fault_numbers fault.now }
{
    match fault {
        LogFault::BadHeader => (1, 0),
        LogFault::BadItem(offset) => (2, *offset),
        LogFault::Unfinished => (3, 0),
        LogFault::Trailing(offset) => (4, *offset),
        LogFault::NoMemory => (5, 0),
    }
}

/// That a file holds no log book.
fn log_text(alloc: Global, fault: &LogFault) -> Result<String, AllocError>
    ensures { IfOk result (λ text. string_bytes text ≡ log_text fault.now) }
{
    let (kind, offset) = log_fault_numbers(fault);
    pair_text(alloc, "log", kind, offset)
}

/// That a book, modules or a new file aren't those of a choice.
fn rejected_text(
    alloc: Global,
    round: u32,
    leader: u32,
    item: u32,
    reason: u8,
) -> Result<String, AllocError>
    ensures { IfOk result (λ text. string_bytes text ≡ rejected_text round leader item reason) }
{
    let mut text = String::from_str(alloc, "rejected")?;
    write!(text, " {round}")?;
    push_word(&mut text, " ", leader)?;
    write!(text, " {item}")?;
    write!(text, " {reason}")?;
    Ok(text)
}

/// A word, and two words of 32 bits in hexadecimal digits.
fn words_text(alloc: Global, word: &str, first: u32, second: u32) -> Result<String, AllocError>
    ensures { IfOk result (λ text. string_bytes text ≡ words_text word.now first second) }
{
    let mut text = String::from_str(alloc, word)?;
    push_word(&mut text, " ", first)?;
    push_word(&mut text, " ", second)?;
    Ok(text)
}

/// A word and two numbers.
fn pair_text(alloc: Global, word: &str, first: u8, second: u32) -> Result<String, AllocError>
    ensures { IfOk result (λ text. string_bytes text ≡ pair_text word.now first second) }
{
    format!(in alloc; "{word} {first} {second}")
}

/// That the modules up to the one of this number have too many gates.
fn many_text(alloc: Global, number: u32, gates: u64) -> Result<String, AllocError>
    ensures { IfOk result (λ text. string_bytes text ≡ many_text number gates) }
{
    format!(in alloc; "many {number} {gates}")
}

/// Puts the fault line of a refusal, and answers its status.
///
/// # Errors
///
/// Where memory runs out for the line, that is the refusal, with its own line and status 12. Where the sink fails to
/// take the line, or all of it, the status is the same.
pub fn refuse<O: Sink>(alloc: Global, refusal: &Refusal<'_>, out: &mut O) -> u8
    ensures ended { IsRefused refusal.now result (O.state out.old) (O.state out.new) }
    ensures called { (puts : List Call)
        × ArePut (O.state out.old) (O.state out.new) puts × PutsRefusal refusal.now puts result }
{
    match refusal.line(alloc) {
        Ok(line) => put_fault(refusal, line.as_str(), out),
        Err(AllocError) => refuse_memory(out),
    }
}

/// Puts the fault line of a text of success that the sink failed to take, and answers its status. It takes no memory.
pub(crate) fn refuse_put<O: Sink>(out: &mut O) -> u8
    ensures status { result ≡ status_of Refusal.Put }
    ensures put { IsPut (O.state out.old) (O.state out.new) (line_of Refusal.Put) }
    ensures called { (puts : List Call)
        × ArePut (O.state out.old) (O.state out.new) puts × IsLinePut Refusal.Put puts }
{
    put_fault(&Refusal::Put, "fault 3 write -\n", out)
}

/// Puts the fault line where memory ran out, and answers its status. It takes no memory.
pub(crate) fn refuse_memory<O: Sink>(out: &mut O) -> u8
    ensures status { result ≡ status_of Refusal.NoMemory }
    ensures put { IsPut (O.state out.old) (O.state out.new) (line_of Refusal.NoMemory) }
    ensures called { (puts : List Call)
        × ArePut (O.state out.old) (O.state out.new) puts × IsLinePut Refusal.NoMemory puts }
{
    put_fault(&Refusal::NoMemory, "fault 12 no memory\n", out)
}

/// Puts the fault line of a refusal, which is at hand, and answers its status, also where the sink fails to take it.
pub(crate) fn put_fault<O: Sink>(refusal: &Refusal<'_>, line: &str, out: &mut O) -> u8
    ensures status { result ≡ status_of refusal.now }
    ensures put { IsPut (O.state out.old) (O.state out.new) line.now }
    ensures called { (puts : List Call)
        × ArePut (O.state out.old) (O.state out.new) puts × IsBytesPut line.now puts }
{
    let _ = out.put(line.as_bytes());
    refusal.status()
}
