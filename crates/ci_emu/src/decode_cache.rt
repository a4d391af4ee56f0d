//! Decoded words.
ghost use Rattle.std.specs.Prelude.{◌≡◌, ◌<◌, ◌^◌, ℕ, None, Some, IfOk, IfSome, IsTrue, MatchOption, if◌then◌else◌};
ghost use Rattle.std.specs.Prelude.{length, slice_index_or, slice_set};
ghost use Rattle.std.specs.Option.{option_map};
ghost use Rattle.ci_elf.specs.WordPlaces.{word_place};
ghost use Rattle.ci_isa.specs.Effects.{class_of};
ghost use Rattle.ci_isa.specs.Laws.{IsInsnAtX};
ghost use Rattle.ci_word.specs.declared.arithmetic.Class.TheVariants.{Free};
ghost use Rattle.ci_machine.specs.States.{program_of, state_of};
ghost use Rattle.ci_machine.specs.Steps.{Meaning, fetched};
ghost use Rattle.ci_emu.specs.Alignment.{are_aligned};
ghost use Rattle.ci_emu.specs.private.Actions.{insn_of};
ghost use Rattle.ci_emu.specs.private.Fetched.{cycles_on, IsOnlyAt};

use crate::actions::Action;
use crate::machine::Machine;
use crate::steps::fetch_word;
use ci_isa::{Insn, class, decode_x};
use ci_lat::Table;
use ci_machine::State;
use ci_word::Class;
use std::alloc::{AllocError, Global};

/// What the extended table has for a word: the instruction that it reads as, or the bare word.
pub(crate) fn reading(word: u32) -> Insn
    ensures { IsInsnAtX word result }
{
    decode_x(word).unwrap_or(Insn::Illegal { word })
}

/// A word, what it does by the extended table, and how long that takes on a machine.
#[derive(Clone, Copy)]
pub(crate) struct Decoded {
    pub(crate) word: u32,
    /// What the extended table has for it.
    pub(crate) action: Action,
    /// In cycles.
    pub(crate) latency: u32,
    /// How often the text may have changed when the word was last found in memory; 0 where it never was.
    pub(crate) seen: u64,
    ghost decoded: { IsOnlyAt word (insn_of action) },
}

/// How long the instruction takes on the machine, in cycles. A word that is none takes no time.
fn latency<M: Machine>(machine: &M, table: &Table, insn: &Insn) -> u32
    ensures { (word : ℕ) → result ≡ cycles_on (M.has_unit machine.now) (M.has_hidden machine.now)
        (M.unit_cycles machine.now) table.now word insn.now }
{
    match class(insn) {
        Class::Free => free_latency(machine, table, insn),
        class => table.latency(class),
    }
}

/// The same of an instruction whose class has no latency in the table.
fn free_latency<M: Machine>(machine: &M, table: &Table, insn: &Insn) -> u32
    requires { Free ≡ class_of insn.now }
    ensures { (word : ℕ) → result ≡ cycles_on (M.has_unit machine.now) (M.has_hidden machine.now)
        (M.unit_cycles machine.now) table.now word insn.now }
{
    match *insn {
        Insn::Illegal { .. } => 0,
        Insn::AluImm { .. } => table.pad(),
        Insn::Unit { number, .. } => machine.cycles(number),
        Insn::Cread { .. } | Insn::Cput { .. } => read_latency(machine, table),
        _ => table.latency(Class::Free),
    }
}

/// How long `cread` and `cput` take on the machine, in cycles: no time where they are not there.
fn read_latency<M: Machine>(machine: &M, table: &Table) -> u32
    ensures { result ≡ (if M.has_hidden machine.now then table.now.read else 0) }
{
    if machine.has_hidden() {
        table.read()
    } else {
        0
    }
}

impl Decoded {
    ghost use Rattle.ci_emu.specs.private.Lines.{IsTimed};

    /// What the table has for a word, and how long the machine takes for it.
    fn of<M: Machine>(machine: &M, table: &Table, word: u32) -> Decoded
        ensures word { result.word ≡ word }
        ensures timed { IsTimed (cycles_on (M.has_unit machine.now) (M.has_hidden machine.now)
            (M.unit_cycles machine.now) table.now) result }
        ensures seen { result.seen ≡ 0 }
    {
        let insn = reading(word);
        Decoded {
            word,
            action: Action::of(insn),
            latency: latency(machine, table, &insn),
            seen: 0,
        }
    }

    /// The instruction of the word.
    pub(crate) fn insn(&self) -> Insn
        ensures { result ≡ insn_of self.now.action }
    {
        reading(self.word)
    }

    /// What was decoded of the word, anew where it was of another word, and seen now.
    fn refreshed<M: Machine>(&mut self, machine: &M, table: &Table, word: u32, seen: u64) -> Decoded
        requires { IsTimed (cycles_on (M.has_unit machine.now) (M.has_hidden machine.now)
            (M.unit_cycles machine.now) table.now) self.old }
        ensures word { result.word ≡ word }
        ensures timed { IsTimed (cycles_on (M.has_unit machine.now) (M.has_hidden machine.now)
            (M.unit_cycles machine.now) table.now) result }
        ensures seen { result.seen ≡ seen }
        ensures kept { self.new ≡ result }
    {
        if self.word != word {
            *self = Decoded::of(machine, table, word);
        }
        self.seen = seen;
        *self
    }
}

/// When a word of a text is seen that may have changed so often: never, where its bytes may lie beside the text.
fn seen_at(changes: u64, aligned: bool) -> u64
    ensures { result ≡ (if aligned then changes else 0) }
{
    if aligned { changes } else { 0 }
}

/// What was decoded of the words of a text, by their places, for one machine and one table. It may be of another word
/// than the one that stands there now.
#[derive(Drop)]
pub(crate) struct DecodeCache {
    pub(crate) words: Vec<Decoded>,
}

impl DecodeCache {
    ghost use Rattle.ci_emu.specs.private.Lines.{AreKept, AreKnown, IsTimed};

    /// For so many places.
    pub(crate) fn new<M: Machine>(
        alloc: Global,
        machine: &M,
        table: &Table,
        count: usize,
    ) -> Result<DecodeCache, AllocError>
        ensures kept { IfOk result (λ cache. AreKept (cycles_on (M.has_unit machine.now) (M.has_hidden machine.now)
            (M.unit_cycles machine.now) table.now) 0 cache.words.items) }
        ensures many { IfOk result (λ cache. length cache.words.items ≡ count) }
    {
        let mut words = Vec::new(alloc);
        words.resize(count, Decoded::of(machine, table, 0))?;
        Ok(DecodeCache { words })
    }

    /// Whether the line of a place was seen since the text may have changed so often.
    #[inline(always)]
    pub(crate) fn is_known(&self, place: usize, changes: u64) -> bool
        requires { place < length self.now.words.items }
        ensures { IsTrue result → (d : Decoded) → (slice_index_or self.now.words.items place d).seen ≡ changes }
    {
        self.words[place].seen == changes
    }

    /// The instruction of the word that stands at a place, decoded anew where the cache has that of another word.
    fn get<M: Machine>(
        &mut self,
        machine: &M,
        table: &Table,
        place: usize,
        word: u32,
        seen: u64,
    ) -> Decoded
        requires { (d : Decoded) → place < length self.old.words.items
            → IsTimed (cycles_on (M.has_unit machine.now) (M.has_hidden machine.now)
            (M.unit_cycles machine.now) table.now) (slice_index_or self.old.words.items place d) }
        ensures word { result.word ≡ word }
        ensures seen { place < length self.old.words.items → result.seen ≡ seen }
        ensures timed { IsTimed (cycles_on (M.has_unit machine.now) (M.has_hidden machine.now)
            (M.unit_cycles machine.now) table.now) result }
        ensures words { self.new.words.items ≡ slice_set self.old.words.items place result }
    {
        match self.words.get_mut(place) {
            Some(decoded) => decoded.refreshed(machine, table, word, seen),
            None => Decoded::of(machine, table, word),
        }
    }

    /// The line of the word at the pc, which has this place, where one is mapped there: the word is fetched.
    #[cold]
    #[inline(never)]
    fn at<M: Machine>(
        &mut self,
        machine: &M,
        table: &Table,
        state: &State,
        place: usize,
        changes: u64,
        aligned: bool,
    ) -> Option<Decoded>
        requires place { word_place (program_of state.now).text (state_of state.now).pc ≡ Some place }
        requires within { place < length self.old.words.items }
        requires small { (state_of state.now).pc < 2 ^ 32 }
        requires aligned { aligned ≡ are_aligned (program_of state.now).text }
        requires begun { 0 < changes }
        requires kept { AreKept (cycles_on (M.has_unit machine.now) (M.has_hidden machine.now)
            (M.unit_cycles machine.now) table.now) changes self.old.words.items }
        ensures fetched { (meaning : Meaning) → fetched meaning (program_of state.now) (state_of state.now)
            ≡ option_map (λ decoded. meaning.insn decoded.word) result }
        ensures there { IfSome result (λ line. (d : Decoded) → slice_index_or self.new.words.items place d ≡ line) }
        ensures kept { AreKept (cycles_on (M.has_unit machine.now) (M.has_hidden machine.now)
            (M.unit_cycles machine.now) table.now) changes self.new.words.items }
        ensures known { (meaning : Meaning)
            → AreKnown meaning (program_of state.now) (state_of state.now).core.memory changes self.old.words.items
            → AreKnown meaning (program_of state.now) (state_of state.now).core.memory changes self.new.words.items }
        ensures many { length self.new.words.items ≡ length self.old.words.items }
    {
        let word = fetch_word(state)?;
        Some(self.get(machine, table, place, word, seen_at(changes, aligned)))
    }

    /// The place of the line of the word at the pc, which has this place, where one is mapped there. Where the line was
    /// not seen since the text changed, the word is fetched.
    #[inline(always)]
    pub(crate) fn line<M: Machine>(
        &mut self,
        machine: &M,
        table: &Table,
        state: &State,
        place: usize,
        changes: u64,
        aligned: bool,
    ) -> Option<usize>
        requires place { word_place (program_of state.now).text (state_of state.now).pc ≡ Some place }
        requires within { place < length self.old.words.items }
        requires small { (state_of state.now).pc < 2 ^ 32 }
        requires aligned { aligned ≡ are_aligned (program_of state.now).text }
        requires begun { 0 < changes }
        requires kept { AreKept (cycles_on (M.has_unit machine.now) (M.has_hidden machine.now)
            (M.unit_cycles machine.now) table.now) changes self.old.words.items }
        ensures fetched { MatchOption result
            ((meaning : Meaning) → fetched meaning (program_of state.now) (state_of state.now) ≡ None)
            (λ line. (d : Decoded) (meaning : Meaning)
            → AreKnown meaning (program_of state.now) (state_of state.now).core.memory changes self.old.words.items
            → fetched meaning (program_of state.now) (state_of state.now)
            ≡ Some (meaning.insn (slice_index_or self.new.words.items line d).word)) }
        ensures within { IfSome result (λ line. line < length self.new.words.items) }
        ensures kept { AreKept (cycles_on (M.has_unit machine.now) (M.has_hidden machine.now)
            (M.unit_cycles machine.now) table.now) changes self.new.words.items }
        ensures known { (meaning : Meaning)
            → AreKnown meaning (program_of state.now) (state_of state.now).core.memory changes self.old.words.items
            → AreKnown meaning (program_of state.now) (state_of state.now).core.memory changes self.new.words.items }
        ensures many { length self.new.words.items ≡ length self.old.words.items }
    {
        if self.is_known(place, changes) {
            return Some(place);
        }
        self.at(machine, table, state, place, changes, aligned)?;
        Some(place)
    }
}
