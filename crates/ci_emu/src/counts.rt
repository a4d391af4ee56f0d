//! Counts of steps by the address at which they began.
ghost use Rattle.std.specs.Prelude.{◌≡◌, Some, ◌+◌, ◌-◌, ◌*◌, ◌/◌, ◌%◌, ◌<◌, ◌≤◌, ◌^◌, true, length, IfOk, IfSome, slice_index, slice_set};
ghost use Rattle.ci_elf.specs.WordPlaces.{word_count, word_place};
ghost use Rattle.ci_emu.specs.Alignment.{are_aligned};

use ci_elf::{Places, Range};
use std::alloc::{AllocError, Global};

/// The range of a text that had the address that was looked up last, and the place of its first word.
#[derive(Drop)]
pub(crate) struct Nearby {
    range: Range,
    first: usize,
    /// The numbers of the ranges to try first for other addresses, by their slots. Each may be wrong, and there are none
    /// before the first look-up, or where memory runs out.
    hints: Vec<u32>,
}

impl Nearby {
    ghost use Rattle.std.specs.Prelude.{List};
    ghost use Rattle.ci_elf.specs.declared.ranges.Range.{Range as TextRange};
    ghost use Rattle.ci_elf.specs.Executables.{has_byte};
    ghost use Rattle.ci_emu.specs.private.PlacedRanges.{ArePlaced};

    /// A range without words, before any of a text is near.
    pub(crate) fn new(alloc: Global) -> Nearby
        ensures { (ranges : List TextRange) → ArePlaced ranges result }
    {
        Nearby {
            range: Range { start: 0, words: 0 },
            first: 0,
            hints: Vec::new(alloc),
        }
    }

    /// Where the hint for the address stands, by a hash: addresses of ranges that lie close together have slots that lie
    /// far apart.
    fn slot(&self, address: u32) -> usize {
        let hash = (address / 4).wrapping_mul(0x9E37_79B1);
        (u64::from(hash).wrapping_mul(self.hints.len() as u64) >> 32) as usize
    }

    /// The number of the range to try first for the address.
    fn hint(&self, address: u32) -> usize {
        match self.hints.get(self.slot(address)) {
            Some(number) => *number as usize,
            None => 0,
        }
    }

    /// Lets the range of the text be tried first for the address.
    fn remember(&mut self, text: &[Range], address: u32, number: usize)
        ensures range { self.new.range ≡ self.old.range }
        ensures first { self.new.first ≡ self.old.first }
    {
        if self.hints.is_empty() && self.hints.resize(2 * text.len() + 1, 0).is_err() {
            return;
        }
        let slot = self.slot(address);
        if let Some(hint) = self.hints.get_mut(slot) {
            *hint = u32::try_from(number).unwrap_or(0);
        }
    }

    /// The number of the word at the address among those of the range; `None` where the address lies outside it, or is
    /// no multiple of four.
    ///
    /// That is how far the address lies behind the start, turned by two bits: an address before the range is far behind
    /// it by the wrap, and low bits go to the top, so that either makes a number past all words, which one comparison
    /// tells.
    #[inline(always)]
    fn word(&self, address: u32) -> Option<usize>
        requires fits { self.now.range.start + 4 * self.now.range.words ≤ 2 ^ 32 }
        requires on_words { self.now.range.start % 4 ≡ 0 }
        ensures within { IfSome result (λ number. has_byte self.now.range address ≡ true) }
        ensures aligned { IfSome result (λ number. address % 4 ≡ 0) }
        ensures number { IfSome result (λ number. number ≡ (address - self.now.range.start) / 4) }
    {
        let past = address.wrapping_sub(self.range.start);
        let number = past / 4 + past % 4 * 0x4000_0000;
        if number < self.range.words {
            return Some(number as usize);
        }
        None
    }

    /// Whether the byte at the address is one of the range's.
    fn has(&self, address: u32) -> bool
        ensures { result ≡ has_byte self.now.range address }
    {
        self.range.start <= address && (address - self.range.start) / 4 < self.range.words
    }
}

/// Whether the words of the range begin at multiples of four, and none of them ends past the last address.
fn has_aligned_words(range: Range) -> bool
    ensures aligned { result ≡ true → range.start % 4 ≡ 0 }
    ensures fits { result ≡ true → range.start + 4 * range.words ≤ 2 ^ 32 }
{
    range.start % 4 == 0 && u64::from(range.start) + 4 * u64::from(range.words) <= 0x1_0000_0000
}

/// How many steps began at each word of the text.
#[derive(Drop)]
pub(crate) struct Counts {
    places: Places,
    /// One number for each word, one range behind the other.
    by_place: Vec<u64>,
    /// Whether each range begins at a multiple of four, so that the bytes of a word are text.
    aligned: bool,
    ghost whole: { length by_place.items ≡ word_count places },
    ghost lie: { aligned ≡ are_aligned places },
}

/// Whether each range begins at a multiple of four.
fn are_aligned(text: &[Range]) -> bool
    ensures { result ≡ are_aligned text.now }
{
    text.iter().all(|range| range.start % 4 == 0)
}

impl Counts {
    ghost use Rattle.std.specs.Prelude.{ℕ};
    ghost use Rattle.ci_elf.specs.Executables.{IsAscending};
    ghost use Rattle.ci_emu.specs.private.PlacedRanges.{ArePlaced};
    ghost use Rattle.ci_emu.specs.Profiles.{count_at};

    /// No steps yet.
    pub(crate) fn new(alloc: Global, text: &[Range]) -> Result<Counts, AllocError>
        requires { IsAscending text.now }
        ensures text { IfOk result (λ counts. counts.places ≡ text.now) }
        ensures none { IfOk result (λ counts. (address : ℕ) → count_at counts address ≡ 0) }
    {
        let places = Places::new(alloc, text)?;
        let by_place = vec![in alloc; 0; places.len()]?;
        let aligned = are_aligned(text);
        Ok(Counts {
            places,
            by_place,
            aligned,
        })
    }

    /// How many places there are.
    pub(crate) fn len(&self) -> usize
        ensures { result ≡ length self.now.by_place.items }
    {
        self.by_place.len()
    }

    /// Whether each range of the text begins at a multiple of four.
    pub(crate) fn are_aligned(&self) -> bool
        ensures { result ≡ are_aligned self.now.places }
    {
        self.aligned
    }

    /// The place of the word at the address, where that is a multiple of four in the range that is near.
    #[inline(always)]
    pub(crate) fn at_hand(&self, nearby: &Nearby, address: u32) -> Option<usize>
        requires { ArePlaced self.now.places nearby.now }
        ensures value { IfSome result (λ place. word_place self.now.places address ≡ Some place) }
        ensures within { IfSome result (λ place. place < length self.now.by_place.items) }
    {
        let number = nearby.word(address)?;
        Some(nearby.first + number)
    }

    /// Whether the word at the address lies in another range than in the one that is near; that range is near then.
    pub(crate) fn come_near(&self, nearby: &mut Nearby, address: u32) -> bool
        requires { ArePlaced self.now.places nearby.old }
        ensures { ArePlaced self.now.places nearby.new }
    {
        !nearby.has(address) && self.look_up(nearby, address).is_some()
    }

    /// The place of the word at the address, where that is a multiple of four in the text. Where `nearby` has no such
    /// word, and another range has it, `nearby` is then that one.
    #[inline(always)]
    pub(crate) fn place(&self, nearby: &mut Nearby, address: u32) -> Option<usize>
        requires { ArePlaced self.now.places nearby.old }
        ensures value { result ≡ word_place self.now.places address }
        ensures within { IfSome result (λ place. place < length self.now.by_place.items) }
        ensures nearby { ArePlaced self.now.places nearby.new }
    {
        if address % 4 != 0 {
            return None;
        }
        if nearby.has(address) {
            return Some(nearby.first + ((address - nearby.range.start) / 4) as usize);
        }
        self.look_up(nearby, address)
    }

    /// The same, by the range that has the address, which is tried first for it from then on. That range is near then,
    /// where its words begin at multiples of four.
    #[cold]
    #[inline(never)]
    fn look_up(&self, nearby: &mut Nearby, address: u32) -> Option<usize>
        requires { ArePlaced self.now.places nearby.old }
        ensures value { result ≡ word_place self.now.places address }
        ensures within { IfSome result (λ place. place < length self.now.by_place.items) }
        ensures nearby { ArePlaced self.now.places nearby.new }
    {
        let mut index = nearby.hint(address);
        let place = self.places.near(&mut index, address)?;
        let text = self.places.ranges();
        nearby.remember(text, address, index);
        let range = text[index];
        let past = ((address - range.start) / 4) as usize;
        if has_aligned_words(range) {
            nearby.range = range;
            nearby.first = place - past;
        }
        Some(place)
    }

    /// Counts a step that begins at the word of this place.
    pub(crate) fn add(&mut self, place: usize)
        requires within { place < length self.old.by_place.items }
        requires room { slice_index self.old.by_place.items place < 2 ^ 32 }
        ensures places { self.new.places ≡ self.old.places }
        ensures counted { self.new.by_place.items
            ≡ slice_set self.old.by_place.items place (slice_index self.old.by_place.items place + 1) }
        ensures many { length self.new.by_place.items ≡ length self.old.by_place.items }
    {
        self.by_place[place] += 1;
    }

    /// How many steps began at the word at the address.
    #[tactic(auto, unfolding(crate::specs::Profiles::count_at))]
    pub(crate) fn at(&self, address: u32) -> u64
        ensures { result ≡ count_at self.now address }
    {
        match self.places.of(address) {
            Some(place) => self.by_place[place],
            None => 0,
        }
    }
}
