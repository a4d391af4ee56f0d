//! Spans of addresses, found by halving.
#![tactic(auto, unfolding(crate::specs::Spans::HasRising))]

ghost use Rattle.std.specs.Prelude.{◌≡◌, ℕ, ◌+◌, ◌-◌, ◌/◌, ◌^◌, ◌<◌, ◌≤◌, true, false, IfOk, IfErr, OnOk, ◌||◌};
ghost use Rattle.std.specs.Prelude.{max, [], length};
ghost use Rattle.ci_machine.specs.Spans.{HasRising, HasRising-prop, in_spans, lies_at, pages_met, span_at};
ghost use Rattle.ci_machine.specs.Programs.{lies_in};

use crate::pages::{PAGE, Pages};
use std::alloc::{AllocError, Global};

/// The addresses from one up to another.
#[derive(Clone, Copy)]
pub(crate) struct Span {
    pub(crate) start: u32,
    pub(crate) end: u32,
}

/// Spans of addresses that rise.
#[derive(Drop)]
pub(crate) struct Spans {
    pub(crate) spans: Vec<Span>,
    ghost rising: { HasRising spans.items } by { HasRising-prop spans.items },
}

impl Spans {
    ghost use Rattle.std.specs.Prelude.{◌≡◌, ℕ, ◌+◌};
    ghost use Rattle.ci_machine.specs.Pages.{content, has, room};

    /// No spans.
    pub(crate) fn new(alloc: Global) -> Spans
        ensures { result.spans.items ≡ [] }
    {
        Spans {
            spans: Vec::new(alloc),
        }
    }

    /// Where a span that begins at the address stands, or would go.
    fn search(&self, address: u32) -> Result<usize, usize>
        ensures found { IfOk result (λ i. (i < length self.now.spans.items)
            × ((span_at self.now.spans.items i).start ≡ address)) }
        ensures within { IfErr result (λ i. i ≤ length self.now.spans.items) }
        ensures smaller { IfErr result (λ i. (k : ℕ) → k < i → (span_at self.now.spans.items k).start < address) }
        ensures greater { IfErr result (λ i. (k : ℕ) → i ≤ k → k < length self.now.spans.items
            → address < (span_at self.now.spans.items k).start) }
    {
        self.spans.binary_search_by_key(&address, |span| span.start)
    }

    /// Puts in a span that has an address, and none that is in another.
    pub(crate) fn insert(&mut self, span: Span) -> Result<(), AllocError>
        requires filled { span.start < span.end }
        requires apart { (address : ℕ) → lies_in span.start span.end address ≡ true
            → in_spans self.old.spans.items address ≡ false }
        ensures { OnOk result ((address : ℕ) → in_spans self.new.spans.items address
            ≡ (lies_in span.start span.end address || in_spans self.old.spans.items address)) }
    {
        match self.search(span.start) {
            Ok(_) => unreachable!(),
            Err(place) => Ok(self.spans.insert(place, span)?),
        }
    }

    /// How many addresses from one on lie in the span that holds it: none where no span does.
    pub(crate) fn left(&self, address: u32) -> u32
        ensures inside { (k : ℕ) → k < result → in_spans self.now.spans.items (address + k) ≡ true }
        ensures none { result ≡ 0 → in_spans self.now.spans.items address ≡ false }
        ensures fits { address + result < 2 ^ 32 }
    {
        match self.search(address) {
            Ok(place) => self.left_at(place, address),
            Err(0) => 0,
            Err(next) => self.left_at(next - 1, address),
        }
    }

    /// The span that holds the address, if one does; else another, or none.
    pub(crate) fn around(&self, address: u32) -> Span
        ensures { (x : ℕ) → lies_in result.start result.end x ≡ true → in_spans self.now.spans.items x ≡ true }
    {
        match self.search(address) {
            Ok(place) => self.spans[place],
            Err(0) => Span { start: 0, end: 0 },
            Err(next) => self.spans[next - 1],
        }
    }

    /// How many addresses from one on lie in the span that stands there.
    fn left_at(&self, place: usize, address: u32) -> u32
        ensures inside { (k : ℕ) → k < result → in_spans self.now.spans.items (address + k) ≡ true }
        ensures none { result ≡ 0 → place < length self.now.spans.items
            → lies_at self.now.spans.items place address ≡ false }
        ensures fits { address + result < 2 ^ 32 }
    {
        if place >= self.spans.len() {
            return 0;
        }
        let span = self.spans[place];
        if span.start <= address && address < span.end {
            span.end - address
        } else {
            0
        }
    }

    /// How many pages the spans meet.
    pub(crate) fn page_count(&self) -> u32
        ensures value { result ≡ pages_met self.now.spans.items 0 }
        ensures bounded { result ≤ 1048576 }
    {
        let mut count = 0;
        let mut next = 0;
        for span in &self.spans {
            let end = page_end(*span);
            count += end.saturating_sub(next.max(span.start / PAGE));
            next = next.max(end);
        }
        count
    }

    /// Adds the pages that the spans meet.
    pub(crate) fn add_pages(&self, pages: &mut Pages)
        requires { pages_met self.now.spans.items 0 ≤ room pages.old }
        ensures content { content pages.new ≡ content pages.old }
        ensures there { (address : ℕ) → in_spans self.now.spans.items address ≡ true
            → has pages.new (address / 4096) ≡ true }
        ensures room { room pages.old ≤ room pages.new + pages_met self.now.spans.items 0 }
    {
        let mut next = 0;
        for span in &self.spans {
            let end = page_end(*span);
            let from = next.max(span.start / PAGE);
            pages.add_all(from, end);
            next = next.max(end);
        }
    }
}

/// The number behind that of the last page that a span meets.
fn page_end(span: Span) -> u32
    ensures value { result ≡ (span.end - 1) / 4096 + 1 }
    ensures bounded { result ≤ 1048576 }
{
    span.end.saturating_sub(1) / PAGE + 1
}
