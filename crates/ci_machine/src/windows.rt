//! Windows: mapped bytes side by side, all on one page, in which the accesses of a program are made at once.

ghost use Rattle.std.specs.Prelude.{◌≡◌, ◌+◌, ◌-◌, ◌≤◌, true, max, min};

use crate::pages::PAGE;
use crate::spans::Span;

/// How many windows there are. Pages whose numbers are so far apart share one.
pub(crate) const WINDOWS: usize = 256;

/// The addresses from one up to another, and where the number of their page stands in the table.
#[derive(Clone, Copy)]
pub(crate) struct Window {
    pub(crate) start: u32,
    pub(crate) end: u32,
    pub(crate) place: usize,
}

impl Window {
    /// The window without an address.
    pub(crate) fn none() -> Window
        ensures { result ≡ record { start = 0; end = 0; place = 0 } }
    {
        Window {
            start: 0,
            end: 0,
            place: 0,
        }
    }

    /// The part of a span that lies on the page that begins there.
    pub(crate) fn of(span: Span, page_start: u32, place: usize) -> Window
        ensures { result ≡ record {
          start = max span.start page_start;
          end = page_start + min (span.end - page_start) 4096;
          place = place;
        } }
    {
        Window {
            start: span.start.max(page_start),
            end: page_start + span.end.saturating_sub(page_start).min(PAGE),
            place,
        }
    }

    /// Whether it has so many addresses from one on.
    #[inline(always)]
    pub(crate) fn holds(self, address: u32, size: u32) -> bool
        ensures from { result ≡ true → self.start ≤ address }
        ensures to { result ≡ true → address + size ≤ self.end }
    {
        self.start <= address && u64::from(address) + u64::from(size) <= u64::from(self.end)
    }
}
