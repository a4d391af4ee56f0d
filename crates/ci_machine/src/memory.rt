//! Memory: pages, the spans that the segments and the stack take, and the heap.
#![tactic(auto, unfolding(crate::proofs::StateViews::layouts))]

ghost use Rattle.std.specs.Prelude.{◌≡◌, ℕ, ◌+◌, ◌-◌, ◌*◌, ◌/◌, ◌%◌, ◌^◌, ◌<◌, ◌≤◌, true, false, ◌&&◌, ◌++◌};
ghost use Rattle.std.specs.Prelude.{Some, None, IfSome, is_some};
ghost use Rattle.std.specs.Prelude.{length, List, [], ◌∷◌};
ghost use Rattle.std.specs.Prelude.{nat_le, ◌||◌, vec_capacity, vec_len};
ghost use Rattle.std.specs.Option.{option_map};
ghost use Rattle.ci_isa.specs.Effects.{width_bytes};
ghost use Rattle.ci_machine.specs.Accesses.{addresses, bytes_at, number_of_bytes, with_bytes};
ghost use Rattle.ci_elf.specs.declared.ranges.Range.{Range};
ghost use Rattle.ci_elf.specs.MemoryMap.{memory_top, stack_start, stack_end, most_memory};
ghost use Rattle.ci_machine.specs.Programs.{lies_in};
ghost use Rattle.ci_machine.specs.PageTables.{IsGap, IsPlace};
ghost use Rattle.ci_machine.specs.Windows.{HasWindows, HasWindows-prop, IsWindow};
ghost use Rattle.ci_machine.specs.Layouts.{HasLayout, HasLayout-prop, HasPages, HasPages-prop};

use crate::bytes::bytes_of;
use crate::pages::{PAGE, Pages, pages_to};
use crate::spans::{Span, Spans};
use crate::windows::{WINDOWS, Window};
use ci_elf::{MEMORY_TOP, MOST_MEMORY, STACK_END, STACK_START, Segment};
use ci_isa::Width;

/// The memory of a machine.
#[derive(Drop)]
pub(crate) struct Memory {
    pub(crate) pages: Pages,
    /// Where the segments and the stack lie.
    pub(crate) spans: Spans,
    /// Where accesses are made at once, by page number.
    pub(crate) windows: [Window; WINDOWS],
    /// The segments, in the order of the file.
    pub(crate) segments: Vec<Segment>,
    pub(crate) heap_start: u32,
    pub(crate) heap_end: u32,
    /// How many bytes the segments and the stack take.
    pub(crate) loaded: u32,
    ghost laid_out: { HasLayout spans.spans.items segments.items heap_start heap_end loaded } by { HasLayout-prop spans.spans.items segments.items heap_start heap_end loaded },
    ghost paged: { HasPages pages spans.spans.items heap_start heap_end loaded } by { HasPages-prop pages spans.spans.items heap_start heap_end loaded },
    ghost seen: { HasWindows windows pages.table.items spans.spans.items heap_start heap_end } by { HasWindows-prop windows pages.table.items spans.spans.items heap_start heap_end },
}

impl Memory {
    ghost use Rattle.ci_machine.specs.Calls.{may_end_at, range_at};
    ghost use Rattle.ci_machine.specs.Memories.{is_mapped, memory_of, program_in, segments_of, with_heap_moved};
    ghost use Rattle.ci_machine.specs.Memories.{with_number};
    ghost use Rattle.ci_machine.specs.Pages.{has};

    /// How many bytes from the address on are mapped together: none where the first is not.
    fn left(&self, address: u32) -> u32
        ensures mapped { (k : ℕ) → k < result → is_mapped self.now (address + k) ≡ true }
        ensures none { result ≡ 0 → is_mapped self.now address ≡ false }
        ensures fits { address + result < 2 ^ 32 }
    {
        if self.in_heap(address) {
            return self.heap_end - address;
        }
        self.spans.left(address)
    }

    /// Whether the byte at the address is the heap's.
    fn in_heap(&self, address: u32) -> bool
        ensures { result ≡ lies_in self.now.heap_start self.now.heap_end address }
    {
        self.heap_start <= address && address < self.heap_end
    }

    /// The byte at the address, if it is mapped.
    pub(crate) fn byte(&self, address: u32) -> Option<u8>
        ensures { result ≡ memory_of self.now address }
    {
        if self.left(address) == 0 {
            return None;
        }
        Some(self.pages.byte(address))
    }

    /// The window in which the address may lie.
    #[inline(always)]
    fn window(&self, address: u32) -> Window
        ensures { IsWindow self.now.pages.table.items (is_mapped self.now) result }
    {
        self.windows[(address / PAGE) as usize % WINDOWS]
    }

    /// Mapped addresses side by side, the address among them if it is mapped.
    fn mapped_around(&self, address: u32) -> Span
        ensures { (x : ℕ) → lies_in result.start result.end x ≡ true → is_mapped self.now x ≡ true }
    {
        if self.in_heap(address) {
            return Span {
                start: self.heap_start,
                end: self.heap_end,
            };
        }
        self.spans.around(address)
    }

    /// The mapped addresses on the page of an address, whose number stands there in the table.
    fn window_on(&self, place: usize, address: u32) -> Window
        requires { IsPlace self.now.pages.table.items (address / 4096) place }
        ensures { IsWindow self.now.pages.table.items (is_mapped self.now) result }
    {
        Window::of(self.mapped_around(address), address - address % PAGE, place)
    }

    /// The mapped addresses on the page of an address, and none where it isn't there.
    fn window_around(&self, address: u32) -> Window
        ensures { IsWindow self.now.pages.table.items (is_mapped self.now) result }
    {
        match self.pages.find(address / PAGE) {
            Some(place) => self.window_on(place, address),
            None => Window::none(),
        }
    }

    /// Makes the page of an address of the heap, whose number would go there in the table. All windows are forgotten,
    /// since the numbers behind it change their places.
    fn make_page(&mut self, place: usize, address: u32)
        requires gap { IsGap self.old.pages.table.items (address / 4096) place }
        requires heap { lies_in self.old.heap_start self.old.heap_end address ≡ true }
        ensures place { IsPlace self.new.pages.table.items (address / 4096) place }
        ensures kept { (number : ℕ) → has self.old.pages number ≡ true → has self.new.pages number ≡ true }
        ensures memory { memory_of self.new ≡ memory_of self.old }
        ensures end { self.new.heap_end ≡ self.old.heap_end }
        ensures segments { segments_of self.new ≡ segments_of self.old }
    {
        self.pages.add_at(place, address / PAGE);
        self.windows = [Window::none(); WINDOWS];
    }

    /// Where the number of the page of an address stands in the table. A page of the heap that isn't there is made.
    fn place_of(&mut self, address: u32) -> Option<usize>
        ensures place { IfSome result (IsPlace self.new.pages.table.items (address / 4096)) }
        ensures mapped { is_mapped self.old address ≡ true → is_some result ≡ true }
        ensures kept { (number : ℕ) → has self.old.pages number ≡ true → has self.new.pages number ≡ true }
        ensures memory { memory_of self.new ≡ memory_of self.old }
        ensures end { self.new.heap_end ≡ self.old.heap_end }
        ensures segments { segments_of self.new ≡ segments_of self.old }
    {
        match self.pages.search(address / PAGE) {
            Ok(place) => Some(place),
            Err(place) => {
                if !self.in_heap(address) {
                    return None;
                }
                self.make_page(place, address);
                Some(place)
            }
        }
    }

    /// Makes the pages of so many addresses from one on that aren't there, where all are mapped and none lies past the
    /// last address.
    fn make_pages(&mut self, address: u32, count: usize)
        requires fits { address + count ≤ 2 ^ 32 }
        requires mapped { (k : ℕ) → k < count → is_mapped self.old (address + k) ≡ true }
        ensures there { (k : ℕ) → k < count → has self.new.pages ((address + k) / 4096) ≡ true }
        ensures memory { memory_of self.new ≡ memory_of self.old }
        ensures end { self.new.heap_end ≡ self.old.heap_end }
        ensures segments { segments_of self.new ≡ segments_of self.old }
    {
        let mut done = 0;
        while done < count {
            let next = address + done as u32;
            self.place_of(next);
            done += (PAGE - next % PAGE) as usize;
        }
    }

    /// Makes the mapped addresses on the page of an address a window. A page of the heap that isn't there yet is made;
    /// where nothing is mapped, nothing changes.
    fn look_at(&mut self, address: u32)
        ensures memory { memory_of self.new ≡ memory_of self.old }
        ensures end { self.new.heap_end ≡ self.old.heap_end }
        ensures segments { segments_of self.new ≡ segments_of self.old }
    {
        if let Some(place) = self.place_of(address) {
            let window = self.window_on(place, address);
            self.windows[(address / PAGE) as usize % WINDOWS] = window;
        }
    }

    /// Whether so many bytes from an address on are all mapped. Addresses wrap.
    fn are_mapped(&self, address: u32, count: u32) -> bool
        ensures { result ≡ is_some (bytes_at (memory_of self.now) (addresses count address)) }
    {
        let mut left = count;
        while left > 0 {
            left -= 1;
            if self.byte(address.wrapping_add(left)).is_none() {
                return false;
            }
        }
        true
    }

    /// The number of a few bytes, each wherever it is.
    fn load_bytes(&self, address: u32, count: u32) -> Option<u32>
        requires { count ≤ 4 }
        ensures value { result ≡ option_map number_of_bytes (bytes_at (memory_of self.now) (addresses count address)) }
        ensures below { IfSome result (λ n. n < 256 ^ count) }
    {
        if count == 0 {
            return Some(0);
        }
        let low = self.byte(address)?;
        let high = self.load_bytes(address.wrapping_add(1), count - 1)?;
        Some(u32::from(low) + 256 * high)
    }

    /// Whether an access lies in the window.
    #[inline(always)]
    fn is_in(&self, window: Window, address: u32, width: Width) -> bool
        requires { IsWindow self.now.pages.table.items (is_mapped self.now) window }
        ensures there { result ≡ true → IsPlace self.now.pages.table.items (address / 4096) window.place }
        ensures on_page { result ≡ true → address % 4096 + width_bytes width ≤ 4096 }
        ensures mapped { result ≡ true → (k : ℕ) → k < width_bytes width → is_mapped self.now (address + k) ≡ true }
    {
        window.holds(address, width.bytes())
    }

    /// The number of the bytes at an address, where all lie in the window.
    #[inline(always)]
    fn load_in(&self, window: Window, address: u32, width: Width) -> Option<u32>
        requires { IsWindow self.now.pages.table.items (is_mapped self.now) window }
        ensures { IfSome result (λ n. option_map number_of_bytes
            (bytes_at (memory_of self.now) (addresses (width_bytes width) address)) ≡ Some n) }
    {
        if self.is_in(window, address, width) {
            return Some(self.pages.load_at(window.place, address, width));
        }
        None
    }

    /// The number of the bytes at an address, where all are mapped.
    pub(crate) fn load(&self, address: u32, width: Width) -> Option<u32>
        ensures { result ≡ option_map number_of_bytes
            (bytes_at (memory_of self.now) (addresses (width_bytes width) address)) }
    {
        match self.load_in(self.window(address), address, width) {
            Some(number) => Some(number),
            None => self.load_far(address, width),
        }
    }

    /// The same, where the bytes lie in no window.
    #[cold]
    #[inline(never)]
    fn load_far(&self, address: u32, width: Width) -> Option<u32>
        ensures { result ≡ option_map number_of_bytes
            (bytes_at (memory_of self.now) (addresses (width_bytes width) address)) }
    {
        match self.load_in(self.window_around(address), address, width) {
            Some(number) => Some(number),
            None => self.load_bytes(address, width.bytes()),
        }
    }

    /// The same. A further access beside it is made at once.
    #[inline(always)]
    pub(crate) fn load_near(&mut self, address: u32, width: Width) -> Option<u32>
        ensures value { result ≡ option_map number_of_bytes
            (bytes_at (memory_of self.old) (addresses (width_bytes width) address)) }
        ensures memory { memory_of self.new ≡ memory_of self.old }
        ensures end { self.new.heap_end ≡ self.old.heap_end }
        ensures segments { segments_of self.new ≡ segments_of self.old }
    {
        match self.load_in(self.window(address), address, width) {
            Some(number) => Some(number),
            None => self.load_anew(address, width),
        }
    }

    /// The same, where the bytes lie in no window.
    #[cold]
    #[inline(never)]
    fn load_anew(&mut self, address: u32, width: Width) -> Option<u32>
        ensures value { result ≡ option_map number_of_bytes
            (bytes_at (memory_of self.old) (addresses (width_bytes width) address)) }
        ensures memory { memory_of self.new ≡ memory_of self.old }
        ensures end { self.new.heap_end ≡ self.old.heap_end }
        ensures segments { segments_of self.new ≡ segments_of self.old }
    {
        self.look_at(address);
        self.load(address, width)
    }

    /// Writes one byte, at an address that is mapped.
    fn put(&mut self, address: u32, byte: u8)
        requires { is_some (memory_of self.old address) ≡ true }
        ensures written { memory_of self.new ≡ with_bytes (memory_of self.old) (address ∷ []) (byte ∷ []) }
        ensures end { self.new.heap_end ≡ self.old.heap_end }
        ensures segments { segments_of self.new ≡ segments_of self.old }
    {
        match self.place_of(address) {
            Some(place) => self.store_at(place, address, Width::Byte, u32::from(byte)),
            None => unreachable!(),
        }
    }

    /// Writes bytes from an address on, each wherever it is, where all are mapped. Addresses wrap.
    fn put_all(&mut self, address: u32, bytes: &[u8])
        requires mapped { is_some (bytes_at (memory_of self.old) (addresses (length bytes.now) address)) ≡ true }
        requires short { length bytes.now < 2 ^ 32 }
        ensures written { memory_of self.new
            ≡ with_bytes (memory_of self.old) (addresses (length bytes.now) address) bytes.now }
        ensures end { self.new.heap_end ≡ self.old.heap_end }
        ensures segments { segments_of self.new ≡ segments_of self.old }
    {
        let mut left = bytes.len();
        while left > 0 {
            left -= 1;
            self.put(address.wrapping_add(left as u32), bytes[left]);
        }
    }

    /// Writes the low bytes of a number, each wherever it is, where all are mapped. Says whether they are.
    fn store_bytes(&mut self, address: u32, width: Width, value: u32) -> bool
        ensures mapped { result ≡ is_some (bytes_at (memory_of self.old) (addresses (width_bytes width) address)) }
        ensures written { memory_of self.new ≡ with_number (memory_of self.old) address width value result }
        ensures end { self.new.heap_end ≡ self.old.heap_end }
        ensures segments { segments_of self.new ≡ segments_of self.old }
    {
        if !self.are_mapped(address, width.bytes()) {
            return false;
        }
        let bytes = bytes_of(value);
        self.put_all(address, &bytes[..width.bytes() as usize]);
        true
    }

    /// Writes the low bytes of a number at an address, where all are mapped, on the page whose number stands there in
    /// the table.
    #[inline(always)]
    fn store_at(&mut self, place: usize, address: u32, width: Width, value: u32)
        requires there { IsPlace self.old.pages.table.items (address / 4096) place }
        requires on_page { address % 4096 + width_bytes width ≤ 4096 }
        requires mapped { (k : ℕ) → k < width_bytes width → is_mapped self.old (address + k) ≡ true }
        ensures mapped { is_some (bytes_at (memory_of self.old) (addresses (width_bytes width) address)) ≡ true }
        ensures written { memory_of self.new ≡ with_number (memory_of self.old) address width value true }
        ensures end { self.new.heap_end ≡ self.old.heap_end }
        ensures segments { segments_of self.new ≡ segments_of self.old }
    {
        self.pages.store_at(place, address, width, value);
    }

    /// Writes the low bytes of a number at an address, where all are mapped. Says whether they are.
    #[inline(always)]
    pub(crate) fn store(&mut self, address: u32, width: Width, value: u32) -> bool
        ensures mapped { result ≡ is_some (bytes_at (memory_of self.old) (addresses (width_bytes width) address)) }
        ensures written { memory_of self.new ≡ with_number (memory_of self.old) address width value result }
        ensures end { self.new.heap_end ≡ self.old.heap_end }
        ensures segments { segments_of self.new ≡ segments_of self.old }
    {
        let window = self.window(address);
        if self.is_in(window, address, width) {
            self.store_at(window.place, address, width, value);
            return true;
        }
        self.store_anew(address, width, value)
    }

    /// The same, where the bytes lie in no window.
    #[cold]
    #[inline(never)]
    fn store_anew(&mut self, address: u32, width: Width, value: u32) -> bool
        ensures mapped { result ≡ is_some (bytes_at (memory_of self.old) (addresses (width_bytes width) address)) }
        ensures written { memory_of self.new ≡ with_number (memory_of self.old) address width value result }
        ensures end { self.new.heap_end ≡ self.old.heap_end }
        ensures segments { segments_of self.new ≡ segments_of self.old }
    {
        self.look_at(address);
        let window = self.window(address);
        if self.is_in(window, address, width) {
            self.store_at(window.place, address, width, value);
            return true;
        }
        self.store_bytes(address, width, value)
    }

    /// Whether so many bytes from an address on, none of which lies past the last address, are all mapped.
    fn are_mapped_below(&self, address: u32, count: u32) -> bool
        requires { address + count ≤ 2 ^ 32 }
        ensures { result ≡ is_some (bytes_at (memory_of self.now) (addresses count address)) }
    {
        let mut done = 0;
        while done < count {
            let left = self.left(address + done);
            if left == 0 {
                return false;
            }
            done += left.min(count - done);
        }
        true
    }

    /// Whether so many bytes from an address on are all mapped, and none lies past the last address.
    pub(crate) fn is_range(&self, address: u32, count: u32) -> bool
        ensures { result ≡ is_some (range_at (memory_of self.now) address count) }
    {
        u64::from(address) + u64::from(count) <= 4294967296 && self.are_mapped_below(address, count)
    }

    /// Writes bytes from an address on, page by page, where all are mapped and none lies past the last address.
    pub(crate) fn write(&mut self, address: u32, bytes: &[u8])
        requires mapped { is_some (range_at (memory_of self.old) address (length bytes.now)) ≡ true }
        ensures written { memory_of self.new
            ≡ with_bytes (memory_of self.old) (addresses (length bytes.now) address) bytes.now }
        ensures end { self.new.heap_end ≡ self.old.heap_end }
        ensures segments { segments_of self.new ≡ segments_of self.old }
    {
        self.make_pages(address, bytes.len());
        self.pages.write_all(address, bytes);
    }

    /// Puts so many bytes from an address on behind others, page by page, where all are mapped, none lies past the last
    /// address, and there is room.
    pub(crate) fn append_to(&self, output: &mut Vec<u8>, address: u32, count: u32)
        requires mapped { is_some (range_at (memory_of self.now) address count) ≡ true }
        requires room { vec_len output.old + count ≤ vec_capacity output.old }
        ensures { (bytes : List ℕ) → range_at (memory_of self.now) address count ≡ Some bytes
            → output.new.items ≡ output.old.items ++ bytes }
    {
        let mut done = 0;
        while done < count {
            let place = address + done;
            let run = (count - done).min(PAGE - place % PAGE);
            self.pages.append_run(output, place, run);
            done += run;
        }
    }

    /// Where the heap ends.
    pub(crate) fn heap_end(&self) -> u32
        ensures { result ≡ self.now.heap_end }
    {
        self.heap_end
    }

    /// Whether the heap may end there.
    pub(crate) fn may_end_at(&self, end: u32) -> bool
        ensures { (text : List Range) → result ≡ may_end_at (program_in self.now text) end }
    {
        is_room(self.heap_start, self.loaded, end)
    }

    /// Moves the heap's end, to where it may end. Pages behind it go; those before it are made when they are first
    /// used. No memory is taken.
    pub(crate) fn set_heap_end(&mut self, end: u32)
        requires { may_end_at (program_in self.old []) end ≡ true }
        ensures moved { memory_of self.new ≡ with_heap_moved self.old.heap_end end (memory_of self.old) }
        ensures end { self.new.heap_end ≡ end }
        ensures segments { segments_of self.new ≡ segments_of self.old }
    {
        if end < self.heap_end {
            self.shrink(end);
        } else {
            self.grow(end);
        }
    }

    /// Moves the heap's end up. The pages that it comes to meet are made when they are looked at, or written.
    fn grow(&mut self, end: u32)
        requires may { may_end_at (program_in self.old []) end ≡ true }
        requires up { self.old.heap_end ≤ end }
        ensures moved { memory_of self.new ≡ with_heap_moved self.old.heap_end end (memory_of self.old) }
        ensures end { self.new.heap_end ≡ end }
        ensures segments { segments_of self.new ≡ segments_of self.old }
    {
        self.heap_end = end;
    }

    /// Moves the heap's end down. What it leaves becomes 0.
    fn shrink(&mut self, end: u32)
        requires may { may_end_at (program_in self.old []) end ≡ true }
        requires down { end < self.old.heap_end }
        ensures moved { memory_of self.new ≡ with_heap_moved self.old.heap_end end (memory_of self.old) }
        ensures end { self.new.heap_end ≡ end }
        ensures segments { segments_of self.new ≡ segments_of self.old }
    {
        self.pages
            .remove_all(pages_to(end), pages_to(self.heap_end));
        self.pages.clear_rest(end);
        self.heap_end = end;
        self.windows = [Window::none(); WINDOWS];
    }
}

/// Whether a heap from `start` may end there, where the segments and the stack take so many bytes.
fn is_room(start: u32, loaded: u32, end: u32) -> bool
    requires { loaded ≤ most_memory }
    ensures { result ≡ (nat_le start end && nat_le end memory_top
        && (nat_le end stack_start || nat_le stack_end start)
        && nat_le (loaded + (end - start)) most_memory) }
{
    let clear = is_clear(start, end);
    start <= end && end <= MEMORY_TOP && clear && loaded + (end - start) <= MOST_MEMORY
}

/// Whether no byte of the stack lies there.
fn is_clear(start: u32, end: u32) -> bool
    ensures { result ≡ (nat_le end stack_start || nat_le stack_end start) }
{
    end <= STACK_START || STACK_END <= start
}
