//! Pages of memory, each found by its number.
#![tactic(auto, unfolding(crate::specs::PageTables::HasTable))]

ghost use Rattle.std.specs.Prelude.{◌≡◌, ℕ, ◌+◌, ◌-◌, ◌*◌, ◌/◌, ◌%◌, ◌<◌, ◌≤◌, true, false, Some, None, IfSome, IfOk};
ghost use Rattle.std.specs.Prelude.{IfErr};
ghost use Rattle.std.specs.Prelude.{◌^◌, ◌++◌, length, replicate, vec_capacity, vec_len, slice_index};
ghost use Rattle.std.specs.List.{insert};
ghost use Rattle.ci_isa.specs.Effects.{width_bytes};
ghost use Rattle.ci_elf.specs.MemoryMap.{memory_top};
ghost use Rattle.ci_machine.specs.Accesses.{bytes_of_number, number_of_bytes};
ghost use Rattle.ci_machine.specs.PageTables.{HasTable, HasTable-prop, IsPlace, IsGap, entry_at, run_of, written};
ghost use Rattle.ci_machine.specs.PageTables.{missing, pages_to, with_pages, without_pages, zeroed};

use crate::bytes::{number_at, put_number};
use ci_isa::Width;
use ci_region::{Region, Slot};
use std::alloc::{AllocError, Global};

/// How many bytes a page has.
pub(crate) const PAGE: u32 = 4096;

/// The bytes of a page.
#[derive(Clone, Copy)]
pub(crate) struct Page {
    pub(crate) bytes: [u8; 4096],
}

/// Which slot has the page of a number. The page begins at 4,096 times its number.
#[derive(Clone, Copy)]
pub(crate) struct Entry {
    pub(crate) number: u32,
    pub(crate) slot: Slot,
}

/// Pages, and a table that finds them by their numbers.
#[derive(Drop)]
pub(crate) struct Pages {
    pub(crate) frames: Region<Page>,
    /// By number. There is room for as many entries as slots.
    pub(crate) table: Vec<Entry>,
    ghost table_is: { HasTable table.items frames.values } by { HasTable-prop table.items frames.values },
    ghost reserved: { frames.capacity ≤ vec_capacity table },
}

/// A page of zeros.
fn zeros() -> Page
    ensures { (k : ℕ) → slice_index result.bytes k ≡ 0 }
{
    Page { bytes: [0; 4096] }
}

/// The first page number behind the bytes below an address.
pub(crate) fn pages_to(end: u32) -> u32
    requires { end ≤ memory_top }
    ensures { result ≡ pages_to end }
{
    (end + 4095) / PAGE
}

/// Puts in an entry, for which there is room.
fn insert_reserved(table: &mut Vec<Entry>, place: usize, entry: Entry)
    requires within { place ≤ length table.old.items }
    requires room { vec_len table.old < vec_capacity table.old }
    ensures items { table.new.items ≡ insert table.old.items place entry }
    ensures capacity { vec_capacity table.old ≤ vec_capacity table.new }
{
    match table.insert(place, entry) {
        Ok(()) => {}
        Err(_) => unreachable!(),
    }
}

/// Puts bytes behind others, for which there is room.
fn append_reserved(output: &mut Vec<u8>, bytes: &[u8])
    requires { vec_len output.old + length bytes.now ≤ vec_capacity output.old }
    ensures items { output.new.items ≡ output.old.items ++ bytes.now }
    ensures capacity { vec_capacity output.old ≤ vec_capacity output.new }
{
    match output.extend_from_slice(bytes) {
        Ok(()) => {}
        Err(_) => unreachable!(),
    }
}

/// Puts so many zeros behind others, for which there is room.
fn append_zeros(output: &mut Vec<u8>, count: usize)
    requires { vec_len output.old + count ≤ vec_capacity output.old }
    ensures items { output.new.items ≡ output.old.items ++ replicate count 0 }
    ensures capacity { vec_capacity output.old ≤ vec_capacity output.new }
{
    match output.resize(output.len() + count, 0) {
        Ok(()) => {}
        Err(_) => unreachable!(),
    }
}

impl Pages {
    ghost use Rattle.ci_machine.specs.Pages.{content, has, page_at, room};

    /// No pages, and room for so many.
    pub(crate) fn new(alloc: Global, capacity: u32) -> Result<Pages, AllocError>
        ensures content { IfOk result (λ pages. (address : ℕ) → content pages address ≡ 0) }
        ensures room { IfOk result (λ pages. room pages ≡ capacity) }
    {
        let frames = Region::with_capacity(alloc, capacity)?;
        let table = Vec::with_capacity(alloc, capacity as usize)?;
        Ok(Pages { frames, table })
    }

    /// Where the number stands in the table, or where it would go.
    pub(crate) fn search(&self, number: u32) -> Result<usize, usize>
        ensures found { IfOk result (IsPlace self.now.table.items number) }
        ensures absent { IfErr result (IsGap self.now.table.items number) }
    {
        self.table
            .binary_search_by_key(&number, |entry| entry.number)
    }

    /// Where the number stands in the table.
    pub(crate) fn find(&self, number: u32) -> Option<usize>
        ensures some { IfSome result (IsPlace self.now.table.items number) }
        ensures none { result ≡ None → has self.now number ≡ false }
    {
        match self.search(number) {
            Ok(place) => Some(place),
            Err(_) => None,
        }
    }

    /// The page whose number stands there in the table.
    #[inline(always)]
    fn page_there(&self, place: usize) -> &Page
        requires { place < length self.now.table.items }
        ensures { (number : ℕ) → IsPlace self.now.table.items number place → page_at self.now number ≡ Some result.now }
    {
        self.frames.get(self.table[place].slot)
    }

    /// The byte at an address.
    pub(crate) fn byte(&self, address: u32) -> u8
        ensures { result ≡ content self.now address }
    {
        match self.find(address / PAGE) {
            Some(place) => self.page_there(place).bytes[(address % PAGE) as usize],
            None => 0,
        }
    }

    /// The number of the bytes at an address, on one page, whose number stands there in the table.
    #[inline(always)]
    pub(crate) fn load_at(&self, place: usize, address: u32, width: Width) -> u32
        requires there { IsPlace self.now.table.items (address / 4096) place }
        requires inside { address % 4096 + width_bytes width ≤ 4096 }
        ensures { result ≡ number_of_bytes (run_of (content self.now) (width_bytes width) address) }
    {
        let page = self.page_there(place);
        number_at(&page.bytes, (address % PAGE) as usize, width)
    }

    /// So many bytes from an address on, on one page, whose number stands there in the table.
    fn run(&self, place: usize, address: u32, count: u32) -> &[u8]
        requires there { IsPlace self.now.table.items (address / 4096) place }
        requires inside { address % 4096 + count ≤ 4096 }
        ensures { result.now ≡ run_of (content self.now) count address }
    {
        let page = self.page_there(place);
        let offset = (address % PAGE) as usize;
        &page.bytes[offset..offset + count as usize]
    }

    /// Puts so many bytes from an address on, on one page, behind others, for which there is room.
    pub(crate) fn append_run(&self, output: &mut Vec<u8>, address: u32, count: u32)
        requires inside { address % 4096 + count ≤ 4096 }
        requires room { vec_len output.old + count ≤ vec_capacity output.old }
        ensures items { output.new.items ≡ output.old.items ++ run_of (content self.now) count address }
        ensures capacity { vec_capacity output.old ≤ vec_capacity output.new }
    {
        match self.find(address / PAGE) {
            Some(place) => append_reserved(output, self.run(place, address, count)),
            None => append_zeros(output, count as usize),
        }
    }

    /// Writes the low bytes of a number at an address, on one page, whose number stands there in the table.
    #[inline(always)]
    pub(crate) fn store_at(&mut self, place: usize, address: u32, width: Width, value: u32)
        requires there { IsPlace self.old.table.items (address / 4096) place }
        requires inside { address % 4096 + width_bytes width ≤ 4096 }
        ensures content { content self.new
            ≡ written (content self.old) address (bytes_of_number (width_bytes width) value) }
        ensures has { has self.new ≡ has self.old }
        ensures room { room self.new ≡ room self.old }
        ensures table { self.new.table.items ≡ self.old.table.items }
    {
        let page = self.frames.get_mut(self.table[place].slot);
        put_number(&mut page.bytes, (address % PAGE) as usize, width, value);
    }

    /// Writes bytes from an address on, on one page, whose number stands there in the table.
    fn write_at(&mut self, place: usize, address: u32, bytes: &[u8])
        requires there { IsPlace self.old.table.items (address / 4096) place }
        requires inside { address % 4096 + length bytes.now ≤ 4096 }
        ensures content { content self.new ≡ written (content self.old) address bytes.now }
        ensures has { has self.new ≡ has self.old }
        ensures room { room self.new ≡ room self.old }
        ensures table { self.new.table.items ≡ self.old.table.items }
    {
        let offset = (address % PAGE) as usize;
        let page = self.frames.get_mut(self.table[place].slot);
        page.bytes[offset..offset + bytes.len()].copy_from_slice(bytes);
    }

    /// Writes bytes from an address on, on one page that is there.
    fn write(&mut self, address: u32, bytes: &[u8])
        requires there { has self.old (address / 4096) ≡ true }
        requires inside { address % 4096 + length bytes.now ≤ 4096 }
        ensures content { content self.new ≡ written (content self.old) address bytes.now }
        ensures has { has self.new ≡ has self.old }
        ensures room { room self.new ≡ room self.old }
        ensures table { self.new.table.items ≡ self.old.table.items }
    {
        match self.find(address / PAGE) {
            Some(place) => self.write_at(place, address, bytes),
            None => unreachable!(),
        }
    }

    /// Writes bytes from an address on, page by page. All their pages are there.
    pub(crate) fn write_all(&mut self, address: u32, bytes: &[u8])
        requires fits { address + length bytes.now ≤ 2 ^ 32 }
        requires there { (k : ℕ) → k < length bytes.now → has self.old ((address + k) / 4096) ≡ true }
        ensures content { content self.new ≡ written (content self.old) address bytes.now }
        ensures has { has self.new ≡ has self.old }
        ensures room { room self.new ≡ room self.old }
        ensures table { self.new.table.items ≡ self.old.table.items }
    {
        let mut done = 0;
        while done < bytes.len() {
            let place = address + done as u32;
            let count = (bytes.len() - done).min((PAGE - place % PAGE) as usize);
            self.write(place, &bytes[done..done + count]);
            done += count;
        }
    }

    /// Adds a page of zeros, unless it is there.
    fn add(&mut self, number: u32)
        requires { 0 < room self.old }
        ensures content { content self.new ≡ content self.old }
        ensures has { has self.new ≡ with_pages (has self.old) number (number + 1) }
        ensures room { room self.old ≤ room self.new + 1 }
    {
        match self.search(number) {
            Ok(_) => {}
            Err(place) => self.add_at(place, number),
        }
    }

    /// Adds a page of zeros, whose number would go there in the table.
    pub(crate) fn add_at(&mut self, place: usize, number: u32)
        requires gap { IsGap self.old.table.items number place }
        requires room { 0 < room self.old }
        ensures place { IsPlace self.new.table.items number place }
        ensures content { content self.new ≡ content self.old }
        ensures has { has self.new ≡ with_pages (has self.old) number (number + 1) }
        ensures room { room self.old ≡ room self.new + 1 }
    {
        match self.frames.take(zeros()) {
            Ok(slot) => insert_reserved(&mut self.table, place, Entry { number, slot }),
            Err(_) => unreachable!(),
        }
    }

    /// Adds pages of zeros from one number up to another, but for those that are there.
    pub(crate) fn add_all(&mut self, from: u32, to: u32)
        requires { to - from ≤ room self.old }
        ensures content { content self.new ≡ content self.old }
        ensures has { has self.new ≡ with_pages (has self.old) from to }
        ensures room { room self.old ≤ room self.new + (to - from) }
    {
        for number in from..to {
            self.add(number);
        }
    }

    /// The first place in the table whose number isn't below a number.
    fn place_from(&self, number: u32) -> usize
        ensures within { result ≤ length self.now.table.items }
        ensures smaller { (i : ℕ) → i < result → (entry_at self.now.table.items i).number < number }
        ensures others { (i : ℕ) → result ≤ i → i < length self.now.table.items
            → number ≤ (entry_at self.now.table.items i).number }
    {
        match self.search(number) {
            Ok(place) => place,
            Err(place) => place,
        }
    }

    /// Where the last number from one up to another stands in the table.
    fn last_between(&self, from: u32, to: u32) -> Option<usize>
        ensures some { IfSome result (λ place. (number : ℕ) × IsPlace self.now.table.items number place
            × (from ≤ number) × (number < to)) }
        ensures none { result ≡ None → (number : ℕ) → from ≤ number → number < to → has self.now number ≡ false }
    {
        let end = self.place_from(to);
        if end == 0 {
            return None;
        }
        if self.table[end - 1].number < from {
            return None;
        }
        Some(end - 1)
    }

    /// Takes away the page whose number stands there in the table.
    fn remove_at(&mut self, place: usize)
        requires { place < length self.old.table.items }
        ensures content { (number : ℕ) → IsPlace self.old.table.items number place
            → content self.new ≡ zeroed (content self.old) (number * 4096) ((number + 1) * 4096) }
        ensures has { (number : ℕ) → IsPlace self.old.table.items number place
            → has self.new ≡ without_pages (has self.old) number (number + 1) }
        ensures room { room self.new ≡ room self.old + 1 }
        ensures fewer { length self.new.table.items + 1 ≡ length self.old.table.items }
    {
        prove!(self.frames.used() <= self.frames.capacity());
        let entry = self.table.remove(place);
        self.frames.give(entry.slot);
    }

    /// Takes away the pages from one number up to another that are there, the last one first. Each leaves room for
    /// another.
    pub(crate) fn remove_all(&mut self, from: u32, to: u32)
        ensures content { content self.new ≡ zeroed (content self.old) (from * 4096) (to * 4096) }
        ensures has { has self.new ≡ without_pages (has self.old) from to }
        ensures room { (low high : ℕ) → missing (has self.new) low high + room self.old
            ≤ missing (has self.old) low high + room self.new }
    {
        while let Some(place) = self.last_between(from, to) {
            self.remove_at(place);
        }
    }

    /// Writes zeros from an address up to the end of its page. One that isn't there has no other bytes.
    pub(crate) fn clear_rest(&mut self, address: u32)
        ensures content { content self.new ≡ zeroed (content self.old) address (pages_to address * 4096) }
        ensures has { has self.new ≡ has self.old }
        ensures room { room self.new ≡ room self.old }
    {
        if address % PAGE > 0 {
            if let Some(place) = self.find(address / PAGE) {
                self.write_at(place, address, &zeros().bytes[(address % PAGE) as usize..]);
            }
        }
    }
}
