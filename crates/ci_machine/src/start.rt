//! The state in which a run opens.
#![tactic(auto, unfolding(crate::proofs::StateViews::views))]

ghost use Rattle.std.specs.Prelude.{◌≡◌, ℕ, ◌+◌, ◌-◌, ◌*◌, ◌/◌, ◌<◌, ◌≤◌, ◌||◌, true, IfOk, length, map, slice_index};
ghost use Rattle.std.specs.Prelude.{OnOk, false};
ghost use Rattle.std.specs.List.{Contains};
ghost use Rattle.ci_elf.specs.declared.segments.Segment.{Segment};
ghost use Rattle.ci_elf.specs.MemoryMap.{memory_top, stack_start, stack_end, most_memory};
ghost use Rattle.ci_machine.specs.Layouts.{heap_limit};
ghost use Rattle.ci_machine.specs.private.Loading.{IsInFile, holders, in_segments, loaded_content};
ghost use Rattle.ci_machine.specs.Memories.{memory_of, segments_of};
ghost use Rattle.ci_machine.specs.Pages.{content, has, room};
ghost use Rattle.ci_machine.specs.PageTables.{pages_to};
ghost use Rattle.ci_machine.specs.Programs.{extent_of, lies_in, maximum_end, loaded_memory};
ghost use Rattle.ci_machine.specs.Programs.{loaded_program, loaded_size as loaded_size_of, heap_start as heap_start_of};
ghost use Rattle.ci_machine.specs.Spans.{in_spans};

use crate::memory::Memory;
use crate::pages::{PAGE, Pages, pages_to};
use crate::spans::{Span, Spans};
use crate::state::{REGISTERS, State};
use crate::windows::{WINDOWS, Window};
use ci_elf::{Image, MEMORY_TOP, MOST_MEMORY, Places, STACK_END, STACK_SIZE, STACK_START, Segment};
use std::alloc::{AllocError, Global};

/// The number of the stack pointer, x2.
const STACK_POINTER: usize = 2;

/// The stack pointer at the start: the last multiple of 16 in the stack.
const STACK_TOP: u32 = STACK_END - 16;

/// A segment's part of the file. One without bytes may lie past the file's end.
fn file_part(bytes: &[u8], segment: Segment) -> &[u8]
    requires { IsInFile bytes.now segment }
    ensures size { length result.now ≡ segment.file_size }
    ensures bytes { (k : ℕ) → k < segment.file_size
        → slice_index result.now k ≡ slice_index bytes.now (segment.offset + k) }
{
    let offset = (segment.offset as usize).min(bytes.len());
    &bytes[offset..offset + segment.file_size as usize]
}

/// Where the heap begins: behind the last segment, at a multiple of 16.
fn heap_start(segments: &[Segment]) -> u32
    requires { maximum_end (map extent_of segments.now) ≤ memory_top }
    ensures { result ≡ (maximum_end (map extent_of segments.now) + 15) / 16 * 16 }
{
    let mut end = 0;
    for segment in segments {
        end = end.max(segment.address + segment.memory_size);
    }
    (end + 15) / 16 * 16
}

/// How many bytes the segments and the stack take.
fn loaded_size(segments: &[Segment]) -> u32
    requires { loaded_size_of (map extent_of segments.now) ≤ most_memory }
    ensures { result ≡ loaded_size_of (map extent_of segments.now) }
{
    let mut size = STACK_SIZE;
    for segment in segments {
        size += segment.memory_size;
    }
    size
}

/// Puts in the spans of segments, which have no address that another of them or a span has.
fn insert_all(spans: &mut Spans, segments: &[Segment]) -> Result<(), AllocError>
    requires filled { (segment : Segment) → Contains segments.now segment
        → (0 < segment.memory_size) × (segment.address + segment.memory_size ≤ memory_top) }
    requires apart { (address : ℕ) → holders segments.now address ≤ 1 }
    requires free { (address : ℕ) → in_segments segments.now address ≡ true
        → in_spans spans.old.spans.items address ≡ false }
    ensures { OnOk result ((address : ℕ) → in_spans spans.new.spans.items address
        ≡ (in_segments segments.now address || in_spans spans.old.spans.items address)) }
{
    for segment in segments {
        spans.insert(Span {
            start: segment.address,
            end: segment.address + segment.memory_size,
        })?;
    }
    Ok(())
}

/// Where the segments and the stack lie. They are put in by their addresses, which moves no span but the stack's.
fn spans_of(alloc: Global, image: &Image) -> Result<Spans, AllocError>
    ensures { IfOk result (λ spans. (address : ℕ) → in_spans spans.spans.items address
        ≡ (in_segments image.now.segments address || lies_in stack_start stack_end address)) }
{
    let mut spans = Spans::new(alloc);
    spans.insert(Span {
        start: STACK_START,
        end: STACK_END,
    })?;
    insert_all(&mut spans, image.segments_by_address())?;
    Ok(spans)
}

/// How many pages the heap that begins there may come to meet.
fn heap_pages(heap_start: u32, loaded: u32) -> u32
    requires start { heap_start ≤ memory_top }
    requires fits { loaded ≤ most_memory }
    ensures value { result ≡ pages_to (heap_limit heap_start loaded) - heap_start / 4096 }
    ensures bounded { result ≤ 1048576 }
{
    let limit = heap_start + (MOST_MEMORY - loaded).min(MEMORY_TOP - heap_start);
    pages_to(limit) - heap_start / PAGE
}

/// Pages of zeros: those that the spans meet, and room for those that the heap may come to meet.
fn opening_pages(
    alloc: Global,
    spans: &Spans,
    heap_start: u32,
    loaded: u32,
) -> Result<Pages, AllocError>
    requires start { heap_start ≤ memory_top }
    requires fits { loaded ≤ most_memory }
    ensures content { IfOk result (λ pages. (address : ℕ) → content pages address ≡ 0) }
    ensures covered { IfOk result (λ pages. (address : ℕ) → in_spans spans.now.spans.items address ≡ true
        → has pages (address / 4096) ≡ true) }
    ensures room { IfOk result (λ pages. pages_to (heap_limit heap_start loaded) - heap_start / 4096 ≤ room pages) }
{
    let count = spans.page_count() + heap_pages(heap_start, loaded);
    let mut pages = Pages::new(alloc, count)?;
    spans.add_pages(&mut pages);
    Ok(pages)
}

/// Writes the segments' parts of the file.
fn load_segments(pages: &mut Pages, image: &Image)
    requires zeros { (address : ℕ) → content pages.old address ≡ 0 }
    requires there { (address : ℕ) → in_segments image.now.segments address ≡ true
        → has pages.old (address / 4096) ≡ true }
    ensures content { (address : ℕ) → content pages.new address
        ≡ loaded_content image.now.bytes image.now.segments address }
    ensures has { has pages.new ≡ has pages.old }
    ensures room { room pages.new ≡ room pages.old }
{
    let segments = image.segments();
    let mut left = segments.len();
    while left > 0 {
        left -= 1;
        let segment = segments[left];
        pages.write_all(segment.address, file_part(image.bytes(), segment));
    }
}

/// The memory in which a run of the file opens.
fn opening_memory(alloc: Global, image: &Image) -> Result<Memory, AllocError>
    ensures bytes { IfOk result (λ memory. memory_of memory ≡ loaded_memory image.now.bytes image.now.segments) }
    ensures segments { IfOk result (λ memory. segments_of memory ≡ map extent_of image.now.segments) }
    ensures heap { IfOk result (λ memory. memory.heap_end ≡ heap_start_of (loaded_program image.now)) }
{
    let spans = spans_of(alloc, image)?;
    let heap_start = heap_start(image.segments());
    let loaded = loaded_size(image.segments());
    let mut pages = opening_pages(alloc, &spans, heap_start, loaded)?;
    load_segments(&mut pages, image);
    let segments = Vec::from_slice(alloc, image.segments())?;
    Ok(Memory {
        pages,
        spans,
        windows: [Window::none(); WINDOWS],
        segments,
        heap_start,
        heap_end: heap_start,
        loaded,
    })
}

impl State {
    ghost use Rattle.std.specs.Prelude.{◌≡◌, IfOk};
    ghost use Rattle.ci_machine.specs.Programs.{loaded_program, opening};
    ghost use Rattle.ci_machine.specs.States.{state_of, program_of};

    /// The state in which a run of the file on this input opens: pc at the entry, the segments and a stack of zeros in
    /// memory, a heap without bytes behind the last segment, and all registers 0 but x2, which points to the stack's
    /// last 16 bytes.
    pub fn start(alloc: Global, image: &Image, input: &[u8]) -> Result<State, AllocError>
        ensures state { IfOk result (λ state. state_of state ≡ opening image.now input.now) }
        ensures program { IfOk result (λ state. program_of state ≡ loaded_program image.now) }
    {
        let copy = Vec::from_slice(alloc, input)?;
        State::start_on(alloc, image, copy)
    }

    /// The same state, whose input becomes the state's own.
    pub fn start_on(alloc: Global, image: &Image, input: Vec<u8>) -> Result<State, AllocError>
        ensures state { IfOk result (λ state. state_of state ≡ opening image.now input.items) }
        ensures program { IfOk result (λ state. program_of state ≡ loaded_program image.now) }
    {
        let mut registers = [0; REGISTERS];
        registers[STACK_POINTER] = STACK_TOP;
        Ok(State {
            pc: image.entry(),
            registers,
            memory: opening_memory(alloc, image)?,
            text: Places::new(alloc, image.ranges())?,
            input,
            read: 0,
            output: Vec::new(alloc),
        })
    }
}
