//! Executable files: ELF32 for RISC-V, as the System V gABI has it (chapter 4, "Object Files", and
//! chapter 5, "Program Header").
//!
//! The rules that a file keeps, in the order in which they are tested, stand in `specs/Rules.antt`,
//! over the fields of `specs/Fields.antt`; what a file means stands in `specs/Executables.antt`, the
//! places of the words of its text in `specs/WordPlaces.antt`, the smallest file with some text in
//! `specs/Frames.antt`, and what reading it gives in `specs/FrameImages.antt`. The functions of `laws`
//! have no effect: their contracts say what holds of all files and of all such smallest files, by
//! `specs/Laws.antt`, and by `specs/TextChangeLaws.antt` where words of the text are written over.
#![tactic(auto)]

pub use faults::ElfFault;
pub use frames::frame;
pub use image::Image;
pub use memory_map::{MEMORY_TOP, MOST_MEMORY, STACK_END, STACK_SIZE, STACK_START};
pub use places::Places;
pub use ranges::{Range, range_with};
pub use reading::{read, read_vec};
pub use segments::Segment;

mod coverage;
mod faults;
mod fields;
mod file_header;
mod frames;
mod image;
pub mod laws;
mod memory;
mod memory_map;
mod parts;
mod places;
mod ranges;
mod reading;
mod sections;
mod segments;
mod sharing;
mod symbols;
mod taken;
