//! The memory of a program: where it ends, where its stack lies, and how much of it there may be.
//!
//! Contracts name the numbers of `specs/MemoryMap.antt`, which these are.

/// The address at which usable memory ends.
pub const MEMORY_TOP: u32 = 0xffff_0000;

/// The address of the stack's first byte.
pub const STACK_START: u32 = 0x7ff0_0000;

/// How many bytes the stack has.
pub const STACK_SIZE: u32 = 0x10_0000;

/// The address behind the stack's last byte.
pub const STACK_END: u32 = STACK_START + STACK_SIZE;

/// How many bytes segments, stack and heap may have together: 64 mebibytes.
pub const MOST_MEMORY: u32 = 67_108_864;
