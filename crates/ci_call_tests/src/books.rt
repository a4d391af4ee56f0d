//! Worked calls of `relog`, over one file `F` in memory.
use crate::common::{BOOK, PACKED_BOOK, Step, expect};
use std::alloc::AllocError;

/// The book as the file `F`, in version 1.
const BOOK_AS_F: Step = Step::File("F", BOOK);

/// The same in version 2.
const PACKED_BOOK_AS_F: Step = Step::File("F", PACKED_BOOK);

/// Books that are written in both versions, and a line of success that isn't heard.
fn books() -> &'static [Step] {
    &[
        BOOK_AS_F,
        Step::Call("relog F OUT", 0, b"relog version 2 bytes 92\n"),
        Step::Holds("OUT", PACKED_BOOK),
        Step::Clear,
        PACKED_BOOK_AS_F,
        Step::Call("relog F OUT --log 2", 0, b"relog version 2 bytes 92\n"),
        Step::Holds("OUT", PACKED_BOOK),
        Step::Clear,
        PACKED_BOOK_AS_F,
        Step::Call("relog F OUT --log 1", 0, b"relog version 1 bytes 97\n"),
        Step::Holds("OUT", BOOK),
        Step::Clear,
        BOOK_AS_F,
        Step::Call("relog --log=1 F OUT", 0, b"relog version 1 bytes 97\n"),
        Step::Holds("OUT", BOOK),
        // The book is written before the line is put.
        Step::Clear,
        BOOK_AS_F,
        Step::Unheard("relog F OUT", 3, b"fault 3 write -\n"),
        Step::Holds("OUT", PACKED_BOOK),
    ]
}

#[test]
fn books_in_both_versions(rt: HostRuntime) -> Result<(), AllocError> {
    expect(&rt, books())
}

/// Words with no reading, and calls of the shelf that fail.
fn refused() -> &'static [Step] {
    &[
        // Calls with words that have no reading.
        BOOK_AS_F,
        Step::Call("relog", 1, b"fault 1 usage\n"),
        Step::Call("relog F", 1, b"fault 1 usage\n"),
        Step::Call("relog F F", 1, b"fault 1 usage\n"),
        Step::Call("relog F OUT N", 1, b"fault 1 usage\n"),
        Step::Call("relog F OUT --log", 1, b"fault 1 usage\n"),
        Step::Call("relog F OUT --log 0", 1, b"fault 1 usage\n"),
        Step::Call("relog F OUT --log 3", 1, b"fault 1 usage\n"),
        Step::Call("relog F OUT --log 1 --log 2", 1, b"fault 1 usage\n"),
        Step::Call("relog F OUT --in 3", 1, b"fault 1 usage\n"),
        // The first call of the shelf is the read of `F`, the second the write of `OUT`.
        Step::Failing(1, "relog F OUT", 2, b"fault 2 read F\n"),
        Step::Failing(2, "relog F OUT", 3, b"fault 3 write OUT\n"),
    ]
}

#[test]
fn books_that_are_refused(rt: HostRuntime) -> Result<(), AllocError> {
    expect(&rt, refused())
}

/// Texts that spell no book, and what is said of them.
fn faults() -> &'static [Step] {
    &[
        Step::File("F", b""),
        Step::Call("relog F OUT", 10, b"fault 10 log 3 0\n"),
        Step::Call("relog F OUT --log 1", 10, b"fault 10 log 3 0\n"),
        Step::File("F", b"ci-lag 1\n"),
        Step::Call("relog F OUT", 10, b"fault 10 log 1 0\n"),
        Step::Call("relog F OUT --log 1", 10, b"fault 10 log 1 0\n"),
        Step::File("F", b"ci-log 3\n"),
        Step::Call("relog F OUT", 10, b"fault 10 log 1 0\n"),
        Step::Call("relog F OUT --log 1", 10, b"fault 10 log 1 0\n"),
        // Of version 1: another end, one that isn't whole, and a byte behind it.
        Step::File("F", b"ci-log 1\nend nine\n"),
        Step::Call("relog F OUT", 10, b"fault 10 log 2 14\n"),
        Step::Call("relog F OUT --log 1", 10, b"fault 10 log 2 14\n"),
        Step::File("F", b"ci-log 1\nend none"),
        Step::Call("relog F OUT", 10, b"fault 10 log 3 0\n"),
        Step::Call("relog F OUT --log 1", 10, b"fault 10 log 3 0\n"),
        Step::File("F", b"ci-log 1\nend none\nx"),
        Step::Call("relog F OUT", 10, b"fault 10 log 4 18\n"),
        Step::Call("relog F OUT --log 1", 10, b"fault 10 log 4 18\n"),
        // Of version 2: another header, a tree with another filling, one that isn't whole, and bytes behind a tree and
        // behind the end.
        Step::File("F", b"ci-log 2x"),
        Step::Call("relog F OUT", 10, b"fault 10 log 1 0\n"),
        Step::Call("relog F OUT --log 1", 10, b"fault 10 log 1 0\n"),
        Step::File("F", b"ci-log 2\nblock 00010074 none\n\x41\nend none\n"),
        Step::Call("relog F OUT", 10, b"fault 10 log 2 29\n"),
        Step::Call("relog F OUT --log 1", 10, b"fault 10 log 2 29\n"),
        Step::File("F", b"ci-log 2\nblock 00010074 none\n\x05"),
        Step::Call("relog F OUT", 10, b"fault 10 log 3 0\n"),
        Step::Call("relog F OUT --log 1", 10, b"fault 10 log 3 0\n"),
        Step::File("F", b"ci-log 2\nblock 00010074 none\n\x40\x40\nend none\n"),
        Step::Call("relog F OUT", 10, b"fault 10 log 4 30\n"),
        Step::Call("relog F OUT --log 1", 10, b"fault 10 log 4 30\n"),
        Step::File("F", b"ci-log 2\nend none\nx"),
        Step::Call("relog F OUT", 10, b"fault 10 log 4 18\n"),
        Step::Call("relog F OUT --log 1", 10, b"fault 10 log 4 18\n"),
    ]
}

#[test]
fn texts_with_faults(rt: HostRuntime) -> Result<(), AllocError> {
    expect(&rt, faults())
}
