//! A book of two searches and a take, a longer book, faults of texts, and a tree in a region.
use ci_log::{
    Child, Entry, Finish, Item, LogBook, LogFault, LogNode, flatten, read, write, write_packed,
};
use ci_region::Region;
use std::alloc::{AllocError, Global};
use std::process::Abort;
use std::test::Fail;

// Long texts are the answers of functions, so that the proof of a test looks at none of them.

/// Two searches and a take.
fn text() -> &'static [u8] {
    b"ci-log 1\nblock 00010074 best 0 2\nBBOBOFBBFFG\ntake 00010074 unit 0\nblock 00010074 none\nG\nend none\n"
}

/// Three searches, two takes, each with its search, and the other finish.
fn rounds() -> &'static [u8] {
    b"ci-log 1\nblock 00010074 spent 9999999\nblock 0001009c best 0 255\nF\nblock 000100c4 none\nBCI\n\
take 0001009c unit 0\nblock 0001009c best 10 11 200\nBFG\ntake 0001009c unit 31\nblock 0001009c none\nO\n\
end count\n"
}

/// The first text's book in version 2.
fn packed() -> &'static [u8] {
    b"ci-log 2\nblock 00010074 best 0 2\n\x00\x10\x15\x00\x56\x40\n\
take 00010074 unit 0\nblock 00010074 none\n\x40\nend none\n"
}

/// The book of a short text.
fn book_of(rt: &(impl AllocGlobal + Abort), text: &[u8]) -> Result<LogBook, LogFault> {
    assert!(rt; text.len() <= 1000);
    read(rt.alloc(), text)
}

// Books are let go by calls of `drop`, which a proof does not look into.

/// Whether a fault is the one that is due.
fn is_fault(fault: &LogFault, due: &LogFault) -> bool {
    match (fault, due) {
        (LogFault::BadItem(offset), LogFault::BadItem(place)) => *offset == *place,
        (LogFault::Trailing(offset), LogFault::Trailing(place)) => *offset == *place,
        (LogFault::Unfinished, LogFault::Unfinished) => true,
        (LogFault::BadHeader, LogFault::BadHeader) => true,
        _ => false,
    }
}

/// Whether a text's fault is the one that is due.
fn has_fault(rt: &(impl AllocGlobal + Abort), text: &[u8], due: &LogFault) -> bool {
    match book_of(rt, text) {
        Ok(book) => {
            drop(book);
            false
        }
        Err(fault) => is_fault(&fault, due),
    }
}

/// Asserts that a book is written as this text.
fn expect_text(
    rt: &(impl AllocGlobal + Abort),
    book: &LogBook,
    text: &[u8],
) -> Result<(), AllocError> {
    let written = write(rt.alloc(), book)?;
    assert!(rt; written.as_slice() == text);
    Ok(())
}

/// Asserts that a book is written as this text in version 2.
fn expect_packed(
    rt: &(impl AllocGlobal + Abort),
    book: &LogBook,
    text: &[u8],
) -> Result<(), AllocError> {
    let written = write_packed(rt.alloc(), book)?;
    assert!(rt; written.as_slice() == text);
    Ok(())
}

/// Whether an entry is this take.
fn is_take(entry: &Entry, due_leader: u32, due_unit: u8) -> bool {
    match entry {
        Entry::Take { leader, unit } => *leader == due_leader && *unit == due_unit,
        _ => false,
    }
}

// What is compared is the answer of a function, which costs a proof less than an assertion does.

/// Whether a book is that of the first text: its finish, a take and a search.
fn is_first_book(book: &LogBook) -> bool {
    match book.entries() {
        [first, second, _] => {
            book.finish() == Finish::Empty && is_first(first) && is_take(second, 0x0001_0074, 0)
        }
        _ => false,
    }
}

#[test]
fn a_text_both_ways(rt: HostRuntime) -> Result<(), Fail> {
    let book = book_of(&rt, text())?;
    let is_due = is_first_book(&book);
    let outcome = expect_text(&rt, &book, text());
    drop(book);
    assert!(rt; is_due);
    outcome?;
    Ok(())
}

/// The log of the first search of a text.
fn items() -> &'static [Item] {
    &[
        Item::B,
        Item::B,
        Item::O,
        Item::B,
        Item::O,
        Item::F,
        Item::B,
        Item::B,
        Item::F,
        Item::F,
        Item::G,
    ]
}

/// Whether an entry is the first search.
fn is_first(entry: &Entry) -> bool {
    match entry {
        Entry::Best { leader, cut, log } => {
            *leader == 0x0001_0074
                && cut.count() == 2
                && cut.has(0)
                && cut.has(2)
                && log.items() == items()
        }
        _ => false,
    }
}

#[test]
fn another_last_letter(rt: HostRuntime) -> Result<(), Fail> {
    let mut text = Vec::from_slice(rt.alloc(), text())?;
    assert!(rt; text.len() == 97);
    assert!(rt; text[43] == b'G');
    text[43] = b'F';
    let book = book_of(&rt, &text)?;
    let outcome = expect_text(&rt, &book, &text);
    drop(book);
    outcome?;
    Ok(())
}

#[test]
fn a_byte_behind_the_end(rt: HostRuntime) -> Result<(), Fail> {
    let mut text = Vec::from_slice(rt.alloc(), text())?;
    text.push(b'x')?;
    assert!(rt; has_fault(&rt, &text, &LogFault::Trailing(97)));
    Ok(())
}

/// Whether the fault of the front of a text is the one that is due.
fn has_fault_in_front(
    rt: &(impl AllocGlobal + Abort),
    text: &[u8],
    len: usize,
    due: &LogFault,
) -> bool {
    assert!(rt; len <= text.len());
    has_fault(rt, &text[..len], due)
}

#[test]
fn the_last_newline_missing(rt: HostRuntime) {
    assert!(rt; text().len() == 97);
    assert!(rt; has_fault_in_front(&rt, text(), 96, &LogFault::Unfinished));
}

/// Whether an entry is this search that was not finished.
fn is_spent(entry: &Entry, due_leader: u32, due_budget: u32) -> bool {
    match entry {
        Entry::Spent { leader, budget } => *leader == due_leader && *budget == due_budget,
        _ => false,
    }
}

/// Whether a book is that of several rounds: its finish, its first search and its last take.
fn is_book_of_rounds(book: &LogBook) -> bool {
    match book.entries() {
        [first, _, _, _, _, take, _] => {
            book.finish() == Finish::Count
                && is_spent(first, 0x0001_0074, 9_999_999)
                && is_take(take, 0x0001_009c, 31)
        }
        _ => false,
    }
}

#[test]
fn several_rounds_both_ways(rt: HostRuntime) -> Result<(), Fail> {
    let book = book_of(&rt, rounds())?;
    let is_due = is_book_of_rounds(&book);
    let outcome = expect_text(&rt, &book, rounds());
    drop(book);
    assert!(rt; is_due);
    outcome?;
    Ok(())
}

/// Texts, and their faults.
fn faults() -> &'static [(&'static str, LogFault)] {
    &[
        ("", LogFault::Unfinished),
        ("ci-log ", LogFault::Unfinished),
        ("ci-log 1", LogFault::Unfinished),
        ("ci-lag 2", LogFault::BadHeader),
        ("ci-log 1x", LogFault::BadHeader),
        ("ci-log 2\n", LogFault::Unfinished),
        ("ci-log 3\n", LogFault::BadHeader),
        ("ci-log 2x", LogFault::BadHeader),
        ("ci-log 1\nx", LogFault::BadItem(9)),
        (
            "ci-log 1\nblock 0001007A none\nG\nend none\n",
            LogFault::BadItem(22),
        ),
        (
            "ci-log 1\nblock 00010074 best\nG\nend none\n",
            LogFault::BadItem(28),
        ),
        (
            "ci-log 1\nblock 00010074 best 256\nG\nend none\n",
            LogFault::BadItem(31),
        ),
        // The second 20 may still become 200 to 209, so the bad byte is the newline behind it.
        (
            "ci-log 1\nblock 00010074 best 20 20\nG\nend none\n",
            LogFault::BadItem(34),
        ),
        (
            "ci-log 1\nblock 00010074 best 20 19\nG\nend none\n",
            LogFault::BadItem(34),
        ),
        // No node is greater than 255.
        (
            "ci-log 1\nblock 00010074 best 255 \nG\nend none\n",
            LogFault::BadItem(32),
        ),
        (
            "ci-log 1\nblock 00010074 spent 10000000\nend none\n",
            LogFault::BadItem(37),
        ),
        ("ci-log 1\ntake 00010074 unit 32\n", LogFault::BadItem(29)),
        ("ci-log 1\ntake 00010074 unit 01\n", LogFault::BadItem(29)),
        // A take without its search, and a search without a take.
        (
            "ci-log 1\ntake 00010074 unit 0\nend none\n",
            LogFault::BadItem(30),
        ),
        (
            "ci-log 1\ntake 00010074 unit 0\nblock 00010074 none\nG\nblock 00010074 none\nG\nend none\n",
            LogFault::BadItem(52),
        ),
        // A tree that isn't whole, none, and more than one.
        ("ci-log 1\nblock 00010074 none\nBB", LogFault::Unfinished),
        (
            "ci-log 1\nblock 00010074 none\nBF\nend none\n",
            LogFault::BadItem(31),
        ),
        (
            "ci-log 1\nblock 00010074 none\n\nend none\n",
            LogFault::BadItem(29),
        ),
        (
            "ci-log 1\nblock 00010074 none\nGG\nend none\n",
            LogFault::Trailing(30),
        ),
        ("ci-log 1\nend nine\n", LogFault::BadItem(14)),
        ("ci-log 1\nend none\n\n", LogFault::Trailing(18)),
        // In version 2, a tree that isn't whole, another finish, and a byte behind the end.
        (
            "ci-log 2\nblock 00010074 none\n\x00\x05",
            LogFault::Unfinished,
        ),
        ("ci-log 2\nend nine\n", LogFault::BadItem(14)),
        ("ci-log 2\nend none\n\n", LogFault::Trailing(18)),
    ]
}

/// Asserts that two texts spell one book, the second in version 2.
fn expect_both_ways(
    rt: &(impl AllocGlobal + Abort),
    text: &[u8],
    packed: &[u8],
) -> Result<(), Fail> {
    let book = book_of(rt, text)?;
    let outcome = expect_packed(rt, &book, packed);
    drop(book);
    outcome?;
    let book = book_of(rt, packed)?;
    let outcome = expect_text(rt, &book, text);
    drop(book);
    outcome?;
    Ok(())
}

#[test]
fn a_packed_text_both_ways(rt: HostRuntime) -> Result<(), Fail> {
    assert!(rt; packed().len() == 92);
    expect_both_ways(&rt, text(), packed())
}

/// Trees with runs of leaves, and what stands for them in version 2.
fn runs() -> &'static [(&'static [u8], &'static [u8])] {
    &[
        // Runs of one leaf and of two.
        (b"BBIOC", b"\x00\x31\x20"),
        (b"BOBOO", b"\x01\x01\x60"),
        // One that goes on behind a node, and one of five leaves behind another run.
        (b"BBOOO", b"\x00\x17"),
        (b"BBBBBBGGFFFFF", b"\x00\x00\x00\x46\x59"),
        // Runs of 10, 11, 12, 21 and 22 leaves.
        (b"BBBBBBBBBFFFFFFFFFF", b"\x00\x00\x00\x00\x05\xe0"),
        (b"BBBBBBBBBBFFFFFFFFFFF", b"\x00\x00\x00\x00\x00\x5f"),
        (b"BBBBBBBBBBBCCCCCCCCCCCC", b"\x00\x00\x00\x00\x00\x02\xf6"),
        (
            b"BBBBBBBBBBBBBBBBBBBBGGGGGGGGGGGGGGGGGGGGG",
            b"\x00\x00\x00\x00\x00\x00\x00\x00\x00\x00\x4f\xf0",
        ),
        (
            b"BBBBBBBBBBBBBBBBBBBBBOOOOOOOOOOOOOOOOOOOOOO",
            b"\x00\x00\x00\x00\x00\x00\x00\x00\x00\x00\x01\xff\x60",
        ),
    ]
}

/// A book of one search, with these bytes for its first line and for its tree.
fn book_with(alloc: Global, first: &[u8], tree: &[u8]) -> Result<Vec<u8>, AllocError> {
    let mut text = Vec::from_slice(alloc, first)?;
    text.extend_from_slice(b"block 00010074 none\n")?;
    text.extend_from_slice(tree)?;
    text.extend_from_slice(b"\nend none\n")?;
    Ok(text)
}

#[test]
fn runs_of_leaves_both_ways(rt: HostRuntime) -> Result<(), Fail> {
    for (tree, packed) in runs() {
        let text = book_with(rt.alloc(), b"ci-log 1\n", *tree)?;
        let packed = book_with(rt.alloc(), b"ci-log 2\n", *packed)?;
        expect_both_ways(&rt, &text, &packed)?;
    }
    Ok(())
}

/// What stands for the tree of a search in a book of version 2, and what the fault of that book is.
fn packed_faults() -> &'static [(&'static [u8], LogFault)] {
    &[
        // A filling half that isn't 0, and a tree that goes on behind its end.
        (b"\x41", LogFault::BadItem(29)),
        (b"\x40\x40", LogFault::Trailing(30)),
        // Two equal leaves that are no run: in one byte, in two, and behind one that ended.
        (b"\x00\x55\x60", LogFault::BadItem(30)),
        (b"\x05\x50", LogFault::BadItem(30)),
        (b"\x05\x05\x50", LogFault::BadItem(31)),
        (b"\x00\x05\x65", LogFault::BadItem(31)),
        // A half byte for more leaves behind 5 + s, behind a branch, and at the beginning.
        (b"\x00\x00\x56\x60", LogFault::BadItem(32)),
        (b"\x00\x00\x56\xf0", LogFault::BadItem(32)),
        (b"\x06", LogFault::BadItem(29)),
        (b"\x60", LogFault::BadItem(29)),
        // A run past the end of the tree, by one leaf and by nine.
        (b"\x05\x70", LogFault::BadItem(30)),
        (b"\x05\xf0", LogFault::BadItem(30)),
        // Letters, and a tree that isn't whole.
        (b"BFF", LogFault::BadItem(29)),
        (b"\x00\n", LogFault::BadItem(30)),
    ]
}

#[test]
fn the_first_fault_of_a_packed_tree(rt: HostRuntime) -> Result<(), Fail> {
    for (tree, due) in packed_faults() {
        let text = book_with(rt.alloc(), b"ci-log 2\n", *tree)?;
        assert!(rt; has_fault(&rt, &text, due));
    }
    Ok(())
}

#[test]
fn the_first_fault(rt: HostRuntime) {
    for (text, due) in faults() {
        assert!(rt; has_fault(&rt, text.as_bytes(), due), "{text}");
    }
}

#[test]
fn tree_in_a_region(rt: HostRuntime) -> Result<(), Fail> {
    let mut region = Region::with_capacity(rt.alloc(), 2)?;
    let below = region.take(LogNode {
        taken: Child::Leaf(Item::C),
        left_out: Child::Leaf(Item::F),
    })?;
    let root = region.take(LogNode {
        taken: Child::Inner(below),
        left_out: Child::Leaf(Item::G),
    })?;
    assert!(rt; region.used() == 2);
    let log = flatten(rt.alloc(), &region, Child::Inner(root))?;
    let items = [Item::B, Item::B, Item::C, Item::F, Item::G];
    assert!(rt; log.items() == items.as_slice());
    Ok(())
}
