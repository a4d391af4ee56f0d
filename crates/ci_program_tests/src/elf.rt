//! Files, and what they read as.
ghost use Rattle.std.specs.Prelude.{◌+◌, ◌<◌};

use crate::common::change;
use ci_elf::{ElfFault, Image, Places, Range, Segment, frame, range_with, read};
use std::alloc::{AllocError, Global};
use std::process::Abort;
use std::test::Fail;

/// The fault of a file, if it has one.
fn fault_of(rt: &impl Abort, alloc: Global, bytes: &[u8]) -> Option<ElfFault> {
    assert!(rt; bytes.len() <= 268_435_456);
    match read(alloc, bytes) {
        Ok(_) => None,
        Err(fault) => Some(fault),
    }
}

/// The image of a file.
fn image_of(rt: &impl Abort, alloc: Global, bytes: &[u8]) -> Result<Image, ElfFault> {
    assert!(rt; bytes.len() <= 268_435_456);
    read(alloc, bytes)
}

/// The fault of the file that has the one word `addi x0, x0, 0`, with other words at some offsets.
fn changed(
    rt: &impl Abort,
    alloc: Global,
    edits: &[(usize, u32)],
) -> Result<Option<ElfFault>, AllocError> {
    let mut bytes = frame(alloc, &[0x13], &[], &[])?;
    change(rt, &mut bytes, edits);
    Ok(fault_of(rt, alloc, &bytes))
}

/// The fault of the front of that file.
fn cut(rt: &impl Abort, alloc: Global, len: usize) -> Result<Option<ElfFault>, AllocError> {
    let mut bytes = frame(alloc, &[0x13], &[], &[])?;
    bytes.truncate(len);
    Ok(fault_of(rt, alloc, &bytes))
}

// A test hands its table on as a whole, so that the proof of the loop over it does not look at it.

/// Words at offsets, and the fault of the file that has them.
type Row<'a> = (&'a [(usize, u32)], Option<ElfFault>);

/// Fails where a file has another fault than its row says.
fn are_faults(rt: &impl Abort, alloc: Global, rows: &[Row<'_>]) -> Result<(), AllocError> {
    for (edits, due) in rows {
        let found = changed(rt, alloc, edits)?;
        assert!(rt; found == *due, "{edits:?}");
    }
    Ok(())
}

/// How many bytes of the file there are, and its fault then.
fn fronts() -> &'static [(usize, Option<ElfFault>)] {
    &[
        (0, Some(ElfFault::Short(0))),
        (51, Some(ElfFault::Short(0))),
        (52, Some(ElfFault::Short(52))),
        (60, Some(ElfFault::Short(52))),
        (116, Some(ElfFault::Short(120))),
        (200, Some(ElfFault::Short(120))),
        (279, Some(ElfFault::Short(120))),
        (280, None),
    ]
}

/// The smallest file with the text 00000013, the constant 1000 and the value 5, by the standard's tables of fields.
fn words_of_a_file() -> &'static [u32] {
    &[
        // The file header.
        0x464c457f, 0x00010101, 0, 0, 0x00f30002, 1, 0x10074, 52, 128, 0, 0x00200034, 0x00280002,
        4,
        // Program headers: the first segment may be read and executed, the second one read and written.
        1, 0, 0x10000, 0x10000, 124, 124, 5, 4, 1, 124, 0x20000, 0x20000, 4, 4, 6, 4,
        // The text, the constant and the value.
        0x13, 1000, 5,
        // Section headers: an empty one, and those of the text, the constant and the value.
        0, 0, 0, 0, 0, 0, 0, 0, 0, 0, 0, 1, 6, 0x10074, 116, 4, 0, 0, 0, 0, 0, 1, 2, 0x10078, 120,
        4, 0, 0, 0, 0, 0, 1, 3, 0x20000, 124, 4, 0, 0, 0, 0,
    ]
}

#[test]
fn a_file_has_these_words(rt: HostRuntime) -> Result<(), Fail> {
    let mut due = Vec::new(rt.alloc());
    for word in words_of_a_file() {
        due.extend_from_slice(&word.to_le_bytes())?;
    }
    let file = frame(rt.alloc(), &[0x13], &[1000], &[5])?;
    assert!(rt; file.as_slice() == due.as_slice());
    Ok(())
}

#[test]
fn a_file_may_be_cut(rt: HostRuntime) -> Result<(), Fail> {
    for (len, due) in fronts() {
        let found = cut(&rt, rt.alloc(), *len)?;
        assert!(rt; found == *due, "{len}");
    }
    Ok(())
}

#[test]
fn the_file_header_is_tested(rt: HostRuntime) -> Result<(), AllocError> {
    let rows: &[Row<'_>] = &[
        (&[(0, 0x464c_4500)], Some(ElfFault::NotElf)),
        (&[(4, 0x0001_0102)], Some(ElfFault::WrongKind(4, 2))),
        (&[(4, 0x0001_0201)], Some(ElfFault::WrongKind(5, 2))),
        (&[(4, 0x0002_0101)], Some(ElfFault::WrongKind(6, 2))),
        (&[(16, 0x00f3_0003)], Some(ElfFault::WrongKind(16, 3))),
        (&[(16, 0x003e_0002)], Some(ElfFault::WrongKind(18, 62))),
        (&[(20, 2)], Some(ElfFault::WrongKind(20, 2))),
        (&[(36, 1)], Some(ElfFault::WrongKind(36, 1))),
        (&[(36, 4)], None),
    ];
    are_faults(&rt, rt.alloc(), rows)
}

#[test]
fn other_fields_are_free(rt: HostRuntime) -> Result<(), AllocError> {
    let rows: &[Row<'_>] = &[
        // What follows the version in e_ident, then e_ehsize and e_shstrndx.
        (
            &[(4, 0xff01_0101), (8, 0xffff_ffff), (12, 0xffff_ffff)],
            None,
        ),
        (&[(40, 0x0020_ffff), (48, 0xffff_0004)], None),
        // Of the text's segment p_paddr, p_flags and p_align.
        (&[(64, 0xffff_ffff), (76, 0), (80, 3)], None),
        // Of the text's section sh_name, sh_link, sh_info, sh_addralign and sh_entsize.
        (
            &[
                (160, 0xffff_ffff),
                (184, 0xffff_ffff),
                (188, 0xffff_ffff),
                (192, 3),
                (196, 3),
            ],
            None,
        ),
    ];
    are_faults(&rt, rt.alloc(), rows)
}

#[test]
fn the_tables_are_tested(rt: HostRuntime) -> Result<(), AllocError> {
    let rows: &[Row<'_>] = &[
        (&[(40, 0x0021_0034)], Some(ElfFault::WrongKind(42, 33))),
        (&[(44, 0x0029_0002)], Some(ElfFault::WrongKind(46, 41))),
        (&[(28, 0xffff_ffff)], Some(ElfFault::Short(0xffff_ffff))),
        (&[(32, 0xffff_fff0)], Some(ElfFault::Short(0xffff_fff0))),
        // Neither table has entries: where they would lie and what size their entries have is free.
        (
            &[
                (28, 0xffff_ffff),
                (32, 0xffff_ffff),
                (40, 0x0021_0034),
                (44, 0x0029_0000),
                (48, 0),
            ],
            Some(ElfFault::EntryNotText),
        ),
    ];
    are_faults(&rt, rt.alloc(), rows)
}

#[test]
fn each_segment_is_tested(rt: HostRuntime) -> Result<(), AllocError> {
    let rows: &[Row<'_>] = &[
        (&[(84, 3)], Some(ElfFault::WrongKind(84, 3))),
        // A PT_PHDR and a PT_TLS are not loaded.
        (&[(84, 6), (92, 0x1_0000), (104, 4)], None),
        (&[(84, 7), (92, 0x1_0000), (104, 4)], None),
        // Without memory, a segment may have its bytes anywhere.
        (&[(88, 0xffff_ffff), (100, 4)], None),
        // Without bytes in the file, one with memory may have them anywhere, too.
        (&[(88, 0xffff_ffff), (104, 4)], None),
        (&[(56, 0xffff_ffff)], Some(ElfFault::Short(0xffff_ffff))),
        (&[(72, 4)], Some(ElfFault::BadSegment(0))),
        (&[(92, 0xfffe_fffc), (104, 4)], None),
        (
            &[(92, 0xfffe_fffd), (104, 4)],
            Some(ElfFault::BadSegment(1)),
        ),
        (
            &[(92, 0xffff_fffc), (104, 8)],
            Some(ElfFault::BadSegment(1)),
        ),
        (&[(92, 0x7fef_fffc), (104, 4)], None),
        (
            &[(92, 0x7fef_fffd), (104, 4)],
            Some(ElfFault::BadSegment(1)),
        ),
        (
            &[(92, 0x7fff_ffff), (104, 1)],
            Some(ElfFault::BadSegment(1)),
        ),
        // One that begins below the stack and ends above it.
        (
            &[(92, 0x7fe0_0000), (104, 0x30_0000)],
            Some(ElfFault::BadSegment(1)),
        ),
        (&[(92, 0x8000_0000), (104, 1)], None),
    ];
    are_faults(&rt, rt.alloc(), rows)
}

#[test]
fn the_memory_is_tested(rt: HostRuntime) -> Result<(), AllocError> {
    let rows: &[Row<'_>] = &[
        (&[(92, 0x1_0000), (104, 4)], Some(ElfFault::Overlap(0, 1))),
        (&[(92, 0x1_0077), (104, 1)], Some(ElfFault::Overlap(0, 1))),
        (&[(92, 0x1_0078), (104, 1)], None),
        (&[(92, 0x0_fffc), (104, 4)], None),
        // One that begins below the first and ends in it, or above it.
        (&[(92, 0x0_fffd), (104, 4)], Some(ElfFault::Overlap(0, 1))),
        (
            &[(92, 0x0_f000), (104, 0x2000)],
            Some(ElfFault::Overlap(0, 1)),
        ),
        // The first segment has 120 bytes of memory, and the stack 1,048,576.
        (&[(104, 66_060_168)], None),
        (&[(104, 66_060_169)], Some(ElfFault::TooLarge)),
    ];
    are_faults(&rt, rt.alloc(), rows)
}

#[test]
fn each_section_is_tested(rt: HostRuntime) -> Result<(), AllocError> {
    let rows: &[Row<'_>] = &[
        (&[(180, 8)], Some(ElfFault::BadSection(1))),
        (&[(172, 0x1_0078)], Some(ElfFault::BadSection(1))),
        // Text over the last bytes of the program headers.
        (
            &[(172, 0x1_0070), (176, 112)],
            Some(ElfFault::BadSection(1)),
        ),
        // Text over the file header, and over the section headers.
        (&[(172, 0x1_0000), (176, 0)], Some(ElfFault::BadSection(1))),
        (
            &[(68, 280), (72, 280), (180, 8)],
            Some(ElfFault::BadSection(1)),
        ),
        // A symbol table at the end of the file: entries of no size, of 16 bytes, half an entry, and one past the end.
        (&[(204, 2)], Some(ElfFault::BadSection(2))),
        (&[(204, 2), (236, 16)], None),
        // An SHT_DYNSYM is no symbol table here.
        (&[(204, 11)], None),
        (&[(204, 2), (236, 16), (220, 16)], None),
        // One without entries, behind the end of the file.
        (&[(204, 2), (236, 16), (216, 0xffff_ffff)], None),
        (
            &[(204, 2), (236, 16), (220, 8)],
            Some(ElfFault::BadSection(2)),
        ),
        (
            &[(204, 2), (236, 16), (216, 265), (220, 16)],
            Some(ElfFault::BadSection(2)),
        ),
        // A symbol table over the text.
        (
            &[(204, 2), (236, 16), (216, 116), (220, 16)],
            Some(ElfFault::BadSection(1)),
        ),
        // A text without bytes, which no segment loads, is none.
        (&[(208, 6), (212, 0)], None),
        // A second text over the first.
        (
            &[(208, 6), (212, 0x1_0074), (216, 116), (220, 4)],
            Some(ElfFault::BadSection(2)),
        ),
    ];
    are_faults(&rt, rt.alloc(), rows)
}

#[test]
fn the_text_is_tested(rt: HostRuntime) -> Result<(), AllocError> {
    let rows: &[Row<'_>] = &[
        // The second segment maps the file from its beginning, the text too, or up to the text.
        (
            &[(88, 0), (100, 120), (104, 120)],
            Some(ElfFault::SharedText(0, 1)),
        ),
        (&[(88, 0), (100, 116), (104, 120)], None),
        (&[(24, 0x1_0076)], Some(ElfFault::EntryNotText)),
        (&[(24, 0x1_0078)], Some(ElfFault::EntryNotText)),
        (&[(24, 0x1_0070)], Some(ElfFault::EntryNotText)),
        // No text, and text without a whole word.
        (&[(180, 0)], Some(ElfFault::EntryNotText)),
        (&[(180, 3)], Some(ElfFault::EntryNotText)),
        // Of one flag alone, of a third one too, and of another type.
        (&[(168, 4)], Some(ElfFault::EntryNotText)),
        (&[(168, 2)], Some(ElfFault::EntryNotText)),
        (&[(168, 7)], None),
        (&[(164, 8)], Some(ElfFault::EntryNotText)),
    ];
    are_faults(&rt, rt.alloc(), rows)
}

// Images are let go by calls of `drop`, which a proof does not look into.

/// Asserts which addresses lie in the text of an image.
fn expect_in_text(rt: &impl Abort, image: &Image, rows: &[(u32, bool)]) {
    for (address, due) in rows {
        assert!(rt; image.in_text(*address) == *due, "{address:x}");
    }
}

/// Asserts what bytes an image loads.
fn expect_loaded(rt: &impl Abort, image: &Image, rows: &[(u32, Option<u8>)]) {
    for (address, due) in rows {
        assert!(rt; image.loaded_byte(*address) == *due, "{address:x}");
    }
}

// What is compared is the answer of a function, which costs a proof less than an assertion does.

/// Whether an image has these segments, by the order of their headers and by that of their addresses.
fn has_segments(image: &Image) -> bool {
    let text = Segment {
        address: 0x1_0000,
        memory_size: 128,
        offset: 0,
        file_size: 128,
    };
    let values = Segment {
        address: 0x0_8000,
        memory_size: 12,
        offset: 128,
        file_size: 12,
    };
    image.segments() == [text, values].as_slice()
        && image.segments_by_address() == [values, text].as_slice()
}

/// Whether an image has one range of two words.
fn has_range(image: &Image) -> bool {
    let words = Range {
        start: 0x1_0074,
        words: 2,
    };
    image.ranges() == [words].as_slice() && range_with(image.ranges(), 0x1_007b) == Some(0)
}

/// Whether an image has this entry and these bytes, and no symbols.
fn has_bytes(image: &Image, entry: u32, bytes: &[u8]) -> bool {
    image.entry() == entry && image.bytes() == bytes && image.symbols().len() == 0
}

/// Addresses, and whether they lie in the text of the image.
fn addresses_of_text() -> &'static [(u32, bool)] {
    &[
        (0x1_0074, true),
        (0x1_007b, true),
        (0x1_0073, false),
        (0x1_007c, false),
    ]
}

/// Addresses, and the bytes that the image loads there.
fn loaded_bytes() -> &'static [(u32, Option<u8>)] {
    &[
        (0x7fff, None),
        (0x8004, Some(6)),
        (0x800c, None),
        (0xffff, None),
        (0x1_0001, Some(0x45)),
        (0x1_0080, None),
    ]
}

/// Asserts what the parts of the image of the file of these bytes are.
fn expect_parts(rt: &impl Abort, image: &Image, bytes: &[u8]) {
    assert!(rt; has_bytes(image, 0x1_0074, bytes));
    assert!(rt; has_segments(image));
    assert!(rt; has_range(image));
    expect_in_text(rt, image, addresses_of_text());
    expect_loaded(rt, image, loaded_bytes());
}

#[test]
fn an_image_has_the_parts_of_its_file(rt: HostRuntime) -> Result<(), Fail> {
    let mut bytes = frame(rt.alloc(), &[0x13, 0x73], &[1000], &[5, 6, 7])?;
    // The values lie below the text.
    change(&rt, &mut bytes, &[(92, 0x8000)]);
    let image = image_of(&rt, rt.alloc(), &bytes)?;
    expect_parts(&rt, &image, &bytes);
    drop(image);
    Ok(())
}

/// Asserts that the text of the file that has two words, with other words at some offsets, is this range.
fn expect_text(
    rt: &impl Abort,
    alloc: Global,
    edits: &[(usize, u32)],
    range: Range,
) -> Result<(), Fail> {
    let mut bytes = frame(alloc, &[0x13, 0x73], &[], &[])?;
    change(rt, &mut bytes, edits);
    let image = image_of(rt, alloc, &bytes)?;
    assert!(rt; image.ranges() == [range].as_slice());
    drop(image);
    Ok(())
}

#[test]
fn the_text_is_whole_words(rt: HostRuntime) -> Result<(), Fail> {
    let first = Range {
        start: 0x1_0074,
        words: 1,
    };
    let last = Range {
        start: 0x1_0078,
        words: 1,
    };
    // The section lacks the last byte of the text.
    expect_text(&rt, rt.alloc(), &[(184, 7)], first)?;
    // It lacks the first one, and the entry is the second word.
    let late = [(24, 0x1_0078), (176, 0x1_0075), (180, 117), (184, 7)];
    expect_text(&rt, rt.alloc(), &late, last)
}

/// Asserts that an image has these bytes, and this word at an address.
fn expect_word(rt: &impl Abort, image: &Image, bytes: &[u8], address: u32, word: u32) {
    assert!(rt; address % 4 == 0);
    assert!(rt; image.in_text(address));
    assert!(rt; image.word(address) == word && image.bytes() == bytes);
}

/// Patches a word.
fn patch(rt: &impl Abort, image: &mut Image, address: u32, word: u32) {
    assert!(rt; address % 4 == 0);
    assert!(rt; image.in_text(address));
    image.patch(address, word);
}

/// Asserts what a patch of the second word leaves in an image and in a copy from before.
fn expect_patch(
    rt: &impl Abort,
    alloc: Global,
    image: &mut Image,
    bytes: &[u8],
    patched: &[u8],
) -> Result<(), Fail> {
    expect_word(rt, image, bytes, 0x1_0078, 0x73);
    let copy = image.duplicate(alloc)?;
    patch(rt, image, 0x1_0078, 0x0010_0073);
    expect_word(rt, image, patched, 0x1_0078, 0x0010_0073);
    expect_word(rt, &copy, bytes, 0x1_0078, 0x73);
    drop(copy);
    Ok(())
}

#[test]
fn a_word_is_patched(rt: HostRuntime) -> Result<(), Fail> {
    let bytes = frame(rt.alloc(), &[0x13, 0x73], &[], &[])?;
    let mut expected = Vec::from_slice(rt.alloc(), &bytes)?;
    change(&rt, &mut expected, &[(120, 0x0010_0073)]);
    let mut image = image_of(&rt, rt.alloc(), &bytes)?;
    let outcome = expect_patch(&rt, rt.alloc(), &mut image, &bytes, &expected);
    drop(image);
    outcome
}

/// Whether these are the places of two words.
fn are_places(places: &Places) -> bool {
    let mut last = 7;
    let near = places.near(&mut last, 0x1_0078);
    near == Some(1)
        && last == 0
        && places.len() == 2
        && places.in_text(0x1_007b)
        && !places.in_text(0x1_007c)
        && places.of(0x1_007a) == None
}

/// Asserts where the two words of a file have their places.
fn expect_places(rt: &impl Abort, alloc: Global, image: &Image) -> Result<(), AllocError> {
    let places = Places::new(alloc, image.ranges())?;
    assert!(rt; places.ranges() == image.ranges());
    assert!(rt; are_places(&places));
    drop(places);
    Ok(())
}

#[test]
fn words_have_places(rt: HostRuntime) -> Result<(), Fail> {
    let bytes = frame(rt.alloc(), &[0x13, 0x73], &[], &[])?;
    let image = image_of(&rt, rt.alloc(), &bytes)?;
    let outcome = expect_places(&rt, rt.alloc(), &image);
    drop(image);
    outcome?;
    Ok(())
}

/// Asserts what symbols a file has.
fn expect_symbols(
    rt: &impl Abort,
    alloc: Global,
    bytes: &[u8],
    symbols: &[u32],
) -> Result<(), ElfFault> {
    let image = image_of(rt, alloc, bytes)?;
    assert!(rt; image.symbols() == symbols);
    drop(image);
    Ok(())
}

#[test]
fn symbols_are_read_in_order(rt: HostRuntime) -> Result<(), Fail> {
    // Two symbol tables: the values, as two entries, and the constants, as one.
    let values = [0, 0x1_0078, 0, 0, 0, 0x1_0074, 0, 0];
    let mut bytes = frame(rt.alloc(), &[0x13, 0x73], &[0, 7, 0, 0], &values)?;
    change(&rt, &mut bytes, &[(296, 2), (328, 16)]);
    expect_symbols(&rt, rt.alloc(), &bytes, &[0x1_0078, 0x1_0074])?;
    change(&rt, &mut bytes, &[(256, 2), (288, 16)]);
    expect_symbols(&rt, rt.alloc(), &bytes, &[7, 0x1_0078, 0x1_0074])?;
    Ok(())
}

/// A file with two symbol tables at these offsets, of these sizes, over its constants and values: from
/// offset 124 on stand the words 0 to 11.
fn with_tables(
    rt: &impl Abort,
    alloc: Global,
    first: (u32, u32),
    second: (u32, u32),
) -> Result<Vec<u8>, AllocError> {
    let values = [4, 5, 6, 7, 8, 9, 10, 11];
    let mut bytes = frame(alloc, &[0x13, 0x73], &[0, 1, 2, 3], &values)?;
    change(rt, &mut bytes, &[(256, 2), (288, 16)]);
    change(rt, &mut bytes, &[(268, first.0), (272, first.1)]);
    change(rt, &mut bytes, &[(296, 2), (328, 16)]);
    change(rt, &mut bytes, &[(308, second.0), (312, second.1)]);
    Ok(bytes)
}

#[test]
fn shared_symbols_count_once(rt: HostRuntime) -> Result<(), Fail> {
    // The second table begins at the last entry of the first one, and goes on behind it.
    let bytes = with_tables(&rt, rt.alloc(), (124, 32), (140, 32))?;
    expect_symbols(&rt, rt.alloc(), &bytes, &[1, 5, 9])?;
    // The second table has the entry of the first one between two others.
    let bytes = with_tables(&rt, rt.alloc(), (140, 16), (124, 48))?;
    expect_symbols(&rt, rt.alloc(), &bytes, &[5, 1, 9])?;
    Ok(())
}

#[test]
fn symbols_that_overlap_all_count(rt: HostRuntime) -> Result<(), Fail> {
    // The entries of the second table begin four bytes behind those of the first one.
    let bytes = with_tables(&rt, rt.alloc(), (124, 32), (128, 32))?;
    expect_symbols(&rt, rt.alloc(), &bytes, &[1, 5, 2, 6])?;
    // They begin eight bytes behind, half an entry.
    let bytes = with_tables(&rt, rt.alloc(), (124, 32), (132, 32))?;
    expect_symbols(&rt, rt.alloc(), &bytes, &[1, 5, 3, 7])?;
    Ok(())
}

#[test]
fn a_table_twice_counts_once(rt: HostRuntime) -> Result<(), Fail> {
    let bytes = with_tables(&rt, rt.alloc(), (140, 32), (140, 32))?;
    expect_symbols(&rt, rt.alloc(), &bytes, &[5, 9])?;
    Ok(())
}

#[test]
fn symbols_are_shared_with_symbol_tables_alone(rt: HostRuntime) -> Result<(), Fail> {
    // Section 2, which is no symbol table, has the bytes of the first two entries.
    let mut bytes = with_tables(&rt, rt.alloc(), (124, 32), (124, 48))?;
    change(&rt, &mut bytes, &[(256, 1)]);
    expect_symbols(&rt, rt.alloc(), &bytes, &[1, 5, 9])?;
    Ok(())
}

#[test]
fn tables_apart_share_symbols(rt: HostRuntime) -> Result<(), Fail> {
    // Section 0 is a symbol table of two entries, section 2 is none, and section 3 begins at the second entry.
    let mut bytes = with_tables(&rt, rt.alloc(), (124, 16), (140, 32))?;
    change(&rt, &mut bytes, &[(256, 1), (176, 2), (188, 124)]);
    change(&rt, &mut bytes, &[(192, 32), (208, 16)]);
    expect_symbols(&rt, rt.alloc(), &bytes, &[1, 5, 9])?;
    Ok(())
}

/// How many headers each table of the large file has.
const MANY: u32 = 65_535;

/// A file header for tables of `MANY` headers, the section headers behind the program headers.
fn push_large_header(bytes: &mut Vec<u8>) -> Result<(), AllocError> {
    bytes.extend_from_slice(b"\x7fELF\x01\x01\x01\0\0\0\0\0\0\0\0\0\x02\0\xf3\0")?;
    for word in [
        1,
        0x10_0000,
        52,
        52 + 32 * MANY,
        0,
        52 + (32 << 16),
        MANY + (40 << 16),
        MANY,
    ] {
        bytes.extend_from_slice(&word.to_le_bytes())?;
    }
    Ok(())
}

/// Program and section headers of as many segments and texts of one word, by falling addresses. The
/// file bytes of all of them lie behind both tables.
fn push_large_tables(bytes: &mut Vec<u8>, last: u32) -> Result<(), AllocError> {
    let words = 52 + 72 * MANY;
    for i in 0..MANY {
        let place = 4 * (MANY - 1 - i);
        let address = if i == MANY - 1 {
            last
        } else {
            0x10_0000 + place
        };
        for word in [1, words + place, address, address, 4, 4, 5, 4] {
            bytes.extend_from_slice(&word.to_le_bytes())?;
        }
    }
    for i in 0..MANY {
        let place = 4 * i;
        for word in [0, 1, 6, 0x10_0000 + place, words + place, 4, 0, 0, 0, 0] {
            bytes.extend_from_slice(&word.to_le_bytes())?;
        }
    }
    for _ in 0..MANY {
        bytes.extend_from_slice(&[0x13, 0, 0, 0])?;
    }
    Ok(())
}

/// The fault of the large file whose last segment begins at this address.
fn large_fault(rt: &impl Abort, alloc: Global, last: u32) -> Result<Option<ElfFault>, AllocError> {
    let mut bytes = Vec::new(alloc);
    push_large_header(&mut bytes)?;
    push_large_tables(&mut bytes, last)?;
    Ok(fault_of(rt, alloc, &bytes))
}

#[test]
fn many_headers_take_little_time(rt: HostRuntime) -> Result<(), Fail> {
    assert!(rt; large_fault(&rt, rt.alloc(), 0x10_0000)? == None);
    let overlap = Some(ElfFault::Overlap(0, MANY - 1));
    assert!(rt; large_fault(&rt, rt.alloc(), 0x10_0000 + 4 * (MANY - 1))? == overlap);
    Ok(())
}
