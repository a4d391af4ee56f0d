//! `add x5, x10, x11`, whose word is 00B502B3.
use ci_reading::{
    Numbers, Stop, address, begins_with, bytes_of_words, hex_text, number, number_of_digits,
    push_hex, word, word_at,
};
use std::test::Fail;

const WORD: u32 = 0x00B5_02B3;

const BYTES: [u8; 4] = [0xB3, 0x02, 0xB5, 0x00];

#[test]
fn digits_behind_a_text(rt: HostRuntime) -> Result<(), Fail> {
    let mut text = String::from_str(rt.alloc(), "word ")?;
    push_hex(&mut text, WORD)?;
    assert!(rt; text.as_str() == "word 00b502b3");
    Ok(())
}

#[test]
fn digits_alone(rt: HostRuntime) -> Result<(), Fail> {
    assert!(rt; hex_text(rt.alloc(), WORD)?.as_str() == "00b502b3");
    assert!(rt; hex_text(rt.alloc(), 0x9876_ACDF)?.as_str() == "9876acdf");
    Ok(())
}

#[test]
fn words_as_bytes(rt: HostRuntime) -> Result<(), Fail> {
    let bytes = bytes_of_words(rt.alloc(), &[WORD, 0x0403_0201])?;
    assert!(rt; bytes.as_slice() == [0xB3, 0x02, 0xB5, 0x00, 1, 2, 3, 4].as_slice());
    Ok(())
}

#[test]
fn words_of_bytes(rt: HostRuntime) {
    let bytes = [0xFF, 0xFF, 0xFF, 0xFF, 0xB3, 0x02, 0xB5, 0x00, 0x13];
    assert!(rt; word_at(&BYTES, 0) == WORD);
    assert!(rt; word_at(&bytes, 1) == WORD);
}

#[test]
fn numbers_of_digits(rt: HostRuntime) {
    assert!(rt; number_of_digits(10, 10, b"9999999999") == Some(9_999_999_999));
    assert!(rt; number_of_digits(10, 10, b"0000000042") == Some(42));
    assert!(rt; number_of_digits(16, 8, b"00B502b3") == Some(0x00B5_02B3));
    assert!(rt; number_of_digits(16, 10, b"FFFFFFFFFF") == Some(0xFF_FFFF_FFFF));
}

#[test]
fn texts_that_are_no_numbers(rt: HostRuntime) {
    assert!(rt; number_of_digits(10, 10, b"") == None);
    assert!(rt; number_of_digits(10, 10, b"00000000042") == None);
    assert!(rt; number_of_digits(10, 10, b"4a") == None);
    assert!(rt; number_of_digits(16, 8, b"4g") == None);
    assert!(rt; number_of_digits(16, 8, b"-4") == None);
}

const UNITS: Numbers = Numbers {
    low: 0,
    high: 31,
    end: b'\n',
    listed: false,
};

#[test]
fn fields_of_a_line(rt: HostRuntime) -> Result<(), Stop> {
    let line = b"take 00010074 unit 31\nend";
    let rest = word(line, b"take ")?;
    let (leader, rest) = address(rest)?;
    assert!(rt; leader == 0x0001_0074);
    assert!(rt; begins_with(rest, b' '));
    let rest = word(rest, b" unit ")?;
    let (unit, end, rest) = number(rest, UNITS)?;
    assert!(rt; (unit, end) == (31, b'\n'));
    assert!(rt; rest == b"end".as_slice());
    Ok(())
}

#[test]
fn fields_that_stop(rt: HostRuntime) {
    assert!(rt; word(b"tame ", b"take ") == Err(Stop { left: 3 }));
    assert!(rt; word(b"tak", b"take ") == Err(Stop { left: 0 }));
    assert!(rt; address(b"0001007A ") == Err(Stop { left: 2 }));
    assert!(rt; number(b"32\n", UNITS) == Err(Stop { left: 2 }));
    assert!(rt; number(b"07\n", UNITS) == Err(Stop { left: 2 }));
    assert!(rt; number(b"7 ", UNITS) == Err(Stop { left: 1 }));
}
