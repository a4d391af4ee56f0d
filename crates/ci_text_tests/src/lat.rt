//! Texts of tables and what they give.
use ci_lat::{Key, LatFault, Table};
use ci_word::Class;
use std::alloc::AllocError;
use std::process::Abort;

// Long tables are the answers of functions, so that the proof of a test looks at none of them.

/// Each class with its latency and its delay by default.
fn defaults() -> &'static [(Class, u32, u32)] {
    &[
        (Class::Add, 1, 400),
        (Class::Logic, 1, 100),
        (Class::Shift, 1, 300),
        (Class::ShiftConst, 1, 0),
        (Class::Compare, 1, 400),
        (Class::Lui, 1, 0),
        (Class::Mul, 3, 2100),
        (Class::Mulh, 3, 2200),
        (Class::Load, 2, 0),
        (Class::Store, 1, 0),
        (Class::Branch, 1, 0),
        (Class::Jump, 2, 0),
        (Class::Auipc, 1, 0),
        (Class::Div, 32, 0),
        (Class::Fence, 1, 0),
        (Class::System, 1, 0),
        (Class::Free, 0, 0),
    ]
}

/// A `pad` that exceeds the default of `mulh`, the last latency that it is compared with, and `read`.
const PAD_ABOVE_MULH: &[u8] =
    b"pad = 4\nread = 3\n[software]\nadd = 4\nlogic = 4\nshift = 4\nshift_const = 4\n\
    compare = 4\nlui = 4\nmul = 4\n";

/// A `pad` that exceeds `read` alone.
const PAD_ABOVE_READ: &[u8] =
    b"pad = 4\nread = 3\n[software]\nadd = 4\nlogic = 4\nshift = 4\nshift_const = 4\n\
    compare = 4\nlui = 4\nmul = 4\nmulh = 4\n";

/// Texts and their faults.
fn faults() -> &'static [(&'static [u8], LatFault)] {
    &[
        (b"x", LatFault::NotToml),
        (b"\xff", LatFault::NotToml),
        (b"read = 1\nread = 2\n", LatFault::NotToml),
        (b"reed = 1", LatFault::UnknownKey),
        (b"reed = 1\nread = 0", LatFault::UnknownKey),
        (b"[software]\nfree = 1\n", LatFault::UnknownKey),
        (b"[hardware]\nload = 1", LatFault::UnknownKey),
        (
            b"software = 1\n[hardware]\nload = 1\n",
            LatFault::UnknownKey,
        ),
        (b"read = 0", LatFault::OutOfRange(Key::Read)),
        (b"read = -1", LatFault::OutOfRange(Key::Read)),
        (b"read = 1001", LatFault::OutOfRange(Key::Read)),
        (
            b"read = 9223372036854775807",
            LatFault::OutOfRange(Key::Read),
        ),
        (b"read = 1.0", LatFault::OutOfRange(Key::Read)),
        (b"read = \"1\"", LatFault::OutOfRange(Key::Read)),
        (b"read.x = 1", LatFault::OutOfRange(Key::Read)),
        (b"pad = -1", LatFault::OutOfRange(Key::Pad)),
        (b"pad = 1001\nread = 0", LatFault::OutOfRange(Key::Read)),
        (b"pad = 1001\nsoftware = 1", LatFault::OutOfRange(Key::Pad)),
        (b"software = 1", LatFault::OutOfRange(Key::Software)),
        (
            b"software = []\n[hardware]\nadd = -1\n",
            LatFault::OutOfRange(Key::Software),
        ),
        (
            b"software.add.x = 1",
            LatFault::OutOfRange(Key::SoftwareOf(Class::Add)),
        ),
        (
            b"[software]\nadd = 0",
            LatFault::OutOfRange(Key::SoftwareOf(Class::Add)),
        ),
        (
            b"[software]\nsystem = 1001\ndiv = 0\n",
            LatFault::OutOfRange(Key::SoftwareOf(Class::Div)),
        ),
        (
            b"hardware = 1\n[software]\nsystem = 1001\n",
            LatFault::OutOfRange(Key::SoftwareOf(Class::System)),
        ),
        (
            b"pad = 1000\nhardware = 1",
            LatFault::OutOfRange(Key::Hardware),
        ),
        (
            b"[hardware]\nadd = 100001\nlogic = -1\n",
            LatFault::OutOfRange(Key::HardwareOf(Class::Add)),
        ),
        (
            b"[hardware]\nmulh = -1\n",
            LatFault::OutOfRange(Key::HardwareOf(Class::Mulh)),
        ),
        (
            b"pad = 2",
            LatFault::PadTooLarge(Key::SoftwareOf(Class::Add)),
        ),
        (
            b"pad = 2\n[software]\nadd = 2\n",
            LatFault::PadTooLarge(Key::SoftwareOf(Class::Logic)),
        ),
        (
            PAD_ABOVE_MULH,
            LatFault::PadTooLarge(Key::SoftwareOf(Class::Mulh)),
        ),
        (PAD_ABOVE_READ, LatFault::PadTooLarge(Key::Read)),
        (
            b"pad = 2\nread = 1000\n[hardware]\nadd = 1.5\n",
            LatFault::OutOfRange(Key::HardwareOf(Class::Add)),
        ),
        (
            b"pad = 2\nread = 1000\n[hardware.add]\n",
            LatFault::OutOfRange(Key::HardwareOf(Class::Add)),
        ),
        (
            b"[[software]]\nadd = 0\n",
            LatFault::OutOfRange(Key::Software),
        ),
    ]
}

/// The classes in the order in which their keys are looked at, with their words. The first eight have a delay.
fn classes() -> &'static [(Class, &'static str)] {
    &[
        (Class::Add, "add"),
        (Class::Logic, "logic"),
        (Class::Shift, "shift"),
        (Class::ShiftConst, "shift_const"),
        (Class::Compare, "compare"),
        (Class::Lui, "lui"),
        (Class::Mul, "mul"),
        (Class::Mulh, "mulh"),
        (Class::Load, "load"),
        (Class::Store, "store"),
        (Class::Branch, "branch"),
        (Class::Jump, "jump"),
        (Class::Auipc, "auipc"),
        (Class::Div, "div"),
        (Class::Fence, "fence"),
        (Class::System, "system"),
    ]
}

/// The other keys, and what they print as.
fn names() -> &'static [(Key, &'static str)] {
    &[
        (Key::Read, "read"),
        (Key::Pad, "pad"),
        (Key::Software, "software"),
        (Key::Hardware, "hardware"),
    ]
}

// What is compared is the answer of a function, which costs a proof less than an assertion does.

/// Whether a class has this latency and this delay.
fn has_costs(table: &Table, class: Class, latency: u32, delay: u32) -> bool {
    table.latency(class) == latency && table.delay(class) == delay
}

/// Asserts that a table is the one by default.
fn is_usual(rt: &impl Abort, table: &Table) {
    assert!(rt; (table.read(), table.pad()) == (1, 0));
    for (class, latency, delay) in defaults() {
        assert!(rt; has_costs(table, *class, *latency, *delay), "{class:?}");
    }
}

#[test]
fn an_empty_text_is_the_usual_table(rt: HostRuntime) -> Result<(), LatFault> {
    is_usual(&rt, &Table::usual());
    is_usual(&rt, &Table::from_toml(rt.alloc(), b"")?);
    is_usual(
        &rt,
        &Table::from_toml(rt.alloc(), b"# nothing\n[software]\n[hardware]\n")?,
    );
    Ok(())
}

#[test]
fn faults_are_the_first(rt: HostRuntime) {
    for (text, fault) in faults() {
        assert!(rt; Table::from_toml(rt.alloc(), text).err() == Some(*fault));
    }
}

/// Numbers at the ends of their ranges.
fn ends() -> &'static [u8] {
    b"read = 1000\npad = 1000\nsoftware = { add = 1000, logic = 1000, shift = 1000, shift_const = 1000, \
    compare = 1000, lui = 1000, mul = 1000, mulh = 1000, load = 1, system = 1000 }\n\
    [hardware]\nadd = 0\nmulh = 100000\n"
}

fn expect_latencies(rt: &impl Abort, table: &Table, rows: &[(Class, u32)]) {
    for (class, latency) in rows {
        assert!(rt; table.latency(*class) == *latency);
    }
}

fn expect_delays(rt: &impl Abort, table: &Table, rows: &[(Class, u32)]) {
    for (class, delay) in rows {
        assert!(rt; table.delay(*class) == *delay);
    }
}

#[test]
fn ends_of_ranges_are_taken(rt: HostRuntime) -> Result<(), LatFault> {
    let table = Table::from_toml(rt.alloc(), ends())?;
    assert!(rt; (table.read(), table.pad()) == (1000, 1000));
    expect_latencies(
        &rt,
        &table,
        &[
            (Class::Mulh, 1000),
            (Class::Load, 1),
            (Class::Div, 32),
            (Class::System, 1000),
        ],
    );
    expect_delays(
        &rt,
        &table,
        &[(Class::Add, 0), (Class::Logic, 100), (Class::Mulh, 100_000)],
    );
    Ok(())
}

/// Asserts what a key prints as: the name of the table that it stands in, and its own.
fn expect_name(
    rt: &(impl Abort + AllocGlobal),
    key: Key,
    part: &str,
    name: &str,
) -> Result<(), AllocError> {
    let printed = format!(in rt.alloc(); "{key}")?;
    let due = format!(in rt.alloc(); "{part}{name}")?;
    assert!(rt; printed.as_str() == due.as_str());
    Ok(())
}

#[test]
fn keys_print_as_their_names(rt: HostRuntime) -> Result<(), AllocError> {
    for (key, name) in names() {
        expect_name(&rt, *key, "", name)?;
    }
    for (k, (class, word)) in classes().iter().enumerate() {
        expect_name(&rt, Key::SoftwareOf(*class), "software.", word)?;
        if k < 8 {
            expect_name(&rt, Key::HardwareOf(*class), "hardware.", word)?;
        }
    }
    Ok(())
}

/// Asserts that this is the fault of a table's text.
fn expect_fault(rt: &(impl Abort + AllocGlobal), text: &str, fault: LatFault) {
    assert!(rt; text.len() < 1000);
    let found = Table::from_toml(rt.alloc(), text.as_bytes()).err();
    assert!(rt; found == Some(fault), "{text}");
}

/// A text, and behind it the key of each class from the last one down to this one, with this value.
fn text_down_to(
    rt: &impl AllocGlobal,
    before: &str,
    classes: &[(Class, &'static str)],
    value: u32,
) -> Result<String, AllocError> {
    let mut text = String::from_str(rt.alloc(), before)?;
    for (_, word) in classes.iter().rev() {
        write!(text, "{word} = {value}\n")?;
    }
    Ok(text)
}

/// Asserts that of the keys of these classes, all of this value, the first one has the fault.
fn expect_first(
    rt: &(impl Abort + AllocGlobal),
    before: &str,
    classes: &[(Class, &'static str)],
    value: u32,
    fault: LatFault,
) -> Result<(), AllocError> {
    let text = text_down_to(rt, before, classes, value)?;
    expect_fault(rt, text.as_str(), fault);
    drop(text);
    Ok(())
}

// Behind each key that is out of its range stand all those before it, which aren't.
#[test]
fn keys_are_looked_at_in_order(rt: HostRuntime) -> Result<(), AllocError> {
    let all = classes();
    for (k, (class, _)) in all.iter().enumerate() {
        let fault = LatFault::OutOfRange(Key::SoftwareOf(*class));
        let rest = all.get(k..).unwrap_or(&[]);
        expect_first(&rt, "hardware = 1\n[software]\n", rest, 1001, fault)?;
    }
    let delayed = all.get(..8).unwrap_or(&[]);
    for (k, (class, _)) in delayed.iter().enumerate() {
        let fault = LatFault::OutOfRange(Key::HardwareOf(*class));
        let rest = delayed.get(k..).unwrap_or(&[]);
        expect_first(&rt, "pad = 9\n[hardware]\n", rest, 100_001, fault)?;
    }
    Ok(())
}

// Those of the first eight classes behind this one are as great as `pad`, and this one and those before it aren't.
#[test]
fn pad_is_compared_in_order(rt: HostRuntime) -> Result<(), AllocError> {
    let all = classes();
    for (k, (class, _)) in all.iter().enumerate() {
        let fault = if k < 8 {
            LatFault::PadTooLarge(Key::SoftwareOf(*class))
        } else {
            LatFault::PadTooLarge(Key::Read)
        };
        let before = all.get(..k).unwrap_or(&[]);
        let text = "pad = 40\nread = 39\n[software]\n";
        expect_first(&rt, text, before, 40, fault)?;
    }
    Ok(())
}
