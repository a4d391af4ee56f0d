//! The keys of a table's text.
ghost use Rattle.std.specs.Prelude.{◌≡◌, Some, None, option_map, option_copied};
ghost use Rattle.ci_lat.specs.Keys.{word_of, key_word, key_name, number, number_of, kind_of, is_of_kind};
ghost use Rattle.toml.specs.View.{view};

use ci_word::Class;
use std::fmt;
use toml::Value;

/// A key of a table's text. It prints as its name, and in `software` and `hardware` as that of the
/// table, a dot and the word for the class, as in `software.add`.
#[derive(Clone, Copy, Debug, PartialEq, Eq)]
pub enum Key {
    /// The latency of `cread`, which reads a hidden result, and of `cput`, which sets the hidden operands, in cycles.
    Read,
    /// The latency of a no-op that fills a place, in cycles.
    Pad,
    /// The table of latencies.
    Software,
    /// The table of delays.
    Hardware,
    /// The latency of a class, in cycles.
    SoftwareOf(Class),
    /// The delay of a class, in thousandths of a cycle.
    HardwareOf(Class),
}

/// The keys that stand in no table of the text.
pub(crate) const TEXT_KEYS: [Key; 4] = [Key::Read, Key::Pad, Key::Software, Key::Hardware];

/// The keys of `software`, in the order of their classes.
pub(crate) const SOFTWARE_KEYS: [Key; 16] = [
    Key::SoftwareOf(Class::Add),
    Key::SoftwareOf(Class::Logic),
    Key::SoftwareOf(Class::Shift),
    Key::SoftwareOf(Class::ShiftConst),
    Key::SoftwareOf(Class::Compare),
    Key::SoftwareOf(Class::Lui),
    Key::SoftwareOf(Class::Mul),
    Key::SoftwareOf(Class::Mulh),
    Key::SoftwareOf(Class::Load),
    Key::SoftwareOf(Class::Store),
    Key::SoftwareOf(Class::Branch),
    Key::SoftwareOf(Class::Jump),
    Key::SoftwareOf(Class::Auipc),
    Key::SoftwareOf(Class::Div),
    Key::SoftwareOf(Class::Fence),
    Key::SoftwareOf(Class::System),
];

/// The keys of `hardware`, in the order of their classes.
pub(crate) const HARDWARE_KEYS: [Key; 8] = [
    Key::HardwareOf(Class::Add),
    Key::HardwareOf(Class::Logic),
    Key::HardwareOf(Class::Shift),
    Key::HardwareOf(Class::ShiftConst),
    Key::HardwareOf(Class::Compare),
    Key::HardwareOf(Class::Lui),
    Key::HardwareOf(Class::Mul),
    Key::HardwareOf(Class::Mulh),
];

/// The word for the class in a table's text.
#[tactic(auto, unfolding(crate::specs::Keys::word_of, crate::specs::Latencies::rows))]
fn word_of(class: Class) -> &'static str
    ensures { result.now ≡ word_of class }
{
    match class {
        Class::Add => "add",
        Class::Logic => "logic",
        Class::Shift => "shift",
        Class::ShiftConst => "shift_const",
        Class::Compare => "compare",
        Class::Lui => "lui",
        Class::Mul => "mul",
        Class::Mulh => "mulh",
        Class::Load => "load",
        Class::Store => "store",
        Class::Branch => "branch",
        Class::Jump => "jump",
        Class::Auipc => "auipc",
        Class::Div => "div",
        Class::Fence => "fence",
        Class::System => "system",
        Class::Free => "",
    }
}

impl Key {
    /// The key in the table that it stands in.
    pub(crate) fn word(self) -> &'static str
        ensures { result.now ≡ key_word self }
    {
        match self {
            Key::Read => "read",
            Key::Pad => "pad",
            Key::Software => "software",
            Key::Hardware => "hardware",
            Key::SoftwareOf(class) | Key::HardwareOf(class) => word_of(class),
        }
    }

    /// The number that the value is, where it is an integer in the key's range.
    pub(crate) fn number(self, value: &Value) -> Option<u32>
        ensures { result ≡ number_of (kind_of self) (view value.now) }
    {
        match self {
            Key::Read | Key::SoftwareOf(_) => integer_within(value, 1, 1000),
            Key::Pad => integer_within(value, 0, 1000),
            Key::HardwareOf(_) => integer_within(value, 0, 100_000),
            Key::Software | Key::Hardware => None,
        }
    }

    /// Whether the value is a table where one is due, and else an integer in the key's range.
    pub(crate) fn takes(self, value: &Value) -> bool
        ensures { result ≡ is_of_kind (kind_of self) (view value.now) }
    {
        match self {
            Key::Software | Key::Hardware => value.is_table(),
            _ => self.number(value).is_some(),
        }
    }
}

/// The integer from `minimum` to `maximum` that the value is.
fn integer_within(value: &Value, minimum: u32, maximum: u32) -> Option<u32>
    ensures { result ≡ number_of (number minimum maximum) (view value.now) }
{
    let number = u32::try_from(value.as_integer()?).ok()?;
    if minimum <= number && number <= maximum {
        Some(number)
    } else {
        None
    }
}

impl fmt::Display for Key {
    ghost output = { λ key. Some (key_name key) };

    fn fmt<W: fmt::Write>(&self, f: &mut fmt::Formatter<W>) -> fmt::Result {
        match self {
            Key::SoftwareOf(class) => write!(f, "software.{}", word_of(*class)),
            Key::HardwareOf(class) => write!(f, "hardware.{}", word_of(*class)),
            _ => f.write_str(self.word()),
        }
    }
}
