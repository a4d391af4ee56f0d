//! What a TOML document says of a table.
ghost use Rattle.std.specs.Prelude.{◌≡◌, find, map, length, MatchOption, option_map};
ghost use Rattle.toml.specs.Data.{get_member, no_members};
ghost use Rattle.toml.specs.View.{view, table_view};
ghost use Rattle.ci_lat.specs.Faults.{members_of, given, setting, is_word_of, has_only};
ghost use Rattle.ci_lat.specs.Faults.{has_unknown_key, is_out_of_range, is_below_pad};

use crate::keys::{HARDWARE_KEYS, Key, SOFTWARE_KEYS, TEXT_KEYS};
use crate::table::Table;
use toml::Value;

/// The value at a word of the table.
fn member<'a>(table: &'a toml::Table, word: &str) -> Option<&'a Value>
    ensures { option_map (λ v. view v.now) result ≡ get_member word.now (table_view table.now) }
{
    table.get(word)
}

/// The table at a word of the document.
fn table_at<'a>(document: &'a toml::Table, word: &str) -> Option<&'a toml::Table>
    ensures { let found = members_of (get_member word.now (table_view document.now)) in
        MatchOption result (found ≡ no_members) (λ t. found ≡ table_view t.now) }
{
    match member(document, word) {
        Some(Value::Table(table)) => Some(table),
        _ => None,
    }
}

/// The value that the document gives for the key.
fn given<'a>(document: &'a toml::Table, key: Key) -> Option<&'a Value>
    ensures { option_map (λ v. view v.now) result ≡ given (table_view document.now) key }
{
    match key {
        Key::SoftwareOf(_) => member(table_at(document, "software")?, key.word()),
        Key::HardwareOf(_) => member(table_at(document, "hardware")?, key.word()),
        _ => member(document, key.word()),
    }
}

/// The number that the document gives for the key, or that of the usual table.
#[tactic(auto, unfolding(crate::specs::Faults::setting))]
pub(crate) fn setting(document: &toml::Table, key: Key) -> u32
    ensures { result ≡ setting (table_view document.now) key }
{
    match given(document, key) {
        Some(value) => key.number(value).unwrap_or(Table::usual().entry(key)),
        None => Table::usual().entry(key),
    }
}

/// Puts the numbers of the keys into `numbers`.
pub(crate) fn put_settings(document: &toml::Table, keys: &[Key], numbers: &mut [u32])
    requires { length numbers.old ≡ length keys.now }
    ensures { numbers.new ≡ map (setting (table_view document.now)) keys.now }
{
    for (i, key) in keys.iter().enumerate() {
        numbers[i] = setting(document, *key);
    }
}

/// Whether the word is that of one of the keys.
#[tactic(auto, unfolding(crate::specs::Faults::is_word_of))]
fn is_word_of(keys: &[Key], word: &str) -> bool
    ensures { result ≡ is_word_of keys.now word.now }
{
    keys.iter().any(|key| word == key.word())
}

/// Whether the table has no key but these.
#[tactic(auto, using(crate::proofs::TableWords::word_laws))]
fn has_only(table: &toml::Table, keys: &[Key]) -> bool
    ensures { result ≡ has_only keys.now (table_view table.now) }
{
    for word in table.keys() {
        if !is_word_of(keys, word.as_str()) {
            return false;
        }
    }
    true
}

/// Whether the table at the word has no key but these.
#[tactic(auto, unfolding(crate::specs::Faults::has_only))]
fn has_only_at(document: &toml::Table, word: &str, keys: &[Key]) -> bool
    ensures { result ≡ has_only keys.now (members_of (get_member word.now (table_view document.now))) }
{
    match table_at(document, word) {
        Some(table) => has_only(table, keys),
        None => true,
    }
}

/// Whether a key that is none of a latency table stands in the document.
#[tactic(auto, unfolding(crate::specs::Faults::has_unknown_key, crate::proofs::KeyLists::listed))]
pub(crate) fn has_unknown_key(document: &toml::Table) -> bool
    ensures { result ≡ has_unknown_key (table_view document.now) }
{
    !(has_only(document, &TEXT_KEYS)
        && has_only_at(document, "software", &SOFTWARE_KEYS)
        && has_only_at(document, "hardware", &HARDWARE_KEYS))
}

/// Whether what the document gives for the key is no number in its range, or no table.
#[tactic(auto, unfolding(crate::specs::Faults::is_out_of_range))]
fn is_out_of_range(document: &toml::Table, key: Key) -> bool
    ensures { result ≡ is_out_of_range (table_view document.now) key }
{
    match given(document, key) {
        Some(value) => !key.takes(value),
        None => false,
    }
}

/// Whether `pad` is greater than what stands at the key.
#[tactic(auto, unfolding(crate::specs::Faults::is_below_pad))]
fn is_below_pad(document: &toml::Table, key: Key) -> bool
    ensures { result ≡ is_below_pad (table_view document.now) key }
{
    setting(document, key) < setting(document, Key::Pad)
}

/// The first of the keys whose value is out of range.
pub(crate) fn first_out_of_range(document: &toml::Table, keys: &[Key]) -> Option<Key>
    ensures { result ≡ find (is_out_of_range (table_view document.now)) keys.now }
{
    keys.iter()
        .copied()
        .find(|key| is_out_of_range(document, *key))
}

/// The first of the keys whose value `pad` exceeds.
pub(crate) fn first_below_pad(document: &toml::Table, keys: &[Key]) -> Option<Key>
    ensures { result ≡ find (is_below_pad (table_view document.now)) keys.now }
{
    keys.iter()
        .copied()
        .find(|key| is_below_pad(document, *key))
}
