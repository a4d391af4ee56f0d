//! From the bytes of a text to its table.
ghost use Rattle.std.specs.Prelude.{◌≡◌, ◌≢◌, ◌⊎◌, find, IfOk, IfErr, IsOkUnless};
ghost use Rattle.ci_lat.specs.declared.faults.LatFault.TheVariants.{NoMemory};
ghost use Rattle.toml.specs.View.{table_view};
ghost use Rattle.ci_lat.specs.Faults.{AreDocument, AreTable, HaveFault, causes, first_fault, setting, table_of};
ghost use Rattle.ci_lat.specs.Faults.{is_out_of_range, is_below_pad};
ghost use Rattle.ci_lat.specs.Keys.{keys_by_value, keys_above_pad};
ghost use Rattle.ci_lat.specs.Latencies.{Latencies, latency_of, delay_of};
ghost use Rattle.ci_lat.specs.TableRules.{HasDelay};
ghost use Rattle.toml.specs.Data.{Members};
ghost use Rattle.ci_lat.specs.declared.faults.LatFault.{LatFault};
ghost use Rattle.ci_lat.specs.declared.keys.Key.TheVariants.{SoftwareOf, HardwareOf};
ghost use Rattle.ci_word.specs.declared.arithmetic.Class.{Class};
ghost use Rattle.ci_word.specs.declared.arithmetic.Class.TheVariants.{Free};

use crate::document::{
    first_below_pad, first_out_of_range, has_unknown_key, put_settings, setting,
};
use crate::faults::LatFault;
use crate::keys::{HARDWARE_KEYS, Key, SOFTWARE_KEYS};
use crate::table::Table;
use std::alloc::Global;

/// The TOML document of the bytes.
fn read_document(alloc: Global, bytes: &[u8]) -> Result<toml::Table, LatFault>
    ensures ok { IfOk result (λ document. AreDocument bytes.now (table_view document)) }
    ensures fault { IfErr result (λ fault. fault ≢ NoMemory → HaveFault bytes.now fault) }
{
    match toml::table_from_slice(alloc, bytes) {
        Ok(document) => Ok(document),
        Err(error) if error.is_memory() => Err(LatFault::NoMemory),
        Err(_) => Err(LatFault::NotToml),
    }
}

/// The first key whose value is out of range, in the order in which values are looked at.
#[tactic(auto, using(crate::proofs::KeyLists::finds))]
fn out_of_range(document: &toml::Table) -> Option<Key>
    ensures { result ≡ find (is_out_of_range (table_view document.now)) keys_by_value }
{
    first_out_of_range(document, &[Key::Read, Key::Pad, Key::Software])
        .or(first_out_of_range(document, &SOFTWARE_KEYS))
        .or(first_out_of_range(document, &[Key::Hardware]))
        .or(first_out_of_range(document, &HARDWARE_KEYS))
}

/// The first key whose value `pad` exceeds, in the order in which it is compared.
#[tactic(auto, using(crate::proofs::KeyLists::finds))]
fn below_pad(document: &toml::Table) -> Option<Key>
    ensures { result ≡ find (is_below_pad (table_view document.now)) keys_above_pad }
{
    first_below_pad(document, &SOFTWARE_KEYS[..8]).or(first_below_pad(document, &[Key::Read]))
}

/// The document's first fault.
#[tactic(auto, using(crate::proofs::FaultLaws::first_laws))]
fn first_fault(document: &toml::Table) -> Option<LatFault>
    ensures { result ≡ first_fault (causes (table_view document.now)) }
{
    if has_unknown_key(document) {
        return Some(LatFault::UnknownKey);
    }
    if let Some(key) = out_of_range(document) {
        return Some(LatFault::OutOfRange(key));
    }
    match below_pad(document) {
        Some(key) => Some(LatFault::PadTooLarge(key)),
        None => None,
    }
}

/// That the table of a document has for each class what the document gives for the class's key.
pub fn tables_are_in_the_order_of_classes()
    ensures latency { (document : Members) (c : Class) → c ≢ Free
        → latency_of (table_of document) c ≡ setting document (SoftwareOf c) }
    ensures delay { (document : Members) (c : Class) → HasDelay c
        → delay_of (table_of document) c ≡ setting document (HardwareOf c) }
{}

impl Table {
    /// Reads a table's text.
    ///
    /// # Errors
    ///
    /// The first fault that applies: [`LatFault::NotToml`]; then [`LatFault::UnknownKey`]; then
    /// [`LatFault::OutOfRange`] of the first of `read`, `pad`, `software` and its keys, `hardware`
    /// and its keys, these in the order of the classes; then [`LatFault::PadTooLarge`] of the first
    /// of the latencies that `pad` may not exceed, in the order of the classes, and then of `read`.
    /// [`LatFault::NoMemory`] where memory runs out.
    pub fn from_toml(alloc: Global, bytes: &[u8]) -> Result<Table, LatFault>
        ensures ok { IfOk result (AreTable bytes.now) }
        ensures ok_due { (table : Latencies) → AreTable bytes.now table → IsOkUnless result NoMemory }
        ensures fault { IfErr result (λ fault. fault ≢ NoMemory → HaveFault bytes.now fault) }
        ensures fault_due { (fault : LatFault) → HaveFault bytes.now fault
            → (result ≡ Err fault) ⊎ (result ≡ Err NoMemory) }
    {
        let document = read_document(alloc, bytes)?;
        if let Some(fault) = first_fault(&document) {
            return Err(fault);
        }
        Ok(Table::of(&document))
    }
}
