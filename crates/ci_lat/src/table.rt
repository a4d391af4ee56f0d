//! Tables of latencies and delays.
ghost use Rattle.std.specs.Prelude.{◌≡◌, ◌≢◌, ◌≤◌};
ghost use Rattle.ci_word.specs.declared.arithmetic.Class.TheVariants.{Free};
ghost use Rattle.ci_lat.specs.Latencies.{usual, latency_of, delay_of};
ghost use Rattle.ci_lat.specs.TableRules.{HasDelay, IsLatencyTable};
ghost use Rattle.ci_lat.specs.Keys.{entry};
ghost use Rattle.ci_lat.specs.Faults.{causes, first_fault, table_of};
ghost use Rattle.toml.specs.View.{table_view};

use crate::document::{put_settings, setting};
use crate::keys::{HARDWARE_KEYS, Key, SOFTWARE_KEYS};
use ci_word::Class;
use std::marker::Model;

/// The latencies of the classes by default, in their order.
const DEFAULT_SOFTWARE: [u32; 16] = [1, 1, 1, 1, 1, 1, 3, 3, 2, 1, 1, 2, 1, 32, 1, 1];

/// The delays of the first classes by default, in their order.
const DEFAULT_HARDWARE: [u32; 8] = [400, 100, 300, 0, 400, 0, 2100, 2200];

/// A latency table: the latency of each class of instructions, in cycles, and the delay in hardware
/// of each class that a custom instruction may take in, in thousandths of a cycle.
#[derive(Debug, Drop)]
pub struct Table {
    read: u32,
    pad: u32,
    software: [u32; 16],
    hardware: [u32; 8],
}

impl Model for Table {
    ghost use Rattle.ci_lat.specs.Latencies.{Latencies};
    ghost use Rattle.ci_lat.specs.TableRules.{IsLatencyTable};
    ghost use Rattle.ci_lat.specs.private.Stored.{latencies};

    ghost Value = { Latencies };

    ghost view = { λ t. latencies t.read t.pad t.software t.hardware };

    ghost invariant = { λ t. IsLatencyTable (latencies t.read t.pad t.software t.hardware) };
}

impl Table {
    /// The table by default.
    #[tactic(auto, unfolding(crate::specs::Latencies::usual, crate::proofs::KeyLists::listed))]
    pub fn usual() -> Table
        ensures { result ≡ usual }
    {
        Table {
            read: 1,
            pad: 0,
            software: DEFAULT_SOFTWARE,
            hardware: DEFAULT_HARDWARE,
        }
    }

    /// The table that the document gives.
    #[tactic(auto, unfolding(crate::specs::Faults::table_of, crate::proofs::KeyLists::listed))]
    pub(crate) fn of(document: &toml::Table) -> Table
        requires { first_fault (causes (table_view document.now)) ≡ None }
        ensures { result ≡ table_of (table_view document.now) }
    {
        let mut software = DEFAULT_SOFTWARE;
        let mut hardware = DEFAULT_HARDWARE;
        put_settings(document, &SOFTWARE_KEYS, &mut software);
        put_settings(document, &HARDWARE_KEYS, &mut hardware);
        Table {
            read: setting(document, Key::Read),
            pad: setting(document, Key::Pad),
            software,
            hardware,
        }
    }

    /// The latency of `cread`, which reads a hidden result, and of `cput`, which sets the hidden operands, in cycles.
    pub fn read(&self) -> u32
        ensures value { result ≡ self.now.read }
        ensures minimum { 1 ≤ result }
        ensures maximum { result ≤ 1000 }
        ensures pad { self.now.pad ≤ result }
        ensures table { IsLatencyTable self.now }
    {
        self.read
    }

    /// The latency of a no-op that fills a place, in cycles.
    pub fn pad(&self) -> u32
        ensures value { result ≡ self.now.pad }
        ensures maximum { result ≤ 1000 }
    {
        self.pad
    }

    /// The latency of the class, in cycles; 0 for `Free`.
    pub fn latency(&self, class: Class) -> u32
        ensures value { result ≡ latency_of self.now class }
        ensures minimum { class ≢ Free → 1 ≤ result }
        ensures maximum { result ≤ 1000 }
        ensures pad { HasDelay class → self.now.pad ≤ result }
    {
        self.software.get(class as usize).copied().unwrap_or(0)
    }

    /// The delay of the class, in thousandths of a cycle; 0 for a class without one.
    pub fn delay(&self, class: Class) -> u32
        ensures value { result ≡ delay_of self.now class }
        ensures maximum { result ≤ 100000 }
    {
        self.hardware.get(class as usize).copied().unwrap_or(0)
    }

    /// The number at the key, and 0 at a table.
    pub(crate) fn entry(&self, key: Key) -> u32
        ensures { result ≡ entry self.now key }
    {
        match key {
            Key::Read => self.read(),
            Key::Pad => self.pad(),
            Key::Software | Key::Hardware => 0,
            Key::SoftwareOf(class) => self.latency(class),
            Key::HardwareOf(class) => self.delay(class),
        }
    }
}
