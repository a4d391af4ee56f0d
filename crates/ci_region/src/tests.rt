//! A run of random calls beside the region in safe form.
ghost use Rattle.std.specs.Prelude.{IfSome};
ghost use Rattle.ci_region.specs.BoundedMap.{IsLive};

use crate::cells::Cell;
use crate::{Region, Slot};
use safe_region::SafeRegion;
use std::process::Abort;
use std::test::Fail;

mod safe_region;

// The slot of this number, where it is live.
fn live_slot<T>(region: &Region<T>, number: u32) -> Option<Slot>
    ensures { IfSome result (λ slot. IsLive region.now slot) }
{
    if number >= region.reached {
        return None;
    }
    match region.cells.cell(number as usize) {
        Cell::Live(_) => Some(Slot::of(number)),
        Cell::Free(_) => None,
    }
}

// Both take the value, and say the same.
fn take_both(rt: &impl Abort, raw: &mut Region<u32>, safe: &mut SafeRegion, value: u32) {
    match raw.take(value) {
        Ok(slot) => assert_eq!(rt; safe.take(value), Some(slot.number())),
        Err(back) => {
            assert_eq!(rt; back, value);
            assert_eq!(rt; safe.take(value), None);
        }
    }
}

// Both give the value of the slot of this number, where it is live.
fn give_both(rt: &impl Abort, raw: &mut Region<u32>, safe: &mut SafeRegion, number: u32) {
    match live_slot(raw, number) {
        Some(slot) => assert_eq!(rt; safe.give(number), Some(raw.give(slot))),
        None => assert_eq!(rt; safe.give(number), None),
    }
}

// Both write into the slot of this number, where it is live, and had the same value there.
fn write_both(
    rt: &impl Abort,
    raw: &mut Region<u32>,
    safe: &mut SafeRegion,
    number: u32,
    value: u32,
) {
    match live_slot(raw, number) {
        Some(slot) => {
            let old = *raw.get(slot);
            *raw.get_mut(slot) = value;
            assert_eq!(rt; safe.write(number, value), Some(old));
        }
        None => assert_eq!(rt; safe.write(number, value), None),
    }
}

// Both have the same value in each slot.
fn same_values(rt: &impl Abort, raw: &Region<u32>, safe: &SafeRegion) {
    for number in 0..raw.capacity() {
        let value = live_slot(raw, number).map(|slot| *raw.get(slot));
        assert_eq!(rt; safe.get(number), value);
    }
}

const SLOTS: u32 = 50;

#[test]
fn as_the_safe_region(rt: HostRuntime) -> Result<(), Fail> {
    let mut raw = Region::with_capacity(rt.alloc(), SLOTS)?;
    let mut safe = SafeRegion::with_capacity(rt.alloc(), SLOTS)?;
    let mut state: u32 = 1;
    for _ in 0..10_000 {
        state = state.wrapping_mul(1_664_525).wrapping_add(1_013_904_223);
        let call = state >> 24;
        let number = (state >> 8) % SLOTS;
        match call {
            0 => {
                raw.clear();
                safe.clear();
            }
            1..=120 => take_both(&rt, &mut raw, &mut safe, state),
            121..=220 => give_both(&rt, &mut raw, &mut safe, number),
            _ => write_both(&rt, &mut raw, &mut safe, number, state),
        }
        assert_eq!(rt; raw.used() as usize, safe.used());
    }
    same_values(&rt, &raw, &safe);
    Ok(())
}
