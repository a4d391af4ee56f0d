//! The worked examples of a region, with values that are copied and values that are dropped.
ghost use Rattle.std.specs.Prelude.{◌≡◌};

use ci_region::Region;
use std::alloc::Global;
use std::process::Abort;
use std::test::Fail;

// All slots are live, so the value comes back.
fn comes_back(rt: &impl Abort, region: &mut Region<u32>, value: u32)
    ensures { region.new ≡ region.old }
{
    match region.take(value) {
        Err(back) => assert!(rt; back == value),
        Ok(_) => panic!(rt; "a slot past the capacity"),
    }
}

#[test]
#[tactic(auto, using(ci_region::proofs::MapLaws::laws))]
fn one_slot(rt: HostRuntime) -> Result<(), Fail> {
    let mut region = Region::with_capacity(rt.alloc(), 1)?;
    let first = region.take(5)?;
    comes_back(&rt, &mut region, 6);
    assert!(rt; *region.get(first) == 5);
    assert!(rt; (region.used(), region.capacity()) == (1, 1));
    assert!(rt; region.give(first) == 5);
    assert!(rt; (region.used(), region.capacity()) == (0, 1));
    let second = region.take(6)?;
    *region.get_mut(second) = 7;
    assert!(rt; *region.get(second) == 7);
    Ok(())
}

#[test]
fn no_slot(rt: HostRuntime) -> Result<(), Fail> {
    let mut region = Region::with_capacity(rt.alloc(), 0)?;
    comes_back(&rt, &mut region, 5);
    comes_back(&rt, &mut region, 6);
    assert!(rt; (region.used(), region.capacity()) == (0, 0));
    Ok(())
}

/// Two texts are put into an empty region of two slots, one is given back, and the other is changed.
#[tactic(auto, using(ci_region::proofs::MapLaws::laws))]
fn two_texts(rt: &impl Abort, alloc: Global, region: &mut Region<String>) -> Result<(), Fail> {
    let first = region.take(String::from_str(alloc, "first")?)?;
    let second = region.take(String::from_str(alloc, "second")?)?;
    assert_ne!(rt; first, second);
    assert!(rt; region.take(String::from_str(alloc, "third")?).is_err());
    assert!(rt; region.give(first).as_str() == "first");
    region.get_mut(second).push_str("!")?;
    assert!(rt; region.get(second).as_str() == "second!");
    assert!(rt; region.used() == 1);
    region.clear();
    assert!(rt; (region.used(), region.capacity()) == (0, 2));
    let third = region.take(String::from_str(alloc, "third")?)?;
    assert!(rt; region.get(third).as_str() == "third");
    Ok(())
}

// The region is let go by a call of `drop`, which a proof does not look into.
#[test]
fn texts(rt: HostRuntime) -> Result<(), Fail> {
    let mut region = Region::with_capacity(rt.alloc(), 2)?;
    let outcome = two_texts(&rt, rt.alloc(), &mut region);
    drop(region);
    outcome
}
