//! Choices of pieces under an area limit, and their logs.
ghost use Rattle.ci_area.specs.AreaRegionTrees.{LiesIn};
ghost use Rattle.ci_area.specs.Pieces.{ArePieces};

use ci_area::{
    AreaChild, AreaFound, AreaItem, AreaNode, AreaWrong, Piece, are_pieces, check_choice,
    choose_within, flatten_area,
};
use ci_region::Region;
use ci_word::Row;
use std::alloc::{AllocError, Global};
use std::process::Abort;
use std::test::Fail;

// Regions and lists are let go by calls of `drop`, which a proof does not look into.

/// Two units of 480 + 32 + 160 gates, each of which gains four cycles.
const TWO_UNITS: &[Piece] = &[Piece { area: 672, gain: 4 }, Piece { area: 672, gain: 4 }];

/// One of them.
const ONE_UNIT: &[Piece] = &[Piece { area: 672, gain: 4 }];

/// The same two, of which the first gains more.
const UNLIKE_UNITS: &[Piece] = &[Piece { area: 672, gain: 5 }, Piece { area: 672, gain: 4 }];

/// The log of the tree has a branch for each slot that it took, and the checker accepts it.
fn check_log(
    rt: &impl Abort,
    alloc: Global,
    pieces: &[Piece],
    limit: u32,
    best: &Row,
    region: &Region<AreaNode>,
    root: AreaChild,
) -> Result<(), AllocError>
    requires pieces { ArePieces pieces.now }
    requires tree { LiesIn region.now root }
{
    assert!(rt; region.used() < 1 << 31);
    let log = flatten_area(alloc, region, root)?;
    let branches = log.items().len() / 2;
    let answer = check_choice(pieces, limit, best, &log);
    drop(log);
    assert!(rt; branches == (region.used() as usize));
    assert!(rt; answer == Ok(()));
    Ok(())
}

/// What a choice tells: the best set and how many slots its log takes, or the budget.
type Told = Result<(Row, u32), u32>;

/// What a choice tells in an empty region, with its log checked.
fn told_in(
    rt: &impl Abort,
    alloc: Global,
    pieces: &[Piece],
    limit: u32,
    region: &mut Region<AreaNode>,
) -> Result<Told, AllocError>
    requires { ArePieces pieces.now }
{
    match choose_within(pieces, limit, region) {
        AreaFound::Best { set, root } => {
            check_log(rt, alloc, pieces, limit, &set, region, root)?;
            Ok(Ok((set, region.used())))
        }
        AreaFound::Spent { budget } => {
            assert!(rt; region.used() == 0);
            Ok(Err(budget))
        }
    }
}

/// What a choice tells in a region of this capacity.
pub(crate) fn told(
    rt: &impl Abort,
    alloc: Global,
    pieces: &[Piece],
    limit: u32,
    capacity: u32,
) -> Result<Told, AllocError> {
    assert!(rt; are_pieces(pieces));
    let mut region = Region::with_capacity(alloc, capacity)?;
    let told = told_in(rt, alloc, pieces, limit, &mut region);
    drop(region);
    told
}

/// Asserts what a choice tells.
fn expect(
    rt: &impl Abort,
    alloc: Global,
    pieces: &[Piece],
    limit: u32,
    capacity: u32,
    due: Told,
) -> Result<(), AllocError> {
    let told = told(rt, alloc, pieces, limit, capacity)?;
    assert!(rt; told == due, "limit {limit} capacity {capacity}");
    Ok(())
}

#[test]
fn room_for_two_units(rt: HostRuntime) -> Result<(), AllocError> {
    let alloc = rt.alloc();
    let units = TWO_UNITS;
    expect(&rt, alloc, units, 671, 2, Ok((Row::empty(), 2)))?;
    expect(&rt, alloc, units, 672, 2, Ok((set_of_mask(0b10), 2)))?;
    expect(&rt, alloc, units, 1343, 2, Ok((set_of_mask(0b10), 2)))?;
    expect(&rt, alloc, units, 1344, 2, Ok((set_of_mask(0b11), 2)))?;
    expect(&rt, alloc, units, 1344, 1, Err(1))?;
    expect(&rt, alloc, units, 1344, 0, Err(0))?;
    expect(&rt, alloc, &[], 0, 0, Ok((Row::empty(), 0)))
}

/// Pieces that need no area, some, and much.
fn mixed_pieces() -> &'static [Piece] {
    &[
        Piece { area: 0, gain: 1 },
        Piece { area: 10, gain: 5 },
        Piece { area: 10, gain: 6 },
        Piece {
            area: 1 << 40,
            gain: 1 << 40,
        },
    ]
}

#[test]
fn pieces_without_area(rt: HostRuntime) -> Result<(), AllocError> {
    let pieces = mixed_pieces();
    let due = [
        (0, set_of_mask(0b1)),
        (9, set_of_mask(0b1)),
        (10, set_of_mask(0b101)),
        (20, set_of_mask(0b111)),
    ];
    for (limit, best) in due {
        match told(&rt, rt.alloc(), pieces, limit, 16)? {
            Ok((set, _)) => assert!(rt; set == best, "limit {limit}"),
            Err(_) => panic!(rt; "spent"),
        }
    }
    Ok(())
}

/// As many pieces as there may be, all of which are alike.
fn equal_pieces(alloc: Global) -> Result<Vec<Piece>, AllocError> {
    let mut pieces = Vec::new(alloc);
    for _ in 0..32 {
        pieces.push(Piece { area: 10, gain: 1 })?;
    }
    Ok(pieces)
}

#[test]
fn the_last_of_equals(rt: HostRuntime) -> Result<(), AllocError> {
    let pieces = equal_pieces(rt.alloc())?;
    let told = told(&rt, rt.alloc(), &pieces, 100, 1024);
    drop(pieces);
    let last = set_of_mask(0xffc0_0000);
    match told? {
        Ok((set, _)) => assert!(rt; set == last),
        Err(_) => panic!(rt; "spent"),
    }
    Ok(())
}

/// A number that is drawn from another.
pub(crate) fn drawn(seed: u32) -> u32 {
    seed.wrapping_mul(1_664_525).wrapping_add(1_013_904_223) >> 3
}

/// Up to nine small pieces by a seed.
fn generated(alloc: Global, seed: u32) -> Result<Vec<Piece>, AllocError> {
    let mut pieces = Vec::new(alloc);
    let mut draw = seed;
    for _ in 0..seed % 10 {
        draw = drawn(draw);
        pieces.push(Piece {
            area: u64::from(draw % 8),
            gain: u64::from(1 + draw / 8 % 6),
        })?;
    }
    Ok(pieces)
}

/// What the pieces have together whose numbers are the ones among the bits of the mask, where it has no others.
fn together(pieces: &[Piece], mask: u32) -> Option<Piece> {
    let mut area = 0u64;
    let mut gain = 0u64;
    let mut left = mask;
    for piece in pieces {
        if left % 2 == 1 {
            area = area.wrapping_add(piece.area);
            gain = gain.wrapping_add(piece.gain);
        }
        left /= 2;
    }
    if left == 0 {
        Some(Piece { area, gain })
    } else {
        None
    }
}

/// The numbers of the ones among the bits of the mask.
pub(crate) fn set_of_mask(mask: u32) -> Row {
    let mut set = Row::empty();
    let mut left = mask;
    for number in 0..32 {
        if left % 2 == 1 {
            set.insert(number);
        }
        left /= 2;
    }
    set
}

/// The number of sets of so many pieces, at most 14.
fn sets_of(count: usize) -> u32 {
    let mut sets = 1u32;
    for _ in 0..count.min(14) {
        sets = sets.wrapping_mul(2);
    }
    sets
}

/// The best set by trying all sets of at most 14 pieces: of equal ones the mask is the greatest.
pub(crate) fn best_of_all(pieces: &[Piece], limit: u32) -> Row {
    let mut best = 0;
    let mut reached = 0;
    for mask in 0..sets_of(pieces.len()) {
        if let Some(all) = together(pieces, mask) {
            if all.area <= u64::from(limit) && all.gain >= reached {
                best = mask;
                reached = all.gain;
            }
        }
    }
    set_of_mask(best)
}

/// Asserts that choices of the pieces of a seed are the best of all sets, and need as many slots as their logs have.
fn expect_of_seed(rt: &impl Abort, alloc: Global, seed: u32) -> Result<(), AllocError> {
    let pieces = generated(alloc, seed)?;
    for limit in [0, 3, 8, 13, 21, 40] {
        let best = best_of_all(&pieces, limit);
        match told(rt, alloc, &pieces, limit, 1024)? {
            Ok((set, slots)) => {
                assert!(rt; set == best, "seed {seed} limit {limit}");
                expect(rt, alloc, &pieces, limit, slots, Ok((best, slots)))?;
                if slots > 0 {
                    expect(rt, alloc, &pieces, limit, slots - 1, Err(slots - 1))?;
                }
            }
            Err(_) => panic!(rt; "spent"),
        }
    }
    drop(pieces);
    Ok(())
}

#[test]
fn generated_pieces(rt: HostRuntime) -> Result<(), AllocError> {
    for seed in 0..500u32 {
        expect_of_seed(&rt, rt.alloc(), seed)?;
    }
    Ok(())
}

/// The log of a choice, read as that of another choice with this best set, and its first wrong item.
struct Reading {
    pieces: &'static [Piece],
    limit: u32,
    others: &'static [Piece],
    other: u32,
    /// The best set: a bit for each piece.
    best: u32,
    wrong: Option<(u32, u8)>,
}

/// Asserts what the checker says.
fn expect_wrong(rt: &impl Abort, alloc: Global, reading: &Reading) -> Result<(), AllocError> {
    assert!(rt; are_pieces(reading.pieces));
    assert!(rt; are_pieces(reading.others));
    let mut region = Region::with_capacity(alloc, 16)?;
    let found = choose_within(reading.pieces, reading.limit, &mut region);
    let AreaFound::Best { root, .. } = found else {
        panic!(rt; "spent");
    };
    assert!(rt; region.used() < 1 << 31);
    let log = flatten_area(alloc, &region, root)?;
    let answer = check_choice(
        reading.others,
        reading.other,
        &set_of_mask(reading.best),
        &log,
    );
    drop(log);
    drop(region);
    let wrong = match answer {
        Ok(()) => None,
        Err(AreaWrong { item, reason }) => Some((item, reason)),
    };
    assert!(rt; wrong == reading.wrong, "{wrong:?}");
    Ok(())
}

/// Logs of the two units, and how they are read. With room for both the log is `BBFFG`, with room for one `BBFFG` too,
/// and with room for none `BABFF`.
fn readings() -> &'static [Reading] {
    &[
        Reading {
            pieces: TWO_UNITS,
            limit: 1344,
            others: TWO_UNITS,
            other: 1344,
            best: 0b11,
            wrong: None,
        },
        Reading {
            pieces: TWO_UNITS,
            limit: 1344,
            others: TWO_UNITS,
            other: 1343,
            best: 0b11,
            wrong: Some((0, 7)),
        },
        Reading {
            pieces: TWO_UNITS,
            limit: 1344,
            others: TWO_UNITS,
            other: 1344,
            best: 0b100,
            wrong: Some((0, 7)),
        },
        Reading {
            pieces: TWO_UNITS,
            limit: 671,
            others: TWO_UNITS,
            other: 1344,
            best: 0b11,
            wrong: Some((1, 1)),
        },
        Reading {
            pieces: TWO_UNITS,
            limit: 672,
            others: UNLIKE_UNITS,
            other: 672,
            best: 0b10,
            wrong: Some((4, 4)),
        },
        Reading {
            pieces: TWO_UNITS,
            limit: 1344,
            others: TWO_UNITS,
            other: 1344,
            best: 0b1,
            wrong: Some((2, 5)),
        },
        Reading {
            pieces: TWO_UNITS,
            limit: 672,
            others: TWO_UNITS,
            other: 672,
            best: 0b1,
            wrong: Some((3, 5)),
        },
        Reading {
            pieces: TWO_UNITS,
            limit: 1344,
            others: ONE_UNIT,
            other: 1344,
            best: 0b1,
            wrong: Some((1, 6)),
        },
    ]
}

#[test]
fn wrong_items(rt: HostRuntime) -> Result<(), AllocError> {
    for reading in readings() {
        expect_wrong(&rt, rt.alloc(), reading)?;
    }
    Ok(())
}

/// The budget that a choice spends in a region of this capacity with one live slot, which holds what it held.
fn spent_beside(
    rt: &impl Abort,
    alloc: Global,
    pieces: &[Piece],
    capacity: u32,
) -> Result<Option<u32>, Fail> {
    assert!(rt; are_pieces(pieces));
    let mut region = Region::with_capacity(alloc, capacity)?;
    let held = AreaNode {
        taken: AreaChild::Leaf(AreaItem::A),
        left_out: AreaChild::Leaf(AreaItem::G { num: 3, den: 7 }),
    };
    let slot = region.take(held)?;
    let found = choose_within(pieces, 1344, &mut region);
    assert!(rt; *region.get(slot) == held);
    let used = region.used();
    drop(region);
    match found {
        AreaFound::Spent { budget } => {
            assert!(rt; used == 1);
            Ok(Some(budget))
        }
        AreaFound::Best { .. } => Ok(None),
    }
}

#[test]
fn slot_that_was_live(rt: HostRuntime) -> Result<(), Fail> {
    assert!(rt; spent_beside(&rt, rt.alloc(), TWO_UNITS, 2)? == Some(1));
    assert!(rt; spent_beside(&rt, rt.alloc(), TWO_UNITS, 3)? == None);
    Ok(())
}

/// Asserts whether pieces with these areas and gains may be chosen.
fn expect_pieces(rt: &impl Abort, area: u64, gain: u64, due: bool) {
    let pieces = [Piece { area, gain }, Piece { area: 1, gain: 1 }];
    assert!(rt; are_pieces(&pieces) == due, "{area} {gain}");
}

#[test]
fn what_may_be_chosen(rt: HostRuntime) -> Result<(), AllocError> {
    expect_pieces(&rt, (1 << 63) - 2, (1 << 63) - 2, true);
    expect_pieces(&rt, (1 << 63) - 1, 1, false);
    expect_pieces(&rt, 0, (1 << 63) - 1, false);
    expect_pieces(&rt, 0, 0, false);
    let mut pieces = equal_pieces(rt.alloc())?;
    assert!(rt; are_pieces(&pieces));
    pieces.push(Piece { area: 0, gain: 1 })?;
    assert!(rt; !are_pieces(&pieces));
    drop(pieces);
    Ok(())
}
