//! Choices of made-up pieces under area limits, beside a plain dynamic programme, and beside all sets of a few pieces.
use crate::area::{best_of_all, drawn, set_of_mask, told};
use ci_area::Piece;
use ci_word::Row;
use std::alloc::{AllocError, Global};
use std::process::Abort;

/// The best set of pieces in some room: what it gains, and the numbers of its pieces, the ones among the bits of the
/// mask.
#[derive(Clone, Copy)]
struct Best {
    gain: u64,
    mask: u32,
}

/// The better of two sets: of those that gain as much the one with the greatest number in which they differ.
fn better(one: Best, other: Best) -> Best {
    if other.gain > one.gain || other.gain == one.gain && other.mask > one.mask {
        other
    } else {
        one
    }
}

/// The best set in a room once there is a piece more, where the piece needs all but `rest` of the room.
fn with_piece(rooms: &[Best], here: Best, rest: usize, piece: Piece, bit: u32) -> Best {
    match rooms.get(rest) {
        Some(before) => {
            let taken = Best {
                gain: before.gain.wrapping_add(piece.gain),
                mask: before.mask | bit,
            };
            better(here, taken)
        }
        None => here,
    }
}

/// Takes a piece more, of a greater number, into account: the largest rooms first, since those behind look at smaller
/// ones as they were.
fn extend(rooms: &mut [Best], piece: Piece, bit: u32) {
    let area = piece.area as usize;
    for room in (0..rooms.len()).rev() {
        if area <= room {
            rooms[room] = with_piece(rooms, rooms[room], room - area, piece, bit);
        }
    }
}

/// The best set of the pieces within the limit, by the best set for each smaller room.
fn planned(alloc: Global, pieces: &[Piece], limit: u32) -> Result<Row, AllocError> {
    let mut rooms = Vec::new(alloc);
    for _ in 0..limit {
        rooms.push(Best { gain: 0, mask: 0 })?;
    }
    rooms.push(Best { gain: 0, mask: 0 })?;
    let mut bit = 1u32;
    for piece in pieces {
        extend(&mut rooms, *piece, bit);
        bit = bit.wrapping_mul(2);
    }
    let mask = match rooms.last() {
        Some(best) => best.mask,
        None => 0,
    };
    drop(rooms);
    Ok(set_of_mask(mask))
}

/// Up to 32 pieces by a seed. Of fewer kinds of areas and gains more are alike, and more need no area.
fn made_up(alloc: Global, seed: u32) -> Result<Vec<Piece>, AllocError> {
    let kinds = 2 + seed / 33 % 15;
    let mut pieces = Vec::new(alloc);
    let mut draw = drawn(seed);
    for _ in 0..seed % 33 {
        draw = drawn(draw);
        pieces.push(Piece {
            area: u64::from(draw / 64 % kinds),
            gain: u64::from(1 + draw / 4096 % kinds),
        })?;
    }
    Ok(pieces)
}

/// Asserts that the choice of the pieces of a seed is the best set, within a limit that some of them need.
fn expect_made_up(rt: &impl Abort, alloc: Global, seed: u32) -> Result<(), AllocError> {
    let pieces = made_up(alloc, seed)?;
    let limit = drawn(seed.wrapping_mul(77)) % (seed % 33 * 4 + 9);
    let best = planned(alloc, &pieces, limit)?;
    if pieces.len() <= 14 {
        assert!(rt; best_of_all(&pieces, limit) == best, "seed {seed}");
    }
    let told = told(rt, alloc, &pieces, limit, 65536);
    drop(pieces);
    match told? {
        Ok((set, _)) => assert!(rt; set == best, "seed {seed}"),
        Err(_) => panic!(rt; "seed {seed}"),
    }
    Ok(())
}

#[test]
fn made_up_pieces(rt: HostRuntime) -> Result<(), AllocError> {
    for seed in 0..5000u32 {
        expect_made_up(&rt, rt.alloc(), seed)?;
    }
    Ok(())
}
