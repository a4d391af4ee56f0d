//! What the takes of each unit save.

use ci_select::{Taken, saved_by};
use ci_word::Row;

#[test]
fn takes_of_two_units(rt: HostRuntime) {
    let takes = [
        Taken {
            round: 0,
            leader: 65652,
            unit: 0,
            gain: 2,
            entries: 10,
            cut: Row::empty(),
            word: 11,
        },
        Taken {
            round: 1,
            leader: 65668,
            unit: 1,
            gain: 3,
            entries: 4,
            cut: Row::empty(),
            word: 33554443,
        },
        Taken {
            round: 2,
            leader: 65652,
            unit: 0,
            gain: 5,
            entries: 10,
            cut: Row::empty(),
            word: 11,
        },
    ];
    assert!(rt; saved_by(&takes, 0) == 70);
    assert!(rt; saved_by(&takes, 1) == 12);
    assert!(rt; saved_by(&takes, 2) == 0);
}
