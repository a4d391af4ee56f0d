//! The cuts of a book's lines.
ghost use Rattle.std.specs.Prelude.{◌≡◌, ◌≤◌};
ghost use Rattle.ci_log.specs.private.Reading.{Gives, nodes, set_of};

use crate::faults::{Failure, stopped};
use ci_reading::{Numbers, number};
use ci_word::Row;

/// The rising numbers of a cut's nodes, with a blank between two, and the line's end. It gives the cut with the bytes
/// behind it.
pub(crate) fn nodes(bytes: &[u8]) -> Result<(Row, &[u8]), Failure>
    ensures { Gives (λ x. (x.0, x.1.now)) result (set_of (nodes 256 0 bytes.now)) }
{
    let mut cut = Row::empty();
    let mut low = 0;
    let mut rest = bytes;
    for _ in 0..256u32 {
        let numbers = Numbers {
            low,
            high: 255,
            end: b'\n',
            listed: true,
        };
        let (node, end, after) = number(rest, numbers)?;
        cut.insert(node as u8);
        if end == b'\n' {
            return Ok((cut, after));
        }
        low = node + 1;
        rest = after;
    }
    Err(stopped(rest))
}
