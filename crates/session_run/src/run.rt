// Part by part over some bytes, until one is cut or at fault, or the file has come to its end.
ghost use Rattle.std.specs.Prelude.{◌≡◌, cond, ◌^◌, ◌<◌, ◌≤◌, ltb, length};
ghost use Rattle.layout.specs.Lays.{Begins};
ghost use Rattle.session_run.specs.Objects.{Sound};
ghost use Rattle.session_run.specs.Running.{Runs};

use crate::cursor::Cursor;
use crate::place::{Place, is_over, step};
use drawing::numbers::{ACCEPTED, TRAILING_BYTES};
use ways::REFUSED;

// The place before the part at which it ended, how far that is, and the number and the place of the field.
#[derive(Clone, Copy)]
pub struct Ran {
    pub place: Place,
    pub at: usize,
    pub to: usize,
    pub number: usize,
    pub stop: usize,
}

// Bytes behind the outer group are at fault.
fn end_number(at: usize, total: usize) -> usize
    ensures { result ≡ cond (ltb at total) 13 0 }
{
    if at < total {
        TRAILING_BYTES as usize
    } else {
        ACCEPTED as usize
    }
}

pub fn run(src: &[u8], to: usize, place: Place, members: &mut [u32]) -> Ran
    requires begins { Begins src.now 0 to }
    requires sound { Sound place × (place.rows ≤ 2 ^ 20) × (length members.old ≡ 16) }
    ensures { Runs place members.old members.new src.now to result }
{
    let mut place = place;
    let mut at: usize = 0;
    let mut to = to;
    loop {
        if is_over(place) {
            return Ran {
                place,
                at,
                to,
                number: end_number(at, src.len()),
                stop: at,
            };
        }
        let next = step(Cursor { src, at, to }, place, members);
        if REFUSED <= next.pass.at {
            return Ran {
                place,
                at,
                to,
                number: next.pass.to,
                stop: next.pass.at - REFUSED,
            };
        }
        place = next.left;
        at = next.pass.at;
        to = next.pass.to;
    }
}
