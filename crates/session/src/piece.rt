// A piece of a file, given to a session by value.
ghost use Rattle.std.specs.Prelude.{◌≡◌, suc, ◌<◌, ◌≤◌};
ghost use Rattle.drawing.specs.Limits.{length_limit, depth_limit};
ghost use Rattle.pieces.specs.SessionPromises.{Pieces};
ghost use Rattle.session.specs.Changes.{with_bytes};
ghost use Rattle.session.specs.Feeding.{Tells};
ghost use Rattle.session.specs.Giving.{Runnable, Gives};

use crate::feed::fed;
use crate::verdict::{Taken, answered, is_unfit, refused};
use drawing::limits::{DEPTH_LIMIT, LENGTH_LIMIT};
use drawing::numbers::ACCEPTED;
use pieces::Session;
use session_run::stage::Stage;

// A group whose count comes next may be open.
fn may_open(s: Session) -> bool
    ensures { Tells result (s.stage ≡ 5 → s.depth < depth_limit) }
{
    s.stage != Stage::Counting as u32 || s.depth < DEPTH_LIMIT
}

// A session that can be run. All that opening began are, up to a fault.
fn is_runnable(s: Session) -> bool
    ensures { Tells result (Runnable s) }
{
    s.stage <= Stage::Objects as u32
        && may_open(s)
        && s.held < 184
        && s.held <= s.bytes
        && s.words <= s.bytes - s.held
        && s.rows <= s.bytes - s.held
}

fn with_bytes(s: Session, bytes: usize) -> Session
    requires { bytes ≤ suc length_limit }
    ensures { result ≡ with_bytes s bytes }
{
    Session {
        bytes: bytes as u32,
        ..s
    }
}

// Bytes are counted after a fault too, up to one more than the limit.
fn given(s: Session, bytes: &[u8]) -> Session
    requires { (s.depth ≤ depth_limit) × (s.bytes ≤ suc length_limit) }
    ensures { Gives s bytes.now result }
{
    if LENGTH_LIMIT < s.bytes as usize {
        return s;
    }
    if LENGTH_LIMIT - (s.bytes as usize) < bytes.len() {
        return with_bytes(s, LENGTH_LIMIT + 1);
    }
    let total = s.bytes as usize + bytes.len();
    if is_runnable(s) {
        return fed(with_bytes(s, total), bytes);
    }
    with_bytes(s, total)
}

pub fn pieced(s: Session, bytes: &[u8]) -> Taken
    ensures { Pieces s bytes.now result.session result.answer }
{
    if is_unfit(s) {
        return refused(s);
    }
    if s.spent != 0 {
        return Taken {
            session: s,
            answer: answered(ACCEPTED, 0),
        };
    }
    Taken {
        session: given(s, bytes),
        answer: answered(ACCEPTED, 0),
    }
}
