// A file, cut wherever one likes and given to a session piece by piece: the verdict is the reader's (R-6). The calls are made by value, as those on a
// session that is lent make them.
ghost use Rattle.std.specs.Prelude.{◌≡◌, []};
ghost use Rattle.pieces.specs.Session.{Stands};
ghost use Rattle.pieces.specs.SessionPromises.{Verdict};
ghost use Rattle.round_trip.specs.Cuts.{GivenTo};

use drawing::Answer;
use pieces::Session;
use session::piece::pieced;
use session::verdict::{judged, opened};

// A session that was opened.
fn fresh() -> Session
    ensures { (result.spent ≡ 0) × Stands [] result }
{
    let t = opened(Session {
        spent: 0,
        depth: 0,
        bytes: 0,
        number: 0,
        offset: 0,
        rows: 0,
        words: 0,
        version: 0,
        stage: 0,
        width: 0,
        segments: 0,
        held: 0,
        parts: 0,
        run: 0,
        x: 0,
        y: 0,
        members: [0u32; 16],
        buffer: [0u8; 184],
    });
    let s = t.session;
    s
}

// A session that was given the bytes of a file up to a place.
#[derive(Clone, Copy)]
pub struct Given {
    pub session: Session,
    pub at: usize,
}

// It is given those up to the cut, where that is neither before them nor behind the file.
fn given_to(s: Session, file: &[u8], at: usize, cut: u32) -> Given
    requires { GivenTo file.now s at }
    ensures { GivenTo file.now result.session result.at }
{
    let end = cut as usize;
    if end < at {
        return Given { session: s, at };
    }
    if file.len() < end {
        return Given { session: s, at };
    }
    let next = pieced(s, &file[at..end]);
    let t = next.session;
    Given {
        session: t,
        at: end,
    }
}

// The verdict on a file that is cut at these places.
pub fn verdict_on_pieces(file: &[u8], cuts: &[u32]) -> Answer
    ensures { Verdict file.now result }
{
    let mut s = fresh();
    let mut at: usize = 0;
    for cut in cuts {
        let next = given_to(s, file, at, *cut);
        at = next.at;
        s = next.session;
    }
    let last = pieced(s, &file[at..]);
    let t = last.session;
    let end = judged(t);
    end.answer
}
