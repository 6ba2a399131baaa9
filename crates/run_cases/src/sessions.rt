// Cases of a session: a data file is words, depth and count of bytes of a made-up session, a place in the middle of the file, the number of cuts and the cuts; then
// the file.

use crate::cut::cut_run;
use crate::group::Group;
use crate::hash;
use crate::hash::Word;
use drawing::Answer;
use jdr::Session;
use session::piece::pieced;
use session::verdict::{Taken, judged, opened};
use std::fmt::Write;
use text_out::TextOut;

const NO_SESSION: u32 = 22;

pub fn put_groups(out: &mut TextOut, words: &[u32], data: &[u8]) {
    let [depth, bytes, middle, count, rest @ ..] = words else {
        out.put_all(b" has no session");
        return;
    };
    let (cuts, _) = cut_run(rest, *count);
    // The file stands behind four words and the cuts.
    let start = (16 + 4 * *count as usize).min(data.len());
    put_sessions(out, made_up(*depth, *bytes), *middle, cuts, &data[start..]);
}

// The file in pieces; then what comes behind a verdict. The session opened again, with the verdict in the middle of the file. At last the made-up session itself.
// The calls are made by value, as those on a session that is lent make them.
fn put_sessions(out: &mut TextOut, lent: Session, middle: u32, cuts: &[u32], file: &[u8]) {
    let whole = Given::open(lent).pieces(cuts, file);
    whole.put_verdict(out);
    let spent = judged(whole.session).session;
    put_spent(out, spent, cuts, file);
    let (front, back) = file.split_at(file.len().min(middle as usize));
    let half = Given::open(spent).pieces(cuts, front);
    half.put_verdict(out);
    put_spent(out, judged(half.session).session, cuts, back);
    put_made_up(out, lent, pieced(lent, file));
    put_made_up(out, lent, judged(lent));
}

// A session that is spent: the verdict behind more pieces, and 1 if they left it as it was.
fn put_spent(out: &mut TextOut, spent: Session, cuts: &[u32], file: &[u8]) {
    let given = Given {
        session: spent,
        sum: hash::NONE,
    };
    let after = given.pieces(cuts, file);
    after.put_verdict(out);
    let _ = write!(out, " {}", is_same(spent, after.session));
}

// A session that opening did not begin, and what a call made of it. Where it was refused: the answer, and 1 if the session is as it was. Nothing else is
// promised of it.
fn put_made_up(out: &mut TextOut, before: Session, taken: Taken) {
    let Taken { session, answer } = taken;
    if answer.number != NO_SESSION {
        out.put_all(b" ; -");
        return;
    }
    let _ = write!(out, "{} {}", Group(answer), is_same(before, session));
}

// A session behind some pieces, and the hash of what the calls answered.
#[derive(Clone, Copy)]
struct Given {
    session: Session,
    sum: u32,
}

impl Given {
    // A session that is opened, whatever it holds.
    fn open(lent: Session) -> Given {
        let Taken { session, answer } = opened(lent);
        Given {
            session,
            sum: with_answer(hash::NONE, answer),
        }
    }

    fn piece(self, bytes: &[u8]) -> Given {
        let Taken { session, answer } = pieced(self.session, bytes);
        Given {
            session,
            sum: with_answer(self.sum, answer),
        }
    }

    // The pieces of the file between the cuts. A piece ends at its cut, but not before its own beginning and not behind the end.
    fn pieces(self, cuts: &[u32], file: &[u8]) -> Given {
        let mut given = self;
        let mut start = 0;
        for cut in cuts {
            let end = (*cut as usize).clamp(start, file.len());
            given = given.piece(&file[start..end]);
            start = end;
        }
        given.piece(&file[start..])
    }

    fn put_verdict(self, out: &mut TextOut) {
        let answer = judged(self.session).answer;
        let _ = write!(out, "{} {:08x}", Group(answer), self.sum);
    }
}

fn with_answer(sum: u32, answer: Answer) -> u32 {
    hash::with_all(
        sum,
        &[answer.number, answer.offset, answer.rows, answer.words],
    )
}

// Every other number of it is 0xA5 in every byte.
fn made_up(depth: u32, bytes: u32) -> Session {
    Session {
        spent: u32::FILL,
        depth,
        bytes,
        number: u32::FILL,
        offset: u32::FILL,
        rows: u32::FILL,
        words: u32::FILL,
        version: u32::FILL,
        stage: u32::FILL,
        width: u32::FILL,
        segments: u32::FILL,
        held: u32::FILL,
        parts: 0xA5A5A5A5A5A5A5A5,
        run: 0xA5A5A5A5A5A5A5A5,
        x: 0xA5A5A5A5A5A5A5A5,
        y: 0xA5A5A5A5A5A5A5A5,
        members: [u32::FILL; 16],
        buffer: [u8::FILL; 184],
    }
}

// 1 if two sessions hold the same, as far as their hashes tell.
fn is_same(one: Session, other: Session) -> u32 {
    u32::from(holds(one) == holds(other))
}

// The hash of all that a session holds.
fn holds(session: Session) -> u32 {
    let sum = hash::with(hash::of(&session.members), hash::of(&session.buffer));
    let words = [
        session.spent,
        session.depth,
        session.bytes,
        session.number,
        session.offset,
        session.rows,
        session.words,
        session.version,
        session.stage,
        session.width,
        session.segments,
        session.held,
    ];
    let wide = [session.parts, session.run, session.x, session.y];
    wide.iter().fold(hash::with_all(sum, &words), with_wide)
}

// The high word, and the low one.
fn with_wide(sum: u32, number: &u64) -> u32 {
    let high = (*number >> 32) as u32;
    let low = (*number % 4294967296) as u32;
    hash::with_all(sum, &[high, low])
}
