// A session that begins anew, and its verdict, by value.
ghost use Rattle.std.specs.Prelude.{◌≡◌, ◌-◌};
ghost use Rattle.drawing.specs.Answers.{answer};
ghost use Rattle.pieces.specs.Session.{verdict_now};
ghost use Rattle.pieces.specs.SessionPromises.{no_session, unfit, spend, Opens, verdict_in, Verdicts};

use drawing::Answer;
use drawing::limits::{DEPTH_LIMIT, LENGTH_LIMIT};
use drawing::numbers::{ACCEPTED, CONTENTS_TOO_SHORT, CUT, TOO_LONG};
use pieces::Session;

// A session, and the answer of the call.
#[derive(Clone, Copy)]
pub struct Taken {
    pub session: Session,
    pub answer: Answer,
}

const NO_SESSION: u32 = 22;

pub fn answered(number: u32, offset: u32) -> Answer
    ensures { result ≡ answer number offset 0 0 }
{
    Answer {
        number,
        offset,
        rows: 0,
        words: 0,
    }
}

// A session that has been given no byte.
pub fn opened(s: Session) -> Taken
    ensures { Opens result.session result.answer }
{
    let members = s.members;
    let buffer = s.buffer;
    Taken {
        session: Session {
            spent: 0,
            depth: 0,
            bytes: 0,
            number: CUT,
            offset: 0,
            rows: 0,
            words: 0,
            version: 0,
            stage: 0,
            width: 0,
            segments: 0,
            held: 0,
            parts: 0,
            run: 0,
            x: 0,
            y: 0,
            members,
            buffer,
        },
        answer: answered(ACCEPTED, 0),
    }
}

// The depth or the count of bytes is one that no session has.
pub fn is_unfit(s: Session) -> bool
    ensures { result ≡ unfit s }
{
    DEPTH_LIMIT < s.depth || LENGTH_LIMIT + 1 < s.bytes as usize
}

// The words of a table: those of the fields, without one for each id and four of the head.
fn table_words(words: u32, rows: u32) -> u32
    ensures { result ≡ words - rows - 4 }
{
    words.saturating_sub(rows).saturating_sub(4)
}

// What a session would answer if no more bytes came.
fn answer_now(s: Session) -> Answer
    ensures { result ≡ verdict_now s }
{
    if s.number == ACCEPTED {
        return Answer {
            number: ACCEPTED,
            offset: s.bytes,
            rows: s.rows,
            words: table_words(s.words, s.rows),
        };
    }
    answered(s.number, s.offset)
}

// A number that no reader gives is that of no session that opening began.
fn answer_in(s: Session) -> Answer
    ensures { result ≡ verdict_in s }
{
    if LENGTH_LIMIT < s.bytes as usize {
        return answered(TOO_LONG, LENGTH_LIMIT as u32);
    }
    if s.number < CONTENTS_TOO_SHORT {
        return answer_now(s);
    }
    answered(CUT, 0)
}

fn spent(s: Session) -> Session
    ensures { result ≡ spend s }
{
    Session { spent: 1, ..s }
}

// The answer to what is no session: it stays as it is.
pub fn refused(s: Session) -> Taken
    ensures { (result.session ≡ s) × (result.answer ≡ answer no_session 0 0 0) }
{
    Taken {
        session: s,
        answer: answered(NO_SESSION, 0),
    }
}

// The verdict on the bytes so far, which spends the session.
pub fn judged(s: Session) -> Taken
    ensures { Verdicts s result.session result.answer }
{
    if is_unfit(s) {
        return refused(s);
    }
    Taken {
        session: spent(s),
        answer: answer_in(s),
    }
}
