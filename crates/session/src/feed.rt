// A session, run over the bytes that it holds and those of a piece.
ghost use Rattle.std.specs.Prelude.{◌≡◌, ◌++◌, ◌+◌, ◌<◌, ◌≤◌, min, length};
ghost use Rattle.pieces.specs.Session.{held_bytes};
ghost use Rattle.session.specs.Changes.{with_held, stop};
ghost use Rattle.session.specs.Feeding.{Able, Feeds, MayGoOn, Tells};
ghost use Rattle.session.specs.Turning.{Tries, Turns};

use crate::hold::{appended, kept};
use drawing::numbers::{ACCEPTED, CUT};
use pieces::Session;
use session_run::advance::advance;
use session_run::stage::Stage;

// So many bytes a session has room for: more than any part takes.
const ROOM: usize = 184;

pub fn with_held(s: Session, buffer: [u8; 184], held: usize) -> Session
    requires { held ≤ 184 }
    ensures { result ≡ with_held s buffer held }
{
    Session {
        buffer,
        held: held as u32,
        ..s
    }
}

fn stopped(s: Session) -> Session
    ensures { result ≡ stop s }
{
    Session {
        stage: Stage::Stopped as u32,
        ..s
    }
}

// No fault was found: the file may go on here.
fn goes_on(s: Session) -> bool
    ensures { Tells result (MayGoOn s) }
{
    s.number == ACCEPTED || s.number == CUT
}

// A session that holds nothing, run over some bytes: what is left of them is held, unless there is a fault in them.
fn fed_alone(s: Session, src: &[u8]) -> Session
    requires { Able s (length src.now) }
    ensures { Feeds s src.now result }
{
    let next = advance(s, src, s.bytes as usize - src.len());
    let left = src.len() - next.at;
    if ROOM <= left {
        return stopped(next.session);
    }
    if !goes_on(next.session) {
        return stopped(next.session);
    }
    let buffer = appended([0u8; 184], 0, src, next.at, left);
    with_held(next.session, buffer, left)
}

// What is held and so much of a piece as there is room for, so many bytes; and the session behind those of them that it came over.
#[derive(Clone, Copy)]
pub struct Tried {
    pub session: Session,
    pub at: usize,
    pub buffer: [u8; 184],
    pub all: usize,
}

fn run_joined(s: Session, bytes: &[u8]) -> Tried
    requires { Able s (s.held + length bytes.now) × (s.held < 184) }
    ensures { Tries s bytes.now result }
{
    let held = s.held as usize;
    let more = bytes.len().min(ROOM - held);
    let all = held + more;
    let buffer = appended(kept(s.buffer, held), held, bytes, 0, more);
    let next = advance(s, &buffer[..all], s.bytes as usize - bytes.len() - held);
    Tried {
        session: next.session,
        at: next.at,
        buffer,
        all,
    }
}

// What comes of a turn: all that comes of the piece, or a session that is to be given the piece from a place on.
#[derive(Clone, Copy)]
pub enum Turn {
    Over(Session),
    On(Session, usize),
}

// What comes of the bytes held with some of a piece.
fn turned(s: Session, bytes: &[u8]) -> Turn
    requires { Able s (s.held + length bytes.now) × (0 < s.held) × (s.held < 184) }
    ensures { Turns s bytes.now result }
{
    let t = run_joined(s, bytes);
    if !goes_on(t.session) {
        return Turn::Over(stopped(t.session));
    }
    if t.at == 0 {
        if t.all < ROOM {
            return Turn::Over(with_held(t.session, t.buffer, t.all));
        }
        return Turn::Over(stopped(t.session));
    }
    let held = s.held as usize;
    if held <= t.at {
        return Turn::On(with_held(t.session, t.buffer, 0), t.at - held);
    }
    let left = t.all - t.at;
    let buffer = appended([0u8; 184], 0, &t.buffer[..t.all], t.at, left);
    Turn::On(with_held(t.session, buffer, left), t.all - held)
}

// The bytes held, and those of a piece.
pub fn fed(s: Session, bytes: &[u8]) -> Session
    requires { Able s (s.held + length bytes.now) × (s.held < 184) }
    ensures { Feeds s (held_bytes s ++ bytes.now) result }
{
    let mut t = s;
    let mut from: usize = 0;
    while 0 < t.held {
        match turned(t, &bytes[from..]) {
            Turn::Over(end) => return end,
            Turn::On(next, came) => {
                t = next;
                from += came;
            }
        }
    }
    fed_alone(t, &bytes[from..])
}
