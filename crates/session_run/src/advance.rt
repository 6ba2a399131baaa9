// A session, run over some bytes.
ghost use Rattle.std.specs.Prelude.{◌≡◌, cond, ltb, ℕ, ◌+◌, ◌^◌, ◌<◌, ◌≤◌, length};
ghost use Rattle.drawing.specs.Limits.{length_limit};
ghost use Rattle.session_run.specs.Advancing.{place_of, after_run, Copied, Tame, Advances};

use crate::place::Place;
use crate::run::{Ran, run};
use drawing::numbers::CUT;
use pieces::{Inside, Session};

// A session behind a run, and how far that came.
#[derive(Clone, Copy)]
pub struct Fed {
    pub session: Session,
    pub at: usize,
}

fn place_of(s: Session) -> Place
    ensures { result ≡ place_of s }
{
    Place {
        stage: s.stage,
        version: s.version,
        depth: s.depth,
        rows: s.rows,
        inside: Inside {
            parts: s.parts,
            run: s.run,
            width: s.width,
            segments: s.segments,
            x: s.x,
            y: s.y,
        },
    }
}

// The number of a refusal, of which there are 13.
fn number_of(number: usize) -> u32
    ensures { result ≡ cond (ltb number 14) number 2 }
{
    if number < 14 { number as u32 } else { CUT }
}

// What a run came to, in a session: the bytes before those that were run over are so many.
fn after_run(s: Session, ran: Ran, members: [u32; 16], base: usize) -> Session
    requires { (ran.to < 2 ^ 32) × (base + ran.stop < 2 ^ 32) }
    ensures { result ≡ after_run s ran members base }
{
    let Place {
        stage,
        version,
        depth,
        rows,
        inside,
    } = ran.place;
    Session {
        depth,
        number: number_of(ran.number),
        offset: (base + ran.stop) as u32,
        rows,
        words: ran.to as u32,
        version,
        stage,
        width: inside.width,
        segments: inside.segments,
        parts: inside.parts,
        run: inside.run,
        x: inside.x,
        y: inside.y,
        members,
        ..s
    }
}

// The members left, in an array that is known to have room for each depth.
fn copied(old: [u32; 16]) -> [u32; 16]
    ensures { (length result ≡ 16) × Copied old result }
{
    let mut members = [0u32; 16];
    members.copy_from_slice(&old);
    members
}

// From its place on, over bytes that so many came before.
pub fn advance(s: Session, src: &[u8], base: usize) -> Fed
    requires { Tame s × (base + length src.now ≤ length_limit) }
    ensures { Advances s src.now base result }
{
    let mut members = copied(s.members);
    let ran = run(src, s.words as usize, place_of(s), &mut members);
    Fed {
        session: after_run(s, ran, members, base),
        at: ran.at,
    }
}
