// A place in a file, and one part from there: of the head, of a group, or of the object that is open.
ghost use Rattle.std.specs.Prelude.{◌≡◌, List, ℕ, ◌+◌, ◌-◌, ◌^◌, ◌<◌, ◌≤◌, length, get_or};
ghost use Rattle.pieces.specs.EntryLaws.{leaf_parts};
ghost use Rattle.session_run.specs.Insides.{Opened};
ghost use Rattle.session_run.specs.Objects.{Sound, PlaceHere, HeadHere, Between, IsOpen, IsOver, Unended};

use crate::cursor::{Cursor, Step};
use crate::field::{Magic, ObjectId, OuterId, VersionChars, VersionLength, judged};
use crate::parts::{ALONG_PARTS, ARROW_PATH, BASE, BITMAP_PARTS, MARKED_PATH, Part, TEXT_PARTS};
use crate::stage::Stage;
use crate::step::{end_step, inside_step};
use drawing::head::VERSION_ZERO;
use drawing::letters;
use drawing::limits::{DEPTH_LIMIT, LEAST_MEMBERS, V1_1};
use from_file::FromFile;
use layout::field::count;
use layout_styles::settings::settings;
use pieces::Inside;
use ways::REFUSED;

// Which part comes next, by its stage; how many groups are open, and the rows so far; and what is left of the object that is open.
#[derive(Clone, Copy)]
pub struct Place {
    pub stage: u32,
    pub version: u32,
    pub depth: u32,
    pub rows: u32,
    pub inside: Inside,
}

// ---- the head

fn magic_step(here: Cursor, p: Place) -> Step<Place>
    requires { (p.stage ≡ 0) × Sound p }
    ensures { HeadHere p here.entry result }
{
    Step {
        left: Place {
            stage: Stage::VersionLength as u32,
            ..p
        },
        pass: judged(here, Magic).pass,
    }
}

fn length_step(here: Cursor, p: Place) -> Step<Place>
    requires { (p.stage ≡ 1) × Sound p }
    ensures { HeadHere p here.entry result }
{
    Step {
        left: Place {
            stage: Stage::Version as u32,
            ..p
        },
        pass: judged(here, VersionLength).pass,
    }
}

fn version_step(here: Cursor, p: Place) -> Step<Place>
    requires { (p.stage ≡ 2) × Sound p }
    ensures { HeadHere p here.entry result }
{
    let told = judged(here, VersionChars);
    if REFUSED <= told.pass.at {
        return Step {
            left: p,
            pass: told.pass,
        };
    }
    Step {
        left: Place {
            stage: Stage::Settings as u32,
            version: (told.value - VERSION_ZERO) as u32,
            ..p
        },
        pass: told.pass,
    }
}

fn settings_step(here: Cursor, p: Place) -> Step<Place>
    requires { (p.stage ≡ 3) × Sound p }
    ensures { HeadHere p here.entry result }
{
    let mut none = [0u32; 0];
    Step {
        left: Place {
            stage: Stage::Outer as u32,
            ..p
        },
        pass: settings::<FromFile>(here.src, &mut none, here.at, here.to, p.version),
    }
}

// The outer group, whose count comes next.
fn outer_step(here: Cursor, p: Place) -> Step<Place>
    requires { (p.stage ≡ 4) × Sound p }
    ensures { HeadHere p here.entry result }
{
    Step {
        left: Place {
            stage: Stage::Counting as u32,
            depth: 0,
            rows: 1,
            ..p
        },
        pass: judged(here, OuterId).pass,
    }
}

// ---- groups and objects

// A group's count: it is open, with so many members.
fn count_step(here: Cursor, p: Place, members: &mut [u32]) -> Step<Place>
    requires { (p.stage ≡ 5) × (p.depth < 16) × (length members.old ≡ 16) }
    ensures { PlaceHere p members.old members.new here.entry result }
{
    let mut none = [0u32; 0];
    let counted = count::<FromFile>(here.src, &mut none, here.at, here.to, LEAST_MEMBERS);
    if REFUSED <= counted.pass.at {
        return Step {
            left: p,
            pass: counted.pass,
        };
    }
    members[p.depth as usize] = counted.value as u32;
    Step {
        left: Place {
            stage: Stage::Objects as u32,
            depth: p.depth + 1,
            inside: Inside {
                parts: Part::Nothing as u64,
                run: 0,
                ..p.inside
            },
            ..p
        },
        pass: counted.pass,
    }
}

// The parts of a leaf, by its letter.
fn leaf_parts(version: u32, letter: u64) -> u64
    ensures { result ≡ leaf_parts version letter }
{
    match letter {
        letters::TEXT => TEXT_PARTS,
        letters::BITMAP => BITMAP_PARTS,
        letters::TEXT_PATH => ALONG_PARTS,
        _ if version < V1_1 => ARROW_PATH,
        _ => MARKED_PATH,
    }
}

// An object's id: a leaf's parts come next, or a group's count.
fn object_step(here: Cursor, p: Place, members: &mut [u32]) -> Step<Place>
    requires between_objects { (p.stage ≡ 6) × Between p.inside × Sound p × (p.rows < 2 ^ 31) × (length members.old ≡ 16) }
    requires depth_nonzero { (0 < p.depth) × (0 < get_or members.old (p.depth - 1) 0) }
    ensures { PlaceHere p members.old members.new here.entry result }
{
    let id = ObjectId {
        version: p.version,
        deeper: p.depth < DEPTH_LIMIT,
    };
    let told = judged(here, id);
    if REFUSED <= told.pass.at {
        return Step {
            left: p,
            pass: told.pass,
        };
    }
    members[(p.depth - 1) as usize] -= 1;
    if told.value == letters::GROUP {
        return Step {
            left: Place {
                stage: Stage::Counting as u32,
                rows: p.rows + 1,
                ..p
            },
            pass: told.pass,
        };
    }
    Step {
        left: Place {
            stage: Stage::Objects as u32,
            rows: p.rows + 1,
            inside: Inside {
                parts: leaf_parts(p.version, told.value),
                run: 0,
                ..p.inside
            },
            ..p
        },
        pass: told.pass,
    }
}

// Between objects, in a group: its end, or its next member.
fn around_step(here: Cursor, p: Place, members: &mut [u32]) -> Step<Place>
    requires between_objects { (p.stage ≡ 6) × Between p.inside × Sound p × (p.rows < 2 ^ 31) × (length members.old ≡ 16) }
    requires depth_nonzero { 0 < p.depth }
    ensures { PlaceHere p members.old members.new here.entry result }
{
    if members[(p.depth - 1) as usize] != 0 {
        return object_step(here, p, members);
    }
    let closing = Inside {
        parts: Part::End as u64,
        run: 0,
        ..p.inside
    };
    let ended = end_step(here, p.version, closing);
    Step {
        left: Place {
            stage: Stage::Objects as u32,
            depth: p.depth - 1,
            inside: ended.left,
            ..p
        },
        pass: ended.pass,
    }
}

// The next part of the object that is open.
fn open_step(here: Cursor, p: Place) -> Step<Place>
    requires { (p.stage ≡ 6) × Opened p.inside × Sound p }
    ensures { (ms : List ℕ) → PlaceHere p ms ms here.entry result }
{
    let next = inside_step(here, p.version, p.inside);
    Step {
        left: Place {
            stage: Stage::Objects as u32,
            inside: next.left,
            ..p
        },
        pass: next.pass,
    }
}

// Something is left of the object that is open.
pub fn is_open(s: Inside) -> bool
    ensures { IsOpen s result }
{
    0 < s.run || s.parts % BASE != 0
}

// The file has come to its end.
pub fn is_over(p: Place) -> bool
    ensures { IsOver p result }
{
    p.stage == Stage::Objects as u32 && p.depth == 0 && !is_open(p.inside)
}

// The next part of a file that has not come to its end.
pub fn step(here: Cursor, p: Place, members: &mut [u32]) -> Step<Place>
    requires { Sound p × (p.rows < 2 ^ 31) × Unended p × (length members.old ≡ 16) }
    ensures { PlaceHere p members.old members.new here.entry result }
{
    match Stage::from(p.stage) {
        Stage::Magic => magic_step(here, p),
        Stage::VersionLength => length_step(here, p),
        Stage::Version => version_step(here, p),
        Stage::Settings => settings_step(here, p),
        Stage::Outer => outer_step(here, p),
        Stage::Counting => count_step(here, p, members),
        Stage::Objects if is_open(p.inside) => open_step(here, p),
        Stage::Objects => around_step(here, p, members),
        Stage::Stopped => unreachable!(),
    }
}
