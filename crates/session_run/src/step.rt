// One part of an object at a time: the next one is judged, and what is left of the object is what is left behind it.
ghost use Rattle.std.specs.Prelude.{◌≡◌, cond, ◌+◌, ◌-◌, ◌*◌, ◌/◌, ◌%◌, ◌^◌, ◌<◌, ◌≤◌, eqb};
ghost use Rattle.drawing.specs.Fields as F;
ghost use Rattle.ways.specs.Segments.{straight, segment_letter};
ghost use Rattle.pieces.specs.PartLaws.{with_parts};
ghost use Rattle.pieces.specs.OutlineLaws.{segments_from};
ghost use Rattle.session_run.specs.Digit.{digit};
ghost use Rattle.session_run.specs.Insides.{InsideHere, Next, Opened, Telling, Spelling, Fielded};

use crate::cursor::{Cursor, Step};
use crate::field::{Double, judged};
use crate::parts::{
    ALONG_END, ALONG_LATEX, BASE, BITMAP_END, BITMAP_LATEX, FREE_CURVE, FREE_LINE, JOINED_CURVE,
    JOINED_LINE, Part, TEXT_END, TEXT_LATEX,
};
use crate::whole::whole;
use drawing::limits::{LEAST_SEGMENTS, V1_2, V1_3};
use drawing::numbers::CUT;
use from_file::FromFile;
use layout::field::{count, dash_count, flag, flow_flag};
use layout::letter::{closed_letter, is_straight, segment_letter};
use pieces::Inside;
use ways::Pass;
use ways::way::Way;

// ---- runs

// The bytes of a run's field.
fn field_bytes(width: u32) -> usize
    ensures { Fielded width result }
{
    match width {
        2 => 2,
        4 => 4,
        _ => 8,
    }
}

// As many of a run's fields as are there, or the first of them, which is cut.
fn run_step(here: Cursor, version: u32, s: Inside) -> Step<Inside>
    requires { 0 < s.run }
    ensures { InsideHere version s here.entry result }
{
    let bytes = field_bytes(s.width);
    let there = (here.src.len() - here.at) / bytes;
    if there == 0 {
        return Step {
            left: s,
            pass: FromFile::refusal(CUT, here.at),
        };
    }
    let taken = s.run.min(there as u64);
    let fields = taken as usize;
    Step {
        left: Inside {
            run: s.run - taken,
            ..s
        },
        pass: Pass {
            at: here.at + fields * bytes,
            to: here.to + fields * ((bytes + 3) / 4),
        },
    }
}

// ---- parts

fn whole_step(here: Cursor, version: u32, s: Inside, part: Part) -> Step<Inside>
    requires { Next s (digit part) × (1 ≤ digit part) × (digit part ≤ 10) }
    ensures { InsideHere version s here.entry result }
{
    Step {
        left: Inside {
            parts: s.parts / BASE,
            run: 0,
            ..s
        },
        pass: whole(here, version, s.x, s.y, part),
    }
}

// A length, and then so many chars.
fn string_step(here: Cursor, version: u32, s: Inside, least: u32) -> Step<Inside>
    requires { Spelling version s least }
    ensures { InsideHere version s here.entry result }
{
    let mut none = [0u32; 0];
    let length = count::<FromFile>(here.src, &mut none, here.at, here.to, least);
    Step {
        left: Inside {
            parts: s.parts / BASE,
            run: length.value,
            width: 2,
            ..s
        },
        pass: length.pass,
    }
}

// Dashes and their offset are one run.
fn dash_run(n: u64) -> u64
    requires { n < 2 ^ 32 }
    ensures { result ≡ cond (eqb n 0) 0 (n + 1) }
{
    if n == 0 { 0 } else { n + 1 }
}

fn dash_step(here: Cursor, version: u32, s: Inside) -> Step<Inside>
    requires { Next s 11 }
    ensures { InsideHere version s here.entry result }
{
    let mut none = [0u32; 0];
    let counted = dash_count::<FromFile>(here.src, &mut none, here.at, here.to);
    Step {
        left: Inside {
            parts: s.parts / BASE,
            run: dash_run(counted.value),
            width: 4,
            ..s
        },
        pass: counted.pass,
    }
}

// One of two numbers.
fn either_of(test: bool, one: u64, other: u64) -> u64
    ensures { result ≡ cond test one other }
{
    if test { one } else { other }
}

// A flag tells which parts follow.
fn flag_step(here: Cursor, version: u32, s: Inside, one: u64, other: u64) -> Step<Inside>
    requires { Telling version s F.flag (λ f. with_parts s (cond (eqb f 1) one other)) }
    ensures { InsideHere version s here.entry result }
{
    let mut none = [0u32; 0];
    let told = flag::<FromFile>(here.src, &mut none, here.at, here.to);
    Step {
        left: Inside {
            parts: either_of(told.value == 1, one, other),
            run: 0,
            ..s
        },
        pass: told.pass,
    }
}

// ---- outlines

// So many segments, the first of which is this part, behind a run of doubles; or the object's end.
fn segments_from(s: Inside, part: u64, left: u32, doubles: u64) -> Inside
    ensures { result ≡ segments_from s part left doubles }
{
    if left == 0 {
        return Inside {
            parts: Part::End as u64,
            run: doubles,
            width: 8,
            segments: 0,
            ..s
        };
    }
    Inside {
        parts: part,
        run: doubles,
        width: 8,
        segments: left - 1,
        ..s
    }
}

fn outline_step(here: Cursor, version: u32, s: Inside) -> Step<Inside>
    requires { Next s 17 }
    ensures { InsideHere version s here.entry result }
{
    let mut none = [0u32; 0];
    let told = closed_letter::<FromFile>(here.src, &mut none, here.at, here.to);
    Step {
        left: Inside {
            parts: Part::Count as u64,
            run: 0,
            ..s
        },
        pass: told.pass,
    }
}

// From 1.3 on the start point is a run before the segments.
fn count_step(here: Cursor, version: u32, s: Inside) -> Step<Inside>
    requires { Next s 18 }
    ensures { InsideHere version s here.entry result }
{
    let mut none = [0u32; 0];
    let counted = count::<FromFile>(here.src, &mut none, here.at, here.to, LEAST_SEGMENTS);
    let left = counted.value as u32;
    if version < V1_3 {
        return Step {
            left: segments_from(s, Part::First as u64, left, 0),
            pass: counted.pass,
        };
    }
    Step {
        left: segments_from(s, Part::Segment as u64, left, 2),
        pass: counted.pass,
    }
}

// All but the letter of a segment without a start of its own is a run of doubles.
fn segment_step(here: Cursor, version: u32, s: Inside) -> Step<Inside>
    requires { Next s 19 }
    ensures { InsideHere version s here.entry result }
{
    let mut none = [0u32; 0];
    let told = segment_letter::<FromFile>(here.src, &mut none, here.at, here.to);
    let doubles = either_of(is_straight(told.value), 2, 6);
    Step {
        left: segments_from(s, Part::Segment as u64, s.segments, doubles),
        pass: told.pass,
    }
}

// A segment with a start of its own: the letter tells which parts follow.
fn own_step(here: Cursor, version: u32, s: Inside, line: u64, curve: u64) -> Step<Inside>
    requires { Telling version s segment_letter (λ c. with_parts s (cond (straight c) line curve)) }
    ensures { InsideHere version s here.entry result }
{
    let mut none = [0u32; 0];
    let told = segment_letter::<FromFile>(here.src, &mut none, here.at, here.to);
    Step {
        left: Inside {
            parts: either_of(is_straight(told.value), line, curve),
            run: 0,
            ..s
        },
        pass: told.pass,
    }
}

// The end of a segment is kept for the start of the next one.
fn x_step(here: Cursor, version: u32, s: Inside) -> Step<Inside>
    requires { Next s 22 }
    ensures { InsideHere version s here.entry result }
{
    let told = judged(here, Double);
    Step {
        left: Inside {
            parts: Part::EndY as u64,
            run: 0,
            x: told.value,
            ..s
        },
        pass: told.pass,
    }
}

fn y_step(here: Cursor, version: u32, s: Inside) -> Step<Inside>
    requires { Next s 23 }
    ensures { InsideHere version s here.entry result }
{
    let told = judged(here, Double);
    let kept = Inside { y: told.value, ..s };
    Step {
        left: segments_from(kept, Part::Joined as u64, s.segments, 0),
        pass: told.pass,
    }
}

// What ends an object: the flow frame flag, and from 1.2 on the description.
pub fn end_step(here: Cursor, version: u32, s: Inside) -> Step<Inside>
    requires { Next s 24 }
    ensures { InsideHere version s here.entry result }
{
    let mut none = [0u32; 0];
    let flow = flow_flag::<FromFile>(here.src, &mut none, here.at, here.to);
    if version < V1_2 {
        return Step {
            left: Inside {
                parts: Part::Nothing as u64,
                run: 0,
                ..s
            },
            pass: flow.pass,
        };
    }
    Step {
        left: Inside {
            parts: Part::String as u64,
            run: 0,
            ..s
        },
        pass: flow.pass,
    }
}

// ---- any part

// The next part, which there is.
fn part_step(here: Cursor, version: u32, s: Inside, part: Part) -> Step<Inside>
    requires { Next s (digit part) × (1 ≤ digit part) }
    ensures { InsideHere version s here.entry result }
{
    match part {
        Part::Nothing => unreachable!(),
        Part::Dashes => dash_step(here, version, s),
        Part::String => string_step(here, version, s, 0),
        Part::Words => string_step(here, version, s, 1),
        Part::Latex => flag_step(here, version, s, TEXT_LATEX, TEXT_END),
        Part::LatexAlong => flag_step(here, version, s, ALONG_LATEX, ALONG_END),
        Part::Links => flag_step(here, version, s, BITMAP_LATEX, BITMAP_END),
        Part::Outline => outline_step(here, version, s),
        Part::Count => count_step(here, version, s),
        Part::Segment => segment_step(here, version, s),
        Part::First => own_step(here, version, s, FREE_LINE, FREE_CURVE),
        Part::Joined => own_step(here, version, s, JOINED_LINE, JOINED_CURVE),
        Part::EndX => x_step(here, version, s),
        Part::EndY => y_step(here, version, s),
        Part::End => end_step(here, version, s),
        Part::Paint
        | Part::Width
        | Part::LineEnd
        | Part::Markers
        | Part::Point
        | Part::Controls
        | Part::Join
        | Part::Face
        | Part::Transformation
        | Part::Alignment => whole_step(here, version, s, part),
    }
}

// The next fields of an object that is open.
pub fn inside_step(here: Cursor, version: u32, s: Inside) -> Step<Inside>
    requires { Opened s }
    ensures { InsideHere version s here.entry result }
{
    if 0 < s.run {
        run_step(here, version, s)
    } else {
        part_step(here, version, s, Part::next(s.parts))
    }
}
