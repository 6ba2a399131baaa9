// A place in a file's bytes, and a step from there.
ghost use Rattle.std.specs.Prelude.{ℕ, ◌<◌, ◌≤◌, length, get_or};
ghost use Rattle.ways.specs.Passes.{Ready};

use ways::Pass;

// How far a run over some bytes has come: at so many of them, and at so many words of a table.
#[derive(Clone, Copy)]
pub struct Cursor<'a> {
    pub src: &'a [u8],
    pub at: usize,
    pub to: usize,
    pub ghost ready: { Ready (length src.now) at to },
    pub ghost inside: { at ≤ length src.now },
    pub ghost units: { (i : ℕ) → get_or src.now i 0 < 256 },
}

// What is left of a file or of an object, and how far the pass has come there.
#[derive(Clone, Copy)]
pub struct Step<T> {
    pub left: T,
    pub pass: Pass,
}
