// What is wrong with a field's value.
ghost use Rattle.std.specs.Prelude.{◌≡◌, ◌<◌};
ghost use Rattle.drawing.specs.Fields as F;

use crate::ranges::{byte_within, reaches};
use drawing::numbers::{BAD_COUNT, OUT_OF_RANGE, TOO_DEEP};
use format::decode::signed;

pub fn unless(allowed: bool, number: u32) -> u32
    ensures { result ≡ F.unless allowed number }
{
    if allowed {
        return 0;
    }
    number
}

// A count or a length is decoded to an `i32`, so that a negative one is told from a large one.
pub fn count_fault(least: u32, word: u32) -> u32
    ensures { result ≡ (F.count least).fault word }
{
    let number = signed(word);
    unless(reaches(least, number), BAD_COUNT)
}

pub fn dash_fault(word: u32) -> u32
    ensures { result ≡ (F.dash_count).fault word }
{
    let number = signed(word);
    if reaches(0, number) {
        return unless(word % 2 == 0, BAD_COUNT);
    }
    BAD_COUNT
}

// A font's size is decoded as a count is.
pub fn size_fault(word: u32) -> u32
    ensures { result ≡ (F.font_size).fault word }
{
    let number = signed(word);
    unless(reaches(0, number), OUT_OF_RANGE)
}

pub fn marker_fault(high: u32, more: bool, id: u32) -> u32
    requires { id < 256 }
    ensures { result ≡ (F.marker_id high more).fault id }
{
    if byte_within(0, high, id) {
        if more {
            return 0;
        }
        return unless(id == 0, TOO_DEEP);
    }
    OUT_OF_RANGE
}
