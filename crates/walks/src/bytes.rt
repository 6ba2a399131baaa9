// The bytes of a file that stand in no body: what comes before the settings, and a group's opening.
ghost use Rattle.std.specs.Prelude.{◌^◌, ◌<◌, ◌≤◌};
ghost use Rattle.format.specs.Digits.{digits};
ghost use Rattle.drawing.specs.Limits.{last_minor};
ghost use Rattle.ways.specs.Written.{Writes};
ghost use Rattle.walks.specs.Walks.{opening_bytes};
ghost use Rattle.walks.specs.FileWalks.{head_bytes};

use drawing::head::{MAGIC, MAGIC_AT, VERSION_AT, VERSION_LENGTH, VERSION_LENGTH_AT, VERSION_ZERO};
use drawing::letters::GROUP;
use format::halves::{high, low};
use memory::write::write_value;

// Three chars, which are one number.
fn put_chars(out: &mut [u8], to: usize, chars: u64)
    requires { (to < 2 ^ 40) × (chars < 256 ^ 6) }
    ensures { Writes to (digits 256 6 chars) out.old out.new }
{
    write_value(out, to, 2, high(chars) as u64);
    write_value(out, to + 2, 4, low(chars) as u64);
}

// The magic, and the version with its length.
pub fn put_head(out: &mut [u8], version: u64)
    requires { version ≤ last_minor }
    ensures { Writes 0 (head_bytes version) out.old out.new }
{
    put_chars(out, MAGIC_AT, MAGIC);
    write_value(out, VERSION_LENGTH_AT, 4, VERSION_LENGTH);
    put_chars(out, VERSION_AT, VERSION_ZERO + version);
}

// A group's letter, and the count of its members.
pub fn put_opening(out: &mut [u8], to: usize, count: u32)
    requires { to < 2 ^ 40 }
    ensures { Writes to (opening_bytes count) out.old out.new }
{
    write_value(out, to, 2, GROUP);
    write_value(out, to + 2, 4, count as u64);
}
