// The head of a file: the chars JDR, and the version.
ghost use Rattle.std.specs.Prelude.{◌≡◌, ◌+◌, ◌^◌, ◌<◌, ◌≤◌, length};
ghost use Rattle.drawing.specs.Limits.{length_limit};
ghost use Rattle.drawing.specs.Reading.{drawing_of};
ghost use Rattle.ways.specs.Passes.{refusal_of};
ghost use Rattle.from_file.specs.Way.{way};
ghost use Rattle.reader.specs.FieldsAt.{number_at};
ghost use Rattle.reader.specs.Heads.{Heads, version_at, chars_at};

use drawing::head::{
    HEAD_BYTES, HEAD_WORDS, MAGIC, MAGIC_AT, VERSION_AT, VERSION_LAST, VERSION_LENGTH,
    VERSION_LENGTH_AT, VERSION_ZERO,
};
use drawing::limits::LENGTH_LIMIT;
use drawing::numbers::{BAD_VERSION, CUT, NO_JDR, TOO_LONG};
use format::decode::{char_at, word_at};
use format::halves::from_halves;
use from_file::FromFile;
use ways::way::Way;
use ways::{FieldPass, Pass};

// Three chars as one number.
pub fn chars_at(file: &[u8], at: usize) -> u64
    requires { at + 6 ≤ length file.now }
    ensures { result ≡ number_at 6 file.now at }
{
    from_halves(char_at(&*file, at), word_at(&*file, at + 2))
}

fn no_version(number: u32, at: usize) -> FieldPass
    requires { at < 2 ^ 60 }
    ensures { result ≡ record { value = 0; pass = refusal_of way number at } }
{
    FieldPass {
        value: 0,
        pass: FromFile::refusal(number, at),
    }
}

// The version's chars, of which the minor number is kept, and the place behind the head.
fn version_chars(file: &[u8]) -> FieldPass
    requires in_bounds { 10 ≤ length file.now }
    requires file_in_bounds { length file.now ≤ length_limit }
    ensures { Heads file.now (chars_at file.now) result }
{
    if file.len() < HEAD_BYTES {
        return no_version(CUT, VERSION_AT);
    }
    let chars = chars_at(&*file, VERSION_AT);
    if chars < VERSION_ZERO {
        return no_version(BAD_VERSION, VERSION_AT);
    }
    if VERSION_LAST < chars {
        return no_version(BAD_VERSION, VERSION_AT);
    }
    FieldPass {
        value: chars - VERSION_ZERO,
        pass: Pass {
            at: HEAD_BYTES,
            to: HEAD_WORDS,
        },
    }
}

fn version(file: &[u8]) -> FieldPass
    requires in_bounds { 6 ≤ length file.now }
    requires file_in_bounds { length file.now ≤ length_limit }
    ensures { Heads file.now (version_at file.now) result }
{
    if file.len() < VERSION_AT {
        return no_version(CUT, VERSION_LENGTH_AT);
    }
    if word_at(&*file, VERSION_LENGTH_AT) as u64 != VERSION_LENGTH {
        return no_version(BAD_VERSION, VERSION_LENGTH_AT);
    }
    version_chars(&*file)
}

// A file that is too long is refused whatever it holds.
pub fn head(file: &[u8]) -> FieldPass
    ensures { Heads file.now (drawing_of file.now) result }
{
    if LENGTH_LIMIT < file.len() {
        return no_version(TOO_LONG, LENGTH_LIMIT);
    }
    if file.len() < VERSION_LENGTH_AT {
        return no_version(CUT, MAGIC_AT);
    }
    if chars_at(&*file, MAGIC_AT) != MAGIC {
        return no_version(NO_JDR, MAGIC_AT);
    }
    version(&*file)
}
