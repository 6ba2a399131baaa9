// Fields whose values tell what follows, that `layout` has no function for: ids, the head's, and a double with its value.
ghost use Rattle.std.specs.Prelude.{◌≡◌, ◌+◌, ◌/◌, ◌≤◌, length};
ghost use Rattle.format.specs.Kind.{Kind, size};
ghost use Rattle.drawing.specs.Fields as F;
ghost use Rattle.drawing.specs.LeafLayout.{is_leaf};
ghost use Rattle.ways.specs.Passes.{refusal_of};
ghost use Rattle.from_file.specs.Way.{way};
ghost use Rattle.reader.specs.FieldsAt.{number_at};
ghost use Rattle.reader.specs.OuterLaws.{outer_id};
ghost use Rattle.session_run.specs.Told.{JudgedHere, told_of, Sized, Plain, double_plain, object_plain, outer_plain, magic_plain, length_plain, version_plain};

use crate::cursor::Cursor;
use drawing::head::{MAGIC, VERSION_LAST, VERSION_LENGTH, VERSION_ZERO};
use drawing::letters::GROUP;
use drawing::numbers::{BAD_CHAR, BAD_VERSION, CUT, NO_JDR};
use fields::fault::unless;
use fields::letters::object_fault;
use from_file::FromFile;
use reader::head::chars_at;
use ways::FieldPass;
use ways::way::Way;

// A field by its kind: any number of so many bytes is a value, or the fault that it is.
pub trait Field: Copy {
    ghost kind: { Self → Kind };

    ghost laws: { (f : Self) → Plain (kind f) };

    fn size(self) -> usize
        ensures { result ≡ size (kind self).shape };

    // the number of a refusal, 0 for none
    fn fault(self, value: u64) -> u32
        ensures { result ≡ (kind self).fault value };
}

// A coordinate.
#[derive(Clone, Copy)]
pub struct Double;

impl Field for Double {
    ghost kind = { λ f. F.double };

    ghost laws = { λ f. double_plain };

    fn size(self) -> usize {
        8
    }

    fn fault(self, value: u64) -> u32 {
        0
    }
}

// An object's id, where a group may nest deeper or not.
#[derive(Clone, Copy)]
pub struct ObjectId {
    pub version: u32,
    pub deeper: bool,
}

impl Field for ObjectId {
    ghost kind = { λ f. F.object_id (is_leaf f.version) f.deeper };

    ghost laws = { λ f. object_plain f.version f.deeper };

    fn size(self) -> usize {
        2
    }

    fn fault(self, value: u64) -> u32 {
        object_fault(self.deeper, self.version, value)
    }
}

// The outer object's id.
#[derive(Clone, Copy)]
pub struct OuterId;

impl Field for OuterId {
    ghost kind = { λ f. outer_id };

    ghost laws = { λ f. outer_plain };

    fn size(self) -> usize {
        2
    }

    fn fault(self, value: u64) -> u32 {
        unless(value == GROUP, BAD_CHAR)
    }
}

// The chars JDR.
#[derive(Clone, Copy)]
pub struct Magic;

impl Field for Magic {
    ghost kind = { λ f. F.magic };

    ghost laws = { λ f. magic_plain };

    fn size(self) -> usize {
        6
    }

    fn fault(self, value: u64) -> u32 {
        unless(value == MAGIC, NO_JDR)
    }
}

// The number of the version's chars.
#[derive(Clone, Copy)]
pub struct VersionLength;

impl Field for VersionLength {
    ghost kind = { λ f. F.version_length };

    ghost laws = { λ f. length_plain };

    fn size(self) -> usize {
        4
    }

    fn fault(self, value: u64) -> u32 {
        unless(value == VERSION_LENGTH, BAD_VERSION)
    }
}

// The version's chars.
#[derive(Clone, Copy)]
pub struct VersionChars;

impl Field for VersionChars {
    ghost kind = { λ f. F.version_chars };

    ghost laws = { λ f. version_plain };

    fn size(self) -> usize {
        6
    }

    fn fault(self, value: u64) -> u32 {
        unless(VERSION_ZERO <= value && value <= VERSION_LAST, BAD_VERSION)
    }
}

// A value behind so many bytes and words, or the fault that it is.
fn told(here: Cursor, bytes: usize, value: u64, fault: u32) -> FieldPass
    requires { (bytes ≤ 8) × (here.at + bytes ≤ length here.src.now) }
    ensures { result ≡ told_of here.entry.at here.entry.to bytes ((bytes + 3) / 4) value fault }
{
    if fault != 0 {
        return FieldPass {
            value: 0,
            pass: FromFile::refusal(fault, here.at),
        };
    }
    FieldPass {
        value,
        pass: FromFile::ahead(here.at, here.to, bytes, (bytes + 3) / 4),
    }
}

// The number of so many bytes.
fn number_at(src: &[u8], at: usize, size: usize) -> u64
    requires { Sized size × (at + size ≤ length src.now) }
    ensures { result ≡ number_at size src.now at }
{
    if size == 6 {
        return chars_at(&*src, at);
    }
    FromFile::get(&*src, at, size)
}

// The next field's value, and how far that is; or where and why it is refused.
pub fn judged<K: Field>(here: Cursor, field: K) -> FieldPass
    ensures { JudgedHere (K.kind field) here.entry result }
{
    let size = field.size();
    if FromFile::there(here.src, here.at, size, (size + 3) / 4) {
        let value = number_at(here.src, here.at, size);
        return told(here, size, value, field.fault(value));
    }
    FieldPass {
        value: 0,
        pass: FromFile::refusal(CUT, here.at),
    }
}
