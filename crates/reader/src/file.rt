// A whole file: its head, its settings and the outer group, with which it has to end.
ghost use Rattle.std.specs.Prelude.{◌≡◌, ◌^◌, ◌<◌, ◌≤◌, length};
ghost use Rattle.reader.specs.Descents.{Stands};
ghost use Rattle.reader.specs.FieldsAt.{fault_at};
ghost use Rattle.reader.specs.OuterLaws.{outer_id, DescendsOuter};
ghost use Rattle.reader.specs.Files.{DescendsFile};

use crate::head::head;
use crate::objects::{group, stopped};
use drawing::letters::GROUP;
use drawing::limits::DEPTH_LIMIT;
use drawing::numbers::{BAD_CHAR, CUT, TRAILING_BYTES};
use format::decode::char_at;
use from_file::FromFile;
use layout_styles::settings::settings;
use rows::walked::Walked;
use ways::REFUSED;
use ways::way::Way;

// What is wrong with the outer object, which has to be a group, by its id: 0 for nothing.
fn outer_fault(file: &[u8], at: usize) -> u32
    requires at_in_bounds { at ≤ length file.now }
    requires file_len_bound { length file.now < 2 ^ 32 }
    ensures { result ≡ fault_at outer_id file.now at }
{
    if FromFile::there(&*file, at, 2, 1) {
        if char_at(&*file, at) as u64 == GROUP {
            return 0;
        }
        return BAD_CHAR;
    }
    CUT
}

fn outer(
    file: &[u8],
    contents: &mut [u32],
    bodies: &mut [u32],
    at: usize,
    to: usize,
    version: u32,
) -> Walked
    requires { Stands (length file.now) at 0 to }
    ensures { DescendsOuter file.now version at to contents.old bodies.old contents.new bodies.new result }
{
    let fault = outer_fault(&*file, at);
    if fault != 0 {
        return stopped(0, FromFile::refusal(fault, at));
    }
    let walked = group(
        &*file,
        contents,
        bodies,
        at + 2,
        to,
        0,
        version,
        DEPTH_LIMIT - 1,
        0,
    );
    let end = walked.at;
    if REFUSED <= end {
        return walked;
    }
    if end < file.len() {
        return stopped(0, FromFile::refusal(TRAILING_BYTES, end));
    }
    walked
}

// The rows and words of a file, stored where there is room for them; how far it is good, and how many they are.
pub fn pass_file(file: &[u8], contents: &mut [u32], bodies: &mut [u32]) -> Walked
    ensures { DescendsFile file.now contents.old bodies.old contents.new bodies.new result }
{
    let told = head(&*file);
    let version = told.value;
    let behind = told.pass;
    if REFUSED <= behind.at {
        return stopped(0, behind);
    }
    FromFile::put(bodies, 0, 4, version);
    let settled = settings::<FromFile>(&*file, bodies, behind.at, behind.to, version as u32);
    if REFUSED <= settled.at {
        return stopped(0, settled);
    }
    outer(
        &*file,
        contents,
        bodies,
        settled.at,
        settled.to,
        version as u32,
    )
}
