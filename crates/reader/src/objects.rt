// Objects of a file: an object that is a group calls the group's descent, which calls the object's back, and the depth left falls at each group.
ghost use Rattle.std.specs.Prelude.{◌≡◌, ◌+◌, ◌^◌, ◌<◌, ◌≤◌, length};
ghost use Rattle.format.specs.Digits.{digits};
ghost use Rattle.format.specs.Pass as P;
ghost use Rattle.drawing.specs.LeafLayout.{leaf_body, object_end};
ghost use Rattle.drawing.specs.Table.{group_kind};
ghost use Rattle.drawing.specs.KindLaws.{kind_by_letter};
ghost use Rattle.reader.specs.Descents.{Stands, Rowed, DescendsObject, DescendsMembers, DescendsGroup};
ghost use Rattle.reader.specs.ObjectLaws.{leaf_fault, GroupHere};

use drawing::letters::GROUP;
use drawing::limits::LEAST_MEMBERS;
use drawing::numbers::CUT;
use drawing::row::GROUP_KIND;
use fields::letters::object_fault;
use format::decode::char_at;
use from_file::FromFile;
use layout::field::count;
use layout_objects::end::group_end;
use layout_objects::leaf::leaf_body;
use rows::kind::leaf_kind;
use rows::store::put_row;
use rows::walked::Walked;
use ways::way::Way;
use ways::{Pass, REFUSED};

// A refusal, in the row that it was met in.
pub fn stopped(row: usize, pass: Pass) -> Walked
    ensures { result ≡ record { row = row; at = pass.at; to = pass.to } }
{
    Walked {
        row,
        at: pass.at,
        to: pass.to,
    }
}

// The fault of the id that stands here where no group may, 0 for none.
fn leaf_fault(file: &[u8], at: usize, version: u32) -> u32
    requires at_in_bounds { at ≤ length file.now }
    requires file_len_bound { length file.now < 2 ^ 32 }
    ensures { result ≡ leaf_fault version file.now at }
{
    if FromFile::there(&*file, at, 2, 1) {
        return object_fault(false, version, char_at(&*file, at) as u64);
    }
    CUT
}

// What follows a leaf's id, and its row.
fn leaf_fields(
    file: &[u8],
    contents: &mut [u32],
    bodies: &mut [u32],
    at: usize,
    to: usize,
    row: usize,
    version: u32,
    parent: u32,
    letter: u64,
) -> Walked
    requires { Stands (length file.now) at row to }
    ensures { Rowed (leaf_body version letter) (kind_by_letter letter) parent to row (row + 1) file.now contents.old bodies.old contents.new bodies.new at to result }
{
    let behind = leaf_body::<FromFile>(&*file, bodies, at, to, version, letter);
    if REFUSED <= behind.at {
        return stopped(row, behind);
    }
    put_row(contents, row, leaf_kind(letter), parent, to, behind.to - to);
    Walked {
        row: row + 1,
        at: behind.at,
        to: behind.to,
    }
}

// A leaf. Its id is no word of the table.
fn leaf(
    file: &[u8],
    contents: &mut [u32],
    bodies: &mut [u32],
    at: usize,
    to: usize,
    row: usize,
    version: u32,
    parent: u32,
) -> Walked
    requires { Stands (length file.now) at row to }
    ensures { DescendsObject file.now version 0 parent at row to contents.old bodies.old contents.new bodies.new result }
{
    let fault = leaf_fault(&*file, at, version);
    if fault != 0 {
        return stopped(row, FromFile::refusal(fault, at));
    }
    let letter = char_at(&*file, at) as u64;
    leaf_fields(
        &*file,
        contents,
        bodies,
        at + 2,
        to,
        row,
        version,
        parent,
        letter,
    )
}

fn group_here(file: &[u8], at: usize) -> bool
    requires at_in_bounds { at ≤ length file.now }
    requires file_len_bound { length file.now < 2 ^ 32 }
    ensures { GroupHere file.now at result }
{
    if FromFile::there(&*file, at, 2, 1) {
        return char_at(&*file, at) as u64 == GROUP;
    }
    false
}

// A group's own body, behind its members. Its row is stored last, since its body begins where those of its members end.
fn own_body(
    file: &[u8],
    contents: &mut [u32],
    bodies: &mut [u32],
    at: usize,
    to: usize,
    next: usize,
    row: usize,
    version: u32,
    parent: u32,
    members: u64,
) -> Walked
    requires stands { Stands (length file.now) at next (to + 1) }
    requires row_le_next { row ≤ next }
    requires members_bound { members < 2 ^ 32 }
    ensures { Rowed (object_end version) group_kind parent to row next file.now contents.old (P.put to (digits (2 ^ 32) 1 members) bodies.old) contents.new bodies.new at (to + 1) result }
{
    FromFile::put(bodies, to, 4, members);
    let behind = group_end::<FromFile>(&*file, bodies, at, to + 1, version);
    if REFUSED <= behind.at {
        return stopped(row, behind);
    }
    put_row(contents, row, GROUP_KIND, parent, to, behind.to - to);
    Walked {
        row: next,
        at: behind.at,
        to: behind.to,
    }
}

// An object in which groups nest at most so deep.
#[cycle(all_group_object)]
pub fn object(
    file: &[u8],
    contents: &mut [u32],
    bodies: &mut [u32],
    at: usize,
    to: usize,
    row: usize,
    version: u32,
    deep: u32,
    parent: u32,
) -> Walked
    requires { Stands (length file.now) at row to }
    ensures { DescendsObject file.now version deep parent at row to contents.old bodies.old contents.new bodies.new result }
{
    if deep == 0 {
        return leaf(&*file, contents, bodies, at, to, row, version, parent);
    }
    if group_here(&*file, at) {
        return group(
            &*file,
            contents,
            bodies,
            at + 2,
            to,
            row,
            version,
            deep - 1,
            parent,
        );
    }
    leaf(&*file, contents, bodies, at, to, row, version, parent)
}

// What follows a group's id: how many members, these, and the group's own end. The count is a word behind those of the members.
#[cycle(all_group_object)]
pub fn group(
    file: &[u8],
    contents: &mut [u32],
    bodies: &mut [u32],
    at: usize,
    to: usize,
    row: usize,
    version: u32,
    deep: u32,
    parent: u32,
) -> Walked
    requires { Stands (length file.now) at row to }
    ensures { DescendsGroup file.now version deep parent at row to contents.old bodies.old contents.new bodies.new result }
{
    let mut none = [0u32; 0];
    let counted = count::<FromFile>(&*file, &mut none, at, to, LEAST_MEMBERS);
    let number = counted.value;
    let behind = counted.pass;
    if REFUSED <= behind.at {
        return stopped(row, behind);
    }
    let inner = all(
        &*file,
        contents,
        bodies,
        behind.at,
        to,
        row + 1,
        version,
        deep,
        row as u32,
        number,
    );
    if REFUSED <= inner.at {
        return inner;
    }
    own_body(
        &*file, contents, bodies, inner.at, inner.to, inner.row, row, version, parent, number,
    )
}

// So many objects, one after another.
#[cycle(all_group_object)]
pub fn all(
    file: &[u8],
    contents: &mut [u32],
    bodies: &mut [u32],
    at: usize,
    to: usize,
    first: usize,
    version: u32,
    deep: u32,
    parent: u32,
    count: u64,
) -> Walked
    requires { Stands (length file.now) at first to }
    ensures { DescendsMembers file.now version deep parent count at first to contents.old bodies.old contents.new bodies.new result }
{
    let mut reached = Walked { row: first, at, to };
    for _ in 0..count {
        reached = object(
            &*file,
            contents,
            bodies,
            reached.at,
            reached.to,
            reached.row,
            version,
            deep,
            parent,
        );
        if REFUSED <= reached.at {
            return reached;
        }
    }
    reached
}
