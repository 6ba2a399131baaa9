// Objects of a table: an object that is a group calls the group's walk, which calls the object's back, and the depth left falls at each group.
ghost use Rattle.std.specs.Prelude.{◌+◌, ◌*◌, ◌<◌, ◌≤◌, length};
ghost use Rattle.drawing.specs.Table.{row_width, start_in};
ghost use Rattle.rows.specs.Rows.{row_at};
ghost use Rattle.ways.specs.Passes.{refused};
ghost use Rattle.walks.specs.Walks.{Stands, Counted, Counts, Rowed, WalksLeaf, WalksObject, WalksOwn, WalksGroup, WalksMany};

use crate::words::Words;
use drawing::limits::LEAST_MEMBERS;
use drawing::row::GROUP_KIND;
use fields::ranges::word_reaches;
use layout_objects::end::group_end;
use layout_objects::leaf::leaf_body;
use rows::cells::Cell;
use rows::kind::letter_of;
use rows::look::{has_row, is_row, kind_in, start_in};
use rows::walked::Walked;
use walks::bytes::put_opening;
use walks::kind::is_leaf;
use walks::lost::no_table;
use ways::{Pass, REFUSED};

// a group's letter, and the count of its members
const OPENING_BYTES: usize = 6;

// What the walk has come to behind an object's body, if its row says just that.
fn rowed<C: Cell>(
    contents: &[C],
    row: usize,
    kind: u32,
    parent: u32,
    start: usize,
    behind: Pass,
    next: usize,
) -> Walked
    requires row_width_in_bounds { row_width * row + row_width ≤ length (C.cells contents.now) }
    requires start_le_at { behind.at < refused → start ≤ behind.at }
    ensures { Rowed (row_at (C.cells contents.now) row) kind parent start next behind result }
{
    let at = behind.at;
    let to = behind.to;
    if REFUSED <= at {
        return no_table();
    }
    if is_row(&*contents, row, kind, parent, start, at - start) {
        return Walked { row: next, at, to };
    }
    no_table()
}

// A leaf, of which the row is there.
fn leaf<C: Cell, W: Words>(
    contents: &[C],
    words: &[W::Unit],
    out: &mut [u8],
    at: usize,
    to: usize,
    row: usize,
    version: u32,
    parent: u32,
) -> Walked
    requires stands { Stands (C.cells contents.now) (W.units words.now) row at to }
    requires row_width_in_bounds { row_width * row + row_width ≤ length (C.cells contents.now) }
    ensures { WalksLeaf version parent row (C.cells contents.now) (W.units words.now) out.old out.new at to result }
{
    let kind = kind_in(&*contents, row);
    if is_leaf(version, kind) {
        let letter = letter_of(kind);
        W::are_words(&*words);
        W::put(out, to, 2, letter);
        let body = leaf_body::<W>(&*words, out, at, to + 2, version, letter);
        return rowed(&*contents, row, kind, parent, at, body, row + 1);
    }
    no_table()
}

// An object in which groups nest at most so deep.
#[cycle(all_group_object)]
pub fn object<C: Cell, W: Words>(
    contents: &[C],
    words: &[W::Unit],
    out: &mut [u8],
    at: usize,
    to: usize,
    row: usize,
    version: u32,
    deep: u32,
    parent: u32,
) -> Walked
    requires { Stands (C.cells contents.now) (W.units words.now) row at to }
    ensures { WalksObject version deep parent row (C.cells contents.now) (W.units words.now) out.old out.new at to result }
{
    if has_row(&*contents, row) {
        if deep == 0 {
            return leaf::<C, W>(&*contents, &*words, out, at, to, row, version, parent);
        }
        if kind_in(&*contents, row) == GROUP_KIND {
            return group::<C, W>(
                &*contents,
                &*words,
                out,
                at,
                to,
                row,
                version,
                deep - 1,
                parent,
            );
        }
        return leaf::<C, W>(&*contents, &*words, out, at, to, row, version, parent);
    }
    no_table()
}

// The count of a group's members is the word at which its row says that its body begins, if that is one.
fn has_count<W: Words>(words: &[W::Unit], start: usize) -> bool
    ensures { Counts (W.units words.now) start result }
{
    if start < W::source_length(&*words) {
        W::are_words(&*words);
        return word_reaches(LEAST_MEMBERS, W::word_in(&*words, start));
    }
    false
}

// A group's own body, behind its members: it begins with their count, which was judged where its row says that it stands.
fn own_body<C: Cell, W: Words>(
    contents: &[C],
    words: &[W::Unit],
    out: &mut [u8],
    at: usize,
    to: usize,
    next: usize,
    row: usize,
    version: u32,
    parent: u32,
) -> Walked
    requires stands { Stands (C.cells contents.now) (W.units words.now) next at to }
    requires row_width_in_bounds { row_width * row + row_width ≤ length (C.cells contents.now) }
    requires counted { Counted (W.units words.now) (start_in (C.cells contents.now) row) }
    ensures { WalksOwn version parent row next (C.cells contents.now) (W.units words.now) out.old out.new at to result }
{
    if at < W::source_length(&*words) {
        W::are_words(&*words);
        let ended = group_end::<W>(&*words, out, at + 1, to, version);
        return rowed(&*contents, row, GROUP_KIND, parent, at, ended, next);
    }
    no_table()
}

// A group, of which the row is there.
#[cycle(all_group_object)]
pub fn group<C: Cell, W: Words>(
    contents: &[C],
    words: &[W::Unit],
    out: &mut [u8],
    at: usize,
    to: usize,
    row: usize,
    version: u32,
    deep: u32,
    parent: u32,
) -> Walked
    requires stands { Stands (C.cells contents.now) (W.units words.now) row at to }
    requires row_width_in_bounds { row_width * row + row_width ≤ length (C.cells contents.now) }
    ensures { WalksGroup version deep parent row (C.cells contents.now) (W.units words.now) out.old out.new at to result }
{
    W::are_words(&*words);
    let start = start_in(&*contents, row);
    if has_count::<W>(&*words, start) {
        let count = W::word_in(&*words, start);
        put_opening(out, to, count);
        let inner = all::<C, W>(
            &*contents,
            &*words,
            out,
            at,
            to + OPENING_BYTES,
            row + 1,
            version,
            deep,
            row as u32,
            count,
        );
        if REFUSED <= inner.at {
            return inner;
        }
        return own_body::<C, W>(
            &*contents, &*words, out, inner.at, inner.to, inner.row, row, version, parent,
        );
    }
    no_table()
}

// So many objects, one after another.
#[cycle(all_group_object)]
pub fn all<C: Cell, W: Words>(
    contents: &[C],
    words: &[W::Unit],
    out: &mut [u8],
    at: usize,
    to: usize,
    first: usize,
    version: u32,
    deep: u32,
    parent: u32,
    count: u32,
) -> Walked
    requires { Stands (C.cells contents.now) (W.units words.now) first at to }
    ensures { WalksMany version deep parent count first (C.cells contents.now) (W.units words.now) out.old out.new at to result }
{
    let mut reached = Walked { row: first, at, to };
    for _ in 0..count {
        reached = object::<C, W>(
            &*contents,
            &*words,
            out,
            reached.at,
            reached.to,
            reached.row,
            version,
            deep,
            parent,
        );
        if REFUSED <= reached.at {
            return reached;
        }
    }
    reached
}
