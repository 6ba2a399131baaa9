// A whole table: its head, its outer group, and nothing behind them.
ghost use Rattle.std.specs.Prelude.{◌≡◌, ◌&&◌, ◌*◌, ◌<◌, ◌≤◌, ltb, leb, length};
ghost use Rattle.drawing.specs.Limits.{length_limit};
ghost use Rattle.drawing.specs.Table.{row_width};
ghost use Rattle.ways.specs.Passes.{refused};
ghost use Rattle.walks.specs.Walks.{Stands};
ghost use Rattle.walks.specs.FileWalks.{WalksOuter, WalksTable};

use crate::objects::group;
use crate::words::Words;
use drawing::head::HEAD_BYTES;
use drawing::limits::{DEPTH_LIMIT, LAST_MINOR, LENGTH_LIMIT};
use layout::field::integer_to;
use layout_styles::settings::settings;
use rows::cells::Cell;
use rows::look::{has_more, has_row};
use rows::walked::Walked;
use walks::bytes::put_head;
use walks::lost::no_table;
use ways::REFUSED;

// The walk has come to the end of the rows and of the words, and the file is not too long.
fn is_whole<C: Cell, W: Words>(
    contents: &[C],
    words: &[W::Unit],
    row: usize,
    at: usize,
    to: usize,
) -> bool
    requires { at < refused → row ≤ length_limit }
    ensures { result ≡ (ltb at refused && (leb (length (C.cells contents.now)) (row_width * row) && leb (length (W.units words.now)) at && leb to length_limit)) }
{
    if REFUSED <= at {
        return false;
    }
    if has_more(&*contents, row) {
        return false;
    }
    if at < W::source_length(&*words) {
        return false;
    }
    to <= LENGTH_LIMIT
}

// The outer group, with which rows, words and file end.
fn outer<C: Cell, W: Words>(
    contents: &[C],
    words: &[W::Unit],
    out: &mut [u8],
    at: usize,
    to: usize,
    version: u32,
) -> Walked
    requires { Stands (C.cells contents.now) (W.units words.now) 0 at to }
    ensures { WalksOuter version (C.cells contents.now) (W.units words.now) out.old out.new at to result }
{
    if has_row(&*contents, 0) {
        let walked = group::<C, W>(
            &*contents,
            &*words,
            out,
            at,
            to,
            0,
            version,
            DEPTH_LIMIT - 1,
            0,
        );
        if is_whole::<C, W>(&*contents, &*words, walked.row, walked.at, walked.to) {
            return walked;
        }
        return no_table();
    }
    no_table()
}

// The walk over a table that is not too long for an acceptable file.
pub fn walk_table<C: Cell, W: Words>(contents: &[C], words: &[W::Unit], out: &mut [u8]) -> Walked
    requires contents_len_bound { length (C.cells contents.now) ≤ row_width * length_limit }
    requires words_in_bounds { length (W.units words.now) ≤ length_limit }
    ensures { WalksTable (C.cells contents.now) (W.units words.now) out.old out.new result }
{
    W::are_words(&*words);
    let mut no_file = [0u8; 0];
    let told = integer_to::<W>(&*words, &mut no_file, 0, 0, LAST_MINOR as u64);
    let version = told.value;
    let judged = told.pass;
    if REFUSED <= judged.at {
        return no_table();
    }
    put_head(out, version);
    let settled = settings::<W>(&*words, out, judged.at, HEAD_BYTES, version as u32);
    if REFUSED <= settled.at {
        return no_table();
    }
    outer::<C, W>(
        &*contents,
        &*words,
        out,
        settled.at,
        settled.to,
        version as u32,
    )
}
