// Runs the cases that data/cases.txt names, and prints a line for each: its name, and what its call answered, with hashes of the lent memory. A name
// begins with the call's, as `read/0000`, and is that of the data file too. What is printed is held to the lines of `second`; its README says
// what they hold, and what the data files hold.
#![tactic(auto)]

ghost use Rattle.std.specs.Prelude.{◌≡◌, ◌≤◌, length, take};

use call::{Call, NoCall};
use case::Case;
use cut::{cut_at, get_words};
use std::fs::{File, Files};
use std::io::Read;
use text_out::TextOut;
use text_out::input::read_full;

mod asked;
mod call;
mod case;
mod cut;
mod description;
mod extents;
mod group;
mod hash;
mod lent;
mod list;
mod read;
mod row_questions;
mod sessions;
mod sheet;
mod tables;

fn main(rt: HostRuntime) {
    let mut list = [0u8; 131072];
    let length = read_list(&rt, &mut list);
    let mut out = TextOut::new(rt.stdout());
    put_cases(&rt, &mut out, &list[..length]);
    out.flush();
}

// No list is an empty one.
fn read_list<R: Files>(files: &R, list: &mut [u8]) -> usize
    ensures { (result ≤ length list.new) × (result ≡ length (take result list.new)) }
{
    match File::open(files, "cases.txt") {
        Ok(mut file) => read_full(&mut file, list),
        Err(_) => 0,
    }
}

// A line of the list is a case's name, a space, and what the case is.
fn put_cases<R: Files>(files: &R, out: &mut TextOut, list: &[u8]) {
    let mut rest = list;
    while !rest.is_empty() {
        let (name, line) = cut_at(rest, b' ');
        put_case(files, out, name);
        (_, rest) = cut_at(line, b'\n');
    }
}

fn put_case<R: Files>(files: &R, out: &mut TextOut, name: &[u8]) {
    out.put_all(name);
    match open(files, name) {
        Some(mut file) => put_file(out, name, &mut file),
        None => out.put_all(b" does not open"),
    }
    out.put(b'\n');
}

// A function of its own, as `put_words_call`, since a function fills its rooms when it is entered, whether they are used or not.
#[inline(never)]
fn put_file<F: Read>(out: &mut TextOut, name: &[u8], file: &mut F) {
    // It holds two counts, any table that the reader fills, and a label.
    let mut room = [0u8; 416000];
    let length = read_full(file, &mut room);
    let (call, _) = cut_at(name, b'/');
    put_call(out, Call::try_from(call), &room[..length]);
}

// The names of files are UTF-8 text.
fn open<R: Files>(files: &R, name: &[u8]) -> Option<R::File> {
    let path = str::from_utf8(name).ok()?;
    File::open(files, path).ok()
}

// The calls that take bytes; all others take words.
fn put_call(out: &mut TextOut, call: Result<Call, NoCall>, file: &[u8]) {
    match call {
        Ok(Call::Read) => read::put_groups(out, file, jdr::read),
        Ok(Call::SheetRead) => read::put_groups(out, file, jdr::sheet_read),
        _ => put_words_call(out, call, file),
    }
}

// Those of a session take the words and the file; all others take a table.
#[inline(never)]
fn put_words_call(out: &mut TextOut, call: Result<Call, NoCall>, file: &[u8]) {
    let mut room = [0u32; 104000];
    let count = get_words(file, &mut room);
    let words = &room[..count];
    match (call, Case::of(words)) {
        (Ok(Call::Session), _) => sessions::put_groups(out, words, file),
        (_, Some(case)) => put_table_call(out, call, case),
        (_, None) => out.put_all(b" has no table"),
    }
}

fn put_table_call(out: &mut TextOut, call: Result<Call, NoCall>, case: Case<'_>) {
    match call {
        Ok(Call::Table) => tables::put_groups(out, case),
        Ok(Call::SheetWrite) => sheet::put_groups(out, case),
        Ok(Call::List) => list::put_groups(out, case),
        Ok(Call::Box) => extents::put_groups(out, case),
        Ok(Call::Description) => description::put_groups(out, case),
        _ => out.put_all(b" is a case of no call"),
    }
}
