// Cases of `read`, whose data file is a drawing's file, and of `sheet_read`, whose data file is a sheet: a reader is either.

use crate::group::Group;
use crate::hash;
use crate::hash::Word;
use drawing::Answer;
use std::fmt::Write;
use text_out::TextOut;

// The call with large rooms; and for what is accepted with rooms for its table and a part of a row more, a row short and a word short.
pub fn put_groups<F: Fn(&[u8], &mut [u32], &mut [u32]) -> Answer>(
    out: &mut TextOut,
    file: &[u8],
    read: F,
)
    requires { F.IsAlwaysCallable read }
{
    let answer = put_group(out, file, &read, 37452, 65536);
    if answer.number != 0 {
        return;
    }
    let contents = 4 * answer.rows as usize;
    let bodies = answer.words as usize;
    put_group(out, file, &read, contents + 3, bodies);
    put_group(out, file, &read, contents.saturating_sub(1), bodies);
    put_group(out, file, &read, contents, bodies.saturating_sub(1));
}

// One call with rooms of so many words. The contents' run has three words more than the large room: a part of a row.
fn put_group<F: Fn(&[u8], &mut [u32], &mut [u32]) -> Answer>(
    out: &mut TextOut,
    file: &[u8],
    read: &F,
    contents_room: usize,
    bodies_room: usize,
) -> Answer
    requires { F.IsAlwaysCallable read.now }
{
    let mut contents = [u32::FILL; 37455];
    let mut bodies = [u32::FILL; 65536];
    let contents = &mut contents[..contents_room.min(37455)];
    let bodies = &mut bodies[..bodies_room.min(65536)];
    let answer = read(file, contents, bodies);
    let _ = write!(
        out,
        "{} {:08x} {:08x}",
        Group(answer),
        hash::of(contents),
        hash::of(bodies)
    );
    answer
}
