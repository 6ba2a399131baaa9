// The calls that fill memory of one kind: the writers and the list.

use crate::group::Group;
use crate::hash;
use crate::hash::Word;
use drawing::Answer;
use std::fmt::Write;
use text_out::TextOut;

// The call with a large room; and where it is done, with room for what it needs, and with one less.
pub fn put_groups<T: Word, F: Fn(&mut [T]) -> Answer, N: Fn(Answer) -> u32>(
    out: &mut TextOut,
    room: &mut [T],
    call: F,
    needed: N,
)
    requires callable { F.IsAlwaysCallable call }
    requires known { N.IsAlwaysCallable needed }
{
    let answer = put_group(out, room, &call);
    if answer.number != 0 {
        return;
    }
    let needed = needed(answer) as usize;
    put_part(out, room, needed, &call);
    if let Some(short) = needed.checked_sub(1) {
        put_part(out, room, short, &call);
    }
}

// One call with so much of the room.
fn put_part<T: Word, F: Fn(&mut [T]) -> Answer>(
    out: &mut TextOut,
    room: &mut [T],
    length: usize,
    call: &F,
)
    requires { F.IsAlwaysCallable call.now }
{
    let end = length.min(room.len());
    put_group(out, &mut room[..end], call);
}

// One call: what it answered, and the hash of all that was lent.
fn put_group<T: Word, F: Fn(&mut [T]) -> Answer>(
    out: &mut TextOut,
    room: &mut [T],
    call: &F,
) -> Answer
    requires { F.IsAlwaysCallable call.now }
{
    for place in room.iter_mut() {
        *place = T::FILL;
    }
    let answer = call(room);
    let _ = write!(out, "{} {:08x}", Group(answer), hash::of(room));
    answer
}
