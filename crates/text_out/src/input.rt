// Reading as far as there is room.
ghost use Rattle.std.specs.Prelude.{◌≡◌, ◌≤◌, length, take};

use std::io::Read;

// Reads until the room is full, the input ends or a read fails, and answers how many bytes it put at the start of the room.
pub fn read_full<R: Read>(input: &mut R, room: &mut [u8]) -> usize
    ensures { (result ≤ length room.new) × (result ≡ length (take result room.new)) }
{
    let mut done = 0;
    while done < room.len() {
        match input.read(&mut room[done..]) {
            Ok(count) if count > 0 => done += count,
            _ => break,
        }
    }
    done
}
