// What the programs share: standard output gathered in a buffer, and the reading of an input as far as there is room.
#![tactic(auto)]

ghost use Rattle.std.specs.Prelude.{◌≡◌, ◌≤◌, [], IsOk};
ghost use Rattle.arrayvec.specs.ArrayVec.{array_vec_len};
ghost use Rattle.text_out.specs.Held.{held_after, held_after_all};

use arrayvec::ArrayVec;
pub use lent::{Buffer, flush, put, put_all, put_decimal, put_next, within};
use std::fmt;
use std::io::{Print, Stdout};

pub mod input;
mod lent;

// Gathers what is put into it, so that many short pieces are written by few calls: 4,096 bytes are written at once. What it
// writes goes to the standard output that it is made with. A write that fails is let go, and what it was to write is lost.
#[derive(Drop)]
pub struct TextOut {
    out: Stdout,
    held: ArrayVec<u8, 4096>,
    ghost fits: { array_vec_len held ≤ 4096 },
}

impl TextOut {
    pub fn new(out: Stdout) -> Self
        ensures { result.held.items ≡ [] }
    {
        TextOut {
            out,
            held: ArrayVec::new(),
        }
    }

    // A full buffer is written out and begins again.
    pub fn put(&mut self, byte: u8)
        ensures { self.new.held.items ≡ held_after self.old.held.items byte }
    {
        if self.held.is_full() {
            self.flush();
        }
        self.held.push(byte);
    }

    // What all fits is put at once.
    #[tactic(auto, using(crate::proofs::Fitting::held_fitting))]
    pub fn put_all(&mut self, bytes: &[u8])
        ensures { self.new.held.items ≡ held_after_all self.old.held.items bytes.now }
    {
        if self.held.try_extend_from_slice(bytes).is_err() {
            self.put_each(bytes);
        }
    }

    fn put_each(&mut self, bytes: &[u8])
        ensures { self.new.held.items ≡ held_after_all self.old.held.items bytes.now }
    {
        for byte in bytes {
            self.put(*byte);
        }
    }

    // Writes out what is held. Nothing is held after that.
    pub fn flush(&mut self)
        ensures { self.new.held.items ≡ [] }
    {
        let _ = self.out.write_all(self.held.as_slice());
        self.held.clear();
    }
}

// What `write!` writes is put. That never fails, so what `write!` answers of it may be let go.
impl fmt::Write for TextOut {
    ghost write_str_gives = { λ old bytes new. new.held.items ≡ held_after_all old.held.items bytes };

    fn write_str(&mut self, text: &str) -> fmt::Result
        ensures ok { IsOk result → self.new.held.items ≡ held_after_all self.old.held.items text.now }
        ensures never_fails { IsOk result }
    {
        self.put_all(text.as_bytes());
        Ok(())
    }
}
