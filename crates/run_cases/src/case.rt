// What the file of a case of a table holds.
ghost use Rattle.std.specs.Prelude.{take, drop, get_or, length, ◌≡◌, ◌<◌, ◌≤◌, IfSome, IsNone};

use crate::cut::cut_run;

// The words of the file are the numbers of contents words and bodies words, the contents, the bodies, and what else the call takes.
#[derive(Clone, Copy)]
pub struct Case<'a> {
    pub contents: &'a [u32],
    pub bodies: &'a [u32],
    pub rest: &'a [u32],
}

impl<'a> Case<'a> {
    pub fn of(words: &'a [u32]) -> Option<Case<'a>>
        ensures none { IsNone result → length words.now < 2 }
        ensures some { IfSome result (λ c. 2 ≤ length words.now) }
        ensures contents { IfSome result (λ c. c.contents.now ≡ take (get_or words.now 0 0) (drop 2 words.now)) }
        ensures bodies { IfSome result (λ c. c.bodies.now ≡ take (get_or words.now 1 0) (drop (get_or words.now 0 0) (drop 2 words.now))) }
        ensures rest { IfSome result (λ c. c.rest.now ≡ drop (get_or words.now 1 0) (drop (get_or words.now 0 0) (drop 2 words.now))) }
    {
        let [contents, bodies, rest @ ..] = words else {
            return None;
        };
        let (contents, rest) = cut_run(rest, *contents);
        let (bodies, rest) = cut_run(rest, *bodies);
        Some(Case {
            contents,
            bodies,
            rest,
        })
    }
}
