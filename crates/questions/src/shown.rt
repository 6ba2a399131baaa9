// The text to show.
ghost use Rattle.std.specs.Prelude.{◌≡◌, length};
ghost use Rattle.drawing.specs.Questions.{shown};

// The very run that `shown` (crates/drawing/specs/Questions.antt) says: the alternative if it has a char, otherwise the plain text.
pub fn shown<'a>(alternative: &'a [u32], plain: &'a [u32]) -> &'a [u32]
    ensures { result ≡ shown (length alternative.now) alternative.entry plain.entry }
{
    if 0 < alternative.len() {
        return alternative;
    }
    plain
}
