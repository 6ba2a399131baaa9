// The words of a table: the table's own, or a sheet's, which lie in its bytes.
ghost use Rattle.std.specs.Prelude.{◌≡◌, ◌^◌, ◌<◌, ℕ, List, length, get_or, refl};
ghost use Rattle.format.specs.Digits.{Below};
ghost use Rattle.ways.specs.TableWay.{table_way};

use from_sheet::FromSheet;
use from_table::FromTable;
use ways::way::Way;

// A way from a table's words to a file's bytes.
pub trait Words: Way<Kept = u8> {
    fn word_in(words: &[Self::Unit], at: usize) -> u32
        requires { at < length (Self.units words.now) }
        ensures { result ≡ get_or (Self.units words.now) at 0 };

    // Each is the number of a word. It is called for what it says.
    fn are_words(words: &[Self::Unit])
        ensures { Below (2 ^ 32) (Self.units words.now) };

    ghost of_table: { Self.way ≡ table_way };

    ghost bytes: { (m : List ℕ) → Self.kept m ≡ m };
}

impl Words for FromTable {
    fn word_in(words: &[u32], at: usize) -> u32 {
        from_table::word_in(&*words, at)
    }

    fn are_words(words: &[u32]) {}

    ghost of_table = { refl };

    ghost bytes = { λ m. refl };
}

impl Words for FromSheet {
    fn word_in(words: &[u8], at: usize) -> u32 {
        from_sheet::word_in(&*words, at)
    }

    fn are_words(words: &[u8]) {}

    ghost of_table = { refl };

    ghost bytes = { λ m. refl };
}
