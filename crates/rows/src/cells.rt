// What contents are made of.
ghost use Rattle.std.specs.Prelude.{◌≡◌, ℕ, ◌<◌, ◌≤◌, List, length, get_or};
ghost use Rattle.rows.specs.Cells.{cells, packed, words_fit, packed_fit};

use format::decode::char_at;

// the bytes of a number that lies in a sheet
const NUMBER: usize = 2;

// Contents hold the numbers of rows, one in each word of a table's, one in each two bytes of a sheet's.
pub trait Cell: Copy {
    // The numbers that some contents hold.
    ghost cells: { List Self → List ℕ };

    // How many numbers there are.
    fn count(contents: &[Self]) -> usize
        ensures { result ≡ length (cells contents.now) };

    fn number(contents: &[Self], place: usize) -> u32
        requires { place < length (cells contents.now) }
        ensures { result ≡ get_or (cells contents.now) place 0 };

    // There are no more of them than the contents are long.
    ghost fit: { (cs : List Self) → length (cells cs) ≤ length cs };
}

impl Cell for u32 {
    ghost cells = { λ cs. cells cs };

    ghost fit = { words_fit };

    fn count(contents: &[u32]) -> usize {
        contents.len()
    }

    fn number(contents: &[u32], place: usize) -> u32 {
        contents[place]
    }
}

impl Cell for u8 {
    ghost cells = { λ cs. packed cs };

    ghost fit = { packed_fit };

    fn count(contents: &[u8]) -> usize {
        contents.len() / NUMBER
    }

    fn number(contents: &[u8], place: usize) -> u32 {
        char_at(contents, NUMBER * place)
    }
}
