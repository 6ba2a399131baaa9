// Whether a row's object has a label for its description.
ghost use Rattle.std.specs.Prelude.{◌≡◌, ◌+◌, ◌≤◌, length, take, drop};
ghost use Rattle.drawing.specs.String.{equal};
ghost use Rattle.listing.specs.Entries.{Labels};

use drawing::limits::V1_2;
use places::Part;
use places::row::Row;

fn same_chars(words: &[u32], from: usize, label: &[u16]) -> bool
    requires { from + length label.now ≤ length words.now }
    ensures { result ≡ equal (take (length label.now) (drop from words.now)) label.now }
{
    for (i, char) in label.iter().enumerate() {
        if words[from + i] != u32::from(*char) {
            return false;
        }
    }
    true
}

// The description's chars are the last words of the body, and before them stands their number; so most rows are told by a word or two, and the parts
// before the description are passed only where all of that fits.
pub fn is_labelled(row: &Row, label: &[u16]) -> bool
    ensures { Labels row.now.contents.now row.now.words.now row.now.version row.now.row label.now result }
{
    let chars = label.len();
    if row.version < V1_2 {
        return chars == 0;
    }
    let size = row.size();
    if size <= chars {
        return false;
    }
    let from = row.start() + size - chars;
    if row.words[from - 1] as usize != chars {
        return false;
    }
    if same_chars(row.words, from, label) {
        let description = row.behind(row.end(), Part::FlowFlag);
        return description + 1 == from;
    }
    false
}
