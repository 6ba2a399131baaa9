// A walk that has come to nothing.
ghost use Rattle.std.specs.Prelude.{◌≤◌};
ghost use Rattle.ways.specs.Passes.{refused};

use drawing::numbers::NO_TABLE;
use rows::walked::Walked;
use ways::REFUSED;

// Everything that is wrong with a table is 16.
pub fn no_table() -> Walked
    ensures { refused ≤ result.at }
{
    Walked {
        row: 0,
        at: REFUSED,
        to: NO_TABLE as usize,
    }
}
