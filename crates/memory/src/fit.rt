// How much of a run there is room for.
ghost use Rattle.std.specs.Prelude.{◌<◌};
ghost use Rattle.memory.specs.Runs.{Fitting};

// How many of so many fields, each this wide, fit behind a place of memory of this length.
pub fn fitting(space: usize, to: usize, far: usize, count: usize) -> usize
    requires { 0 < far }
    ensures { Fitting space to far count result }
{
    if space < to {
        return 0;
    }
    let fit = (space - to) / far;
    if count < fit {
        return count;
    }
    fit
}
