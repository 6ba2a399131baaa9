// Where in a file a session stands: which part of the head comes next, or a group's count, or objects (specs: Parts).
ghost use Rattle.session_run.specs.Digit.{StageFrom};

// A session and its laws have the stage's number.
#[derive(Clone, Copy)]
pub enum Stage {
    Magic,
    VersionLength,
    Version,
    Settings,
    Outer,
    Counting,
    Objects,

    // a fault was found
    Stopped,
}

// A number past these is that of no session that goes on.
impl From<u32> for Stage {
    ghost from_gives = { StageFrom };

    fn from(number: u32) -> Self {
        match number {
            0 => Stage::Magic,
            1 => Stage::VersionLength,
            2 => Stage::Version,
            3 => Stage::Settings,
            4 => Stage::Outer,
            5 => Stage::Counting,
            6 => Stage::Objects,
            _ => Stage::Stopped,
        }
    }
}
