// The settings that may stand in the head, and the paper.
ghost use Rattle.std.specs.Prelude.{◌≡◌, cond, [], ◌∷◌, ◌<◌, ltb, leb};
ghost use Rattle.format.specs.Layout.{field, when, ◌&◌};
ghost use Rattle.format.specs.Choice.{one_of};
ghost use Rattle.drawing.specs.Fields as F;
ghost use Rattle.drawing.specs.Settings as S;
ghost use Rattle.drawing.specs.SettingsLaws.{one_of_two, one_of_three};
ghost use Rattle.layout.specs.Lays.{Begins, Lays};

use drawing::limits::{
    ALL_SETTINGS, LAST_PAPER, LAST_SETTINGS, LAST_TOOL, LAST_UNIT, PAPER_ONLY, USER_PAPER, V1_3,
};
use layout::field::{byte, flag, integer, integer_to};
use layout::run::run;
use ways::Pass;
use ways::way::Way;

// The last of the listed paper sizes.
fn last_paper(version: u32) -> u64
    ensures { (result ≡ cond (leb 3 version) 72 18) × (result < 128) }
{
    if V1_3 <= version {
        return LAST_PAPER;
    }
    USER_PAPER
}

fn portrait<W: Way>(
    src: &[W::Unit],
    dst: &mut [W::Kept],
    at: usize,
    to: usize,
    version: u32,
) -> Pass
    requires { Begins (W.units src.now) at to }
    ensures { Lays W.way (when (ltb version 3) (field F.flag) 0) (W.units src.now) (W.kept dst.old) (W.kept dst.new) at to result }
{
    if version < V1_3 {
        let told = flag::<W>(&*src, dst, at, to);
        return told.pass;
    }
    Pass { at, to }
}

fn paper<W: Way>(src: &[W::Unit], dst: &mut [W::Kept], at: usize, to: usize, version: u32) -> Pass
    requires { Begins (W.units src.now) at to }
    ensures { Lays W.way (S.paper version) (W.units src.now) (W.kept dst.old) (W.kept dst.new) at to result }
{
    let high = last_paper(version);
    let told = byte::<W>(&*src, dst, at, to, 0, high);
    let size = told.value;
    let behind = told.pass;
    if size == USER_PAPER {
        let measured = run::<W>(&*src, dst, behind.at, behind.to, 8, 2);
        return portrait::<W>(&*src, dst, measured.at, measured.to, version);
    }
    behind
}

// The settings are passed in three steps, since what the checker generates for a function grows with the square of its calls.
fn ruler_settings<W: Way>(src: &[W::Unit], dst: &mut [W::Kept], at: usize, to: usize) -> Pass
    requires { Begins (W.units src.now) at to }
    ensures { Lays W.way (field (F.byte_in 0 3) & field F.integer & field F.integer) (W.units src.now) (W.kept dst.old) (W.kept dst.new) at to result }
{
    let unit = byte::<W>(&*src, dst, at, to, 0, LAST_UNIT);
    let measured = unit.pass;
    let major = integer::<W>(&*src, dst, measured.at, measured.to);
    let behind = major.pass;
    let minor = integer::<W>(&*src, dst, behind.at, behind.to);
    minor.pass
}

fn tool_settings<W: Way>(
    src: &[W::Unit],
    dst: &mut [W::Kept],
    at: usize,
    to: usize,
    version: u32,
) -> Pass
    requires { Begins (W.units src.now) at to }
    ensures { Lays W.way (field (F.integer_in 0 7) & field F.integer & S.paper version & field (F.byte_in 0 3) & field F.integer & field F.integer) (W.units src.now) (W.kept dst.old) (W.kept dst.new) at to result }
{
    let tool = integer_to::<W>(&*src, dst, at, to, LAST_TOOL);
    let tooled = tool.pass;
    let normal = integer::<W>(&*src, dst, tooled.at, tooled.to);
    let sized = normal.pass;
    let papered = paper::<W>(&*src, dst, sized.at, sized.to, version);
    ruler_settings::<W>(&*src, dst, papered.at, papered.to)
}

fn all_settings<W: Way>(
    src: &[W::Unit],
    dst: &mut [W::Kept],
    at: usize,
    to: usize,
    version: u32,
) -> Pass
    requires { Begins (W.units src.now) at to }
    ensures { Lays W.way (S.all_settings version) (W.units src.now) (W.kept dst.old) (W.kept dst.new) at to result }
{
    let grid = flag::<W>(&*src, dst, at, to);
    let gridded = grid.pass;
    let lock = flag::<W>(&*src, dst, gridded.at, gridded.to);
    let locked = lock.pass;
    let rulers = flag::<W>(&*src, dst, locked.at, locked.to);
    let ruled = rulers.pass;
    tool_settings::<W>(&*src, dst, ruled.at, ruled.to, version)
}

fn settings_from_flag<W: Way>(
    src: &[W::Unit],
    dst: &mut [W::Kept],
    at: usize,
    to: usize,
    version: u32,
) -> Pass
    requires { Begins (W.units src.now) at to }
    ensures { Lays W.way (one_of F.flag S.absent_case (S.all_case version ∷ []) one_of_two) (W.units src.now) (W.kept dst.old) (W.kept dst.new) at to result }
{
    let told = flag::<W>(&*src, dst, at, to);
    let behind = told.pass;
    if told.value == ALL_SETTINGS {
        return all_settings::<W>(&*src, dst, behind.at, behind.to, version);
    }
    behind
}

fn settings_from_byte<W: Way>(
    src: &[W::Unit],
    dst: &mut [W::Kept],
    at: usize,
    to: usize,
    version: u32,
) -> Pass
    requires { Begins (W.units src.now) at to }
    ensures { Lays W.way (one_of (F.byte_in 0 2) S.absent_case (S.all_case version ∷ S.paper_case version ∷ []) one_of_three) (W.units src.now) (W.kept dst.old) (W.kept dst.new) at to result }
{
    let told = byte::<W>(&*src, dst, at, to, 0, LAST_SETTINGS);
    let which = told.value;
    let behind = told.pass;
    if which == ALL_SETTINGS {
        return all_settings::<W>(&*src, dst, behind.at, behind.to, version);
    }
    if which == PAPER_ONLY {
        return paper::<W>(&*src, dst, behind.at, behind.to, version);
    }
    behind
}

// Below 1.3 a flag tells which settings there are, from 1.3 on a byte.
pub fn settings<W: Way>(
    src: &[W::Unit],
    dst: &mut [W::Kept],
    at: usize,
    to: usize,
    version: u32,
) -> Pass
    requires { Begins (W.units src.now) at to }
    ensures { Lays W.way (S.settings version) (W.units src.now) (W.kept dst.old) (W.kept dst.new) at to result }
{
    if version < V1_3 {
        return settings_from_flag::<W>(&*src, dst, at, to, version);
    }
    settings_from_byte::<W>(&*src, dst, at, to, version)
}
