// One field of each kind: read, judged, and put into the target.
ghost use Rattle.std.specs.Prelude.{◌≡◌, true, cond, ◌^◌, ◌<◌, ◌≤◌, ltb};
ghost use Rattle.format.specs.LiteralLaws.{fault_of};
ghost use Rattle.drawing.specs.Fields as F;
ghost use Rattle.memory.specs.Sizes.{is_field};
ghost use Rattle.ways.specs.Steps.{Refused, Keeps, Small};
ghost use Rattle.ways.specs.Faults.{Between};
ghost use Rattle.ways.specs.FieldPassLaws.{flag_kind, shade_kind};
ghost use Rattle.layout.specs.Lays.{Begins, Asks, Ranges, Counts};

use drawing::numbers::{BAD_COMPONENT, BAD_FLAG, CUT, FLOW_FRAME, OUT_OF_RANGE, UNJOINED};
use fields::fault::{count_fault, dash_fault, marker_fault, size_fault, unless};
use fields::floats::{is_component, is_hue};
use ways::way::Way;
use ways::{FieldPass, Pass, REFUSED};

// four bytes: the highest number, and the highest signed one
const LAST_WORD: u64 = 0xffff_ffff;

const LAST_INTEGER: u64 = 0x7fff_ffff;

// A refusal, unless there was one before.
pub fn refused<W: Way>(at: usize, to: usize, number: u32) -> Pass
    ensures { Refused W.way number at to result }
{
    if REFUSED <= at {
        return Pass { at, to };
    }
    W::refusal(number, at)
}

// A value is put into the target, or refused with its fault.
pub fn kept<W: Way>(
    dst: &mut [W::Kept],
    at: usize,
    to: usize,
    size: usize,
    value: u64,
    fault: u32,
) -> FieldPass
    requires { (is_field size ≡ true) × (size ≤ 8) × Small W.way size 1 at to × (fault ≡ 0 → value < 256 ^ size) }
    ensures { Keeps W.way size value fault (W.kept dst.old) (W.kept dst.new) at to result × (result.value ≤ value) × (0 < fault → result.value ≡ 0) }
{
    if fault != 0 {
        let stopped = refused::<W>(at, to, fault);
        return FieldPass {
            value: 0,
            pass: stopped,
        };
    }
    W::put(dst, to, size, value);
    let behind = W::step(at, to, size, 1);
    FieldPass {
        value,
        pass: behind,
    }
}

pub fn cut<W: Way>(at: usize, to: usize) -> FieldPass
    ensures { Refused W.way 2 at to result.pass × (result.value ≡ 0) }
{
    let stopped = refused::<W>(at, to, CUT);
    FieldPass {
        value: 0,
        pass: stopped,
    }
}

fn between(low: u64, high: u64, value: u64, fault: u32) -> u32
    requires { 0 < fault }
    ensures { Between low high fault value result }
{
    if value < low {
        return fault;
    }
    if high < value {
        return fault;
    }
    0
}

// A field of so many bytes, whose value lies in a range.
fn ranged<W: Way>(
    src: &[W::Unit],
    dst: &mut [W::Kept],
    at: usize,
    to: usize,
    size: usize,
    low: u64,
    high: u64,
    fault: u32,
) -> FieldPass
    requires begins { Begins (W.units src.now) at to }
    requires size_value { (is_field size ≡ true) × (size ≤ 8) × (high < 256 ^ size) × (0 < fault) }
    ensures { Ranges W.way size low high fault (W.units src.now) (W.kept dst.old) (W.kept dst.new) at to result }
{
    if W::there(&*src, at, size, (size + 3) / 4) {
        let value = W::get(&*src, at, size);
        return kept::<W>(dst, at, to, size, value, between(low, high, value, fault));
    }
    cut::<W>(at, to)
}

pub fn byte<W: Way>(
    src: &[W::Unit],
    dst: &mut [W::Kept],
    at: usize,
    to: usize,
    low: u64,
    high: u64,
) -> FieldPass
    requires begins { Begins (W.units src.now) at to }
    requires high_bound { high < 128 }
    ensures { Asks W.way (F.byte_in low high) (W.units src.now) (W.kept dst.old) (W.kept dst.new) at to result }
{
    ranged::<W>(&*src, dst, at, to, 1, low, high, OUT_OF_RANGE)
}

// What is wrong with a flag: this where it is true, 0 for nothing. A word of a table may be neither.
fn flag_fault(fault: u32, value: u64) -> u32
    ensures { result ≡ fault_of 5 (flag_kind fault) value }
{
    if value == 0 {
        return 0;
    }
    if value == 1 {
        return fault;
    }
    BAD_FLAG
}

// A flag with this fault where it is true.
fn flagged<W: Way>(
    src: &[W::Unit],
    dst: &mut [W::Kept],
    at: usize,
    to: usize,
    fault: u32,
) -> FieldPass
    requires { Begins (W.units src.now) at to }
    ensures { Asks W.way (flag_kind fault) (W.units src.now) (W.kept dst.old) (W.kept dst.new) at to result }
{
    if W::there(&*src, at, 1, 1) {
        let value = W::get_flag(&*src, at);
        return kept::<W>(dst, at, to, 1, value, flag_fault(fault, value));
    }
    cut::<W>(at, to)
}

pub fn flag<W: Way>(src: &[W::Unit], dst: &mut [W::Kept], at: usize, to: usize) -> FieldPass
    requires { Begins (W.units src.now) at to }
    ensures { Asks W.way F.flag (W.units src.now) (W.kept dst.old) (W.kept dst.new) at to result }
{
    flagged::<W>(&*src, dst, at, to, 0)
}

// No flow frame data is carried.
pub fn flow_flag<W: Way>(src: &[W::Unit], dst: &mut [W::Kept], at: usize, to: usize) -> FieldPass
    requires { Begins (W.units src.now) at to }
    ensures { Asks W.way F.flow_flag (W.units src.now) (W.kept dst.old) (W.kept dst.new) at to result }
{
    flagged::<W>(&*src, dst, at, to, FLOW_FRAME)
}

pub fn integer<W: Way>(src: &[W::Unit], dst: &mut [W::Kept], at: usize, to: usize) -> FieldPass
    requires { Begins (W.units src.now) at to }
    ensures { Asks W.way F.integer (W.units src.now) (W.kept dst.old) (W.kept dst.new) at to result }
{
    ranged::<W>(&*src, dst, at, to, 4, 0, LAST_WORD, OUT_OF_RANGE)
}

pub fn integer_to<W: Way>(
    src: &[W::Unit],
    dst: &mut [W::Kept],
    at: usize,
    to: usize,
    high: u64,
) -> FieldPass
    requires begins { Begins (W.units src.now) at to }
    requires high_bound { high < 2147483648 }
    ensures { Asks W.way (F.integer_in 0 high) (W.units src.now) (W.kept dst.old) (W.kept dst.new) at to result }
{
    ranged::<W>(&*src, dst, at, to, 4, 0, high, OUT_OF_RANGE)
}

pub fn float<W: Way>(src: &[W::Unit], dst: &mut [W::Kept], at: usize, to: usize) -> FieldPass
    requires { Begins (W.units src.now) at to }
    ensures { Asks W.way F.float (W.units src.now) (W.kept dst.old) (W.kept dst.new) at to result }
{
    ranged::<W>(&*src, dst, at, to, 4, 0, LAST_WORD, OUT_OF_RANGE)
}

fn shade_fault(bits: u64, hue: bool) -> u32
    requires { bits < 2 ^ 32 }
    ensures { result ≡ (shade_kind hue).fault bits }
{
    if hue {
        return unless(is_hue(bits), BAD_COMPONENT);
    }
    unless(is_component(bits), BAD_COMPONENT)
}

fn shade<W: Way>(src: &[W::Unit], dst: &mut [W::Kept], at: usize, to: usize, hue: bool) -> FieldPass
    requires { Begins (W.units src.now) at to }
    ensures { Asks W.way (shade_kind hue) (W.units src.now) (W.kept dst.old) (W.kept dst.new) at to result }
{
    if W::there(&*src, at, 4, 1) {
        let bits = W::get(&*src, at, 4);
        return kept::<W>(dst, at, to, 4, bits, shade_fault(bits, hue));
    }
    cut::<W>(at, to)
}

pub fn component<W: Way>(src: &[W::Unit], dst: &mut [W::Kept], at: usize, to: usize) -> FieldPass
    requires { Begins (W.units src.now) at to }
    ensures { Asks W.way F.component (W.units src.now) (W.kept dst.old) (W.kept dst.new) at to result }
{
    shade::<W>(&*src, dst, at, to, false)
}

pub fn hue<W: Way>(src: &[W::Unit], dst: &mut [W::Kept], at: usize, to: usize) -> FieldPass
    requires { Begins (W.units src.now) at to }
    ensures { Asks W.way F.hue (W.units src.now) (W.kept dst.old) (W.kept dst.new) at to result }
{
    shade::<W>(&*src, dst, at, to, true)
}

// A coordinate with the very bits of another.
pub fn joined<W: Way>(
    src: &[W::Unit],
    dst: &mut [W::Kept],
    at: usize,
    to: usize,
    bits: u64,
) -> FieldPass
    requires { Begins (W.units src.now) at to }
    ensures { Asks W.way (F.joined bits) (W.units src.now) (W.kept dst.old) (W.kept dst.new) at to result }
{
    ranged::<W>(&*src, dst, at, to, 8, bits, bits, UNJOINED)
}

// A count or a length is a signed number, and no less than the least: it is refused before anything is counted by it.
pub fn count<W: Way>(
    src: &[W::Unit],
    dst: &mut [W::Kept],
    at: usize,
    to: usize,
    least: u32,
) -> FieldPass
    requires { Begins (W.units src.now) at to }
    ensures { Counts W.way least (W.units src.now) (W.kept dst.old) (W.kept dst.new) at to result }
{
    if W::there(&*src, at, 4, 1) {
        let word = W::get(&*src, at, 4);
        return kept::<W>(dst, at, to, 4, word, count_fault(least, word as u32));
    }
    cut::<W>(at, to)
}

pub fn dash_count<W: Way>(src: &[W::Unit], dst: &mut [W::Kept], at: usize, to: usize) -> FieldPass
    requires { Begins (W.units src.now) at to }
    ensures { Asks W.way F.dash_count (W.units src.now) (W.kept dst.old) (W.kept dst.new) at to result × (result.value < 2 ^ 32) }
{
    if W::there(&*src, at, 4, 1) {
        let word = W::get(&*src, at, 4);
        return kept::<W>(dst, at, to, 4, word, dash_fault(word as u32));
    }
    cut::<W>(at, to)
}

pub fn font_size<W: Way>(src: &[W::Unit], dst: &mut [W::Kept], at: usize, to: usize) -> FieldPass
    requires { Begins (W.units src.now) at to }
    ensures { Asks W.way F.font_size (W.units src.now) (W.kept dst.old) (W.kept dst.new) at to result }
{
    if W::there(&*src, at, 4, 1) {
        let word = W::get(&*src, at, 4);
        return kept::<W>(dst, at, to, 4, word, size_fault(word as u32));
    }
    cut::<W>(at, to)
}

// A word of a table may be no byte.
fn byte_fault(high: u32, more: bool, byte: u64) -> u32
    ensures { result ≡ cond (ltb byte 256) ((F.marker_id high more).fault byte) 6 }
{
    if byte < 256 {
        return marker_fault(high, more, byte as u32);
    }
    OUT_OF_RANGE
}

// A chain of markers may go on, or not.
pub fn marker_id<W: Way>(
    src: &[W::Unit],
    dst: &mut [W::Kept],
    at: usize,
    to: usize,
    high: u32,
    more: bool,
) -> FieldPass
    requires { Begins (W.units src.now) at to }
    ensures { Asks W.way (F.marker_id high more) (W.units src.now) (W.kept dst.old) (W.kept dst.new) at to result }
{
    if W::there(&*src, at, 1, 1) {
        let id = W::get(&*src, at, 1);
        let fault = byte_fault(high, more, id);
        return kept::<W>(dst, at, to, 1, id, fault);
    }
    cut::<W>(at, to)
}
