//! The limits on a source.

ghost use Rattle.std.specs.Prelude.{◌≡◌, ◌+◌, ◌<◌, ◌-◌, ◌^◌, ◌||◌, [], IfErr, None, OnOk, nat_lt};
ghost use Rattle.c_limits.specs.Frames.{frame_bytes};
ghost use Rattle.c_limits.specs.First.{first_of, note};
ghost use Rattle.c_limits.specs.Limits.{IsFirst, comes_before, function_faults, limit_faults, most_weight, reason_at, static_faults, told_if};

use crate::frame::{frame_of, object_bytes};
use crate::weight::weight_of;
use c_tree::{At, Function, Static, Typed};
use rtl_word::Word;
use vp_io::Reason;

const MOST_FRAME: u64 = 32_000;

const MOST_WEIGHT: u64 = 12_000;

const MOST_STATICS: usize = 60_000;

fn comes_before(a: Reason, b: Reason) -> bool
    ensures { result ≡ comes_before a b }
{
    a.line < b.line
        || a.line == b.line && (a.column < b.column || a.column == b.column && a.rule < b.rule)
}

fn noted(first: Option<Reason>, next: Reason) -> Option<Reason>
    ensures { result ≡ note first next }
{
    match first {
        None => Some(next),
        Some(other) => {
            if comes_before(next, other) {
                Some(next)
            } else {
                Some(other)
            }
        }
    }
}

fn noted_if(first: Option<Reason>, broken: bool, rule: u8, at: At) -> Option<Reason>
    ensures { result ≡ first_of first (told_if broken rule at []) }
{
    if broken {
        noted(
            first,
            Reason {
                line: at.line,
                column: at.column,
                rule,
                detail: 0,
            },
        )
    } else {
        first
    }
}

fn most_weight<W: Word>() -> u64
    ensures weight { result ≡ most_weight W.BITS }
    ensures small { result < 2 ^ 20 }
{
    if W::BITS == 16 { 12_000 } else { 100_000 }
}

fn has_large_frame<W: Word>(f: &Function) -> bool
    ensures { result ≡ nat_lt 32000 (frame_bytes [] W.BITS f.now) }
{
    frame_of::<W>(f) > MOST_FRAME
}

fn is_too_heavy<W: Word>(weight: u64, sum: u64) -> bool
    ensures { result ≡ (nat_lt 12000 weight || nat_lt (most_weight W.BITS) sum) }
{
    weight > MOST_WEIGHT || sum > most_weight::<W>()
}

fn are_too_many(room: u64, sum: u64, count: usize) -> bool
    ensures { result ≡ (nat_lt room sum || nat_lt 60000 count) }
{
    sum > room || count > MOST_STATICS
}

fn first_in_functions<W: Word>(functions: &[Function]) -> Option<Reason>
    ensures { result ≡ first_of None (function_faults [] W.BITS 0 functions.now) }
{
    let mut first = None;
    let mut sum: u64 = 0;
    for f in functions {
        let weight = weight_of(f);
        sum = sum.saturating_add(weight);
        first = noted_if(first, has_large_frame::<W>(f), 41, f.at);
        first = noted_if(first, is_too_heavy::<W>(weight, sum), 42, f.at);
    }
    first
}

fn first_in_statics<W: Word>(first: Option<Reason>, room: u64, statics: &[Static]) -> Option<Reason>
    requires { room < 2 ^ 32 }
    ensures { result ≡ first_of first (static_faults W.BITS room 0 0 statics.now) }
{
    let mut first = first;
    let mut sum: u64 = 0;
    for (i, x) in statics.iter().enumerate() {
        sum = sum.saturating_add(object_bytes::<W>(&x.object));
        first = noted_if(first, are_too_many(room, sum, i + 1), 43, x.object.at);
    }
    first
}

/// Whether a source is within the limits on frames, weights and statics (rules 41 to 43), where memory
/// has so many bytes, data begin at `base`, so many bytes at memory's end are the stack's, and no register is kept over calls; else
/// the first place where a limit is passed, and there the first rule.
pub fn within<W: Word>(t: &Typed, memory: u32, base: u32, stack: u32) -> Result<(), Reason>
    requires { base + stack < memory }
    ensures within { OnOk result (limit_faults [] W.BITS (memory - stack - base) t.now ≡ []) }
    ensures refused { IfErr result (λ r. IsFirst (limit_faults [] W.BITS (memory - stack - base) t.now) r) }
{
    let room = u64::from(memory - stack - base);
    let first = first_in_functions::<W>(t.functions.as_slice());
    match first_in_statics::<W>(first, room, t.statics.as_slice()) {
        None => Ok(()),
        Some(reason) => Err(reason),
    }
}
