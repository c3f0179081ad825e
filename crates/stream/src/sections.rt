// From section to section, a byte at a time.
ghost use Rattle.std.specs.Prelude.{◌≡◌, ◌<◌};
ghost use Rattle.format.specs.Refusals;
ghost use Rattle.stream.specs.Calls.{most};
ghost use Rattle.stream.specs.Fields;
ghost use Rattle.stream.specs.Phases.{Fit, Steps, Refuses, Enters, seen_so, Starting};

use crate::numbers::{Counted, count_byte};
use crate::{BETWEEN, MEASURING, REFUSED, SIZING, SKIPPING, Stream};
use format::Reason;
use walk::rules::{CUSTOM, Seen, judge_id, see};

pub const PREAMBLE_LENGTH: usize = 8;

pub const PREAMBLE: [u8; PREAMBLE_LENGTH] = [0x00, 0x61, 0x73, 0x6D, 0x01, 0x00, 0x00, 0x00];

// The numbers of the refusals that a reader of bytes gives.
pub const NO_PREAMBLE: u8 = 1;

pub const PAST_ITS_PART: u8 = 2;

pub const NUMBER_TOO_LARGE: u8 = 3;

pub const NOT_TEXT: u8 = 4;

pub fn refuse(s: Stream, number: u8, offset: u64) -> Stream
    ensures { Refuses s number offset result }
{
    let mut next = s;
    next.phase = REFUSED;
    next.refusal = number;
    next.text = offset;
    next
}

pub fn number_of(reason: Reason) -> u8
    ensures { result ≡ Refusals.number_of reason }
{
    reason.number() as u8
}

pub fn flag(b: bool) -> u8
    ensures { result ≡ Fields.flag b }
{
    if b {
        return 1;
    }
    0
}

// What the walk's rules know of the sections behind.
pub fn seen_by(s: Stream) -> Seen
    ensures { result ≡ seen_so s }
{
    Seen {
        rank: s.rank,
        code: s.code == 1,
        there: s.there,
    }
}

// A byte of the preamble.
pub fn starting_byte(s: Stream, b: u8) -> Stream
    requires { Starting s }
    ensures { Steps s b result }
{
    let at = s.total as usize;
    let mut next = s;
    next.total = s.total + 1;
    if PREAMBLE[at] != b {
        return refuse(next, NO_PREAMBLE, 0);
    }
    if at + 1 < PREAMBLE_LENGTH {
        return next;
    }
    next.phase = BETWEEN;
    next.count = 0;
    next.rank = 0;
    next.code = 0;
    next.there = 0;
    next
}

// A section's id.
pub fn opening_byte(s: Stream, b: u8) -> Stream
    requires { (s.phase ≡ 1) × (s.total < most) }
    ensures { Steps s b result }
{
    let mut next = s;
    next.total = s.total + 1;
    match judge_id(seen_by(s), b) {
        Err(reason) => refuse(next, number_of(reason), s.total),
        Ok(()) => {
            next.phase = MEASURING;
            next.id = b;
            next.at = s.total;
            next.come = 0;
            next.low = 0;
            next
        }
    }
}

// A section whose size is known: its contents begin here.
fn enter(s: Stream, n: u32) -> Stream
    requires { s.count < s.total }
    ensures { Enters s n result }
{
    let mut next = s;
    if s.id == CUSTOM {
        if n == 0 {
            return refuse(s, PAST_ITS_PART, s.total);
        }
        next.phase = SIZING;
        next.left = n;
        next.begins = s.total;
        next.come = 0;
        next.low = 0;
        return next;
    }
    let seen = see(seen_by(s), s.id, None);
    next.count = s.count + 1;
    next.rank = seen.rank;
    next.code = flag(seen.code);
    if n == 0 {
        next.phase = BETWEEN;
        return next;
    }
    next.phase = SKIPPING;
    next.left = n;
    next
}

// A byte of a section's size.
pub fn measuring_byte(s: Stream, b: u8) -> Stream
    requires { Fit s × (s.phase ≡ 3) × (s.total < most) }
    ensures { Steps s b result }
{
    let mut next = s;
    next.total = s.total + 1;
    match count_byte(s.come, s.low, b) {
        Counted::Whole(n) => enter(next, n),
        Counted::Partly(low) => {
            next.come = s.come + 1;
            next.low = low;
            next
        }
        Counted::Over => refuse(next, NUMBER_TOO_LARGE, s.at + 1),
    }
}
