// The contents of a custom section: the number of its name's bytes, the name, the payload.
ghost use Rattle.std.specs.Prelude.{◌≡◌, ◌≤◌, ◌<◌, length};
ghost use Rattle.std.proofs.Math.Seq.{slice};
ghost use Rattle.stream.specs.Calls.{most};
ghost use Rattle.stream.specs.Phases.{Fit, Steps, Closing, Closes, NameBegins, NameSized, NameEnds, SpelledBy, Spelling, Spells};

use crate::known::{between, custom_behind, known_in};
use crate::naming::{meet, row_met};
use crate::numbers::{Counted, count_byte};
use crate::sections::{NOT_TEXT, NUMBER_TOO_LARGE, PAST_ITS_PART, number_of, refuse};
use crate::texts::{Text, text_byte};
use crate::{FAILING, Met, NAMING, NONE_MET, PAYING, Spot, Stream};

// The payload is over, and with it the section: what the walk's rules say of its name, and where it lies.
fn end_payload(s: Stream) -> Stream
    requires { Closing s × (s.phase ≡ 7) × (s.left ≡ 0) }
    ensures { Closes s result }
{
    let spot = Spot {
        offset: s.text,
        length: s.total - s.text,
    };
    match custom_behind(known_in(s, 0), s.row, spot, 0) {
        Err(reason) => refuse(s, number_of(reason), s.at),
        Ok(known) => between(known, s.total),
    }
}

// The contents go on, or the section is over.
pub fn close(s: Stream) -> Stream
    requires { Closing s }
    ensures { Closes s result }
{
    if s.left != 0 {
        return s;
    }
    if s.phase < PAYING {
        return refuse(s, PAST_ITS_PART, s.begins);
    }
    if s.phase == PAYING {
        return end_payload(s);
    }
    refuse(s, s.refusal, s.text)
}

// The name is whole: what is left is the payload, or its text is none.
fn named(s: Stream, valid: bool, row: u8) -> Stream
    ensures { NameEnds s valid row result }
{
    let mut next = s;
    if valid {
        next.phase = PAYING;
        next.row = row;
        next.text = s.total;
        return next;
    }
    next.phase = FAILING; // told once all of the section is there
    next.refusal = NOT_TEXT;
    next
}

// The name has so many bytes, and its text begins here.
fn name_begins(s: Stream, n: u32) -> Stream
    ensures { NameBegins s n result }
{
    let mut next = s;
    if n == 0 {
        next.phase = PAYING;
        next.row = 0;
        next.text = s.total;
        return next;
    }
    next.phase = NAMING;
    next.text = s.total;
    next.rest = n;
    next.wanted = 0;
    next.least = 0;
    next.point = 0;
    let met = NONE_MET;
    next.met = met;
    next
}

// The same, where the section may end with the number.
fn name_sized(s: Stream, n: u32) -> Stream
    requires { s.count < s.total }
    ensures { NameSized s n result }
{
    close(name_begins(s, n))
}

// A byte of the number of a name's bytes.
pub fn sizing_byte(s: Stream, b: u8) -> Stream
    requires { Fit s × (s.phase ≡ 5) × (s.total < most) }
    ensures { Steps s b result }
{
    let mut next = s;
    next.total = s.total + 1;
    next.left = s.left - 1;
    match count_byte(s.come, s.low, b) {
        Counted::Whole(n) => name_sized(next, n),
        Counted::Partly(low) => {
            next.come = s.come + 1;
            next.low = low;
            close(next)
        }
        Counted::Over => {
            next.phase = FAILING;
            next.refusal = NUMBER_TOO_LARGE;
            next.text = s.begins;
            close(next)
        }
    }
}

// How the text and the tracked names stand behind some bytes of a name.
#[derive(Clone, Copy)]
pub struct Spelled {
    pub text: Text,
    pub met: Met,
}

pub fn spell_bytes(s: Stream, part: &[u8], from: usize, to: usize) -> Spelled
    requires { Fit s × (s.phase ≡ 6) × (from ≤ to) × (to ≤ length part.now) }
    ensures { SpelledBy s (slice from to part.now) result }
{
    let mut text = Text {
        wanted: s.wanted,
        least: s.least,
        point: s.point,
    };
    let mut met = s.met;
    let mut i = from;
    while i < to {
        let b = part[i];
        text = text_byte(text, b);
        met = meet(met, b);
        i = i + 1;
    }
    Spelled { text, met }
}

// The name with so many bytes more.
pub fn spell(s: Stream, spelled: Spelled, n: u32) -> Stream
    requires { Spelling s n spelled }
    ensures { Spells s n spelled result }
{
    let text = spelled.text;
    let met = spelled.met;
    let mut next = s;
    next.total = s.total + n as u64;
    next.left = s.left - n;
    if s.rest == n {
        return close(named(next, text.wanted == 0, row_met(met)));
    }
    next.rest = s.rest - n;
    next.wanted = text.wanted;
    next.least = text.least;
    next.point = text.point;
    next.met = met;
    close(next)
}
