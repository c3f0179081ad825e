// The state as a caller holds it: what a phase has no use for is 0.
ghost use Rattle.std.specs.Prelude.{◌≡◌, ◌<◌};
ghost use Rattle.stream.specs.Fields.{held, state_from};
ghost use Rattle.stream.specs.Phases.{blank_at, behind_of};

use crate::known::{between, known_in, paying, skipping};
use crate::{
    BETWEEN, FAILING, MEASURING, NAMING, NONE_MET, NOWHERE, PAYING, REFUSED, SIZING, SKIPPING,
    STARTING, Stream,
};

// A state in a phase that has use for the total alone.
pub fn blank(total: u64, phase: u8) -> Stream
    ensures { result ≡ blank_at total phase }
{
    Stream {
        total,
        count: 0,
        name: NOWHERE,
        hints: NOWHERE,
        older: NOWHERE,
        at: 0,
        begins: 0,
        text: 0,
        left: 0,
        rest: 0,
        low: 0,
        least: 0,
        point: 0,
        phase,
        refusal: 0,
        rank: 0,
        code: 0,
        there: 0,
        id: 0,
        come: 0,
        wanted: 0,
        met: NONE_MET,
        row: 0,
    }
}

// What is known of the sections behind, between two of them.
fn behind(s: Stream) -> Stream
    ensures { result ≡ behind_of s }
{
    between(known_in(s, 0), s.total)
}

// A custom section that is read up to its payload, or refused, behind which so much is known.
fn tidy_custom(s: Stream, known: Stream) -> Stream
    requires { (known ≡ behind_of s) × (4 < s.phase) × (s.phase ≡ 7 → ⊥) }
    ensures { result ≡ held (state_from s) }
{
    let mut next = known;
    next.at = s.at;
    next.left = s.left;
    if s.phase == SIZING {
        next.phase = SIZING;
        next.begins = s.begins;
        next.come = s.come;
        next.low = s.low;
        return next;
    }
    if s.phase == NAMING {
        next.phase = NAMING;
        next.begins = s.begins;
        next.text = s.text;
        next.rest = s.rest;
        next.wanted = s.wanted;
        next.least = s.least;
        next.point = s.point;
        let met = s.met;
        next.met = met;
        return next;
    }
    next.phase = FAILING;
    next.text = s.text;
    next.refusal = s.refusal;
    next
}

// All that a phase has use for, and nothing else.
pub fn tidy(s: Stream) -> Stream
    ensures { result ≡ held (state_from s) }
{
    if s.phase == STARTING {
        return blank(s.total, STARTING);
    }
    if s.phase == REFUSED {
        let mut next = blank(s.total, REFUSED);
        next.refusal = s.refusal;
        next.text = s.text;
        return next;
    }
    if s.phase == SKIPPING {
        return skipping(known_in(s, 0), s.total, s.at, s.left);
    }
    if s.phase == PAYING {
        return paying(known_in(s, 0), s.total, s.at, s.left, s.row, s.text);
    }
    let mut next = behind(s);
    if s.phase == BETWEEN {
        return next;
    }
    if s.phase == MEASURING {
        next.phase = MEASURING;
        next.id = s.id;
        next.at = s.at;
        next.come = s.come;
        next.low = s.low;
        return next;
    }
    tidy_custom(s, next)
}
