// A part, from its first byte to its last.
ghost use Rattle.std.specs.Prelude.{◌≡◌, ◌+◌, ◌≤◌, ◌<◌, drop};
ghost use Rattle.stream.specs.Stream.{steps};
ghost use Rattle.stream.specs.Calls.{most};
ghost use Rattle.stream.specs.Fields.{held, state_from};
ghost use Rattle.stream.specs.Phases.{Fit, Steps, Passing, Passes, Ready, Moves, Feeding, FeedingFrom, InPreamble};
ghost use Rattle.stream.specs.Known.{stands, Begins};

use crate::contents::{close, sizing_byte, spell, spell_bytes};
use crate::heads::{Moved, reach, sections_on};
use crate::holding::{blank, tidy};
use crate::known::{Known, known_in, skipping};
use crate::leading::lead_of;
use crate::sections::{PREAMBLE_LENGTH, measuring_byte, opening_byte, starting_byte};
use crate::{BETWEEN, MEASURING, NAMING, PAYING, REFUSED, SIZING, SKIPPING, Stream};

// Bytes of contents that nobody reads.
fn skip(s: Stream, n: u32) -> Stream
    requires { (s.phase ≡ 4) × (0 < n) × (n ≤ s.left) × (s.total + n ≤ most) }
    ensures { Passes s n result }
{
    let mut next = s;
    next.total = s.total + n as u64;
    next.left = s.left - n;
    if n == s.left {
        next.phase = BETWEEN;
        return next;
    }
    next
}

// Bytes of a payload, or behind a fault.
fn pass(s: Stream, n: u32) -> Stream
    requires { Passing s n }
    ensures { Passes s n result }
{
    let mut next = s;
    next.total = s.total + n as u64;
    next.left = s.left - n;
    close(next)
}

// A byte of the preamble, or behind it where nobody began: so many bytes would have been the preamble.
fn preamble_byte(s: Stream, b: u8) -> Stream
    requires { InPreamble s }
    ensures { Steps s b result }
{
    if s.total < PREAMBLE_LENGTH as u64 {
        return starting_byte(s, b);
    }
    opening_byte(blank(s.total, BETWEEN), b)
}

// A byte where each one counts.
fn one(s: Stream, b: u8) -> Stream
    requires { Fit s × (s.total < most) × (s.phase < 6) × (s.phase ≡ 2 → ⊥) × (s.phase ≡ 4 → ⊥) }
    ensures { Steps s b result }
{
    if s.phase == MEASURING {
        return measuring_byte(s, b);
    }
    if s.phase == BETWEEN {
        return opening_byte(s, b);
    }
    if s.phase == SIZING {
        return sizing_byte(s, b);
    }
    preamble_byte(s, b)
}

// From where a state stands in the part, as far as one step goes: over contents that nobody reads,
fn skip_on(s: Stream, part: &[u8], i: usize) -> Moved
    requires { Ready s part.now i × (s.phase ≡ 4) }
    ensures { Moves s part.now i result }
{
    let n = reach(part.len() - i, s.left);
    let stream = skip(s, n);
    Moved {
        stream,
        at: i + n as usize,
    }
}

// over a payload, or what is behind a fault in a section,
fn pass_on(s: Stream, part: &[u8], i: usize) -> Moved
    requires { Ready s part.now i × (6 < s.phase) }
    ensures { Moves s part.now i result }
{
    let n = reach(part.len() - i, s.left);
    let stream = pass(s, n);
    Moved {
        stream,
        at: i + n as usize,
    }
}

// over all that follows a refusal,
fn count_on(s: Stream, part: &[u8], i: usize) -> Moved
    requires { Ready s part.now i × (s.phase ≡ 2) }
    ensures { Moves s part.now i result }
{
    let here = part.len() - i;
    let mut stream = s;
    stream.total = s.total + here as u64;
    Moved {
        stream,
        at: part.len(),
    }
}

// over what the part has of a name,
fn name_on(s: Stream, part: &[u8], i: usize) -> Moved
    requires { Ready s part.now i × (s.phase ≡ 6) }
    ensures { Moves s part.now i result }
{
    let inside = reach(part.len() - i, s.left);
    let n = reach(inside as usize, s.rest);
    let at = i + n as usize;
    let stream = spell(s, spell_bytes(s, part, i, at), n);
    Moved { stream, at }
}

// or over a byte that counts.
fn byte_on(s: Stream, part: &[u8], i: usize) -> Moved
    requires { Ready s part.now i × (s.phase < 6) × (s.phase ≡ 2 → ⊥) × (s.phase ≡ 4 → ⊥) }
    ensures { Moves s part.now i result }
{
    let stream = one(s, part[i]);
    Moved { stream, at: i + 1 }
}

fn go(s: Stream, part: &[u8], i: usize) -> Moved
    requires { Ready s part.now i }
    ensures { Moves s part.now i result }
{
    if s.phase == SKIPPING {
        return skip_on(s, part, i);
    }
    if PAYING <= s.phase {
        return pass_on(s, part, i);
    }
    if s.phase == NAMING {
        return name_on(s, part, i);
    }
    if s.phase == REFUSED {
        return count_on(s, part, i);
    }
    byte_on(s, part, i)
}

// As far as one step goes, or over all sections whose heads the part has whole.
fn go_on(s: Stream, part: &[u8], i: usize, base: u64) -> Moved
    requires { Ready s part.now i × (s.total ≡ base + i) }
    ensures { Moves s part.now i result }
{
    if s.phase == BETWEEN {
        let moved = sections_on(known_in(s, i), part, base);
        if i < moved.at {
            return moved;
        }
    }
    go(s, part, i)
}

// The rest of a part, whatever a state is in the middle of. The part's first byte stands at `base`.
fn feed_from(s: Stream, part: &[u8], from: usize, base: u64) -> Stream
    requires { FeedingFrom s part.now from base }
    ensures { result ≡ held (steps (state_from s) (drop from part.now)) }
{
    let mut current = s;
    let mut i = from;
    while i < part.len() {
        let moved = go_on(current, part, i, base);
        let stream = moved.stream;
        current = stream;
        i = moved.at;
    }
    tidy(current)
}

// The same from between two sections on.
fn feed_sections(known: Known, part: &[u8], base: u64) -> Stream
    requires { Begins base part.now known }
    ensures { result ≡ held (steps (stands base known) (drop known.at part.now)) }
{
    let moved = sections_on(known, part, base);
    let stream = moved.stream;
    if moved.at < part.len() {
        return feed_from(stream, part, moved.at, base);
    }
    stream
}

// All of a part.
pub fn feed(s: Stream, part: &[u8]) -> Stream
    requires { Feeding s part.now }
    ensures { result ≡ held (steps (state_from s) part.now) }
{
    if s.phase == SKIPPING {
        let n = reach(part.len(), s.left);
        if n < s.left {
            return skipping(known_in(s, 0), s.total + n as u64, s.at, s.left - n);
        }
    }
    match lead_of(s, part) {
        Some(known) => feed_sections(known, part, s.total),
        None => feed_from(s, part, 0, s.total),
    }
}
