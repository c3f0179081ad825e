// The listing of a module: it is judged and counted first, then its lines are written.
ghost use Rattle.std.specs.Prelude.{◌++◌, ◌≡◌, ◌≤◌, ◌+◌, ◌*◌, length};
ghost use Rattle.format.specs.Listing.{section_lines, printed};
ghost use Rattle.format.specs.Reading.{accepted};
ghost use Rattle.format.specs.Walk.{walk, section_count};
ghost use Rattle.listing.specs.Lines.{AnswerPut, Adds, AddsFrom, count_line, custom_line, room};
ghost use Rattle.listing.specs.Promises.{ListingList};
ghost use Rattle.writing.specs.Wrote.{Wrote};

use crate::lines::{put_labelled, put_number, put_refusal, put_section, put_word};
use format::{Answer, Offset, Reason, Refusal};
use walk::rows::{BRANCH_HINT, METADATA, NAME_SECTION};
use walk::step::Walk;
use writing::put_bytes;

// The longest module that is listed.
const GREATEST: usize = 65_536;

// The line of a place, or none. An answer that is refused writes nothing.
fn put_answer(out: &mut [u8], at: usize, label: &[u8], answer: Answer) -> usize
    requires { at + length label.now + 43 ≤ length out.old }
    ensures answer_put { AnswerPut label.now answer out.old out.new at result }
    ensures upper_bound { result ≤ at + length label.now + 43 }
{
    let Ok(found) = answer else {
        return at;
    };
    let Some(place) = found else {
        let next = put_word(out, at, label);
        return put_bytes(out, next, b"none\n");
    };
    let offset = place.offset;
    put_labelled(out, at, label, offset.0 as u64, place.length as u64)
}

// Where the payload of the first custom section of a name lies. The name stands in two slices.
fn put_custom(m: &[u8], front: &[u8], rest: &[u8], label: &[u8], out: &mut [u8], at: usize) -> usize
    requires { at + length label.now + 43 ≤ length out.old }
    ensures adds { Adds m.now (custom_line (front.now ++ rest.now) label.now) out.old out.new at result }
    ensures upper_bound { result ≤ at + length label.now + 43 }
{
    let answer = walk::custom_joined(m, front, rest);
    put_answer(out, at, label, answer)
}

// A line for each section from a step of the walk on. A line takes at most 64 bytes, and a section at least 2.
fn put_from(m: &[u8], first: Walk, out: &mut [u8], at: usize) -> usize
    requires at_in_bounds { first.at ≤ length m.now }
    requires m_in_bounds { at + 32 * length m.now ≤ length out.old }
    ensures adds_from { AddsFrom m.now first section_lines out.old out.new at result }
    ensures upper_bound { result ≤ at + 32 * length m.now }
{
    let mut walk = first;
    let mut next = at;
    loop {
        let Ok(read) = walk.step(m) else {
            return next;
        };
        let Some((s, after)) = read else {
            return next;
        };
        let offset = s.at;
        let contents = s.contents;
        next = put_section(out, next, s.id, offset.0, contents.end - contents.at);
        walk = after;
    }
}

// A line for each section.
fn put_sections(m: &[u8], out: &mut [u8], at: usize) -> usize
    requires { at + 32 * length m.now ≤ length out.old }
    ensures adds { Adds m.now section_lines out.old out.new at result }
    ensures upper_bound { result ≤ at + 32 * length m.now }
{
    match Walk::begin(m) {
        Err(_) => at,
        Ok(first) => put_from(m, first, out, at),
    }
}

// How many sections there are.
fn put_count(out: &mut [u8], count: usize) -> usize
    requires { 64 ≤ length out.old }
    ensures wrote { Wrote out.old out.new 0 result (count_line count) }
    ensures upper_bound { result ≤ 64 }
{
    let next = put_word(out, 0, b"sections");
    put_number(out, next, count as u64, b'\n')
}

// The lines of a module that is accepted.
fn put_accepted(m: &[u8], count: usize, out: &mut [u8]) -> usize
    requires count_value { accepted count ≡ section_count m.now }
    requires m_in_bounds { 32 * length m.now + 1_024 ≤ length out.old }
    ensures { Wrote out.old out.new 0 result (printed (walk m.now)) }
{
    let counted = put_count(out, count);
    let listed = put_sections(m, out, counted);
    let named = put_custom(m, b"", &NAME_SECTION, b"name", out, listed);
    put_custom(m, &METADATA, &BRANCH_HINT, b"hints", out, named)
}

// The whole listing. The room holds that of the longest module.
pub fn list(m: &[u8], out: &mut [u8]) -> usize
    requires { room ≤ length out.old }
    ensures { ListingList m.now out.old out.new result }
{
    if GREATEST < m.len() {
        return put_refusal(
            out,
            Refusal {
                reason: Reason::InputTooLarge,
                offset: Offset(GREATEST),
            },
        );
    }
    match walk::count(m) {
        Err(r) => put_refusal(out, r),
        Ok(count) => put_accepted(m, count, out),
    }
}
