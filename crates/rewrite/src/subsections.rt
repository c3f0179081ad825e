// The subsections of a name payload that was accepted: which of them come out as they are, how long what is left of them is, and written in their fewest bytes.
ghost use Rattle.std.specs.Prelude.{◌≡◌};
ghost use Rattle.format.specs.Names.{kind_in};
ghost use Rattle.rewrite.specs.Contents.{left_of};
ghost use Rattle.rewrite.specs.Subsections.{SmallLeft, length_left, TrimsSubsection, FitsSubsection, PutsSubsection, KnownPayload, MeasuresPayload, NeedsRoom, FindsChanged, FitsPayload, PutsPayload, RewritesNames};

use crate::contents::{Left, content_left, put_content};
use crate::whole::put_whole;
use copying::sized_length;
use format::{Edition, Offset, Reason, Refusal, Written};
use names::frames::{Framed, frame_here};
use names::kinds::kind_of;
use reading::Cursor;
use writing::{put_byte, put_number};

const ID_LENGTH: usize = 1;

// The first subsection that comes out shorter than it is, if one does: where it begins, its frame, and what is left of it.
pub type Changed = Option<(usize, Framed, Left)>;

// How long a subsection is with its id and its size; nothing where nothing is left of it.
fn subsection_length(left: Left) -> usize
    requires { SmallLeft left }
    ensures { result ≡ length_left (left_of left) }
{
    match left {
        None => 0,
        Some(sizes) => {
            let contents = sized_length(sizes.length);
            ID_LENGTH + contents
        }
    }
}

// How long what is left of all subsections is.
fn names_length(s: &[u8], c: Cursor, edition: Edition) -> usize
    requires { KnownPayload (kind_in edition) s.now c }
    ensures { MeasuresPayload (kind_in edition) s.now c result }
{
    let mut next = c;
    let mut length = 0;
    while next.at < next.end {
        let frame = frame_here(s, next);
        let part = frame.part;
        let left = content_left(s, part, kind_of(edition, frame.id));
        let size = subsection_length(left);
        length = length + size;
        next = frame.next;
    }
    length
}

// The first subsection that does not come out as it is. A subsection that comes out as long as it is comes out as it is.
fn first_changed(s: &[u8], c: Cursor, edition: Edition) -> Changed
    requires { KnownPayload (kind_in edition) s.now c }
    ensures { FindsChanged (kind_in edition) s.now c result }
{
    let mut next = c;
    while next.at < next.end {
        let frame = frame_here(s, next);
        let part = frame.part;
        let after = frame.next;
        let left = content_left(s, part, kind_of(edition, frame.id));
        if subsection_length(left) != after.at - next.at {
            return Some((next.at, frame, left));
        }
        next = after;
    }
    None
}

// What is left of a subsection, once it was measured, with its id and its size; nothing where nothing is left.
fn put_measured(
    out: &mut [u8],
    at: usize,
    edition: Edition,
    id: u8,
    s: &[u8],
    part: Cursor,
    left: Left,
) -> usize
    requires fits_subsection { FitsSubsection (kind_in edition) id s.now part out.old at }
    requires trims_subsection { TrimsSubsection (kind_in edition) id s.now part left }
    ensures { PutsSubsection (kind_in edition) id s.now part out.old out.new at result }
{
    match left {
        None => at,
        Some(sizes) => {
            let length = sizes.length;
            let size = put_byte(out, at, id);
            let contents = put_number(out, size, length as u32);
            put_content(out, contents, s, part, kind_of(edition, id), sizes)
        }
    }
}

// A subsection, measured and put.
fn put_subsection(
    out: &mut [u8],
    at: usize,
    edition: Edition,
    id: u8,
    s: &[u8],
    part: Cursor,
) -> usize
    requires { FitsSubsection (kind_in edition) id s.now part out.old at }
    ensures { PutsSubsection (kind_in edition) id s.now part out.old out.new at result }
{
    let left = content_left(s, part, kind_of(edition, id));
    put_measured(out, at, edition, id, s, part, left)
}

// What is left of the subsections to come, one after the other.
fn put_each(out: &mut [u8], at: usize, s: &[u8], c: Cursor, edition: Edition) -> usize
    requires { FitsPayload (kind_in edition) s.now c out.old at }
    ensures { PutsPayload (kind_in edition) s.now c out.old out.new at result }
{
    let mut next = c;
    let mut place = at;
    while next.at < next.end {
        let frame = frame_here(s, next);
        place = put_subsection(out, place, edition, frame.id, s, frame.part);
        next = frame.next;
    }
    place
}

// What is left of all subsections, from the output's front on. Those before the first that changes are copied together, which is all of a canonical payload.
fn put_names(out: &mut [u8], s: &[u8], c: Cursor, edition: Edition) -> usize
    requires { FitsPayload (kind_in edition) s.now c out.old 0 }
    ensures { PutsPayload (kind_in edition) s.now c out.old out.new 0 result }
{
    match first_changed(s, c, edition) {
        None => put_whole(out, 0, s, c),
        Some((at, frame, left)) => {
            let from = c.at;
            let changed = put_whole(out, 0, s, Cursor { at: from, end: at });
            let behind = put_measured(out, changed, edition, frame.id, s, frame.part, left);
            put_each(out, behind, s, frame.next, edition)
        }
    }
}

// How much room is surely enough. A rewriting is never longer than its payload, so it is measured only where the output is shorter than that.
fn room_for(p: &[u8], c: Cursor, edition: Edition, room: usize) -> usize
    requires { KnownPayload (kind_in edition) p.now c }
    ensures { NeedsRoom (kind_in edition) p.now c room result }
{
    let most = c.end - c.at;
    if most <= room {
        return most;
    }
    names_length(p, c, edition)
}

// The whole payload. Nothing is stored where the output is too short.
pub fn put_payload(p: &[u8], c: Cursor, edition: Edition, out: &mut [u8]) -> Written
    requires { KnownPayload (kind_in edition) p.now c }
    ensures { RewritesNames (kind_in edition) p.now c out.old out.new result }
{
    let needed = room_for(p, c, edition, out.len());
    if out.len() < needed {
        return Err(Refusal {
            reason: Reason::OutputTooShort,
            offset: Offset(needed),
        });
    }
    let end = put_names(out, p, c, edition);
    Ok(end)
}
