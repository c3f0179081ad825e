// The subsections of two payloads that were accepted, gone through side by side in the order of their ids.
ghost use Rattle.std.specs.Prelude.{◌≡◌};
ghost use Rattle.format.specs.Names.{kind_in};
ghost use Rattle.joining.specs.Subsections.{KnownFrames, FrameHere, SubsectionNext, length_left, RoomForHead, PutsHead, KnownSubsection, MeasuresSubsection, FitsSubsection, PutsSubsection, Payloads, MeasuresJoined, FitsJoined, PutsJoined, Joins};

use crate::contents::{Left, contents_left, put_contents};
use copying::sized_length;
use format::{Edition, JoinRefusal, JoinWritten, Offset, Reason, Refusal};
use names::kinds::kind_of;
use reading::Cursor;
use reading::again::part_here;
use tables::Held;
use writing::{put_byte, put_number};

const ID_LENGTH: usize = 1;

// Contents of so many bytes or more have no size number.
pub const TOO_LARGE: usize = 1 << 32;

// What comes next of two payloads: a subsection's id, where its contents lie in each, if they do, and the cursors behind it.
#[derive(Clone, Copy)]
pub struct NextSubsection {
    pub id: u8,
    pub first: Held,
    pub second: Held,
    pub next: Cursor,
    pub after: Cursor,
}

// How long something is, if none of its subsections is too large.
pub type Total = Option<usize>;

// The subsection that begins here, if one does: its id, where its contents lie, and the cursor behind it. It was accepted.
fn frame_here(s: &[u8], c: Cursor) -> Option<(u8, Cursor, Cursor)>
    requires { KnownFrames s.now c }
    ensures { FrameHere s.now c result }
{
    let at = c.at;
    let end = c.end;
    if end <= at {
        return None;
    }
    let id = s[at];
    let rest = Cursor { at: at + 1, end };
    let contents = part_here(rest, s);
    let part = contents.part;
    let next = contents.next;
    Some((id, part, next))
}

// The next subsection of two payloads, of the lesser id; of both where they have the same.
fn next_subsection(s: &[u8], c: Cursor, o: &[u8], d: Cursor) -> Option<NextSubsection>
    requires known_frames { KnownFrames s.now c }
    requires known_frames_2 { KnownFrames o.now d }
    ensures { SubsectionNext s.now c o.now d result }
{
    match frame_here(s, c) {
        None => match frame_here(o, d) {
            None => None,
            Some((j, other, after)) => Some(NextSubsection {
                id: j,
                first: None,
                second: Some(other),
                next: c,
                after,
            }),
        },
        Some((i, part, next)) => match frame_here(o, d) {
            None => Some(NextSubsection {
                id: i,
                first: Some(part),
                second: None,
                next,
                after: d,
            }),
            Some((j, other, after)) => {
                if i < j {
                    return Some(NextSubsection {
                        id: i,
                        first: Some(part),
                        second: None,
                        next,
                        after: d,
                    });
                }
                if j < i {
                    return Some(NextSubsection {
                        id: j,
                        first: None,
                        second: Some(other),
                        next: c,
                        after,
                    });
                }
                let first = Some(part);
                let second = Some(other);
                Some(NextSubsection {
                    id: i,
                    first,
                    second,
                    next,
                    after,
                })
            }
        },
    }
}

// How long a subsection is with its id and its size; nothing where nothing is left of it.
fn left_length(left: Left) -> Total
    ensures { result ≡ length_left left }
{
    match left {
        None => Some(0),
        Some(sizes) => {
            if TOO_LARGE <= sizes.length {
                return None;
            }
            let contents = sized_length(sizes.length);
            Some(ID_LENGTH + contents)
        }
    }
}

// How long the subsection of an id is, by where its contents lie in each payload, if they do.
fn subsection_length(
    edition: Edition,
    id: u8,
    s: &[u8],
    first: Held,
    o: &[u8],
    second: Held,
) -> Total
    requires { KnownSubsection (kind_in edition) id s.now first o.now second }
    ensures { MeasuresSubsection (kind_in edition) id s.now first o.now second result }
{
    let left = contents_left(kind_of(edition, id), s, first, o, second);
    left_length(left)
}

// How long both are as one.
fn joined_length(s: &[u8], c: Cursor, o: &[u8], d: Cursor, edition: Edition) -> Total
    requires { Payloads (kind_in edition) s.now c o.now d }
    ensures { MeasuresJoined (kind_in edition) s.now c o.now d result }
{
    let mut ours = c;
    let mut theirs = d;
    let mut length: usize = 0;
    while let Some(sub) = next_subsection(s, ours, o, theirs) {
        let size = subsection_length(edition, sub.id, s, sub.first, o, sub.second)?;
        length = length + size;
        ours = sub.next;
        theirs = sub.after;
    }
    Some(length)
}

// A subsection's id and the size of its contents.
fn put_head(out: &mut [u8], at: usize, id: u8, length: usize) -> usize
    requires { RoomForHead length out.old at }
    ensures { PutsHead id length out.old out.new at result }
{
    let size = put_byte(out, at, id);
    put_number(out, size, length as u32)
}

// What is left of a subsection, with its id and its size; nothing where nothing is left.
fn put_subsection(
    out: &mut [u8],
    at: usize,
    edition: Edition,
    id: u8,
    s: &[u8],
    first: Held,
    o: &[u8],
    second: Held,
) -> usize
    requires { FitsSubsection (kind_in edition) id s.now first o.now second out.old at }
    ensures { PutsSubsection (kind_in edition) id s.now first o.now second out.old out.new at result }
{
    let kind = kind_of(edition, id);
    match contents_left(kind, s, first, o, second) {
        None => at,
        Some(sizes) => {
            let contents = put_head(out, at, id, sizes.length);
            put_contents(out, contents, kind, s, first, o, second, sizes.count)
        }
    }
}

// Both as one, from the output's front on.
pub fn put_joined(
    out: &mut [u8],
    s: &[u8],
    c: Cursor,
    o: &[u8],
    d: Cursor,
    edition: Edition,
) -> usize
    requires { FitsJoined (kind_in edition) s.now c o.now d out.old }
    ensures { PutsJoined (kind_in edition) s.now c o.now d out.old out.new result }
{
    let mut ours = c;
    let mut theirs = d;
    let mut place: usize = 0;
    while let Some(sub) = next_subsection(s, ours, o, theirs) {
        place = put_subsection(out, place, edition, sub.id, s, sub.first, o, sub.second);
        ours = sub.next;
        theirs = sub.after;
    }
    place
}

// The whole of both. It is measured first, so that nothing is stored where a subsection is too large or the output too short.
pub fn put_both(
    s: &[u8],
    c: Cursor,
    o: &[u8],
    d: Cursor,
    edition: Edition,
    out: &mut [u8],
) -> JoinWritten
    requires { Payloads (kind_in edition) s.now c o.now d }
    ensures { Joins (kind_in edition) s.now c o.now d out.old out.new result }
{
    let total = joined_length(s, c, o, d, edition);
    let Some(needed) = total else {
        return Err(JoinRefusal::Output(Refusal {
            reason: Reason::SubsectionTooLarge,
            offset: Offset(0),
        }));
    };
    if out.len() < needed {
        return Err(JoinRefusal::Output(Refusal {
            reason: Reason::OutputTooShort,
            offset: Offset(needed),
        }));
    }
    let end = put_joined(out, s, c, o, d, edition);
    Ok(end)
}
