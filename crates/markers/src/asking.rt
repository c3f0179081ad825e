// The quick question: a function's name, by markers. The payload is not judged.
ghost use Rattle.reading.specs.Cursors.{Inside};
ghost use Rattle.markers.specs.Asking.{EntryReads, FindsFirst};
ghost use Rattle.markers.specs.Promises.{MarkersQuick};

use crate::looking::look;
use crate::{STRIDE, TOO_LONG, refused};
use format::{Answer, FunctionIndex, Reason};
use reading::Cursor;
use tables::Held;
use tables::finding::answer_of;

// What reading an entry finds: its index, its text and the cursor behind it; or that it can't be read whole.
pub type EntryRead = Option<(u32, Cursor, Cursor)>;

// An entry: a number and a sized part. Its text is not checked.
fn entry(c: Cursor, s: &[u8]) -> EntryRead
    requires { Inside s.now c }
    ensures { EntryReads s.now c result }
{
    let Ok((index, behind, _)) = c.number(s) else {
        return None;
    };
    let Ok((text, next, _)) = behind.sized(s) else {
        return None;
    };
    Some((index, text, next))
}

// The text of the first entry with the key among sixteen that begin here. What can't be read whole ends it, and nothing else does. It is always a part of `quick`, since behind so many tests the compiler takes the call for a rare one.
#[inline(always)]
fn first_with(c: Cursor, s: &[u8], key: u32) -> Held
    requires { Inside s.now c }
    ensures { FindsFirst s.now c key result }
{
    let mut next = c;
    let mut more: u32 = STRIDE;
    while 0 < more {
        let (index, text, behind) = entry(next, s)?;
        if index == key {
            return Some(text);
        }
        next = behind;
        more -= 1;
    }
    None
}

// Any bytes, with any lists: these are looked at once, and of the payload sixteen entries at most.
pub fn quick(
    p: &[u8],
    indices: &[u32],
    offsets: &[u32],
    end: u64,
    function: FunctionIndex,
) -> Answer
    ensures { MarkersQuick p.now indices.now offsets.now end function result }
{
    if TOO_LONG <= p.len() {
        return refused(Reason::SubsectionTooLarge, 0);
    }
    if indices.len() < offsets.len() {
        return refused(Reason::NotMarkers, indices.len());
    }
    if offsets.len() < indices.len() {
        return refused(Reason::NotMarkers, offsets.len());
    }
    let count = indices.len();
    if (p.len() as u64) < end {
        return refused(Reason::NotMarkers, count);
    }
    match look(indices, offsets, end, function.0) {
        Err(position) => refused(Reason::NotMarkers, position),
        Ok(start) => match start {
            None => Ok(None),
            Some(at) => {
                let marker = Cursor {
                    at: at as usize,
                    end: end as usize,
                };
                answer_of(first_with(marker, p, function.0))
            }
        },
    }
}
