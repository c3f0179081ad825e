// From subsection to subsection.
ghost use Rattle.reading.specs.Cursors.{Inside};
ghost use Rattle.names.specs.Frames.{KnownFrame};
ghost use Rattle.names.specs.Promises.{NamesFrame, NamesFrameHere};

use format::{Offset, Reason, Refusal};
use reading::again::part_here;
use reading::{Cursor, wide};

// What reading a subsection finds: its id, where its contents lie, the cursor behind it, and whether its size took its
// fewest bytes.
pub type FrameRead = Result<Option<(u8, Cursor, Cursor, bool)>, Refusal>;

// The subsection that begins here, its id at least `least`. Its contents are not looked into.
pub fn frame(s: &[u8], c: Cursor, least: u32) -> FrameRead
    requires { Inside s.now c }
    ensures { NamesFrame s.now c least result }
{
    let at = c.at;
    let end = c.end;
    if end <= at {
        return Ok(None);
    }
    let id = s[at];
    if wide(id) < least {
        return Err(Refusal {
            reason: Reason::SubsectionOrder,
            offset: Offset(at),
        });
    }
    let rest = Cursor { at: at + 1, end };
    let (part, next, shortest) = rest.sized(s)?;
    Ok(Some((id, part, next, shortest)))
}

// A subsection of an accepted payload: its id, where its contents lie, and the cursor behind it.
#[derive(Clone, Copy)]
pub struct Framed {
    pub id: u8,
    pub part: Cursor,
    pub next: Cursor,
}

// The subsection that begins here: it was accepted, so nothing of it is tested again.
pub fn frame_here(s: &[u8], c: Cursor) -> Framed
    requires { KnownFrame s.now c }
    ensures { NamesFrameHere s.now c result }
{
    let at = c.at;
    let end = c.end;
    let id = s[at];
    let rest = Cursor { at: at + 1, end };
    let contents = part_here(rest, s);
    let part = contents.part;
    let next = contents.next;
    Framed { id, part, next }
}
