// Judges a name payload, whole and left to right, and finds a subsection of one that was accepted.
ghost use Rattle.names.specs.Places.{KnownFrames};
ghost use Rattle.names.specs.Promises.{NamesJudge, NamesFind};

use crate::frames::frame_here;
use crate::judge_in;
use format::{Edition, Verdict};
use reading::Cursor;
use tables::Held;

// A payload that is all that was lent.
pub fn judge(p: &[u8], edition: Edition) -> Verdict
    ensures { NamesJudge p.now edition result }
{
    judge_in(p, Cursor::over(p), edition)
}

// Where the subsection with an id lies in an accepted payload: those before it are stepped over by their sizes.
pub fn find(s: &[u8], c: Cursor, id: u8) -> Held
    requires { KnownFrames s.now c }
    ensures { NamesFind s.now c id result }
{
    let mut next = c;
    while next.at < next.end {
        let here = frame_here(s, next);
        if here.id == id {
            let part = here.part;
            return Some(part);
        }
        next = here.next;
    }
    None
}
