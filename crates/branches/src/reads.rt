// Numbers and bytes of the lists that are judged before the hints.
ghost use Rattle.std.specs.Prelude.{◌≡◌};
ghost use Rattle.format.specs.Numbers.{number};
ghost use Rattle.reading.specs.Cursors.{Inside};
ghost use Rattle.branches.specs.Imports.{byte};
ghost use Rattle.branches.specs.Reads.{Reads, refusal_with};

use format::{Offset, Reason, Refusal};
use reading::{Cursor, wide};

// What reading finds: a value, and the cursor behind it.
pub type Read = Result<(u32, Cursor), Refusal>;

pub fn refusal(reason: Reason, at: usize) -> Refusal
    ensures { result ≡ refusal_with reason at }
{
    Refusal {
        reason,
        offset: Offset(at),
    }
}

pub fn number_read(c: Cursor, s: &[u8]) -> Read
    requires { Inside s.now c }
    ensures { Reads number s.now c result }
{
    let (n, next, _) = c.number(s)?;
    Ok((n, next))
}

// A byte: a missing one is refused at its place.
pub fn byte_read(c: Cursor, s: &[u8]) -> Read
    requires { Inside s.now c }
    ensures { Reads byte s.now c result }
{
    let at = c.at;
    let end = c.end;
    if end <= at {
        return Err(refusal(Reason::PastItsPart, at));
    }
    Ok((wide(s[at]), Cursor { at: at + 1, end }))
}
