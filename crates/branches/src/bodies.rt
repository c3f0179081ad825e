// The list of sized bodies: judged, and then gone through without its checks.
ghost use Rattle.reading.specs.Cursors.{Inside};
ghost use Rattle.branches.specs.Reads.{Reads};
ghost use Rattle.branches.specs.Lists.{pass_bodies, JudgesBodies, Kept, PassesTo, Looks};

use crate::reads::{Read, number_read, refusal};
use format::{Reason, Refusal};
use reading::Cursor;
use reading::again::part_here;

// Where the first body of an accepted list stands, and how many they are.
pub type BodiesRead = Result<(Cursor, u32), Refusal>;

// The bodies that are still to come: the function whose body is the next, where that stands, and how many they are.
#[derive(Clone, Copy)]
pub struct Bodies {
    pub first: u64,
    pub next: Cursor,
    pub more: u32,
}

// So many bodies, each passed over by its size.
fn bodies_read(c: Cursor, s: &[u8], n: u32) -> Read
    requires { Inside s.now c }
    ensures { Reads (pass_bodies n) s.now c result }
{
    let mut next = c;
    for _ in 0..n {
        let (_, after, _) = next.sized(s)?;
        next = after;
    }
    Ok((n, next))
}

// The list fills its section.
pub fn bodies_in(c: Cursor, s: &[u8]) -> BodiesRead
    requires { Inside s.now c }
    ensures { JudgesBodies s.now c result }
{
    let (n, first) = number_read(c, s)?;
    let (_, behind) = bodies_read(first, s, n)?;
    if behind.at < behind.end {
        return Err(refusal(Reason::LeftOver, behind.at));
    }
    Ok((first, n))
}

// The bodies from that of a function on: those before it are passed over by their sizes.
fn bodies_from(all: Bodies, function: u64, s: &[u8]) -> Bodies
    requires { Kept s.now all }
    ensures { PassesTo s.now all function result }
{
    let mut first = all.first;
    let mut next = all.next;
    let mut more = all.more;
    while first < function {
        if more == 0 {
            return Bodies { first, next, more };
        }
        let body = part_here(next, s);
        first = first + 1;
        next = body.next;
        more = more - 1;
    }
    Bodies { first, next, more }
}

// The body of a function, which is none of those that were passed, and the bodies behind it.
pub fn body_of(all: Bodies, function: u32, s: &[u8]) -> Option<(Cursor, Bodies)>
    requires { Kept s.now all }
    ensures { Looks s.now all function result }
{
    let wanted = function as u64;
    if wanted < all.first {
        return None;
    }
    let left = bodies_from(all, wanted, s);
    let more = left.more;
    if more == 0 {
        return None;
    }
    let body = part_here(left.next, s);
    let part = body.part;
    let next = body.next;
    Some((
        part,
        Bodies {
            first: left.first + 1,
            next,
            more: more - 1,
        },
    ))
}
