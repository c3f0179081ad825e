// Judges hints and entries, and asks them nothing: each answers with nothing. All but a kind and the zero byte has one caller, so that it becomes one piece of code and nothing is handed back through memory.
ghost use Rattle.format.specs.Older.{times, vector, zero_byte, kind_numbered, older_kind, older_hint, older_entry};
ghost use Rattle.reading.specs.Cursors.{Inside};
ghost use Rattle.older.specs.Seeking.{nothing, asked, Reads, Seeks};

use crate::Seek;
use format::{Offset, Reason, Refusal};
use reading::{Cursor, NumberRead};

// A kind is 0 for unlikely or 1 for likely.
const LIKELY: u32 = 1;

// What stands between an entry's function and its hints.
const ZERO: u8 = 0;

// A kind: a number, however it is padded, that is refused above 1 before anything behind it is read.
pub fn kind(c: Cursor, s: &[u8]) -> NumberRead
    requires { Inside s.now c }
    ensures { Reads kind_numbered older_kind s.now c result }
{
    let first = c.at;
    let (k, next, shortest) = c.number(s)?;
    if LIKELY < k {
        return Err(Refusal {
            reason: Reason::NotHint,
            offset: Offset(first),
        });
    }
    Ok((k, next, shortest))
}

// A hint: its kind, and then its offset.
fn hint(c: Cursor, s: &[u8]) -> Seek
    requires { Inside s.now c }
    ensures { Seeks (asked nothing older_hint) s.now c result }
{
    let (_, d, _) = kind(c, s)?;
    let (_, behind, _) = d.number(s)?;
    Ok((None, behind))
}

// So many hints, in any order.
fn hints_times(c: Cursor, s: &[u8], n: u32) -> Seek
    requires { Inside s.now c }
    ensures { Seeks (asked nothing (times older_hint n)) s.now c result }
{
    let mut next = c;
    for _ in 0..n {
        let (_, after) = hint(next, s)?;
        next = after;
    }
    Ok((None, next))
}

// The hints of an entry: how many, and so many.
fn hints(c: Cursor, s: &[u8]) -> Seek
    requires { Inside s.now c }
    ensures { Seeks (asked nothing (vector older_hint)) s.now c result }
{
    let (n, d, _) = c.number(s)?;
    hints_times(d, s, n)
}

// The zero byte behind an entry's function.
pub fn zero_byte(c: Cursor, s: &[u8]) -> Seek
    requires { Inside s.now c }
    ensures { Seeks (asked nothing zero_byte) s.now c result }
{
    let at = c.at;
    let end = c.end;
    if end <= at {
        return Err(Refusal {
            reason: Reason::PastItsPart,
            offset: Offset(at),
        });
    }
    let zero = s[at];
    if zero == ZERO {
        return Ok((None, Cursor { at: at + 1, end }));
    }
    Err(Refusal {
        reason: Reason::NotZero,
        offset: Offset(at),
    })
}

// An entry: its function, a zero byte, and its hints.
fn entry(c: Cursor, s: &[u8]) -> Seek
    requires { Inside s.now c }
    ensures { Seeks (asked nothing older_entry) s.now c result }
{
    let (_, d, _) = c.number(s)?;
    let (_, e) = zero_byte(d, s)?;
    hints(e, s)
}

// So many entries, in any order.
fn entries_times(c: Cursor, s: &[u8], n: u32) -> Seek
    requires { Inside s.now c }
    ensures { Seeks (asked nothing (times older_entry n)) s.now c result }
{
    let mut next = c;
    for _ in 0..n {
        let (_, after) = entry(next, s)?;
        next = after;
    }
    Ok((None, next))
}

// The entries of a payload: how many, and so many.
pub fn entries(c: Cursor, s: &[u8]) -> Seek
    requires { Inside s.now c }
    ensures { Seeks (asked nothing (vector older_entry)) s.now c result }
{
    let (n, d, _) = c.number(s)?;
    entries_times(d, s, n)
}
