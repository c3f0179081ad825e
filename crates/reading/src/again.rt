// What was accepted, read again without its checks.
ghost use Rattle.format.specs.Numbers.{number};
ghost use Rattle.format.specs.Parts.{sized};
ghost use Rattle.reading.specs.Standing.{Known};
ghost use Rattle.reading.specs.Promises.{ReadingNumberHere, ReadingPartHere};

use crate::{Cursor, FOLLOWED, wide};

// A number that was read, and the cursor behind it.
#[derive(Clone, Copy)]
pub struct Number {
    pub value: u32,
    pub next: Cursor,
}

// A sized part that was read, and the cursor behind it.
#[derive(Clone, Copy)]
pub struct Piece {
    pub part: Cursor,
    pub next: Cursor,
}

// The number that stands here. It was accepted, so it ends where its part does at the latest, and nothing is tested.
pub fn number_here(c: Cursor, s: &[u8]) -> Number
    requires { Known number s.now c }
    ensures { ReadingNumberHere c s.now result }
{
    let end = c.end;
    let mut value: u32 = 0;
    let mut weight: u32 = 1;
    let mut i = c.at;
    let mut b = wide(s[i]);
    while FOLLOWED <= b {
        value = value + weight * (b % FOLLOWED);
        weight = weight * FOLLOWED;
        i = i + 1;
        b = wide(s[i]);
    }
    let value = value + weight * b;
    let next = Cursor { at: i + 1, end };
    Number { value, next }
}

// The sized part that stands here, likewise.
pub fn part_here(c: Cursor, s: &[u8]) -> Piece
    requires { Known sized s.now c }
    ensures { ReadingPartHere c s.now result }
{
    let size = number_here(c, s);
    let length = size.value;
    let text = size.next;
    let at = text.at;
    let behind = at + length as usize;
    let part = Cursor { at, end: behind };
    let next = Cursor {
        at: behind,
        end: text.end,
    };
    Piece { part, next }
}
