// Reads numbers, sized parts and names out of lent bytes, left to right, from a cursor by value.
#![tactic(auto)]

ghost use Rattle.reading.specs.Cursors.{Inside, Followed, NumberReads};
ghost use Rattle.reading.specs.Promises.{ReadingWide, ReadingOver, ReadingNumber, ReadingSized, ReadingName};

use format::{Offset, Reason, Refusal};

pub mod again;
mod ascii;
pub mod taking;
pub mod text;

// A place in what was lent, and the end of the innermost part around it.
#[derive(Clone, Copy)]
pub struct Cursor {
    pub at: usize,
    pub end: usize,
}

// What reading a number finds: its value, the cursor behind it, and whether it took its fewest bytes.
pub type NumberRead = Result<(u32, Cursor, bool), Refusal>;

// What reading a sized part or a name finds: a cursor over the part alone, the cursor behind it, and whether its length
// took its fewest bytes.
pub type PartRead = Result<(Cursor, Cursor, bool), Refusal>;

// A byte of a number holds seven bits; one from here on says that another follows.
const FOLLOWED: u32 = 128;

// How many bytes may follow the first of a number.
const MOST_FOLLOWING: u32 = 4;

// The fifth byte has the last four of 32 bits.
const GREATEST_FIFTH: u32 = 0x0F;

// A last byte that adds nothing to those before it.
const PADDING: u32 = 0;

// A byte as a number: where a byte is read for its value, nothing is left to show of its range.
pub fn wide(x: u8) -> u32
    ensures { ReadingWide x result }
{
    x as u32
}

impl Cursor {
    // The cursor over all that was lent.
    pub fn over(s: &[u8]) -> Cursor
        ensures { ReadingOver s.now result }
    {
        Cursor {
            at: 0,
            end: s.len(),
        }
    }

    // A number: at most 5 bytes, the fifth at most 0x0F. Most have one byte.
    pub fn number(self, s: &[u8]) -> NumberRead
        requires { Inside s.now self }
        ensures { ReadingNumber self s.now result }
    {
        let at = self.at;
        let end = self.end;
        if end <= at {
            return self.long_number(s);
        }
        let first = wide(s[at]);
        if FOLLOWED <= first {
            return self.long_number(s);
        }
        Ok((first, Cursor { at: at + 1, end }, true))
    }

    // A number of more than one byte, or of none. It is padded exactly where its last byte is 0.
    fn long_number(self, s: &[u8]) -> NumberRead
        requires inside { Inside s.now self }
        requires followed { Followed s.now self }
        ensures { NumberReads s.now self result }
    {
        let at = self.at;
        let end = self.end;
        let mut value: u32 = 0;
        let mut weight: u32 = 1;
        let mut i = at;
        let mut more: u32 = MOST_FOLLOWING;
        while i < end {
            let b = wide(s[i]);
            let next = Cursor { at: i + 1, end };
            let shortest = b != PADDING;
            if more == 0 {
                if b <= GREATEST_FIFTH {
                    return Ok((value + weight * b, next, shortest));
                }
                return Err(Refusal {
                    reason: Reason::NumberTooLarge,
                    offset: Offset(at),
                });
            }
            if b < FOLLOWED {
                return Ok((value + weight * b, next, shortest));
            }
            value = value + weight * (b % FOLLOWED);
            weight = weight * FOLLOWED;
            more = more - 1;
            i = i + 1;
        }
        Err(Refusal {
            reason: Reason::PastItsPart,
            offset: Offset(at),
        })
    }

    // A sized part: a number and that many bytes.
    pub fn sized(self, s: &[u8]) -> PartRead
        requires { Inside s.now self }
        ensures { ReadingSized self s.now result }
    {
        let first = self.at;
        let (n, c, shortest) = self.number(s)?;
        let at = c.at;
        let end = c.end;
        let size = n as usize;
        if end - at < size {
            return Err(Refusal {
                reason: Reason::PastItsPart,
                offset: Offset(first),
            });
        }
        let next = at + size;
        Ok((Cursor { at, end: next }, Cursor { at: next, end }, shortest))
    }

    // A name: a sized part that is valid UTF-8.
    pub fn name(self, s: &[u8]) -> PartRead
        requires { Inside s.now self }
        ensures { ReadingName self s.now result }
    {
        let (part, next, shortest) = self.sized(s)?;
        let from = part.at;
        if text::is_text(s, from, part.end) {
            return Ok((part, next, shortest));
        }
        Err(Refusal {
            reason: Reason::NotText,
            offset: Offset(from),
        })
    }
}
