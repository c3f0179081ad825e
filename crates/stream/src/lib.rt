// K5: a module as it arrives, in parts that are cut anywhere. All work is by value: a state goes in, and the state behind it comes out.
#![tactic(auto)]

ghost use Rattle.std.specs.Prelude.{◌≡◌, ◌+◌, leb};
ghost use Rattle.stream.specs.Calls.{most, untaken};
ghost use Rattle.stream.specs.Promises.{StreamBegin, StreamTakePart, StreamFinish};

use crate::feeding::feed;
use crate::finishing::{end, refused_ending};
use crate::fitting::is_open;
use crate::holding::blank;
use format::{Offset, Reason, Refusal, Verdict};

mod contents;
mod feeding;
mod finishing;
mod fitting;
mod heads;
mod holding;
mod known;
mod leading;
mod naming;
mod numbers;
mod sections;
mod texts;

// Where a payload lies, counted from the module's first byte: 0 and 0 where there is none.
#[repr(C)]
#[derive(Clone, Copy)]
pub struct Spot {
    pub offset: u64,
    pub length: u64,
}

// How many bytes of each tracked name have been met.
#[repr(C)]
#[derive(Clone, Copy)]
pub struct Met {
    pub name: u8,
    pub hints: u8,
    pub older: u8,
}

// What is known between two parts: numbers alone, 120 bytes, with nothing between them. What a phase has no use for is 0, so
// that the same bytes leave the same state however they were cut.
#[repr(C)]
#[derive(Clone, Copy)]
pub struct Stream {
    // how many bytes have come
    pub total: u64,
    // of the sections behind: how many, and where the payloads of the tracked ones lie
    pub count: u64,
    pub name: Spot,
    pub hints: Spot,
    pub older: Spot,
    // of the section that is read: where its id stands; where the number of its name's bytes stands; where the name's text or
    // the payload begins, or what a refusal gives as its offset
    pub at: u64,
    pub begins: u64,
    pub text: u64,
    // how many bytes its contents and its name still have
    pub left: u32,
    pub rest: u32,
    // of a number: what its bytes add up to; of a character: the least code point of its form, and its own so far
    pub low: u32,
    pub least: u32,
    pub point: u32,
    pub phase: u8,
    pub refusal: u8,
    // of the sections behind: what the walk's rules know of them
    pub rank: u8,
    pub code: u8,
    pub there: u8,
    // of the section that is read: its id; how many bytes of a number have come; how many a character still wants; how far
    // each name was met; its row in the walk's table, counted from 1, and 0 without one
    pub id: u8,
    pub come: u8,
    pub wanted: u8,
    pub met: Met,
    pub row: u8,
}

// What a state is in the middle of: the preamble; between two sections; refused, whatever comes; a section's size; the
// contents of one that is not custom; of a custom one the number of its name's bytes, its name, its payload, or what is left
// behind a fault; or the finish was asked for.
const STARTING: u8 = 0;

const BETWEEN: u8 = 1;

const REFUSED: u8 = 2;

const MEASURING: u8 = 3;

const SKIPPING: u8 = 4;

const SIZING: u8 = 5;

const NAMING: u8 = 6;

const PAYING: u8 = 7;

const FAILING: u8 = 8;

const OVER: u8 = 9;

const NOWHERE: Spot = Spot {
    offset: 0,
    length: 0,
};

const NONE_MET: Met = Met {
    name: 0,
    hints: 0,
    older: 0,
};

// A stream of which nothing has come.
pub fn begin() -> Stream
    ensures { StreamBegin result }
{
    blank(0, STARTING)
}

// What a part leaves, and whether it was taken.
#[derive(Clone, Copy)]
pub struct Taken {
    pub stream: Stream,
    pub verdict: Verdict,
}

// Where a payload lies, if there is one: 1 and its place, or three zeros.
#[derive(Clone, Copy)]
pub struct Told {
    pub there: u64,
    pub offset: u64,
    pub length: u64,
}

// What the finish says: a refusal's number and offset, or the count of sections and the places. What it does not say is 0.
#[derive(Clone, Copy)]
pub struct Ending {
    pub accepted: bool,
    pub refusal: u32,
    pub offset: u64,
    pub count: u64,
    pub name: Told,
    pub hints: Told,
    pub older: Told,
}

#[derive(Clone, Copy)]
pub struct Ended {
    pub stream: Stream,
    pub ending: Ending,
}

// The number of a refusal that a finish alone gives.
const AFTER_FINISH: u8 = 18;

// What 64 bits hold.
const MOST: u64 = 18_446_744_073_709_551_615;

fn not_taken(s: Stream, reason: Reason) -> Taken
    ensures { result ≡ untaken s reason }
{
    let offset = Offset(0);
    let verdict = Err(Refusal { reason, offset });
    Taken { stream: s, verdict }
}

// Whether so many bytes more can be counted.
fn has_room(total: u64, more: u64) -> bool
    ensures { result ≡ leb (total + more) most }
{
    more <= MOST - total
}

// The next part of a module: cut anywhere, and of no length too.
pub fn take_part(s: Stream, part: &[u8]) -> Taken
    ensures { StreamTakePart s part.now result }
{
    if is_open(s) {
        if has_room(s.total, part.len() as u64) {
            let stream = feed(s, part);
            let verdict = Ok(());
            return Taken { stream, verdict };
        }
        return not_taken(s, Reason::TotalTooLarge);
    }
    not_taken(s, Reason::AfterFinish)
}

// The module is over.
pub fn finish(s: Stream) -> Ended
    ensures { StreamFinish s result }
{
    if is_open(s) {
        let ending = end(s);
        let stream = blank(s.total, OVER);
        return Ended { stream, ending };
    }
    let ending = refused_ending(AFTER_FINISH, 0);
    Ended { stream: s, ending }
}
