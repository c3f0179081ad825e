// The sections of a part whose heads it has whole: id, size and, of a custom one, its name. Their contents may go on in the next
// part. What is cut within a head, or refused, is left to be read byte by byte.
ghost use Rattle.std.specs.Prelude.{◌+◌, ◌≤◌, ◌≡◌};
ghost use Rattle.walk.specs.Sections.{row_called, InTable};
ghost use Rattle.stream.specs.Calls.{most};
ghost use Rattle.stream.specs.Fields.{row_number};
ghost use Rattle.stream.specs.Phases.{Reaches};
ghost use Rattle.stream.specs.Known.{between_at, Within, Sized, CustomHead, PlainRead, CustomRead, Heads, Here, Onward, Begins, Sectioned};

use crate::known::{Known, between, custom_behind, paying, plain_behind, skipping};
use crate::{Spot, Stream};
use reading::Cursor;
use walk::rows::called;
use walk::rules::{CUSTOM, Called, judge_id};

// A head that the part has whole: where the contents behind it begin, and how many bytes they have.
#[derive(Clone, Copy)]
pub enum Head {
    Unread,
    // its id
    Plain(u8, usize, u32),
    // its row in the walk's table, counted from 1
    Custom(u8, usize, u32),
}

// How many of the bytes that are here belong to what is left.
pub fn reach(here: usize, left: u32) -> u32
    ensures { Reaches here left result }
{
    let all = left as usize;
    if here < all {
        return here as u32;
    }
    left
}

fn row_number(called: Called) -> u8
    requires { InTable called }
    ensures { result ≡ row_number (row_called called) }
{
    match called {
        None => 0,
        Some(row) => row + 1,
    }
}

// The name at the beginning of a custom section's contents, of which so many bytes are here.
fn custom_head(part: &[u8], from: usize, size: u32, here: u32) -> Head
    requires { Sized part.now from size here }
    ensures { CustomHead part.now from size result }
{
    let end = from + here as usize;
    let contents = Cursor { at: from, end };
    let Ok((name, payload, _)) = contents.name(part) else {
        return Head::Unread;
    };
    let row = row_number(called(part, name));
    let read = (payload.at - from) as u32;
    Head::Custom(row, payload.at, size - read)
}

fn head_at(known: Known, part: &[u8]) -> Head
    requires { Within part.now known }
    ensures { Heads part.now known result }
{
    let at = known.at;
    let id = part[at];
    let Ok(()) = judge_id(known.seen, id) else {
        return Head::Unread;
    };
    let end = part.len();
    let rest = Cursor { at: at + 1, end };
    let Ok((size, next, _)) = rest.number(part) else {
        return Head::Unread;
    };
    let from = next.at;
    if id == CUSTOM {
        return custom_head(part, from, size, reach(end - from, size));
    }
    Head::Plain(id, from, size)
}

// One section: it is behind, or goes on in the next part, or its head is not read here.
#[derive(Clone, Copy)]
pub enum Passed {
    Behind(Known),
    Cut(Stream),
    Unread,
}

fn plain_on(known: Known, part: &[u8], base: u64, id: u8, from: usize, size: u32) -> Passed
    requires { Here base part.now known × PlainRead part.now known id from size }
    ensures { Onward base part.now known result }
{
    let end = part.len();
    let here = end - from;
    let all = size as usize;
    if here < all {
        let after = plain_behind(known, id, end);
        let total = base + end as u64;
        let at = base + known.at as u64;
        return Passed::Cut(skipping(after, total, at, size - here as u32));
    }
    Passed::Behind(plain_behind(known, id, from + all))
}

fn custom_on(known: Known, part: &[u8], base: u64, row: u8, from: usize, size: u32) -> Passed
    requires { Here base part.now known × CustomRead part.now known row from size }
    ensures { Onward base part.now known result }
{
    let end = part.len();
    let here = end - from;
    let all = size as usize;
    let offset = base + from as u64;
    if here < all {
        let total = base + end as u64;
        let at = base + known.at as u64;
        return Passed::Cut(paying(known, total, at, size - here as u32, row, offset));
    }
    let length = size as u64;
    match custom_behind(known, row, Spot { offset, length }, from + all) {
        Err(_) => Passed::Unread,
        Ok(next) => Passed::Behind(next),
    }
}

fn section_on(known: Known, part: &[u8], base: u64) -> Passed
    requires { Here base part.now known }
    ensures { Onward base part.now known result }
{
    match head_at(known, part) {
        Head::Unread => Passed::Unread,
        Head::Plain(id, from, size) => plain_on(known, part, base, id, from, size),
        Head::Custom(row, from, size) => custom_on(known, part, base, row, from, size),
    }
}

// A state, and how far in the part it stands.
#[derive(Clone, Copy)]
pub struct Moved {
    pub stream: Stream,
    pub at: usize,
}

// Between two sections.
fn stopped(known: Known, base: u64) -> Moved
    requires { base + known.at ≤ most }
    ensures { result ≡ record { stream = between_at (base + known.at) known; at = known.at } }
{
    let stream = between(known, base + known.at as u64);
    Moved {
        stream,
        at: known.at,
    }
}

// From section to section, as far as heads are whole.
pub fn sections_on(first: Known, part: &[u8], base: u64) -> Moved
    requires { Begins base part.now first }
    ensures { Sectioned base part.now first result }
{
    let mut known = first;
    while known.at < part.len() {
        match section_on(known, part, base) {
            Passed::Behind(next) => {
                known = next;
            }
            Passed::Cut(stream) => {
                return Moved {
                    stream,
                    at: part.len(),
                };
            }
            Passed::Unread => {
                return stopped(known, base);
            }
        }
    }
    stopped(known, base)
}
