// Sixteen entries of an accepted map, passed over without a look at their texts.
ghost use Rattle.std.specs.Prelude.{◌+◌, ◌*◌, ◌%◌, ◌≤◌, ◌<◌, ◌≡◌};
ghost use Rattle.format.specs.Numbers.{number};
ghost use Rattle.format.specs.Parts.{sized};
ghost use Rattle.format.specs.Tables.{rows};
ghost use Rattle.reading.specs.Standing.{Known};
ghost use Rattle.markers.specs.Passing.{Wide, IndexHere, EntryThere, BehindIndex, BehindEntry, Ahead, SixteenOn};

use crate::STRIDE;
use reading::again::{number_here, part_here};
use reading::{Cursor, wide};
use tables::stepping::Rows;

// A byte from here on says that another one of its number follows.
const FOLLOWED: u8 = 128;

// The least numbers of two and of three bytes.
const TWO_BYTES: u32 = 1 << 7;

const THREE_BYTES: u32 = 1 << 14;

// Of a number each byte counts so many times what the one before it does.
const GROUP: u32 = 1 << 7;

// An index, and how many bytes stand before the last one of any number that is not below it.
#[derive(Clone, Copy)]
pub struct Index {
    pub value: u32,
    pub width: usize,
}

// How many bytes stand before the last one of any number that is not below this one: those behind a marker have greater
// indices, so that their first bytes need no look. Two are enough for two million functions.
fn width_of(index: u32) -> usize
    ensures { Wide result index }
{
    if index < TWO_BYTES {
        return 0;
    }
    if index < THREE_BYTES {
        return 1;
    }
    2
}

// The number of a first byte that says that others follow, and of what those are by themselves.
fn number_of(first: u8, others: u32) -> u32
    requires le_first { 128 ≤ first }
    requires others_bound { others < 16_384 }
    ensures { result ≡ first % 128 + 128 * others }
{
    first as u32 - GROUP + GROUP * others
}

// The index that stands here. One of up to three bytes is read without a loop, and the last byte tells its width, unless
// that is 0, which is padding.
pub fn index_here(c: Cursor, s: &[u8]) -> Index
    requires { Known number s.now c }
    ensures { IndexHere s.now c result }
{
    let at = c.at;
    let first = s[at];
    if first < FOLLOWED {
        return Index {
            value: wide(first),
            width: 0,
        };
    }
    let second = s[at + 1];
    if second < FOLLOWED {
        if 0 < second {
            return Index {
                value: number_of(first, wide(second)),
                width: 1,
            };
        }
    } else {
        let third = s[at + 2];
        if third < FOLLOWED {
            if 0 < third {
                return Index {
                    value: number_of(first, number_of(second, wide(third))),
                    width: 2,
                };
            }
        }
    }
    let index = number_here(c, s);
    let value = index.value;
    Index {
        value,
        width: width_of(value),
    }
}

// The cursor behind an entry's index.
fn behind_index(c: Cursor, s: &[u8], width: usize) -> Cursor
    requires { EntryThere width s.now c }
    ensures { BehindIndex s.now c result }
{
    let last = c.at + width;
    if s[last] < FOLLOWED {
        return Cursor {
            at: last + 1,
            end: c.end,
        };
    }
    let index = number_here(c, s);
    index.next
}

// The cursor behind an entry.
fn behind_entry(c: Cursor, s: &[u8], width: usize) -> Cursor
    requires { EntryThere width s.now c }
    ensures { BehindEntry s.now c result }
{
    let text = part_here(behind_index(c, s, width), s);
    text.next
}

// The entries behind the next sixteen, whatever they are.
fn sixteen_of_any(left: Rows, s: &[u8], width: usize) -> Rows
    requires ahead { Ahead width left.more s.now left.next }
    requires lt_more { 16 < left.more }
    ensures { SixteenOn s.now left result }
{
    let mut next = left.next;
    let mut k: u32 = 0;
    while k < STRIDE {
        next = behind_entry(next, s, width);
        k += 1;
    }
    let more = left.more - STRIDE;
    Rows { next, more }
}

// The same where all sixteen have texts of 128 to 16,383 bytes, as mangled names have: their lengths take two bytes.
fn sixteen_of_long(left: Rows, s: &[u8], width: usize) -> Rows
    requires ahead { Ahead width left.more s.now left.next }
    requires lt_more { 16 < left.more }
    ensures { SixteenOn s.now left result }
{
    let first = left.next;
    let end = first.end;
    let mut at = first.at;
    let mut k: u32 = 0;
    while k < STRIDE {
        let last = at + width;
        if FOLLOWED <= s[last] {
            return sixteen_of_any(left, s, width);
        }
        let low = s[last + 1];
        if low < FOLLOWED {
            return sixteen_of_any(left, s, width);
        }
        let high = s[last + 2];
        if FOLLOWED <= high {
            return sixteen_of_any(left, s, width);
        }
        at = last + 3 + number_of(low, wide(high)) as usize;
        k += 1;
    }
    Rows {
        next: Cursor { at, end },
        more: left.more - STRIDE,
    }
}

// The same where all sixteen have short texts and no index takes more bytes than it has to, as nearly always: two bytes of
// each are looked at, in one test. At the first that is not so the way begins anew, and its width is worked out anew, so
// that nothing else is kept.
pub fn sixteen_on(left: Rows, s: &[u8], index: Index) -> Rows
    requires known { Known (rows sized left.more index.value) s.now left.next }
    requires wide { Wide index.width index.value }
    requires lt_more { 16 < left.more }
    ensures { SixteenOn s.now left result }
{
    let first = left.next;
    let end = first.end;
    let width = index.width;
    let mut at = first.at;
    let mut k: u32 = 0;
    while k < STRIDE {
        let last = at + width;
        let length = s[last + 1];
        if !((s[last] < FOLLOWED) & (length < FOLLOWED)) {
            return sixteen_of_long(left, s, width_of(index.value));
        }
        at = last + 2 + length as usize;
        k += 1;
    }
    Rows {
        next: Cursor { at, end },
        more: left.more - STRIDE,
    }
}
