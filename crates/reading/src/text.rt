// Valid UTF-8: each character is worked out from its bytes and compared with the limits, as the definition does.
ghost use Rattle.std.specs.Prelude.{◌≡◌, ◌≤◌, ◌<◌, ◌+◌, length, get_or};
ghost use Rattle.format.specs.Text.{is_later, with_later};
ghost use Rattle.reading.specs.Promises.{ReadingIsText};
ghost use Rattle.reading.specs.Texts.{Begins, Passes, Stands, two_complete, three_complete, four_complete};

use crate::ascii::{ASCII_END, BLOCK, after_ascii, after_each_block, are_four_ascii};

// No character is longer.
const LONGEST: usize = 4;

// A byte behind the first has so many values: six bits of the code point.
const LATER: u8 = 64;

// A byte behind a character's first begins with the bits 10.
fn is_later(b: u8) -> bool
    ensures { result ≡ is_later b }
{
    (0x80 <= b) & (b < 0xC0)
}

// The code point with the six bits of such a byte.
fn with_later(code: u32, b: u8) -> u32
    requires { code < 0x10000 }
    ensures { result ≡ with_later code b }
{
    code * LATER as u32 + (b % LATER) as u32
}

// Whether two bytes are a character. Of the first, the five low bits are those of the code point. Each form compares it with
// the limits that it can reach.
fn is_two(first: u8, b: u8) -> bool
    ensures { result ≡ two_complete first b }
{
    let code = with_later((first % 32) as u32, b);
    is_later(b) & (0x80 <= code)
}

// Three; of the first, the four low bits.
fn is_three(first: u8, b: u8, c: u8) -> bool
    ensures { result ≡ three_complete first b c }
{
    let code = with_later(with_later((first % 16) as u32, b), c);
    is_later(b) & (is_later(c) & ((0x800 <= code) & ((code < 0xD800) | (0xDFFF < code))))
}

// Four; of the first, the three low bits.
fn is_four(first: u8, b: u8, c: u8, d: u8) -> bool
    ensures { result ≡ four_complete first b c d }
{
    let code = with_later(with_later(with_later((first % 8) as u32, b), c), d);
    is_later(b) & (is_later(c) & (is_later(d) & ((0x10000 <= code) & (code <= 0x10FFFF))))
}

// A character of two bytes, by its first byte.
fn two(s: &[u8], i: usize, to: usize) -> usize
    requires { Begins s.now i to 0xC0 0xE0 }
    ensures { Stands s.now i to result }
{
    if to - i < 2 {
        return 0;
    }
    if is_two(s[i], s[i + 1]) {
        return 2;
    }
    0
}

// Of three bytes.
fn three(s: &[u8], i: usize, to: usize) -> usize
    requires { Begins s.now i to 0xE0 0xF0 }
    ensures { Stands s.now i to result }
{
    if to - i < 3 {
        return 0;
    }
    if is_three(s[i], s[i + 1], s[i + 2]) {
        return 3;
    }
    0
}

// Of four bytes.
fn four(s: &[u8], i: usize, to: usize) -> usize
    requires { Begins s.now i to 0xF0 0xF8 }
    ensures { Stands s.now i to result }
{
    if to - i < 4 {
        return 0;
    }
    if is_four(s[i], s[i + 1], s[i + 2], s[i + 3]) {
        return 4;
    }
    0
}

// How many bytes the character has that stands at `i`; 0 where none does.
fn character(s: &[u8], i: usize, to: usize) -> usize
    requires { (i < to) × (to ≤ length s.now) }
    ensures { Stands s.now i to result }
{
    let first = s[i];
    if first < 0x80 {
        return 1;
    }
    if first < 0xC0 {
        return 0;
    }
    if first < 0xE0 {
        return two(s, i, to);
    }
    if first < 0xF0 {
        return three(s, i, to);
    }
    if first < 0xF8 {
        return four(s, i, to);
    }
    0
}

// The same of several bytes, where no character can be cut short, so that none looks for the end.
fn whole(s: &[u8], i: usize, to: usize) -> usize
    requires i_bound { (i + 4 ≤ to) × (to ≤ length s.now) }
    requires bound { 0x80 ≤ get_or s.now i 0 }
    ensures { Stands s.now i to result }
{
    let first = s[i];
    if first < 0xE0 {
        if first < 0xC0 {
            return 0;
        }
        if is_two(first, s[i + 1]) {
            return 2;
        }
        return 0;
    }
    if first < 0xF0 {
        if is_three(first, s[i + 1], s[i + 2]) {
            return 3;
        }
        return 0;
    }
    if first < 0xF8 {
        if is_four(first, s[i + 1], s[i + 2], s[i + 3]) {
            return 4;
        }
    }
    0
}

// Behind an ASCII byte; where four begin a run, as far as it goes.
fn after_run(s: &[u8], i: usize, to: usize) -> usize
    requires i_bound { (i + 4 ≤ to) × (to ≤ length s.now) }
    requires le_to { 16 ≤ to }
    ensures { Passes s.now (i + 1) to result }
{
    if are_four_ascii(s, i) {
        return after_each_block(s, i + LONGEST, to);
    }
    i + 1
}

// As far as characters go, up to where one could be cut short. Before the first block's end none is looked at here.
fn after_characters(s: &[u8], from: usize, to: usize) -> usize
    requires { (from ≤ to) × (to ≤ length s.now) }
    ensures { Passes s.now from to result }
{
    if to < BLOCK {
        return from;
    }
    let last = to - LONGEST;
    let mut i = from;
    while i <= last {
        if s[i] < ASCII_END {
            i = after_run(s, i, to);
        } else {
            let n = whole(s, i, to);
            if n == 0 {
                return i;
            }
            i += n;
        }
    }
    i
}

// Whether the bytes from `from` to `to` are valid UTF-8. Most text is all ASCII.
pub fn is_text(s: &[u8], from: usize, to: usize) -> bool
    requires { (from ≤ to) × (to ≤ length s.now) }
    ensures { ReadingIsText s.now from to result }
{
    let near = after_ascii(s, from, to);
    if to <= near {
        return true;
    }
    let mut i = after_characters(s, near, to);
    while i < to {
        let n = character(s, i, to);
        if n == 0 {
            return false;
        }
        i += n;
    }
    true
}
