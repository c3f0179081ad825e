// The pieces of a line. Each function takes any bytes: what is not there is empty, or 0.
ghost use Rattle.std.specs.Prelude.{◌≤◌, length, ◌≡◌};

// So many numbers of a line are read.
pub const NUMBERS: usize = 16;

const SPACE: u8 = b' ';

const BAR: u8 = b'|';

const JOINT: u8 = b'_';

const TEN: u32 = 10;

const SIXTEEN: u32 = 16;

const BYTES: u32 = 256;

// Indices have 32 bits.
const TOO_LARGE: u64 = 1 << 32;

// The bytes from one place to another, or none where there are not so many.
pub fn part(s: &[u8], from: usize, to: usize) -> &[u8] {
    if from <= to {
        if to <= s.len() {
            return &s[from..to];
        }
    }
    &s[0..0]
}

// Where a byte stands next, or the end.
pub fn end_of(s: &[u8], from: usize, stop: u8) -> usize
    requires { from ≤ length s.now }
    ensures { (from ≤ result) × (result ≤ length s.now) }
{
    for at in from..s.len() {
        if s[at] == stop {
            return at;
        }
    }
    s.len()
}

// What stands before the first such byte: all, where there is none.
fn before(s: &[u8], stop: u8) -> &[u8] {
    part(s, 0, end_of(s, 0, stop))
}

// What stands behind it: nothing, where there is none.
fn behind(s: &[u8], stop: u8) -> &[u8] {
    let end = end_of(s, 0, stop);
    if end < s.len() {
        let next = end + 1;
        return &s[next..];
    }
    &s[0..0]
}

// The call of a line, its numbers, and the first and the second of its lists of bytes.
pub fn call(line: &[u8]) -> &[u8] {
    before(line, SPACE)
}

pub fn head(line: &[u8]) -> &[u8] {
    before(line, BAR)
}

pub fn first(line: &[u8]) -> &[u8] {
    before(behind(line, BAR), BAR)
}

pub fn second(line: &[u8]) -> &[u8] {
    behind(behind(line, BAR), BAR)
}

// The first word of a call's name, and the words behind it.
pub fn first_word(name: &[u8]) -> &[u8] {
    before(name, JOINT)
}

pub fn other_words(name: &[u8]) -> &[u8] {
    behind(name, JOINT)
}

// Whether two are the same bytes.
pub fn is(s: &[u8], word: &[u8]) -> bool {
    s == word
}

// Where a word stands in a list of words, counted from 0: behind the last, where it does not. So a group of calls is told apart by one call, and not by a comparison with each word.
pub fn which(word: &[u8], list: &[u8]) -> usize {
    let mut count = 0;
    let mut at = 0;
    while at < list.len() {
        let end = end_of(list, at, SPACE);
        if is(part(list, at, end), word) {
            return count;
        }
        count += 1;
        at = end + 1;
    }
    count
}

// A byte, or a space behind the last one.
fn byte_at(s: &[u8], at: usize) -> u8 {
    if at < s.len() {
        return s[at];
    }
    SPACE
}

// A digit's value, or 16 of what is none.
fn digit_of(b: u8) -> u32 {
    match b {
        b'0'..=b'9' => (b - b'0') as u32,
        b'a'..=b'f' => (b - b'a') as u32 + TEN,
        _ => SIXTEEN,
    }
}

// Whether the decimal digits end before a place.
fn is_end(s: &[u8], at: usize) -> bool {
    TEN <= digit_of(byte_at(s, at))
}

// A number with a digit more: the greatest there is, where it has no room for it.
fn with_digit(value: u32, digit: u32) -> u32 {
    let wider = value as u64 * TEN as u64 + digit as u64;
    if wider < TOO_LARGE {
        return wider as u32;
    }
    u32::MAX
}

// The byte of two digits.
fn byte_of(high: u32, low: u32) -> u8 {
    (high % SIXTEEN * SIXTEEN + low % SIXTEEN) as u8
}

// A number, or a byte, put where there is a place left, and the next place.
fn put_number(out: &mut [u32], at: usize, n: u32) -> usize
    ensures { length out.new ≡ length out.old }
{
    if at < out.len() {
        out[at] = n;
        return at + 1;
    }
    at
}

fn put_byte(out: &mut [u8], at: usize, b: u8) -> usize
    ensures { length out.new ≡ length out.old }
{
    if at < out.len() {
        out[at] = b;
        return at + 1;
    }
    at
}

// The decimal numbers of a line, and how many they are: whatever is no digit stands between them.
pub fn numbers(s: &[u8], out: &mut [u32]) -> usize {
    let mut count = 0;
    let mut value = 0;
    for at in 0..s.len() {
        let digit = digit_of(s[at]);
        if digit < TEN {
            value = with_digit(value, digit);
            if is_end(s, at + 1) {
                count = put_number(out, count, value);
                value = 0;
            }
        }
    }
    count
}

// The bytes of a list of hexadecimal digits, two a byte, and how many they are: whatever is no digit stands between them.
pub fn bytes(s: &[u8], out: &mut [u8]) -> usize {
    let mut count = 0;
    let mut high = SIXTEEN;
    for b in s {
        let digit = digit_of(*b);
        if digit < SIXTEEN {
            if high == SIXTEEN {
                high = digit;
            } else {
                count = put_byte(out, count, byte_of(high, digit));
                high = SIXTEEN;
            }
        }
    }
    count
}

// A place that lies a number behind another.
pub fn place(from: u32, n: u32) -> usize {
    from as usize + n as usize
}

// A number as a position or an end.
pub fn wide(n: u32) -> u64 {
    n as u64
}

// A number as a byte: an id.
pub fn byte(n: u32) -> u8 {
    (n % BYTES) as u8
}
