// Puts bytes into a lent output, one thing after the other: each function returns where the next one starts.
#![tactic(auto)]

ghost use Rattle.std.specs.Prelude.{◌≤◌, ◌<◌, ◌+◌, ◌≡◌, length};
ghost use Rattle.format.specs.Numbers.{shortest};
ghost use Rattle.writing.specs.Wrote.{Wrote};
ghost use Rattle.writing.specs.Promises.{WritingPutByte, WritingPutBytes, WritingPutLong, WritingPutDecimal, WritingNumberLength, WritingPutNumber};

// As many digits as the greatest 64-bit number has.
const MOST_DIGITS: usize = 20;

// How many bytes are copied together.
const BLOCK: usize = 128;

const TEN: u64 = 10;

// The digit 0 in ASCII: the others follow it.
const ZERO: u8 = b'0';

// A byte of a number holds seven bits; its eighth says that another follows.
const GROUP: u32 = 128;

const FOLLOWED: u8 = 128;

pub fn put_byte(out: &mut [u8], at: usize, b: u8) -> usize
    requires { at < length out.old }
    ensures { WritingPutByte out.old at b out.new result }
{
    out[at] = b;
    at + 1
}

pub fn put_bytes(out: &mut [u8], at: usize, bytes: &[u8]) -> usize
    requires { at + length bytes.now ≤ length out.old }
    ensures { WritingPutBytes out.old at bytes.now out.new result }
{
    let mut k = 0;
    while k < bytes.len() {
        out[at + k] = bytes[k];
        k += 1;
    }
    at + k
}

// A block. It goes through an array of this function, so that it is read whole before any of it is stored, and becomes wide
// moves without a loop.
fn put_block(out: &mut [u8], at: usize, bytes: &[u8]) -> usize
    requires bytes_len { length bytes.now ≡ 128 }
    requires at_in_bounds { at + 128 ≤ length out.old }
    ensures { Wrote out.old out.new at result bytes.now }
{
    let mut block = [0u8; BLOCK];
    put_bytes(&mut block, 0, bytes);
    put_bytes(out, at, &block)
}

// Bytes of which there may be many, a block at a time.
pub fn put_long(out: &mut [u8], at: usize, bytes: &[u8]) -> usize
    requires { at + length bytes.now ≤ length out.old }
    ensures { WritingPutLong out.old at bytes.now out.new result }
{
    let mut k = 0;
    while BLOCK <= bytes.len() - k {
        put_block(out, at + k, &bytes[k..k + BLOCK]);
        k += BLOCK;
    }
    put_bytes(out, at + k, &bytes[k..])
}

pub fn put_decimal(out: &mut [u8], at: usize, n: u64) -> usize
    requires { at + 20 ≤ length out.old }
    ensures { WritingPutDecimal out.old at n out.new result }
{
    // The last digit is found first, so the digits fill `text` from its end.
    let mut text = [0u8; MOST_DIGITS];
    let mut first = MOST_DIGITS - 1;
    let mut rest = n;
    while TEN <= rest {
        text[first] = ZERO + (rest % TEN) as u8;
        rest = rest / TEN;
        first -= 1;
    }
    text[first] = ZERO + rest as u8;
    put_bytes(out, at, &text[first..])
}

// How many bytes a number takes at least: one for each seven bits.
pub fn number_length(n: u32) -> usize
    ensures { WritingNumberLength n result }
{
    if n < 1 << 7 {
        return 1;
    }
    if n < 1 << 14 {
        return 2;
    }
    if n < 1 << 21 {
        return 3;
    }
    if n < 1 << 28 {
        return 4;
    }
    5
}

// A number in its fewest bytes.
pub fn put_number(out: &mut [u8], at: usize, n: u32) -> usize
    requires { at + length (shortest n) ≤ length out.old }
    ensures { WritingPutNumber out.old at n out.new result }
{
    let mut next = at;
    let mut rest = n;
    while GROUP <= rest {
        out[next] = FOLLOWED + (rest % GROUP) as u8;
        next += 1;
        rest = rest / GROUP;
    }
    out[next] = rest as u8;
    next + 1
}
