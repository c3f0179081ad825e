// Steps over ASCII, many bytes at a time: bytes are put together to words, which become one load each, and a word is ASCII
// where the highest bit of none of its bytes is set.
ghost use Rattle.std.specs.Prelude.{◌+◌, ◌*◌, ◌-◌, ◌≤◌, ◌<◌, ◌≡◌, length};
ghost use Rattle.format.specs.Numbers.{limit32};
ghost use Rattle.reading.specs.Texts.{Holds, SeesAscii, Passes};

// Every byte below this is a character of its own.
pub const ASCII_END: u8 = 0x80;

// Where the second byte, the third and the fifth begin in a word.
const SECOND: u32 = 1 << 8;

const THIRD: u32 = 1 << 16;

const FIFTH: u64 = 1 << 32;

// The highest bit of each byte.
const HIGHEST_OF_FOUR: u32 = 0x8080_8080;

const HIGHEST_OF_EIGHT: u64 = 0x8080_8080_8080_8080;

// How many bytes are looked at together, where so many are left.
const QUARTER: usize = 4;

const HALF: usize = 8;

pub const BLOCK: usize = 16;

const TWO_BLOCKS: usize = 32;

const BLOCKS: usize = 64;

// Two bytes as one number, the first the lowest.
fn two_bytes(low: u8, high: u8) -> u32
    ensures value { result ≡ low + high * 256 }
    ensures low_bound { low < 256 }
    ensures high_bound { high < 256 }
{
    low as u32 + high as u32 * SECOND
}

// Four.
fn four_bytes(s: &[u8], i: usize) -> u32
    requires { i + 4 ≤ length s.now }
    ensures holds { Holds s.now i result }
    ensures upper_bound { result < limit32 }
{
    let low = two_bytes(s[i], s[i + 1]);
    let high = two_bytes(s[i + 2], s[i + 3]);
    low + high * THIRD
}

pub fn are_four_ascii(s: &[u8], i: usize) -> bool
    requires { i + 4 ≤ length s.now }
    ensures { SeesAscii s.now i 4 result }
{
    four_bytes(s, i) & HIGHEST_OF_FOUR == 0
}

fn are_eight_ascii(s: &[u8], i: usize) -> bool
    requires { i + 8 ≤ length s.now }
    ensures { SeesAscii s.now i 8 result }
{
    let low = four_bytes(s, i) as u64;
    let high = four_bytes(s, i + QUARTER) as u64;
    let word = low + high * FIFTH;
    word & HIGHEST_OF_EIGHT == 0
}

fn is_block_ascii(s: &[u8], i: usize) -> bool
    requires { i + 16 ≤ length s.now }
    ensures { SeesAscii s.now i 16 result }
{
    are_eight_ascii(s, i) & are_eight_ascii(s, i + HALF)
}

fn are_two_blocks_ascii(s: &[u8], i: usize) -> bool
    requires { i + 32 ≤ length s.now }
    ensures { SeesAscii s.now i 32 result }
{
    is_block_ascii(s, i) & is_block_ascii(s, i + BLOCK)
}

fn are_blocks_ascii(s: &[u8], i: usize) -> bool
    requires { i + 64 ≤ length s.now }
    ensures { SeesAscii s.now i 64 result }
{
    are_two_blocks_ascii(s, i) & are_two_blocks_ascii(s, i + TWO_BLOCKS)
}

// Fewer bytes than a block: the first half and the last half of them, which may have bytes in common.
fn are_few_ascii(s: &[u8], from: usize, to: usize) -> bool
    requires from_le_to { (from ≤ to) × (to ≤ length s.now) }
    requires from_bound { to - from < 16 }
    ensures { SeesAscii s.now from (to - from) result }
{
    let n = to - from;
    if HALF <= n {
        return are_eight_ascii(s, from) & are_eight_ascii(s, to - HALF);
    }
    if QUARTER <= n {
        return are_four_ascii(s, from) & are_four_ascii(s, to - QUARTER);
    }
    if n == 0 {
        return true;
    }
    // at most three: the first, the one in the middle and the last
    (s[from] < ASCII_END) & (s[from + n / 2] < ASCII_END) & (s[to - 1] < ASCII_END)
}

// As far as four blocks at a time are ASCII.
fn after_blocks(s: &[u8], from: usize, to: usize) -> usize
    requires { (from ≤ to) × (to ≤ length s.now) }
    ensures { Passes s.now from to result }
{
    let mut i = from;
    while BLOCKS <= to - i {
        if !are_blocks_ascii(s, i) {
            return i;
        }
        i += BLOCKS;
    }
    i
}

// Behind a quarter of a block, if it is ASCII.
fn after_quarter(s: &[u8], from: usize, to: usize) -> usize
    requires { (from + 4 ≤ to) × (to ≤ length s.now) }
    ensures { Passes s.now from to result }
{
    if are_four_ascii(s, from) {
        return from + QUARTER;
    }
    from
}

// Behind half a block, if it is ASCII.
fn after_half(s: &[u8], from: usize, to: usize) -> usize
    requires { (from + 8 ≤ to) × (to ≤ length s.now) }
    ensures passes { Passes s.now from to result }
    ensures upper_bound { result ≤ from + 8 }
{
    if are_eight_ascii(s, from) {
        return from + HALF;
    }
    from
}

// As far as a block that is not all ASCII is so, but for at most three bytes.
fn within_block(s: &[u8], from: usize, to: usize) -> usize
    requires { (from + 16 ≤ to) × (to ≤ length s.now) }
    ensures { Passes s.now from to result }
{
    let half = after_half(s, from, to);
    after_quarter(s, half, to)
}

// As far as one block at a time is ASCII. The last block may have bytes of the one before it.
pub fn after_each_block(s: &[u8], from: usize, to: usize) -> usize
    requires from_le_to { (from ≤ to) × (to ≤ length s.now) }
    requires le_to { 16 ≤ to }
    ensures { Passes s.now from to result }
{
    let last = to - BLOCK;
    let mut i = from;
    while i < last {
        if !is_block_ascii(s, i) {
            return within_block(s, i, to);
        }
        i += BLOCK;
    }
    if is_block_ascii(s, last) {
        return to;
    }
    if QUARTER <= to - i {
        return after_quarter(s, i, to);
    }
    i
}

// Where the ASCII that begins at `from` ends, as far as blocks tell.
pub fn after_ascii(s: &[u8], from: usize, to: usize) -> usize
    requires { (from ≤ to) × (to ≤ length s.now) }
    ensures { Passes s.now from to result }
{
    if to - from < BLOCK {
        if are_few_ascii(s, from, to) {
            return to;
        }
        return from;
    }
    let near = after_blocks(s, from, to);
    after_each_block(s, near, to)
}
