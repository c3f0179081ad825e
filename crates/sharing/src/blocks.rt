// A store in blocks of 512 bytes: 508 of payload, then the check, the sum of their 127 little-endian words in that byte order.
ghost use Rattle.std.specs.Prelude.{◌≡◌, ◌≤◌, ◌+◌, ◌/◌, length, take, drop};
ghost use Rattle.sharing.specs.Blocks.{words, are_all_right};
ghost use Rattle.sharing.specs.Blocks as blocks;
ghost use Rattle.sharing.specs.Table as table;
ghost use Rattle.sharing.specs.Words.{Byte, WordAt, RightAt};

pub const BLOCK: usize = 512;

pub const BODY: usize = 508;

const WORD: usize = 4;

const WORDS: usize = 127;

// What a byte counts in a word, by its place.
pub const SECOND: u64 = 1 << 8;

pub const THIRD: u64 = 1 << 16;

pub const FOURTH: u64 = 1 << 24;

// What a word is below.
pub const WORD_LIMIT: u64 = 1 << 32;

// A byte as a number: where a byte is read for its value, nothing is left to show of its range.
fn wide(x: u8) -> u64
    ensures { Byte x result }
{
    x as u64
}

// The little-endian word of the four bytes from `at` on.
fn word(s: &[u8], at: usize) -> u64
    requires { at + 4 ≤ length s.now }
    ensures { WordAt s.now at result }
{
    wide(s[at]) + SECOND * wide(s[at + 1]) + THIRD * wide(s[at + 2]) + FOURTH * wide(s[at + 3])
}

// The sum of the words of a block's payload.
pub fn sum(s: &[u8], at: usize) -> u64
    requires { at + 508 ≤ length s.now }
    ensures { result ≡ words (take 508 (drop at s.now)) }
{
    let mut total = 0;
    let mut k = 0;
    while k < WORDS {
        total += word(s, at + WORD * k);
        k += 1;
    }
    total
}

// Whether the check of a block is right.
fn is_right(s: &[u8], at: usize) -> bool
    requires { at + 512 ≤ length s.now }
    ensures { RightAt s.now at result }
{
    word(s, at + BODY) == sum(s, at) % WORD_LIMIT
}

// Whether so many blocks from one on, which are there, have right checks.
fn each_right(store: &[u8], first: usize, count: usize) -> bool
    requires { first + count ≤ length store.now / 512 }
    ensures { result ≡ are_all_right count (drop first (table.blocks store.now)) }
{
    let mut k = 0;
    while k < count {
        if is_right(store, (first + k) * BLOCK) {
            k += 1;
        } else {
            return false;
        }
    }
    true
}

// Whether so many blocks from one on are there, each with a right check.
pub fn all_right(store: &[u8], first: usize, count: usize) -> bool
    ensures { result ≡ are_all_right count (drop first (table.blocks store.now)) }
{
    let blocks = store.len() / BLOCK;
    if blocks < first {
        return count == 0;
    }
    if blocks - first < count {
        return false;
    }
    each_right(store, first, count)
}

// How many blocks a payload of a size takes: an empty one takes one too.
pub fn need(size: usize) -> usize
    ensures { result ≡ blocks.need size }
{
    if size == 0 {
        return 1;
    }
    (size - 1) / BODY + 1
}

// A size as the table has it.
pub fn as_size(size: u32) -> usize
    ensures { result ≡ size }
{
    size as usize
}
