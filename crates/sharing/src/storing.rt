// A payload into blocks: 508 bytes each, zeros behind its end, and the check. And out of them again.
ghost use Rattle.std.specs.Prelude.{◌≡◌, ◌≤◌, ◌<◌, ◌+◌, ◌-◌, ◌*◌, min, length, take, drop, replicate};
ghost use Rattle.sharing.specs.Blocks.{little_endian, check, body, seal, scatter, join};
ghost use Rattle.sharing.specs.Blocks as blocks;
ghost use Rattle.sharing.specs.Marks.{SizeFits};
ghost use Rattle.sharing.specs.Table as table;
ghost use Rattle.writing.specs.Wrote.{Wrote};

use crate::blocks::{BLOCK, BODY, FOURTH, SECOND, THIRD, WORD_LIMIT, sum};
use writing::put_byte;

// A word in the order of its bytes, the least first.
fn put_word(out: &mut [u8], at: usize, n: u64) -> usize
    requires { at + 4 ≤ length out.old }
    ensures { Wrote out.old out.new at result (little_endian n) }
{
    let second = put_byte(&mut *out, at, (n % SECOND) as u8);
    let third = put_byte(&mut *out, second, (n / SECOND % SECOND) as u8);
    let fourth = put_byte(&mut *out, third, (n / THIRD % SECOND) as u8);
    put_byte(out, fourth, (n / FOURTH % SECOND) as u8)
}

// Zeros up to a place.
fn put_zeros(out: &mut [u8], at: usize, end: usize)
    requires at_le_end { at ≤ end }
    requires end_in_bounds { end ≤ length out.old }
    ensures { Wrote out.old out.new at end (replicate (end - at) 0) }
{
    let mut k = at;
    while k < end {
        out[k] = 0;
        k += 1;
    }
}

// So many bytes of what is lent, from one on.
pub fn put_part(out: &mut [u8], at: usize, s: &[u8], from: usize, count: usize) -> usize
    requires count_in_bounds { at + count ≤ length out.old }
    requires count_in_bounds_2 { from + count ≤ length s.now }
    ensures { Wrote out.old out.new at result (take count (drop from s.now)) }
{
    let mut k = 0;
    while k < count {
        out[at + k] = s[from + k];
        k += 1;
    }
    at + k
}

// How many of so many bytes a block keeps.
fn kept(n: usize) -> usize
    ensures { result ≡ min 508 n }
{
    if n < BODY {
        return n;
    }
    BODY
}

// What a block keeps of a payload from a byte on.
fn put_body(out: &mut [u8], at: usize, p: &[u8], from: usize)
    requires at_in_bounds { at + 508 ≤ length out.old }
    requires from_in_bounds { from ≤ length p.now }
    ensures { Wrote out.old out.new at (at + 508) (body (drop from p.now)) }
{
    let count = kept(p.len() - from);
    let behind = put_part(&mut *out, at, p, from, count);
    put_zeros(out, behind, at + BODY);
}

// The check of a block whose payload stands.
fn put_check(out: &mut [u8], at: usize) -> usize
    requires { at + 512 ≤ length out.old }
    ensures { Wrote out.old out.new (at + 508) result (check (take 508 (drop at out.old))) }
{
    let word = sum(&*out, at) % WORD_LIMIT;
    put_word(out, at + BODY, word)
}

// A block of a payload from a byte on.
fn put_block(out: &mut [u8], at: usize, p: &[u8], from: usize) -> usize
    requires at_in_bounds { at + 512 ≤ length out.old }
    requires from_in_bounds { from ≤ length p.now }
    ensures { Wrote out.old out.new at result (seal (drop from p.now)) }
{
    put_body(&mut *out, at, p, from);
    put_check(out, at)
}

// All blocks of a payload, from a block of the store on.
pub fn put_payload(store: &mut [u8], first: usize, q: &[u8])
    requires { SizeFits store.old first (length q.now) }
    ensures { Wrote store.old store.new (first * 512) ((first + blocks.need (length q.now)) * 512) (join (scatter q.now)) }
{
    let mut at = first * BLOCK;
    let mut from = 0;
    while BODY < q.len() - from {
        at = put_block(&mut *store, at, q, from);
        from += BODY;
    }
    put_block(store, at, q, from);
}

// A payload of a size out of its blocks, to the front of a buffer.
pub fn gather(into: &mut [u8], store: &[u8], first: usize, size: usize)
    requires size_fits { SizeFits store.now first size }
    requires size_in_bounds { size ≤ length into.old }
    ensures { Wrote into.old into.new 0 size (blocks.gather size (drop first (table.blocks store.now))) }
{
    let mut at = first * BLOCK;
    let mut from = 0;
    while BODY < size - from {
        put_part(&mut *into, from, store, at, BODY);
        from += BODY;
        at += BLOCK;
    }
    put_part(into, from, store, at, size - from);
}
