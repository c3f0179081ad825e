// The pieces that immediates and locals are made of.
ghost use Rattle.std.specs.Prelude.{◌≤◌, ◌≡◌};
ghost use Rattle.reading.specs.Cursors.{Inside};
ghost use Rattle.instructions.specs.Immediates;
ghost use Rattle.instructions.specs.Immediates.{is_value_type, is_block_type, is_last_of32, is_last_of64, is_of, byte_of};
ghost use Rattle.instructions.specs.Ways.{Goes, bytes_on};

use crate::Way;
use reading::Cursor;

// What one byte has to be.
#[derive(Clone, Copy)]
pub enum ByteKind {
    ValueType,
    BlockType,
    Zero,
    LastOf32,
    LastOf64,
}

// The value types, from f64 to i32.
const F64: u8 = 0x7C;

const I32: u8 = 0x7F;

// The type of a block without a result.
const EMPTY: u8 = 0x40;

const ZERO: u8 = 0x00;

// The fifth byte of a signed number has 4 bits of the 32, and so does the sign that its others repeat: 0 or 1.
const GREATEST_OF_32: u8 = 0x07;

const LEAST_OF_32: u8 = 0x78;

// Of 64 bits the tenth byte has the sign alone.
const NOT_NEGATIVE: u8 = 0x00;

const NEGATIVE: u8 = 0x7F;

// A byte from here on says that another follows.
const FOLLOWED: u8 = 0x80;

fn is_value_type(b: u8) -> bool
    ensures { result ≡ is_value_type b }
{
    if b < F64 {
        return false;
    }
    b <= I32
}

fn is_block_type(b: u8) -> bool
    ensures { result ≡ is_block_type b }
{
    if b == EMPTY {
        return true;
    }
    is_value_type(b)
}

fn is_last_of_32(b: u8) -> bool
    ensures { result ≡ is_last_of32 b }
{
    if b <= GREATEST_OF_32 {
        return true;
    }
    if b < LEAST_OF_32 {
        return false;
    }
    b < FOLLOWED
}

fn is_last_of_64(b: u8) -> bool
    ensures { result ≡ is_last_of64 b }
{
    if b == NOT_NEGATIVE {
        return true;
    }
    b == NEGATIVE
}

fn is_of(kind: ByteKind, b: u8) -> bool
    ensures { result ≡ is_of kind b }
{
    match kind {
        ByteKind::ValueType => is_value_type(b),
        ByteKind::BlockType => is_block_type(b),
        ByteKind::Zero => b == ZERO,
        ByteKind::LastOf32 => is_last_of_32(b),
        ByteKind::LastOf64 => is_last_of_64(b),
    }
}

// One byte of a kind.
pub fn byte_of(c: Cursor, s: &[u8], kind: ByteKind) -> Way
    requires { Inside s.now c }
    ensures { Goes (byte_of kind) s.now c result }
{
    let at = c.at;
    let end = c.end;
    if end <= at {
        return None;
    }
    if is_of(kind, s[at]) {
        return Some(Cursor { at: at + 1, end });
    }
    None
}

// So many bytes of any kind.
pub fn bytes_on(c: Cursor, n: usize) -> Way
    requires { c.at ≤ c.end }
    ensures { result ≡ bytes_on c n }
{
    let at = c.at;
    let end = c.end;
    if end - at < n {
        return None;
    }
    Some(Cursor { at: at + n, end })
}

// An index, or another unsigned number of 32 bits.
pub fn index(c: Cursor, s: &[u8]) -> Way
    requires { Inside s.now c }
    ensures { Goes Immediates.index s.now c result }
{
    let Ok((_, next, _)) = c.number(s) else {
        return None;
    };
    Some(next)
}

// So many of them.
pub fn indices(c: Cursor, s: &[u8], n: u32) -> Way
    requires { Inside s.now c }
    ensures { Goes (Immediates.indices n) s.now c result }
{
    let mut next = c;
    for _ in 0..n {
        next = index(next, s)?;
    }
    Some(next)
}

// A signed number, of which so many bytes may follow the first; the one behind these is of a kind.
pub fn signed(c: Cursor, s: &[u8], following: u32, last: ByteKind) -> Way
    requires { Inside s.now c }
    ensures { Goes (Immediates.signed following last) s.now c result }
{
    let end = c.end;
    let mut i = c.at;
    let mut more = following;
    while 0 < more {
        if end <= i {
            return None;
        }
        if s[i] < FOLLOWED {
            return Some(Cursor { at: i + 1, end });
        }
        i = i + 1;
        more = more - 1;
    }
    byte_of(Cursor { at: i, end }, s, last)
}
