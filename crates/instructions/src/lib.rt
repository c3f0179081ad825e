// K6: one instruction of a function's body, stepped over by the immediates of core specification 1.0, and the locals before the first.
#![tactic(auto)]

ghost use Rattle.reading.specs.Cursors.{Inside};
ghost use Rattle.instructions.specs.Immediates.{labels, indirect, memory, immediates};
ghost use Rattle.instructions.specs.Ways.{Goes};
ghost use Rattle.instructions.specs.Promises.{InstructionsStep};

use crate::pieces::{ByteKind, byte_of, bytes_on, index, indices, signed};
use crate::shapes::{Shape, shape_of};
use reading::Cursor;

pub mod locals;
mod pieces;
mod shapes;

// What reading a piece of a body comes to: the cursor behind it, or that version 1.0 cannot read it.
pub type Way = Option<Cursor>;

// How many bytes may follow the first of a signed number of 32 and of 64 bits.
const FOLLOWING_32: u32 = 4;

const FOLLOWING_64: u32 = 9;

// How many bytes a float of 32 and of 64 bits has.
const FLOAT_32: usize = 4;

const FLOAT_64: usize = 8;

// The labels of br_table: how many, so many, and the default.
fn labels_here(c: Cursor, s: &[u8]) -> Way
    requires { Inside s.now c }
    ensures { Goes labels s.now c result }
{
    let Ok((n, d, _)) = c.number(s) else {
        return None;
    };
    let default = indices(d, s, n)?;
    index(default, s)
}

// The type of call_indirect, and a zero byte for its table.
fn indirect_here(c: Cursor, s: &[u8]) -> Way
    requires { Inside s.now c }
    ensures { Goes indirect s.now c result }
{
    let table = index(c, s)?;
    byte_of(table, s, ByteKind::Zero)
}

// The alignment and the offset of a load or a store.
fn memory_here(c: Cursor, s: &[u8]) -> Way
    requires { Inside s.now c }
    ensures { Goes memory s.now c result }
{
    let offset = index(c, s)?;
    index(offset, s)
}

// What stands behind an opcode.
fn immediates_here(shape: Shape, c: Cursor, s: &[u8]) -> Way
    requires { Inside s.now c }
    ensures { Goes (immediates shape) s.now c result }
{
    match shape {
        Shape::Plain => Some(c),
        Shape::Block => byte_of(c, s, ByteKind::BlockType),
        Shape::Index => index(c, s),
        Shape::Table => labels_here(c, s),
        Shape::Indirect => indirect_here(c, s),
        Shape::Memory => memory_here(c, s),
        Shape::Zero => byte_of(c, s, ByteKind::Zero),
        Shape::Const32 => signed(c, s, FOLLOWING_32, ByteKind::LastOf32),
        Shape::Const64 => signed(c, s, FOLLOWING_64, ByteKind::LastOf64),
        Shape::Float32 => bytes_on(c, FLOAT_32),
        Shape::Float64 => bytes_on(c, FLOAT_64),
        Shape::Unknown => None,
    }
}

// The instruction that begins here.
pub fn step(c: Cursor, s: &[u8]) -> Way
    requires { Inside s.now c }
    ensures { InstructionsStep c s.now result }
{
    let at = c.at;
    let end = c.end;
    if end <= at {
        return None;
    }
    let shape = shape_of(s[at]);
    immediates_here(shape, Cursor { at: at + 1, end }, s)
}
