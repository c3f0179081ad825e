// Which immediates stand behind an opcode.
ghost use Rattle.std.specs.Prelude.{◌≡◌};
ghost use Rattle.instructions.specs.Opcodes.{shape_of};

// The shapes that immediates have in core specification 1.0. Unknown is the shape of no instruction.
#[derive(Clone, Copy)]
pub enum Shape {
    Plain,
    Block,
    Index,
    Table,
    Indirect,
    Memory,
    Zero,
    Const32,
    Const64,
    Float32,
    Float64,
    Unknown,
}

// The shape by the opcode, in the order in which the specification lists opcodes.
pub fn shape_of(op: u8) -> Shape
    ensures { result ≡ shape_of op }
{
    match op {
        // unreachable, nop, else, end, return, drop, select
        0x00 | 0x01 | 0x05 | 0x0B | 0x0F | 0x1A..=0x1B => Shape::Plain,
        // block, loop, if
        0x02..=0x04 => Shape::Block,
        // br, br_if, call, and the accesses to locals and globals
        0x0C..=0x0D | 0x10 | 0x20..=0x24 => Shape::Index,
        // br_table
        0x0E => Shape::Table,
        // call_indirect
        0x11 => Shape::Indirect,
        // loads and stores
        0x28..=0x3E => Shape::Memory,
        // memory.size, memory.grow
        0x3F..=0x40 => Shape::Zero,
        // the constants
        0x41 => Shape::Const32,
        0x42 => Shape::Const64,
        0x43 => Shape::Float32,
        0x44 => Shape::Float64,
        // comparisons, arithmetic and conversions
        0x45..=0xBF => Shape::Plain,
        _ => Shape::Unknown,
    }
}
