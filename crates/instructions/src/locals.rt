// The locals that a function's body begins with.
ghost use Rattle.std.specs.Prelude.{◌<◌};
ghost use Rattle.reading.specs.Cursors.{Inside};
ghost use Rattle.instructions.specs.Locals.{local_groups};
ghost use Rattle.instructions.specs.Ways.{Goes};
ghost use Rattle.instructions.specs.Promises.{InstructionsLocals};

use crate::Way;
use crate::pieces::{ByteKind, byte_of};
use reading::Cursor;

// A body has fewer locals than this.
const TOO_MANY: u64 = 0x1_0000_0000;

// So many groups of locals of one type, each with how many they are.
fn groups(c: Cursor, s: &[u8], n: u32) -> Way
    requires { Inside s.now c }
    ensures { Goes (local_groups n 0) s.now c result }
{
    let mut next = c;
    let mut before: u64 = 0;
    for _ in 0..n {
        let Ok((count, d, _)) = next.number(s) else {
            return None;
        };
        let all = before + count as u64;
        if TOO_MANY <= all {
            return None;
        }
        next = byte_of(d, s, ByteKind::ValueType)?;
        before = all;
    }
    Some(next)
}

// The locals: how many groups, and so many.
pub fn locals(c: Cursor, s: &[u8]) -> Way
    requires { Inside s.now c }
    ensures { InstructionsLocals c s.now result }
{
    let Ok((n, d, _)) = c.number(s) else {
        return None;
    };
    groups(d, s, n)
}
