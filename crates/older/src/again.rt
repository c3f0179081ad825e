// Hints of the older edition that were accepted, read again without their checks.
ghost use Rattle.format.specs.Older.{older_hint, older_entry};
ghost use Rattle.reading.specs.Standing.{Known};
ghost use Rattle.older.specs.Promises.{OlderHintHere, OlderFunctionHere};

use reading::Cursor;
use reading::again::{Number, number_here};

// A hint that was read, and the cursor behind it.
#[derive(Clone, Copy)]
pub struct HintHere {
    pub kind: u32,
    pub offset: u32,
    pub next: Cursor,
}

// The hint that stands here.
pub fn hint_here(c: Cursor, s: &[u8]) -> HintHere
    requires { Known older_hint s.now c }
    ensures { OlderHintHere c s.now result }
{
    let kind = number_here(c, s);
    let offset = number_here(kind.next, s);
    let next = offset.next;
    HintHere {
        kind: kind.value,
        offset: offset.value,
        next,
    }
}

// The function of the entry that stands here; behind it and its zero byte are the count of its hints, and these.
pub fn function_here(c: Cursor, s: &[u8]) -> Number
    requires { Known older_entry s.now c }
    ensures { OlderFunctionHere c s.now result }
{
    let function = number_here(c, s);
    let zero = function.next;
    let next = Cursor {
        at: zero.at + 1,
        end: zero.end,
    };
    Number {
        value: function.value,
        next,
    }
}
