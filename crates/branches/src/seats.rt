// What stands at an offset of a body, from the beginning of an instruction on.
ghost use Rattle.std.specs.Prelude.{◌≤◌, ◌≡◌};
ghost use Rattle.reading.specs.Cursors.{Inside};
ghost use Rattle.branches.specs.Bodies.{is_branch};
ghost use Rattle.branches.specs.Seats.{arrived_at, ReachesTo};

use instructions::step;
use reading::Cursor;

const IF: u8 = 0x04;

const BR_IF: u8 = 0x0D;

// A branch begins there, which is where the next hint is looked for; or what a hint is refused for.
#[derive(Clone, Copy)]
pub enum Reach {
    At(Cursor),
    Unreadable,
    Elsewhere,
}

fn is_branch(op: u8) -> bool
    ensures { result ≡ is_branch op }
{
    if op == IF {
        return true;
    }
    op == BR_IF
}

// At the hinted place, where an instruction begins with this opcode.
fn arrived(here: Cursor, op: u8) -> Reach
    ensures { result ≡ arrived_at here op }
{
    if is_branch(op) {
        return Reach::At(here);
    }
    Reach::Elsewhere
}

// The offset counts from `base`, the body's first byte. Instructions are stepped over up to it, and the one there is not.
pub fn go_to(code: Cursor, base: usize, offset: u32, s: &[u8]) -> Reach
    requires inside { Inside s.now code }
    requires base_le_at { base ≤ code.at }
    ensures { ReachesTo s.now code base offset result }
{
    let wanted = offset as usize;
    let mut here = code;
    loop {
        let at = here.at;
        if here.end <= at {
            return Reach::Elsewhere;
        }
        let gone = at - base;
        if wanted < gone {
            return Reach::Elsewhere;
        }
        // not past it, and so there
        if wanted <= gone {
            return arrived(here, s[at]);
        }
        let Some(next) = step(here, s) else {
            return Reach::Unreadable;
        };
        here = next;
    }
}
