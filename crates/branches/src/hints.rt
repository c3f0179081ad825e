// The hints of one function, in the order of their offsets, beside its body.
ghost use Rattle.std.specs.Prelude.{◌≤◌, ◌<◌};
ghost use Rattle.reading.specs.Cursors.{Inside};
ghost use Rattle.branches.specs.Sitting.{Ready, SitsFrom, SitsIn};

use crate::reads::refusal;
use crate::seats::{Reach, go_to};
use format::{Reason, Refusal};
use instructions::locals::locals;
use reading::Cursor;
use reading::again::{number_here, part_here};

// What the hints of a function come to: the cursor behind them, or the first that is refused.
pub type Sat = Result<Cursor, Refusal>;

// So many hints, from the first instruction of a body on: instructions and hints go forward together.
fn hints_from(rows: Cursor, n: u32, base: usize, code: Cursor, s: &[u8]) -> Sat
    requires ready { Ready s.now rows n }
    requires inside { Inside s.now code }
    requires base_le_at { base ≤ code.at }
    ensures { SitsFrom s.now rows n base code result }
{
    let mut next = rows;
    let mut here = code;
    for _ in 0..n {
        let at = next.at;
        let offset = number_here(next, s);
        let hint = part_here(offset.next, s);
        match go_to(here, base, offset.value, s) {
            Reach::Unreadable => {
                return Err(refusal(Reason::NotReadable, at));
            }
            Reach::Elsewhere => {
                return Err(refusal(Reason::NotOnBranch, at));
            }
            Reach::At(there) => {
                here = there;
                next = hint.next;
            }
        }
    }
    Ok(next)
}

// The same for a whole body: where its locals cannot be read, no hint of it can be placed.
pub fn hints_in(rows: Cursor, n: u32, body: Cursor, s: &[u8]) -> Sat
    requires ready { Ready s.now rows n }
    requires n_nonzero { 0 < n }
    requires inside { Inside s.now body }
    ensures { SitsIn s.now rows n body result }
{
    let Some(code) = locals(body, s) else {
        return Err(refusal(Reason::NotReadable, rows.at));
    };
    hints_from(rows, n, body.at, code, s)
}
