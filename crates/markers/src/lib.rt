// Markers beside large maps (K8): every sixteenth function entry, and the quick question that begins at one. The calls, in `making` and `asking`, take any bytes and any lists.
#![tactic(auto)]

pub mod asking;
mod looking;
pub mod making;
mod passing;

ghost use Rattle.std.specs.Prelude.{◌≡◌, Err};

use format::{Answer, Offset, Reason, Refusal};

// Of so many entries the first is marked.
const STRIDE: u32 = 16;

// Offsets in a payload of so many bytes or more may not have 32 bits.
const TOO_LONG: usize = 1 << 32;

// A refusal for a reason, at an offset, a position or a count.
fn refused(reason: Reason, at: usize) -> Answer
    ensures { result ≡ Err (record { reason = reason; offset = record { 0 = at } }) }
{
    Err(Refusal {
        reason,
        offset: Offset(at),
    })
}
