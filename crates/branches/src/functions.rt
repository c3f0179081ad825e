// The functions of an accepted hint payload, beside the bodies: both go forward, each once.
ghost use Rattle.branches.specs.Functions.{Opened, Turns, Listed, Checks};
ghost use Rattle.branches.specs.Lists.{Kept};

use crate::bodies::{Bodies, body_of};
use crate::hints::hints_in;
use crate::reads::refusal;
use format::{Reason, Refusal, Verdict};
use reading::Cursor;
use reading::again::number_here;

// One function and its hints: the cursor behind them, and the bodies behind its own. Without hints its body is not looked for.
fn one_function(next: Cursor, bodies: Bodies, s: &[u8]) -> Result<(Cursor, Bodies), Refusal>
    requires opened { Opened s.now next }
    requires kept { Kept s.now bodies }
    ensures { Turns s.now next bodies result }
{
    let at = next.at;
    let function = number_here(next, s);
    let count = number_here(function.next, s);
    let n = count.value;
    let rows = count.next;
    if n == 0 {
        return Ok((rows, bodies));
    }
    let Some((body, left)) = body_of(bodies, function.value, s) else {
        return Err(refusal(Reason::NoBody, at));
    };
    let after = hints_in(rows, n, body, s)?;
    Ok((after, left))
}

// All functions, in section order.
pub fn each_function(payload: Cursor, all: Bodies, s: &[u8]) -> Verdict
    requires listed { Listed s.now payload }
    requires kept { Kept s.now all }
    ensures { Checks s.now payload all result }
{
    let count = number_here(payload, s);
    let mut next = count.next;
    let mut more = count.value;
    let mut bodies = all;
    while 0 < more {
        let (after, left) = one_function(next, bodies, s)?;
        next = after;
        bodies = left;
        more = more - 1;
    }
    Ok(())
}
