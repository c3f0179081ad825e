// Why a local of a function has no name.
ghost use Rattle.neighbours.specs.Promises.{NeighboursWhyLocal};

use crate::maps::entry_within;
use crate::{LOCAL_NAMES, Why};
use format::{Edition, FunctionIndex, LocalIndex, Refusal};
use names::judging::{find, judge};
use reading::Cursor;

// The payload is judged whole, then its groups of local names are gone through up to the function, and its group up to the local.
pub fn why_local(p: &[u8], function: FunctionIndex, local: LocalIndex) -> Result<Why, Refusal>
    ensures { NeighboursWhyLocal p.now function local result }
{
    judge(p, Edition::First)?;
    match find(p, Cursor::over(p), LOCAL_NAMES) {
        None => Ok(Why::NoSubsection),
        Some(part) => Ok(entry_within(part, p, function.0, local.0)),
    }
}
