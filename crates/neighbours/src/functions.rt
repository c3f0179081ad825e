// Why a function has no name.
ghost use Rattle.neighbours.specs.Promises.{NeighboursWhyFunction};

use crate::maps::entry;
use crate::{FUNCTION_NAMES, Why};
use format::{Edition, FunctionIndex, Refusal};
use names::judging::{find, judge};
use reading::Cursor;

// The payload is judged whole, then its map of function names is gone through up to the index.
pub fn why_function(p: &[u8], function: FunctionIndex) -> Result<Why, Refusal>
    ensures { NeighboursWhyFunction p.now function result }
{
    judge(p, Edition::First)?;
    match find(p, Cursor::over(p), FUNCTION_NAMES) {
        None => Ok(Why::NoSubsection),
        Some(part) => Ok(entry(part, p, FUNCTION_NAMES, function.0)),
    }
}
