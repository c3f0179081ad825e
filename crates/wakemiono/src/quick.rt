// K8: markers of every sixteenth function entry, and the quick question that begins at one. No call has a precondition.
ghost use Rattle.wakemiono.specs.Calls.{WmMarkers, WmQuickFunctionName};

use crate::{WmAnswer, of_answer};
use format::FunctionIndex;

pub fn wm_markers(payload: &[u8], indices: &mut [u32], offsets: &mut [u32]) -> WmAnswer
    ensures { WmMarkers payload.now indices.old offsets.old indices.new offsets.new result }
{
    of_answer(markers::making::make(payload, indices, offsets))
}

pub fn wm_quick_function_name(
    payload: &[u8],
    indices: &[u32],
    offsets: &[u32],
    end: u64,
    function: u32,
) -> WmAnswer
    ensures { WmQuickFunctionName payload.now indices.now offsets.now end function result }
{
    of_answer(markers::asking::quick(payload, indices, offsets, end, FunctionIndex(function)))
}
