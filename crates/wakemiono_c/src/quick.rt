// Markers of every sixteenth function entry, and the quick question that begins at one.
ghost use Rattle.wakemiono.specs.Calls.{WmMarkers, WmQuickFunctionName};

use wakemiono::WmAnswer;

#[unsafe(no_mangle)]
pub extern "C" fn wm_markers(payload: &[u8], indices: &mut [u32], offsets: &mut [u32]) -> WmAnswer
    ensures { WmMarkers payload.now indices.old offsets.old indices.new offsets.new result }
{
    wakemiono::quick::wm_markers(payload, indices, offsets)
}

#[unsafe(no_mangle)]
pub extern "C" fn wm_quick_function_name(
    payload: &[u8],
    indices: &[u32],
    offsets: &[u32],
    end: u64,
    function: u32,
) -> WmAnswer
    ensures { WmQuickFunctionName payload.now indices.now offsets.now end function result }
{
    wakemiono::quick::wm_quick_function_name(payload, indices, offsets, end, function)
}
