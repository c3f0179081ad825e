// The calls that read a module as it arrives.
ghost use Rattle.wakemiono.specs.Calls.{WmStreamBegin, WmStreamPart, WmStreamFinish};

use stream::Stream;
use wakemiono::WmAnswer;
use wakemiono::arriving::WmStreamAnswer;

#[unsafe(no_mangle)]
pub extern "C" fn wm_stream_begin() -> Stream
    ensures { WmStreamBegin result }
{
    wakemiono::arriving::wm_stream_begin()
}

#[unsafe(no_mangle)]
pub extern "C" fn wm_stream_part(state: &mut Stream, part: &[u8]) -> WmAnswer
    ensures { WmStreamPart state.old part.now state.new result }
{
    wakemiono::arriving::wm_stream_part(state, part)
}

#[unsafe(no_mangle)]
pub extern "C" fn wm_stream_finish(state: &mut Stream) -> WmStreamAnswer
    ensures { WmStreamFinish state.old state.new result }
{
    wakemiono::arriving::wm_stream_finish(state)
}
