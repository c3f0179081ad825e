// One canonical payload that answers as two (K3): the one that was sent apart, and the module's own. Maps are merged index by index, groups by function, and where both have something it is the separate payload's. The call takes any bytes.
#![tactic(auto)]

mod contents;
mod groups;
mod maps;
mod rows;
mod subsections;

ghost use Rattle.format.specs.Names.{kind_in, judge_names};
ghost use Rattle.format.specs.Reading.{Accepted};
ghost use Rattle.joining.specs.Roomy.{Roomy};
ghost use Rattle.joining.specs.Promises.{JoiningJoin};

use crate::subsections::{TOO_LARGE, put_both, put_joined};
use format::{Edition, JoinRefusal, JoinWritten, Whose};
use names::judging::judge;
use reading::Cursor;

// Whether an output is as long as both payloads, which have fewer bytes together than a subsection may have. Both as one are never longer, so that nothing has to be measured then.
fn is_roomy(first: usize, second: usize, room: usize) -> bool
    ensures { Roomy first second room result }
{
    if TOO_LARGE <= first {
        return false;
    }
    if TOO_LARGE - first <= second {
        return false;
    }
    first + second <= room
}

// The own payload is judged beside the separate one, which was accepted; then what both come to is measured, unless there is room for it anyhow, and only then is anything stored.
fn join_beside(separate: &[u8], own: &[u8], edition: Edition, out: &mut [u8]) -> JoinWritten
    requires { Accepted (judge_names (kind_in edition) 0) separate.now }
    ensures { JoiningJoin separate.now own.now edition out.old out.new result }
{
    if let Err(r) = judge(own, edition) {
        return Err(JoinRefusal::Payload(Whose::Own, r));
    }
    let first = Cursor::over(separate);
    let second = Cursor::over(own);
    if is_roomy(separate.len(), own.len(), out.len()) {
        let end = put_joined(out, separate, first, own, second, edition);
        return Ok(end);
    }
    put_both(separate, first, own, second, edition, out)
}

// Both are judged whole, the separate one first.
pub fn join(separate: &[u8], own: &[u8], edition: Edition, out: &mut [u8]) -> JoinWritten
    ensures { JoiningJoin separate.now own.now edition out.old out.new result }
{
    if let Err(r) = judge(separate, edition) {
        return Err(JoinRefusal::Payload(Whose::Separate, r));
    }
    join_beside(separate, own, edition, out)
}
