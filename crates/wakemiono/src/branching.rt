// K6: whether every hint of a module sits on br_if or if. The call has no precondition.
ghost use Rattle.wakemiono.specs.Calls.{WmHintsOnBranches};

use crate::{WmAnswer, of_verdict};

pub fn wm_hints_on_branches(bytes: &[u8]) -> WmAnswer
    ensures { WmHintsOnBranches bytes.now result }
{
    of_verdict(branches::hints_on_branches(bytes), bytes.len())
}
