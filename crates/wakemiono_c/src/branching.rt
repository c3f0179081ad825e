// Whether every hint of a module sits on br_if or if.
ghost use Rattle.wakemiono.specs.Calls.{WmHintsOnBranches};

use wakemiono::WmAnswer;

#[unsafe(no_mangle)]
pub extern "C" fn wm_hints_on_branches(bytes: &[u8]) -> WmAnswer
    ensures { WmHintsOnBranches bytes.now result }
{
    wakemiono::branching::wm_hints_on_branches(bytes)
}
