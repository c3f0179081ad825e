// K2: the calls of the older edition of hints, the payload of a section `branchHints`. Its offsets count from a function's first instruction, so they are a type of their own beneath. No call has a precondition.
ghost use Rattle.std.specs.Prelude.{[], ◌∷◌};
ghost use Rattle.wakemiono.specs.Calls.{WmOldHintsJudge, WmOldHint, WmOldHintIn, WmOldHintsCanonical, WmOldHintsIsCanonical, WmOldHintsList};

use crate::{WmAnswer, of_answer, of_hint, of_verdict, of_written, of_yes};
use format::{FunctionIndex, InstructionOffset};

pub fn wm_old_hints_judge(payload: &[u8]) -> WmAnswer
    ensures { WmOldHintsJudge payload.now result }
{
    of_verdict(older::judge(payload), payload.len())
}

pub fn wm_old_hint(payload: &[u8], function: u32, offset: u32) -> WmAnswer
    ensures { WmOldHint function offset payload.now result }
{
    of_hint(older::hint(payload, FunctionIndex(function), InstructionOffset(offset)))
}

// The same through a module.
pub fn wm_old_hint_in(bytes: &[u8], function: u32, offset: u32) -> WmAnswer
    ensures { WmOldHintIn function offset bytes.now result }
{
    of_hint(through::older_hint(bytes, FunctionIndex(function), InstructionOffset(offset)))
}

pub fn wm_old_hints_canonical(payload: &[u8], out: &mut [u8]) -> WmAnswer
    ensures { WmOldHintsCanonical payload.now out.old out.new result }
{
    of_written(reordering::canonical(payload, out))
}

pub fn wm_old_hints_is_canonical(payload: &[u8]) -> u32
    ensures { WmOldHintsIsCanonical payload.now result }
{
    of_yes(reordering::is_canonical(payload))
}

// Every pair once, by function and offset, with the hint that answers.
pub fn wm_old_hints_list(
    payload: &[u8],
    functions: &mut [u32],
    offsets: &mut [u32],
    likely: &mut [u32],
) -> WmAnswer
    ensures { WmOldHintsList payload.now (functions.old ∷ offsets.old ∷ likely.old ∷ []) (functions.new ∷ offsets.new ∷ likely.new ∷ []) result }
{
    of_answer(reordering::listing::list(payload, functions, offsets, likely))
}
