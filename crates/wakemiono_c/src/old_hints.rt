// The calls of the older edition of hints.
ghost use Rattle.std.specs.Prelude.{[], ◌∷◌};
ghost use Rattle.wakemiono.specs.Calls.{WmOldHintsJudge, WmOldHint, WmOldHintIn, WmOldHintsCanonical, WmOldHintsIsCanonical, WmOldHintsList};

use wakemiono::WmAnswer;

#[unsafe(no_mangle)]
pub extern "C" fn wm_old_hints_judge(payload: &[u8]) -> WmAnswer
    ensures { WmOldHintsJudge payload.now result }
{
    wakemiono::old_hints::wm_old_hints_judge(payload)
}

#[unsafe(no_mangle)]
pub extern "C" fn wm_old_hint(payload: &[u8], function: u32, offset: u32) -> WmAnswer
    ensures { WmOldHint function offset payload.now result }
{
    wakemiono::old_hints::wm_old_hint(payload, function, offset)
}

#[unsafe(no_mangle)]
pub extern "C" fn wm_old_hint_in(bytes: &[u8], function: u32, offset: u32) -> WmAnswer
    ensures { WmOldHintIn function offset bytes.now result }
{
    wakemiono::old_hints::wm_old_hint_in(bytes, function, offset)
}

#[unsafe(no_mangle)]
pub extern "C" fn wm_old_hints_canonical(payload: &[u8], out: &mut [u8]) -> WmAnswer
    ensures { WmOldHintsCanonical payload.now out.old out.new result }
{
    wakemiono::old_hints::wm_old_hints_canonical(payload, out)
}

#[unsafe(no_mangle)]
pub extern "C" fn wm_old_hints_is_canonical(payload: &[u8]) -> u32
    ensures { WmOldHintsIsCanonical payload.now result }
{
    wakemiono::old_hints::wm_old_hints_is_canonical(payload)
}

#[unsafe(no_mangle)]
pub extern "C" fn wm_old_hints_list(
    payload: &[u8],
    functions: &mut [u32],
    offsets: &mut [u32],
    likely: &mut [u32],
) -> WmAnswer
    ensures { WmOldHintsList payload.now (functions.old ∷ offsets.old ∷ likely.old ∷ []) (functions.new ∷ offsets.new ∷ likely.new ∷ []) result }
{
    wakemiono::old_hints::wm_old_hints_list(payload, functions, offsets, likely)
}
