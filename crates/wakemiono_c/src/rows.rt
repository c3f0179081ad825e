// Every entry in one pass.
ghost use Rattle.std.specs.Prelude.{[], ◌∷◌};
ghost use Rattle.wakemiono.specs.Calls.{WmNamesList, WmWideNamesList, WmMetadataList, WmHintsList};

use wakemiono::WmAnswer;

#[unsafe(no_mangle)]
pub extern "C" fn wm_names_list(
    payload: &[u8],
    id: u8,
    firsts: &mut [u32],
    seconds: &mut [u32],
    offsets: &mut [u64],
    lengths: &mut [u64],
) -> WmAnswer
    ensures { WmNamesList payload.now id (firsts.old ∷ seconds.old ∷ offsets.old ∷ lengths.old ∷ []) (firsts.new ∷ seconds.new ∷ offsets.new ∷ lengths.new ∷ []) result }
{
    wakemiono::rows::wm_names_list(payload, id, firsts, seconds, offsets, lengths)
}

#[unsafe(no_mangle)]
pub extern "C" fn wm_wide_names_list(
    payload: &[u8],
    id: u8,
    firsts: &mut [u32],
    seconds: &mut [u32],
    offsets: &mut [u64],
    lengths: &mut [u64],
) -> WmAnswer
    ensures { WmWideNamesList payload.now id (firsts.old ∷ seconds.old ∷ offsets.old ∷ lengths.old ∷ []) (firsts.new ∷ seconds.new ∷ offsets.new ∷ lengths.new ∷ []) result }
{
    wakemiono::rows::wm_wide_names_list(payload, id, firsts, seconds, offsets, lengths)
}

#[unsafe(no_mangle)]
pub extern "C" fn wm_metadata_list(
    payload: &[u8],
    functions: &mut [u32],
    places: &mut [u32],
    offsets: &mut [u64],
    lengths: &mut [u64],
) -> WmAnswer
    ensures { WmMetadataList payload.now (functions.old ∷ places.old ∷ offsets.old ∷ lengths.old ∷ []) (functions.new ∷ places.new ∷ offsets.new ∷ lengths.new ∷ []) result }
{
    wakemiono::rows::wm_metadata_list(payload, functions, places, offsets, lengths)
}

#[unsafe(no_mangle)]
pub extern "C" fn wm_hints_list(
    payload: &[u8],
    functions: &mut [u32],
    places: &mut [u32],
    likely: &mut [u32],
) -> WmAnswer
    ensures { WmHintsList payload.now (functions.old ∷ places.old ∷ likely.old ∷ []) (functions.new ∷ places.new ∷ likely.new ∷ []) result }
{
    wakemiono::rows::wm_hints_list(payload, functions, places, likely)
}
