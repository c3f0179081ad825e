// Every entry in one pass: all rows of a subsection or a payload, in order, put into lent lists. No call has a precondition.
ghost use Rattle.std.specs.Prelude.{[], ◌∷◌};
ghost use Rattle.wakemiono.specs.Calls.{WmNamesList, WmWideNamesList, WmMetadataList, WmHintsList};

use crate::{WmAnswer, of_answer};
use entries::items::{list_hints, list_metadata};
use entries::naming::list_names;
use format::Edition;

pub fn wm_names_list(
    payload: &[u8],
    id: u8,
    firsts: &mut [u32],
    seconds: &mut [u32],
    offsets: &mut [u64],
    lengths: &mut [u64],
) -> WmAnswer
    ensures { WmNamesList payload.now id (firsts.old ∷ seconds.old ∷ offsets.old ∷ lengths.old ∷ []) (firsts.new ∷ seconds.new ∷ offsets.new ∷ lengths.new ∷ []) result }
{
    of_answer(list_names(
        payload,
        Edition::First,
        id,
        firsts,
        seconds,
        offsets,
        lengths,
    ))
}

pub fn wm_wide_names_list(
    payload: &[u8],
    id: u8,
    firsts: &mut [u32],
    seconds: &mut [u32],
    offsets: &mut [u64],
    lengths: &mut [u64],
) -> WmAnswer
    ensures { WmWideNamesList payload.now id (firsts.old ∷ seconds.old ∷ offsets.old ∷ lengths.old ∷ []) (firsts.new ∷ seconds.new ∷ offsets.new ∷ lengths.new ∷ []) result }
{
    of_answer(list_names(
        payload,
        Edition::Wider,
        id,
        firsts,
        seconds,
        offsets,
        lengths,
    ))
}

pub fn wm_metadata_list(
    payload: &[u8],
    functions: &mut [u32],
    places: &mut [u32],
    offsets: &mut [u64],
    lengths: &mut [u64],
) -> WmAnswer
    ensures { WmMetadataList payload.now (functions.old ∷ places.old ∷ offsets.old ∷ lengths.old ∷ []) (functions.new ∷ places.new ∷ offsets.new ∷ lengths.new ∷ []) result }
{
    of_answer(list_metadata(payload, functions, places, offsets, lengths))
}

pub fn wm_hints_list(
    payload: &[u8],
    functions: &mut [u32],
    places: &mut [u32],
    likely: &mut [u32],
) -> WmAnswer
    ensures { WmHintsList payload.now (functions.old ∷ places.old ∷ likely.old ∷ []) (functions.new ∷ places.new ∷ likely.new ∷ []) result }
{
    of_answer(list_hints(payload, functions, places, likely))
}
