// The items of a metadata payload: data of any format, or hints.
ghost use Rattle.std.specs.Prelude.{[], ◌∷◌};
ghost use Rattle.entries.specs.Promises.{EntriesListMetadata, EntriesListHints};

use crate::hints::list_functions;
use crate::maps::list_groups;
use format::Answer;
use metadata::{judge, judge_hints};
use reading::Cursor;

// The payload is judged whole, and only then are the lists touched.
pub fn list_metadata(
    p: &[u8],
    firsts: &mut [u32],
    seconds: &mut [u32],
    offsets: &mut [u64],
    lengths: &mut [u64],
) -> Answer
    ensures { EntriesListMetadata p.now (firsts.old ∷ seconds.old ∷ offsets.old ∷ lengths.old ∷ []) (firsts.new ∷ seconds.new ∷ offsets.new ∷ lengths.new ∷ []) result }
{
    judge(p)?;
    list_groups(Cursor::over(p), p, firsts, seconds, offsets, lengths)
}

// So are hints.
pub fn list_hints(p: &[u8], firsts: &mut [u32], seconds: &mut [u32], likely: &mut [u32]) -> Answer
    ensures { EntriesListHints p.now (firsts.old ∷ seconds.old ∷ likely.old ∷ []) (firsts.new ∷ seconds.new ∷ likely.new ∷ []) result }
{
    judge_hints(p)?;
    list_functions(Cursor::over(p), p, firsts, seconds, likely)
}
