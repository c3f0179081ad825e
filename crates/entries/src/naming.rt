// One subsection of a name payload, by its id.
ghost use Rattle.std.specs.Prelude.{[], ◌∷◌};
ghost use Rattle.names.specs.Contents.{kind_meant};
ghost use Rattle.entries.specs.Listing.{KnownContents, ListsContents};
ghost use Rattle.entries.specs.Promises.{EntriesListNames};

use crate::maps::{list_groups, list_map, list_one};
use format::{Answer, Edition};
use names::judging::{find, judge};
use names::kinds::{Kind, kind_of};
use reading::Cursor;

// The contents there, by their kind. What is kept is not looked into, and has no rows.
fn list_contents(
    kind: Kind,
    part: Cursor,
    s: &[u8],
    firsts: &mut [u32],
    seconds: &mut [u32],
    offsets: &mut [u64],
    lengths: &mut [u64],
) -> Answer
    requires { KnownContents (kind_meant kind) s.now part }
    ensures { ListsContents (kind_meant kind) s.now part (firsts.old ∷ seconds.old ∷ offsets.old ∷ lengths.old ∷ []) (firsts.new ∷ seconds.new ∷ offsets.new ∷ lengths.new ∷ []) result }
{
    match kind {
        Kind::OneName => list_one(part, s, firsts, seconds, offsets, lengths),
        Kind::NameMap => list_map(part, s, firsts, seconds, offsets, lengths),
        Kind::IndirectMap => list_groups(part, s, firsts, seconds, offsets, lengths),
        Kind::Kept => Ok(None),
    }
}

// The payload is judged whole, and only then is the subsection looked for.
pub fn list_names(
    p: &[u8],
    edition: Edition,
    id: u8,
    firsts: &mut [u32],
    seconds: &mut [u32],
    offsets: &mut [u64],
    lengths: &mut [u64],
) -> Answer
    ensures { EntriesListNames p.now edition id (firsts.old ∷ seconds.old ∷ offsets.old ∷ lengths.old ∷ []) (firsts.new ∷ seconds.new ∷ offsets.new ∷ lengths.new ∷ []) result }
{
    judge(p, edition)?;
    match find(p, Cursor::over(p), id) {
        None => Ok(None),
        Some(part) => {
            let kind = kind_of(edition, id);
            list_contents(kind, part, p, firsts, seconds, offsets, lengths)
        }
    }
}
