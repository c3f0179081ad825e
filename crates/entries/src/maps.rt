// What a map, an indirect map or one name lists: counted first, then tested for room, then put.
ghost use Rattle.std.specs.Prelude.{[], ◌∷◌};
ghost use Rattle.format.specs.Entries.{plain_rows, group_rows, place_columns};
ghost use Rattle.format.specs.Parts.{sized};
ghost use Rattle.format.specs.Tables.{table};
ghost use Rattle.reading.specs.Standing.{Known};
ghost use Rattle.entries.specs.Putting.{AnyPart, GroupsFit, PutsGroups};
ghost use Rattle.entries.specs.Listing.{one_row, KnownAll, ListsRows};

use crate::counting::{four_fit, rows_in_groups};
use crate::rows::{put_row, put_rows};
use crate::{found, too_short};
use format::Answer;
use reading::Cursor;
use reading::again::part_here;
use tables::stepping::{Rows, behind, group_step, rows_here};

// The one name that stands here, which has no index.
pub fn list_one(
    c: Cursor,
    s: &[u8],
    firsts: &mut [u32],
    seconds: &mut [u32],
    offsets: &mut [u64],
    lengths: &mut [u64],
) -> Answer
    requires { Known sized s.now c }
    ensures { ListsRows sized one_row place_columns s.now c (firsts.old ∷ seconds.old ∷ offsets.old ∷ lengths.old ∷ []) (firsts.new ∷ seconds.new ∷ offsets.new ∷ lengths.new ∷ []) result }
{
    let name = part_here(c, s);
    if four_fit(1, firsts.len(), seconds.len(), offsets.len(), lengths.len()) {
        put_row(0, 0, 0, name.part, firsts, seconds, offsets, lengths);
        return found(1);
    }
    too_short(1)
}

// The map that stands here: a row's own index is its first, so that the lists of indices change places.
pub fn list_map(
    c: Cursor,
    s: &[u8],
    firsts: &mut [u32],
    seconds: &mut [u32],
    offsets: &mut [u64],
    lengths: &mut [u64],
) -> Answer
    requires { Known (table sized) s.now c }
    ensures { ListsRows (table sized) plain_rows place_columns s.now c (firsts.old ∷ seconds.old ∷ offsets.old ∷ lengths.old ∷ []) (firsts.new ∷ seconds.new ∷ offsets.new ∷ lengths.new ∷ []) result }
{
    let all = rows_here(c, s);
    let n = all.more as usize;
    if four_fit(n, firsts.len(), seconds.len(), offsets.len(), lengths.len()) {
        put_rows(all, s, 0, 0, seconds, firsts, offsets, lengths);
        return found(n);
    }
    too_short(n)
}

// The rows of all groups to come.
fn put_groups(
    all: Rows,
    s: &[u8],
    firsts: &mut [u32],
    seconds: &mut [u32],
    offsets: &mut [u64],
    lengths: &mut [u64],
)
    requires { GroupsFit AnyPart s.now all (firsts.old ∷ seconds.old ∷ offsets.old ∷ lengths.old ∷ []) }
    ensures { PutsGroups place_columns s.now all (firsts.old ∷ seconds.old ∷ offsets.old ∷ lengths.old ∷ []) (firsts.new ∷ seconds.new ∷ offsets.new ∷ lengths.new ∷ []) }
{
    let mut left = all;
    let mut at: usize = 0;
    while let Some((first, place)) = group_step(left, s) {
        let group = rows_here(place, s);
        let put = put_rows(group, s, first, at, firsts, seconds, offsets, lengths);
        at = put.at;
        left = behind(left, put.next);
    }
}

// The table of tables that stands here: an indirect map, or metadata.
pub fn list_groups(
    c: Cursor,
    s: &[u8],
    firsts: &mut [u32],
    seconds: &mut [u32],
    offsets: &mut [u64],
    lengths: &mut [u64],
) -> Answer
    requires { KnownAll AnyPart s.now c }
    ensures { ListsRows (table (table sized)) group_rows place_columns s.now c (firsts.old ∷ seconds.old ∷ offsets.old ∷ lengths.old ∷ []) (firsts.new ∷ seconds.new ∷ offsets.new ∷ lengths.new ∷ []) result }
{
    let all = rows_here(c, s);
    let n = rows_in_groups(all, s);
    if four_fit(n, firsts.len(), seconds.len(), offsets.len(), lengths.len()) {
        put_groups(all, s, firsts, seconds, offsets, lengths);
        return found(n);
    }
    too_short(n)
}
