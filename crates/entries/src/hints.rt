// Hints, put into three lists: function and code offset, and the byte that says which it is.
ghost use Rattle.std.specs.Prelude.{◌+◌, ◌<◌, length, get_or, [], ◌∷◌, ◌≡◌};
ghost use Rattle.format.specs.Entries.{group_rows, hint_columns};
ghost use Rattle.format.specs.Parts.{sized};
ghost use Rattle.format.specs.Tables.{table};
ghost use Rattle.writing.specs.Columns.{Room};
ghost use Rattle.entries.specs.Putting.{OneByte, StoresHint, RowsFit, PutsRows, GroupsFit, PutsGroups};
ghost use Rattle.entries.specs.Listing.{KnownAll, ListsRows};

use crate::counting::{rows_in_groups, three_fit};
use crate::rows::Put;
use crate::{found, too_short};
use format::Answer;
use reading::{Cursor, wide};
use tables::stepping::{Rows, behind, group_step, row_step, rows_here};

// The byte that a hint is.
fn byte_of(part: Cursor, s: &[u8]) -> u32
    requires { part.at < length s.now }
    ensures { result ≡ get_or s.now part.at 0 }
{
    let at = part.at;
    wide(s[at])
}

// One hint.
fn put_hint(
    at: usize,
    first: u32,
    second: u32,
    byte: u32,
    firsts: &mut [u32],
    seconds: &mut [u32],
    likely: &mut [u32],
)
    requires { Room (at + 1) (firsts.old ∷ seconds.old ∷ likely.old ∷ []) }
    ensures { StoresHint at first second byte (firsts.old ∷ seconds.old ∷ likely.old ∷ []) (firsts.new ∷ seconds.new ∷ likely.new ∷ []) }
{
    firsts[at] = first;
    seconds[at] = second;
    likely[at] = byte;
}

// All hints of a function to come.
fn put_function(
    all: Rows,
    s: &[u8],
    first: u32,
    start: usize,
    firsts: &mut [u32],
    seconds: &mut [u32],
    likely: &mut [u32],
) -> Put
    requires { RowsFit OneByte s.now all start (firsts.old ∷ seconds.old ∷ likely.old ∷ []) }
    ensures { PutsRows hint_columns s.now all first start (firsts.old ∷ seconds.old ∷ likely.old ∷ []) (firsts.new ∷ seconds.new ∷ likely.new ∷ []) result }
{
    let mut left = all;
    let mut at = start;
    while let Some((second, part, next)) = row_step(left, s) {
        let byte = byte_of(part, s);
        put_hint(at, first, second, byte, firsts, seconds, likely);
        at += 1;
        left = behind(left, next);
    }
    let next = left.next;
    Put { at, next }
}

// The hints of all functions to come.
fn put_functions(all: Rows, s: &[u8], firsts: &mut [u32], seconds: &mut [u32], likely: &mut [u32])
    requires { GroupsFit OneByte s.now all (firsts.old ∷ seconds.old ∷ likely.old ∷ []) }
    ensures { PutsGroups hint_columns s.now all (firsts.old ∷ seconds.old ∷ likely.old ∷ []) (firsts.new ∷ seconds.new ∷ likely.new ∷ []) }
{
    let mut left = all;
    let mut at: usize = 0;
    while let Some((first, place)) = group_step(left, s) {
        let group = rows_here(place, s);
        let put = put_function(group, s, first, at, firsts, seconds, likely);
        at = put.at;
        left = behind(left, put.next);
    }
}

// The table of tables that stands here, of hints.
pub fn list_functions(
    c: Cursor,
    s: &[u8],
    firsts: &mut [u32],
    seconds: &mut [u32],
    likely: &mut [u32],
) -> Answer
    requires { KnownAll OneByte s.now c }
    ensures { ListsRows (table (table sized)) group_rows hint_columns s.now c (firsts.old ∷ seconds.old ∷ likely.old ∷ []) (firsts.new ∷ seconds.new ∷ likely.new ∷ []) result }
{
    let all = rows_here(c, s);
    let n = rows_in_groups(all, s);
    if three_fit(n, firsts.len(), seconds.len(), likely.len()) {
        put_functions(all, s, firsts, seconds, likely);
        return found(n);
    }
    too_short(n)
}
