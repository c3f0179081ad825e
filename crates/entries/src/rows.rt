// The rows of one map, put into four lists: two indices, and where the row's part lies.
ghost use Rattle.std.specs.Prelude.{◌+◌, ◌≤◌, [], ◌∷◌};
ghost use Rattle.format.specs.Entries.{place_columns};
ghost use Rattle.writing.specs.Columns.{Room};
ghost use Rattle.entries.specs.Putting.{AnyPart, Stores, RowsFit, PutsRows};

use reading::Cursor;
use tables::stepping::{Rows, behind, row_step};

// Where the lists go on, and the cursor behind what was put.
#[derive(Clone, Copy)]
pub struct Put {
    pub at: usize,
    pub next: Cursor,
}

// One row.
pub fn put_row(
    at: usize,
    first: u32,
    second: u32,
    part: Cursor,
    firsts: &mut [u32],
    seconds: &mut [u32],
    offsets: &mut [u64],
    lengths: &mut [u64],
)
    requires room { Room (at + 1) (firsts.old ∷ seconds.old ∷ offsets.old ∷ lengths.old ∷ []) }
    requires at_le_end { part.at ≤ part.end }
    ensures { Stores at first second part (firsts.old ∷ seconds.old ∷ offsets.old ∷ lengths.old ∷ []) (firsts.new ∷ seconds.new ∷ offsets.new ∷ lengths.new ∷ []) }
{
    let from = part.at;
    let length = part.end - from;
    firsts[at] = first;
    seconds[at] = second;
    offsets[at] = from as u64;
    lengths[at] = length as u64;
}

// All rows to come, under one first index: the second is the row's own.
pub fn put_rows(
    all: Rows,
    s: &[u8],
    first: u32,
    start: usize,
    firsts: &mut [u32],
    seconds: &mut [u32],
    offsets: &mut [u64],
    lengths: &mut [u64],
) -> Put
    requires { RowsFit AnyPart s.now all start (firsts.old ∷ seconds.old ∷ offsets.old ∷ lengths.old ∷ []) }
    ensures { PutsRows place_columns s.now all first start (firsts.old ∷ seconds.old ∷ offsets.old ∷ lengths.old ∷ []) (firsts.new ∷ seconds.new ∷ offsets.new ∷ lengths.new ∷ []) result }
{
    let mut left = all;
    let mut at = start;
    while let Some((second, part, next)) = row_step(left, s) {
        put_row(at, first, second, part, firsts, seconds, offsets, lengths);
        at += 1;
        left = behind(left, next);
    }
    let next = left.next;
    Put { at, next }
}
