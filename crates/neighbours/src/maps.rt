// An index in a map that was accepted: its position, or its neighbours. Numbers rise, so the way ends at the first that is not below the index.
ghost use Rattle.format.specs.Parts.{sized};
ghost use Rattle.format.specs.Tables.{table};
ghost use Rattle.reading.specs.Standing.{Known};
ghost use Rattle.neighbours.specs.Maps.{SaysInMap, SaysInGroup};

use crate::{LOCAL_NAMES, Why};
use reading::Cursor;
use tables::finding::behind_table;
use tables::stepping::{behind, group_step, row_step, rows_here};

// The index `key` in the map that stands here, in the subsection with an id.
pub fn entry(c: Cursor, s: &[u8], id: u8, key: u32) -> Why
    requires { Known (table sized) s.now c }
    ensures { SaysInMap id key s.now c result }
{
    let mut left = rows_here(c, s);
    let mut below = None;
    let mut position: u32 = 0;
    while let Some((k, _, next)) = row_step(left, s) {
        if key <= k {
            if key == k {
                return Why::Named(id, position);
            }
            return Why::NoEntry(below, Some(k));
        }
        below = Some(k);
        position = position + 1;
        left = behind(left, next);
    }
    Why::NoEntry(below, None)
}

// The index `inner` in the map of the group `key`, among the groups that stand here.
pub fn entry_within(c: Cursor, s: &[u8], key: u32, inner: u32) -> Why
    requires { Known (table (table sized)) s.now c }
    ensures { SaysInGroup key inner s.now c result }
{
    let mut left = rows_here(c, s);
    while let Some((k, place)) = group_step(left, s) {
        if key <= k {
            if key == k {
                return entry(place, s, LOCAL_NAMES, inner);
            }
            return Why::NoGroup;
        }
        let next = behind_table(place, s);
        left = behind(left, next);
    }
    Why::NoGroup
}
