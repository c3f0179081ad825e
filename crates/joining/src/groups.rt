// Two lists of groups as one, in its fewest bytes and without groups that have no entries.
ghost use Rattle.std.specs.Prelude.{◌+◌, ◌^◌, ◌<◌, ◌≡◌, length};
ghost use Rattle.copying.specs.Bytes.{group_length, one_if_some};
ghost use Rattle.format.specs.Numbers.{shortest};
ghost use Rattle.joining.specs.Merges.{ShortGroup, MeasuresGroup, ShortGroups, MeasuresGroups, RoomForGroup, PutsGroup, RoomForHeld, PutsHeld, RoomForGroups, PutsGroups};

use crate::maps::{merged_length, put_merged};
use crate::rows::{behind_taken, next_group, rows_of};
use reading::Cursor;
use tables::Held;
use tables::stepping::Rows;
use writing::{number_length, put_number};

// A number of so many or more takes five bytes, as the greatest that 32 bits hold; what has so many entries is too large.
const TOO_MANY: usize = 1 << 32;

const MOST_BYTES: usize = 5;

// How many groups have entries, and how long these are in their fewest bytes.
#[derive(Clone, Copy)]
pub struct MergedGroups {
    pub kept: usize,
    pub length: usize,
}

// One of the groups: one if it has entries, how long it is in its fewest bytes, and the cursors behind its map in each payload.
#[derive(Clone, Copy)]
pub struct OneGroup {
    pub one: usize,
    pub length: usize,
    pub left: Cursor,
    pub right: Cursor,
}

// Where the output goes on behind a group, and the cursors behind its map in each payload.
#[derive(Clone, Copy)]
pub struct PutGroup {
    pub at: usize,
    pub left: Cursor,
    pub right: Cursor,
}

// How many bytes a count takes at least.
pub fn count_length(count: usize) -> usize
    ensures { result ≡ length (shortest count) }
{
    if TOO_MANY <= count {
        return MOST_BYTES;
    }
    number_length(count as u32)
}

// How long a group is with its index and its count before it. Without entries it is left out.
fn group_length(index: u32, count: usize, rows: usize) -> usize
    requires { length (shortest index) + length (shortest count) + rows < 2 ^ 64 }
    ensures { result ≡ group_length index count rows }
{
    if count == 0 {
        return 0;
    }
    let key = number_length(index);
    let size = count_length(count);
    key + size + rows
}

// One for a group with entries.
fn one_if_some(count: usize) -> usize
    ensures { result ≡ one_if_some count }
{
    if count == 0 {
        return 0;
    }
    1
}

// How long the group of an index is, by where its map stands in each payload, if it does. Apart from the loop, whose turns stay small.
fn one_group_length(index: u32, first: Held, s: &[u8], second: Held, o: &[u8]) -> OneGroup
    requires { ShortGroup index s.now first o.now second }
    ensures { MeasuresGroup index s.now first o.now second result }
{
    let rows = merged_length(rows_of(first, s), s, rows_of(second, o), o);
    let length = group_length(index, rows.count, rows.length);
    let one = one_if_some(rows.count);
    let left = rows.left;
    let right = rows.right;
    OneGroup {
        one,
        length,
        left,
        right,
    }
}

// So many groups of the one, and so many of the other.
pub fn groups_length(left: Rows, s: &[u8], right: Rows, o: &[u8]) -> MergedGroups
    requires { ShortGroups s.now left o.now right }
    ensures { MeasuresGroups s.now left o.now right result }
{
    let mut ours = left;
    let mut theirs = right;
    let mut kept: usize = 0;
    let mut length: usize = 0;
    while let Some((index, first, second)) = next_group(ours, s, theirs, o) {
        let group = one_group_length(index, first, s, second, o);
        length = length + group.length;
        kept = kept + group.one;
        ours = behind_taken(ours, first, group.left);
        theirs = behind_taken(theirs, second, group.right);
    }
    MergedGroups { kept, length }
}

// A group with its index and its count before it. Without entries it is left out.
fn put_group(
    out: &mut [u8],
    at: usize,
    index: u32,
    count: usize,
    left: Rows,
    s: &[u8],
    right: Rows,
    o: &[u8],
) -> usize
    requires { RoomForGroup s.now left o.now right index count out.old at }
    ensures { PutsGroup s.now left o.now right index out.old out.new at result }
{
    if count == 0 {
        return at;
    }
    let size = put_number(out, at, index);
    let rows = put_number(out, size, count as u32);
    put_merged(out, rows, left, s, right, o)
}

// Writes the group of an index, by where its map stands in each payload, if it does. It is measured again for its count, which comes first.
fn put_one_group(
    out: &mut [u8],
    at: usize,
    index: u32,
    first: Held,
    s: &[u8],
    second: Held,
    o: &[u8],
) -> PutGroup
    requires { RoomForHeld index s.now first o.now second out.old at }
    ensures { PutsHeld index s.now first o.now second out.old out.new at result }
{
    let map = rows_of(first, s);
    let other = rows_of(second, o);
    let rows = merged_length(map, s, other, o);
    let next = put_group(out, at, index, rows.count, map, s, other, o);
    let left = rows.left;
    let right = rows.right;
    PutGroup {
        at: next,
        left,
        right,
    }
}

// The groups of both, one after the other.
pub fn put_groups(out: &mut [u8], at: usize, left: Rows, s: &[u8], right: Rows, o: &[u8]) -> usize
    requires { RoomForGroups s.now left o.now right out.old at }
    ensures { PutsGroups s.now left o.now right out.old out.new at result }
{
    let mut ours = left;
    let mut theirs = right;
    let mut to = at;
    while let Some((index, first, second)) = next_group(ours, s, theirs, o) {
        let group = put_one_group(out, to, index, first, s, second, o);
        to = group.at;
        ours = behind_taken(ours, first, group.left);
        theirs = behind_taken(theirs, second, group.right);
    }
    to
}
