// Tables that were accepted, in their fewest bytes: how long they are then, and written into an output.
#![tactic(auto)]

ghost use Rattle.std.specs.Prelude.{◌+◌, ◌^◌, ◌<◌, ◌≡◌, length};
ghost use Rattle.format.specs.Numbers.{shortest, limit32};
ghost use Rattle.format.specs.Parts.{sized};
ghost use Rattle.format.specs.Tables.{rows, table};
ghost use Rattle.copying.specs.Standing.{FitsPart, Fits, Puts};
ghost use Rattle.copying.specs.Bytes.{rows_of, group_of, group_length, one_if_some, groups_of};
ghost use Rattle.reading.specs.Standing.{Known};
ghost use Rattle.copying.specs.Promises.{CopyingSizedLength, CopyingRowsLength, CopyingGroupsLength, CopyingPutPart, CopyingPutRows, CopyingPutGroups};

use reading::Cursor;
use tables::stepping::{Rows, behind, group_step, row_step, rows_here};
use writing::{number_length, put_bytes, put_number};

// How long something is in its fewest bytes, and the cursor behind it.
#[derive(Clone, Copy)]
pub struct Measured {
    pub length: usize,
    pub next: Cursor,
}

// How many groups have entries, how long these are in their fewest bytes, and the cursor behind all groups.
#[derive(Clone, Copy)]
pub struct Groups {
    pub kept: u32,
    pub length: usize,
    pub next: Cursor,
}

// Where the output goes on, and the cursor behind what was written.
#[derive(Clone, Copy)]
pub struct Put {
    pub at: usize,
    pub next: Cursor,
}

// How long a part is with its size before it.
pub fn sized_length(size: usize) -> usize
    requires { size < limit32 }
    ensures { CopyingSizedLength size result }
{
    number_length(size as u32) + size
}

// So many rows with parts.
pub fn rows_length(c: Cursor, s: &[u8], n: u32) -> Measured
    requires { Known (rows sized n 0) s.now c }
    ensures { CopyingRowsLength c s.now n result }
{
    let mut left = Rows { next: c, more: n };
    let mut length = 0;
    while let Some((index, part, next)) = row_step(left, s) {
        let key = number_length(index);
        let text = sized_length(part.end - part.at);
        length = length + key + text;
        left = behind(left, next);
    }
    let next = left.next;
    Measured { length, next }
}

// How long a group is with its index and its count before it. Without entries it is left out.
fn group_length(index: u32, count: u32, rows: usize) -> usize
    requires { length (shortest index) + length (shortest count) + rows < 2 ^ 64 }
    ensures { result ≡ group_length index count rows }
{
    if count == 0 {
        return 0;
    }
    let key = number_length(index);
    let size = number_length(count);
    key + size + rows
}

// One for a group with entries.
fn one_if_some(count: u32) -> u32
    ensures { result ≡ one_if_some count }
{
    if count == 0 {
        return 0;
    }
    1
}

// So many groups: lists of rows, each under an index.
pub fn groups_length(c: Cursor, s: &[u8], n: u32) -> Groups
    requires { Known (rows (table sized) n 0) s.now c }
    ensures { CopyingGroupsLength c s.now n result }
{
    let mut left = Rows { next: c, more: n };
    let mut kept: u32 = 0;
    let mut length = 0;
    while let Some((index, place)) = group_step(left, s) {
        let entries = rows_here(place, s);
        let count = entries.more;
        let rows = rows_length(entries.next, s, count);
        let group = group_length(index, count, rows.length);
        let one = one_if_some(count);
        length = length + group;
        kept = kept + one;
        left = behind(left, rows.next);
    }
    let next = left.next;
    Groups { kept, length, next }
}

// A part with its size before it.
pub fn put_part(out: &mut [u8], at: usize, part: Cursor, s: &[u8]) -> usize
    requires { FitsPart s.now part out.old at }
    ensures { CopyingPutPart out.old at part s.now out.new result }
{
    let from = part.at;
    let to = part.end;
    let size = to - from;
    let text = put_number(out, at, size as u32);
    put_bytes(out, text, &s[from..to])
}

// So many rows with parts.
pub fn put_rows(out: &mut [u8], at: usize, c: Cursor, s: &[u8], n: u32) -> Put
    requires { Fits (rows sized n 0) rows_of s.now c out.old at }
    ensures { CopyingPutRows out.old at c s.now n out.new result }
{
    let mut left = Rows { next: c, more: n };
    let mut to = at;
    while let Some((index, part, next)) = row_step(left, s) {
        let text = put_number(out, to, index);
        to = put_part(out, text, part, s);
        left = behind(left, next);
    }
    let next = left.next;
    Put { at: to, next }
}

// A group with its index and its count before it. Without entries it is left out.
fn put_group(out: &mut [u8], at: usize, index: u32, c: Cursor, s: &[u8], entries: u32) -> Put
    requires { Fits (rows sized entries 0) (group_of index) s.now c out.old at }
    ensures { Puts (rows sized entries 0) (group_of index) s.now c out.old out.new at result }
{
    if entries == 0 {
        return Put { at, next: c };
    }
    let size = put_number(out, at, index);
    let rows = put_number(out, size, entries);
    put_rows(out, rows, c, s, entries)
}

// So many groups.
pub fn put_groups(out: &mut [u8], at: usize, c: Cursor, s: &[u8], n: u32) -> Put
    requires { Fits (rows (table sized) n 0) groups_of s.now c out.old at }
    ensures { CopyingPutGroups out.old at c s.now n out.new result }
{
    let mut left = Rows { next: c, more: n };
    let mut to = at;
    while let Some((index, place)) = group_step(left, s) {
        let entries = rows_here(place, s);
        let group = put_group(out, to, index, entries.next, s, entries.more);
        to = group.at;
        left = behind(left, group.next);
    }
    let next = left.next;
    Put { at: to, next }
}
