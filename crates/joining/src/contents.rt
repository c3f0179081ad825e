// The contents of a subsection that one of the payloads has, or both: how long what is left of them is, and written in their fewest bytes.
ghost use Rattle.std.specs.Prelude.{◌+◌, ◌^◌, ◌<◌, ◌≡◌, length};
ghost use Rattle.format.specs.Names.{one_name, name_map, indirect_map, kept};
ghost use Rattle.format.specs.Numbers.{shortest};
ghost use Rattle.names.specs.Contents.{kind_meant};
ghost use Rattle.rewrite.specs.Contents.{KnownContent, FitsContent, PutsContent};
ghost use Rattle.joining.specs.Contents.{HeldContents, list_to_come, NameLeft, LeftOfBoth, FitsBoth, CountsBoth, PutsBothContents};

use crate::groups::{count_length, groups_length, put_groups};
use crate::maps::{merged_length, put_merged};
use crate::rows::rows_of;
use copying::{put_part, sized_length};
use names::kinds::Kind;
use reading::Cursor;
use reading::again::part_here;
use tables::Held;
use writing::{put_bytes, put_number};

// How long contents are, and how many entries or groups they begin by counting; one name and kept contents count none.
#[derive(Clone, Copy)]
pub struct Sizes {
    pub count: usize,
    pub length: usize,
}

// What is left of contents once nothing empty stays.
pub type Left = Option<Sizes>;

// A list with its count before it, if it has anything.
fn list_left(count: usize, rows: usize) -> Left
    requires { length (shortest count) + rows < 2 ^ 64 }
    ensures { result ≡ list_to_come count rows }
{
    if count == 0 {
        return None;
    }
    let before = count_length(count);
    let length = before + rows;
    Some(Sizes { count, length })
}

// Two name maps.
fn maps_left(s: &[u8], first: Held, o: &[u8], second: Held) -> Left
    requires { HeldContents name_map s.now first o.now second }
    ensures { LeftOfBoth name_map s.now first o.now second result }
{
    let rows = merged_length(rows_of(first, s), s, rows_of(second, o), o);
    list_left(rows.count, rows.length)
}

// Two indirect maps.
fn groups_left(s: &[u8], first: Held, o: &[u8], second: Held) -> Left
    requires { HeldContents indirect_map s.now first o.now second }
    ensures { LeftOfBoth indirect_map s.now first o.now second result }
{
    let groups = groups_length(rows_of(first, s), s, rows_of(second, o), o);
    list_left(groups.kept, groups.length)
}

// One name.
fn name_left(s: &[u8], part: Cursor) -> Left
    requires { KnownContent one_name s.now part }
    ensures { NameLeft s.now part result }
{
    let name = part_here(part, s);
    let text = name.part;
    let length = sized_length(text.end - text.at);
    Some(Sizes { count: 0, length })
}

// The separate payload's name, or else the own one's.
fn names_left(s: &[u8], first: Held, o: &[u8], second: Held) -> Left
    requires { HeldContents one_name s.now first o.now second }
    ensures { LeftOfBoth one_name s.now first o.now second result }
{
    match first {
        Some(part) => name_left(s, part),
        None => match second {
            Some(part) => name_left(o, part),
            None => None,
        },
    }
}

// Kept contents, likewise.
fn kept_left(s: &[u8], first: Held, o: &[u8], second: Held) -> Left
    requires { HeldContents kept s.now first o.now second }
    ensures { LeftOfBoth kept s.now first o.now second result }
{
    match first {
        Some(part) => {
            let length = part.end - part.at;
            Some(Sizes { count: 0, length })
        }
        None => match second {
            Some(part) => {
                let length = part.end - part.at;
                Some(Sizes { count: 0, length })
            }
            None => None,
        },
    }
}

// What is left of contents of a kind.
pub fn contents_left(kind: Kind, s: &[u8], first: Held, o: &[u8], second: Held) -> Left
    requires { HeldContents (kind_meant kind) s.now first o.now second }
    ensures { LeftOfBoth (kind_meant kind) s.now first o.now second result }
{
    match kind {
        Kind::OneName => names_left(s, first, o, second),
        Kind::NameMap => maps_left(s, first, o, second),
        Kind::IndirectMap => groups_left(s, first, o, second),
        Kind::Kept => kept_left(s, first, o, second),
    }
}

// Two name maps that have so many entries.
fn put_maps(
    out: &mut [u8],
    at: usize,
    s: &[u8],
    first: Held,
    o: &[u8],
    second: Held,
    count: usize,
) -> usize
    requires fits_both { FitsBoth name_map s.now first o.now second out.old at }
    requires counts_both { CountsBoth name_map s.now first o.now second count }
    ensures { PutsBothContents name_map s.now first o.now second out.old out.new at result }
{
    let left = rows_of(first, s);
    let right = rows_of(second, o);
    let rows = put_number(out, at, count as u32);
    put_merged(out, rows, left, s, right, o)
}

// Two indirect maps of which so many groups have entries.
fn put_indirect(
    out: &mut [u8],
    at: usize,
    s: &[u8],
    first: Held,
    o: &[u8],
    second: Held,
    count: usize,
) -> usize
    requires fits_both { FitsBoth indirect_map s.now first o.now second out.old at }
    requires counts_both { CountsBoth indirect_map s.now first o.now second count }
    ensures { PutsBothContents indirect_map s.now first o.now second out.old out.new at result }
{
    let left = rows_of(first, s);
    let right = rows_of(second, o);
    let rows = put_number(out, at, count as u32);
    put_groups(out, rows, left, s, right, o)
}

// One name.
fn put_name(out: &mut [u8], at: usize, s: &[u8], part: Cursor) -> usize
    requires { FitsContent one_name s.now part out.old at }
    ensures { PutsContent one_name s.now part out.old out.new at result }
{
    let name = part_here(part, s);
    let text = name.part;
    put_part(out, at, text, s)
}

// The separate payload's name, or else the own one's.
fn put_names(out: &mut [u8], at: usize, s: &[u8], first: Held, o: &[u8], second: Held) -> usize
    requires { FitsBoth one_name s.now first o.now second out.old at }
    ensures { PutsBothContents one_name s.now first o.now second out.old out.new at result }
{
    match first {
        Some(part) => put_name(out, at, s, part),
        None => match second {
            Some(part) => put_name(out, at, o, part),
            // never asked for
            None => at,
        },
    }
}

// Kept contents, as they are.
fn put_kept(out: &mut [u8], at: usize, s: &[u8], first: Held, o: &[u8], second: Held) -> usize
    requires { FitsBoth kept s.now first o.now second out.old at }
    ensures { PutsBothContents kept s.now first o.now second out.old out.new at result }
{
    match first {
        Some(part) => {
            let from = part.at;
            let to = part.end;
            put_bytes(out, at, &s[from..to])
        }
        None => match second {
            Some(part) => {
                let from = part.at;
                let to = part.end;
                put_bytes(out, at, &o[from..to])
            }
            // never asked for
            None => at,
        },
    }
}

// What is left of contents of a kind, with the count that was found when it was measured.
pub fn put_contents(
    out: &mut [u8],
    at: usize,
    kind: Kind,
    s: &[u8],
    first: Held,
    o: &[u8],
    second: Held,
    count: usize,
) -> usize
    requires fits_both { FitsBoth (kind_meant kind) s.now first o.now second out.old at }
    requires counts_both { CountsBoth (kind_meant kind) s.now first o.now second count }
    ensures { PutsBothContents (kind_meant kind) s.now first o.now second out.old out.new at result }
{
    match kind {
        Kind::OneName => put_names(out, at, s, first, o, second),
        Kind::NameMap => put_maps(out, at, s, first, o, second, count),
        Kind::IndirectMap => put_indirect(out, at, s, first, o, second, count),
        Kind::Kept => put_kept(out, at, s, first, o, second),
    }
}
