// The contents of a subsection that was accepted: what is left of them, and written in their fewest bytes.
ghost use Rattle.std.specs.Prelude.{Some};
ghost use Rattle.format.specs.Names.{one_name, name_map, indirect_map};
ghost use Rattle.names.specs.Contents.{kind_meant};
ghost use Rattle.rewrite.specs.Contents.{KnownContent, Trims, FitsContent, Counted, PutsContent};

use crate::whole::put_whole;
use copying::{groups_length, put_groups, put_part, put_rows, rows_length, sized_length};
use names::kinds::Kind;
use reading::Cursor;
use reading::again::{number_here, part_here};
use writing::{number_length, put_number};

// How long contents are, and how many entries or groups they begin by counting; one name and kept contents count none.
#[derive(Clone, Copy)]
pub struct Sizes {
    pub count: u32,
    pub length: usize,
}

// What is left of contents once nothing empty stays.
pub type Left = Option<Sizes>;

// One name stays, even if empty.
fn one_name_left(s: &[u8], part: Cursor) -> Left
    requires { KnownContent one_name s.now part }
    ensures { Trims one_name s.now part result }
{
    let name = part_here(part, s);
    let text = name.part;
    let length = sized_length(text.end - text.at);
    Some(Sizes { count: 0, length })
}

// A name map stays if it has entries.
fn name_map_left(s: &[u8], part: Cursor) -> Left
    requires { KnownContent name_map s.now part }
    ensures { Trims name_map s.now part result }
{
    let entries = number_here(part, s);
    let count = entries.value;
    if count == 0 {
        return None;
    }
    let rows = rows_length(entries.next, s, count);
    let before = number_length(count);
    let length = before + rows.length;
    Some(Sizes { count, length })
}

// An indirect map stays if one of its groups has entries.
fn indirect_map_left(s: &[u8], part: Cursor) -> Left
    requires { KnownContent indirect_map s.now part }
    ensures { Trims indirect_map s.now part result }
{
    let all = number_here(part, s);
    let groups = groups_length(all.next, s, all.value);
    let count = groups.kept;
    if count == 0 {
        return None;
    }
    let before = number_length(count);
    let length = before + groups.length;
    Some(Sizes { count, length })
}

// What is left of contents of a kind. Kept contents stay as they are.
pub fn content_left(s: &[u8], part: Cursor, kind: Kind) -> Left
    requires { KnownContent (kind_meant kind) s.now part }
    ensures { Trims (kind_meant kind) s.now part result }
{
    match kind {
        Kind::OneName => one_name_left(s, part),
        Kind::NameMap => name_map_left(s, part),
        Kind::IndirectMap => indirect_map_left(s, part),
        Kind::Kept => {
            let length = part.end - part.at;
            Some(Sizes { count: 0, length })
        }
    }
}

// The one name.
fn put_one_name(out: &mut [u8], at: usize, s: &[u8], part: Cursor) -> usize
    requires { FitsContent one_name s.now part out.old at }
    ensures { PutsContent one_name s.now part out.old out.new at result }
{
    let name = part_here(part, s);
    let text = name.part;
    put_part(out, at, text, s)
}

// A name map that has entries.
fn put_name_map(out: &mut [u8], at: usize, s: &[u8], part: Cursor) -> usize
    requires { FitsContent name_map s.now part out.old at }
    ensures { PutsContent name_map s.now part out.old out.new at result }
{
    let entries = number_here(part, s);
    let rows = put_number(out, at, entries.value);
    let all = put_rows(out, rows, entries.next, s, entries.value);
    all.at
}

// An indirect map of which so many groups have entries.
fn put_indirect_map(out: &mut [u8], at: usize, s: &[u8], part: Cursor, kept: u32) -> usize
    requires fits_content { FitsContent indirect_map s.now part out.old at }
    requires counted { Counted indirect_map s.now part kept }
    ensures { PutsContent indirect_map s.now part out.old out.new at result }
{
    let groups = number_here(part, s);
    let rows = put_number(out, at, kept);
    let all = put_groups(out, rows, groups.next, s, groups.value);
    all.at
}

// What is left of contents of a kind, row by row, with the count that was found when it was measured.
fn put_anew(out: &mut [u8], at: usize, s: &[u8], part: Cursor, kind: Kind, count: u32) -> usize
    requires fits_content { FitsContent (kind_meant kind) s.now part out.old at }
    requires counted { Counted (kind_meant kind) s.now part count }
    ensures { PutsContent (kind_meant kind) s.now part out.old out.new at result }
{
    match kind {
        Kind::OneName => put_one_name(out, at, s, part),
        Kind::NameMap => put_name_map(out, at, s, part),
        Kind::IndirectMap => put_indirect_map(out, at, s, part, count),
        Kind::Kept => put_whole(out, at, s, part),
    }
}

// What is left of contents of a kind, once it was measured. Where it is as long as they are, they are copied.
pub fn put_content(
    out: &mut [u8],
    at: usize,
    s: &[u8],
    part: Cursor,
    kind: Kind,
    sizes: Sizes,
) -> usize
    requires fits_content { FitsContent (kind_meant kind) s.now part out.old at }
    requires trims { Trims (kind_meant kind) s.now part (Some sizes) }
    ensures { PutsContent (kind_meant kind) s.now part out.old out.new at result }
{
    if sizes.length == part.end - part.at {
        return put_whole(out, at, s, part);
    }
    put_anew(out, at, s, part, kind, sizes.count)
}
