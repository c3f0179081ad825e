// Two maps as one, in its fewest bytes: how long it is, and written into an output.
ghost use Rattle.joining.specs.Merges.{ShortMaps, MeasuresMaps, ShortAhead, FitsText, PutsText, FitsRow, PutsRow, RoomForMaps, PutsMaps, RoomAhead};

use crate::rows::{Ahead, next_row, onward, read_ahead};
use copying::{put_part, sized_length};
use format::Whose;
use reading::Cursor;
use tables::stepping::Rows;
use writing::{number_length, put_number};

// How many rows there are, how long they are in their fewest bytes, and the cursors behind the rows of each map.
#[derive(Clone, Copy)]
pub struct Merged {
    pub count: usize,
    pub length: usize,
    pub left: Cursor,
    pub right: Cursor,
}

// So many rows of the one, and so many of the other, the first of each read ahead.
fn ahead_length(left: Ahead, s: &[u8], right: Ahead, o: &[u8]) -> Merged
    requires { ShortAhead s.now left o.now right }
    ensures { MeasuresMaps s.now left.rows o.now right.rows result }
{
    let mut ours = left;
    let mut theirs = right;
    let mut count: usize = 0;
    let mut length: usize = 0;
    while let Some(row) = next_row(ours, theirs) {
        let part = row.part;
        let key = number_length(row.index);
        let text = sized_length(part.end - part.at);
        length = length + key + text;
        count = count + 1;
        ours = onward(ours, row.first, s);
        theirs = onward(theirs, row.second, o);
    }
    let left = ours.rows;
    let right = theirs.rows;
    let left = left.next;
    let right = right.next;
    Merged {
        count,
        length,
        left,
        right,
    }
}

// So many rows of the one, and so many of the other.
pub fn merged_length(left: Rows, s: &[u8], right: Rows, o: &[u8]) -> Merged
    requires { ShortMaps s.now left o.now right }
    ensures { MeasuresMaps s.now left o.now right result }
{
    let ours = read_ahead(left, s);
    let theirs = read_ahead(right, o);
    ahead_length(ours, s, theirs, o)
}

// A row's text with its size before it, of the payload that has it.
fn put_text(out: &mut [u8], at: usize, whose: Whose, part: Cursor, s: &[u8], o: &[u8]) -> usize
    requires { FitsText whose s.now o.now part out.old at }
    ensures { PutsText whose s.now o.now part out.old out.new at result }
{
    match whose {
        Whose::Separate => put_part(out, at, part, s),
        Whose::Own => put_part(out, at, part, o),
    }
}

// A row: its index, and its text.
fn put_row(
    out: &mut [u8],
    at: usize,
    index: u32,
    whose: Whose,
    part: Cursor,
    s: &[u8],
    o: &[u8],
) -> usize
    requires { FitsRow index whose s.now o.now part out.old at }
    ensures { PutsRow index whose s.now o.now part out.old out.new at result }
{
    let text = put_number(out, at, index);
    put_text(out, text, whose, part, s, o)
}

// The rows of both, one after the other, the first of each read ahead.
fn put_ahead(out: &mut [u8], at: usize, left: Ahead, s: &[u8], right: Ahead, o: &[u8]) -> usize
    requires { RoomAhead s.now left o.now right out.old at }
    ensures { PutsMaps s.now left.rows o.now right.rows out.old out.new at result }
{
    let mut ours = left;
    let mut theirs = right;
    let mut to = at;
    while let Some(row) = next_row(ours, theirs) {
        to = put_row(out, to, row.index, row.whose, row.part, s, o);
        ours = onward(ours, row.first, s);
        theirs = onward(theirs, row.second, o);
    }
    to
}

// The rows of both, one after the other.
pub fn put_merged(out: &mut [u8], at: usize, left: Rows, s: &[u8], right: Rows, o: &[u8]) -> usize
    requires { RoomForMaps s.now left o.now right out.old at }
    ensures { PutsMaps s.now left o.now right out.old out.new at result }
{
    let ours = read_ahead(left, s);
    let theirs = read_ahead(right, o);
    put_ahead(out, at, ours, s, theirs, o)
}
