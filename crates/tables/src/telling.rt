// Judges lists and tells, in the same pass, whether they stand as their canonical rewriting would: each number in its fewest bytes, and no list without rows. The first fault ends it, and is not told apart from padding.
ghost use Rattle.format.specs.Tables.{table};
ghost use Rattle.format.specs.Forms.{part_form, table_form};
ghost use Rattle.reading.specs.Cursors.{Inside};
ghost use Rattle.tables.specs.Seeking.{reader_of};
ghost use Rattle.tables.specs.Telling.{Tells, TellsRows, RowTells};
ghost use Rattle.tables.specs.Promises.{TablesIsFilled, TablesTidyTable, TablesTidyTables};

use crate::{Item, SHORT_HINT, index, is_item, is_short};
use reading::Cursor;

// What telling finds: the cursor behind what is canonical, or that it is refused or not canonical.
pub type Tidy = Option<Cursor>;

// The same of a row, with its number.
pub type TidyRow = Option<(u32, Cursor)>;

// Whether nothing is left over behind what is canonical.
pub fn is_filled(read: Tidy) -> bool
    ensures { TablesIsFilled read result }
{
    match read {
        None => false,
        Some(next) => next.at == next.end,
    }
}

// An item.
fn tidy_item(c: Cursor, s: &[u8], item: Item) -> Tidy
    requires { Inside s.now c }
    ensures { Tells (reader_of item) part_form s.now c result }
{
    let at = c.at;
    if is_short(s, c, item) {
        return Some(Cursor {
            at: at + SHORT_HINT,
            end: c.end,
        });
    }
    let Ok((part, next, shortest)) = c.sized(s) else {
        return None;
    };
    if shortest {
        if is_item(s, part, item) {
            return Some(next);
        }
    }
    None
}

// A row whose value is an item.
fn row(c: Cursor, s: &[u8], item: Item, least: u64) -> TidyRow
    requires { Inside s.now c }
    ensures { RowTells (reader_of item) part_form least s.now c result }
{
    let Ok((k, d, shortest)) = index(c, s, least) else {
        return None;
    };
    if !shortest {
        return None;
    }
    let next = tidy_item(d, s, item)?;
    Some((k, next))
}

// A row whose value is a list.
fn group(c: Cursor, s: &[u8], item: Item, least: u64) -> TidyRow
    requires { Inside s.now c }
    ensures { RowTells (table (reader_of item)) (table_form part_form) least s.now c result }
{
    let Ok((outer, d, shortest)) = index(c, s, least) else {
        return None;
    };
    if !shortest {
        return None;
    }
    let next = tidy_table(d, s, item)?;
    Some((outer, next))
}

// So many rows with items.
fn tidy_rows(c: Cursor, s: &[u8], item: Item, n: u32) -> Tidy
    requires { Inside s.now c }
    ensures { TellsRows (reader_of item) part_form n s.now c result }
{
    let mut next = c;
    let mut least: u64 = 0;
    for _ in 0..n {
        let (k, after) = row(next, s, item, least)?;
        next = after;
        least = (k as u64) + 1;
    }
    Some(next)
}

// A list of (rising number, item).
pub fn tidy_table(c: Cursor, s: &[u8], item: Item) -> Tidy
    requires { Inside s.now c }
    ensures { TablesTidyTable c s.now item result }
{
    let Ok((n, d, shortest)) = c.number(s) else {
        return None;
    };
    if shortest {
        if 0 < n {
            return tidy_rows(d, s, item, n);
        }
    }
    None
}

// So many rows with lists.
fn tidy_groups(c: Cursor, s: &[u8], item: Item, n: u32) -> Tidy
    requires { Inside s.now c }
    ensures { TellsRows (table (reader_of item)) (table_form part_form) n s.now c result }
{
    let mut next = c;
    let mut least: u64 = 0;
    for _ in 0..n {
        let (outer, after) = group(next, s, item, least)?;
        next = after;
        least = (outer as u64) + 1;
    }
    Some(next)
}

// A list of (rising number, list).
pub fn tidy_tables(c: Cursor, s: &[u8], item: Item) -> Tidy
    requires { Inside s.now c }
    ensures { TablesTidyTables c s.now item result }
{
    let Ok((groups, d, shortest)) = c.number(s) else {
        return None;
    };
    if shortest {
        if 0 < groups {
            return tidy_groups(d, s, item, groups);
        }
    }
    None
}
