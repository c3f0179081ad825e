// A table that was accepted, looked up a row at a time. Its numbers rise, so a search ends at the first that is not below the key: what comes behind it was judged before.
ghost use Rattle.format.specs.Parts.{sized};
ghost use Rattle.format.specs.Tables.{table};
ghost use Rattle.reading.specs.Standing.{Known};
ghost use Rattle.tables.specs.Finding.{HeldOrdered};
ghost use Rattle.tables.specs.Promises.{TablesAnswerOf, TablesFindRow, TablesBehindTable, TablesFindGroup};

use crate::Held;
use crate::stepping::{behind, group_step, row_step, rows_here};
use format::{Answer, Offset, Place};
use reading::Cursor;

// What is held, as an answer.
pub fn answer_of(held: Held) -> Answer
    requires { HeldOrdered held }
    ensures { TablesAnswerOf held result }
{
    match held {
        None => Ok(None),
        Some(part) => {
            let at = part.at;
            Ok(Some(Place {
                offset: Offset(at),
                length: part.end - at,
            }))
        }
    }
}

// The part at `key` of the table that stands here.
pub fn find_row(c: Cursor, s: &[u8], key: u32) -> Held
    requires { Known (table sized) s.now c }
    ensures { TablesFindRow c s.now key result }
{
    let mut left = rows_here(c, s);
    loop {
        let (k, part, next) = row_step(left, s)?;
        if key <= k {
            if key == k {
                return Some(part);
            }
            return None;
        }
        left = behind(left, next);
    }
}

// The cursor behind the table that stands here.
pub fn behind_table(c: Cursor, s: &[u8]) -> Cursor
    requires { Known (table sized) s.now c }
    ensures { TablesBehindTable c s.now result }
{
    let mut left = rows_here(c, s);
    while let Some((_, _, next)) = row_step(left, s) {
        left = behind(left, next);
    }
    let next = left.next;
    next
}

// The part at `inner` in the table at `key` of the table of tables that stands here.
pub fn find_group(c: Cursor, s: &[u8], key: u32, inner: u32) -> Held
    requires { Known (table (table sized)) s.now c }
    ensures { TablesFindGroup c s.now key inner result }
{
    let mut left = rows_here(c, s);
    loop {
        let (k, place) = group_step(left, s)?;
        if key <= k {
            if key == k {
                return find_row(place, s, inner);
            }
            return None;
        }
        let next = behind_table(place, s);
        left = behind(left, next);
    }
}
