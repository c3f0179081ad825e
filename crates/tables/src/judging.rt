// Judges maps of names, and maps of such maps, and looks for nothing. All of it has one caller, so that it becomes one piece of code and nothing is handed back through memory.
ghost use Rattle.format.specs.Parts.{name};
ghost use Rattle.format.specs.Tables.{table};
ghost use Rattle.reading.specs.Cursors.{Inside};
ghost use Rattle.tables.specs.Judging.{passed, numbered, list_number, listed, list_count, steps, Judges, RowJudges, Counts};
ghost use Rattle.tables.specs.Steps.{index_from};
ghost use Rattle.tables.specs.Promises.{TablesNameMap};

use crate::index;
use format::{Offset, Reason, Refusal};
use reading::text::is_text;
use reading::{Cursor, NumberRead};

// What judging finds: the cursor behind what was accepted, or the refusal.
pub type Judged = Result<Cursor, Refusal>;

// The same of a row, with its number.
type JudgedRow = Result<(u32, Cursor), Refusal>;

// What stands for the number of a list that has none.
const NO_NUMBER: u32 = 0;

// A map that is not nested is one list.
const ONE_LIST: u32 = 1;

// A row whose value is a name.
fn row(c: Cursor, s: &[u8], least: u64) -> JudgedRow
    requires { Inside s.now c }
    ensures { RowJudges (numbered index_from name) least s.now c result }
{
    let (k, d, _) = index(c, s, least)?;
    let (part, next, _) = d.sized(s)?;
    let at = part.at;
    if is_text(s, at, part.end) {
        return Ok((k, next));
    }
    Err(Refusal {
        reason: Reason::NotText,
        offset: Offset(at),
    })
}

// So many rows with names.
fn rows(c: Cursor, s: &[u8], n: u32) -> Judged
    requires { Inside s.now c }
    ensures { Judges (steps (numbered index_from name) n 0) s.now c result }
{
    let mut next = c;
    let mut least: u64 = 0;
    for _ in 0..n {
        let (k, after) = row(next, s, least)?;
        next = after;
        least = (k as u64) + 1;
    }
    Ok(next)
}

// A list of names.
fn names(c: Cursor, s: &[u8]) -> Judged
    requires { Inside s.now c }
    ensures { Judges (passed (table name)) s.now c result }
{
    let (n, d, _) = c.number(s)?;
    rows(d, s, n)
}

// The number before a list, which lists that are nested have.
fn list_number(c: Cursor, s: &[u8], nested: bool, least: u64) -> NumberRead
    requires { Inside s.now c }
    ensures { Counts (list_number nested least) s.now c result }
{
    if nested {
        return index(c, s, least);
    }
    Ok((NO_NUMBER, c, true))
}

// A list of names, with its number.
fn list(c: Cursor, s: &[u8], nested: bool, least: u64) -> JudgedRow
    requires { Inside s.now c }
    ensures { RowJudges (listed nested) least s.now c result }
{
    let (k, d, _) = list_number(c, s, nested, least)?;
    let next = names(d, s)?;
    Ok((k, next))
}

// So many lists of names.
fn lists(c: Cursor, s: &[u8], nested: bool, n: u32) -> Judged
    requires { Inside s.now c }
    ensures { Judges (steps (listed nested) n 0) s.now c result }
{
    let mut next = c;
    let mut least: u64 = 0;
    // counted down: around another loop a counter that rises is two numbers to keep
    for _ in (0..n).rev() {
        let (outer, after) = list(next, s, nested, least)?;
        next = after;
        least = (outer as u64) + 1;
    }
    Ok(next)
}

// How many lists a map has: it is one, where they are not nested.
fn list_count(c: Cursor, s: &[u8], nested: bool) -> NumberRead
    requires { Inside s.now c }
    ensures { Counts (list_count nested) s.now c result }
{
    if nested {
        return c.number(s);
    }
    Ok((ONE_LIST, c, true))
}

// A map of names, or a nested one, which is a map of such maps.
pub fn name_map(c: Cursor, s: &[u8], nested: bool) -> Judged
    requires { Inside s.now c }
    ensures { TablesNameMap c s.now nested result }
{
    let (n, d, _) = list_count(c, s, nested)?;
    lists(d, s, nested, n)
}
