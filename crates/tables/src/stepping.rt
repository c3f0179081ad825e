// The way through a table that was accepted, a row at a time and without its checks.
ghost use Rattle.std.specs.Prelude.{◌<◌};
ghost use Rattle.format.specs.Numbers.{number};
ghost use Rattle.format.specs.Parts.{sized};
ghost use Rattle.format.specs.Tables.{rows, table};
ghost use Rattle.reading.specs.Standing.{Known};
ghost use Rattle.tables.specs.Promises.{TablesRowsHere, TablesBehind, TablesRowStep, TablesGroupStep};

use reading::Cursor;
use reading::again::{number_here, part_here};

// The rows that are still to come: where the next begins, and how many they are.
#[derive(Clone, Copy)]
pub struct Rows {
    pub next: Cursor,
    pub more: u32,
}

// What a step through rows with parts finds: the row's number, its part, and the cursor behind it.
pub type RowStep = Option<(u32, Cursor, Cursor)>;

// What a step through rows with tables finds: the row's number, and where its table stands. The cursor behind it is known once that was passed.
pub type GroupStep = Option<(u32, Cursor)>;

// The rows of the table that stands here: all of them are to come.
pub fn rows_here(c: Cursor, s: &[u8]) -> Rows
    requires { Known number s.now c }
    ensures { TablesRowsHere c s.now result }
{
    let count = number_here(c, s);
    let next = count.next;
    Rows {
        next,
        more: count.value,
    }
}

// The rows that are to come behind the next one, which ends at a cursor.
pub fn behind(left: Rows, next: Cursor) -> Rows
    requires { 0 < left.more }
    ensures { TablesBehind left next result }
{
    Rows {
        next,
        more: left.more - 1,
    }
}

// The next of the rows with parts.
pub fn row_step(left: Rows, s: &[u8]) -> RowStep
    requires { Known (rows sized left.more 0) s.now left.next }
    ensures { TablesRowStep left s.now result }
{
    if left.more == 0 {
        return None;
    }
    let index = number_here(left.next, s);
    let value = part_here(index.next, s);
    let part = value.part;
    let next = value.next;
    Some((index.value, part, next))
}

// The next of the rows with tables.
pub fn group_step(left: Rows, s: &[u8]) -> GroupStep
    requires { Known (rows (table sized) left.more 0) s.now left.next }
    ensures { TablesGroupStep left s.now result }
{
    if left.more == 0 {
        return None;
    }
    let index = number_here(left.next, s);
    let place = index.next;
    Some((index.value, place))
}
