// Two tables that were accepted, gone through side by side in the order of their numbers. A table that is not there has no rows.
ghost use Rattle.std.specs.Prelude.{◌≡◌};
ghost use Rattle.format.specs.Parts.{sized};
ghost use Rattle.format.specs.Tables.{table};
ghost use Rattle.joining.specs.Sides.{HeldCount, HeldRows, Sides};
ghost use Rattle.joining.specs.Ahead.{KnownRows, Reads, Goes, Ready, NextOf};
ghost use Rattle.joining.specs.Steps.{behind_taken, Taken, GroupNext};

use format::Whose;
use reading::Cursor;
use tables::Held;
use tables::stepping::{RowStep, Rows, behind, group_step, row_step, rows_here};

// The rows of a map that are to come, and the first of them, which is read ahead: of two maps only one row is taken at a time, and the other need not be read again.
#[derive(Clone, Copy)]
pub struct Ahead {
    pub rows: Rows,
    pub step: RowStep,
}

// What comes next of two maps: whose row it is, its index and its text, and the rows that are to come of each.
#[derive(Clone, Copy)]
pub struct NextRow {
    pub whose: Whose,
    pub index: u32,
    pub part: Cursor,
    pub first: Rows,
    pub second: Rows,
}

const NO_ROWS: Rows = Rows {
    next: Cursor { at: 0, end: 0 },
    more: 0,
};

// The rows of a table, if there is one.
pub fn rows_of(table: Held, s: &[u8]) -> Rows
    requires { HeldCount s.now table }
    ensures { HeldRows s.now table result }
{
    match table {
        None => NO_ROWS,
        Some(c) => rows_here(c, s),
    }
}

// The rows behind the next one, where that was taken.
pub fn behind_taken(left: Rows, taken: Held, next: Cursor) -> Rows
    requires { Taken left taken }
    ensures { result ≡ behind_taken left taken next }
{
    match taken {
        None => left,
        Some(_) => behind(left, next),
    }
}

// Reads the first of some rows ahead.
pub fn read_ahead(rows: Rows, s: &[u8]) -> Ahead
    requires { KnownRows s.now rows }
    ensures { Reads s.now rows result }
{
    let step = row_step(rows, s);
    Ahead { rows, step }
}

// Goes on to rows that are to come now; where none was taken, what was read ahead is not read again.
pub fn onward(before: Ahead, rows: Rows, s: &[u8]) -> Ahead
    requires { Goes s.now before rows }
    ensures { Reads s.now rows result }
{
    let left = before.rows;
    if rows.more == left.more {
        return before;
    }
    read_ahead(rows, s)
}

// The next row of two maps. Where both have it, it is the separate payload's.
pub fn next_row(left: Ahead, right: Ahead) -> Option<NextRow>
    requires ready { Ready left }
    requires ready_2 { Ready right }
    ensures { NextOf left right result }
{
    let ours = left.rows;
    let theirs = right.rows;
    let first = left.step;
    let second = right.step;
    match first {
        None => match second {
            None => None,
            Some((j, other, after)) => Some(NextRow {
                whose: Whose::Own,
                index: j,
                part: other,
                first: ours,
                second: behind(theirs, after),
            }),
        },
        Some((i, part, next)) => match second {
            None => Some(NextRow {
                whose: Whose::Separate,
                index: i,
                part,
                first: behind(ours, next),
                second: theirs,
            }),
            Some((j, other, after)) => {
                if i < j {
                    return Some(NextRow {
                        whose: Whose::Separate,
                        index: i,
                        part,
                        first: behind(ours, next),
                        second: theirs,
                    });
                }
                if j < i {
                    return Some(NextRow {
                        whose: Whose::Own,
                        index: j,
                        part: other,
                        first: ours,
                        second: behind(theirs, after),
                    });
                }
                let whose = Whose::Separate;
                Some(NextRow {
                    whose,
                    index: i,
                    part,
                    first: behind(ours, next),
                    second: behind(theirs, after),
                })
            }
        },
    }
}

// The next group of two lists of groups: its index, and where its map stands in each, if it does.
pub fn next_group(left: Rows, s: &[u8], right: Rows, o: &[u8]) -> Option<(u32, Held, Held)>
    requires { Sides (table sized) s.now left o.now right }
    ensures { GroupNext s.now left o.now right result }
{
    match group_step(left, s) {
        None => match group_step(right, o) {
            None => None,
            Some((j, other)) => Some((j, None, Some(other))),
        },
        Some((i, place)) => match group_step(right, o) {
            None => Some((i, Some(place), None)),
            Some((j, other)) => {
                if i < j {
                    return Some((i, Some(place), None));
                }
                if j < i {
                    return Some((j, None, Some(other)));
                }
                Some((i, Some(place), Some(other)))
            }
        },
    }
}
