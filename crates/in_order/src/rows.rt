// Hints of the older edition that were accepted, as rows of three lists: how many there are and whether they are in order already, and then put in one pass.
ghost use Rattle.std.specs.Prelude.{◌+◌, [], ◌∷◌};
ghost use Rattle.format.specs.Older.{times, older_hint, older_entry};
ghost use Rattle.reading.specs.Standing.{Known};
ghost use Rattle.writing.specs.Columns.{Room};
ghost use Rattle.in_order.specs.Promises.{InOrderSurveyRows, InOrderPutRows};
ghost use Rattle.in_order.specs.Rows.{hints_rows, entries_rows, StoresRow, FitsRows, PutsRows};

use crate::{still_rising, survey_hints};
use copying::Put;
use older::again::{function_here, hint_here};
use reading::Cursor;
use reading::again::number_here;

// So many entries: whether their functions and the hints of each rise, how many hints they have, and the cursor behind them.
#[derive(Clone, Copy)]
pub struct RowSurvey {
    pub rising: bool,
    pub rows: usize,
    pub next: Cursor,
}

// So many entries: lists of hints, each under a function.
pub fn survey_rows(c: Cursor, s: &[u8], n: u32) -> RowSurvey
    requires { Known (times older_entry n) s.now c }
    ensures { InOrderSurveyRows c s.now n result }
{
    let mut next = c;
    let mut rising = true;
    let mut least: u64 = 0;
    let mut rows = 0;
    for _ in 0..n {
        let entry = function_here(next, s);
        let function = entry.value;
        let count = number_here(entry.next, s);
        let many = count.value;
        let hints = survey_hints(count.next, s, many);
        rising = still_rising(rising & hints.rising, least, function);
        // In 64 bits, where one more than the greatest 32-bit index fits.
        least = function as u64 + 1;
        rows = rows + many as usize;
        next = hints.next;
    }
    RowSurvey { rising, rows, next }
}

// One row, and the place behind it.
fn put_row(
    functions: &mut [u32],
    offsets: &mut [u32],
    likely: &mut [u32],
    at: usize,
    function: u32,
    offset: u32,
    kind: u32,
) -> usize
    requires { Room (at + 1) (functions.old ∷ offsets.old ∷ likely.old ∷ []) }
    ensures { StoresRow at function offset kind (functions.old ∷ offsets.old ∷ likely.old ∷ []) (functions.new ∷ offsets.new ∷ likely.new ∷ []) result }
{
    functions[at] = function;
    offsets[at] = offset;
    likely[at] = kind;
    at + 1
}

// So many hints of a function, a row each.
fn put_hint_rows(
    functions: &mut [u32],
    offsets: &mut [u32],
    likely: &mut [u32],
    at: usize,
    function: u32,
    c: Cursor,
    s: &[u8],
    n: u32,
) -> Put
    requires { FitsRows (times older_hint n) (hints_rows function) s.now c (functions.old ∷ offsets.old ∷ likely.old ∷ []) at }
    ensures { PutsRows (times older_hint n) (hints_rows function) s.now c (functions.old ∷ offsets.old ∷ likely.old ∷ []) (functions.new ∷ offsets.new ∷ likely.new ∷ []) at result }
{
    let mut next = c;
    let mut to = at;
    // counted down: around another loop a counter that rises is two numbers to keep
    for _ in (0..n).rev() {
        let hint = hint_here(next, s);
        to = put_row(
            &mut *functions,
            &mut *offsets,
            &mut *likely,
            to,
            function,
            hint.offset,
            hint.kind,
        );
        next = hint.next;
    }
    Put { at: to, next }
}

// So many entries, from the front of the lists on.
pub fn put_rows(
    functions: &mut [u32],
    offsets: &mut [u32],
    likely: &mut [u32],
    c: Cursor,
    s: &[u8],
    n: u32,
)
    requires { FitsRows (times older_entry n) entries_rows s.now c (functions.old ∷ offsets.old ∷ likely.old ∷ []) 0 }
    ensures { InOrderPutRows (functions.old ∷ offsets.old ∷ likely.old ∷ []) c s.now n (functions.new ∷ offsets.new ∷ likely.new ∷ []) }
{
    let mut next = c;
    let mut to = 0;
    for _ in 0..n {
        let entry = function_here(next, s);
        let count = number_here(entry.next, s);
        let put = put_hint_rows(
            &mut *functions,
            &mut *offsets,
            &mut *likely,
            to,
            entry.value,
            count.next,
            s,
            count.value,
        );
        to = put.at;
        next = put.next;
    }
}
