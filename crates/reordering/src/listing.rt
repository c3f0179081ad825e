// Every pair of hints of the older edition once, by function and offset, with the hint that answers: a row each in three lent lists.
ghost use Rattle.std.specs.Prelude.{◌&&◌, [], ◌∷◌, ◌≡◌, leb, Ok, Err, Some};
ghost use Rattle.format.specs.Older.{times, vector, older_entry};
ghost use Rattle.format.specs.declared.Reason.TheVariants.{OutputTooShort};
ghost use Rattle.reading.specs.Standing.{Known};
ghost use Rattle.reordering.specs.Listed.{RisingRows, CountedRows, ListsEntries, ListsOlder};
ghost use Rattle.reordering.specs.Promises.{ReorderingList};

use crate::WINDOW;
use format::{Answer, Offset, Place, Reason, Refusal};
use in_order::rows::survey_rows;
use out_of_order::rows::count_rows;
use reading::Cursor;
use reading::again::number_here;

// So many rows, all of them in the lists.
fn listed(rows: usize) -> Answer
    ensures { result ≡ Ok (Some (record { offset = record { 0 = 0 }; length = rows })) }
{
    Ok(Some(Place {
        offset: Offset(0),
        length: rows,
    }))
}

// So many rows, for which one of the lists is too short.
fn too_short(rows: usize) -> Answer
    ensures { result ≡ Err (record { reason = OutputTooShort; offset = record { 0 = rows } }) }
{
    Err(Refusal {
        reason: Reason::OutputTooShort,
        offset: Offset(rows),
    })
}

// Whether so many rows fit lists of these lengths.
fn do_fit(rows: usize, functions: usize, offsets: usize, likely: usize) -> bool
    ensures { result ≡ (leb rows functions && leb rows offsets) && leb rows likely }
{
    (rows <= functions) & (rows <= offsets) & (rows <= likely)
}

// The payload is judged whole, and only then are the lists touched.
pub fn list(p: &[u8], functions: &mut [u32], offsets: &mut [u32], likely: &mut [u32]) -> Answer
    ensures { ReorderingList p.now (functions.old ∷ offsets.old ∷ likely.old ∷ []) (functions.new ∷ offsets.new ∷ likely.new ∷ []) result }
{
    older::judge(p)?;
    list_payload(p, Cursor::over(p), functions, offsets, likely)
}

// A payload that was accepted.
fn list_payload(
    p: &[u8],
    c: Cursor,
    functions: &mut [u32],
    offsets: &mut [u32],
    likely: &mut [u32],
) -> Answer
    requires { Known (vector older_entry) p.now c }
    ensures { ListsOlder p.now c (functions.old ∷ offsets.old ∷ likely.old ∷ []) (functions.new ∷ offsets.new ∷ likely.new ∷ []) result }
{
    let count = number_here(c, p);
    let n = count.value;
    let entries = count.next;
    let found = survey_rows(entries, p, n);
    if found.rising {
        return list_rising(p, entries, n, found.rows, functions, offsets, likely);
    }
    list_unordered(p, entries, n, functions, offsets, likely)
}

// Entries that are in order.
fn list_rising(
    p: &[u8],
    c: Cursor,
    n: u32,
    rows: usize,
    functions: &mut [u32],
    offsets: &mut [u32],
    likely: &mut [u32],
) -> Answer
    requires { RisingRows n p.now c rows }
    ensures { ListsEntries n p.now c (functions.old ∷ offsets.old ∷ likely.old ∷ []) (functions.new ∷ offsets.new ∷ likely.new ∷ []) result }
{
    if do_fit(rows, functions.len(), offsets.len(), likely.len()) {
        in_order::rows::put_rows(functions, offsets, likely, c, p, n);
        return listed(rows);
    }
    too_short(rows)
}

// Entries that are not. Their pairs are counted first, so that nothing is put where a list is too short.
fn list_unordered(
    p: &[u8],
    c: Cursor,
    n: u32,
    functions: &mut [u32],
    offsets: &mut [u32],
    likely: &mut [u32],
) -> Answer
    requires { Known (times older_entry n) p.now c }
    ensures { ListsEntries n p.now c (functions.old ∷ offsets.old ∷ likely.old ∷ []) (functions.new ∷ offsets.new ∷ likely.new ∷ []) result }
{
    let mut keys = [0u64; WINDOW];
    let mut orders = [0u64; WINDOW];
    let rows = count_rows(&mut keys, &mut orders, c, p, n);
    list_counted(
        p,
        c,
        n,
        rows,
        &mut keys,
        &mut orders,
        functions,
        offsets,
        likely,
    )
}

// Entries whose pairs were counted.
fn list_counted(
    p: &[u8],
    c: Cursor,
    n: u32,
    rows: usize,
    keys: &mut [u64],
    orders: &mut [u64],
    functions: &mut [u32],
    offsets: &mut [u32],
    likely: &mut [u32],
) -> Answer
    requires { CountedRows n p.now c rows keys.old orders.old }
    ensures { ListsEntries n p.now c (functions.old ∷ offsets.old ∷ likely.old ∷ []) (functions.new ∷ offsets.new ∷ likely.new ∷ []) result }
{
    if do_fit(rows, functions.len(), offsets.len(), likely.len()) {
        out_of_order::rows::put_rows(functions, offsets, likely, rows, keys, orders, c, p, n);
        return listed(rows);
    }
    too_short(rows)
}
