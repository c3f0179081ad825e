// K12, K13: the calls on the shared table. Table and store are the caller's and are lent; the table is copied out, turned by value, and stored. No call has a precondition: every table is taken, also one that nobody started.
ghost use Rattle.std.specs.Prelude.{[], ◌≡◌};
ghost use Rattle.sharing.specs.Arrays.{table_of};
ghost use Rattle.sharing.specs.Model.{opening, asking, closing, tidying};
ghost use Rattle.wakemiono.specs.Calls.{WmTableStart, WmTableOpen, WmTableFunctionName, WmTableClose, WmTableCompact};
ghost use Rattle.wakemiono.specs.Shared.{wm_told, Shares, WmShares};

use crate::{ANSWERED_NONE, WmAnswer, all_of, of_refusal, of_verdict, of_written};
use sharing::{Table, Told, ask, close, compact, open, start};

// What a call leaves of a table, and what it answers.
#[derive(Clone, Copy)]
pub struct Shared {
    pub table: Table,
    pub answer: WmAnswer,
}

fn of_told(t: Told) -> WmAnswer
    ensures { result ≡ wm_told t }
{
    match t {
        Err(r) => of_refusal(r),
        Ok(found) => match found {
            None => ANSWERED_NONE,
            Some(n) => all_of(n),
        },
    }
}

fn open_in(t: Table, store: &mut [u8], customer: u32, payload: &[u8], work: &mut [u8]) -> Shared
    ensures { WmShares t store.old (opening customer payload.now work.old) result.table store.new work.new result.answer }
{
    let opened = open(t, store, customer, payload, work);
    let written = opened.answer;
    let answer = of_written(written);
    let table = opened.table;
    Shared { table, answer }
}

fn ask_in(
    t: Table,
    store: &[u8],
    customer: u32,
    hold: u32,
    function: u32,
    out: &mut [u8],
) -> WmAnswer
    ensures { Shares (table_of t) store.now (asking customer hold function out.old) (table_of t) store.now out.new result }
{
    of_told(ask(t, store, customer, hold, function, out))
}

fn close_in(t: Table, store: &[u8], customer: u32, hold: u32) -> Shared
    ensures { WmShares t store.now (closing customer hold) result.table store.now [] result.answer }
{
    let closed = close(t, store, customer, hold);
    let verdict = closed.verdict;
    let answer = of_verdict(verdict, 0);
    let table = closed.table;
    Shared { table, answer }
}

fn compact_in(t: Table, store: &mut [u8]) -> Shared
    ensures { WmShares t store.old tidying result.table store.new [] result.answer }
{
    let packed = compact(t, store);
    let granted = packed.verdict;
    let answer = of_verdict(granted, 0);
    let table = packed.table;
    Shared { table, answer }
}

pub fn wm_table_start(bytes: u64) -> Table
    ensures { WmTableStart bytes result }
{
    start(bytes)
}

pub fn wm_table_open(
    table: &mut Table,
    store: &mut [u8],
    customer: u32,
    payload: &[u8],
    work: &mut [u8],
) -> WmAnswer
    ensures { WmTableOpen table.old store.old customer payload.now work.old table.new store.new work.new result }
{
    let shared = open_in(*table, store, customer, payload, work);
    *table = shared.table;
    shared.answer
}

pub fn wm_table_function_name(
    table: &Table,
    store: &[u8],
    customer: u32,
    hold: u32,
    function: u32,
    out: &mut [u8],
) -> WmAnswer
    ensures { WmTableFunctionName table.now store.now customer hold function out.old out.new result }
{
    ask_in(*table, store, customer, hold, function, out)
}

pub fn wm_table_close(table: &mut Table, store: &[u8], customer: u32, hold: u32) -> WmAnswer
    ensures { WmTableClose table.old store.now customer hold table.new result }
{
    let shared = close_in(*table, store, customer, hold);
    *table = shared.table;
    shared.answer
}

pub fn wm_table_compact(table: &mut Table, store: &mut [u8]) -> WmAnswer
    ensures { WmTableCompact table.old store.old table.new store.new result }
{
    let shared = compact_in(*table, store);
    *table = shared.table;
    shared.answer
}
