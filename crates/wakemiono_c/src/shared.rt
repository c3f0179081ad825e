// The calls on the shared table.
ghost use Rattle.wakemiono.specs.Calls.{WmTableStart, WmTableOpen, WmTableFunctionName, WmTableClose, WmTableCompact};

use sharing::Table;
use wakemiono::WmAnswer;

#[unsafe(no_mangle)]
pub extern "C" fn wm_table_start(bytes: u64) -> Table
    ensures { WmTableStart bytes result }
{
    wakemiono::shared::wm_table_start(bytes)
}

#[unsafe(no_mangle)]
pub extern "C" fn wm_table_open(
    table: &mut Table,
    store: &mut [u8],
    customer: u32,
    payload: &[u8],
    work: &mut [u8],
) -> WmAnswer
    ensures { WmTableOpen table.old store.old customer payload.now work.old table.new store.new work.new result }
{
    wakemiono::shared::wm_table_open(table, store, customer, payload, work)
}

#[unsafe(no_mangle)]
pub extern "C" fn wm_table_function_name(
    table: &Table,
    store: &[u8],
    customer: u32,
    hold: u32,
    function: u32,
    out: &mut [u8],
) -> WmAnswer
    ensures { WmTableFunctionName table.now store.now customer hold function out.old out.new result }
{
    wakemiono::shared::wm_table_function_name(table, store, customer, hold, function, out)
}

#[unsafe(no_mangle)]
pub extern "C" fn wm_table_close(
    table: &mut Table,
    store: &[u8],
    customer: u32,
    hold: u32,
) -> WmAnswer
    ensures { WmTableClose table.old store.now customer hold table.new result }
{
    wakemiono::shared::wm_table_close(table, store, customer, hold)
}

#[unsafe(no_mangle)]
pub extern "C" fn wm_table_compact(table: &mut Table, store: &mut [u8]) -> WmAnswer
    ensures { WmTableCompact table.old store.old table.new store.new result }
{
    wakemiono::shared::wm_table_compact(table, store)
}
