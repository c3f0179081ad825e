// K2: hints of the older edition that were accepted and stand in any order, rewritten, or listed as rows (`rows`), with no room but the output and a window that the caller has: two arrays of one length. They are gone through as many times as the window is filled, from the greatest function and offset down.
#![tactic(auto)]

mod backward;
mod gathering;
mod measuring;
pub mod rows;
mod tally;

ghost use Rattle.format.specs.Older.{times, older_entry};
ghost use Rattle.reading.specs.Standing.{Known};
ghost use Rattle.out_of_order.specs.Backward.{ReadyPut};
ghost use Rattle.out_of_order.specs.Gathering.{Windowed};
ghost use Rattle.out_of_order.specs.Promises.{OutOfOrderMeasure, OutOfOrderPut};

use crate::backward::{put_all, put_end};
use crate::measuring::tally_of;
use crate::tally::total;
use reading::Cursor;

// How long so many entries are, written in order; above the bytes that a payload may have, only that they are.
pub fn measure(keys: &mut [u64], orders: &mut [u64], c: Cursor, s: &[u8], n: u32) -> usize
    requires { Known (times older_entry n) s.now c × Windowed keys.old orders.old }
    ensures { OutOfOrderMeasure keys.old orders.old c s.now n result }
{
    total(tally_of(keys, orders, c, s, n))
}

// So many entries in order: `end` bytes, which were measured.
pub fn put(
    out: &mut [u8],
    end: usize,
    keys: &mut [u64],
    orders: &mut [u64],
    c: Cursor,
    s: &[u8],
    n: u32,
)
    requires { ReadyPut out.old end keys.old orders.old n s.now c }
    ensures { OutOfOrderPut out.old end c s.now n out.new }
{
    let all = put_all(&mut *out, end, keys, orders, c, s, n);
    put_end(&mut *out, end, all);
}
