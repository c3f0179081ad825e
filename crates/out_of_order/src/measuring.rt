// All codes, from the greatest on, in as many passes as the window is filled: how long they are, written in order.
ghost use Rattle.format.specs.Older.{times, older_entry};
ghost use Rattle.reading.specs.Standing.{Known};
ghost use Rattle.out_of_order.specs.Gathering.{Windowed};
ghost use Rattle.out_of_order.specs.Measuring.{Measures};

use crate::gathering::{Bound, batch, bound_at};
use crate::tally::{Tally, tally_all};
use reading::Cursor;

// Above every code: no hint has so high a place.
pub const HIGHEST: Bound = Bound {
    key: 18_446_744_073_709_551_615,
    order: 18_446_744_073_709_551_615,
};

pub const NOTHING: Tally = Tally {
    key: 0,
    hints: 0,
    functions: 0,
    length: 0,
};

pub fn tally_of(keys: &mut [u64], orders: &mut [u64], c: Cursor, s: &[u8], n: u32) -> Tally
    requires { Known (times older_entry n) s.now c × Windowed keys.old orders.old }
    ensures { Measures n s.now c result }
{
    let mut bound = HIGHEST;
    let mut tally = NOTHING;
    loop {
        let held = batch(&mut *keys, &mut *orders, c, s, n, bound);
        tally = tally_all(tally, &*keys, &*orders, held);
        if held < keys.len() {
            return tally;
        }
        bound = bound_at(&*keys, &*orders, held - 1);
    }
}
