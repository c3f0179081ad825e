// An open once its payload is canonical: every used block is looked at, and the payload is shared or stored.
ghost use Rattle.std.specs.Prelude.{◌≡◌, ◌<◌};
ghost use Rattle.sharing.specs.Calls.{Seat, Settling, Settles, Joins, OpensNew, OpensWith, OpensUnused, InUse, unopened, opened};
ghost use Rattle.sharing.specs.Marks.{Walkable};

use crate::blocks::need;
use crate::holds::{HOLDS, lead, share};
use crate::rows::{find, rows_right};
use crate::runs::first_run;
use crate::storing::put_payload;
use crate::{Opened, Table, refuse};
use format::{Edition, Reason, Refusal, refusal_of};
use names::judging::judge;
use rewrite::names;

pub fn not_opened(t: Table, reason: Reason) -> Opened
    ensures { result ≡ unopened t reason }
{
    Opened {
        table: t,
        answer: Err(refuse(reason)),
    }
}

fn granted(t: Table, hold: usize) -> Opened
    ensures { result ≡ opened t hold }
{
    Opened {
        table: t,
        answer: Ok(hold),
    }
}

// A payload into blocks that are free, as a row of one user.
fn settle(t: Table, store: &mut [u8], customer: u32, hold: usize, b: usize, q: &[u8]) -> Opened
    requires seat { Seat customer hold }
    requires settling { Settling store.old b q.now }
    ensures { Settles t store.old customer hold b q.now store.new result }
{
    put_payload(store, b, q);
    let at = customer as usize * HOLDS + hold;
    granted(lead(t, at, b, 1, q.len() as u32), hold)
}

// A payload that is not stored yet goes into the first run of free blocks that is long enough.
fn store_new(t: Table, store: &mut [u8], customer: u32, hold: usize, q: &[u8]) -> Opened
    requires walkable { Walkable t.users t.sizes store.old }
    requires seat { Seat customer hold }
    ensures { OpensNew t store.old customer hold q.now store.new result }
{
    match first_run(&t.users, &t.sizes, &*store, need(q.len())) {
        None => not_opened(t, Reason::NoRoom),
        Some(b) => settle(t, store, customer, hold, b, q),
    }
}

// A payload that is stored already is shared.
fn join(t: Table, customer: u32, hold: usize, b: usize) -> Opened
    requires seat { Seat customer hold }
    requires b_bound { b < 128 }
    ensures { Joins t customer hold b result }
{
    let at = customer as usize * HOLDS + hold;
    granted(share(t, at, b), hold)
}

// Every used block is looked at before the payload is.
pub fn open_with(t: Table, store: &mut [u8], customer: u32, hold: usize, q: &[u8]) -> Opened
    requires walkable { Walkable t.users t.sizes store.old }
    requires seat { Seat customer hold }
    ensures { OpensWith t store.old customer hold q.now store.new result }
{
    if !rows_right(&t.users, &t.sizes, &*store) {
        return not_opened(t, Reason::Damaged);
    }
    match find(&t.users, &t.sizes, &*store, q) {
        None => store_new(t, store, customer, hold, q),
        Some(b) => join(t, customer, hold, b),
    }
}

// The canonical form goes to the front of the work buffer, and is opened from there.
pub fn open_unused(
    t: Table,
    store: &mut [u8],
    customer: u32,
    hold: usize,
    payload: &[u8],
    work: &mut [u8],
) -> Opened
    requires walkable { Walkable t.users t.sizes store.old }
    requires seat { Seat customer hold }
    ensures { OpensUnused t store.old customer hold payload.now work.old store.new work.new result }
{
    match names(payload, Edition::First, &mut *work) {
        Err(r) => Opened {
            table: t,
            answer: Err(r),
        },
        Ok(n) => {
            let front = 0;
            open_with(t, store, customer, hold, &work[front..n])
        }
    }
}

// Why a payload is not opened where all holds are in use: its own refusals and 13 come first. Nothing is written: the canonical form is measured against an output that takes nothing.
pub fn all_in_use(payload: &[u8], room: usize) -> Refusal
    ensures { InUse payload.now room result }
{
    let verdict = judge(payload, Edition::First);
    let Ok(()) = verdict else {
        return refusal_of(verdict);
    };
    let mut nothing = [0u8; 0];
    match names(payload, Edition::First, &mut nothing) {
        Ok(_) => refuse(Reason::HoldsInUse),
        Err(r) => {
            let needed = r.offset;
            if room < needed.0 {
                return r;
            }
            refuse(Reason::HoldsInUse)
        }
    }
}
