// K12: payloads that customers share, in a store of blocks that the caller lends at each call. The table is the caller's too and goes by value: a table goes in, and the table behind the call comes out.
#![tactic(auto)]

mod asking;
mod blocks;
mod holds;
mod opening;
mod rows;
mod runs;
mod storing;
mod tidying;

ghost use Rattle.std.specs.Prelude.{◌≡◌};
ghost use Rattle.sharing.specs.Calls.{not_turned};
ghost use Rattle.sharing.specs.Promises.{SharingStart, SharingOpen, SharingAsk, SharingClose, SharingCompact};

use crate::asking::reply_at;
use crate::blocks::BLOCK;
use crate::holds::{HOLDS, entry, fits, lowest, release, size_at};
use crate::opening::{all_in_use, not_opened, open_unused};
use crate::rows::rows_right;
use crate::tidying::{pack_blocks, pack_table, used_blocks};
use format::{Offset, Reason, Refusal, Verdict, Written};

// As many holds as sixteen customers have, eight each; and as many blocks as a store has at most.
pub const PLACES: usize = 128;

pub const CUSTOMERS: u32 = 16;

// What is known between two calls: numbers alone, 776 bytes, with nothing between them. A hold is 0, or one more than the first block of its payload; users and size stand at the first block of a payload, and are 0 at every other.
#[repr(C)]
#[derive(Clone, Copy)]
pub struct Table {
    pub holds: [u8; PLACES],
    pub users: [u8; PLACES],
    pub sizes: [u32; PLACES],
    pub bytes: u64,
}

// A table over a store of that length, with nothing stored.
pub fn start(bytes: u64) -> Table
    ensures { SharingStart bytes result }
{
    Table {
        holds: [0; PLACES],
        users: [0; PLACES],
        sizes: [0; PLACES],
        bytes,
    }
}

// What an open leaves, and its answer: the hold, or a refusal.
#[derive(Clone, Copy)]
pub struct Opened {
    pub table: Table,
    pub answer: Written,
}

// The answer to a question: how long the name is that was copied, if there is one.
pub type Told = Result<Option<usize>, Refusal>;

// What a close leaves, or the step that closes the gaps, and its verdict.
#[derive(Clone, Copy)]
pub struct Turned {
    pub table: Table,
    pub verdict: Verdict,
}

// The new refusals give offset 0.
fn refuse(reason: Reason) -> Refusal
    ensures { result ≡ record { reason = reason; offset = record { 0 = 0 } } }
{
    Refusal {
        reason,
        offset: Offset(0),
    }
}

fn not_turned(t: Table, reason: Reason) -> Turned
    ensures { result ≡ not_turned t reason }
{
    Turned {
        table: t,
        verdict: Err(refuse(reason)),
    }
}

// A customer opens a payload and gets their lowest unused hold.
pub fn open(t: Table, store: &mut [u8], customer: u32, payload: &[u8], work: &mut [u8]) -> Opened
    ensures { SharingOpen t store.old customer payload.now work.old store.new work.new result }
{
    if !fits(t.bytes, store.len()) {
        return not_opened(t, Reason::NotTheStore);
    }
    if CUSTOMERS <= customer {
        return not_opened(t, Reason::NoCustomer);
    }
    let hold = lowest(&t.holds, customer);
    if hold < HOLDS {
        return open_unused(t, store, customer, hold, payload, work);
    }
    Opened {
        table: t,
        answer: Err(all_in_use(payload, work.len())),
    }
}

// A customer asks a function name through a hold.
pub fn ask(t: Table, store: &[u8], customer: u32, hold: u32, function: u32, out: &mut [u8]) -> Told
    ensures { SharingAsk t store.now customer hold function out.old out.new result }
{
    if !fits(t.bytes, store.len()) {
        return Err(refuse(Reason::NotTheStore));
    }
    if CUSTOMERS <= customer {
        return Err(refuse(Reason::NoCustomer));
    }
    let stands = entry(&t.holds, customer, hold);
    if stands == 0 {
        return Err(refuse(Reason::NotOpen));
    }
    let first = stands as usize - 1;
    reply_at(store, first, size_at(t, first), function, out)
}

// A customer closes a hold. The store is needed for its length alone.
pub fn close(t: Table, store: &[u8], customer: u32, hold: u32) -> Turned
    ensures { SharingClose t store.now customer hold result }
{
    if !fits(t.bytes, store.len()) {
        return not_turned(t, Reason::NotTheStore);
    }
    if CUSTOMERS <= customer {
        return not_turned(t, Reason::NoCustomer);
    }
    let stands = entry(&t.holds, customer, hold);
    if stands == 0 {
        return not_turned(t, Reason::NotOpen);
    }
    let at = customer as usize * HOLDS + hold as usize;
    Turned {
        table: release(t, at, stands as usize - 1),
        verdict: Ok(()),
    }
}

// K13: the used blocks move to the front, in their order, and the table follows them. Every used block is looked at before the first is moved.
pub fn compact(t: Table, store: &mut [u8]) -> Turned
    ensures { SharingCompact t store.old store.new result }
{
    if !fits(t.bytes, store.len()) {
        return not_turned(t, Reason::NotTheStore);
    }
    if !rows_right(&t.users, &t.sizes, &*store) {
        return not_turned(t, Reason::Damaged);
    }
    let used = used_blocks(&t.users, &t.sizes, &*store);
    let table = pack_table(t, &used, store.len() / BLOCK);
    pack_blocks(&used, store);
    Turned {
        table,
        verdict: Ok(()),
    }
}
