// A table's holds, and what a call changes in a table.
ghost use Rattle.std.specs.Prelude.{◌≡◌, ◌<◌, ◌+◌, ◌*◌, get_or, length};
ghost use Rattle.sharing.specs.Arrays.{table_of};
ghost use Rattle.sharing.specs.Calls.{LowestUnused, leads_to, releases};
ghost use Rattle.sharing.specs.Step.{joined};
ghost use Rattle.sharing.specs.Table.{mark, blank, length_fits};
ghost use Rattle.sharing.specs.Model.{desk};

use crate::blocks::{BLOCK, as_size};
use crate::{PLACES, Table};

// The holds of a customer.
pub const HOLDS: usize = 8;

// What a store of 128 blocks takes.
const MOST_BYTES: usize = 65536;

const MOST_USERS: u8 = 255;

// Whether a store is 1 to 128 blocks, as at the start.
pub fn fits(bytes: u64, length: usize) -> bool
    ensures { result ≡ length_fits bytes length }
{
    if length as u64 != bytes {
        return false;
    }
    if length % BLOCK != 0 {
        return false;
    }
    if length == 0 {
        return false;
    }
    length <= MOST_BYTES
}

// What stands at a hold: 0 where it is not open, and above 7.
pub fn entry(holds: &[u8; PLACES], customer: u32, hold: u32) -> u8
    requires { customer < 16 }
    ensures { result ≡ get_or (desk customer holds.now) hold 0 }
{
    if 8 <= hold {
        return 0;
    }
    holds[customer as usize * HOLDS + hold as usize]
}

// The lowest hold of a customer that is not open, or 8.
pub fn lowest(holds: &[u8; PLACES], customer: u32) -> usize
    requires customer_bound { customer < 16 }
    requires holds_len { length holds.now ≡ 128 }
    ensures { LowestUnused holds.now customer result }
{
    let first = customer as usize * HOLDS;
    let mut h = 0;
    while h < HOLDS {
        if holds[first + h] == 0 {
            return h;
        }
        h += 1;
    }
    HOLDS
}

// The table where that hold leads to the row at a block, with its users and its size.
pub fn lead(t: Table, at: usize, b: usize, users: u8, size: u32) -> Table
    requires at_bound { at < 128 }
    requires b_bound { b < 128 }
    ensures { table_of result ≡ leads_to (table_of t) at b (mark users size) }
{
    let mut next = t;
    next.holds[at] = (b + 1) as u8;
    next.users[b] = users;
    next.sizes[b] = size;
    next
}

// The same at a row that is there: one user more. No table that is used through the calls has 255.
pub fn share(t: Table, at: usize, b: usize) -> Table
    requires at_bound { at < 128 }
    requires b_bound { b < 128 }
    ensures { table_of result ≡ leads_to (table_of t) at b (joined (get_or (table_of t).marks b blank)) }
{
    let users = t.users[b];
    if users < MOST_USERS {
        return lead(t, at, b, users + 1, t.sizes[b]);
    }
    lead(t, at, b, users, t.sizes[b])
}

// The table without that hold: one user less at its row, and none left where it was the last.
pub fn release(t: Table, at: usize, b: usize) -> Table
    requires { at < 128 }
    ensures { table_of result ≡ releases (table_of t) at b }
{
    let mut next = t;
    next.holds[at] = 0;
    if PLACES <= b {
        return next;
    }
    let users = t.users[b];
    if users <= 1 {
        next.users[b] = 0;
        next.sizes[b] = 0;
    } else {
        next.users[b] = users - 1;
    }
    next
}

// The size of the row at a block: 0 where there is none, and where the table ends.
pub fn size_at(t: Table, b: usize) -> usize
    ensures { result ≡ (get_or (table_of t).marks b blank).size }
{
    if PLACES <= b {
        return 0;
    }
    as_size(t.sizes[b])
}
