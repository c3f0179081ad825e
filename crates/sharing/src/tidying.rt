// K13: the used blocks to the front, in their order, and the table with them.
ghost use Rattle.std.specs.Prelude.{◌≡◌, ◌+◌, ◌*◌, false, length, get_or, take, drop};
ghost use Rattle.sharing.specs.Marks.{Walkable};
ghost use Rattle.sharing.specs.Packing.{UsedBlocks, Before, Packable, PacksBlocks, Used, PacksRows, LeadsFrom, Led, LeadsHolds, TidiesTable};
ghost use Rattle.writing.specs.Wrote.{Wrote};

use crate::blocks::BLOCK;
use crate::runs::covered;
use crate::{PLACES, Table};

// As many values as a hold can have.
const ENTRIES: usize = 256;

const LAST_ENTRY: usize = 255;

// For each block whether a row has it.
pub fn used_blocks<'a>(
    users: &'a [u8; PLACES],
    sizes: &'a [u32; PLACES],
    store: &[u8],
) -> [bool; PLACES]
    requires { Walkable users.now sizes.now store.now }
    ensures { UsedBlocks users.now sizes.now store.now result }
{
    let blocks = store.len() / BLOCK;
    let mut used = [false; PLACES];
    let mut b = 0;
    let mut cover = 0;
    while b < blocks {
        cover = covered(cover, users[b], sizes[b]);
        used[b] = 0 < cover;
        b += 1;
        if 0 < cover {
            cover -= 1;
        }
    }
    used
}

// A block over one before it, or over itself.
fn move_block(store: &mut [u8], from: usize, to: usize)
    requires { Before store.old from to }
    ensures { Wrote store.old store.new (to * 512) (to * 512 + 512) (take 512 (drop (from * 512) store.old)) }
{
    if from == to {
        return;
    }
    let mut k = 0;
    while k < BLOCK {
        store[to * BLOCK + k] = store[from * BLOCK + k];
        k += 1;
    }
}

// Every used block to the front, in their order. A block is read before another is written over it: none goes further back than it stands.
pub fn pack_blocks(used: &[bool; PLACES], store: &mut [u8])
    requires { Packable used.now store.old }
    ensures { PacksBlocks used.now store.old store.new }
{
    let blocks = store.len() / BLOCK;
    let mut b = 0;
    let mut to = 0;
    while b < blocks {
        let from = b;
        b += 1;
        if used[from] {
            move_block(&mut *store, from, to);
            to += 1;
        }
    }
}

// The rows go where their blocks go: each is taken from its place, and put down again where its block is used.
fn pack_rows(t: Table, used: &[bool; PLACES], blocks: usize) -> Table
    requires { Used used.now blocks }
    ensures { PacksRows used.now blocks t result }
{
    let mut next = t;
    let mut b = 0;
    let mut to = 0;
    while b < blocks {
        let from = b;
        b += 1;
        next.users[from] = 0;
        next.sizes[from] = 0;
        if used[from] {
            next.users[to] = t.users[from];
            next.sizes[to] = t.sizes[from];
            to += 1;
        }
    }
    next
}

// Whether a block of so many is used.
fn is_used(used: &[bool; PLACES], blocks: usize, b: usize) -> bool
    requires { Used used.now blocks }
    ensures { result ≡ get_or (take blocks used.now) b false }
{
    if b < blocks {
        return used[b];
    }
    false
}

// Where a hold leads then, by where it leads now: nowhere as before, or to where its block goes.
fn leads(used: &[bool; PLACES], blocks: usize) -> [u8; ENTRIES]
    requires { Used used.now blocks }
    ensures { LeadsFrom used.now blocks result }
{
    let mut to = [0; ENTRIES];
    let mut b = 0;
    let mut next = 1;
    while b < LAST_ENTRY {
        to[b + 1] = next;
        let moves = is_used(used, blocks, b);
        b += 1;
        if moves {
            next += 1;
        }
    }
    to
}

// Every value that a hold can have is one of them.
fn led(to: &[u8; ENTRIES], entry: u8) -> u8
    requires { length to.now ≡ 256 }
    ensures { Led to.now entry result }
{
    to[entry as usize]
}

// The holds follow their blocks.
fn lead_holds(t: Table, to: &[u8; ENTRIES]) -> Table
    requires { length to.now ≡ 256 }
    ensures { LeadsHolds to.now t result }
{
    let mut next = t;
    let mut hold = 0;
    while hold < PLACES {
        next.holds[hold] = led(to, t.holds[hold]);
        hold += 1;
    }
    next
}

// The table behind the step.
pub fn pack_table(t: Table, used: &[bool; PLACES], blocks: usize) -> Table
    requires { Used used.now blocks }
    ensures { TidiesTable used.now blocks t result }
{
    let to = leads(used, blocks);
    lead_holds(pack_rows(t, used, blocks), &to)
}
