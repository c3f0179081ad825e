// Walks over the marks and the blocks. A row is known by its first block: its users and its size stand there.
ghost use Rattle.std.specs.Prelude.{◌≡◌, ◌≤◌, ◌<◌, ◌+◌, length, take, drop};
ghost use Rattle.format.specs.Bytes.{same};
ghost use Rattle.sharing.specs.Arrays.{marks_from};
ghost use Rattle.sharing.specs.Blocks.{gather};
ghost use Rattle.sharing.specs.Marks.{Walkable, RightRows, FitsRow, SizeFits, RowRight, RowHolds, FindsRow};
ghost use Rattle.sharing.specs.Table.{rows_right};
ghost use Rattle.sharing.specs.Table as table;

use crate::PLACES;
use crate::blocks::{BLOCK, BODY, all_right, as_size, need};

// The first block of a row, if there is one.
pub type Row = Option<usize>;

// Whether the blocks of a row are right, if there is one.
fn row_right<'a>(users: &'a [u8; PLACES], sizes: &'a [u32; PLACES], store: &[u8], at: usize) -> bool
    requires { at < 128 }
    ensures { RowRight users.now sizes.now store.now at result }
{
    if users[at] == 0 {
        return true;
    }
    all_right(store, at, need(as_size(sizes[at])))
}

// Whether every block of every row is there with a right check.
pub fn rows_right<'a>(users: &'a [u8; PLACES], sizes: &'a [u32; PLACES], store: &[u8]) -> bool
    requires { Walkable users.now sizes.now store.now }
    ensures { result ≡ rows_right (marks_from users.now sizes.now) (table.blocks store.now) }
{
    let blocks = store.len() / BLOCK;
    let mut b = 0;
    while b < blocks {
        if row_right(users, sizes, store, b) {
            b += 1;
        } else {
            return false;
        }
    }
    true
}

// Whether so many bytes of the one and of the other are equal.
fn same_part(s: &[u8], at: usize, q: &[u8], from: usize, count: usize) -> bool
    requires count_in_bounds { at + count ≤ length s.now }
    requires count_in_bounds_2 { from + count ≤ length q.now }
    ensures { result ≡ same (take count (drop at s.now)) (take count (drop from q.now)) }
{
    let mut k = 0;
    while k < count {
        if s[at + k] == q[from + k] {
            k += 1;
        } else {
            return false;
        }
    }
    true
}

// Whether a payload stands in the store from a block on.
fn holds_payload(store: &[u8], first: usize, q: &[u8]) -> bool
    requires { SizeFits store.now first (length q.now) }
    ensures { result ≡ same (gather (length q.now) (drop first (table.blocks store.now))) q.now }
{
    let mut at = first * BLOCK;
    let mut from = 0;
    while BODY < q.len() - from {
        if same_part(store, at, q, from, BODY) {
            at += BLOCK;
            from += BODY;
        } else {
            return false;
        }
    }
    same_part(store, at, q, from, q.len() - from)
}

// The same of a payload whose size is known: of two of one size the bytes are compared.
fn holds_sized(store: &[u8], first: usize, size: u32, q: &[u8]) -> bool
    requires { SizeFits store.now first size }
    ensures { result ≡ same (gather size (drop first (table.blocks store.now))) q.now }
{
    if as_size(size) == q.len() {
        return holds_payload(store, first, q);
    }
    false
}

// Whether there is a row at a block that holds a payload.
fn row_holds<'a>(
    users: &'a [u8; PLACES],
    sizes: &'a [u32; PLACES],
    store: &[u8],
    at: usize,
    q: &[u8],
) -> bool
    requires { FitsRow users.now sizes.now store.now at }
    ensures { RowHolds users.now sizes.now store.now at q.now result }
{
    if users[at] == 0 {
        return false;
    }
    holds_sized(store, at, sizes[at], q)
}

// The first row that holds a payload.
pub fn find<'a>(users: &'a [u8; PLACES], sizes: &'a [u32; PLACES], store: &[u8], q: &[u8]) -> Row
    requires walkable { Walkable users.now sizes.now store.now }
    requires right_rows { RightRows users.now sizes.now store.now }
    ensures { FindsRow users.now sizes.now store.now q.now result }
{
    let blocks = store.len() / BLOCK;
    let mut b = 0;
    while b < blocks {
        if row_holds(users, sizes, store, b, q) {
            return Some(b);
        }
        b += 1;
    }
    None
}
