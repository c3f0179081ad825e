// Free blocks: the first run of them that is long enough.
ghost use Rattle.std.specs.Prelude.{◌≡◌, ◌<◌, max};
ghost use Rattle.sharing.specs.Marks.{Walkable, FindsRun};
ghost use Rattle.sharing.specs.Table.{mark};
ghost use Rattle.sharing.specs.Table as table;

use crate::PLACES;
use crate::blocks::{BLOCK, as_size, need};
use crate::rows::Row;

// How many blocks from this one on are had by rows, if rows before it have so many of them.
pub fn covered(cover: usize, users: u8, size: u32) -> usize
    ensures { result ≡ max cover (table.reach (mark users size)) }
{
    if users == 0 {
        return cover;
    }
    let own = need(as_size(size));
    if own < cover {
        return cover;
    }
    own
}

// Where the first run of so many free blocks starts.
pub fn first_run<'a>(
    users: &'a [u8; PLACES],
    sizes: &'a [u32; PLACES],
    store: &[u8],
    wanted: usize,
) -> Row
    requires walkable { Walkable users.now sizes.now store.now }
    requires wanted_nonzero { 0 < wanted }
    ensures { FindsRun users.now sizes.now store.now wanted result }
{
    let blocks = store.len() / BLOCK;
    let mut b = 0;
    let mut cover = 0;
    let mut free = 0;
    while b < blocks {
        cover = covered(cover, users[b], sizes[b]);
        b += 1;
        if 0 < cover {
            cover -= 1;
            free = 0;
        } else {
            free += 1;
            if free == wanted {
                return Some(b - wanted);
            }
        }
    }
    None
}
