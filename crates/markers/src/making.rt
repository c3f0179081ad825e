// The markers of an accepted payload, put into two lent lists.
ghost use Rattle.std.specs.Prelude.{◌<◌, length};
ghost use Rattle.format.specs.Numbers.{limit32};
ghost use Rattle.format.specs.Parts.{sized};
ghost use Rattle.format.specs.Tables.{table};
ghost use Rattle.reading.specs.Standing.{Known};
ghost use Rattle.markers.specs.Making.{Room, PutsAll, Marks};
ghost use Rattle.markers.specs.Promises.{MarkersMake};

use crate::passing::{index_here, sixteen_on};
use crate::{STRIDE, TOO_LONG, refused};
use format::{Answer, Edition, FUNCTION_NAMES, Offset, Place, Reason};
use names::judging::{find, judge};
use reading::Cursor;
use tables::stepping::{Rows, rows_here};

// Puts index and offset of every sixteenth entry into the lists, which have room.
fn put_markers(all: Rows, s: &[u8], indices: &mut [u32], offsets: &mut [u32])
    requires { Room s.now all indices.old offsets.old }
    ensures { PutsAll s.now all indices.old offsets.old indices.new offsets.new }
{
    let mut left = all;
    let mut k: usize = 0;
    loop {
        let next = left.next;
        let at = next.at;
        let index = index_here(next, s);
        indices[k] = index.value;
        offsets[k] = at as u32;
        k += 1;
        if left.more <= STRIDE {
            return;
        }
        left = sixteen_on(left, s, index);
    }
}

// The markers of the map that stands here. How many there are is known from its count, before the lists are touched.
fn mark(c: Cursor, s: &[u8], indices: &mut [u32], offsets: &mut [u32]) -> Answer
    requires known { Known (table sized) s.now c }
    requires s_len_bound { length s.now < limit32 }
    ensures { Marks s.now c indices.old offsets.old indices.new offsets.new result }
{
    let end = c.end;
    let all = rows_here(c, s);
    let stride = STRIDE as usize;
    let count = (all.more as usize + (stride - 1)) / stride;
    if indices.len() < count {
        return refused(Reason::OutputTooShort, count);
    }
    if offsets.len() < count {
        return refused(Reason::OutputTooShort, count);
    }
    if 0 < count {
        put_markers(all, s, indices, offsets);
    }
    Ok(Some(Place {
        offset: Offset(end),
        length: count,
    }))
}

// The payload is judged whole, and only then are the lists touched.
pub fn make(p: &[u8], indices: &mut [u32], offsets: &mut [u32]) -> Answer
    ensures { MarkersMake p.now indices.old offsets.old indices.new offsets.new result }
{
    judge(p, Edition::First)?;
    // looked for before the length is: behind that test the loop takes an instruction more a name
    let place = find(p, Cursor::over(p), FUNCTION_NAMES);
    if TOO_LONG <= p.len() {
        return refused(Reason::SubsectionTooLarge, 0);
    }
    match place {
        None => Ok(Some(Place {
            offset: Offset(0),
            length: 0,
        })),
        Some(part) => mark(part, p, indices, offsets),
    }
}
