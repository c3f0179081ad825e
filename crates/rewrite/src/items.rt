// Code metadata that was accepted, written anew: each number in its fewest bytes, and no function without items.
ghost use Rattle.reading.specs.Standing.{Known};
ghost use Rattle.format.specs.Parts.{sized};
ghost use Rattle.format.specs.Tables.{table};
ghost use Rattle.rewrite.specs.Items.{RewritesItems};

use crate::whole::put_whole;
use copying::{groups_length, put_groups};
use format::{Offset, Reason, Refusal, Written};
use reading::Cursor;
use reading::again::number_here;
use writing::{number_length, put_number};

// All functions with their items. They are measured first, so that nothing is stored where the output is too short; and where they come out as long as they are, they are copied.
pub fn put_items(p: &[u8], c: Cursor, out: &mut [u8]) -> Written
    requires { Known (table (table sized)) p.now c }
    ensures { RewritesItems p.now c out.old out.new result }
{
    let count = number_here(c, p);
    let functions = groups_length(count.next, p, count.value);
    let size = number_length(functions.kept);
    let needed = size + functions.length;
    if out.len() < needed {
        return Err(Refusal {
            reason: Reason::OutputTooShort,
            offset: Offset(needed),
        });
    }
    if needed == c.end - c.at {
        let end = put_whole(out, 0, p, c);
        return Ok(end);
    }
    let first = put_number(out, 0, functions.kept);
    let all = put_groups(out, first, count.next, p, count.value);
    Ok(all.at)
}
