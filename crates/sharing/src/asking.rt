// A question, once the blocks of its payload are right: from the bytes as they stand, gathered on the stack.
ghost use Rattle.std.specs.Prelude.{◌≤◌, ◌+◌, length, take, drop};
ghost use Rattle.sharing.specs.Calls.{Replies, RepliesAt, Copies};
ghost use Rattle.sharing.specs.Blocks as blocks;
ghost use Rattle.sharing.specs.Marks.{SizeFits};
ghost use Rattle.sharing.specs.Table as table;

use crate::blocks::{BLOCK, BODY, all_right, need};
use crate::storing::{gather, put_part};
use crate::{Told, refuse};
use format::{Edition, FunctionIndex, Offset, Question, Reason, Refusal};
use names::ask;

// What 128 blocks keep of a payload.
const MOST_PAYLOAD: usize = 65024;

// A name to the front of the output; 13 comes last.
fn put_name(payload: &[u8], from: usize, count: usize, out: &mut [u8]) -> Told
    requires { from + count ≤ length payload.now }
    ensures { Copies (take count (drop from payload.now)) out.old out.new result }
{
    if out.len() < count {
        return Err(Refusal {
            reason: Reason::OutputTooShort,
            offset: Offset(count),
        });
    }
    put_part(out, 0, payload, from, count);
    Ok(Some(count))
}

// A function's name from a payload; 27 where it is no longer accepted.
pub fn reply(p: &[u8], function: u32, out: &mut [u8]) -> Told
    ensures { Replies p.now function out.old out.new result }
{
    let question = Question::FunctionName(FunctionIndex(function));
    let Ok(found) = ask(p, Edition::First, question) else {
        return Err(refuse(Reason::Damaged));
    };
    let Some(place) = found else {
        return Ok(None);
    };
    let offset = place.offset;
    put_name(p, offset.0, place.length, out)
}

// The same from its blocks, which are gathered.
fn reply_from(store: &[u8], first: usize, size: usize, function: u32, out: &mut [u8]) -> Told
    requires size_fits { SizeFits store.now first size }
    requires size_bound { size ≤ 65024 }
    ensures { Replies (blocks.gather size (drop first (table.blocks store.now))) function out.old out.new result }
{
    let mut payload = [0u8; MOST_PAYLOAD];
    gather(&mut payload, store, first, size);
    let front = 0;
    reply(&payload[front..size], function, out)
}

// The same from one block, which has all of the payload: it is asked where it lies.
fn reply_in(store: &[u8], first: usize, size: usize, function: u32, out: &mut [u8]) -> Told
    requires size_fits { SizeFits store.now first size }
    requires size_bound { size ≤ 508 }
    ensures { Replies (blocks.gather size (drop first (table.blocks store.now))) function out.old out.new result }
{
    let from = first * BLOCK;
    let end = from + size;
    reply(&store[from..end], function, out)
}

// The same of a row whose blocks may be wrong.
pub fn reply_at(store: &[u8], first: usize, size: usize, function: u32, out: &mut [u8]) -> Told
    requires { length store.now ≤ 65536 }
    ensures { RepliesAt store.now first size function out.old out.new result }
{
    if all_right(store, first, need(size)) {
        if size <= BODY {
            return reply_in(store, first, size, function, out);
        }
        return reply_from(store, first, size, function, out);
    }
    Err(refuse(Reason::Damaged))
}
