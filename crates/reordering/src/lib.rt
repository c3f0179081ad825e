// K2: the canonical rewriting of hints of the older edition, whether a payload is its own, and every pair as a row (`listing`). Every public call takes any bytes. Hints that are in order already, as compilers write them, are put in one pass; others with a window of fixed size, in as many passes as it is filled.
#![tactic(auto)]

pub mod listing;

ghost use Rattle.format.specs.Older.{times, vector, older_entry};
ghost use Rattle.reading.specs.Standing.{Known};
ghost use Rattle.reordering.specs.Promises.{ReorderingCanonical, ReorderingIsCanonical};
ghost use Rattle.reordering.specs.Rewritten.{ReadyRising, RewritesEntries, RewritesOlder, TellsOlder};

use format::{Offset, Reason, Refusal, Written};
use in_order::{EntrySurvey, put_entries, survey};
use out_of_order::{measure, put};
use reading::Cursor;
use reading::again::number_here;
use writing::{number_length, put_number};

// So many hints are taken in one pass.
const WINDOW: usize = 2048;

// A payload may have so many bytes.
const MOST: usize = 4_294_967_295;

const TOO_LONG: Refusal = Refusal {
    reason: Reason::SubsectionTooLarge,
    offset: Offset(0),
};

// The canonical form of a payload.
pub fn canonical(p: &[u8], out: &mut [u8]) -> Written
    ensures { ReorderingCanonical p.now out.old out.new result }
{
    older::judge(p)?;
    put_payload(p, Cursor::over(p), out)
}

// Whether a payload is its own canonical form: it is in order, and comes out as long as it is.
pub fn is_canonical(p: &[u8]) -> bool
    ensures { ReorderingIsCanonical p.now result }
{
    match older::judge(p) {
        Err(_) => false,
        Ok(()) => tells(p, Cursor::over(p)),
    }
}

// A payload that was accepted.
fn put_payload(p: &[u8], c: Cursor, out: &mut [u8]) -> Written
    requires { Known (vector older_entry) p.now c }
    ensures { RewritesOlder p.now c out.old out.new result }
{
    let count = number_here(c, p);
    let n = count.value;
    let entries = count.next;
    let found = survey(entries, p, n);
    if found.rising {
        return put_rising(p, entries, n, found, out);
    }
    put_unordered(p, entries, n, out)
}

// Entries that are in order.
fn put_rising(p: &[u8], c: Cursor, n: u32, found: EntrySurvey, out: &mut [u8]) -> Written
    requires { ReadyRising n p.now c found }
    ensures { RewritesEntries n p.now c out.old out.new result }
{
    let needed = number_length(found.kept) + found.length;
    if MOST < needed {
        return Err(TOO_LONG);
    }
    if out.len() < needed {
        return Err(Refusal {
            reason: Reason::OutputTooShort,
            offset: Offset(needed),
        });
    }
    let at = put_number(out, 0, found.kept);
    let all = put_entries(out, at, c, p, n);
    Ok(all.at)
}

// Entries that are not. They are measured first, so that nothing is stored where the output is too short.
fn put_unordered(p: &[u8], c: Cursor, n: u32, out: &mut [u8]) -> Written
    requires { Known (times older_entry n) p.now c }
    ensures { RewritesEntries n p.now c out.old out.new result }
{
    let mut keys = [0u64; WINDOW];
    let mut orders = [0u64; WINDOW];
    let needed = measure(&mut keys, &mut orders, c, p, n);
    if MOST < needed {
        return Err(TOO_LONG);
    }
    if out.len() < needed {
        return Err(Refusal {
            reason: Reason::OutputTooShort,
            offset: Offset(needed),
        });
    }
    put(out, needed, &mut keys, &mut orders, c, p, n);
    Ok(needed)
}

// Whether a payload that was accepted is its own canonical form.
fn tells(p: &[u8], c: Cursor) -> bool
    requires { Known (vector older_entry) p.now c }
    ensures { TellsOlder p.now c result }
{
    let count = number_here(c, p);
    let found = survey(count.next, p, count.value);
    if found.rising {
        let needed = number_length(found.kept) + found.length;
        if MOST < needed {
            return false;
        }
        return needed == p.len();
    }
    false
}
