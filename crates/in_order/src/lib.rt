// Hints of the older edition that were accepted: whether they are in order already, as compilers write them, and then written, or listed as rows, in one pass.
#![tactic(auto)]

pub mod rows;

ghost use Rattle.std.specs.Prelude.{◌+◌, ◌^◌, ◌≤◌, ◌<◌, ◌++◌, ◌≡◌, length};
ghost use Rattle.copying.specs.Bytes.{one_if_some};
ghost use Rattle.copying.specs.Standing.{Fits, Puts};
ghost use Rattle.format.specs.Numbers.{shortest};
ghost use Rattle.format.specs.Older.{times, older_hint, older_entry};
ghost use Rattle.format.specs.OlderInOrder.{hints_bytes, entries_bytes};
ghost use Rattle.reading.specs.Standing.{Known};
ghost use Rattle.writing.specs.Wrote.{Wrote};
ghost use Rattle.in_order.specs.Entries.{still_rising, entry_of, entry_length};
ghost use Rattle.in_order.specs.Standing.{SurveysHints};
ghost use Rattle.in_order.specs.Promises.{InOrderSurvey, InOrderPutEntries};

use copying::Put;
use older::again::{function_here, hint_here};
use reading::Cursor;
use reading::again::number_here;
use writing::{number_length, put_byte, put_number};

// What stands between an entry's function and its count.
const ZERO: u8 = 0;

// How many bytes a kind takes, and the zero byte.
const KIND_LENGTH: usize = 1;

const ZERO_LENGTH: usize = 1;

// So many hints: whether their offsets rise, how long they are in their fewest bytes, and the cursor behind them.
#[derive(Clone, Copy)]
pub struct HintSurvey {
    pub rising: bool,
    pub length: usize,
    pub next: Cursor,
}

// So many entries: whether their functions and the hints of each rise, how many have hints, how long these are in their fewest bytes, and the cursor behind them.
#[derive(Clone, Copy)]
pub struct EntrySurvey {
    pub rising: bool,
    pub kept: u32,
    pub length: usize,
    pub next: Cursor,
}

// Whether what rose so far does so with one more number, which must be at least `least`.
fn still_rising(rising: bool, least: u64, n: u32) -> bool
    ensures { result ≡ still_rising rising least n }
{
    if rising {
        return least <= n as u64;
    }
    false
}

// So many hints.
fn survey_hints(c: Cursor, s: &[u8], n: u32) -> HintSurvey
    requires { Known (times older_hint n) s.now c }
    ensures { SurveysHints n s.now c result }
{
    let mut next = c;
    let mut more = n;
    let mut rising = true;
    let mut least: u64 = 0;
    let mut length = 0;
    // counted down by hand: around another loop a `for` takes one instruction more a hint, by which rewriting misses its bar
    while 0 < more {
        let hint = hint_here(next, s);
        let offset = hint.offset;
        rising = still_rising(rising, least, offset);
        // In 64 bits, where one more than the greatest 32-bit offset fits.
        least = offset as u64 + 1;
        length = length + KIND_LENGTH + number_length(offset);
        next = hint.next;
        more = more - 1;
    }
    HintSurvey {
        rising,
        length,
        next,
    }
}

// How long an entry is with its function, the zero byte and its count before its hints. Without hints it is left out.
fn entry_length(function: u32, count: u32, hints: usize) -> usize
    requires { length (shortest function) + 1 + length (shortest count) + hints < 2 ^ 64 }
    ensures { result ≡ entry_length function count hints }
{
    if count == 0 {
        return 0;
    }
    let key = number_length(function);
    let size = number_length(count);
    key + ZERO_LENGTH + size + hints
}

// One for an entry with hints.
fn one_if_some(hints: u32) -> u32
    ensures { result ≡ one_if_some hints }
{
    if hints == 0 {
        return 0;
    }
    1
}

// So many entries: lists of hints, each under a function.
pub fn survey(c: Cursor, s: &[u8], n: u32) -> EntrySurvey
    requires { Known (times older_entry n) s.now c }
    ensures { InOrderSurvey c s.now n result }
{
    let mut next = c;
    let mut rising = true;
    let mut least: u64 = 0;
    let mut kept: u32 = 0;
    let mut length = 0;
    for _ in 0..n {
        let entry = function_here(next, s);
        let function = entry.value;
        let count = number_here(entry.next, s);
        let many = count.value;
        let hints = survey_hints(count.next, s, many);
        rising = still_rising(rising & hints.rising, least, function);
        least = function as u64 + 1;
        kept = kept + one_if_some(many);
        length = length + entry_length(function, many, hints.length);
        next = hints.next;
    }
    EntrySurvey {
        rising,
        kept,
        length,
        next,
    }
}

// A hint: its kind, and its offset.
fn put_hint(out: &mut [u8], at: usize, kind: u32, offset: u32) -> usize
    requires { at + length (shortest kind) + length (shortest offset) ≤ length out.old }
    ensures { Wrote out.old out.new at result (shortest kind ++ shortest offset) }
{
    let to = put_number(out, at, kind);
    put_number(out, to, offset)
}

// So many hints.
fn put_hints(out: &mut [u8], at: usize, c: Cursor, s: &[u8], n: u32) -> Put
    requires { Fits (times older_hint n) hints_bytes s.now c out.old at }
    ensures { Puts (times older_hint n) hints_bytes s.now c out.old out.new at result }
{
    let mut next = c;
    let mut more = n;
    let mut to = at;
    // counted down by hand, as in `survey_hints`
    while 0 < more {
        let hint = hint_here(next, s);
        to = put_hint(out, to, hint.kind, hint.offset);
        next = hint.next;
        more = more - 1;
    }
    Put { at: to, next }
}

// An entry with its function, the zero byte and its count before its hints. Without hints it is left out.
fn put_entry(out: &mut [u8], at: usize, function: u32, c: Cursor, s: &[u8], count: u32) -> Put
    requires { Fits (times older_hint count) (entry_of function) s.now c out.old at }
    ensures { Puts (times older_hint count) (entry_of function) s.now c out.old out.new at result }
{
    if count == 0 {
        return Put { at, next: c };
    }
    let zero = put_number(out, at, function);
    let size = put_byte(out, zero, ZERO);
    let hints = put_number(out, size, count);
    put_hints(out, hints, c, s, count)
}

// So many entries.
pub fn put_entries(out: &mut [u8], at: usize, c: Cursor, s: &[u8], n: u32) -> Put
    requires { Fits (times older_entry n) entries_bytes s.now c out.old at }
    ensures { InOrderPutEntries out.old at c s.now n out.new result }
{
    let mut next = c;
    let mut to = at;
    for _ in 0..n {
        let entry = function_here(next, s);
        let count = number_here(entry.next, s);
        let put = put_entry(out, to, entry.value, count.next, s, count.value);
        to = put.at;
        next = put.next;
    }
    Put { at: to, next }
}
