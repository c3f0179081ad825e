// Judges and searches, in one pass, lists of (rising number, value) and lists of (rising number, such a list).
#![tactic(auto)]

ghost use Rattle.std.proofs.Math.Option.{some};
ghost use Rattle.std.specs.Prelude.{◌≡◌};
ghost use Rattle.format.specs.Options.{is_some};
ghost use Rattle.format.specs.Metadata.{hint_of};
ghost use Rattle.format.specs.Text.{utf8};
ghost use Rattle.format.specs.Tables.{table};
ghost use Rattle.reading.specs.Cursors.{Inside, left};
ghost use Rattle.tables.specs.Seeking.{reader_of, is_item, not_item, wanted_in, sought, Seeks};
ghost use Rattle.tables.specs.Steps.{is_short_hint, is_short, IndexReads, RowReads, kept_of, sought_rows};
ghost use Rattle.tables.specs.Promises.{TablesValue, TablesTables};

use format::{Offset, Reason, Refusal};
use reading::text::is_text;
use reading::{Cursor, NumberRead, PartRead};

pub mod finding;
pub mod judging;
pub mod stepping;
pub mod telling;

// A hint's data is one byte.
const HINT_SIZE: usize = 1;

// The data of a hint is below this: 0 is unlikely, 1 likely.
const HINT_VALUES: u8 = 2;

// A hint in its fewest bytes is this byte, its size, and its data.
const SHORT_SIZE: u8 = 1;

const SHORT_HINT: usize = 2;

// What a row's value is: a name, data of any size, or a branch hint.
#[derive(Clone, Copy)]
pub enum Item {
    Name,
    Data,
    Hint,
}

// What a search is for: what a table has at this number.
#[derive(Clone, Copy)]
pub struct Wanted(pub u64);

// No row has this number, which is above those that 32 bits hold: where nothing is wanted, a table is judged alone.
pub const NOTHING: Wanted = Wanted(0x1_0000_0000);

// What a search finds: the cursor behind the table, and before it the part that was found.
pub type Seek = Result<(Held, Cursor), Refusal>;

// The part that was found so far, or that one row or a whole list answers with.
pub type Held = Option<Cursor>;

// What reading a row finds: its number, what its value answers, and the cursor behind it.
type RowRead = Result<(u32, Held, Cursor), Refusal>;

// Whether a part is one byte that is 0 or 1.
fn is_hint(s: &[u8], part: Cursor) -> bool
    requires { Inside s.now part }
    ensures { result ≡ is_some (hint_of (left s.now part)) }
{
    let at = part.at;
    if part.end - at == HINT_SIZE {
        return s[at] < HINT_VALUES;
    }
    false
}

// Whether a part is valid UTF-8.
fn is_name(s: &[u8], part: Cursor) -> bool
    requires { Inside s.now part }
    ensures { result ≡ utf8 (left s.now part) }
{
    let at = part.at;
    is_text(s, at, part.end)
}

// Whether a part is what an item has to be.
fn is_item(s: &[u8], part: Cursor, item: Item) -> bool
    requires { Inside s.now part }
    ensures { result ≡ is_item item (left s.now part) }
{
    match item {
        Item::Name => is_name(s, part),
        Item::Data => true,
        Item::Hint => is_hint(s, part),
    }
}

// The refusal of a part that is not: a hint's points to the size number, a name's to the text.
fn not_item(item: Item, size: usize, text: usize) -> Refusal
    ensures { result ≡ not_item item size text }
{
    let not_text = Refusal {
        reason: Reason::NotText,
        offset: Offset(text),
    };
    match item {
        Item::Name => not_text,
        // never asked for: data may be any bytes
        Item::Data => not_text,
        Item::Hint => Refusal {
            reason: Reason::NotHint,
            offset: Offset(size),
        },
    }
}

// Whether a hint in its fewest bytes begins here: its size, which is 1, and its data. Nearly all are written so.
fn is_short_hint(s: &[u8], c: Cursor) -> bool
    requires { Inside s.now c }
    ensures { result ≡ is_short_hint (left s.now c) }
{
    let at = c.at;
    if c.end - at < SHORT_HINT {
        return false;
    }
    if s[at] == SHORT_SIZE {
        return s[at + 1] < HINT_VALUES;
    }
    false
}

// Whether an item begins here that is a hint in its fewest bytes.
fn is_short(s: &[u8], c: Cursor, item: Item) -> bool
    requires { Inside s.now c }
    ensures { result ≡ is_short item (left s.now c) }
{
    match item {
        Item::Name => false,
        Item::Data => false,
        Item::Hint => is_short_hint(s, c),
    }
}

// A row's value: every item is a sized part.
pub fn value(c: Cursor, s: &[u8], item: Item) -> PartRead
    requires { Inside s.now c }
    ensures { TablesValue c s.now item result }
{
    let size = c.at;
    if is_short(s, c, item) {
        let data = size + 1;
        let behind = data + 1;
        let part = Cursor {
            at: data,
            end: behind,
        };
        let next = Cursor {
            at: behind,
            end: c.end,
        };
        return Ok((part, next, true));
    }
    let (part, next, shortest) = c.sized(s)?;
    if is_item(s, part, item) {
        return Ok((part, next, shortest));
    }
    Err(not_item(item, size, part.at))
}

// A row's number, which is at least `least`.
fn index(c: Cursor, s: &[u8], least: u64) -> NumberRead
    requires { Inside s.now c }
    ensures { IndexReads least s.now c result }
{
    let first = c.at;
    let (k, next, shortest) = c.number(s)?;
    if (k as u64) < least {
        return Err(Refusal {
            reason: Reason::NotAbove,
            offset: Offset(first),
        });
    }
    Ok((k, next, shortest))
}

// A row whose value is an item, which answers with itself.
fn row(c: Cursor, s: &[u8], item: Item, least: u64) -> RowRead
    requires { Inside s.now c }
    ensures { RowReads (reader_of item) some least s.now c result }
{
    let (k, d, _) = index(c, s, least)?;
    let (part, next, _) = value(d, s, item)?;
    Ok((k, Some(part), next))
}

// A row whose value is a table, which answers with what is wanted of it.
fn group(c: Cursor, s: &[u8], item: Item, inner: Wanted, least: u64) -> RowRead
    requires { Inside s.now c }
    ensures { RowReads (table (reader_of item)) (wanted_in inner) least s.now c result }
{
    let (k, d, _) = index(c, s, least)?;
    let (answer, next) = table(d, s, item, inner)?;
    Ok((k, answer, next))
}

// What is held once a row was passed: the first answer of a row with the key.
fn kept(held: Held, key: u64, k: u32, answer: Held) -> Held
    ensures { result ≡ kept_of held key k answer }
{
    if key == (k as u64) {
        return held.or(answer);
    }
    held
}

// So many rows with items.
fn table_rows(c: Cursor, s: &[u8], item: Item, key: u64, n: u32) -> Seek
    requires { Inside s.now c }
    ensures { Seeks (sought_rows (reader_of item) some key n) s.now c result }
{
    let mut next = c;
    let mut least: u64 = 0;
    let mut held = None;
    for _ in 0..n {
        let (k, answer, after) = row(next, s, item, least)?;
        held = kept(held, key, k, answer);
        next = after;
        least = (k as u64) + 1;
    }
    Ok((held, next))
}

// A list of (rising number, item): what is wanted of it.
fn table(c: Cursor, s: &[u8], item: Item, wanted: Wanted) -> Seek
    requires { Inside s.now c }
    ensures { Seeks (sought (reader_of item) wanted) s.now c result }
{
    let (n, d, _) = c.number(s)?;
    table_rows(d, s, item, wanted.0, n)
}

// So many rows with tables.
fn tables_rows(c: Cursor, s: &[u8], item: Item, key: u64, inner: Wanted, n: u32) -> Seek
    requires { Inside s.now c }
    ensures { Seeks (sought_rows (table (reader_of item)) (wanted_in inner) key n) s.now c result }
{
    let mut next = c;
    let mut least: u64 = 0;
    let mut held = None;
    // counted down: around another loop a counter that rises is two numbers to keep
    for _ in (0..n).rev() {
        let (outer, answer, after) = group(next, s, item, inner, least)?;
        held = kept(held, key, outer, answer);
        next = after;
        least = (outer as u64) + 1;
    }
    Ok((held, next))
}

// A list of (rising number, table): what is wanted of the one that is wanted.
pub fn tables(c: Cursor, s: &[u8], item: Item, wanted: Wanted, inner: Wanted) -> Seek
    requires { Inside s.now c }
    ensures { TablesTables c s.now item wanted inner result }
{
    let (n, d, _) = c.number(s)?;
    tables_rows(d, s, item, wanted.0, inner, n)
}
