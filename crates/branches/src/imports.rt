// The import list, judged to count the functions that are imported.
ghost use Rattle.std.specs.Prelude.{◌≡◌};
ghost use Rattle.reading.specs.Cursors.{Inside};
ghost use Rattle.branches.specs.Imports.{bounds, limits, description, kind_byte, import_kind, import_entry, functions_in, import_entries, import_list, table_type, global_type};
ghost use Rattle.branches.specs.Reads.{Reads, Counts};

use crate::reads::{Read, byte_read, number_read, refusal};
use format::{Reason, Refusal};
use reading::Cursor;

// The kinds of imports; a global is the last.
const FUNCTION: u32 = 0;

const TABLE: u32 = 1;

const MEMORY: u32 = 2;

const GLOBAL: u32 = 3;

// Limits with an upper bound have this flag, and there is none above.
const BOUNDED: u32 = 1;

// How many functions are imported, or why the list is refused.
pub type Counted = Result<u32, Refusal>;

// The bounds of limits, one or two.
fn bounds_read(c: Cursor, s: &[u8], flag: u32) -> Read
    requires { Inside s.now c }
    ensures { Reads (bounds flag) s.now c result }
{
    let (n, next) = number_read(c, s)?;
    if flag == 0 {
        return Ok((n, next));
    }
    number_read(next, s)
}

fn limits_read(c: Cursor, s: &[u8]) -> Read
    requires { Inside s.now c }
    ensures { Reads limits s.now c result }
{
    let at = c.at;
    let (flag, next) = byte_read(c, s)?;
    if BOUNDED < flag {
        return Err(refusal(Reason::NotImport, at));
    }
    bounds_read(next, s, flag)
}

// A table's type byte, and its limits.
fn table_read(c: Cursor, s: &[u8]) -> Read
    requires { Inside s.now c }
    ensures { Reads table_type s.now c result }
{
    let (_, next) = byte_read(c, s)?;
    limits_read(next, s)
}

// A global's two bytes.
fn global_read(c: Cursor, s: &[u8]) -> Read
    requires { Inside s.now c }
    ensures { Reads global_type s.now c result }
{
    let (_, next) = byte_read(c, s)?;
    byte_read(next, s)
}

// What stands behind the kind.
fn description_read(c: Cursor, s: &[u8], kind: u32) -> Read
    requires { Inside s.now c }
    ensures { Reads (description kind) s.now c result }
{
    if kind == FUNCTION {
        return number_read(c, s);
    }
    if kind == TABLE {
        return table_read(c, s);
    }
    if kind == MEMORY {
        return limits_read(c, s);
    }
    global_read(c, s)
}

// The kind, where two names stand before it.
fn named_kind(c: Cursor, s: &[u8]) -> Read
    requires { Inside s.now c }
    ensures { Reads import_kind s.now c result }
{
    let (_, d, _) = c.name(s)?;
    let (_, e, _) = d.name(s)?;
    kind_read(e, s)
}

// The kind alone.
fn kind_read(c: Cursor, s: &[u8]) -> Read
    requires { Inside s.now c }
    ensures { Reads kind_byte s.now c result }
{
    let at = c.at;
    let (kind, next) = byte_read(c, s)?;
    if GLOBAL < kind {
        return Err(refusal(Reason::NotImport, at));
    }
    Ok((kind, next))
}

// An import, which answers with its kind.
fn entry_read(c: Cursor, s: &[u8]) -> Read
    requires { Inside s.now c }
    ensures { Reads import_entry s.now c result }
{
    let (kind, d) = named_kind(c, s)?;
    let (_, next) = description_read(d, s, kind)?;
    Ok((kind, next))
}

// An import of a function is one function more.
fn functions_in(kind: u32) -> u32
    ensures { result ≡ functions_in kind }
{
    if kind == FUNCTION {
        return 1;
    }
    0
}

// So many imports, which answer with how many functions they are.
fn entries_read(c: Cursor, s: &[u8], n: u32) -> Read
    requires { Inside s.now c }
    ensures { Reads (import_entries n 0) s.now c result }
{
    let mut next = c;
    let mut functions: u32 = 0;
    for _ in 0..n {
        let (kind, after) = entry_read(next, s)?;
        functions = functions + functions_in(kind);
        next = after;
    }
    Ok((functions, next))
}

// How many, and so many.
fn list_read(c: Cursor, s: &[u8]) -> Read
    requires { Inside s.now c }
    ensures { Reads import_list s.now c result }
{
    let (n, next) = number_read(c, s)?;
    entries_read(next, s, n)
}

// The list fills its section.
pub fn imports_in(c: Cursor, s: &[u8]) -> Counted
    requires { Inside s.now c }
    ensures { Counts s.now c result }
{
    let (functions, next) = list_read(c, s)?;
    if next.at < next.end {
        return Err(refusal(Reason::LeftOver, next.at));
    }
    Ok(functions)
}
