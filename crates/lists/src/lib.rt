// Function names, written from three lent lists: indices, name lengths in bytes, and the text of all names joined.
#![tactic(auto)]

ghost use Rattle.std.specs.Prelude.{◌++◌, ◌≡◌, ◌≤◌, ◌<◌, ◌+◌, eqb, length};
ghost use Rattle.format.specs.Canonical.{write_part};
ghost use Rattle.format.specs.Lists.{sum};
ghost use Rattle.format.specs.Numbers.{shortest, limit32};
ghost use Rattle.format.specs.Outputs.{Writes};
ghost use Rattle.format.specs.Reading.{accepted};
ghost use Rattle.lists.specs.Steps.{agree, checked_as, index_check, text_check, row_length, rows_length, contents_as, size_check, lists_judged, Joined, Measured, rows_of, needed_for, filled, payload};
ghost use Rattle.writing.specs.Wrote.{Wrote};
ghost use Rattle.lists.specs.Promises.{ListsFunctionNames};

use format::{Offset, Reason, Refusal, Written};
use reading::text::is_text;
use writing::{number_length, put_byte, put_bytes, put_number};

// The subsection that holds function names.
const FUNCTION_NAMES: u8 = 1;

const ID_LENGTH: usize = 1;

// Contents of so many bytes or more have no size number.
const TOO_LARGE: usize = 1 << 32;

// What a check of the lists finds.
type Checked = Result<(), Refusal>;

// How long the subsection's contents are.
type Contents = Result<u32, Refusal>;

// A number of the lists, as a size.
fn wide(n: u32) -> usize
    ensures value { result ≡ n }
    ensures upper_bound { result < limit32 }
{
    n as usize
}

// Whether the lengths add up to `total`: each is taken from what is left, since their sum may pass 64 bits.
fn adds_up(lengths: &[u32], total: usize) -> bool
    ensures { result ≡ eqb (sum lengths.now) total }
{
    let mut left = total;
    let mut k = 0;
    while k < lengths.len() {
        let size = wide(lengths[k]);
        if left < size {
            return false;
        }
        left = left - size;
        k += 1;
    }
    left == 0
}

// Whether there is a length for each index, and the lengths add up to the text.
fn all_agree(indices: &[u32], lengths: &[u32], text: &[u8]) -> bool
    ensures { result ≡ agree indices.now lengths.now text.now }
{
    if indices.len() == lengths.len() {
        return adds_up(lengths, text.len());
    }
    false
}

// Each index is above the one before. The refusal points to the position in the list.
fn check_indices(indices: &[u32]) -> Checked
    ensures { checked_as result ≡ index_check indices.now }
{
    let mut least: usize = 0;
    let mut k = 0;
    while k < indices.len() {
        let index = wide(indices[k]);
        if index < least {
            return Err(Refusal {
                reason: Reason::NotAbove,
                offset: Offset(k),
            });
        }
        least = index + 1;
        k += 1;
    }
    Ok(())
}

// Each name is valid UTF-8. The refusal points to where the name starts in the joined text.
fn check_text(lengths: &[u32], text: &[u8]) -> Checked
    requires { sum lengths.now ≤ length text.now }
    ensures { checked_as result ≡ text_check lengths.now text.now }
{
    let mut start: usize = 0;
    let mut k = 0;
    while k < lengths.len() {
        let size = wide(lengths[k]);
        let end = start + size;
        if !is_text(text, start, end) {
            return Err(Refusal {
                reason: Reason::NotText,
                offset: Offset(start),
            });
        }
        start = end;
        k += 1;
    }
    Ok(())
}

// How many bytes an index, a name's length and the name take.
fn row_length(index: u32, size: u32) -> usize
    ensures value { result ≡ row_length index size }
    ensures upper_bound { result < limit32 + limit32 }
{
    let before = number_length(index) + number_length(size);
    before + wide(size)
}

// How long the contents are, unless too large. The sum stops at the first row that makes them so.
fn measure(indices: &[u32], lengths: &[u32]) -> Contents
    requires { length indices.now ≡ length lengths.now }
    ensures { contents_as result ≡ size_check indices.now lengths.now }
{
    let too_large = Err(Refusal {
        reason: Reason::SubsectionTooLarge,
        offset: Offset(0),
    });
    let count = indices.len();
    // every row has bytes of its own, so that as many rows are too large as well
    if TOO_LARGE <= count {
        return too_large;
    }
    let mut total = number_length(count as u32);
    let mut k = 0;
    while k < count {
        let row = row_length(indices[k], lengths[k]);
        total = total + row;
        if TOO_LARGE <= total {
            return too_large;
        }
        k += 1;
    }
    Ok(total as u32)
}

// Every check in its order, then how long the contents are.
#[tactic(auto, using(crate::proofs::Verdicts::verdicts))]
fn judge(indices: &[u32], lengths: &[u32], text: &[u8]) -> Contents
    ensures { contents_as result ≡ lists_judged indices.now lengths.now text.now }
{
    if !all_agree(indices, lengths, text) {
        return Err(Refusal {
            reason: Reason::ListsDisagree,
            offset: Offset(0),
        });
    }
    check_indices(indices)?;
    check_text(lengths, text)?;
    measure(indices, lengths)
}

// An index, a name's length and the name.
fn put_row(out: &mut [u8], at: usize, index: u32, size: u32, name: &[u8]) -> usize
    requires { (length name.now ≡ size) × (at + row_length index size ≤ length out.old) }
    ensures { Wrote out.old out.new at result (shortest index ++ write_part name.now) }
{
    let size_at = put_number(out, at, index);
    let name_at = put_number(out, size_at, size);
    put_bytes(out, name_at, name)
}

// A row for each index.
fn put_rows(out: &mut [u8], at: usize, indices: &[u32], lengths: &[u32], text: &[u8]) -> usize
    requires joined { Joined indices.now lengths.now text.now }
    requires lengths_in_bounds { at + rows_length indices.now lengths.now ≤ length out.old }
    ensures { Wrote out.old out.new at result (rows_of indices.now lengths.now text.now) }
{
    let mut next = at;
    let mut start: usize = 0;
    let mut k = 0;
    while k < indices.len() {
        let index = indices[k];
        let size = lengths[k];
        let end = start + wide(size);
        next = put_row(out, next, index, size, &text[start..end]);
        start = end;
        k += 1;
    }
    next
}

// The subsection: its id, how long its contents are, and the contents.
fn put_subsection(out: &mut [u8], indices: &[u32], lengths: &[u32], text: &[u8], size: u32) -> usize
    requires measured { Measured indices.now lengths.now text.now size }
    requires size_in_bounds { needed_for size ≤ length out.old }
    ensures { Wrote out.old out.new 0 result (filled indices.now lengths.now text.now size) }
{
    let size_at = put_byte(out, 0, FUNCTION_NAMES);
    let count_at = put_number(out, size_at, size);
    let rows_at = put_number(out, count_at, indices.len() as u32);
    put_rows(out, rows_at, indices, lengths, text)
}

// Writes the payload, if the output has room for it. Empty lists give an empty payload.
fn write(out: &mut [u8], indices: &[u32], lengths: &[u32], text: &[u8], size: u32) -> Written
    requires { Measured indices.now lengths.now text.now size }
    ensures { Writes (accepted (payload indices.now lengths.now text.now)) out.old out.new result }
{
    if indices.len() == 0 {
        return Ok(0);
    }
    let before = ID_LENGTH + number_length(size);
    let needed = before + wide(size);
    if out.len() < needed {
        return Err(Refusal {
            reason: Reason::OutputTooShort,
            offset: Offset(needed),
        });
    }
    let end = put_subsection(out, indices, lengths, text, size);
    Ok(end)
}

// Writes one subsection of function names in canonical form. Nothing is stored before all is known to fit.
pub fn function_names(indices: &[u32], lengths: &[u32], text: &[u8], out: &mut [u8]) -> Written
    ensures { ListsFunctionNames indices.now lengths.now text.now out.old out.new result }
{
    let size = judge(indices, lengths, text)?;
    write(out, indices, lengths, text, size)
}
