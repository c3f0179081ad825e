// The lines of the listing. Each function returns where the next one starts.
ghost use Rattle.std.specs.Prelude.{[], ◌∷◌, ◌++◌, ◌≡◌, ◌≤◌, ◌<◌, ◌+◌, length};
ghost use Rattle.format.specs.Listing.{decimal, num, line, printed};
ghost use Rattle.format.specs.Reading.{refused};
ghost use Rattle.format.specs.Refusals.{number_of};
ghost use Rattle.listing.specs.Lines.{space, labelled};
ghost use Rattle.writing.specs.Wrote.{Wrote};

use format::Refusal;
use writing::{put_byte, put_bytes, put_decimal};

// A word and the space behind it.
pub fn put_word(out: &mut [u8], at: usize, word: &[u8]) -> usize
    requires { at + length word.now < length out.old }
    ensures wrote { Wrote out.old out.new at result (word.now ++ space) }
    ensures value { result ≡ at + length word.now + 1 }
{
    let next = put_bytes(out, at, word);
    put_byte(out, next, b' ')
}

// A number and the byte behind it.
pub fn put_number(out: &mut [u8], at: usize, n: u64, behind: u8) -> usize
    requires { at + 21 ≤ length out.old }
    ensures wrote { Wrote out.old out.new at result (decimal n ++ (behind ∷ [])) }
    ensures upper_bound { result ≤ at + 21 }
{
    let next = put_decimal(out, at, n);
    put_byte(out, next, behind)
}

// Two numbers to the end of a line.
fn put_pair(out: &mut [u8], at: usize, a: u64, b: u64) -> usize
    requires { at + 42 ≤ length out.old }
    ensures wrote { Wrote out.old out.new at result (line (num a ∷ num b ∷ [])) }
    ensures upper_bound { result ≤ at + 42 }
{
    let next = put_number(out, at, a, b' ');
    put_number(out, next, b, b'\n')
}

// The line of a section: its id, the offset of its id byte and the length of its contents.
pub fn put_section(out: &mut [u8], at: usize, id: u8, offset: usize, size: usize) -> usize
    requires { at + 64 ≤ length out.old }
    ensures wrote { Wrote out.old out.new at result (line (num id ∷ num offset ∷ num size ∷ [])) }
    ensures upper_bound { result ≤ at + 64 }
{
    let next = put_number(out, at, id as u64, b' ');
    put_pair(out, next, offset as u64, size as u64)
}

// The line of a word and two numbers.
pub fn put_labelled(out: &mut [u8], at: usize, label: &[u8], a: u64, b: u64) -> usize
    requires { at + length label.now + 43 ≤ length out.old }
    ensures wrote { Wrote out.old out.new at result (labelled label.now (num a ∷ num b ∷ [])) }
    ensures upper_bound { result ≤ at + length label.now + 43 }
{
    let next = put_word(out, at, label);
    put_pair(out, next, a, b)
}

// A refusal's number and offset: the only line of a refused module.
pub fn put_refusal(out: &mut [u8], r: Refusal) -> usize
    requires { 64 ≤ length out.old }
    ensures { Wrote out.old out.new 0 result (printed (refused (number_of r.reason) r.offset.0)) }
{
    let reason = r.reason;
    let offset = r.offset;
    put_labelled(out, 0, b"refused", reason.number() as u64, offset.0 as u64)
}
