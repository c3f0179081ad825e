// The older edition of branch hints (K2): judged, and asked for the first hint of a pair, in one pass each. Every public call takes any bytes.
#![tactic(auto)]

ghost use Rattle.std.specs.Prelude.{◌≡◌};
ghost use Rattle.format.specs.Older.{times, vector, older_hint, older_entry, first_at, first_in};
ghost use Rattle.reading.specs.Cursors.{Inside};
ghost use Rattle.older.specs.Seeking.{at_offset, first_where, in_function, nothing, asked, Seeks, held_as, filled_with};
ghost use Rattle.older.specs.Promises.{OlderHintIn, OlderJudgeIn, OlderJudge, IsOlderHint};

use crate::judging::{entries, kind, zero_byte};
use format::{
    FunctionIndex, Hint, HintAnswer, InstructionOffset, Offset, Reason, Refusal, Verdict,
};
use reading::Cursor;

pub mod again;
mod judging;

// A kind that is unlikely.
const UNLIKELY: u32 = 0;

// What reading and asking finds: what one hint, one entry or a list answers with, and the cursor behind what was read.
type Seek = Result<(Option<Hint>, Cursor), Refusal>;

// What a hint at an offset answers where this one is wanted.
fn held_at(wanted: u32, offset: u32, kind: u32) -> Option<Hint>
    ensures { result ≡ held_as wanted offset kind }
{
    if wanted == offset {
        if kind == UNLIKELY {
            return Some(Hint::Unlikely);
        }
        return Some(Hint::Likely);
    }
    None
}

// A hint: its kind, and then its offset.
fn hint_here(c: Cursor, s: &[u8], wanted: u32) -> Seek
    requires { Inside s.now c }
    ensures { Seeks (asked (at_offset wanted) older_hint) s.now c result }
{
    let (k, d, _) = kind(c, s)?;
    let (offset, next, _) = d.number(s)?;
    Ok((held_at(wanted, offset, k), next))
}

// So many hints, in any order.
fn hints_times(c: Cursor, s: &[u8], wanted: u32, n: u32) -> Seek
    requires { Inside s.now c }
    ensures { Seeks (asked (first_at wanted) (times older_hint n)) s.now c result }
{
    let mut next = c;
    let mut held = None;
    for _ in 0..n {
        let (answer, after) = hint_here(next, s, wanted)?;
        held = held.or(answer);
        next = after;
    }
    Ok((held, next))
}

// A hint of a function that is not wanted. Judging has the same step and the same loop: each has one caller, so that it becomes one piece of code with it.
fn hint_passed(c: Cursor, s: &[u8]) -> Seek
    requires { Inside s.now c }
    ensures { Seeks (asked nothing older_hint) s.now c result }
{
    let (_, d, _) = kind(c, s)?;
    let (_, behind, _) = d.number(s)?;
    Ok((None, behind))
}

// So many of them.
fn hints_passed(c: Cursor, s: &[u8], n: u32) -> Seek
    requires { Inside s.now c }
    ensures { Seeks (asked nothing (times older_hint n)) s.now c result }
{
    let mut next = c;
    for _ in 0..n {
        let (_, after) = hint_passed(next, s)?;
        next = after;
    }
    Ok((None, next))
}

// The hints of an entry: how many, and so many. Only those of the function that is wanted are asked.
fn hints_here(c: Cursor, s: &[u8], sought: bool, wanted: u32) -> Seek
    requires { Inside s.now c }
    ensures { Seeks (asked (first_where sought wanted) (vector older_hint)) s.now c result }
{
    let (n, d, _) = c.number(s)?;
    if sought {
        return hints_times(d, s, wanted, n);
    }
    hints_passed(d, s, n)
}

// An entry: its function, a zero byte, and its hints.
fn entry_here(c: Cursor, s: &[u8], function: u32, offset: u32) -> Seek
    requires { Inside s.now c }
    ensures { Seeks (asked (in_function function offset) older_entry) s.now c result }
{
    let (k, d, _) = c.number(s)?;
    let (_, e) = zero_byte(d, s)?;
    hints_here(e, s, function == k, offset)
}

// So many entries, in any order; a function may have more than one.
fn entries_times(c: Cursor, s: &[u8], function: u32, offset: u32, n: u32) -> Seek
    requires { Inside s.now c }
    ensures { Seeks (asked (first_in function offset) (times older_entry n)) s.now c result }
{
    let mut next = c;
    let mut held = None;
    // counted down: around another loop a counter that rises is two numbers to keep
    for _ in (0..n).rev() {
        let (found, after) = entry_here(next, s, function, offset)?;
        // nearly every entry answers with nothing, and what is held stays as it is
        if let Some(_) = found {
            held = held.or(found);
        }
        next = after;
    }
    Ok((held, next))
}

// The entries of a payload: how many, and so many.
fn entries_here(c: Cursor, s: &[u8], function: u32, offset: u32) -> Seek
    requires { Inside s.now c }
    ensures { Seeks (asked (first_in function offset) (vector older_entry)) s.now c result }
{
    let (n, d, _) = c.number(s)?;
    entries_times(d, s, function, offset, n)
}

// The entries fill the payload: what was held is its answer.
fn filled(held: Option<Hint>, next: Cursor) -> HintAnswer
    ensures { result ≡ filled_with held next }
{
    if next.at < next.end {
        return Err(Refusal {
            reason: Reason::LeftOver,
            offset: Offset(next.at),
        });
    }
    Ok(held)
}

// The first hint for a pair, in a payload that lies in `s` where the cursor says: one pass judges it and asks it.
pub fn hint_in(s: &[u8], c: Cursor, f: FunctionIndex, at: InstructionOffset) -> HintAnswer
    requires { Inside s.now c }
    ensures { OlderHintIn s.now c f at result }
{
    let (held, next) = entries_here(c, s, f.0, at.0)?;
    filled(held, next)
}

// Judges a payload that lies in `s` where the cursor says: its entries fill it.
pub fn judge_in(s: &[u8], c: Cursor) -> Verdict
    requires { Inside s.now c }
    ensures { OlderJudgeIn s.now c result }
{
    let (_, next) = entries(c, s)?;
    let at = next.at;
    if at < next.end {
        return Err(Refusal {
            reason: Reason::LeftOver,
            offset: Offset(at),
        });
    }
    Ok(())
}

// Judges a payload.
pub fn judge(p: &[u8]) -> Verdict
    ensures { OlderJudge p.now result }
{
    let all = Cursor::over(p);
    judge_in(p, all)
}

// The first hint for a pair.
pub fn hint(p: &[u8], f: FunctionIndex, at: InstructionOffset) -> HintAnswer
    ensures { IsOlderHint p.now f at result }
{
    let all = Cursor::over(p);
    hint_in(p, all, f, at)
}
