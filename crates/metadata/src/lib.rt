// Code metadata: data that belongs to places in functions, and branch hints among it. Every public call takes any bytes.
#![tactic(auto)]

ghost use Rattle.std.specs.Prelude.{◌≡◌};
ghost use Rattle.metadata.specs.Asking.{filled_with, JudgesFor};
ghost use Rattle.reading.specs.Cursors.{Inside};
ghost use Rattle.tables.specs.Seeking.{reader_of};
ghost use Rattle.metadata.specs.Promises.{MetadataFindIn, MetadataJudgeIn, MetadataHintIn, MetadataJudge, MetadataJudgeHints, MetadataFind, MetadataFindBytes, MetadataHint};

use format::{
    Answer, CodeOffset, FunctionIndex, Hint, HintAnswer, Offset, Reason, Refusal, Verdict,
};
use reading::Cursor;
use reading::taking::taken;
use tables::finding::answer_of;
use tables::{Held, Item, NOTHING, Wanted};

pub mod telling;

// The data byte of a branch that is likely taken.
const LIKELY: u8 = 1;

// What judging a payload comes to: what it has where it is asked, or the refusal.
type Judgement = Result<Held, Refusal>;

// The lists fill the payload: what was held is what it has.
fn filled(held: Held, next: Cursor) -> Judgement
    ensures { result ≡ filled_with held next }
{
    if next.at < next.end {
        return Err(Refusal {
            reason: Reason::LeftOver,
            offset: Offset(next.at),
        });
    }
    Ok(held)
}

// Judges a payload that lies in `s` where the cursor says, and holds on to what is wanted of it: one pass does both.
fn judge_for(s: &[u8], c: Cursor, item: Item, function: Wanted, offset: Wanted) -> Judgement
    requires { Inside s.now c }
    ensures { JudgesFor (reader_of item) function offset s.now c result }
{
    let (held, next) = tables::tables(c, s, item, function, offset)?;
    filled(held, next)
}

// The data at an offset of a function, in a payload that lies in `s` where the cursor says.
pub fn find_in(s: &[u8], c: Cursor, item: Item, f: FunctionIndex, at: CodeOffset) -> Answer
    requires { Inside s.now c }
    ensures { MetadataFindIn s.now c item f at result }
{
    let held = judge_for(s, c, item, Wanted(f.0 as u64), Wanted(at.0 as u64))?;
    answer_of(held)
}

// Judges a payload that lies in `s` where the cursor says.
pub fn judge_in(s: &[u8], c: Cursor, item: Item) -> Verdict
    requires { Inside s.now c }
    ensures { MetadataJudgeIn s.now c item result }
{
    judge_for(s, c, item, NOTHING, NOTHING)?;
    Ok(())
}

// The hint at an offset of a function, in a payload that lies in `s` where the cursor says.
pub fn hint_in(s: &[u8], c: Cursor, f: FunctionIndex, at: CodeOffset) -> HintAnswer
    requires { Inside s.now c }
    ensures { MetadataHintIn s.now c f at result }
{
    let held = judge_for(s, c, Item::Hint, Wanted(f.0 as u64), Wanted(at.0 as u64))?;
    match held {
        None => Ok(None),
        Some(data) => {
            let byte = data.at;
            if s[byte] == LIKELY {
                return Ok(Some(Hint::Likely));
            }
            Ok(Some(Hint::Unlikely))
        }
    }
}

// Judges a payload of any format.
pub fn judge(p: &[u8]) -> Verdict
    ensures { MetadataJudge p.now result }
{
    let all = Cursor::over(p);
    judge_in(p, all, Item::Data)
}

// Judges a payload of branch hints.
pub fn judge_hints(p: &[u8]) -> Verdict
    ensures { MetadataJudgeHints p.now result }
{
    let all = Cursor::over(p);
    judge_in(p, all, Item::Hint)
}

// The data at an offset of a function, in a payload of any format.
pub fn find(p: &[u8], f: FunctionIndex, at: CodeOffset) -> Answer
    ensures { MetadataFind p.now f at result }
{
    let all = Cursor::over(p);
    find_in(p, all, Item::Data, f, at)
}

// The same data as a part of what was lent: empty, and at its start, for none and for a refusal.
pub fn find_bytes(p: &[u8], f: FunctionIndex, at: CodeOffset) -> &[u8]
    ensures { MetadataFindBytes p.now p.entry.ref_ptr f at result.ref_ptr result.now }
{
    taken(p, find(p, f, at))
}

// The hint at an offset of a function.
pub fn hint(p: &[u8], f: FunctionIndex, at: CodeOffset) -> HintAnswer
    ensures { MetadataHint p.now f at result }
{
    let all = Cursor::over(p);
    hint_in(p, all, f, at)
}
