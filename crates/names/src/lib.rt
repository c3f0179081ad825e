// The name payload: judged whole, and asked. No call has a precondition.
#![tactic(auto)]

ghost use Rattle.std.specs.Prelude.{◌≡◌};
ghost use Rattle.format.specs.Names.{kind_in, judge_names};
ghost use Rattle.format.specs.Questions.{answered, as_place, ask_at};
ghost use Rattle.format.specs.Reading.{verdict};
ghost use Rattle.format.specs.Verdicts.{verdict_of};
ghost use Rattle.reading.specs.Cursors.{Inside, left};
ghost use Rattle.names.specs.Places.{KnownNames};
ghost use Rattle.names.specs.Promises.{NamesAsk, NamesAskBytes};

use crate::asking::{all_kept, named, named_within, the_name};
use crate::contents::content;
use crate::frames::frame;
use crate::judging::find;
use crate::kinds::{Kind, kind_of};
use format::{Answer, Edition, Query, Question, Verdict};
use reading::Cursor;
use reading::taking::taken;

pub mod asking;
pub mod contents;
pub mod frames;
pub mod judging;
pub mod kinds;
pub mod telling;
pub mod telling_widely;
pub mod within;

// A payload that lies in what was lent: each subsection's head, then its contents by its id. Nothing is kept of it but the verdict.
fn judge_in(s: &[u8], c: Cursor, edition: Edition) -> Verdict
    requires { Inside s.now c }
    ensures { verdict_of result ≡ verdict (judge_names (kind_in edition) c.at (left s.now c)) }
{
    let end = c.end;
    let mut at = c.at;
    let mut least: u32 = 0;
    while let Some((id, part, after, _)) = frame(s, Cursor { at, end }, least)? {
        content(s, part, kind_of(edition, id))?;
        at = after.at;
        least = (id as u32) + 1;
    }
    Ok(())
}

// What an accepted payload answers: the subsection with the question's id, if its kind has such an answer.
fn answer(s: &[u8], c: Cursor, edition: Edition, q: Question) -> Answer
    requires { KnownNames (kind_in edition) s.now c }
    ensures { answered result ≡ as_place (ask_at (kind_in edition) q c.at (left s.now c)) }
{
    let id = q.id();
    match q.query() {
        Query::ItsName => match kind_of(edition, id) {
            Kind::OneName => the_name(s, find(s, c, id)),
            _ => Ok(None),
        },
        Query::NameOf(k) => match kind_of(edition, id) {
            Kind::NameMap => named(s, find(s, c, id), k),
            _ => Ok(None),
        },
        Query::NameWithin(k, j) => match kind_of(edition, id) {
            Kind::IndirectMap => named_within(s, find(s, c, id), k, j),
            _ => Ok(None),
        },
        Query::ItsContents => match kind_of(edition, id) {
            Kind::Kept => all_kept(s, find(s, c, id)),
            _ => Ok(None),
        },
    }
}

// A question to a payload, which is read by an edition. It goes as `ask_in` does, and does not go through it: what has two callers stays a piece of code of its own, so this becomes a part of each C call, and nothing is handed through one more.
pub fn ask(p: &[u8], edition: Edition, q: Question) -> Answer
    ensures { NamesAsk p.now edition q result }
{
    let all = Cursor::over(p);
    judge_in(p, all, edition)?;
    answer(p, all, edition, q)
}

// The bytes of what was answered, as a part of what was lent: empty, and at its start, for none and for a refusal.
pub fn ask_bytes(p: &[u8], edition: Edition, q: Question) -> &[u8]
    ensures { NamesAskBytes p.now p.entry.ref_ptr edition q result.ref_ptr result.now }
{
    taken(p, ask(p, edition, q))
}
