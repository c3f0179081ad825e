// The rules about the number and the order of sections.
ghost use Rattle.std.specs.Prelude.{cond, ◌||◌, ◌≡◌, ltb, length, ◌<◌};
ghost use Rattle.format.specs.Walk;
ghost use Rattle.walk.specs.Sections.{InTable, ThereAfter, bit};
ghost use Rattle.walk.specs.Promises.{WalkJudgeId, WalkJudgeName, WalkSee};

use crate::rows::{BEFORE_CODE, NAME};
use format::Reason;

// What the rules need to know of the sections before. Whether a row was there is one bit, the lowest the first row's.
#[derive(Clone, Copy)]
pub struct Seen {
    pub rank: u8,
    pub code: bool,
    pub there: u8,
}

// What a section is called, as far as the rules care: its row.
pub type Called = Option<u8>;

pub type Ruling = Result<(), Reason>;

pub const CUSTOM: u8 = 0;

const CODE: u8 = 10;

const DATA: u8 = 11;

// Where each id stands in the order of sections: tag, the last id, is the sixth, and data count stands before code.
const IDS: usize = 14;

const RANKS: [u8; IDS] = [0, 1, 2, 3, 4, 5, 7, 8, 9, 10, 12, 13, 11, 6];

fn is_unknown(id: u8) -> bool
    ensures { result ≡ ltb Walk.greatest_id id }
{
    IDS <= id as usize
}

fn rank(id: u8) -> u8
    ensures { result ≡ Walk.rank id }
{
    let at = id as usize;
    if at < IDS {
        return RANKS[at];
    }
    0
}

// Whether a row is among those that were there.
fn has(there: u8, row: u8) -> bool
    requires { row < length Walk.tracked }
    ensures { result ≡ bit there row }
{
    (there >> row) % 2 == 1
}

// What the id decides, before the size is read.
pub fn judge_id(seen: Seen, id: u8) -> Ruling
    ensures { WalkJudgeId seen id result }
{
    if is_unknown(id) {
        return Err(Reason::SectionUnknown);
    }
    if id == CUSTOM {
        return Ok(());
    }
    if rank(id) <= seen.rank {
        return Err(Reason::SectionOrder);
    }
    if id == DATA {
        if has(seen.there, NAME) {
            return Err(Reason::SectionTooLate);
        }
    }
    Ok(())
}

// What a custom section's row decides, once its name is read.
pub fn judge_name(seen: Seen, called: Called) -> Ruling
    requires { InTable called }
    ensures { WalkJudgeName seen called result }
{
    match called {
        None => Ok(()),
        Some(row) => {
            if has(seen.there, row) {
                return Err(Reason::SectionTwice);
            }
            if BEFORE_CODE[row as usize] {
                if seen.code {
                    return Err(Reason::SectionTooLate);
                }
            }
            Ok(())
        }
    }
}

fn either(a: bool, b: bool) -> bool
    ensures { result ≡ (a || b) }
{
    if a {
        return true;
    }
    b
}

// The rows that were there, with that of one section more.
fn there_after(before: u8, called: Called) -> u8
    requires { InTable called }
    ensures { ThereAfter before called result }
{
    match called {
        None => before,
        Some(row) => before | (1 << row),
    }
}

// The rank of the last section that is not custom, behind one with this id.
fn rank_after(before: u8, id: u8) -> u8
    ensures { result ≡ cond (Walk.is_custom id) before (Walk.rank id) }
{
    if id == CUSTOM {
        return before;
    }
    rank(id)
}

fn is_code(id: u8) -> bool
    ensures { result ≡ Walk.is_code id }
{
    id == CODE
}

// What the rules know behind a section.
pub fn see(seen: Seen, id: u8, called: Called) -> Seen
    requires { InTable called }
    ensures { WalkSee seen id called result }
{
    Seen {
        rank: rank_after(seen.rank, id),
        code: either(seen.code, is_code(id)),
        there: there_after(seen.there, called),
    }
}
