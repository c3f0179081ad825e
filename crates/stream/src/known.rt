// What is known of the sections behind, in few numbers, and the states that it leads to.
ghost use Rattle.std.specs.Prelude.{◌≡◌, ◌≤◌, ◌<◌};
ghost use Rattle.stream.specs.Stream.{plain_done};
ghost use Rattle.stream.specs.Calls.{most};
ghost use Rattle.stream.specs.Fields.{place_from, spot_of};
ghost use Rattle.stream.specs.Phases.{CallsRow};
ghost use Rattle.stream.specs.Known.{done_of, known_in, between_at, skipping_at, paying_at, Behind, with_place, AfterCustom};

use crate::holding::blank;
use crate::naming::{HINT_ROW, NAME_ROW, OLDER_ROW};
use crate::sections::{flag, seen_by};
use crate::{BETWEEN, NOWHERE, PAYING, SKIPPING, Spot, Stream};
use format::Reason;
use walk::rules::{CUSTOM, Called, Seen, judge_name, see};

// Between two sections, at a place in the part: how many are behind, what the walk's rules know of them, and where the
// payloads of the tracked ones lie.
#[derive(Clone, Copy)]
pub struct Known {
    pub at: usize,
    pub count: u64,
    pub seen: Seen,
    pub name: Spot,
    pub hints: Spot,
    pub older: Spot,
}

// What a state knows, taken to a place in the part.
pub fn known_in(s: Stream, at: usize) -> Known
    ensures { result ≡ known_in s at }
{
    let name = s.name;
    let hints = s.hints;
    let older = s.older;
    Known {
        at,
        count: s.count,
        seen: seen_by(s),
        name,
        hints,
        older,
    }
}

fn spot_there(there: bool, spot: Spot) -> Spot
    ensures { result ≡ spot_of (place_from there spot) }
{
    if there {
        return spot;
    }
    NOWHERE
}

// The state between two sections. Of `there` the three low bits are rows.
pub fn between(known: Known, total: u64) -> Stream
    ensures { result ≡ between_at total known }
{
    let seen = known.seen;
    let name = known.name;
    let hints = known.hints;
    let older = known.older;
    let mut next = blank(total, BETWEEN);
    next.count = known.count;
    next.rank = seen.rank;
    next.code = flag(seen.code);
    next.there = seen.there % 8;
    let named = spot_there(seen.there % 2 == 1, name);
    next.name = named;
    let hinted = spot_there(seen.there / 2 % 2 == 1, hints);
    next.hints = hinted;
    let hinted_before = spot_there(seen.there / 2 / 2 % 2 == 1, older);
    next.older = hinted_before;
    next
}

// In the contents of a section that is not custom.
pub fn skipping(known: Known, total: u64, at: u64, left: u32) -> Stream
    ensures { result ≡ skipping_at total known at left }
{
    let mut next = between(known, total);
    next.phase = SKIPPING;
    next.at = at;
    next.left = left;
    next
}

// In the payload of a custom section, of a row that is counted from 1.
pub fn paying(known: Known, total: u64, at: u64, left: u32, row: u8, text: u64) -> Stream
    ensures { result ≡ paying_at total known at left row text }
{
    let mut next = between(known, total);
    next.phase = PAYING;
    next.at = at;
    next.left = left;
    next.row = row;
    next.text = text;
    next
}

// Behind a section that is not custom.
pub fn plain_behind(known: Known, id: u8, to: usize) -> Known
    requires { known.count < most }
    ensures { Behind (plain_done (done_of known) id) to result }
{
    let mut next = known;
    let seen = known.seen;
    let after = see(seen, id, None);
    next.at = to;
    next.count = known.count + 1;
    next.seen = after;
    next
}

// A row, counted from 1, as the walk's rules have it.
fn called_row(row: u8) -> Called
    requires { row ≤ 3 }
    ensures { CallsRow row result }
{
    if row == 0 {
        return None;
    }
    Some(row - 1)
}

// A row's place is known.
fn with_place(known: Known, row: u8, spot: Spot) -> Known
    ensures { result ≡ with_place known row spot }
{
    let mut next = known;
    if row == NAME_ROW {
        next.name = spot;
        return next;
    }
    if row == HINT_ROW {
        next.hints = spot;
        return next;
    }
    if row == OLDER_ROW {
        next.older = spot;
        return next;
    }
    next
}

// What is known behind a custom section, or what the walk's rules have against its name.
pub fn custom_behind(known: Known, row: u8, spot: Spot, to: usize) -> Result<Known, Reason>
    requires { (known.count < most) × (row ≤ 3) }
    ensures { AfterCustom known row spot to result }
{
    if row == 0 {
        return Ok(plain_behind(known, CUSTOM, to)); // most have no row
    }
    let seen = known.seen;
    let called = called_row(row);
    judge_name(seen, called)?;
    let after = see(seen, CUSTOM, called);
    let mut next = with_place(known, row, spot);
    next.at = to;
    next.count = known.count + 1;
    next.seen = after;
    Ok(next)
}
