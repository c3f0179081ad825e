// K7: the calls that say why a function or a local has no name, and where a name that is found stands. No call has a precondition.
ghost use Rattle.std.specs.Prelude.{◌≡◌};
ghost use Rattle.format.specs.Refusals.{number_of};
ghost use Rattle.neighbours.specs.Maps.{near_meant, reason_meant, why_meant};
ghost use Rattle.wakemiono.specs.Why.{wm_side, wm_alone, wm_named, wm_no_entry, wm_why_refused, wm_reason, wm_why};
ghost use Rattle.wakemiono.specs.Calls.{WmWhyFunction, WmWhyLocal};

use crate::{FOUND, NO, REFUSED, YES};
use format::{FunctionIndex, LocalIndex, Refusal};
use neighbours::functions::why_function;
use neighbours::locals::why_local;
use neighbours::{Neighbour, Why};

const NO_SUBSECTION: u32 = 5;

const NO_GROUP: u32 = 6;

const NO_ENTRY: u32 = 7;

// One answer for both calls, by value: what its kind does not name is 0.
#[repr(C)]
#[derive(Clone, Copy)]
pub struct WmWhy {
    pub kind: u32,
    pub code: u32,
    pub offset: u64,
    pub position: u64,
    pub has_below: u32,
    pub below: u32,
    pub has_above: u32,
    pub above: u32,
}

// Whether there is a neighbour, and its index.
#[derive(Clone, Copy)]
struct Side {
    has: u32,
    index: u32,
}

fn of_neighbour(neighbour: Neighbour) -> Side
    ensures { result ≡ wm_side (near_meant neighbour) }
{
    match neighbour {
        None => Side { has: NO, index: 0 },
        Some(index) => Side { has: YES, index },
    }
}

// A reason that needs no more words than its kind.
fn alone(kind: u32) -> WmWhy
    ensures { result ≡ wm_alone kind }
{
    WmWhy {
        kind,
        code: 0,
        offset: 0,
        position: 0,
        has_below: 0,
        below: 0,
        has_above: 0,
        above: 0,
    }
}

fn named(id: u8, position: u32) -> WmWhy
    ensures { result ≡ wm_named id position }
{
    WmWhy {
        kind: FOUND,
        code: id as u32,
        offset: 0,
        position: position as u64,
        has_below: 0,
        below: 0,
        has_above: 0,
        above: 0,
    }
}

fn no_entry(below: Neighbour, above: Neighbour) -> WmWhy
    ensures { result ≡ wm_no_entry (near_meant below) (near_meant above) }
{
    let under = of_neighbour(below);
    let over = of_neighbour(above);
    WmWhy {
        kind: NO_ENTRY,
        code: 0,
        offset: 0,
        position: 0,
        has_below: under.has,
        below: under.index,
        has_above: over.has,
        above: over.index,
    }
}

fn refused(r: Refusal) -> WmWhy
    ensures { result ≡ wm_why_refused (number_of r.reason) r.offset.0 }
{
    let reason = r.reason;
    let at = r.offset;
    WmWhy {
        kind: REFUSED,
        code: reason.number(),
        offset: at.0 as u64,
        position: 0,
        has_below: 0,
        below: 0,
        has_above: 0,
        above: 0,
    }
}

fn of_reason(why: Why) -> WmWhy
    ensures { result ≡ wm_reason (reason_meant why) }
{
    match why {
        Why::Named(id, position) => named(id, position),
        Why::NoSubsection => alone(NO_SUBSECTION),
        Why::NoGroup => alone(NO_GROUP),
        Why::NoEntry(below, above) => no_entry(below, above),
    }
}

fn of_why(answer: Result<Why, Refusal>) -> WmWhy
    ensures { result ≡ wm_why (why_meant answer) }
{
    match answer {
        Err(r) => refused(r),
        Ok(why) => of_reason(why),
    }
}

pub fn wm_why_function(payload: &[u8], function: u32) -> WmWhy
    ensures { WmWhyFunction function payload.now result }
{
    of_why(why_function(payload, FunctionIndex(function)))
}

pub fn wm_why_local(payload: &[u8], function: u32, local: u32) -> WmWhy
    ensures { WmWhyLocal function local payload.now result }
{
    of_why(why_local(payload, FunctionIndex(function), LocalIndex(local)))
}
