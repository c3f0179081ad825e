// The names of the tracked sections, all compared at once as a name's bytes arrive.
ghost use Rattle.std.specs.Prelude.{◌≡◌, ◌<◌, length};
ghost use Rattle.stream.specs.Naming;
ghost use Rattle.stream.specs.Fields.{row_number};
ghost use Rattle.stream.specs.Phases.{met_of};

use crate::Met;
use walk::rows::{BRANCH_HINTS, NAME_SECTION};

const HINT_SECTION: [u8; 25] = *b"metadata.code.branch_hint";

// How many bytes each of them has.
const NAME_LENGTH: u8 = 4;

const HINT_LENGTH: u8 = 25;

const OLDER_LENGTH: u8 = 11;

// The rows of the walk's table, counted from 1.
pub const NAME_ROW: u8 = 1;

pub const HINT_ROW: u8 = 2;

pub const OLDER_ROW: u8 = 3;

// How many bytes of a name have been met with one byte more; one more than it has once it can be no longer that name.
fn match_byte(name: &[u8], met: u8, b: u8) -> u8
    requires { length name.now < 255 }
    ensures { result ≡ Naming.match_byte name.now met b }
{
    let at = met as usize;
    if name.len() <= at {
        return name.len() as u8 + 1;
    }
    if name[at] == b {
        return met + 1;
    }
    name.len() as u8 + 1
}

pub fn meet(met: Met, b: u8) -> Met
    ensures { met_of result ≡ Naming.meet (met_of met) b }
{
    Met {
        name: match_byte(&NAME_SECTION, met.name, b),
        hints: match_byte(&HINT_SECTION, met.hints, b),
        older: match_byte(&BRANCH_HINTS, met.older, b),
    }
}

// The row of a name that is whole, counted from 1; 0 without one.
pub fn row_met(met: Met) -> u8
    ensures { result ≡ row_number (Naming.met (met_of met)) }
{
    if met.name == NAME_LENGTH {
        return NAME_ROW;
    }
    if met.hints == HINT_LENGTH {
        return HINT_ROW;
    }
    if met.older == OLDER_LENGTH {
        return OLDER_ROW;
    }
    0
}
