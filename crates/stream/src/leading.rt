// What a part begins in the middle of, up to the first section that begins in it.
ghost use Rattle.std.specs.Prelude.{◌≡◌};
ghost use Rattle.stream.specs.Phases.{Feeding};
ghost use Rattle.stream.specs.Known.{PayloadHere, Leads};

use crate::holding::blank;
use crate::known::{Known, custom_behind, known_in};
use crate::sections::{PREAMBLE, PREAMBLE_LENGTH};
use crate::{BETWEEN, PAYING, SKIPPING, STARTING, Spot, Stream};
use reading::Cursor;
use walk::called::is_called;

// It is over within the part, and this is known behind it; or it is read byte by byte.
pub type Lead = Option<Known>;

// The preamble, whole.
fn lead_preamble(s: Stream, part: &[u8]) -> Lead
    requires { s.phase ≡ 0 }
    ensures { Leads s part.now result }
{
    if s.total != 0 {
        return None;
    }
    if part.len() < PREAMBLE_LENGTH {
        return None;
    }
    let front = Cursor {
        at: 0,
        end: PREAMBLE_LENGTH,
    };
    if is_called(part, front, &PREAMBLE) {
        return Some(known_in(blank(0, BETWEEN), PREAMBLE_LENGTH));
    }
    None
}

// A payload, and with it its section.
fn lead_payload(s: Stream, part: &[u8]) -> Lead
    requires { PayloadHere s part.now }
    ensures { Leads s part.now result }
{
    let total = s.total + s.left as u64;
    let spot = Spot {
        offset: s.text,
        length: total - s.text,
    };
    custom_behind(known_in(s, 0), s.row, spot, s.left as usize).ok()
}

pub fn lead_of(s: Stream, part: &[u8]) -> Lead
    requires { Feeding s part.now }
    ensures { Leads s part.now result }
{
    if s.phase == BETWEEN {
        return Some(known_in(s, 0));
    }
    if s.phase == STARTING {
        return lead_preamble(s, part);
    }
    let left = s.left as usize;
    if part.len() < left {
        return None;
    }
    if s.phase == SKIPPING {
        return Some(known_in(s, left));
    }
    if s.phase == PAYING {
        return lead_payload(s, part);
    }
    None
}
