// What the finish says.
ghost use Rattle.std.specs.Prelude.{◌≡◌, drop};
ghost use Rattle.format.specs.Reading.{refused};
ghost use Rattle.format.specs.Walk.{preamble};
ghost use Rattle.stream.specs.Stream.{start_end, finish};
ghost use Rattle.stream.specs.Calls.{told_of, ending_of};
ghost use Rattle.stream.specs.Fields.{place_from, state_from};
ghost use Rattle.stream.specs.Phases.{Fit};

use crate::holding::blank;
use crate::sections::{NO_PREAMBLE, PAST_ITS_PART, PREAMBLE_LENGTH};
use crate::{BETWEEN, Ending, REFUSED, STARTING, Spot, Stream, Told};

const NOTHING_TOLD: Told = Told {
    there: 0,
    offset: 0,
    length: 0,
};

pub fn refused_ending(number: u8, offset: u64) -> Ending
    ensures { result ≡ ending_of (refused number offset) }
{
    Ending {
        accepted: false,
        refusal: number as u32,
        offset,
        count: 0,
        name: NOTHING_TOLD,
        hints: NOTHING_TOLD,
        older: NOTHING_TOLD,
    }
}

fn told(there: bool, spot: Spot) -> Told
    ensures { result ≡ told_of (place_from there spot) }
{
    if there {
        return Told {
            there: 1,
            offset: spot.offset,
            length: spot.length,
        };
    }
    NOTHING_TOLD
}

// Of an accepted module the count and the places.
fn all_told(s: Stream) -> Ending
    requires { s.phase ≡ 1 }
    ensures { result ≡ ending_of (finish (state_from s)) }
{
    let name = s.name;
    let hints = s.hints;
    let older = s.older;
    Ending {
        accepted: true,
        refusal: 0,
        offset: 0,
        count: s.count,
        name: told(s.there % 2 == 1, name),
        hints: told(s.there / 2 % 2 == 1, hints),
        older: told(s.there / 2 / 2 % 2 == 1, older),
    }
}

// No byte more comes in the preamble.
fn preamble_ending(total: u64) -> Ending
    ensures { result ≡ ending_of (start_end (drop total preamble)) }
{
    if total < PREAMBLE_LENGTH as u64 {
        return refused_ending(NO_PREAMBLE, 0);
    }
    // nobody began such a state: so many bytes would have been the preamble
    all_told(blank(total, BETWEEN))
}

// No byte more comes: what is not whole by now is refused.
pub fn end(s: Stream) -> Ending
    requires { Fit s }
    ensures { result ≡ ending_of (finish (state_from s)) }
{
    if s.phase == BETWEEN {
        return all_told(s);
    }
    if s.phase == REFUSED {
        return refused_ending(s.refusal, s.text);
    }
    if s.phase == STARTING {
        return preamble_ending(s.total);
    }
    refused_ending(PAST_ITS_PART, s.at + 1)
}
