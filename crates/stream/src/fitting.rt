// Whether a state is one that the code can count with. A state that bytes led to always is; one that a caller made up may not be.
ghost use Rattle.std.specs.Prelude.{◌≡◌, ◌<◌, ltb};
ghost use Rattle.stream.specs.Calls.{is_open};
ghost use Rattle.stream.specs.Fields.{number_from, contents_from, state_from};
ghost use Rattle.stream.specs.Fits.{is_number_fitting, point_limit, contents_fit, fits};

use crate::naming::OLDER_ROW;
use crate::numbers::{MOST_FOLLOWING, weight_of};
use crate::{
    BETWEEN, MEASURING, NAMING, OVER, PAYING, REFUSED, SIZING, SKIPPING, STARTING, Stream,
};

fn number_fits(s: Stream) -> bool
    ensures { result ≡ is_number_fitting (number_from s) }
{
    if MOST_FOLLOWING < s.come {
        return false;
    }
    s.low < weight_of(s.come)
}

// What a code point is below while so many bytes are wanted.
const POINT_LIMITS: [u32; 4] = [1, 0x8000, 0x200, 8];

fn point_fits(wanted: u8, point: u32) -> bool
    ensures { result ≡ ltb point (point_limit wanted) }
{
    let at = wanted as usize;
    if 4 <= at {
        return false;
    }
    point < POINT_LIMITS[at]
}

fn contents_fit(s: Stream) -> bool
    ensures { result ≡ contents_fit (contents_from s) s.total }
{
    if s.phase == PAYING {
        return (s.text <= s.total) & (s.row <= OLDER_ROW);
    }
    if s.phase == SIZING {
        return number_fits(s);
    }
    if s.phase == NAMING {
        return (0 < s.rest) & point_fits(s.wanted, s.point);
    }
    true
}

fn custom_fits(s: Stream) -> bool
    requires { 4 < s.phase }
    ensures { result ≡ fits (state_from s) }
{
    (s.count <= s.total) & ((s.at < s.total) & ((0 < s.left) & contents_fit(s)))
}

fn fit(s: Stream) -> bool
    ensures { result ≡ fits (state_from s) }
{
    if s.phase == STARTING {
        return true;
    }
    if s.phase == BETWEEN {
        return s.count <= s.total;
    }
    if s.phase == REFUSED {
        return true;
    }
    if s.phase == SKIPPING {
        return (s.count <= s.total) & ((s.at < s.total) & (0 < s.left));
    }
    if s.phase == MEASURING {
        return (s.count <= s.total) & ((s.at < s.total) & number_fits(s));
    }
    custom_fits(s)
}

// Whether a state takes parts, and its finish.
pub fn is_open(s: Stream) -> bool
    ensures { result ≡ is_open s }
{
    if s.phase == OVER {
        return false;
    }
    fit(s)
}
