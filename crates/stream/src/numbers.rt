// A number as its bytes arrive.
ghost use Rattle.std.specs.Prelude.{◌≡◌, ◌≤◌};
ghost use Rattle.stream.specs.Counting;
ghost use Rattle.stream.specs.Phases.{number_of, Countable, counted_of};

use reading::wide;

// What a byte makes of it: the number, what its bytes add up to so far, or too large a number.
#[derive(Clone, Copy)]
pub enum Counted {
    Whole(u32),
    Partly(u32),
    Over,
}

// How many bytes may follow the first.
pub const MOST_FOLLOWING: u8 = 4;

// What the seven bits of each byte are worth.
const WEIGHTS: [u32; 5] = [1, 128, 16_384, 2_097_152, 268_435_456];

// A byte from here on says that another follows.
const FOLLOWED: u32 = 128;

// The fifth byte has the last four of 32 bits.
const GREATEST_FIFTH: u32 = 0x0F;

pub fn weight_of(come: u8) -> u32
    requires { come ≤ Counting.most_following }
    ensures { result ≡ Counting.weight come }
{
    WEIGHTS[come as usize]
}

// The next byte of a number of which so many have come.
pub fn count_byte(come: u8, low: u32, b: u8) -> Counted
    requires { Countable come low }
    ensures { counted_of come result ≡ Counting.counted (number_of come low) b }
{
    let weight = weight_of(come);
    let digit = wide(b);
    if come < MOST_FOLLOWING {
        if digit < FOLLOWED {
            return Counted::Whole(low + weight * digit);
        }
        return Counted::Partly(low + weight * (digit % FOLLOWED));
    }
    if digit <= GREATEST_FIFTH {
        return Counted::Whole(low + weight * digit);
    }
    Counted::Over
}
