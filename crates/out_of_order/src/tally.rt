// What codes in falling order come to, the greatest first: how many hints the function has that is open, how many functions are closed, and how long all of it is, written from its end on.
ghost use Rattle.std.specs.Prelude.{◌≤◌, ◌≡◌, eqb, length, take};
ghost use Rattle.sorting.specs.Order.{code, coded};
ghost use Rattle.out_of_order.specs.Codes.{coded_key, coded_function, offset_of};
ghost use Rattle.out_of_order.specs.Tally.{most, hint_length, head_length, with_hint, closed_from, stepped, tallied, totalled, Fair};

use crate::gathering::FUNCTION_STEP;
use writing::number_length;

// The bytes of a kind, and the zero byte of an entry.
pub const KIND_LENGTH: usize = 1;

pub const ZERO_LENGTH: usize = 1;

// A payload may have so many bytes.
pub const MOST: usize = 4_294_967_295;

#[derive(Clone, Copy)]
pub struct Tally {
    pub key: u64,
    pub hints: u32,
    pub functions: u32,
    pub length: usize,
}

pub fn function_of(key: u64) -> u32
    ensures { result ≡ coded_function key }
{
    (key / FUNCTION_STEP) as u32
}

pub fn offset_of(key: u64) -> u32
    ensures { result ≡ offset_of key }
{
    (key % FUNCTION_STEP) as u32
}

// Whether two pairs are of one function.
pub fn is_of_one_function(key: u64, other: u64) -> bool
    ensures { result ≡ eqb (coded_function key) (coded_function other) }
{
    function_of(key) == function_of(other)
}

// How long a hint is.
pub fn hint_length(key: u64) -> usize
    ensures { (result ≡ hint_length key) × (result ≤ 6) }
{
    KIND_LENGTH + number_length(offset_of(key))
}

// How long an entry is before its hints.
pub fn head_length(t: Tally) -> usize
    ensures { (result ≡ head_length t) × (result ≤ 11) }
{
    let function = number_length(function_of(t.key));
    let count = number_length(t.hints);
    function + ZERO_LENGTH + count
}

// One more hint of the function that is open, or the first one of another.
pub fn with_hint(t: Tally, key: u64) -> Tally
    requires { Fair t }
    ensures { result ≡ with_hint t key }
{
    let length = hint_length(key);
    Tally {
        key,
        hints: t.hints + 1,
        functions: t.functions,
        length: t.length + length,
    }
}

// The function that was open is whole.
pub fn closed(t: Tally) -> Tally
    requires { Fair t }
    ensures { result ≡ closed_from t }
{
    let length = head_length(t);
    Tally {
        key: t.key,
        hints: 0,
        functions: t.functions + 1,
        length: t.length + length,
    }
}

// One code more, which is not above the one before: of the same pair, of the same function, or of one before it.
pub fn step(t: Tally, key: u64, order: u64) -> Tally
    requires { Fair t × (t.length ≤ most) }
    ensures { result ≡ stepped t (coded_key (code key order)) }
{
    if t.hints == 0 {
        return with_hint(t, key);
    }
    if key == t.key {
        return t;
    }
    if is_of_one_function(key, t.key) {
        return with_hint(t, key);
    }
    with_hint(closed(t), key)
}

// The first n codes of a window; none is counted once a payload would be too long.
pub fn tally_all(t: Tally, keys: &[u64], orders: &[u64], n: usize) -> Tally
    requires { Fair t × (length keys.now ≡ length orders.now) × (n ≤ length keys.now) }
    ensures { (result ≡ tallied t (take n (coded keys.now orders.now))) × Fair result }
{
    let mut counted = t;
    let mut i = 0;
    while i < n {
        if MOST < counted.length {
            return counted;
        }
        counted = step(counted, keys[i], orders[i]);
        i = i + 1;
    }
    counted
}

// How long the payload is, with the function that is open and the count of functions before all.
pub fn total(t: Tally) -> usize
    requires { Fair t }
    ensures { result ≡ totalled t }
{
    if t.hints == 0 {
        return number_length(t.functions) + t.length;
    }
    let all = closed(t);
    number_length(all.functions) + all.length
}
