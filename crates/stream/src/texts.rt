// Text as its bytes arrive: each character is worked out from its bytes and compared with the limits.
ghost use Rattle.std.specs.Prelude.{◌≡◌, ◌<◌};
ghost use Rattle.format.specs.Text.{is_allowed};
ghost use Rattle.stream.specs.Texts.{leading_byte, text_byte};
ghost use Rattle.stream.specs.Phases.{text_of, Spellable};

use reading::wide;

// How many bytes a character still wants, the least code point of its form, and its own so far.
#[derive(Clone, Copy)]
pub struct Text {
    pub wanted: u8,
    pub least: u32,
    pub point: u32,
}

pub const NONE_WANTED: Text = Text {
    wanted: 0,
    least: 0,
    point: 0,
};

// What can be no text any more wants a byte, and then a code point that there is none of.
const NO_TEXT: Text = Text {
    wanted: 1,
    least: 0x110000,
    point: 0,
};

// A byte behind the first has so many values: six bits of the code point.
const LATER: u32 = 64;

fn is_allowed(least: u32, point: u32) -> bool
    ensures { result ≡ is_allowed least point }
{
    (least <= point) & (((point < 0xD800) | (0xDFFF < point)) & (point <= 0x10FFFF))
}

// A character's first byte.
fn first_byte(b: u8) -> Text
    ensures { text_of result ≡ leading_byte b }
{
    if b < 0x80 {
        return NONE_WANTED;
    }
    if b < 0xC0 {
        return NO_TEXT;
    }
    if b < 0xE0 {
        return Text {
            wanted: 1,
            least: 0x80,
            point: wide(b % 32),
        };
    }
    if b < 0xF0 {
        return Text {
            wanted: 2,
            least: 0x800,
            point: wide(b % 16),
        };
    }
    if b < 0xF8 {
        return Text {
            wanted: 3,
            least: 0x10000,
            point: wide(b % 8),
        };
    }
    NO_TEXT
}

// A byte behind it.
fn later_byte(t: Text, b: u8) -> Text
    requires { (0 < t.wanted) × Spellable t }
    ensures { text_of result ≡ text_byte (text_of t) b }
{
    if b < 0x80 {
        return NO_TEXT;
    }
    if 0xBF < b {
        return NO_TEXT;
    }
    let point = t.point * LATER + wide(b) % LATER;
    if 1 < t.wanted {
        return Text {
            wanted: t.wanted - 1,
            least: t.least,
            point,
        };
    }
    if is_allowed(t.least, point) {
        return NONE_WANTED;
    }
    NO_TEXT
}

// The next byte of a text.
pub fn text_byte(t: Text, b: u8) -> Text
    requires { Spellable t }
    ensures { text_of result ≡ text_byte (text_of t) b }
{
    if t.wanted == 0 {
        return first_byte(b);
    }
    later_byte(t, b)
}
