// The custom sections that the walk tracks, a row each: what they are called, and whether they must stand before code.
ghost use Rattle.reading.specs.Cursors.{Inside};
ghost use Rattle.walk.specs.Promises.{WalkCalled};

use crate::called::{is_called, is_joined};
use crate::rules::Called;
use reading::Cursor;

pub const NAME_SECTION: [u8; 4] = *b"name";

// The section of a format of metadata is called by these bytes and the format's name.
pub const METADATA: [u8; 14] = *b"metadata.code.";

pub const BRANCH_HINT: [u8; 11] = *b"branch_hint";

// K2: the section of the older edition of hints.
pub const BRANCH_HINTS: [u8; 11] = *b"branchHints";

// The rows, counted from 0.
pub const NAME: u8 = 0;

const HINTS: u8 = 1;

const OLDER_HINTS: u8 = 2;

const ROWS: usize = 3;

pub const BEFORE_CODE: [bool; ROWS] = [false, true, true];

// The row that a part of `s` is the name of.
pub fn called(s: &[u8], part: Cursor) -> Called
    requires { Inside s.now part }
    ensures { WalkCalled s.now part result }
{
    if is_called(s, part, &NAME_SECTION) {
        return Some(NAME);
    }
    if is_joined(s, part, &METADATA, &BRANCH_HINT) {
        return Some(HINTS);
    }
    if is_called(s, part, &BRANCH_HINTS) {
        return Some(OLDER_HINTS);
    }
    None
}
