// A step from section to section.
ghost use Rattle.std.specs.Prelude.{◌≤◌, ◌<◌, length};
ghost use Rattle.reading.specs.Cursors.{Inside};
ghost use Rattle.walk.specs.Sections.{CustomReads, CallsCustom, CustomInside};
ghost use Rattle.walk.specs.Steps.{AfterSize};
ghost use Rattle.walk.specs.Promises.{WalkBegin, walk_step};

use crate::called::is_called;
use crate::rows::called;
use crate::rules::{CUSTOM, Called, Seen, judge_id, judge_name, see};
use format::{Offset, Reason, Refusal};
use reading::Cursor;
use reading::text::is_text;

// What a section is beyond its id: a custom one has a name and a payload.
pub type Custom = Option<(Cursor, Cursor)>;

#[derive(Clone, Copy)]
pub struct Section {
    pub id: u8,
    pub at: Offset,
    pub contents: Cursor,
    pub custom: Custom,
}

// The walk between two sections: where the next one begins, and what the rules know of those before.
#[derive(Clone, Copy)]
pub struct Walk {
    pub at: usize,
    pub seen: Seen,
}

pub type Step = Result<Option<(Section, Walk)>, Refusal>;

pub type Began = Result<Walk, Refusal>;

// A custom section's contents begin with a name; the rest is its payload. The name is read here and not by `Cursor::name`,
// which others call too, so that it is inlined.
fn read_custom(m: &[u8], id: u8, contents: Cursor) -> Result<Custom, Refusal>
    requires { Inside m.now contents }
    ensures { CustomReads m.now id contents result }
{
    if id != CUSTOM {
        return Ok(None);
    }
    let (name, payload, _) = contents.sized(m)?;
    let text = name.at;
    if is_text(m, text, name.end) {
        return Ok(Some((name, payload)));
    }
    Err(Refusal {
        reason: Reason::NotText,
        offset: Offset(text),
    })
}

// The row of a section.
fn called_so(m: &[u8], custom: Custom) -> Called
    requires { CustomInside m.now custom }
    ensures { CallsCustom m.now custom result }
{
    let (name, _) = custom?;
    called(m, name)
}

// Behind the size: the custom name, the rules about it, and what is known then.
fn after_size(m: &[u8], walk: Walk, id: u8, contents: Cursor, next: usize) -> Step
    requires { Inside m.now contents × (walk.at < contents.at) × (walk.at < next) × (next ≤ length m.now) }
    ensures { AfterSize m.now walk id contents next result }
{
    let custom = read_custom(m, id, contents)?;
    let at = walk.at;
    let seen = walk.seen;
    let called = called_so(m, custom);
    match judge_name(seen, called) {
        Err(reason) => Err(Refusal {
            reason,
            offset: Offset(at),
        }),
        Ok(()) => {
            let section = Section {
                id,
                at: Offset(at),
                contents,
                custom,
            };
            let seen = see(seen, id, called);
            Ok(Some((section, Walk { at: next, seen })))
        }
    }
}

const PREAMBLE_LENGTH: usize = 8;

const PREAMBLE: [u8; PREAMBLE_LENGTH] = [0x00, 0x61, 0x73, 0x6D, 0x01, 0x00, 0x00, 0x00];

const NOTHING: Seen = Seen {
    rank: 0,
    code: false,
    there: 0,
};

impl Walk {
    // The walk behind the preamble.
    pub fn begin(m: &[u8]) -> Began
        ensures { WalkBegin m.now result }
    {
        if m.len() < PREAMBLE_LENGTH {
            return Err(Refusal {
                reason: Reason::NoPreamble,
                offset: Offset(0),
            });
        }
        let front = Cursor {
            at: 0,
            end: PREAMBLE_LENGTH,
        };
        if is_called(m, front, &PREAMBLE) {
            return Ok(Walk {
                at: PREAMBLE_LENGTH,
                seen: NOTHING,
            });
        }
        Err(Refusal {
            reason: Reason::NoPreamble,
            offset: Offset(0),
        })
    }

    // The section that begins here, and the walk behind it. Any walk may be stepped: one past the end is done.
    pub fn step(self, m: &[u8]) -> Step
        ensures { walk_step self m.now result }
    {
        let at = self.at;
        if m.len() <= at {
            return Ok(None);
        }
        let id = m[at];
        match judge_id(self.seen, id) {
            Err(reason) => Err(Refusal {
                reason,
                offset: Offset(at),
            }),
            Ok(()) => {
                let rest = Cursor {
                    at: at + 1,
                    end: m.len(),
                };
                let (contents, next, _) = rest.sized(m)?;
                after_size(m, self, id, contents, next.at)
            }
        }
    }
}
