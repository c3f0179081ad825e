// The framing of a module: its sections, one after the other. Every call takes any bytes.
#![tactic(auto)]

ghost use Rattle.walk.specs.Promises.{WalkCount, WalkSectionAt, WalkCustom, WalkCustomJoined};

use crate::survey::SectionAnswer;
use format::{Answer, Refusal};

pub mod called;
pub mod rows;
pub mod rules;
pub mod step;
pub mod survey;

pub type Counted = Result<usize, Refusal>;

// Judges a whole module, and counts its sections.
pub fn count(m: &[u8]) -> Counted
    ensures { WalkCount m.now result }
{
    let found = survey::survey(m, 0, b"", b"")?;
    Ok(found.count)
}

// The section at a position, counted from 0: none past the last.
pub fn section_at(m: &[u8], position: u64) -> SectionAnswer
    ensures { WalkSectionAt m.now position result }
{
    let found = survey::survey(m, position, b"", b"")?;
    found.section
}

// Where the payload of the first custom section of a name lies.
pub fn custom(m: &[u8], name: &[u8]) -> Answer
    ensures { WalkCustom m.now name.now result }
{
    custom_joined(m, b"", name)
}

// The same for a name that stands in two slices.
pub fn custom_joined(m: &[u8], front: &[u8], rest: &[u8]) -> Answer
    ensures { WalkCustomJoined m.now front.now rest.now result }
{
    let found = survey::survey(m, 0, front, rest)?;
    found.payload
}
