// One pass over a whole module, on which every question to the walk rests.
ghost use Rattle.std.specs.Prelude.{◌≤◌, ◌<◌, length, ◌++◌};
ghost use Rattle.walk.specs.Sections.{CustomInside, SectionInside};
ghost use Rattle.walk.specs.Surveys.{SectionKept, PayloadKept, Tallies, SurveysFrom};
ghost use Rattle.walk.specs.Promises.{WalkSurvey};

use crate::called::is_joined;
use crate::step::{Custom, Section, Walk};
use format::{Answer, Offset, Place, Refusal};

// A section's id, the offset of its id byte and the length of its contents.
#[derive(Clone, Copy)]
pub struct SectionPlace {
    pub id: u8,
    pub at: Offset,
    pub length: usize,
}

pub type SectionAnswer = Result<Option<SectionPlace>, Refusal>;

// What a pass has found so far: how many sections, the one at a position, and the first payload of a name.
#[derive(Clone, Copy)]
pub struct Tally {
    pub count: usize,
    pub section: SectionAnswer,
    pub payload: Answer,
}

pub type Surveyed = Result<Tally, Refusal>;

// The section at a position, counted from 0, if it is this one.
fn keep_section(m: &[u8], before: SectionAnswer, here: bool, s: Section) -> SectionAnswer
    requires { SectionInside m.now s }
    ensures { SectionKept m.now before here s result }
{
    let found = before?;
    match found {
        Some(p) => Ok(Some(p)),
        None => {
            if here {
                let contents = s.contents;
                let at = s.at;
                return Ok(Some(SectionPlace {
                    id: s.id,
                    at,
                    length: contents.end - contents.at,
                }));
            }
            Ok(None)
        }
    }
}

// The payload of the first custom section of a name, if it is this one.
fn keep_payload(m: &[u8], before: Answer, custom: Custom, front: &[u8], rest: &[u8]) -> Answer
    requires { CustomInside m.now custom }
    ensures { PayloadKept m.now before custom (front.now ++ rest.now) result }
{
    let found = before?;
    match found {
        Some(p) => Ok(Some(p)),
        None => match custom {
            None => Ok(None),
            Some((called, payload)) => {
                if is_joined(m, called, front, rest) {
                    let length = payload.end - payload.at;
                    return Ok(Some(Place {
                        offset: Offset(payload.at),
                        length,
                    }));
                }
                Ok(None)
            }
        },
    }
}

// What is found with one section more.
fn tallied(m: &[u8], t: Tally, s: Section, position: u64, front: &[u8], rest: &[u8]) -> Tally
    requires { SectionInside m.now s × (t.count < length m.now) }
    ensures { Tallies m.now position (front.now ++ rest.now) t s result }
{
    let before = t.count;
    let section = t.section;
    let payload = t.payload;
    let custom = s.custom;
    let count = before + 1;
    Tally {
        count,
        section: keep_section(m, section, before as u64 == position, s),
        payload: keep_payload(m, payload, custom, front, rest),
    }
}

// From a section on to the module's end: all of it is judged, whatever was found.
fn survey_from(m: &[u8], first: Walk, position: u64, front: &[u8], rest: &[u8]) -> Surveyed
    requires { first.at ≤ length m.now }
    ensures { SurveysFrom m.now position (front.now ++ rest.now) first result }
{
    let mut walk = first;
    let mut tally = Tally {
        count: 0,
        section: Ok(None),
        payload: Ok(None),
    };
    while let Some((s, next)) = walk.step(m)? {
        tally = tallied(m, tally, s, position, front, rest);
        walk = next;
    }
    Ok(tally)
}

// The count of sections, the section at a position, and the payload of the first custom section of a name.
pub fn survey(m: &[u8], position: u64, front: &[u8], rest: &[u8]) -> Surveyed
    ensures { WalkSurvey m.now position front.now rest.now result }
{
    let first = Walk::begin(m)?;
    survey_from(m, first, position, front, rest)
}
