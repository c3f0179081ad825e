// A subsection's contents, judged. They fill their part exactly.
ghost use Rattle.std.specs.Prelude.{◌≡◌};
ghost use Rattle.reading.specs.Cursors.{Inside};
ghost use Rattle.names.specs.Contents.{Rules, map_kind, is_nested, filled_by};
ghost use Rattle.names.specs.Promises.{NamesOneName, NamesContent};

use crate::kinds::Kind;
use format::{Answer, Offset, Place, Reason, Refusal};
use reading::Cursor;
use tables::judging::name_map;

// The answer, where nothing is left over.
fn filled(next: Cursor, answer: Answer) -> Answer
    ensures { result ≡ filled_by next answer }
{
    let at = next.at;
    if at < next.end {
        return Err(Refusal {
            reason: Reason::LeftOver,
            offset: Offset(at),
        });
    }
    answer
}

// One name.
pub fn one_name(s: &[u8], part: Cursor) -> Answer
    requires { Inside s.now part }
    ensures { NamesOneName s.now part result }
{
    let (name, next, _) = part.name(s)?;
    let at = name.at;
    let length = name.end - at;
    let place = Place {
        offset: Offset(at),
        length,
    };
    filled(next, Ok(Some(place)))
}

// A name map, or an indirect one, which is nested.
fn map(s: &[u8], part: Cursor, nested: bool) -> Answer
    requires { Inside s.now part }
    ensures { Rules (map_kind nested) s.now part result }
{
    let next = name_map(part, s, nested)?;
    filled(next, Ok(None))
}

fn is_nested(kind: Kind) -> bool
    ensures { result ≡ is_nested kind }
{
    match kind {
        Kind::IndirectMap => true,
        _ => false,
    }
}

// Contents of a kind: only whether the answer is a refusal matters.
pub fn content(s: &[u8], part: Cursor, kind: Kind) -> Answer
    requires { Inside s.now part }
    ensures { NamesContent s.now part kind result }
{
    match kind {
        Kind::OneName => one_name(s, part),
        Kind::Kept => Ok(None),
        // one call for both kinds of maps: two would not be inlined
        _ => map(s, part, is_nested(kind)),
    }
}
