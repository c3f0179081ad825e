// Telling by the wider edition: the loop of `telling` and what it calls once more, since what two loops call is built into neither, and the first edition would pay for the wider one.
ghost use Rattle.reading.specs.Cursors.{Inside};
ghost use Rattle.names.specs.Contents.{kind_meant};
ghost use Rattle.names.specs.Telling.{TellsContent};
ghost use Rattle.names.specs.Promises.{NamesIsCanonicalWidely};

use crate::frames::frame;
use crate::kinds::{Kind, kind_of};
use crate::telling::tidy_name;
use format::Edition;
use reading::Cursor;
use tables::Item;
use tables::telling::{is_filled, tidy_table, tidy_tables};

// Contents of a kind. Kept contents stay as they are.
fn is_tidy_widely(s: &[u8], part: Cursor, kind: Kind) -> bool
    requires { Inside s.now part }
    ensures { TellsContent (kind_meant kind) s.now part result }
{
    match kind {
        Kind::OneName => is_filled(tidy_name(s, part)),
        Kind::NameMap => is_filled(tidy_table(part, s, Item::Name)),
        Kind::IndirectMap => is_filled(tidy_tables(part, s, Item::Name)),
        Kind::Kept => true,
    }
}

// Whether a payload is accepted by the wider edition and equals its canonical rewriting.
pub fn is_canonical_widely(p: &[u8]) -> bool
    ensures { NamesIsCanonicalWidely p.now result }
{
    let mut next = Cursor::over(p);
    let mut least: u32 = 0;
    loop {
        let Ok(read) = frame(p, next, least) else {
            return false;
        };
        let Some((id, part, after, shortest)) = read else {
            return true;
        };
        if !shortest {
            return false;
        }
        if !is_tidy_widely(p, part, kind_of(Edition::Wider, id)) {
            return false;
        }
        next = after;
        least = (id as u32) + 1;
    }
}
