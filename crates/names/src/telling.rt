// Judges a name payload by the first edition and tells, in the same pass, whether it stands as its canonical rewriting would.
ghost use Rattle.reading.specs.Cursors.{Inside};
ghost use Rattle.names.specs.Contents.{kind_meant};
ghost use Rattle.names.specs.Telling.{TellsContent};
ghost use Rattle.names.specs.Promises.{NamesIsCanonical, NamesTidyName};

use crate::frames::frame;
use crate::kinds::{Kind, kind_of};
use format::Edition;
use reading::Cursor;
use tables::Item;
use tables::telling::{Tidy, is_filled, tidy_table, tidy_tables};

// One name.
pub fn tidy_name(s: &[u8], part: Cursor) -> Tidy
    requires { Inside s.now part }
    ensures { NamesTidyName s.now part result }
{
    let Ok((_, next, shortest)) = part.name(s) else {
        return None;
    };
    if shortest {
        return Some(next);
    }
    None
}

// Contents of a kind. Kept contents stay as they are.
fn is_tidy(s: &[u8], part: Cursor, kind: Kind) -> bool
    requires { Inside s.now part }
    ensures { TellsContent (kind_meant kind) s.now part result }
{
    match kind {
        Kind::OneName => is_filled(tidy_name(s, part)),
        Kind::NameMap => is_filled(tidy_table(part, s, Item::Name)),
        Kind::IndirectMap => is_filled(tidy_tables(part, s, Item::Name)),
        Kind::Kept => true,
    }
}

// Whether a payload is accepted by the first edition and equals its canonical rewriting.
pub fn is_canonical(p: &[u8]) -> bool
    ensures { NamesIsCanonical p.now result }
{
    let mut next = Cursor::over(p);
    let mut least: u32 = 0;
    loop {
        let Ok(read) = frame(p, next, least) else {
            return false;
        };
        let Some((id, part, after, shortest)) = read else {
            return true;
        };
        if !shortest {
            return false;
        }
        if !is_tidy(p, part, kind_of(Edition::First, id)) {
            return false;
        }
        next = after;
        least = (id as u32) + 1;
    }
}
