// Judges a metadata payload and tells, in the same pass, whether it stands as its canonical rewriting would.
ghost use Rattle.std.specs.Prelude.{◌≡◌};
ghost use Rattle.format.specs.Telling.{items_are_canonical};
ghost use Rattle.tables.specs.Seeking.{reader_of};
ghost use Rattle.metadata.specs.Promises.{MetadataIsCanonical, MetadataAreHintsCanonical};

use reading::Cursor;
use tables::Item;
use tables::telling::{is_filled, tidy_tables};

// With nothing left a payload is this one byte, a count of no functions.
const NOTHING_LEFT: u8 = 0;

const NOTHING_LENGTH: usize = 1;

// Whether a payload of an item is accepted and equals its canonical rewriting.
fn are_items_canonical(p: &[u8], item: Item) -> bool
    ensures { result ≡ items_are_canonical (reader_of item) p.now }
{
    if p.len() == NOTHING_LENGTH {
        return p[0] == NOTHING_LEFT;
    }
    is_filled(tidy_tables(Cursor::over(p), p, item))
}

// A payload of any format.
pub fn is_canonical(p: &[u8]) -> bool
    ensures { MetadataIsCanonical p.now result }
{
    are_items_canonical(p, Item::Data)
}

// A payload of branch hints.
pub fn are_hints_canonical(p: &[u8]) -> bool
    ensures { MetadataAreHintsCanonical p.now result }
{
    are_items_canonical(p, Item::Hint)
}
