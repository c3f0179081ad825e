// The sections that are asked through a module: where their payloads lie, and by which rules the items are read.
ghost use Rattle.std.specs.Prelude.{◌+◌, ◌≤◌, length, ◌≡◌};
ghost use Rattle.format.specs.Questions.{answered, as_place};
ghost use Rattle.format.specs.Through.{metadata_section};
ghost use Rattle.format.specs.Walk.{name_section, hint_section, older_hint_section, custom_payload};
ghost use Rattle.through.specs.Sections.{cursor_over, item_called};

use format::{Answer, Place};
use reading::Cursor;
use tables::Item;
use walk::called::is_called;
use walk::rows::{BRANCH_HINT, BRANCH_HINTS, METADATA, NAME_SECTION};

// Where the names lie.
pub fn name_section(m: &[u8]) -> Answer
    ensures { answered result ≡ as_place (custom_payload name_section m.now) }
{
    walk::custom(m, &NAME_SECTION)
}

// Where the branch hints lie.
pub fn hint_section(m: &[u8]) -> Answer
    ensures { answered result ≡ as_place (custom_payload hint_section m.now) }
{
    walk::custom_joined(m, &METADATA, &BRANCH_HINT)
}

// Where the hints of the older edition lie.
pub fn older_hint_section(m: &[u8]) -> Answer
    ensures { answered result ≡ as_place (custom_payload older_hint_section m.now) }
{
    walk::custom(m, &BRANCH_HINTS)
}

// Where the metadata of a format lies.
pub fn metadata_section(m: &[u8], format: &[u8]) -> Answer
    ensures { answered result ≡ as_place (custom_payload (metadata_section format.now) m.now) }
{
    walk::custom_joined(m, &METADATA, format)
}

// How the items of a format are read: branch hints have rules of their own.
pub fn item_of(format: &[u8]) -> Item
    ensures { result ≡ item_called format.now }
{
    let all = Cursor::over(format);
    if is_called(format, all, &BRANCH_HINT) {
        return Item::Hint;
    }
    Item::Data
}

// The cursor over a payload that lies in `m`.
pub fn over(m: &[u8], place: Place) -> Cursor
    requires { place.offset.0 + place.length ≤ length m.now }
    ensures { result ≡ cursor_over place }
{
    let offset = place.offset;
    let at = offset.0;
    let end = at + place.length;
    Cursor { at, end }
}
