// What the contents at a place answer.
ghost use Rattle.format.specs.Names.{one_name, name_map, indirect_map};
ghost use Rattle.names.specs.Places.{SubInside, KnownAt};
ghost use Rattle.names.specs.Promises.{NamesTheName, NamesNamed, NamesNamedWithin, NamesAllKept};

use format::{Answer, Offset, Place};
use reading::again::part_here;
use tables::Held;
use tables::finding::{answer_of, find_group, find_row};

// The one name there. It was accepted, so its text is not looked at again.
pub fn the_name(s: &[u8], place: Held) -> Answer
    requires { KnownAt one_name s.now place }
    ensures { NamesTheName s.now place result }
{
    match place {
        None => Ok(None),
        Some(part) => {
            let name = part_here(part, s);
            let text = name.part;
            answer_of(Some(text))
        }
    }
}

// The name at `key` of the name map there, likewise, and nothing behind the key.
pub fn named(s: &[u8], place: Held, key: u32) -> Answer
    requires { KnownAt name_map s.now place }
    ensures { NamesNamed s.now place key result }
{
    match place {
        None => Ok(None),
        Some(part) => answer_of(find_row(part, s, key)),
    }
}

// The name at `inner` in the map at `key` of the indirect map there, likewise.
pub fn named_within(s: &[u8], place: Held, key: u32, inner: u32) -> Answer
    requires { KnownAt indirect_map s.now place }
    ensures { NamesNamedWithin s.now place key inner result }
{
    match place {
        None => Ok(None),
        Some(part) => answer_of(find_group(part, s, key, inner)),
    }
}

// All that is kept there.
pub fn all_kept(s: &[u8], place: Held) -> Answer
    requires { SubInside s.now place }
    ensures { NamesAllKept s.now place result }
{
    match place {
        None => Ok(None),
        Some(part) => {
            let at = part.at;
            Ok(Some(Place {
                offset: Offset(at),
                length: part.end - at,
            }))
        }
    }
}
