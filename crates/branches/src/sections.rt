// Where the contents of the section with an id lie, in a module that the walk has accepted.
ghost use Rattle.branches.specs.Sections.{Walked, Finds};

use reading::Cursor;
use reading::again::part_here;

pub const IMPORTS: u8 = 2;

pub const CODE: u8 = 10;

// Behind the preamble.
const FIRST: usize = 8;

// The contents of a section, if there is one. From id byte to id byte: the walk has judged what lies between, so it is passed over by its size.
pub fn contents_of(m: &[u8], id: u8) -> Option<Cursor>
    requires { Walked m.now }
    ensures { Finds m.now id result }
{
    let end = m.len();
    let mut at = FIRST;
    while at < end {
        let section = part_here(Cursor { at: at + 1, end }, m);
        let contents = section.part;
        let next = section.next;
        if m[at] == id {
            return Some(contents);
        }
        at = next.at;
    }
    None
}
