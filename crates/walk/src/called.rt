// Names of custom sections, compared byte by byte.
ghost use Rattle.reading.specs.Cursors.{Inside};
ghost use Rattle.walk.specs.Promises.{WalkIsCalled, WalkIsJoined};

use reading::Cursor;

// Whether a part of `s` is these bytes.
pub fn is_called(s: &[u8], part: Cursor, name: &[u8]) -> bool
    requires { Inside s.now part }
    ensures { WalkIsCalled s.now part name.now result }
{
    let at = part.at;
    if part.end - at != name.len() {
        return false;
    }
    let mut k = 0;
    while k < name.len() {
        if s[at + k] != name[k] {
            return false;
        }
        k += 1;
    }
    true
}

// Whether a part of `s` is two slices joined. The second is compared first: names with a common front differ there.
pub fn is_joined(s: &[u8], part: Cursor, front: &[u8], rest: &[u8]) -> bool
    requires { Inside s.now part }
    ensures { WalkIsJoined s.now part front.now rest.now result }
{
    let at = part.at;
    let end = part.end;
    if end - at != front.len() + rest.len() {
        return false;
    }
    let middle = at + front.len();
    if is_called(s, Cursor { at: middle, end }, rest) {
        return is_called(s, Cursor { at, end: middle }, front);
    }
    false
}
