// What comes out as long as it is: nothing in it was padded and nothing empty is left out, so it is copied as it is.
ghost use Rattle.rewrite.specs.Whole.{FitsWhole, PutsWhole};

use reading::Cursor;
use writing::put_long;

// All that the cursor has left.
pub fn put_whole(out: &mut [u8], at: usize, s: &[u8], c: Cursor) -> usize
    requires { FitsWhole s.now c out.old at }
    ensures { PutsWhole s.now c out.old out.new at result }
{
    let from = c.at;
    let to = c.end;
    put_long(out, at, &s[from..to])
}
