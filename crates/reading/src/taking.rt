// An answer's place as a part of what was lent.
ghost use Rattle.reading.specs.Promises.{ReadingTaken};

use format::Answer;

// The part at an answer's place; empty for none, for a refusal and for a place outside.
pub fn taken(p: &[u8], answer: Answer) -> &[u8]
    ensures { ReadingTaken p.now p.entry.ref_ptr answer result.ref_ptr result.now }
{
    let Ok(found) = answer else {
        return &p[..0];
    };
    let Some(place) = found else {
        return &p[..0];
    };
    let offset = place.offset;
    let from = offset.0;
    let length = place.length;
    if p.len() < from {
        return &p[..0];
    }
    if p.len() - from < length {
        return &p[..0];
    }
    &p[from..from + length]
}
