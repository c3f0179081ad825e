// K5: the calls that read a module as it arrives. The state is the caller's and is lent; it is copied out, turned by value, and
// stored. No call has a precondition: every state is taken, also one that nobody began.
ghost use Rattle.std.specs.Prelude.{◌≡◌};
ghost use Rattle.wakemiono.specs.Arriving.{kind_of, wm_ending, turned_by, over_by};
ghost use Rattle.wakemiono.specs.Calls.{WmStreamBegin, WmStreamPart, WmStreamFinish};

use crate::{FOUND, REFUSED, WmAnswer, of_verdict};
use stream::{Ending, Stream, finish, take_part};

// The walk's answer, and beside it three places: NONE or FOUND, and where the payload lies.
#[repr(C)]
#[derive(Clone, Copy)]
pub struct WmStreamAnswer {
    pub kind: u32,
    pub code: u32,
    pub offset: u64,
    pub length: u64,
    pub name_kind: u64,
    pub name_offset: u64,
    pub name_length: u64,
    pub hints_kind: u64,
    pub hints_offset: u64,
    pub hints_length: u64,
    pub old_hints_kind: u64,
    pub old_hints_offset: u64,
    pub old_hints_length: u64,
}

// What a call leaves, and what it answers.
#[derive(Clone, Copy)]
pub struct Turned {
    pub state: Stream,
    pub answer: WmAnswer,
}

#[derive(Clone, Copy)]
pub struct Over {
    pub state: Stream,
    pub answer: WmStreamAnswer,
}

fn kind_of(accepted: bool) -> u32
    ensures { result ≡ kind_of accepted }
{
    if accepted {
        return FOUND;
    }
    REFUSED
}

fn of_ending(e: Ending) -> WmStreamAnswer
    ensures { result ≡ wm_ending e }
{
    let name = e.name;
    let hints = e.hints;
    let older = e.older;
    WmStreamAnswer {
        kind: kind_of(e.accepted),
        code: e.refusal,
        offset: e.offset,
        length: e.count,
        name_kind: name.there,
        name_offset: name.offset,
        name_length: name.length,
        hints_kind: hints.there,
        hints_offset: hints.offset,
        hints_length: hints.length,
        old_hints_kind: older.there,
        old_hints_offset: older.offset,
        old_hints_length: older.length,
    }
}

fn turn(s: Stream, part: &[u8]) -> Turned
    ensures { result ≡ turned_by s part.now }
{
    let taken = take_part(s, part);
    let verdict = taken.verdict;
    let answer = of_verdict(verdict, part.len());
    let state = taken.stream;
    Turned { state, answer }
}

fn end(s: Stream) -> Over
    ensures { result ≡ over_by s }
{
    let ended = finish(s);
    let ending = ended.ending;
    let answer = of_ending(ending);
    let state = ended.stream;
    Over { state, answer }
}

pub fn wm_stream_begin() -> Stream
    ensures { WmStreamBegin result }
{
    stream::begin()
}

pub fn wm_stream_part(state: &mut Stream, part: &[u8]) -> WmAnswer
    ensures { WmStreamPart state.old part.now state.new result }
{
    let turned = turn(*state, part);
    *state = turned.state;
    turned.answer
}

pub fn wm_stream_finish(state: &mut Stream) -> WmStreamAnswer
    ensures { WmStreamFinish state.old state.new result }
{
    let over = end(*state);
    *state = over.state;
    over.answer
}
