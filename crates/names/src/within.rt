// The questions to a payload that lies in what was lent: it is judged whole, then asked.
ghost use Rattle.reading.specs.Cursors.{Inside};
ghost use Rattle.names.specs.Promises.{NamesAskIn};

use crate::{answer, judge_in};
use format::{Answer, Edition, Question};
use reading::Cursor;

// A question to a payload.
pub fn ask_in(s: &[u8], c: Cursor, edition: Edition, q: Question) -> Answer
    requires { Inside s.now c }
    ensures { NamesAskIn s.now c edition q result }
{
    judge_in(s, c, edition)?;
    answer(s, c, edition, q)
}
