// One question over two payloads (K3): the one that was sent apart answers unless it gives none, else the module's own. Both are judged whole. No call has a precondition.
#![tactic(auto)]

ghost use Rattle.std.specs.Prelude.{◌≡◌};
ghost use Rattle.pairs.specs.Settling.{own_answer, beside_own, HandsBack};
ghost use Rattle.pairs.specs.Promises.{PairsAsk, PairsAskBytes};

use format::{Answer, Edition, PairAnswer, Place, Question, Verdict, Whose};
use names::judging::judge;
use reading::taking::taken;

// What the own payload answers, where the separate one gives none.
fn of_own(answer: Answer) -> PairAnswer
    ensures { result ≡ own_answer answer }
{
    match answer {
        Err(r) => Err((Whose::Own, r)),
        Ok(found) => match found {
            None => Ok(None),
            Some(place) => Ok(Some((Whose::Own, place))),
        },
    }
}

// A name of the separate payload, by what judging the own one came to.
fn of_separate(place: Place, own: Verdict) -> PairAnswer
    ensures { result ≡ beside_own place own }
{
    match own {
        Err(refusal) => Err((Whose::Own, refusal)),
        Ok(()) => Ok(Some((Whose::Separate, place))),
    }
}

// A question to both payloads, which are read by an edition.
pub fn ask(separate: &[u8], own: &[u8], edition: Edition, q: Question) -> PairAnswer
    ensures { PairsAsk separate.now own.now edition q result }
{
    match names::ask(separate, edition, q) {
        Err(r) => Err((Whose::Separate, r)),
        Ok(found) => match found {
            None => of_own(names::ask(own, edition, q)),
            Some(place) => of_separate(place, judge(own, edition)),
        },
    }
}

// The part at an answer's place, of the payload that supplied it; empty for none and for a refusal.
fn part<'a>(separate: &'a [u8], own: &'a [u8], answer: PairAnswer) -> &'a [u8]
    ensures { HandsBack separate.now own.now separate.entry.ref_ptr own.entry.ref_ptr answer result.now result.ref_ptr }
{
    let nothing = &separate[..0];
    let Ok(found) = answer else {
        return nothing;
    };
    let Some((whose, place)) = found else {
        return nothing;
    };
    match whose {
        Whose::Separate => taken(separate, Ok(Some(place))),
        Whose::Own => taken(own, Ok(Some(place))),
    }
}

// The bytes of what was answered, as a part of the payload that supplied it.
pub fn ask_bytes<'a>(separate: &'a [u8], own: &'a [u8], edition: Edition, q: Question) -> &'a [u8]
    ensures { PairsAskBytes separate.now own.now separate.entry.ref_ptr own.entry.ref_ptr edition q result.ref_ptr result.now }
{
    part(separate, own, ask(separate, own, edition, q))
}
