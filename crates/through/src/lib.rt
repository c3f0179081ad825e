// The questions of names and metadata, put to a whole module. The walk comes first; then the payload is judged and asked where it lies, so that offsets count from the module's start. A second call hands the bytes of what was answered back as a part of the lent module: empty, and at its start, for none and for a refusal. No call has a precondition.
#![tactic(auto)]

ghost use Rattle.through.specs.Promises.{ThroughAsk, ThroughAskBytes, ThroughMetadata, ThroughMetadataBytes, ThroughHint, ThroughOlderHint};

use crate::sections::{
    hint_section, item_of, metadata_section, name_section, older_hint_section, over,
};
use format::{Answer, CodeOffset, Edition, FunctionIndex, HintAnswer, InstructionOffset, Question};
use metadata::{find_in, hint_in};
use names::within::ask_in;
use reading::taking::taken;

mod sections;

// A question to the name payload, which is read by an edition.
pub fn ask(m: &[u8], edition: Edition, q: Question) -> Answer
    ensures { ThroughAsk m.now edition q result }
{
    let Some(place) = name_section(m)? else {
        return Ok(None);
    };
    ask_in(m, over(m, place), edition, q)
}

pub fn ask_bytes(m: &[u8], edition: Edition, q: Question) -> &[u8]
    ensures { ThroughAskBytes m.now m.entry.ref_ptr edition q result.ref_ptr result.now }
{
    taken(m, ask(m, edition, q))
}

// The data at an offset of a function, in the metadata of a format.
pub fn metadata(m: &[u8], format: &[u8], f: FunctionIndex, at: CodeOffset) -> Answer
    ensures { ThroughMetadata m.now format.now f at result }
{
    let Some(place) = metadata_section(m, format)? else {
        return Ok(None);
    };
    let item = item_of(format);
    find_in(m, over(m, place), item, f, at)
}

pub fn metadata_bytes<'a>(m: &'a [u8], format: &[u8], f: FunctionIndex, at: CodeOffset) -> &'a [u8]
    ensures { ThroughMetadataBytes m.now m.entry.ref_ptr format.now f at result.ref_ptr result.now }
{
    taken(m, metadata(m, format, f, at))
}

// The hint at an offset of a function.
pub fn hint(m: &[u8], f: FunctionIndex, at: CodeOffset) -> HintAnswer
    ensures { ThroughHint m.now f at result }
{
    let Some(place) = hint_section(m)? else {
        return Ok(None);
    };
    hint_in(m, over(m, place), f, at)
}

// K2: the hint of the older edition at an offset of a function, which counts from its first instruction.
pub fn older_hint(m: &[u8], f: FunctionIndex, at: InstructionOffset) -> HintAnswer
    ensures { ThroughOlderHint m.now f at result }
{
    let Some(place) = older_hint_section(m)? else {
        return Ok(None);
    };
    older::hint_in(m, over(m, place), f, at)
}
