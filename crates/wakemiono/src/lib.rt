// The C boundary: every call takes any bytes, ends, and asks no prior check. include/wakemiono.h says the same for C, which the
// crate wakemiono_c hands them to.
#![tactic(auto)]

ghost use Rattle.std.specs.Prelude.{◌≡◌, length};
ghost use Rattle.format.specs.Metadata.{hint_answered};
ghost use Rattle.format.specs.Outputs.{written_as};
ghost use Rattle.format.specs.Questions.{answered};
ghost use Rattle.format.specs.declared.Question.TheVariants.{ModuleName, FunctionName, TypeName, TagName, LocalName, FieldName, KeptContents};
ghost use Rattle.format.specs.Refusals.{number_of};
ghost use Rattle.format.specs.Verdicts.{verdict_of};
ghost use Rattle.walk.specs.Surveys.{counted, section_answered};
ghost use Rattle.wakemiono.specs.Boundary.{wm_found, wm_refused, wm_count, wm_section, wm_place, wm_judged, wm_hinted, wm_hint, wm_yes};
ghost use Rattle.wakemiono.specs.Calls.{WmWalk, WmSection, WmCustom, WmNamesJudge, WmName, WmMetadataJudge, WmMetadata, WmHintsJudge, WmHint, WmNameIn, WmMetadataIn, WmHintIn, WmNamesCanonical, WmMetadataCanonical, WmHintsCanonical, WmNamesIsCanonical, WmMetadataIsCanonical, WmHintsIsCanonical, WmFunctionNamesWrite};

use format::{
    Answer, CodeOffset, Edition, FieldIndex, FunctionIndex, Hint, HintAnswer, LocalIndex, Question,
    Refusal, TagIndex, TypeIndex, Verdict, Written,
};
use names::judging;
use walk::Counted;
use walk::survey::SectionAnswer;

pub mod arriving;
pub mod beside;
pub mod branching;
pub mod old_hints;
pub mod quick;
pub mod rows;
pub mod shared;
pub mod why;
pub mod wide;

// One answer for all calls, by value.
#[repr(C)]
#[derive(Clone, Copy)]
pub struct WmAnswer {
    pub kind: u32,
    pub code: u32,
    pub offset: u64,
    pub length: u64,
}

const NONE: u32 = 0;

const FOUND: u32 = 1;

const REFUSED: u32 = 2;

const UNLIKELY: u32 = 3;

const LIKELY: u32 = 4;

// The answer of a call that tells a yes or no.
const YES: u32 = 1;

const NO: u32 = 0;

const ANSWERED_NONE: WmAnswer = WmAnswer {
    kind: NONE,
    code: 0,
    offset: 0,
    length: 0,
};

fn of_refusal(r: Refusal) -> WmAnswer
    ensures { result ≡ wm_refused (number_of r.reason) r.offset.0 }
{
    let reason = r.reason;
    let at = r.offset;
    WmAnswer {
        kind: REFUSED,
        code: reason.number(),
        offset: at.0 as u64,
        length: 0,
    }
}

fn of_count(c: Counted) -> WmAnswer
    ensures { result ≡ wm_count (counted c) }
{
    match c {
        Err(r) => of_refusal(r),
        Ok(n) => WmAnswer {
            kind: FOUND,
            code: 0,
            offset: 0,
            length: n as u64,
        },
    }
}

fn of_written(w: Written) -> WmAnswer
    ensures { result ≡ wm_count (written_as w) }
{
    match w {
        Err(r) => of_refusal(r),
        Ok(n) => all_of(n),
    }
}

fn of_section(s: SectionAnswer) -> WmAnswer
    ensures { result ≡ wm_section (section_answered s) }
{
    match s {
        Err(r) => of_refusal(r),
        Ok(found) => match found {
            None => ANSWERED_NONE,
            Some(p) => {
                let at = p.at;
                WmAnswer {
                    kind: FOUND,
                    code: p.id as u32,
                    offset: at.0 as u64,
                    length: p.length as u64,
                }
            }
        },
    }
}

fn of_answer(answer: Answer) -> WmAnswer
    ensures { result ≡ wm_place (answered answer) }
{
    match answer {
        Err(r) => of_refusal(r),
        Ok(found) => match found {
            None => ANSWERED_NONE,
            Some(p) => {
                let at = p.offset;
                WmAnswer {
                    kind: FOUND,
                    code: 0,
                    offset: at.0 as u64,
                    length: p.length as u64,
                }
            }
        },
    }
}

// So many bytes from the front: the whole payload, where it was accepted, or what was written.
fn all_of(length: usize) -> WmAnswer
    ensures { result ≡ wm_found 0 0 length }
{
    WmAnswer {
        kind: FOUND,
        code: 0,
        offset: 0,
        length: length as u64,
    }
}

fn of_verdict(verdict: Verdict, length: usize) -> WmAnswer
    ensures { result ≡ wm_judged length (verdict_of verdict) }
{
    match verdict {
        Err(r) => of_refusal(r),
        Ok(()) => all_of(length),
    }
}

fn of_likelihood(hint: Hint) -> WmAnswer
    ensures { result ≡ wm_hinted hint }
{
    match hint {
        Hint::Unlikely => WmAnswer {
            kind: UNLIKELY,
            code: 0,
            offset: 0,
            length: 0,
        },
        Hint::Likely => WmAnswer {
            kind: LIKELY,
            code: 0,
            offset: 0,
            length: 0,
        },
    }
}

fn of_hint(answer: HintAnswer) -> WmAnswer
    ensures { result ≡ wm_hint (hint_answered answer) }
{
    match answer {
        Err(r) => of_refusal(r),
        Ok(found) => match found {
            None => ANSWERED_NONE,
            Some(hint) => of_likelihood(hint),
        },
    }
}

fn of_yes(is: bool) -> u32
    ensures { result ≡ wm_yes is }
{
    if is {
        return YES;
    }
    NO
}

pub fn wm_walk(bytes: &[u8]) -> WmAnswer
    ensures { WmWalk bytes.now result }
{
    of_count(walk::count(bytes))
}

pub fn wm_section(bytes: &[u8], position: u64) -> WmAnswer
    ensures { WmSection position bytes.now result }
{
    of_section(walk::section_at(bytes, position))
}

pub fn wm_custom(bytes: &[u8], name: &[u8]) -> WmAnswer
    ensures { WmCustom name.now bytes.now result }
{
    of_answer(walk::custom(bytes, name))
}

pub fn wm_names_judge(payload: &[u8]) -> WmAnswer
    ensures { WmNamesJudge payload.now result }
{
    of_verdict(judging::judge(payload, Edition::First), payload.len())
}

fn local_name(function: u32, local: u32) -> Question
    ensures { result ≡ LocalName (record { 0 = function }) (record { 0 = local }) }
{
    Question::LocalName(FunctionIndex(function), LocalIndex(local))
}

fn field_name(index: u32, field: u32) -> Question
    ensures { result ≡ FieldName (record { 0 = index }) (record { 0 = field }) }
{
    Question::FieldName(TypeIndex(index), FieldIndex(field))
}

// A question to a name payload.
fn asked(payload: &[u8], q: Question) -> WmAnswer
    ensures { WmName q payload.now result }
{
    of_answer(names::ask(payload, Edition::First, q))
}

pub fn wm_module_name(payload: &[u8]) -> WmAnswer
    ensures { WmName ModuleName payload.now result }
{
    asked(payload, Question::ModuleName)
}

pub fn wm_function_name(payload: &[u8], function: u32) -> WmAnswer
    ensures { WmName (FunctionName (record { 0 = function })) payload.now result }
{
    asked(payload, Question::FunctionName(FunctionIndex(function)))
}

pub fn wm_type_name(payload: &[u8], index: u32) -> WmAnswer
    ensures { WmName (TypeName (record { 0 = index })) payload.now result }
{
    asked(payload, Question::TypeName(TypeIndex(index)))
}

pub fn wm_tag_name(payload: &[u8], tag: u32) -> WmAnswer
    ensures { WmName (TagName (record { 0 = tag })) payload.now result }
{
    asked(payload, Question::TagName(TagIndex(tag)))
}

pub fn wm_local_name(payload: &[u8], function: u32, local: u32) -> WmAnswer
    ensures { WmName (LocalName (record { 0 = function }) (record { 0 = local })) payload.now result }
{
    asked(payload, local_name(function, local))
}

pub fn wm_field_name(payload: &[u8], index: u32, field: u32) -> WmAnswer
    ensures { WmName (FieldName (record { 0 = index }) (record { 0 = field })) payload.now result }
{
    asked(payload, field_name(index, field))
}

pub fn wm_kept(payload: &[u8], id: u8) -> WmAnswer
    ensures { WmName (KeptContents id) payload.now result }
{
    asked(payload, Question::KeptContents(id))
}

pub fn wm_metadata_judge(payload: &[u8]) -> WmAnswer
    ensures { WmMetadataJudge payload.now result }
{
    of_verdict(metadata::judge(payload), payload.len())
}

pub fn wm_hints_judge(payload: &[u8]) -> WmAnswer
    ensures { WmHintsJudge payload.now result }
{
    of_verdict(metadata::judge_hints(payload), payload.len())
}

pub fn wm_metadata(payload: &[u8], function: u32, offset: u32) -> WmAnswer
    ensures { WmMetadata function offset payload.now result }
{
    of_answer(metadata::find(payload, FunctionIndex(function), CodeOffset(offset)))
}

pub fn wm_hint(payload: &[u8], function: u32, offset: u32) -> WmAnswer
    ensures { WmHint function offset payload.now result }
{
    of_hint(metadata::hint(payload, FunctionIndex(function), CodeOffset(offset)))
}

// The same through a module.
fn asked_through(bytes: &[u8], q: Question) -> WmAnswer
    ensures { WmNameIn q bytes.now result }
{
    of_answer(through::ask(bytes, Edition::First, q))
}

pub fn wm_module_name_in(bytes: &[u8]) -> WmAnswer
    ensures { WmNameIn ModuleName bytes.now result }
{
    asked_through(bytes, Question::ModuleName)
}

pub fn wm_function_name_in(bytes: &[u8], function: u32) -> WmAnswer
    ensures { WmNameIn (FunctionName (record { 0 = function })) bytes.now result }
{
    asked_through(bytes, Question::FunctionName(FunctionIndex(function)))
}

pub fn wm_type_name_in(bytes: &[u8], index: u32) -> WmAnswer
    ensures { WmNameIn (TypeName (record { 0 = index })) bytes.now result }
{
    asked_through(bytes, Question::TypeName(TypeIndex(index)))
}

pub fn wm_tag_name_in(bytes: &[u8], tag: u32) -> WmAnswer
    ensures { WmNameIn (TagName (record { 0 = tag })) bytes.now result }
{
    asked_through(bytes, Question::TagName(TagIndex(tag)))
}

pub fn wm_local_name_in(bytes: &[u8], function: u32, local: u32) -> WmAnswer
    ensures { WmNameIn (LocalName (record { 0 = function }) (record { 0 = local })) bytes.now result }
{
    asked_through(bytes, local_name(function, local))
}

pub fn wm_field_name_in(bytes: &[u8], index: u32, field: u32) -> WmAnswer
    ensures { WmNameIn (FieldName (record { 0 = index }) (record { 0 = field })) bytes.now result }
{
    asked_through(bytes, field_name(index, field))
}

pub fn wm_kept_in(bytes: &[u8], id: u8) -> WmAnswer
    ensures { WmNameIn (KeptContents id) bytes.now result }
{
    asked_through(bytes, Question::KeptContents(id))
}

pub fn wm_metadata_in(bytes: &[u8], format: &[u8], function: u32, offset: u32) -> WmAnswer
    ensures { WmMetadataIn format.now function offset bytes.now result }
{
    of_answer(through::metadata(bytes, format, FunctionIndex(function), CodeOffset(offset)))
}

pub fn wm_hint_in(bytes: &[u8], function: u32, offset: u32) -> WmAnswer
    ensures { WmHintIn function offset bytes.now result }
{
    of_hint(through::hint(bytes, FunctionIndex(function), CodeOffset(offset)))
}

pub fn wm_names_canonical(payload: &[u8], out: &mut [u8]) -> WmAnswer
    ensures { WmNamesCanonical payload.now out.old out.new result }
{
    of_written(rewrite::names(payload, Edition::First, out))
}

pub fn wm_metadata_canonical(payload: &[u8], out: &mut [u8]) -> WmAnswer
    ensures { WmMetadataCanonical payload.now out.old out.new result }
{
    of_written(rewrite::metadata(payload, out))
}

pub fn wm_hints_canonical(payload: &[u8], out: &mut [u8]) -> WmAnswer
    ensures { WmHintsCanonical payload.now out.old out.new result }
{
    of_written(rewrite::hints(payload, out))
}

pub fn wm_names_is_canonical(payload: &[u8]) -> u32
    ensures { WmNamesIsCanonical payload.now result }
{
    of_yes(names::telling::is_canonical(payload))
}

pub fn wm_metadata_is_canonical(payload: &[u8]) -> u32
    ensures { WmMetadataIsCanonical payload.now result }
{
    of_yes(metadata::telling::is_canonical(payload))
}

pub fn wm_hints_is_canonical(payload: &[u8]) -> u32
    ensures { WmHintsIsCanonical payload.now result }
{
    of_yes(metadata::telling::are_hints_canonical(payload))
}

pub fn wm_function_names_write(
    indices: &[u32],
    lengths: &[u32],
    text: &[u8],
    out: &mut [u8],
) -> WmAnswer
    ensures { WmFunctionNamesWrite indices.now lengths.now text.now out.old out.new result }
{
    of_written(lists::function_names(indices, lengths, text, out))
}
