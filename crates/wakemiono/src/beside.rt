// K3: the calls over two name payloads, the one that was sent apart and the module's own. No call has a precondition.
ghost use Rattle.std.specs.Prelude.{◌≡◌};
ghost use Rattle.format.specs.Joined.{join_written_as};
ghost use Rattle.format.specs.Pairs.{pair_answered};
ghost use Rattle.format.specs.Refusals.{number_of};
ghost use Rattle.format.specs.declared.Question.TheVariants.{DataName, ElementName, FieldName, FunctionName, GlobalName, KeptContents, LabelName, LocalName, MemoryName, ModuleName, TableName, TagName, TypeName};
ghost use Rattle.wakemiono.specs.Pairs.{wm_whose, wm_pair_refused, wm_pair, wm_join};
ghost use Rattle.wakemiono.specs.Calls.{WmPair, WmPairJoin, WmWidePair, WmWidePairJoin};

use crate::{FOUND, NONE, REFUSED};
use format::{
    DataIndex, Edition, ElementIndex, FieldIndex, FunctionIndex, GlobalIndex, JoinRefusal,
    JoinWritten, LabelIndex, LocalIndex, MemoryIndex, PairAnswer, Question, Refusal, TableIndex,
    TagIndex, TypeIndex, Whose,
};

// Whose a name or a refusal is; nobody's where there is none, and of what both are joined to.
const NOBODY: u64 = 0;

const SEPARATE: u64 = 1;

const OWN: u64 = 2;

// One answer for all these calls, by value.
#[repr(C)]
#[derive(Clone, Copy)]
pub struct WmPairAnswer {
    pub kind: u32,
    pub code: u32,
    pub offset: u64,
    pub length: u64,
    pub whose: u64,
}

fn of_whose(whose: Whose) -> u64
    ensures { result ≡ wm_whose whose }
{
    match whose {
        Whose::Separate => SEPARATE,
        Whose::Own => OWN,
    }
}

fn of_refusal(whose: u64, r: Refusal) -> WmPairAnswer
    ensures { result ≡ wm_pair_refused whose (number_of r.reason) r.offset.0 }
{
    let reason = r.reason;
    let at = r.offset;
    WmPairAnswer {
        kind: REFUSED,
        code: reason.number(),
        offset: at.0 as u64,
        length: 0,
        whose,
    }
}

fn of_pair(answer: PairAnswer) -> WmPairAnswer
    ensures { result ≡ wm_pair (pair_answered answer) }
{
    match answer {
        Err((whose, r)) => of_refusal(of_whose(whose), r),
        Ok(found) => match found {
            None => WmPairAnswer {
                kind: NONE,
                code: 0,
                offset: 0,
                length: 0,
                whose: NOBODY,
            },
            Some((whose, place)) => {
                let at = place.offset;
                WmPairAnswer {
                    kind: FOUND,
                    code: 0,
                    offset: at.0 as u64,
                    length: place.length as u64,
                    whose: of_whose(whose),
                }
            }
        },
    }
}

fn of_join(written: JoinWritten) -> WmPairAnswer
    ensures { result ≡ wm_join (join_written_as written) }
{
    match written {
        Err(refusal) => match refusal {
            JoinRefusal::Payload(whose, r) => of_refusal(of_whose(whose), r),
            JoinRefusal::Output(r) => of_refusal(NOBODY, r),
        },
        Ok(n) => WmPairAnswer {
            kind: FOUND,
            code: 0,
            offset: 0,
            length: n as u64,
            whose: NOBODY,
        },
    }
}

fn asked(separate: &[u8], own: &[u8], q: Question) -> WmPairAnswer
    ensures { WmPair q separate.now own.now result }
{
    of_pair(pairs::ask(separate, own, Edition::First, q))
}

fn asked_widely(separate: &[u8], own: &[u8], q: Question) -> WmPairAnswer
    ensures { WmWidePair q separate.now own.now result }
{
    of_pair(pairs::ask(separate, own, Edition::Wider, q))
}

pub fn wm_pair_module_name(separate: &[u8], own: &[u8]) -> WmPairAnswer
    ensures { WmPair ModuleName separate.now own.now result }
{
    asked(separate, own, Question::ModuleName)
}

pub fn wm_pair_function_name(separate: &[u8], own: &[u8], function: u32) -> WmPairAnswer
    ensures { WmPair (FunctionName (record { 0 = function })) separate.now own.now result }
{
    asked(
        separate,
        own,
        Question::FunctionName(FunctionIndex(function)),
    )
}

pub fn wm_pair_local_name(separate: &[u8], own: &[u8], function: u32, local: u32) -> WmPairAnswer
    ensures { WmPair (LocalName (record { 0 = function }) (record { 0 = local })) separate.now own.now result }
{
    asked(
        separate,
        own,
        Question::LocalName(FunctionIndex(function), LocalIndex(local)),
    )
}

pub fn wm_pair_type_name(separate: &[u8], own: &[u8], index: u32) -> WmPairAnswer
    ensures { WmPair (TypeName (record { 0 = index })) separate.now own.now result }
{
    asked(separate, own, Question::TypeName(TypeIndex(index)))
}

pub fn wm_pair_field_name(separate: &[u8], own: &[u8], index: u32, field: u32) -> WmPairAnswer
    ensures { WmPair (FieldName (record { 0 = index }) (record { 0 = field })) separate.now own.now result }
{
    asked(
        separate,
        own,
        Question::FieldName(TypeIndex(index), FieldIndex(field)),
    )
}

pub fn wm_pair_tag_name(separate: &[u8], own: &[u8], tag: u32) -> WmPairAnswer
    ensures { WmPair (TagName (record { 0 = tag })) separate.now own.now result }
{
    asked(separate, own, Question::TagName(TagIndex(tag)))
}

pub fn wm_pair_kept(separate: &[u8], own: &[u8], id: u8) -> WmPairAnswer
    ensures { WmPair (KeptContents id) separate.now own.now result }
{
    asked(separate, own, Question::KeptContents(id))
}

pub fn wm_pair_join(separate: &[u8], own: &[u8], out: &mut [u8]) -> WmPairAnswer
    ensures { WmPairJoin separate.now own.now out.old out.new result }
{
    of_join(joining::join(separate, own, Edition::First, out))
}

pub fn wm_wide_pair_module_name(separate: &[u8], own: &[u8]) -> WmPairAnswer
    ensures { WmWidePair ModuleName separate.now own.now result }
{
    asked_widely(separate, own, Question::ModuleName)
}

pub fn wm_wide_pair_function_name(separate: &[u8], own: &[u8], function: u32) -> WmPairAnswer
    ensures { WmWidePair (FunctionName (record { 0 = function })) separate.now own.now result }
{
    asked_widely(
        separate,
        own,
        Question::FunctionName(FunctionIndex(function)),
    )
}

pub fn wm_wide_pair_local_name(
    separate: &[u8],
    own: &[u8],
    function: u32,
    local: u32,
) -> WmPairAnswer
    ensures { WmWidePair (LocalName (record { 0 = function }) (record { 0 = local })) separate.now own.now result }
{
    asked_widely(
        separate,
        own,
        Question::LocalName(FunctionIndex(function), LocalIndex(local)),
    )
}

pub fn wm_wide_pair_label_name(
    separate: &[u8],
    own: &[u8],
    function: u32,
    label: u32,
) -> WmPairAnswer
    ensures { WmWidePair (LabelName (record { 0 = function }) (record { 0 = label })) separate.now own.now result }
{
    asked_widely(
        separate,
        own,
        Question::LabelName(FunctionIndex(function), LabelIndex(label)),
    )
}

pub fn wm_wide_pair_type_name(separate: &[u8], own: &[u8], index: u32) -> WmPairAnswer
    ensures { WmWidePair (TypeName (record { 0 = index })) separate.now own.now result }
{
    asked_widely(separate, own, Question::TypeName(TypeIndex(index)))
}

pub fn wm_wide_pair_table_name(separate: &[u8], own: &[u8], table: u32) -> WmPairAnswer
    ensures { WmWidePair (TableName (record { 0 = table })) separate.now own.now result }
{
    asked_widely(separate, own, Question::TableName(TableIndex(table)))
}

pub fn wm_wide_pair_memory_name(separate: &[u8], own: &[u8], memory: u32) -> WmPairAnswer
    ensures { WmWidePair (MemoryName (record { 0 = memory })) separate.now own.now result }
{
    asked_widely(separate, own, Question::MemoryName(MemoryIndex(memory)))
}

pub fn wm_wide_pair_global_name(separate: &[u8], own: &[u8], global: u32) -> WmPairAnswer
    ensures { WmWidePair (GlobalName (record { 0 = global })) separate.now own.now result }
{
    asked_widely(separate, own, Question::GlobalName(GlobalIndex(global)))
}

pub fn wm_wide_pair_element_name(separate: &[u8], own: &[u8], element: u32) -> WmPairAnswer
    ensures { WmWidePair (ElementName (record { 0 = element })) separate.now own.now result }
{
    asked_widely(separate, own, Question::ElementName(ElementIndex(element)))
}

pub fn wm_wide_pair_data_name(separate: &[u8], own: &[u8], segment: u32) -> WmPairAnswer
    ensures { WmWidePair (DataName (record { 0 = segment })) separate.now own.now result }
{
    asked_widely(separate, own, Question::DataName(DataIndex(segment)))
}

pub fn wm_wide_pair_field_name(separate: &[u8], own: &[u8], index: u32, field: u32) -> WmPairAnswer
    ensures { WmWidePair (FieldName (record { 0 = index }) (record { 0 = field })) separate.now own.now result }
{
    asked_widely(
        separate,
        own,
        Question::FieldName(TypeIndex(index), FieldIndex(field)),
    )
}

pub fn wm_wide_pair_tag_name(separate: &[u8], own: &[u8], tag: u32) -> WmPairAnswer
    ensures { WmWidePair (TagName (record { 0 = tag })) separate.now own.now result }
{
    asked_widely(separate, own, Question::TagName(TagIndex(tag)))
}

pub fn wm_wide_pair_kept(separate: &[u8], own: &[u8], id: u8) -> WmPairAnswer
    ensures { WmWidePair (KeptContents id) separate.now own.now result }
{
    asked_widely(separate, own, Question::KeptContents(id))
}

pub fn wm_wide_pair_join(separate: &[u8], own: &[u8], out: &mut [u8]) -> WmPairAnswer
    ensures { WmWidePairJoin separate.now own.now out.old out.new result }
{
    of_join(joining::join(separate, own, Edition::Wider, out))
}
