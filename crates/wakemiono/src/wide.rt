// K9: the calls of the wider edition, each as its like of the first edition, and six more. No call has a precondition.
ghost use Rattle.std.specs.Prelude.{◌≡◌};
ghost use Rattle.format.specs.declared.Question.TheVariants.{ModuleName, FunctionName, LocalName, LabelName, TypeName, TableName, MemoryName, GlobalName, ElementName, DataName, FieldName, TagName, KeptContents};
ghost use Rattle.wakemiono.specs.Calls.{WmWideNamesJudge, WmWideName, WmWideNameIn, WmWideNamesCanonical, WmWideNamesIsCanonical};

use crate::{WmAnswer, field_name, local_name, of_answer, of_verdict, of_written, of_yes};
use format::{
    DataIndex, Edition, ElementIndex, FunctionIndex, GlobalIndex, LabelIndex, MemoryIndex,
    Question, TableIndex, TagIndex, TypeIndex,
};
use names::judging;

fn label_name(function: u32, label: u32) -> Question
    ensures { result ≡ LabelName (record { 0 = function }) (record { 0 = label }) }
{
    Question::LabelName(FunctionIndex(function), LabelIndex(label))
}

pub fn wm_wide_names_judge(payload: &[u8]) -> WmAnswer
    ensures { WmWideNamesJudge payload.now result }
{
    of_verdict(judging::judge(payload, Edition::Wider), payload.len())
}

// A question to a name payload.
fn asked(payload: &[u8], q: Question) -> WmAnswer
    ensures { WmWideName q payload.now result }
{
    of_answer(names::ask(payload, Edition::Wider, q))
}

pub fn wm_wide_module_name(payload: &[u8]) -> WmAnswer
    ensures { WmWideName ModuleName payload.now result }
{
    asked(payload, Question::ModuleName)
}

pub fn wm_wide_function_name(payload: &[u8], function: u32) -> WmAnswer
    ensures { WmWideName (FunctionName (record { 0 = function })) payload.now result }
{
    asked(payload, Question::FunctionName(FunctionIndex(function)))
}

pub fn wm_wide_local_name(payload: &[u8], function: u32, local: u32) -> WmAnswer
    ensures { WmWideName (LocalName (record { 0 = function }) (record { 0 = local })) payload.now result }
{
    asked(payload, local_name(function, local))
}

pub fn wm_wide_label_name(payload: &[u8], function: u32, label: u32) -> WmAnswer
    ensures { WmWideName (LabelName (record { 0 = function }) (record { 0 = label })) payload.now result }
{
    asked(payload, label_name(function, label))
}

pub fn wm_wide_type_name(payload: &[u8], index: u32) -> WmAnswer
    ensures { WmWideName (TypeName (record { 0 = index })) payload.now result }
{
    asked(payload, Question::TypeName(TypeIndex(index)))
}

pub fn wm_wide_table_name(payload: &[u8], table: u32) -> WmAnswer
    ensures { WmWideName (TableName (record { 0 = table })) payload.now result }
{
    asked(payload, Question::TableName(TableIndex(table)))
}

pub fn wm_wide_memory_name(payload: &[u8], memory: u32) -> WmAnswer
    ensures { WmWideName (MemoryName (record { 0 = memory })) payload.now result }
{
    asked(payload, Question::MemoryName(MemoryIndex(memory)))
}

pub fn wm_wide_global_name(payload: &[u8], global: u32) -> WmAnswer
    ensures { WmWideName (GlobalName (record { 0 = global })) payload.now result }
{
    asked(payload, Question::GlobalName(GlobalIndex(global)))
}

pub fn wm_wide_element_name(payload: &[u8], element: u32) -> WmAnswer
    ensures { WmWideName (ElementName (record { 0 = element })) payload.now result }
{
    asked(payload, Question::ElementName(ElementIndex(element)))
}

pub fn wm_wide_data_name(payload: &[u8], segment: u32) -> WmAnswer
    ensures { WmWideName (DataName (record { 0 = segment })) payload.now result }
{
    asked(payload, Question::DataName(DataIndex(segment)))
}

pub fn wm_wide_field_name(payload: &[u8], index: u32, field: u32) -> WmAnswer
    ensures { WmWideName (FieldName (record { 0 = index }) (record { 0 = field })) payload.now result }
{
    asked(payload, field_name(index, field))
}

pub fn wm_wide_tag_name(payload: &[u8], tag: u32) -> WmAnswer
    ensures { WmWideName (TagName (record { 0 = tag })) payload.now result }
{
    asked(payload, Question::TagName(TagIndex(tag)))
}

pub fn wm_wide_kept(payload: &[u8], id: u8) -> WmAnswer
    ensures { WmWideName (KeptContents id) payload.now result }
{
    asked(payload, Question::KeptContents(id))
}

// The same through a module.
fn asked_through(bytes: &[u8], q: Question) -> WmAnswer
    ensures { WmWideNameIn q bytes.now result }
{
    of_answer(through::ask(bytes, Edition::Wider, q))
}

pub fn wm_wide_module_name_in(bytes: &[u8]) -> WmAnswer
    ensures { WmWideNameIn ModuleName bytes.now result }
{
    asked_through(bytes, Question::ModuleName)
}

pub fn wm_wide_function_name_in(bytes: &[u8], function: u32) -> WmAnswer
    ensures { WmWideNameIn (FunctionName (record { 0 = function })) bytes.now result }
{
    asked_through(bytes, Question::FunctionName(FunctionIndex(function)))
}

pub fn wm_wide_local_name_in(bytes: &[u8], function: u32, local: u32) -> WmAnswer
    ensures { WmWideNameIn (LocalName (record { 0 = function }) (record { 0 = local })) bytes.now result }
{
    asked_through(bytes, local_name(function, local))
}

pub fn wm_wide_label_name_in(bytes: &[u8], function: u32, label: u32) -> WmAnswer
    ensures { WmWideNameIn (LabelName (record { 0 = function }) (record { 0 = label })) bytes.now result }
{
    asked_through(bytes, label_name(function, label))
}

pub fn wm_wide_type_name_in(bytes: &[u8], index: u32) -> WmAnswer
    ensures { WmWideNameIn (TypeName (record { 0 = index })) bytes.now result }
{
    asked_through(bytes, Question::TypeName(TypeIndex(index)))
}

pub fn wm_wide_table_name_in(bytes: &[u8], table: u32) -> WmAnswer
    ensures { WmWideNameIn (TableName (record { 0 = table })) bytes.now result }
{
    asked_through(bytes, Question::TableName(TableIndex(table)))
}

pub fn wm_wide_memory_name_in(bytes: &[u8], memory: u32) -> WmAnswer
    ensures { WmWideNameIn (MemoryName (record { 0 = memory })) bytes.now result }
{
    asked_through(bytes, Question::MemoryName(MemoryIndex(memory)))
}

pub fn wm_wide_global_name_in(bytes: &[u8], global: u32) -> WmAnswer
    ensures { WmWideNameIn (GlobalName (record { 0 = global })) bytes.now result }
{
    asked_through(bytes, Question::GlobalName(GlobalIndex(global)))
}

pub fn wm_wide_element_name_in(bytes: &[u8], element: u32) -> WmAnswer
    ensures { WmWideNameIn (ElementName (record { 0 = element })) bytes.now result }
{
    asked_through(bytes, Question::ElementName(ElementIndex(element)))
}

pub fn wm_wide_data_name_in(bytes: &[u8], segment: u32) -> WmAnswer
    ensures { WmWideNameIn (DataName (record { 0 = segment })) bytes.now result }
{
    asked_through(bytes, Question::DataName(DataIndex(segment)))
}

pub fn wm_wide_field_name_in(bytes: &[u8], index: u32, field: u32) -> WmAnswer
    ensures { WmWideNameIn (FieldName (record { 0 = index }) (record { 0 = field })) bytes.now result }
{
    asked_through(bytes, field_name(index, field))
}

pub fn wm_wide_tag_name_in(bytes: &[u8], tag: u32) -> WmAnswer
    ensures { WmWideNameIn (TagName (record { 0 = tag })) bytes.now result }
{
    asked_through(bytes, Question::TagName(TagIndex(tag)))
}

pub fn wm_wide_kept_in(bytes: &[u8], id: u8) -> WmAnswer
    ensures { WmWideNameIn (KeptContents id) bytes.now result }
{
    asked_through(bytes, Question::KeptContents(id))
}

pub fn wm_wide_names_canonical(payload: &[u8], out: &mut [u8]) -> WmAnswer
    ensures { WmWideNamesCanonical payload.now out.old out.new result }
{
    of_written(rewrite::names(payload, Edition::Wider, out))
}

pub fn wm_wide_names_is_canonical(payload: &[u8]) -> u32
    ensures { WmWideNamesIsCanonical payload.now result }
{
    of_yes(names::telling_widely::is_canonical_widely(payload))
}
