// The calls of the wider edition.
ghost use Rattle.format.specs.declared.Question.TheVariants.{ModuleName, FunctionName, LocalName, LabelName, TypeName, TableName, MemoryName, GlobalName, ElementName, DataName, FieldName, TagName, KeptContents};
ghost use Rattle.wakemiono.specs.Calls.{WmWideNamesJudge, WmWideName, WmWideNameIn, WmWideNamesCanonical, WmWideNamesIsCanonical};

use wakemiono::WmAnswer;

#[unsafe(no_mangle)]
pub extern "C" fn wm_wide_names_judge(payload: &[u8]) -> WmAnswer
    ensures { WmWideNamesJudge payload.now result }
{
    wakemiono::wide::wm_wide_names_judge(payload)
}

#[unsafe(no_mangle)]
pub extern "C" fn wm_wide_module_name(payload: &[u8]) -> WmAnswer
    ensures { WmWideName ModuleName payload.now result }
{
    wakemiono::wide::wm_wide_module_name(payload)
}

#[unsafe(no_mangle)]
pub extern "C" fn wm_wide_function_name(payload: &[u8], function: u32) -> WmAnswer
    ensures { WmWideName (FunctionName (record { 0 = function })) payload.now result }
{
    wakemiono::wide::wm_wide_function_name(payload, function)
}

#[unsafe(no_mangle)]
pub extern "C" fn wm_wide_local_name(payload: &[u8], function: u32, local: u32) -> WmAnswer
    ensures { WmWideName (LocalName (record { 0 = function }) (record { 0 = local })) payload.now result }
{
    wakemiono::wide::wm_wide_local_name(payload, function, local)
}

#[unsafe(no_mangle)]
pub extern "C" fn wm_wide_label_name(payload: &[u8], function: u32, label: u32) -> WmAnswer
    ensures { WmWideName (LabelName (record { 0 = function }) (record { 0 = label })) payload.now result }
{
    wakemiono::wide::wm_wide_label_name(payload, function, label)
}

#[unsafe(no_mangle)]
pub extern "C" fn wm_wide_type_name(payload: &[u8], index: u32) -> WmAnswer
    ensures { WmWideName (TypeName (record { 0 = index })) payload.now result }
{
    wakemiono::wide::wm_wide_type_name(payload, index)
}

#[unsafe(no_mangle)]
pub extern "C" fn wm_wide_table_name(payload: &[u8], table: u32) -> WmAnswer
    ensures { WmWideName (TableName (record { 0 = table })) payload.now result }
{
    wakemiono::wide::wm_wide_table_name(payload, table)
}

#[unsafe(no_mangle)]
pub extern "C" fn wm_wide_memory_name(payload: &[u8], memory: u32) -> WmAnswer
    ensures { WmWideName (MemoryName (record { 0 = memory })) payload.now result }
{
    wakemiono::wide::wm_wide_memory_name(payload, memory)
}

#[unsafe(no_mangle)]
pub extern "C" fn wm_wide_global_name(payload: &[u8], global: u32) -> WmAnswer
    ensures { WmWideName (GlobalName (record { 0 = global })) payload.now result }
{
    wakemiono::wide::wm_wide_global_name(payload, global)
}

#[unsafe(no_mangle)]
pub extern "C" fn wm_wide_element_name(payload: &[u8], element: u32) -> WmAnswer
    ensures { WmWideName (ElementName (record { 0 = element })) payload.now result }
{
    wakemiono::wide::wm_wide_element_name(payload, element)
}

#[unsafe(no_mangle)]
pub extern "C" fn wm_wide_data_name(payload: &[u8], segment: u32) -> WmAnswer
    ensures { WmWideName (DataName (record { 0 = segment })) payload.now result }
{
    wakemiono::wide::wm_wide_data_name(payload, segment)
}

#[unsafe(no_mangle)]
pub extern "C" fn wm_wide_field_name(payload: &[u8], index: u32, field: u32) -> WmAnswer
    ensures { WmWideName (FieldName (record { 0 = index }) (record { 0 = field })) payload.now result }
{
    wakemiono::wide::wm_wide_field_name(payload, index, field)
}

#[unsafe(no_mangle)]
pub extern "C" fn wm_wide_tag_name(payload: &[u8], tag: u32) -> WmAnswer
    ensures { WmWideName (TagName (record { 0 = tag })) payload.now result }
{
    wakemiono::wide::wm_wide_tag_name(payload, tag)
}

#[unsafe(no_mangle)]
pub extern "C" fn wm_wide_kept(payload: &[u8], id: u8) -> WmAnswer
    ensures { WmWideName (KeptContents id) payload.now result }
{
    wakemiono::wide::wm_wide_kept(payload, id)
}

#[unsafe(no_mangle)]
pub extern "C" fn wm_wide_module_name_in(bytes: &[u8]) -> WmAnswer
    ensures { WmWideNameIn ModuleName bytes.now result }
{
    wakemiono::wide::wm_wide_module_name_in(bytes)
}

#[unsafe(no_mangle)]
pub extern "C" fn wm_wide_function_name_in(bytes: &[u8], function: u32) -> WmAnswer
    ensures { WmWideNameIn (FunctionName (record { 0 = function })) bytes.now result }
{
    wakemiono::wide::wm_wide_function_name_in(bytes, function)
}

#[unsafe(no_mangle)]
pub extern "C" fn wm_wide_local_name_in(bytes: &[u8], function: u32, local: u32) -> WmAnswer
    ensures { WmWideNameIn (LocalName (record { 0 = function }) (record { 0 = local })) bytes.now result }
{
    wakemiono::wide::wm_wide_local_name_in(bytes, function, local)
}

#[unsafe(no_mangle)]
pub extern "C" fn wm_wide_label_name_in(bytes: &[u8], function: u32, label: u32) -> WmAnswer
    ensures { WmWideNameIn (LabelName (record { 0 = function }) (record { 0 = label })) bytes.now result }
{
    wakemiono::wide::wm_wide_label_name_in(bytes, function, label)
}

#[unsafe(no_mangle)]
pub extern "C" fn wm_wide_type_name_in(bytes: &[u8], index: u32) -> WmAnswer
    ensures { WmWideNameIn (TypeName (record { 0 = index })) bytes.now result }
{
    wakemiono::wide::wm_wide_type_name_in(bytes, index)
}

#[unsafe(no_mangle)]
pub extern "C" fn wm_wide_table_name_in(bytes: &[u8], table: u32) -> WmAnswer
    ensures { WmWideNameIn (TableName (record { 0 = table })) bytes.now result }
{
    wakemiono::wide::wm_wide_table_name_in(bytes, table)
}

#[unsafe(no_mangle)]
pub extern "C" fn wm_wide_memory_name_in(bytes: &[u8], memory: u32) -> WmAnswer
    ensures { WmWideNameIn (MemoryName (record { 0 = memory })) bytes.now result }
{
    wakemiono::wide::wm_wide_memory_name_in(bytes, memory)
}

#[unsafe(no_mangle)]
pub extern "C" fn wm_wide_global_name_in(bytes: &[u8], global: u32) -> WmAnswer
    ensures { WmWideNameIn (GlobalName (record { 0 = global })) bytes.now result }
{
    wakemiono::wide::wm_wide_global_name_in(bytes, global)
}

#[unsafe(no_mangle)]
pub extern "C" fn wm_wide_element_name_in(bytes: &[u8], element: u32) -> WmAnswer
    ensures { WmWideNameIn (ElementName (record { 0 = element })) bytes.now result }
{
    wakemiono::wide::wm_wide_element_name_in(bytes, element)
}

#[unsafe(no_mangle)]
pub extern "C" fn wm_wide_data_name_in(bytes: &[u8], segment: u32) -> WmAnswer
    ensures { WmWideNameIn (DataName (record { 0 = segment })) bytes.now result }
{
    wakemiono::wide::wm_wide_data_name_in(bytes, segment)
}

#[unsafe(no_mangle)]
pub extern "C" fn wm_wide_field_name_in(bytes: &[u8], index: u32, field: u32) -> WmAnswer
    ensures { WmWideNameIn (FieldName (record { 0 = index }) (record { 0 = field })) bytes.now result }
{
    wakemiono::wide::wm_wide_field_name_in(bytes, index, field)
}

#[unsafe(no_mangle)]
pub extern "C" fn wm_wide_tag_name_in(bytes: &[u8], tag: u32) -> WmAnswer
    ensures { WmWideNameIn (TagName (record { 0 = tag })) bytes.now result }
{
    wakemiono::wide::wm_wide_tag_name_in(bytes, tag)
}

#[unsafe(no_mangle)]
pub extern "C" fn wm_wide_kept_in(bytes: &[u8], id: u8) -> WmAnswer
    ensures { WmWideNameIn (KeptContents id) bytes.now result }
{
    wakemiono::wide::wm_wide_kept_in(bytes, id)
}

#[unsafe(no_mangle)]
pub extern "C" fn wm_wide_names_canonical(payload: &[u8], out: &mut [u8]) -> WmAnswer
    ensures { WmWideNamesCanonical payload.now out.old out.new result }
{
    wakemiono::wide::wm_wide_names_canonical(payload, out)
}

#[unsafe(no_mangle)]
pub extern "C" fn wm_wide_names_is_canonical(payload: &[u8]) -> u32
    ensures { WmWideNamesIsCanonical payload.now result }
{
    wakemiono::wide::wm_wide_names_is_canonical(payload)
}
