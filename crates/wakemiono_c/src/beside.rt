// The calls over two name payloads, the one that was sent apart and the module's own.
ghost use Rattle.format.specs.declared.Question.TheVariants.{DataName, ElementName, FieldName, FunctionName, GlobalName, KeptContents, LabelName, LocalName, MemoryName, ModuleName, TableName, TagName, TypeName};
ghost use Rattle.wakemiono.specs.Calls.{WmPair, WmPairJoin, WmWidePair, WmWidePairJoin};

use wakemiono::beside::WmPairAnswer;

#[unsafe(no_mangle)]
pub extern "C" fn wm_pair_module_name(separate: &[u8], own: &[u8]) -> WmPairAnswer
    ensures { WmPair ModuleName separate.now own.now result }
{
    wakemiono::beside::wm_pair_module_name(separate, own)
}

#[unsafe(no_mangle)]
pub extern "C" fn wm_pair_function_name(separate: &[u8], own: &[u8], function: u32) -> WmPairAnswer
    ensures { WmPair (FunctionName (record { 0 = function })) separate.now own.now result }
{
    wakemiono::beside::wm_pair_function_name(separate, own, function)
}

#[unsafe(no_mangle)]
pub extern "C" fn wm_pair_local_name(
    separate: &[u8],
    own: &[u8],
    function: u32,
    local: u32,
) -> WmPairAnswer
    ensures { WmPair (LocalName (record { 0 = function }) (record { 0 = local })) separate.now own.now result }
{
    wakemiono::beside::wm_pair_local_name(separate, own, function, local)
}

#[unsafe(no_mangle)]
pub extern "C" fn wm_pair_type_name(separate: &[u8], own: &[u8], index: u32) -> WmPairAnswer
    ensures { WmPair (TypeName (record { 0 = index })) separate.now own.now result }
{
    wakemiono::beside::wm_pair_type_name(separate, own, index)
}

#[unsafe(no_mangle)]
pub extern "C" fn wm_pair_field_name(
    separate: &[u8],
    own: &[u8],
    index: u32,
    field: u32,
) -> WmPairAnswer
    ensures { WmPair (FieldName (record { 0 = index }) (record { 0 = field })) separate.now own.now result }
{
    wakemiono::beside::wm_pair_field_name(separate, own, index, field)
}

#[unsafe(no_mangle)]
pub extern "C" fn wm_pair_tag_name(separate: &[u8], own: &[u8], tag: u32) -> WmPairAnswer
    ensures { WmPair (TagName (record { 0 = tag })) separate.now own.now result }
{
    wakemiono::beside::wm_pair_tag_name(separate, own, tag)
}

#[unsafe(no_mangle)]
pub extern "C" fn wm_pair_kept(separate: &[u8], own: &[u8], id: u8) -> WmPairAnswer
    ensures { WmPair (KeptContents id) separate.now own.now result }
{
    wakemiono::beside::wm_pair_kept(separate, own, id)
}

#[unsafe(no_mangle)]
pub extern "C" fn wm_pair_join(separate: &[u8], own: &[u8], out: &mut [u8]) -> WmPairAnswer
    ensures { WmPairJoin separate.now own.now out.old out.new result }
{
    wakemiono::beside::wm_pair_join(separate, own, out)
}

#[unsafe(no_mangle)]
pub extern "C" fn wm_wide_pair_module_name(separate: &[u8], own: &[u8]) -> WmPairAnswer
    ensures { WmWidePair ModuleName separate.now own.now result }
{
    wakemiono::beside::wm_wide_pair_module_name(separate, own)
}

#[unsafe(no_mangle)]
pub extern "C" fn wm_wide_pair_function_name(
    separate: &[u8],
    own: &[u8],
    function: u32,
) -> WmPairAnswer
    ensures { WmWidePair (FunctionName (record { 0 = function })) separate.now own.now result }
{
    wakemiono::beside::wm_wide_pair_function_name(separate, own, function)
}

#[unsafe(no_mangle)]
pub extern "C" fn wm_wide_pair_local_name(
    separate: &[u8],
    own: &[u8],
    function: u32,
    local: u32,
) -> WmPairAnswer
    ensures { WmWidePair (LocalName (record { 0 = function }) (record { 0 = local })) separate.now own.now result }
{
    wakemiono::beside::wm_wide_pair_local_name(separate, own, function, local)
}

#[unsafe(no_mangle)]
pub extern "C" fn wm_wide_pair_label_name(
    separate: &[u8],
    own: &[u8],
    function: u32,
    label: u32,
) -> WmPairAnswer
    ensures { WmWidePair (LabelName (record { 0 = function }) (record { 0 = label })) separate.now own.now result }
{
    wakemiono::beside::wm_wide_pair_label_name(separate, own, function, label)
}

#[unsafe(no_mangle)]
pub extern "C" fn wm_wide_pair_type_name(separate: &[u8], own: &[u8], index: u32) -> WmPairAnswer
    ensures { WmWidePair (TypeName (record { 0 = index })) separate.now own.now result }
{
    wakemiono::beside::wm_wide_pair_type_name(separate, own, index)
}

#[unsafe(no_mangle)]
pub extern "C" fn wm_wide_pair_table_name(separate: &[u8], own: &[u8], table: u32) -> WmPairAnswer
    ensures { WmWidePair (TableName (record { 0 = table })) separate.now own.now result }
{
    wakemiono::beside::wm_wide_pair_table_name(separate, own, table)
}

#[unsafe(no_mangle)]
pub extern "C" fn wm_wide_pair_memory_name(separate: &[u8], own: &[u8], memory: u32) -> WmPairAnswer
    ensures { WmWidePair (MemoryName (record { 0 = memory })) separate.now own.now result }
{
    wakemiono::beside::wm_wide_pair_memory_name(separate, own, memory)
}

#[unsafe(no_mangle)]
pub extern "C" fn wm_wide_pair_global_name(separate: &[u8], own: &[u8], global: u32) -> WmPairAnswer
    ensures { WmWidePair (GlobalName (record { 0 = global })) separate.now own.now result }
{
    wakemiono::beside::wm_wide_pair_global_name(separate, own, global)
}

#[unsafe(no_mangle)]
pub extern "C" fn wm_wide_pair_element_name(
    separate: &[u8],
    own: &[u8],
    element: u32,
) -> WmPairAnswer
    ensures { WmWidePair (ElementName (record { 0 = element })) separate.now own.now result }
{
    wakemiono::beside::wm_wide_pair_element_name(separate, own, element)
}

#[unsafe(no_mangle)]
pub extern "C" fn wm_wide_pair_data_name(separate: &[u8], own: &[u8], segment: u32) -> WmPairAnswer
    ensures { WmWidePair (DataName (record { 0 = segment })) separate.now own.now result }
{
    wakemiono::beside::wm_wide_pair_data_name(separate, own, segment)
}

#[unsafe(no_mangle)]
pub extern "C" fn wm_wide_pair_field_name(
    separate: &[u8],
    own: &[u8],
    index: u32,
    field: u32,
) -> WmPairAnswer
    ensures { WmWidePair (FieldName (record { 0 = index }) (record { 0 = field })) separate.now own.now result }
{
    wakemiono::beside::wm_wide_pair_field_name(separate, own, index, field)
}

#[unsafe(no_mangle)]
pub extern "C" fn wm_wide_pair_tag_name(separate: &[u8], own: &[u8], tag: u32) -> WmPairAnswer
    ensures { WmWidePair (TagName (record { 0 = tag })) separate.now own.now result }
{
    wakemiono::beside::wm_wide_pair_tag_name(separate, own, tag)
}

#[unsafe(no_mangle)]
pub extern "C" fn wm_wide_pair_kept(separate: &[u8], own: &[u8], id: u8) -> WmPairAnswer
    ensures { WmWidePair (KeptContents id) separate.now own.now result }
{
    wakemiono::beside::wm_wide_pair_kept(separate, own, id)
}

#[unsafe(no_mangle)]
pub extern "C" fn wm_wide_pair_join(separate: &[u8], own: &[u8], out: &mut [u8]) -> WmPairAnswer
    ensures { WmWidePairJoin separate.now own.now out.old out.new result }
{
    wakemiono::beside::wm_wide_pair_join(separate, own, out)
}
