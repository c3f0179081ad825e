// The archive that C links: each call of include/wakemiono.h, by its name there, over the function of that name in the crate
// wakemiono. A library of other crates exports nothing to C, so these stand in a crate of their own. Each states the promise of
// what it calls once more, and asks nothing either.
#![tactic(auto)]

ghost use Rattle.format.specs.declared.Question.TheVariants.{ModuleName, FunctionName, TypeName, TagName, LocalName, FieldName, KeptContents};
ghost use Rattle.wakemiono.specs.Calls.{WmWalk, WmSection, WmCustom, WmNamesJudge, WmName, WmMetadataJudge, WmMetadata, WmHintsJudge, WmHint, WmNameIn, WmMetadataIn, WmHintIn, WmNamesCanonical, WmMetadataCanonical, WmHintsCanonical, WmNamesIsCanonical, WmMetadataIsCanonical, WmHintsIsCanonical, WmFunctionNamesWrite};

use wakemiono::WmAnswer;

mod arriving;
mod beside;
mod branching;
mod old_hints;
mod quick;
mod rows;
mod shared;
mod why;
mod wide;

#[unsafe(no_mangle)]
pub extern "C" fn wm_walk(bytes: &[u8]) -> WmAnswer
    ensures { WmWalk bytes.now result }
{
    wakemiono::wm_walk(bytes)
}

#[unsafe(no_mangle)]
pub extern "C" fn wm_section(bytes: &[u8], position: u64) -> WmAnswer
    ensures { WmSection position bytes.now result }
{
    wakemiono::wm_section(bytes, position)
}

#[unsafe(no_mangle)]
pub extern "C" fn wm_custom(bytes: &[u8], name: &[u8]) -> WmAnswer
    ensures { WmCustom name.now bytes.now result }
{
    wakemiono::wm_custom(bytes, name)
}

#[unsafe(no_mangle)]
pub extern "C" fn wm_names_judge(payload: &[u8]) -> WmAnswer
    ensures { WmNamesJudge payload.now result }
{
    wakemiono::wm_names_judge(payload)
}

#[unsafe(no_mangle)]
pub extern "C" fn wm_module_name(payload: &[u8]) -> WmAnswer
    ensures { WmName ModuleName payload.now result }
{
    wakemiono::wm_module_name(payload)
}

#[unsafe(no_mangle)]
pub extern "C" fn wm_function_name(payload: &[u8], function: u32) -> WmAnswer
    ensures { WmName (FunctionName (record { 0 = function })) payload.now result }
{
    wakemiono::wm_function_name(payload, function)
}

#[unsafe(no_mangle)]
pub extern "C" fn wm_type_name(payload: &[u8], index: u32) -> WmAnswer
    ensures { WmName (TypeName (record { 0 = index })) payload.now result }
{
    wakemiono::wm_type_name(payload, index)
}

#[unsafe(no_mangle)]
pub extern "C" fn wm_tag_name(payload: &[u8], tag: u32) -> WmAnswer
    ensures { WmName (TagName (record { 0 = tag })) payload.now result }
{
    wakemiono::wm_tag_name(payload, tag)
}

#[unsafe(no_mangle)]
pub extern "C" fn wm_local_name(payload: &[u8], function: u32, local: u32) -> WmAnswer
    ensures { WmName (LocalName (record { 0 = function }) (record { 0 = local })) payload.now result }
{
    wakemiono::wm_local_name(payload, function, local)
}

#[unsafe(no_mangle)]
pub extern "C" fn wm_field_name(payload: &[u8], index: u32, field: u32) -> WmAnswer
    ensures { WmName (FieldName (record { 0 = index }) (record { 0 = field })) payload.now result }
{
    wakemiono::wm_field_name(payload, index, field)
}

#[unsafe(no_mangle)]
pub extern "C" fn wm_kept(payload: &[u8], id: u8) -> WmAnswer
    ensures { WmName (KeptContents id) payload.now result }
{
    wakemiono::wm_kept(payload, id)
}

#[unsafe(no_mangle)]
pub extern "C" fn wm_metadata_judge(payload: &[u8]) -> WmAnswer
    ensures { WmMetadataJudge payload.now result }
{
    wakemiono::wm_metadata_judge(payload)
}

#[unsafe(no_mangle)]
pub extern "C" fn wm_hints_judge(payload: &[u8]) -> WmAnswer
    ensures { WmHintsJudge payload.now result }
{
    wakemiono::wm_hints_judge(payload)
}

#[unsafe(no_mangle)]
pub extern "C" fn wm_metadata(payload: &[u8], function: u32, offset: u32) -> WmAnswer
    ensures { WmMetadata function offset payload.now result }
{
    wakemiono::wm_metadata(payload, function, offset)
}

#[unsafe(no_mangle)]
pub extern "C" fn wm_hint(payload: &[u8], function: u32, offset: u32) -> WmAnswer
    ensures { WmHint function offset payload.now result }
{
    wakemiono::wm_hint(payload, function, offset)
}

#[unsafe(no_mangle)]
pub extern "C" fn wm_module_name_in(bytes: &[u8]) -> WmAnswer
    ensures { WmNameIn ModuleName bytes.now result }
{
    wakemiono::wm_module_name_in(bytes)
}

#[unsafe(no_mangle)]
pub extern "C" fn wm_function_name_in(bytes: &[u8], function: u32) -> WmAnswer
    ensures { WmNameIn (FunctionName (record { 0 = function })) bytes.now result }
{
    wakemiono::wm_function_name_in(bytes, function)
}

#[unsafe(no_mangle)]
pub extern "C" fn wm_type_name_in(bytes: &[u8], index: u32) -> WmAnswer
    ensures { WmNameIn (TypeName (record { 0 = index })) bytes.now result }
{
    wakemiono::wm_type_name_in(bytes, index)
}

#[unsafe(no_mangle)]
pub extern "C" fn wm_tag_name_in(bytes: &[u8], tag: u32) -> WmAnswer
    ensures { WmNameIn (TagName (record { 0 = tag })) bytes.now result }
{
    wakemiono::wm_tag_name_in(bytes, tag)
}

#[unsafe(no_mangle)]
pub extern "C" fn wm_local_name_in(bytes: &[u8], function: u32, local: u32) -> WmAnswer
    ensures { WmNameIn (LocalName (record { 0 = function }) (record { 0 = local })) bytes.now result }
{
    wakemiono::wm_local_name_in(bytes, function, local)
}

#[unsafe(no_mangle)]
pub extern "C" fn wm_field_name_in(bytes: &[u8], index: u32, field: u32) -> WmAnswer
    ensures { WmNameIn (FieldName (record { 0 = index }) (record { 0 = field })) bytes.now result }
{
    wakemiono::wm_field_name_in(bytes, index, field)
}

#[unsafe(no_mangle)]
pub extern "C" fn wm_kept_in(bytes: &[u8], id: u8) -> WmAnswer
    ensures { WmNameIn (KeptContents id) bytes.now result }
{
    wakemiono::wm_kept_in(bytes, id)
}

#[unsafe(no_mangle)]
pub extern "C" fn wm_metadata_in(
    bytes: &[u8],
    format: &[u8],
    function: u32,
    offset: u32,
) -> WmAnswer
    ensures { WmMetadataIn format.now function offset bytes.now result }
{
    wakemiono::wm_metadata_in(bytes, format, function, offset)
}

#[unsafe(no_mangle)]
pub extern "C" fn wm_hint_in(bytes: &[u8], function: u32, offset: u32) -> WmAnswer
    ensures { WmHintIn function offset bytes.now result }
{
    wakemiono::wm_hint_in(bytes, function, offset)
}

#[unsafe(no_mangle)]
pub extern "C" fn wm_names_canonical(payload: &[u8], out: &mut [u8]) -> WmAnswer
    ensures { WmNamesCanonical payload.now out.old out.new result }
{
    wakemiono::wm_names_canonical(payload, out)
}

#[unsafe(no_mangle)]
pub extern "C" fn wm_metadata_canonical(payload: &[u8], out: &mut [u8]) -> WmAnswer
    ensures { WmMetadataCanonical payload.now out.old out.new result }
{
    wakemiono::wm_metadata_canonical(payload, out)
}

#[unsafe(no_mangle)]
pub extern "C" fn wm_hints_canonical(payload: &[u8], out: &mut [u8]) -> WmAnswer
    ensures { WmHintsCanonical payload.now out.old out.new result }
{
    wakemiono::wm_hints_canonical(payload, out)
}

#[unsafe(no_mangle)]
pub extern "C" fn wm_names_is_canonical(payload: &[u8]) -> u32
    ensures { WmNamesIsCanonical payload.now result }
{
    wakemiono::wm_names_is_canonical(payload)
}

#[unsafe(no_mangle)]
pub extern "C" fn wm_metadata_is_canonical(payload: &[u8]) -> u32
    ensures { WmMetadataIsCanonical payload.now result }
{
    wakemiono::wm_metadata_is_canonical(payload)
}

#[unsafe(no_mangle)]
pub extern "C" fn wm_hints_is_canonical(payload: &[u8]) -> u32
    ensures { WmHintsIsCanonical payload.now result }
{
    wakemiono::wm_hints_is_canonical(payload)
}

#[unsafe(no_mangle)]
pub extern "C" fn wm_function_names_write(
    indices: &[u32],
    lengths: &[u32],
    text: &[u8],
    out: &mut [u8],
) -> WmAnswer
    ensures { WmFunctionNamesWrite indices.now lengths.now text.now out.old out.new result }
{
    wakemiono::wm_function_names_write(indices, lengths, text, out)
}
