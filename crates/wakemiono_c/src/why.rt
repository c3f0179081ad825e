// The calls that say why a function or a local has no name.
ghost use Rattle.wakemiono.specs.Calls.{WmWhyFunction, WmWhyLocal};

use wakemiono::why::WmWhy;

#[unsafe(no_mangle)]
pub extern "C" fn wm_why_function(payload: &[u8], function: u32) -> WmWhy
    ensures { WmWhyFunction function payload.now result }
{
    wakemiono::why::wm_why_function(payload, function)
}

#[unsafe(no_mangle)]
pub extern "C" fn wm_why_local(payload: &[u8], function: u32, local: u32) -> WmWhy
    ensures { WmWhyLocal function local payload.now result }
{
    wakemiono::why::wm_why_local(payload, function, local)
}
