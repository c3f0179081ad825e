// No code: specs/ has the theorems about the promises of all crates: in Demands.antt what users demand of the C calls, and beside it that each promise determines its result and which wrong programs it rules out.
#![tactic(auto)]
