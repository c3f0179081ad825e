// No code: the grammar that payloads and modules are compared with is written in specs/.
#![tactic(auto)]
