// There is no code in this crate. Its theorems are about the exported calls, and use the definitions that their contracts cite: see
// specs/Calls.antt.
#![tactic(auto)]
