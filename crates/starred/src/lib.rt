// There is no code here. The crate joins document 01's starred cases of all crates in one table under one statement (specs/Starred.antt,
// proofs/Hold.antt).
#![tactic(auto)]
