// There is no code here, only two laws, which name no device: one about a thin call over a lent record (proofs/Law.antt), and one about
// the caller that lends the record (proofs/Lender.antt).
#![tactic(auto)]
// x
