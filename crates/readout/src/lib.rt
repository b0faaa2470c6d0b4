// There is no code here. The crate states and proves what a whole command does, from the wrapper's first packet to the last status byte,
// however polls and calls are mixed (specs/Demand.antt, proofs/Demand.antt), and the same of what the calls return (proofs/Called.antt).
#![tactic(auto)]
