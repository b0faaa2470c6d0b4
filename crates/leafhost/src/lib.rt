// These calls offer the leaves on numbers and byte slices, so that they can be compared with the Rust before a device stands on them. In C
// and Rust a slice is two arguments, its pointer and its length.
//     codecs    wrapper, status, verdict, decoder
//     linear    the linear buffer
#![tactic(auto)]

pub mod codecs;
pub mod linear;
