// The calls on a record of bytes share this: a result of several parts in one number. specs/Record.antt says what a call does with bytes
// that are no record.
#![tactic(auto)]

pub mod word;
