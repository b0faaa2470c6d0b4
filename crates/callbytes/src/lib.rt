// Creation, the status and the calls of the bus, over a record of bytes. Each call takes any bytes of any length and any numbers, and
// ends with an answer. Each call but creation tests first whether the bytes are a record, and the call by value tests whether that is
// broken. A refusal with 10 leaves everything as it was. It is a number and no error of an enum, because C reads the result.
//     create    a new record
//     status    the status of the command
//     bus       a reset, and control requests
#![tactic(auto)]

pub mod bus;
pub mod create;
pub mod status;
