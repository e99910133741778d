// The calls of a LIN master: a response to a request, and that none came.
#![tactic(auto)]

pub mod respond;
pub mod row;
pub mod silence;
