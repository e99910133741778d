// The bits of a payload, the copy of a signal, and which bits of a frame have an owner.
#![tactic(auto)]

mod digits;
pub mod order;
pub mod owners;
pub mod payload;
pub mod signal;
mod word;
