// The plan's records: the one place that says what a plan's bytes mean.
#![tactic(auto)]

pub mod decode;
pub mod kind;
pub mod reader;
pub mod record;
