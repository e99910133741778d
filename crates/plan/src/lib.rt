// The check of a plan: good with its counts, or refused for document 01's reason with the record's number.
#![tactic(auto)]

pub mod check;
mod claim;
pub mod limits;
mod progress;
mod steps;
mod tests;
pub mod verdict;
