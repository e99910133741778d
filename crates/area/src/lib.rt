// The area that a caller lends: what stands where, the queues, and scheduling.
#![tactic(auto)]

pub mod claims;
pub mod frames;
pub mod guards;
pub mod header;
pub mod layout;
pub mod queue;
pub mod rows;
