// Opening: the check of a plan, and an area that is filled from it.
#![tactic(auto)]

mod blank;
mod claims;
pub mod open;
mod queues;
mod record;
