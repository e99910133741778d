// The tick: Tx timers first, then Rx timers with the report, and last the counter.
#![tactic(auto)]

mod by_sixteens;
pub mod expiry;
mod rx;
pub mod tick;
mod timer;
mod tx;
