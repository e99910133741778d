// The clock: the tick counter with the prescalers' masks, and the timer.
#![tactic(auto)]

pub mod counter;
pub mod timer;
