// Reception: the lookup among a node's rows, and what an accepted payload does.
#![tactic(auto)]

pub mod lookup;
pub mod receive;
pub mod walk;
