// The limits of a plan.
pub const MOST_NODES: usize = 16;

pub const MOST_TX: usize = 256;

pub const MOST_RX: usize = 256;

pub const MOST_SIGNALS: usize = 1024;
// of one Rx frame
pub const MOST_IN_FRAME: usize = 64;

pub const MOST_DESTINATIONS: usize = 2048;
// of one signal
pub const MOST_OF_SIGNAL: usize = 15;

// An 11-bit ID is below it,
pub const ID_RANGE: usize = 2048;
// a 29-bit ID below this,
pub const EXTENDED_ID_RANGE: usize = 536870912;
// and one on a LIN node below this
pub const LIN_ID_RANGE: usize = 60;

// The key of an ID is below it.
pub const KEY_RANGE: usize = 4294967296;
