// How far the check has come.
// How many records of each kind were read.
#[derive(Clone, Copy, Debug, Default, PartialEq, Eq)]
pub struct Counts {
    pub nodes: usize,
    // how many of the nodes are CAN nodes; the LIN nodes follow them
    pub can: usize,
    pub tx: usize,
    pub rx: usize,
    pub signals: usize,
    pub destinations: usize,
}

// The Rx frame that is being read.
#[derive(Clone, Copy, Debug, Default, PartialEq, Eq)]
pub struct RowSoFar {
    // the lowest key that the next Rx frame may have
    pub floor: usize,
    // how many bits its data has
    pub room: usize,
    // how many signals it has so far, the last one's size, and how many destinations that one has
    pub signals: usize,
    pub size: usize,
    pub destinations: usize,
    // the stage that must follow at once, 0 if none must; the failure position, and the number of the Rx frame's record
    pub awaits: u8,
    pub position: u8,
    pub source: usize,
}

#[derive(Clone, Copy, Debug, Default, PartialEq, Eq)]
pub struct Progress {
    // the number of the next record
    pub number: usize,
    // the stage of the record before, 0 if there is none
    pub stage: u8,
    pub counts: Counts,
    pub row: RowSoFar,
}
