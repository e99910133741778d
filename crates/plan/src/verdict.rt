// What the check of a plan answers.

// Why a plan is refused, in the order of document 01's numbers 1 to 9.
#[derive(Clone, Copy, Debug, PartialEq, Eq, PartialOrd, Ord)]
pub enum Reason {
    // 1: the input is empty, or the record runs past its end
    Short,
    // 2: the kind is not 1 to 8
    Kind,
    // 3: the kind may not stand here
    Place,
    // 4: a count is passed
    Count,
    // 5: a field is outside its range
    Range,
    // 6: an Rx frame's (node, ID) is not above that of the one before
    Order,
    // 7: a signal or destination passes its frame's data, or the Tx frame does not exist
    Data,
    // 8: a bit would have two owners
    Owner,
    // 9: an enabled indicator has no signal and destination, or passes the Tx data
    Indicator,
}

// A plan that is refused: why, and the number of the record that is named.
#[derive(Clone, Copy, Debug, PartialEq, Eq)]
pub struct BadRecord {
    pub reason: Reason,
    pub record_number: usize,
}

// How many nodes, Tx frames and Rx frames a good plan has.
#[derive(Clone, Copy, Debug, PartialEq, Eq)]
pub struct PlanCounts {
    pub nodes: usize,
    pub tx: usize,
    pub rx: usize,
}
