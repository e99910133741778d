// What a record says, as a value.
ghost use Rattle.std.specs.Prelude.{◌≡◌, ◌^◌, ◌≤◌, ◌<◌};
ghost use Rattle.records.specs.Ids.{plain_id, behind_id, key_of};

// The number of an Rx frame, and that of a Tx frame: they count separate tables, and one never stands for the other.
#[derive(Clone, Copy, Debug, PartialEq, Eq, PartialOrd, Ord)]
pub struct RxNumber(pub usize);

#[derive(Clone, Copy, Debug, PartialEq, Eq, PartialOrd, Ord)]
pub struct TxNumber(pub usize);

// What a node is: a CAN node, or one of a LIN bus whose master we are.
#[derive(Clone, Copy, Debug, PartialEq, Eq)]
pub enum NodeType {
    Can,
    Lin,
}

// What waits in a node's queue: a Tx frame, or the request for an Rx frame of a LIN node.
#[derive(Clone, Copy, Debug, PartialEq, Eq)]
pub enum Entry {
    Frame(TxNumber),
    Request(RxNumber),
}

// The ID of a frame, with its format: 11 bits, or the 29 bits of an extended frame. ID 32 in one format is not ID 32 in the other.
#[derive(Clone, Copy, Debug, PartialEq, Eq)]
pub enum Id {
    Standard(usize),
    Extended(usize),
}

// The format in a key, as in a SocketCAN identifier, and the largest number that stands below it.
pub const FORMAT_BIT: usize = 2147483648;

const LAST_NUMBER: usize = 2147483647;

impl Id {
    // The number alone.
    #[tactic(auto, unfolding(crate::specs::Ids::plain_id))]
    pub fn plain(self) -> usize
        ensures { result ≡ plain_id self }
    {
        match self {
            Id::Standard(n) => n,
            Id::Extended(n) => n,
        }
    }

    // How many bytes a record with this ID has before its fields behind the ID.
    #[tactic(auto, unfolding(crate::specs::Ids::behind_id))]
    pub fn behind(self) -> usize
        ensures { (result ≡ behind_id self) × (result ≤ 6) }
    {
        match self {
            Id::Standard(_) => 4,
            Id::Extended(_) => 6,
        }
    }

    // The number by which rows are ordered and searched: the format is its highest bit.
    #[tactic(auto, unfolding(crate::specs::Ids::key_of))]
    pub fn key(self) -> usize
        ensures { (result ≡ key_of self) × (result < 2 ^ 32) }
    {
        match self {
            Id::Standard(n) => base::at_most(LAST_NUMBER, n),
            Id::Extended(n) => FORMAT_BIT + base::at_most(LAST_NUMBER, n),
        }
    }
}

#[derive(Clone, Copy, Debug, PartialEq, Eq)]
pub struct TxFrame {
    pub node: u8,
    pub id: Id,
    pub size: u8,
    pub prescaler: u8,
    pub reload: u8,
    pub initial: u8,
    pub flags: u8,
    // the initial payload
    pub payload: [u8; 8],
}

#[derive(Clone, Copy, Debug, PartialEq, Eq)]
pub struct RxFrame {
    pub node: u8,
    pub id: Id,
    pub size: u8,
    pub prescaler: u8,
    pub reload: u8,
    pub initial: u8,
    pub enable: u8,
    pub position: u8,
    pub long: u8,
}

#[derive(Clone, Copy, Debug, PartialEq, Eq)]
pub struct NodeBody {
    pub of: u8,
}

#[derive(Clone, Copy, Debug, PartialEq, Eq)]
pub struct SignalBody {
    pub position: u8,
    pub size: u8,
}

#[derive(Clone, Copy, Debug, PartialEq, Eq)]
pub struct DestinationBody {
    pub tx: TxNumber,
    pub position: u8,
}

// What follows an Rx frame: its signals, and their destinations. With an Option of the first two an opening was above its bound of
// instructions, by one a record of the check.
#[derive(Clone, Copy, Debug, PartialEq, Eq)]
pub enum Follower {
    Signal(SignalBody),
    Destination(DestinationBody),
    // any other record, and none
    Other,
}

// Why there is no whole record at a place.
#[derive(Clone, Copy, Debug, PartialEq, Eq)]
pub enum Fault {
    // the plan ends here
    End,
    // the kind byte is no kind
    BadKind,
    // a record of this kind begins here and runs past the plan's end
    Cut { kind: u8 },
}

#[derive(Clone, Copy, Debug, PartialEq, Eq)]
pub enum Record {
    Head { order: u8 },
    Node(NodeBody),
    Tx(TxFrame),
    Rx(RxFrame),
    Signal(SignalBody),
    Destination(DestinationBody),
    Broken(Fault),
}
