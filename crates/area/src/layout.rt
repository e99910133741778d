// Where each part of the area begins, in their order, and the place of each entry. docs/AREA.md has the table; specs/Layout.antt has the same
// numbers and places under the same names.
ghost use Rattle.std.specs.Prelude.{◌≡◌, ◌%◌, ◌<◌};
ghost use Rattle.area.specs.Layout.{waiter_range, row_bound, node, queue, tx_reload, rx_reload, tx_timer, rx_timer, long, full};
ghost use Rattle.area.specs.Layout.{tx_place, key, rx_place, home, payload, tx_mask, rx_mask, in_width};

use records::record::{RxNumber, TxNumber};

pub const AREA_LENGTH: usize = 32768;

// the header's numbers: one byte, or two
pub const COUNTER_BYTE: usize = 2;

pub const ORDER_BYTE: usize = 3;

pub const PLAN_LENGTH_BYTES: usize = 4;

pub const NODE_COUNT_BYTE: usize = 6;

pub const CAN_COUNT_BYTE: usize = 7;

pub const TX_COUNT_BYTES: usize = 8;

pub const RX_COUNT_BYTES: usize = 10;

// tables and state
pub const NODES_START: usize = 16;

pub const QUEUES_START: usize = 80;

pub const TX_RELOADS_START: usize = 208;

pub const RX_RELOADS_START: usize = 464;

pub const TX_TIMERS_START: usize = 720;

pub const RX_TIMERS_START: usize = 976;

pub const LONG_START: usize = 1232;

pub const WAITS_START: usize = 1488;

pub const FULL_START: usize = 2000;

pub const TX_PLACES_START: usize = 2512;

pub const KEYS_START: usize = 3024;

pub const RX_PLACES_START: usize = 4048;

pub const HOMES_START: usize = 4560;

pub const ENTRIES_START: usize = 5360;

pub const PAYLOADS_START: usize = 6384;

pub const TX_MASKS_START: usize = 8432;

pub const RX_MASKS_START: usize = 8688;

// the plan, and how long it can be
pub const PLAN_START: usize = 8960;

pub const PLAN_ROOM: usize = 23808;

// the last place in it at which an Rx frame's fields behind its ID, with its first signal and destination, have room
pub const LAST_PLACE: usize = 23794;

// how many bytes a key has, and a kept payload
pub const KEY_SIZE: usize = 4;

pub const PAYLOAD_WIDTH: usize = 8;

// a frame's home is its node, and this where its ID has 29 bits
pub const EXTENDED_HOME: u8 = 16;

// the numbers of what can wait in a queue: a Tx frame has its own, the request for an Rx frame has one past these
pub const REQUESTS_START: usize = 256;

pub const WAITER_RANGE: usize = 512;

// how many entries all rings have: one for each Tx frame, and one for the request of each Rx frame
pub const ENTRY_COUNT: usize = 512;

// a node's first row, and its row count, are below this; and a lookup finds no row past their sum
pub const ROW_RANGE: usize = 512;

pub const ROW_BOUND: usize = 1024;

// A Tx number as a plan's record or a caller gave it, brought into range.
pub fn in_range(t: TxNumber) -> TxNumber
    ensures { (result.0 ≡ t.0 % 256) × (result.0 < 256) }
{
    TxNumber(t.0 % 256)
}

// The number of a row that was found, brought into range: a plan has at most 256.
pub fn row_in_range(r: RxNumber) -> RxNumber
    ensures { (result.0 ≡ r.0 % 256) × (result.0 < 256) }
{
    RxNumber(r.0 % 256)
}

// A size, brought into range.
pub fn in_width(size: usize) -> usize
    ensures { (result ≡ in_width size) × (result < 16) }
{
    size % 16
}

// The place of each entry, by the number of its node, Tx frame or Rx frame.
pub fn node(n: usize) -> usize
    requires { n < 16 }
    ensures { result ≡ node n }
{
    NODES_START + 4 * n
}

pub fn queue(n: usize) -> usize
    requires { n < 16 }
    ensures { result ≡ queue n }
{
    QUEUES_START + 8 * n
}

pub fn tx_reload(t: TxNumber) -> usize
    requires { t.0 < 256 }
    ensures { result ≡ tx_reload t.0 }
{
    TX_RELOADS_START + t.0
}

pub fn rx_reload(r: RxNumber) -> usize
    requires { r.0 < row_bound }
    ensures { result ≡ rx_reload r.0 }
{
    RX_RELOADS_START + r.0
}

pub fn tx_timer(t: TxNumber) -> usize
    requires { t.0 < 256 }
    ensures { result ≡ tx_timer t.0 }
{
    TX_TIMERS_START + t.0
}

pub fn rx_timer(r: RxNumber) -> usize
    requires { r.0 < row_bound }
    ensures { result ≡ rx_timer r.0 }
{
    RX_TIMERS_START + r.0
}

pub fn long(r: RxNumber) -> usize
    requires { r.0 < row_bound }
    ensures { result ≡ long r.0 }
{
    LONG_START + r.0
}

pub fn full(t: TxNumber) -> usize
    requires { t.0 < 256 }
    ensures { result ≡ full t.0 }
{
    FULL_START + 2 * t.0
}

pub fn tx_place(t: TxNumber) -> usize
    requires { t.0 < 256 }
    ensures { result ≡ tx_place t.0 }
{
    TX_PLACES_START + 2 * t.0
}

pub fn key(r: RxNumber) -> usize
    requires { r.0 < row_bound }
    ensures { result ≡ key r.0 }
{
    KEYS_START + KEY_SIZE * r.0
}

pub fn rx_place(r: RxNumber) -> usize
    requires { r.0 < row_bound }
    ensures { result ≡ rx_place r.0 }
{
    RX_PLACES_START + 2 * r.0
}

// by the number of what can wait in a queue
pub fn home(k: usize) -> usize
    requires { k < waiter_range }
    ensures { result ≡ home k }
{
    HOMES_START + k
}

pub fn payload(t: TxNumber) -> usize
    requires { t.0 < 256 }
    ensures { result ≡ payload t.0 }
{
    PAYLOADS_START + PAYLOAD_WIDTH * t.0
}

pub fn tx_mask(t: TxNumber) -> usize
    requires { t.0 < 256 }
    ensures { result ≡ tx_mask t.0 }
{
    TX_MASKS_START + t.0
}

pub fn rx_mask(r: RxNumber) -> usize
    requires { r.0 < row_bound }
    ensures { result ≡ rx_mask r.0 }
{
    RX_MASKS_START + r.0
}
