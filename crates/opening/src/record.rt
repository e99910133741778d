// What each record of a plan puts into the area.
ghost use Rattle.std.specs.Prelude.{◌≡◌, ◌+◌, ◌^◌, ◌<◌, ◌==◌, slice_set};
ghost use Rattle.base.specs.Pick.{pick};
ghost use Rattle.base.specs.Numbers.{set_low};
ghost use Rattle.records.specs.Records.{records};
ghost use Rattle.area.specs.Layout.{waiter_range, LongEnough, node, home};
ghost use Rattle.opening.specs.Opened.{home_of, with_tx_timer, with_payload, with_frame, with_tx_place, with_tx, with_rx_timer, with_key, with_row, with_node_row, with_request, with_rx};
ghost use Rattle.opening.specs.Opened.{with_node, with_record, with_records};

use crate::claims::past_claims;
use area::header::node_type;
use area::layout;
use area::layout::{
    CAN_COUNT_BYTE, NODE_COUNT_BYTE, ORDER_BYTE, REQUESTS_START, RX_COUNT_BYTES, TX_COUNT_BYTES,
};
use base::{low_at, put_low, wide};
use clock::counter::mask;
use records::reader::read_record;
use records::record::{Id, NodeType, Record, RxFrame, RxNumber, TxFrame, TxNumber};

// A frame's home: its node, and whether its ID has 29 bits.
fn home_of(node: u8, id: Id) -> u8
    ensures { result ≡ home_of node id }
{
    match id {
        Id::Standard(_) => node % 16,
        Id::Extended(_) => node % 16 + layout::EXTENDED_HOME,
    }
}

// The home of what has number `k` in a queue.
fn with_home(area: &mut [u8], k: usize, node: u8, id: Id)
    requires { (k < waiter_range) × LongEnough area.old }
    ensures { area.new ≡ slice_set area.old (home k) (home_of node id) }
{
    let at = layout::home(k);
    let home = home_of(node, id);
    area[at] = home;
}

// Where the fields behind the ID of Tx frame `t` begin, whose record stands at `at`, and its home.
fn with_tx_place(area: &mut [u8], t: TxNumber, at: usize, x: TxFrame)
    requires { (t.0 < 256) × (at < 2 ^ 63) × LongEnough area.old }
    ensures { area.new ≡ with_tx_place t.0 at x area.old }
{
    let id = x.id;
    let place = layout::tx_place(t);
    put_low(area, place, at + id.behind());
    with_home(area, t.0, x.node, id);
}

// The timer of Tx frame `t`: its reload and initial values, and the mask of its prescaler.
fn with_tx_timer(area: &mut [u8], t: TxNumber, x: TxFrame)
    requires { (t.0 < 256) × LongEnough area.old }
    ensures { area.new ≡ with_tx_timer t.0 x area.old }
{
    let tx_reload = layout::tx_reload(t);
    let tx_timer = layout::tx_timer(t);
    let tx_mask = layout::tx_mask(t);
    let tx_bits = mask(x.prescaler);
    area[tx_reload] = x.reload;
    area[tx_timer] = x.initial;
    area[tx_mask] = tx_bits;
}

// The initial payload of Tx frame `t`. Eight stores, since copy_from_slice asks first whether the two overlap.
fn with_payload(area: &mut [u8], t: TxNumber, bytes: [u8; 8])
    requires { (t.0 < 256) × LongEnough area.old }
    ensures { area.new ≡ with_payload t.0 bytes area.old }
{
    let at = layout::payload(t);
    area[at] = bytes[0];
    area[at + 1] = bytes[1];
    area[at + 2] = bytes[2];
    area[at + 3] = bytes[3];
    area[at + 4] = bytes[4];
    area[at + 5] = bytes[5];
    area[at + 6] = bytes[6];
    area[at + 7] = bytes[7];
}

// One frame or request more can wait on node `n`.
fn with_frame(area: &mut [u8], n: usize)
    requires { (n < 16) × LongEnough area.old }
    ensures { area.new ≡ with_frame n area.old }
{
    let at = layout::queue(n) + 2;
    let frames = low_at(area, at);
    put_low(area, at, frames + 1);
}

// A Tx frame, whose record stands at `at`.
fn with_tx(area: &mut [u8], at: usize, x: TxFrame)
    requires { (at < 2 ^ 63) × LongEnough area.old }
    ensures { area.new ≡ with_tx at x area.old }
{
    let number = low_at(area, TX_COUNT_BYTES) % 256;
    let t = TxNumber(number);
    let n = wide(x.node % 16);
    let payload = x.payload;
    with_tx_place(area, t, at, x);
    with_tx_timer(area, t, x);
    with_payload(area, t, payload);
    with_frame(area, n);
    put_low(area, TX_COUNT_BYTES, number + 1);
}

// The timer of Rx frame `r`, its mask, and its long counter at the long count.
fn with_rx_timer(area: &mut [u8], r: RxNumber, x: RxFrame)
    requires { (r.0 < 256) × LongEnough area.old }
    ensures { area.new ≡ with_rx_timer r.0 x area.old }
{
    let rx_reload = layout::rx_reload(r);
    let rx_timer = layout::rx_timer(r);
    let rx_mask = layout::rx_mask(r);
    let long = layout::long(r);
    let rx_bits = mask(x.prescaler);
    area[rx_reload] = x.reload;
    area[rx_timer] = x.initial;
    area[rx_mask] = rx_bits;
    area[long] = x.long;
}

// The key of row `r`.
fn with_key(area: &mut [u8], r: RxNumber, number: usize)
    requires { (r.0 < 256) × LongEnough area.old }
    ensures { area.new ≡ with_key r.0 number area.old }
{
    let key = layout::key(r);
    put_low(area, key, number % 65536);
    put_low(area, key + 2, number / 65536);
}

// Row `r`, whose record stands at `at`: its key, the place of the fields behind its ID, and its home.
fn with_row(area: &mut [u8], r: RxNumber, at: usize, x: RxFrame)
    requires { (r.0 < 256) × (at < 2 ^ 63) × LongEnough area.old }
    ensures { area.new ≡ with_row r.0 at x area.old }
{
    let id = x.id;
    let place = layout::rx_place(r);
    with_key(area, r, id.key());
    put_low(area, place, at + id.behind());
    with_home(area, REQUESTS_START + r.0, x.node, id);
}

// The first row of node `n` is number `r`, if it had none.
fn with_first(area: &mut [u8], n: usize, r: usize, rows: usize)
    requires { (n < 16) × LongEnough area.old }
    ensures { area.new ≡ pick (rows == 0) (set_low area.old (node n) r) area.old }
{
    if rows == 0 {
        put_low(area, layout::node(n), r);
    }
}

// One row more of node `n`, number `r`.
fn with_node_row(area: &mut [u8], n: usize, r: usize)
    requires { (n < 16) × LongEnough area.old }
    ensures { area.new ≡ with_node_row n r area.old }
{
    let at = layout::node(n) + 2;
    let rows = low_at(area, at);
    with_first(area, n, r, rows);
    put_low(area, at, rows + 1);
}

// The request of an Rx frame of node `n`, where that is a LIN node.
fn with_request(area: &mut [u8], n: usize)
    requires { (n < 16) × LongEnough area.old }
    ensures { area.new ≡ with_request n area.old }
{
    if let NodeType::Lin = node_type(area, n) {
        with_frame(area, n);
    }
}

// An Rx frame, whose record stands at `at`.
fn with_rx(area: &mut [u8], at: usize, x: RxFrame)
    requires { (at < 2 ^ 63) × LongEnough area.old }
    ensures { area.new ≡ with_rx at x area.old }
{
    let number = low_at(area, RX_COUNT_BYTES) % 256;
    let r = RxNumber(number);
    let n = wide(x.node % 16);
    with_rx_timer(area, r, x);
    with_row(area, r, at, x);
    with_node_row(area, n, number);
    with_request(area, n);
    put_low(area, RX_COUNT_BYTES, number + 1);
}

// A node of this type.
fn with_node(area: &mut [u8], of: u8)
    requires { LongEnough area.old }
    ensures { area.new ≡ with_node of area.old }
{
    area[NODE_COUNT_BYTE] = std::num::wrapping_add_u8(area[NODE_COUNT_BYTE], 1);
    if of == 0 {
        area[CAN_COUNT_BYTE] = std::num::wrapping_add_u8(area[CAN_COUNT_BYTE], 1);
    }
}

// The record that stands at `at`.
fn with_record(area: &mut [u8], at: usize, r: Record)
    requires { (at < 2 ^ 63) × LongEnough area.old }
    ensures { area.new ≡ with_record at r area.old }
{
    match r {
        Record::Head { order } => {
            area[ORDER_BYTE] = order;
        }
        Record::Node(body) => with_node(area, body.of),
        Record::Tx(frame) => with_tx(area, at, frame),
        Record::Rx(frame) => with_rx(area, at, frame),
        _ => {}
    }
}

// Every record of the plan, in order; signals and destinations are passed over.
pub fn with_records(area: &mut [u8], plan: &[u8])
    requires { LongEnough area.old }
    ensures { area.new ≡ with_records 0 (records plan.now) area.old }
{
    let mut at = 0;
    while at < plan.len() {
        let step = read_record(plan, at);
        let met = step.found;
        with_record(area, at, met);
        at = past_claims(plan, step.next);
    }
}
