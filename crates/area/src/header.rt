// The area's header.
ghost use Rattle.std.specs.Prelude.{◌≡◌, true, ◌≤◌, ◌<◌, ltb};
ghost use Rattle.bits.specs.Order.{order_number, order_told};
ghost use Rattle.area.specs.Layout.{LongEnough, marked, order, node_count, type_on, tx_count, rx_count};

use crate::layout::{
    AREA_LENGTH, CAN_COUNT_BYTE, NODE_COUNT_BYTE, ORDER_BYTE, RX_COUNT_BYTES, TX_COUNT_BYTES,
};
use base::{at_most, wide};
use bits::order::Order;
use records::record::NodeType;

// Whether an area was opened: it is long enough and bears the mark, hex 47 and then 57.
#[tactic(auto, unfolding(crate::specs::Layout::marked, base::specs::Pick::pick))]
pub fn is_marked(area: &[u8]) -> bool
    ensures { (result ≡ marked area.now) × (result ≡ true → LongEnough area.now) }
{
    if area.len() < AREA_LENGTH {
        return false;
    }
    let low = wide(area[0]);
    let high = wide(area[1]);
    high * 256 + low == 0x5747
}

// The order of the plan's bits.
pub fn order(area: &[u8]) -> Order
    requires { LongEnough area.now }
    ensures { order_number result ≡ order_told (order area.now) }
{
    Order::from(area[ORDER_BYTE])
}

// Whether there is a node `n`.
pub fn has_node(area: &[u8], n: usize) -> bool
    requires { LongEnough area.now }
    ensures { (result ≡ ltb n (node_count area.now)) × (result ≡ true → n < 16) }
{
    if n < 16 {
        return n < wide(area[NODE_COUNT_BYTE]);
    }
    false
}

// The type of node `n`: the LIN nodes follow all CAN nodes.
#[tactic(auto, unfolding(crate::specs::Layout::type_on, base::specs::Pick::pick))]
pub fn node_type(area: &[u8], n: usize) -> NodeType
    requires { LongEnough area.now }
    ensures { result ≡ type_on area.now n }
{
    if n < wide(area[CAN_COUNT_BYTE]) {
        return NodeType::Can;
    }
    NodeType::Lin
}

pub fn tx_count(area: &[u8]) -> usize
    requires { LongEnough area.now }
    ensures { (result ≡ tx_count area.now) × (result ≤ 256) }
{
    at_most(256, base::low_at(area, TX_COUNT_BYTES))
}

pub fn rx_count(area: &[u8]) -> usize
    requires { LongEnough area.now }
    ensures { (result ≡ rx_count area.now) × (result ≤ 256) }
{
    at_most(256, base::low_at(area, RX_COUNT_BYTES))
}
