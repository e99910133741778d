// Tests of a frame's fields, and what an indicator awaits.
#![tactic(auto, unfolding(crate::specs::Tests::is_prescaler, crate::specs::Tests::id_in_range, crate::specs::Tests::tx_in_range, crate::specs::Tests::rx_in_range, crate::specs::Tests::is_lin_id, crate::specs::Tests::frame_fits, base::specs::Pick::pick))]

ghost use Rattle.std.specs.Prelude.{◌≡◌, ◌+◌, ◌≤◌, eqb};
ghost use Rattle.base.specs.Pick.{pick};
ghost use Rattle.records.specs.Kinds.{signal_stage, destination_stage};
ghost use Rattle.plan.specs.Limits.{most_nodes};
ghost use Rattle.plan.specs.Tests.{is_prescaler, zero_past, id_in_range, tx_in_range, rx_in_range, is_lin_id, frame_fits};

use crate::limits::{EXTENDED_ID_RANGE, ID_RANGE, LIN_ID_RANGE};
use records::decode::{DESTINATION_STAGE, SIGNAL_STAGE};
use records::record::{Id, RxFrame, TxFrame};

fn is_prescaler(p: u8) -> bool
    ensures { result ≡ is_prescaler p }
{
    (p == 1) | (p == 2) | (p == 10) | (p == 20)
}

// Whether the bytes past the size are zero; past eight there is none. An iterator over them took 16 bytes of stack more than an opening may.
fn zero_past(size: u8, payload: [u8; 8]) -> bool
    ensures { result ≡ zero_past size payload }
{
    if 8 <= size {
        return true;
    }
    ((0 < size) | (payload[0] == 0))
        & ((1 < size) | (payload[1] == 0))
        & ((2 < size) | (payload[2] == 0))
        & ((3 < size) | (payload[3] == 0))
        & ((4 < size) | (payload[4] == 0))
        & ((5 < size) | (payload[5] == 0))
        & ((6 < size) | (payload[6] == 0))
        & ((7 < size) | (payload[7] == 0))
}

fn id_in_range(id: Id) -> bool
    ensures { result ≡ id_in_range id }
{
    match id {
        Id::Standard(n) => n < ID_RANGE,
        Id::Extended(n) => n < EXTENDED_ID_RANGE,
    }
}

pub fn tx_in_range(nodes: usize, x: TxFrame) -> bool
    ensures { result ≡ tx_in_range nodes x }
{
    let node = base::wide(x.node);
    let prescaled = is_prescaler(x.prescaler);
    let payload = x.payload;
    let zero = zero_past(x.size, payload);
    let id = x.id;
    let identified = id_in_range(id);
    (node < nodes) & identified & (x.size <= 8) & prescaled & (x.flags <= 3) & zero
}

pub fn rx_in_range(nodes: usize, x: RxFrame) -> bool
    ensures { result ≡ rx_in_range nodes x }
{
    let node = base::wide(x.node);
    let prescaled = is_prescaler(x.prescaler);
    let id = x.id;
    let identified = id_in_range(id);
    (node < nodes)
        & identified
        & (x.size <= 8)
        & prescaled
        & (x.enable <= 1)
        & (x.position <= 63)
        & (x.long <= 15)
}

// An ID of a LIN node is below 60, and never of 29 bits.
fn is_lin_id(id: Id) -> bool
    ensures { result ≡ is_lin_id id }
{
    match id {
        Id::Standard(n) => n < LIN_ID_RANGE,
        Id::Extended(_) => false,
    }
}

// On a LIN node, which follows the CAN nodes, the ID is one of LIN and the size above 0.
pub fn frame_fits(can: usize, node: u8, id: Id, size: u8) -> bool
    ensures { result ≡ frame_fits can node id size }
{
    let on = base::wide(node);
    let of_lin = is_lin_id(id);
    (on < can) | (of_lin & (0 < size))
}

// How many CAN nodes there are with one more node, of this type.
pub fn can_after(can: usize, of: u8) -> usize
    requires { can ≤ most_nodes }
    ensures { result ≡ pick (eqb of 0) (can + 1) can }
{
    if of == 0 {
        return can + 1;
    }
    can
}

// The stage that must follow an Rx frame at once: a signal, where its indicator is enabled.
pub fn awaited_by(enable: u8) -> u8
    ensures { result ≡ pick (eqb enable 1) signal_stage 0 }
{
    if enable == 1 {
        return SIGNAL_STAGE;
    }
    0
}

// The stage that must follow a signal at once: a destination, where the signal itself was awaited.
pub fn awaited_after(awaits: u8) -> u8
    ensures { result ≡ pick (eqb awaits 0) 0 destination_stage }
{
    if awaits == 0 {
        return 0;
    }
    DESTINATION_STAGE
}
