// The way of an accepted payload to the bits that its Rx frame owns.
ghost use Rattle.std.specs.Prelude.{◌≡◌, ◌≤◌, length};
ghost use Rattle.bits.specs.Order.{order_number};
ghost use Rattle.area.specs.Layout.{plan_room, LongEnough, order, stored};
ghost use Rattle.reception.specs.Walk.{walked};

use area::claims::copy_claim_in;
use area::frames::plan_byte;
use area::header;
use area::layout::PLAN_ROOM;
use base::wide;
use bits::order::Order;
use bits::signal::{Signal, bytes_of, take_signal_in};
use records::decode::{DESTINATION_BYTES, DESTINATION_KIND, SIGNAL_BYTES, SIGNAL_KIND};
use records::record::TxNumber;

// From place `from` of the plan on: a signal says what is copied, a destination where to, and any other record ends the walk.
// Inline: what calls it has the loop in itself.
#[inline(always)]
pub fn walk_in(order: Order, area: &mut [u8], from: usize, payload: &[u8])
    requires { (length payload.now ≤ 8) × (from ≤ plan_room) × LongEnough area.old }
    ensures { area.new ≡ walked (order_number order) payload.now 0 0 (stored area.old) from area.old }
{
    let bytes = bytes_of(payload);
    let mut at = from;
    let mut signal = Signal {
        position: 0,
        size: 0,
        bits: 0,
        ones: 0,
    };
    // by places: the plan stands in the area that is written, so that no part of it can be lent beside it
    while at + DESTINATION_BYTES <= PLAN_ROOM {
        let kind = plan_byte(area, at);
        if kind == DESTINATION_KIND {
            // a Tx number is below 256: its low byte says it
            let t = TxNumber(wide(plan_byte(area, at + 2)));
            let q = wide(plan_byte(area, at + 3));
            copy_claim_in(order, signal, area, t, q);
            at += DESTINATION_BYTES;
        } else {
            if kind != SIGNAL_KIND {
                return;
            }
            let p = wide(plan_byte(area, at + 1));
            let s = wide(plan_byte(area, at + 2));
            signal = take_signal_in(order, bytes, p, s);
            at += SIGNAL_BYTES;
        }
    }
}

// The same in the order that a byte tells.
#[tactic(auto, using(crate::proofs::WalkLaws::walked_by_told))]
pub fn walk(order: u8, payload: &[u8], area: &mut [u8], from: usize)
    requires { (length payload.now ≤ 8) × (from ≤ plan_room) × LongEnough area.old }
    ensures { area.new ≡ walked order payload.now 0 0 (stored area.old) from area.old }
{
    walk_in(Order::from(order), area, from, payload);
}

// The same in the area's own order.
#[tactic(auto, using(crate::proofs::WalkLaws::walked_told))]
pub fn walk_own(area: &mut [u8], from: usize, payload: &[u8])
    requires { (length payload.now ≤ 8) × (from ≤ plan_room) × LongEnough area.old }
    ensures { area.new ≡ walked (order area.old) payload.now 0 0 (stored area.old) from area.old }
{
    walk_in(header::order(area), area, from, payload);
}
