// What the plan says of the frames, read where it stands in the area, by the tables of homes and places.
ghost use Rattle.std.specs.Prelude.{◌≡◌, ◌%◌, ◌≤◌, ◌<◌};
ghost use Rattle.base.specs.Numbers.{byte_at};
ghost use Rattle.area.specs.Layout.{plan_room, last_place, waiter_range, row_bound, LongEnough, tx_fields_place, rx_fields_place, home_node, owned_bits};
ghost use Rattle.area.specs.Layout.{stored, id_before, tx_frame, rx_frame, rx_there, failure_tx};

use crate::layout::{
    EXTENDED_HOME, FULL_START, HOMES_START, LAST_PLACE, PLAN_START, REQUESTS_START,
    RX_PLACES_START, TX_PLACES_START,
};
use base::{at_most, wide};
use plan::limits::EXTENDED_ID_RANGE;
use records::record::{Id, RxNumber, TxNumber};

// A byte of the part that holds the plan.
pub fn plan_byte(area: &[u8], at: usize) -> u8
    requires { (at < plan_room) × LongEnough area.now }
    ensures { result ≡ byte_at (stored area.now) at }
{
    area[PLAN_START + at]
}

// Where the fields behind the ID of Tx frame `t` begin in the plan.
fn tx_fields_place(area: &[u8], t: TxNumber) -> usize
    requires { (t.0 < 256) × LongEnough area.now }
    ensures { (result ≡ tx_fields_place area.now t.0) × (result ≤ last_place) }
{
    at_most(LAST_PLACE, base::low_at(area, TX_PLACES_START + 2 * t.0))
}

// Where the fields behind the ID of Rx frame `r` begin in the plan.
pub fn rx_fields_place(area: &[u8], r: RxNumber) -> usize
    requires { (r.0 < row_bound) × LongEnough area.now }
    ensures { (result ≡ rx_fields_place area.now r.0) × (result ≤ last_place) }
{
    at_most(LAST_PLACE, base::low_at(area, RX_PLACES_START + 2 * r.0))
}

// ---- what has number `k` in a queue: a Tx frame, or the request for an Rx frame

pub fn home_node(area: &[u8], k: usize) -> usize
    requires { (k < waiter_range) × LongEnough area.now }
    ensures { (result ≡ home_node area.now k) × (result < 16) }
{
    wide(area[HOMES_START + k] % 16)
}

// Its ID, which stands before its fields.
#[tactic(auto, unfolding(crate::specs::Layout::id_before, base::specs::Pick::pick))]
fn id_before(area: &[u8], k: usize, at: usize) -> Id
    requires { (k < waiter_range) × (at ≤ last_place) × LongEnough area.now }
    ensures { result ≡ id_before area.now k at }
{
    if area[HOMES_START + k] < EXTENDED_HOME {
        return Id::Standard(base::two_at(area, PLAN_START + at - 2));
    }
    Id::Extended(base::four_at(area, PLAN_START + at - 4) % EXTENDED_ID_RANGE)
}

// ---- Tx frame `t`

#[tactic(auto, unfolding(crate::specs::Layout::tx_frame, records::specs::Kinds::tx_at))]
pub fn tx_id(area: &[u8], t: TxNumber) -> Id
    requires { (t.0 < 256) × LongEnough area.now }
    ensures { result ≡ (tx_frame area.now t.0).id }
{
    let at = tx_fields_place(area, t);
    id_before(area, t.0, at)
}

#[tactic(auto, unfolding(crate::specs::Layout::tx_frame, records::specs::Kinds::tx_at))]
pub fn tx_size(area: &[u8], t: TxNumber) -> usize
    requires { (t.0 < 256) × LongEnough area.now }
    ensures { result ≡ (tx_frame area.now t.0).size }
{
    let at = tx_fields_place(area, t);
    wide(plan_byte(area, at))
}

#[tactic(auto, unfolding(crate::specs::Layout::tx_frame, records::specs::Kinds::tx_at))]
pub fn tx_flags(area: &[u8], t: TxNumber) -> u8
    requires { (t.0 < 256) × LongEnough area.now }
    ensures { result ≡ (tx_frame area.now t.0).flags }
{
    let at = tx_fields_place(area, t);
    plan_byte(area, at + 4)
}

// ---- Rx frame `r`

#[tactic(auto, unfolding(crate::specs::Layout::rx_frame, records::specs::Kinds::rx_at))]
pub fn rx_id(area: &[u8], r: RxNumber) -> Id
    requires { (r.0 < 256) × LongEnough area.now }
    ensures { result ≡ (rx_frame area.now r.0).id }
{
    let at = rx_fields_place(area, r);
    id_before(area, REQUESTS_START + r.0, at)
}

// ---- the Rx frame whose fields begin at a place

#[tactic(auto, unfolding(records::specs::Kinds::rx_at))]
pub fn rx_size(area: &[u8], at: usize) -> usize
    requires { (at ≤ last_place) × LongEnough area.now }
    ensures { result ≡ (rx_there area.now at).size }
{
    wide(plan_byte(area, at))
}

#[tactic(auto, unfolding(records::specs::Kinds::rx_at))]
pub fn rx_enable(area: &[u8], at: usize) -> u8
    requires { (at ≤ last_place) × LongEnough area.now }
    ensures { result ≡ (rx_there area.now at).enable }
{
    plan_byte(area, at + 4)
}

#[tactic(auto, unfolding(records::specs::Kinds::rx_at))]
pub fn rx_position(area: &[u8], at: usize) -> usize
    requires { (at ≤ last_place) × LongEnough area.now }
    ensures { (result ≡ (rx_there area.now at).position) × (result < 256) }
{
    wide(plan_byte(area, at + 5))
}

#[tactic(auto, unfolding(records::specs::Kinds::rx_at))]
pub fn rx_long(area: &[u8], at: usize) -> u8
    requires { (at ≤ last_place) × LongEnough area.now }
    ensures { result ≡ (rx_there area.now at).long }
{
    plan_byte(area, at + 6)
}

// The Tx frame that its failure bit is in: that of its first destination, behind its first signal. Its number's low byte says it.
pub fn failure_tx(area: &[u8], at: usize) -> TxNumber
    requires { (at ≤ last_place) × LongEnough area.now }
    ensures { (result.0 ≡ failure_tx area.now at % 256) × (result.0 < 256) }
{
    TxNumber(wide(plan_byte(area, at + 12)))
}

// How many bits of Tx frame `t` have an owner.
pub fn owned_bits(area: &[u8], t: TxNumber) -> usize
    requires { (t.0 ≤ 256) × LongEnough area.now }
    ensures { result ≡ owned_bits area.now t.0 }
{
    at_most(64, base::low_at(area, FULL_START + 2 * t.0))
}
