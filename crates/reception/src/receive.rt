// The reception of a frame: the call, and the acceptance. The walk that follows it is in `walk`.
ghost use Rattle.std.specs.Prelude.{◌≡◌, ◌≤◌, ◌<◌, length};
ghost use Rattle.area.specs.Layout.{last_place, row_bound, LongEnough, rx_fields_place};
ghost use Rattle.reception.specs.Reception.{restarted_by, accepted_by, received_answer, received_area};

use crate::lookup::{Found, look_up};
use crate::walk::walk_own;
use answers::{Received, Refusal};
use area::claims::write_failure_in;
use area::frames::{rx_fields_place, rx_long, rx_size};
use area::guards::{check_node, check_open};
use area::header::{self, node_type};
use area::layout::{long, row_in_range, rx_reload, rx_timer};
use records::decode::RX_FIELDS;
use records::record::{Id, NodeType, RxNumber};

// A frame that a node received. One with no matching row is not processed further: the answer says where such a row would belong.
pub fn receive(area: &mut [u8], node: usize, id: Id, payload: &[u8]) -> Result<Received, Refusal>
    ensures answer { result ≡ received_answer area.old node id payload.now }
    ensures bytes { area.new ≡ received_area area.old node id payload.now }
{
    check_open(area)?;
    check_node(area, node)?;
    if let NodeType::Lin = node_type(area, node) {
        return Err(Refusal::WrongCall);
    }
    if 8 < payload.len() {
        return Err(Refusal::LongPayload);
    }
    let found = look_up(area, node, id);
    let Found::At(r) = found else {
        return Ok(Received::NoRow {
            place: found.place(),
        });
    };
    let at = rx_fields_place(area, r);
    if payload.len() < rx_size(area, at) {
        return Ok(Received::TooShort);
    }
    accept::<true>(area, r, at, payload);
    Ok(Received::Accepted)
}

// An accepted payload of Rx frame `r`, whose fields begin at `at`: the row starts again, the failure bit becomes 0, and then the payload goes along
// the frame's signals. `TIMER` says whether the Rx timer starts too: on LIN, where it asks for the frame, it goes on. Inline, since the compiler takes
// what follows several `?` for rare.
#[inline(always)]
pub fn accept<const TIMER: bool>(area: &mut [u8], r: RxNumber, at: usize, payload: &[u8])
    requires { (r.0 < row_bound) × (at ≡ rx_fields_place area.old r.0) × (at ≤ last_place) × (length payload.now ≤ 8) × LongEnough area.old }
    ensures { area.new ≡ accepted_by TIMER area.old r.0 payload.now }
{
    restart::<TIMER>(area, r, at);
    write_failure_in(header::order(area), 0, area, at);
    walk_own(area, at + RX_FIELDS, payload);
}

// Row `r`, whose fields begin at `at`: the Rx timer takes its reload value, if it starts too, and the long counter the long count.
#[tactic(auto, unfolding(crate::specs::Reception::restarted_by, area::specs::Layout::rx_frame, records::specs::Kinds::rx_at))]
fn restart<const TIMER: bool>(area: &mut [u8], r: RxNumber, at: usize)
    requires { (r.0 < row_bound) × (at ≡ rx_fields_place area.old r.0) × (at ≤ last_place) × LongEnough area.old }
    ensures { area.new ≡ restarted_by TIMER area.old r.0 }
{
    let long_count = rx_long(area, at);
    if TIMER {
        let timer = rx_timer(r);
        area[timer] = area[rx_reload(r)];
    }
    let long_counter = long(row_in_range(r));
    area[long_counter] = long_count;
}
