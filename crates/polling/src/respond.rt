// The response of a LIN node to a request.
ghost use Rattle.std.specs.Prelude.{◌≡◌, ◌≤◌, ◌<◌, length, Ok};
ghost use Rattle.area.specs.Layout.{LongEnough};
ghost use Rattle.polling.specs.Polling.{is_sum, row_answer, row_area, responded_answer, responded_area};

use crate::row::polled_row;
use answers::{Refusal, Responded};
use area::frames::{rx_fields_place, rx_size};
use area::guards::{check_node, check_open};
use area::layout::row_in_range;
use reception::lookup::Found;
use reception::receive::accept;
use records::record::RxNumber;

// A response for an Rx frame of a LIN node, with its checksum.
pub fn respond(
    area: &mut [u8],
    node: usize,
    id: u32,
    payload: &[u8],
    sum: u8,
) -> Result<Responded, Refusal>
    ensures answer { result ≡ responded_answer area.old node id payload.now sum }
    ensures bytes { area.new ≡ responded_area area.old node id payload.now sum }
{
    check_open(area)?;
    check_node(area, node)?;
    let found = polled_row(area, node, id);
    let Found::At(r) = found else {
        return Err(Refusal::WrongCall);
    };
    if 8 < payload.len() {
        return Err(Refusal::LongPayload);
    }
    Ok(deliver(area, row_in_range(r), id, payload, sum))
}

// A payload of at most 8 bytes for a row that was found: too short, then with a wrong checksum, changes nothing.
fn deliver(area: &mut [u8], r: RxNumber, id: u32, payload: &[u8], sum: u8) -> Responded
    requires { (r.0 < 256) × (length payload.now ≤ 8) × LongEnough area.old }
    ensures answer { Ok result ≡ row_answer area.old r.0 id payload.now sum }
    ensures bytes { area.new ≡ row_area area.old r.0 id payload.now sum }
{
    let at = rx_fields_place(area, r);
    if payload.len() < rx_size(area, at) {
        return Responded::TooShort;
    }
    if is_sum(id, payload, sum) {
        // the timer, which asks for the frame, goes on
        accept::<false>(area, r, at, payload);
        return Responded::Accepted;
    }
    Responded::WrongSum
}

// Whether `sum` is the checksum of the protected identifier and every byte handed in.
fn is_sum(id: u32, payload: &[u8], sum: u8) -> bool
    ensures { result ≡ is_sum id payload.now sum }
{
    sum == lin::checksum(lin::protected(id as usize), payload)
}
