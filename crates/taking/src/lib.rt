// Take, the payload that a take hands back, and fullness.
#![tactic(auto)]

ghost use Rattle.std.specs.Prelude.{◌≡◌, ◌<◌};
ghost use Rattle.records.specs.declared.record.Entry.TheVariants.{Frame, Request};
ghost use Rattle.area.specs.Layout.{LongEnough, tx_frame};
ghost use Rattle.taking.specs.Taken.{kept_part, framing_of, entry_answer, taken_answer, taken_area, taken_payload, fullness_answer};

use answers::{Framing, Refusal, Taken, TakenFrame, TakenRequest};
use area::frames::{owned_bits, rx_fields_place, rx_id, rx_size, tx_id, tx_size};
use area::guards::{check_node, check_open};
use area::header::{node_type, tx_count};
use area::layout;
use area::layout::{AREA_LENGTH, in_range, in_width};
use area::queue::{dequeue, ends_at, entry_of, oldest_of};
use records::record::{Entry, NodeType, RxNumber, TxNumber};

// The oldest waiting frame or request of a node, which then waits no more.
pub fn take(area: &mut [u8], node: usize) -> Result<Option<Taken>, Refusal>
    ensures answer { result ≡ taken_answer area.old node }
    ensures bytes { area.new ≡ taken_area area.old node }
{
    check_open(area)?;
    check_node(area, node)?;
    let ends = ends_at(area, node);
    if ends.waiting == 0 {
        return Ok(None);
    }
    let number = oldest_of(area, ends);
    // first, so that the answer is made where the queue's numbers are done with
    dequeue(area, node, ends, number);
    let waiting = ends.waiting - 1;
    match entry_of(number) {
        Entry::Frame(t) => Ok(Some(frame_of(area, node, t, waiting))),
        Entry::Request(r) => Ok(Some(request_of(area, node, r, waiting))),
    }
}

// What leaves node `n`'s queue, after which so many wait: a frame, or a request.
fn frame_of(area: &[u8], n: usize, t: TxNumber, waiting: usize) -> Taken
    requires { (t.0 < 256) × LongEnough area.now }
    ensures { result ≡ entry_answer area.now n (Frame t) waiting }
{
    let size = in_width(tx_size(area, t));
    let framing = framing_of(area, n, t, size);
    // last, so that it need not be kept while a checksum is made
    let id = tx_id(area, t);
    Taken::Frame(TakenFrame {
        tx: t,
        id,
        size,
        waiting,
        framing,
    })
}

fn request_of(area: &[u8], n: usize, r: RxNumber, waiting: usize) -> Taken
    requires { (r.0 < 256) × LongEnough area.now }
    ensures { result ≡ entry_answer area.now n (Request r) waiting }
{
    let id = rx_id(area, r);
    let at = rx_fields_place(area, r);
    let size = rx_size(area, at);
    Taken::Request(TakenRequest {
        rx: r,
        id,
        size,
        waiting,
        protected: lin::protected(id.plain()),
    })
}

// What goes with Tx frame `t` on node `n`: on LIN its protected identifier, and the checksum of the payload that is handed back.
fn framing_of(area: &[u8], n: usize, t: TxNumber, size: usize) -> Framing
    requires { (t.0 < 256) × LongEnough area.now }
    ensures { result ≡ framing_of area.now n (tx_frame area.now t.0).id (kept_part area.now t.0 size) }
{
    match node_type(area, n) {
        NodeType::Can => Framing::Can,
        NodeType::Lin => {
            let id = tx_id(area, t);
            let protected = lin::protected(id.plain());
            Framing::Lin {
                protected,
                checksum: lin::checksum(protected, part(area, t, size)),
            }
        }
    }
}

// The first bytes of a Tx frame's kept payload, as many as a size says; the empty part of an area that is too short.
fn part(area: &[u8], tx: TxNumber, size: usize) -> &[u8]
    ensures { result.now ≡ kept_part area.now tx.0 size }
{
    if area.len() < AREA_LENGTH {
        return &area[..0];
    }
    let from = layout::payload(in_range(tx));
    let end = from + in_width(size);
    &area[from..end]
}

// The kept payload of a frame that was taken, as that part of the area; the empty part where none was.
#[tactic(auto, unfolding(crate::specs::Taken::taken_payload))]
pub fn payload(area: &[u8], taken: Result<Option<Taken>, Refusal>) -> &[u8]
    ensures { result.now ≡ taken_payload area.now taken }
{
    match taken {
        Ok(Some(Taken::Frame(frame))) => part(area, frame.tx, frame.size),
        Ok(Some(Taken::Request(_))) | Ok(None) | Err(_) => &area[..0],
    }
}

// How many bits of a Tx frame have an owner, 0 to 64.
pub fn fullness(area: &[u8], tx: usize) -> Result<usize, Refusal>
    ensures { result ≡ fullness_answer area.now tx }
{
    check_open(area)?;
    if tx_count(area) <= tx {
        return Err(Refusal::NoFrame);
    }
    Ok(owned_bits(area, TxNumber(tx)))
}
