// What an accepted payload and an expired timer do to the bits that an Rx frame owns in the kept payloads.
ghost use Rattle.std.specs.Prelude.{◌≡◌, List, ℕ, ◌≤◌, ◌<◌};
ghost use Rattle.base.specs.Numbers.{at_most};
ghost use Rattle.bits.specs.Order.{order_number};
ghost use Rattle.bits.specs.Word.{Bits, ones_of};
ghost use Rattle.plan.specs.Rows.{copy};
ghost use Rattle.area.specs.Layout.{last_place, LongEnough, rx_there};
ghost use Rattle.area.specs.Claims.{accepted, sends_on_change, sends_on_reception, sent_if, done, failure_written};

use crate::frames::{failure_tx, rx_enable, rx_position, tx_flags};
use crate::layout::PAYLOADS_START;
use crate::queue::schedule;
use bits::order::Order;
use bits::signal::{Signal, put_signal_in};
use records::record::TxNumber;

// The byte of a Tx frame that says which receptions send it: with flag 1 all, with flag 2 those that change a bit of it. Any byte says something.
#[derive(Clone, Copy, Debug, PartialEq, Eq)]
pub struct Flags(pub u8);

impl Flags {
    #[tactic(auto, unfolding(crate::specs::Claims::sends_on_change))]
    fn sends_on_change(self) -> bool
        ensures { result ≡ sends_on_change self }
    {
        self.0 % 4 != 0
    }

    #[tactic(auto, unfolding(crate::specs::Claims::sends_on_reception))]
    fn sends_on_reception(self) -> bool
        ensures { result ≡ sends_on_reception self }
    {
        self.0 % 2 != 0
    }
}

// Tx frame `t` is scheduled where its flags say so.
#[tactic(auto, unfolding(crate::specs::Claims::sent_if, crate::specs::Claims::sends_on_change, crate::specs::Claims::sends_on_reception, base::specs::Pick::pick))]
fn send_if(flags: Flags, changed: bool, area: &mut [u8], t: TxNumber)
    requires { (t.0 < 256) × LongEnough area.old }
    ensures { area.new ≡ sent_if flags.0 changed area.old t.0 }
{
    if changed {
        if flags.sends_on_change() {
            schedule(area, t);
        }
    } else {
        if flags.sends_on_reception() {
            schedule(area, t);
        }
    }
}

// The failure bit of the Rx frame whose fields begin at `at` becomes `v`, where its indicator is enabled. That schedules nothing.
#[tactic(auto, unfolding(crate::specs::Claims::failure_written, base::specs::Pick::pick))]
pub fn write_failure_in(order: Order, v: u8, area: &mut [u8], at: usize)
    requires { (v < 2) × (at ≤ last_place) × LongEnough area.old }
    ensures bytes { area.new ≡ failure_written (order_number order) v area.old at }
    ensures narrow { (rx_there area.old at).position < 256 }
{
    let q = rx_position(area, at);
    if rx_enable(area, at) == 1 {
        let t = failure_tx(area, at);
        bits::payload::write_bit_in(order, area, 8 * PAYLOADS_START + 64 * t.0 + q, v);
    }
}

// The same in the order that a byte tells.
#[tactic(auto, using(crate::proofs::ClaimLaws::failure_written_told))]
pub fn write_failure(order: u8, v: u8, area: &mut [u8], at: usize)
    requires { (v < 2) × (at ≤ last_place) × LongEnough area.old }
    ensures bytes { area.new ≡ failure_written order v area.old at }
    ensures narrow { (rx_there area.old at).position < 256 }
{
    write_failure_in(Order::from(order), v, area, at);
}

// A signal of an accepted payload goes to position `q` of a Tx frame's payload. What it promises holds of each payload that the signal can have been
// taken from.
pub fn copy_claim_in(order: Order, signal: Signal, area: &mut [u8], t: TxNumber, q: usize)
    requires { (signal.ones ≡ ones_of (order_number order) (at_most 64 signal.size)) × (t.0 < 256) × (q < 256) × LongEnough area.old }
    ensures { (source : List ℕ) → Bits (order_number order) signal.bits source signal.position signal.size
        → area.new ≡ done (order_number order) (accepted 0 source) area.old
        (record { rx = 0; tx = t.0; at = q; from = copy signal.position signal.size }) }
{
    let flags = Flags(tx_flags(area, t));
    let place = 8 * PAYLOADS_START + 64 * t.0 + q;
    let changed = put_signal_in(order, signal, area, place);
    send_if(flags, changed, area, t);
}

// The same in the order that a byte tells.
pub fn copy_claim(order: u8, signal: Signal, area: &mut [u8], t: TxNumber, q: usize)
    requires { (signal.ones ≡ ones_of order (at_most 64 signal.size)) × (t.0 < 256) × (q < 256) × LongEnough area.old }
    ensures { (source : List ℕ) → Bits order signal.bits source signal.position signal.size
        → area.new ≡ done order (accepted 0 source) area.old
        (record { rx = 0; tx = t.0; at = q; from = copy signal.position signal.size }) }
{
    copy_claim_in(Order::from(order), signal, area, t, q);
}
