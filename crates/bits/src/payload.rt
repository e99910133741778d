// The bits of a payload of any length, in either order, and the copy of a signal.
ghost use Rattle.std.specs.Prelude.{◌≡◌, ◌+◌, ◌*◌, ◌^◌, ◌<◌, ◌≤◌, length};
ghost use Rattle.bits.specs.Order.{order_number};
ghost use Rattle.bits.specs.Payload.{set_bit, copied, differs};

use crate::digits;
use crate::order::Order;
use crate::signal::{put_signal_in, take_signal_in};
use crate::word::low_first;
use base::at_most;

// Bit `p` of a payload becomes `v`.
#[tactic(auto, unfolding(crate::specs::Payload::set_bit))]
pub fn write_bit_in(order: Order, payload: &mut [u8], p: usize, v: u8)
    requires { (p < 8 * length payload.old) × (v < 2) }
    ensures { payload.new ≡ set_bit (order_number order) payload.old p v }
{
    let i = p / 8;
    let e = digits::digit_of(order, p);
    payload[i] = digits::put(payload[i], e, v);
}

// The same in the order that a byte tells.
#[tactic(auto, using(crate::proofs::OrderLaws::set_bit_told))]
pub fn write_bit(order: u8, payload: &mut [u8], p: usize, v: u8)
    requires { (p < 8 * length payload.old) × (v < 2) }
    ensures { payload.new ≡ set_bit order payload.old p v }
{
    write_bit_in(Order::from(order), payload, p, v);
}

// Source bit `p + k` goes to bit `q + k` of the kept payload, for each `k` below `size`. Answers whether any bit there differed.
pub fn copy_signal_in(
    order: Order,
    source: &[u8],
    p: usize,
    size: usize,
    kept: &mut [u8],
    q: usize,
) -> bool
    requires { (p + size ≤ 8 * length source.now) × (q + size ≤ 8 * length kept.old) × (p + size < 2 ^ 64) × (q + size < 2 ^ 64) }
    ensures payload { kept.new ≡ copied (order_number order) source.now p size kept.old q }
    ensures answer { result ≡ differs (order_number order) source.now p size kept.old q }
{
    let mut changed = false;
    let mut k = 0;
    while k < size {
        // a piece ends with a byte of the destination or with the signal, so that each byte there is stored once
        let n = at_most(56 - (q + k) % 8, size - k);
        let bytes = low_first(source, (p + k) / 8);
        let piece = take_signal_in(order, bytes, (p + k) % 8, n);
        changed |= put_signal_in(order, piece, kept, q + k);
        k += n;
    }
    changed
}

// The same in the order that a byte tells.
#[tactic(auto, using(crate::proofs::OrderLaws::copied_told, crate::proofs::OrderLaws::differs_told))]
pub fn copy_signal(
    order: u8,
    source: &[u8],
    p: usize,
    size: usize,
    kept: &mut [u8],
    q: usize,
) -> bool
    requires { (p + size ≤ 8 * length source.now) × (q + size ≤ 8 * length kept.old) × (p + size < 2 ^ 64) × (q + size < 2 ^ 64) }
    ensures payload { kept.new ≡ copied order source.now p size kept.old q }
    ensures answer { result ≡ differs order source.now p size kept.old q }
{
    copy_signal_in(Order::from(order), source, p, size, kept, q)
}
