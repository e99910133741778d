// A signal on its way: taken from a payload once, and put into each destination, one store for each byte there.
ghost use Rattle.std.specs.Prelude.{◌≡◌, not, List, ℕ, ◌+◌, ◌-◌, ◌*◌, ◌^◌, ◌≤◌, ◌<◌, eqb, length};
ghost use Rattle.base.specs.Numbers.{at_most};
ghost use Rattle.bits.specs.Order.{order_number};
ghost use Rattle.bits.specs.Payload.{copied, differs};
ghost use Rattle.bits.specs.Word.{fitting, Bits, low_first, ones_of, made_up, bytes_stored};
ghost use Rattle.bits.specs.Signal.{signal_at};

use crate::order::Order;
use crate::word::{big_bytes, from_bit, little_bytes, low_first, ones_of};
use base::at_most;

// A signal of a payload: where it stands there, its size, its bits from the first on, and a one for each of them, 64 at most.
#[derive(Clone, Copy, Debug, PartialEq, Eq)]
pub struct Signal {
    pub position: usize,
    pub size: usize,
    pub bits: u64,
    pub ones: u64,
}

// The first eight bytes of a payload as a number, the first lowest, 0 past its end.
pub fn bytes_of(payload: &[u8]) -> u64
    ensures { result ≡ low_first 8 payload.now 0 }
{
    low_first(payload, 0)
}

// The signal at a position of eight bytes, `bytes` as such a number.
#[tactic(auto, unfolding(crate::specs::Signal::signal_at))]
pub fn take_signal_in(order: Order, bytes: u64, position: usize, size: usize) -> Signal
    ensures { result ≡ signal_at (order_number order) bytes position size }
{
    let bits = from_bit(order, bytes, position);
    let ones = ones_of(order, at_most(64, size));
    Signal {
        position,
        size,
        bits,
        ones,
    }
}

// The same in the order that a byte tells.
#[tactic(auto, using(crate::proofs::OrderLaws::signal_at_told))]
pub fn take_signal(order: u8, bytes: u64, position: usize, size: usize) -> Signal
    ensures { result ≡ signal_at order bytes position size }
{
    take_signal_in(Order::from(order), bytes, position, size)
}

// Eight bytes made up of the kept ones and new ones, each eight as a number: the digits are the new ones' where the mask has a one.
#[tactic(auto, using(crate::proofs::MadeUp::made_by_code))]
fn made_up(kept: u64, new: u64, mask: u64) -> u64
    ensures { result ≡ made_up kept new mask }
{
    kept ^ ((kept ^ new) & mask)
}

// The eight bytes from `at` on are read once and made up; those that the mask reaches are stored, each once, from the lowest to the highest. Answers
// whether any digit differed.
fn put_bytes(kept: &mut [u8], at: usize, new: u64, mask: u64) -> bool
    requires { (at ≤ length kept.old) × (at + 8 < 2 ^ 64) × (mask < 2 ^ (8 * (length kept.old - at))) }
    ensures bytes { kept.new ≡ bytes_stored 8 kept.old at (made_up (low_first 8 kept.old at) new mask) }
    ensures answer { result ≡ not (eqb (made_up (low_first 8 kept.old at) new mask) (low_first 8 kept.old at)) }
{
    let old = low_first(kept, at);
    let made = made_up(old, new, mask);
    let mut i = at;
    let mut n = made;
    let mut m = mask;
    while m != 0 {
        kept[i] = (n % 256) as u8;
        i += 1;
        n = n / 256;
        m = m / 256;
    }
    made != old
}

// A signal goes to bit `q` of the kept payload and those after it, as far as the eight bytes there have room. Answers whether any bit there differed.
// What it promises holds of each payload that the signal can have been taken from.
pub fn put_signal_in(order: Order, signal: Signal, kept: &mut [u8], q: usize) -> bool
    requires { (signal.ones ≡ ones_of (order_number order) (at_most 64 signal.size)) × (q + fitting q signal.size ≤ 8 * length kept.old) }
    ensures payload { (source : List ℕ) (p : ℕ) → Bits (order_number order) signal.bits source p signal.size
        → kept.new ≡ copied (order_number order) source p (fitting q signal.size) kept.old q }
    ensures answer { (source : List ℕ) (p : ℕ) → Bits (order_number order) signal.bits source p signal.size
        → result ≡ differs (order_number order) source p (fitting q signal.size) kept.old q }
{
    let o = (q % 8) as u64;
    match order {
        Order::Big => put_bytes(
            kept,
            q / 8,
            big_bytes(signal.bits, o),
            big_bytes(signal.ones, o),
        ),
        Order::Little => put_bytes(
            kept,
            q / 8,
            little_bytes(signal.bits, o),
            little_bytes(signal.ones, o),
        ),
    }
}

// The same in the order that a byte tells.
pub fn put_signal(order: u8, signal: Signal, kept: &mut [u8], q: usize) -> bool
    requires { (signal.ones ≡ ones_of order (at_most 64 signal.size)) × (q + fitting q signal.size ≤ 8 * length kept.old) }
    ensures payload { (source : List ℕ) (p : ℕ) → Bits order signal.bits source p signal.size
        → kept.new ≡ copied order source p (fitting q signal.size) kept.old q }
    ensures answer { (source : List ℕ) (p : ℕ) → Bits order signal.bits source p signal.size
        → result ≡ differs order source p (fitting q signal.size) kept.old q }
{
    put_signal_in(Order::from(order), signal, kept, q)
}
