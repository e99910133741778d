// The bits of eight bytes as a number of 64 digits.
ghost use Rattle.std.specs.Prelude.{◌≡◌, ◌+◌, ◌*◌, ◌^◌, ◌≤◌, ◌<◌, length};
ghost use Rattle.bits.specs.Order.{order_number};
ghost use Rattle.bits.specs.Word.{from_bit, ones_of, low_first, in_bytes};

use crate::order::Order;

// The bytes from `at` on as a number, the first lowest, where fewer than eight are left: 0 past the end.
fn last_at(bytes: &[u8], at: usize) -> u64
    requires { (at ≤ length bytes.now) × (length bytes.now < at + 8) }
    ensures { result ≡ low_first 8 bytes.now at }
{
    let mut number = 0;
    for byte in bytes[at..].iter().rev() {
        number = number * 256 + u64::from(*byte);
    }
    number
}

// The bytes from `at` on as a number, the first lowest: eight of them, 0 past the end.
pub fn low_first(bytes: &[u8], at: usize) -> u64
    requires { (at ≤ length bytes.now) × (at + 8 < 2 ^ 64) }
    ensures { result ≡ low_first 8 bytes.now at }
{
    match bytes[at..].first_chunk::<8>() {
        Some(eight) => u64::from_le_bytes(*eight),
        None => last_at(bytes, at),
    }
}

// The bits of eight bytes from bit `p` on. In big order the first byte is the highest.
pub fn from_bit(order: Order, bytes: u64, p: usize) -> u64
    ensures { result ≡ from_bit (order_number order) bytes p }
{
    if 64 <= p {
        return 0;
    }
    match order {
        Order::Big => bytes.swap_bytes() << p as u64,
        Order::Little => bytes >> p as u64,
    }
}

// The bits as bytes again in big order, from bit `o` of the first byte on; and in little order.
#[tactic(auto, unfolding(crate::specs::Word::in_bytes, crate::specs::Word::reversed))]
pub fn big_bytes(bits: u64, o: u64) -> u64
    requires { o < 8 }
    ensures { result ≡ in_bytes 0 bits o }
{
    (bits >> o).swap_bytes()
}

#[tactic(auto, unfolding(crate::specs::Word::in_bytes))]
pub fn little_bytes(bits: u64, o: u64) -> u64
    requires { o < 8 }
    ensures { result ≡ in_bytes 1 bits o }
{
    bits << o
}

// A one for each of the first `size` bits.
pub fn ones_of(order: Order, size: usize) -> u64
    requires { size ≤ 64 }
    ensures { result ≡ ones_of (order_number order) size }
{
    if size == 0 {
        return 0;
    }
    let rest = (64 - size) as u64;
    if let Order::Big = order {
        return u64::MAX << rest;
    }
    u64::MAX >> rest
}
