// The binary digits of a byte.
ghost use Rattle.std.specs.Prelude.{◌≡◌, ◌^◌, ◌<◌};
ghost use Rattle.bits.specs.Digit.{digit, set_digit};
ghost use Rattle.bits.specs.Order.{order_number};
ghost use Rattle.bits.specs.Payload.{digit_of};

use crate::order::Order;

// Which digit of its byte bit `p` is.
#[tactic(auto, unfolding(crate::specs::Payload::digit_of))]
pub fn digit_of(order: Order, p: usize) -> u8
    ensures { (result ≡ digit_of (order_number order) p) × (result < 8) }
{
    let within = (p % 8) as u8;
    match order {
        Order::Big => 7 - within,
        Order::Little => within,
    }
}

// The weight of digit `e`.
fn weight(e: u8) -> u8
    requires { e < 8 }
    ensures { result ≡ 2 ^ e }
{
    1 << e
}

// Digit `e` of `byte`.
#[tactic(auto, unfolding(crate::specs::Digit::digit))]
pub fn get(byte: u8, e: u8) -> u8
    requires { e < 8 }
    ensures { (result ≡ digit byte e) × (result < 2) }
{
    (byte >> e) % 2
}

// `byte` with digit `e` replaced by `v`.
pub fn put(byte: u8, e: u8, v: u8) -> u8
    requires { (e < 8) × (v < 2) }
    ensures { result ≡ set_digit byte e v }
{
    let w = weight(e);
    byte - get(byte, e) * w + v * w
}
