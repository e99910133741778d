// The order of the bits in a payload, as a plan's head states it.
ghost use Rattle.std.specs.Prelude.{◌≡◌};
ghost use Rattle.bits.specs.Order.{order_number, order_told};

// In big order bit 0 is the highest bit of byte 0, in little order the lowest.
#[derive(Clone, Copy, Debug, PartialEq, Eq)]
pub enum Order {
    Big,
    Little,
}

// Every byte tells an order: 0 is big; 1, and any that no good plan has, is little.
impl From<u8> for Order {
    ghost from_gives = { λ byte order. order_number order ≡ order_told byte };

    #[tactic(auto, unfolding(crate::specs::Order::order_told))]
    fn from(byte: u8) -> Order {
        match byte {
            0 => Order::Big,
            _ => Order::Little,
        }
    }
}
