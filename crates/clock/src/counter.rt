// The two-digit tick counter, and the prescalers that choose among the ticks.
ghost use Rattle.std.specs.Prelude.{◌≡◌};
ghost use Rattle.clock.specs.Counter.{counter_next, mask_of, no_common_bit, handled};

// The counter moved on: "add one, add six on a low nibble of ten, wrapping add at the top".
#[tactic(auto, unfolding(crate::specs::Counter::counter_next, base::specs::Pick::pick))]
pub fn next(counter: u8) -> u8
    ensures { result ≡ counter_next counter }
{
    let more = counter.wrapping_add(1);
    if more % 16 == 10 {
        return more.wrapping_add(6);
    }
    more
}

// The bits of the counter that are clear where a timer of this prescaler is handled. A number that
// is no prescaler is taken for 20, so that every byte has a mask.
#[tactic(auto, unfolding(crate::specs::Counter::mask_of, base::specs::Pick::pick))]
pub fn mask(prescaler: u8) -> u8
    ensures { result ≡ mask_of prescaler }
{
    match prescaler {
        1 => 0x00,
        2 => 0x01,
        10 => 0x0f,
        _ => 0x1f,
    }
}

// Whether the counter and a mask have no common bit: then a timer with this mask is handled.
#[tactic(auto, unfolding(crate::specs::Counter::no_common_bit))]
pub fn no_common_bit(counter: u8, mask: u8) -> bool
    ensures { result ≡ no_common_bit counter mask }
{
    counter & mask == 0
}

// Whether a timer of this prescaler is handled at this counter.
#[tactic(auto, unfolding(crate::specs::Counter::handled))]
pub fn is_handled(counter: u8, prescaler: u8) -> bool
    ensures { result ≡ handled counter prescaler }
{
    no_common_bit(counter, mask(prescaler))
}
