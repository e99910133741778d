// A timer: "one small record of reload and count, stepped where it stands".
ghost use Rattle.std.specs.Prelude.{◌≡◌};
ghost use Rattle.clock.specs.Timer.{lowered, stepped, expires};

#[derive(Clone, Copy, Debug, PartialEq, Eq)]
pub struct Timer {
    pub reload: u8,
    pub count: u8,
}

// The answer to a caller whose timer is no record: the new count, and whether it expired. Both are always there, so it is no Option.
#[derive(Clone, Copy, Debug, PartialEq, Eq)]
pub struct Stepped {
    pub count: u8,
    pub expired: bool,
}

// The count after a handling. The branches stand here, so that `step` has none.
#[tactic(auto, unfolding(crate::specs::Timer::lowered, base::specs::Pick::pick))]
pub fn lower(reload: u8, count: u8) -> u8
    ensures { result ≡ lowered reload count }
{
    match count {
        0 => 0,
        1 => reload,
        _ => count - 1,
    }
}

// Lowers the timer, reloads it, and says whether it expired.
#[tactic(auto, unfolding(crate::specs::Timer::stepped, crate::specs::Timer::expires))]
pub fn step(timer: &mut Timer) -> bool
    ensures { (result ≡ expires timer.old) × (timer.new ≡ stepped timer.old) }
{
    let count = timer.count;
    timer.count = lower(timer.reload, count);
    count == 1
}

// A step for a caller that keeps the two numbers among others, as bytes of an area.
#[tactic(auto, unfolding(crate::specs::Timer::stepped))]
pub fn step_timer(reload: u8, count: u8) -> Stepped
    ensures { (result.count ≡ lowered reload count) × (result.expired ≡ expires (record { reload = reload; count = count })) }
{
    let mut timer = Timer { reload, count };
    let expired = step(&mut timer);
    Stepped {
        count: timer.count,
        expired,
    }
}
