// The Tx timers.
ghost use Rattle.std.specs.Prelude.{◌≡◌, ◌+◌, ◌≤◌, ◌<◌, length};
ghost use Rattle.area.specs.Layout.{LongEnough};
ghost use Rattle.ticking.specs.Tick.{tx_tick, tx_ticks};
ghost use Rattle.ticking.specs.Sixteen.{tx_step};

use crate::by_sixteens::ticks;
use area::layout::{tx_mask, tx_reload, tx_timer};
use area::queue::schedule;
use clock::counter::no_common_bit;
use records::record::TxNumber;

// The first `n` Tx timers.
#[tactic(auto, unfolding(crate::specs::Sixteen::ticks_of))]
pub fn tx_ticks(area: &mut [u8], n: usize, k: u8)
    requires { (n ≤ 256) × LongEnough area.old }
    ensures { area.new ≡ tx_ticks k n area.old }
{
    let mut none: [u8; 0] = [];
    ticks::<false>(area, n, k, &mut none);
}

// Tx timer `t` at the counter `k`. Its mask says whether it is handled now.
#[tactic(auto, unfolding(crate::specs::Tick::tx_tick, crate::specs::Tick::timed, crate::specs::Sixteen::tx_step, clock::specs::Timer::expires, base::specs::Pick::pick))]
pub fn tx_tick(area: &mut [u8], t: TxNumber, k: u8)
    requires { (t.0 < 256) × LongEnough area.old }
    ensures { area.new ≡ tx_tick k area.old t.0 }
{
    if no_common_bit(k, area[tx_mask(t)]) {
        let s = clock::timer::step_timer(area[tx_reload(t)], area[tx_timer(t)]);
        if s.expired {
            tx_step(area, t);
        } else {
            area[tx_timer(t)] = s.count;
        }
    }
}

// Tx timer `t`, which holds 1, is handled: it expires, and the frame is scheduled.
pub fn tx_step(area: &mut [u8], t: TxNumber)
    requires { (t.0 < 256) × LongEnough area.old }
    ensures { area.new ≡ tx_step area.old t.0 }
{
    schedule(area, t);
    let s = clock::timer::step_timer(area[tx_reload(t)], 1);
    area[tx_timer(t)] = s.count;
}
