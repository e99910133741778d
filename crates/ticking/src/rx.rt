// The Rx timers, with the report.
ghost use Rattle.std.specs.Prelude.{◌≡◌, ◌+◌, ◌≤◌, ◌<◌, eqb, length, set};
ghost use Rattle.area.specs.Layout.{LongEnough};
ghost use Rattle.ticking.specs.Tick.{rx_tick, rx_report, rx_ticks, reported, expiry_report};
ghost use Rattle.ticking.specs.Sixteen.{rx_step};

use crate::by_sixteens::ticks;
use crate::expiry::{expiry, report_byte};
use area::layout::{rx_mask, rx_reload, rx_timer};
use clock::counter::no_common_bit;
use records::record::RxNumber;

// The first `n` Rx timers, each with its byte of the report.
#[tactic(auto, unfolding(crate::specs::Sixteen::ticks_of, crate::specs::Sixteen::reported_by))]
pub fn rx_ticks(area: &mut [u8], n: usize, k: u8, report: &mut [u8])
    requires { (n ≤ 256) × LongEnough area.old × (n ≤ length report.old) }
    ensures bytes { area.new ≡ rx_ticks k n area.old }
    ensures report { report.new ≡ reported k n area.old report.old }
{
    ticks::<true>(area, n, k, report);
}

// Rx timer `r` at the counter `k`. Its mask says whether it is handled now. The answer is its byte of the report.
#[tactic(auto, unfolding(crate::specs::Tick::rx_tick, crate::specs::Tick::rx_report, crate::specs::Tick::timed, crate::specs::Sixteen::rx_step, clock::specs::Timer::expires, base::specs::Pick::pick))]
pub fn rx_tick(area: &mut [u8], r: RxNumber, k: u8) -> u8
    requires { (r.0 < 256) × LongEnough area.old }
    ensures report { result ≡ rx_report k area.old r.0 }
    ensures bytes { area.new ≡ rx_tick k area.old r.0 }
{
    if no_common_bit(k, area[rx_mask(r)]) {
        let s = clock::timer::step_timer(area[rx_reload(r)], area[rx_timer(r)]);
        if s.expired {
            return rx_step(area, r);
        }
        area[rx_timer(r)] = s.count;
    }
    0
}

// Rx timer `r`, which holds 1, is handled: it expires. The answer is its byte of the report.
pub fn rx_step(area: &mut [u8], r: RxNumber) -> u8
    requires { (r.0 < 256) × LongEnough area.old }
    ensures report { result ≡ expiry_report area.old r.0 }
    ensures bytes { area.new ≡ rx_step area.old r.0 }
{
    let s = clock::timer::step_timer(area[rx_reload(r)], 1);
    area[rx_timer(r)] = s.count;
    report_byte(expiry(area, r))
}
