// The call: Tx timers, Rx timers with the report, the counter.
ghost use Rattle.std.specs.Prelude.{◌≡◌, ◌≤◌, length};
ghost use Rattle.area.specs.Layout.{LongEnough, counter, tx_count, rx_count};
ghost use Rattle.ticking.specs.Tick.{tx_ticks, reported, ticked, tick_answer, ticked_area, ticked_report};

use crate::rx::rx_ticks;
use crate::tx::tx_ticks;
use answers::Refusal;
use area::guards::check_open;
use area::header::{rx_count, tx_count};
use area::layout::COUNTER_BYTE;

// The call. A refused one changes nothing.
pub fn tick(area: &mut [u8], report: &mut [u8]) -> Result<(), Refusal>
    ensures answer { result ≡ tick_answer area.old report.old }
    ensures bytes { area.new ≡ ticked_area result area.old }
    ensures report { report.new ≡ ticked_report result area.old report.old }
{
    check_open(area)?;
    if report.len() < rx_count(area) {
        return Err(Refusal::ShortReport);
    }
    run(area, report);
    Ok(())
}

// A tick of an open area. The timers see the counter as it was; it moves on last.
#[tactic(auto, unfolding(crate::specs::Tick::ticked))]
fn run(area: &mut [u8], report: &mut [u8])
    requires { LongEnough area.old × (rx_count area.old ≤ length report.old) }
    ensures bytes { area.new ≡ ticked area.old }
    ensures report { report.new ≡
        reported (counter area.old) (rx_count area.old)
        (tx_ticks (counter area.old) (tx_count area.old) area.old) report.old }
{
    let k = area[COUNTER_BYTE];
    let tx = tx_count(area);
    let rx = rx_count(area);
    tx_ticks(area, tx, k);
    rx_ticks(area, rx, k, report);
    area[COUNTER_BYTE] = clock::counter::next(k);
}
