// The timers of all frames of a kind, by sixteens: Rx timers with the report where `RX` says so, and else Tx timers, which have none.
ghost use Rattle.std.specs.Prelude.{◌≡◌, ◌+◌, ◌≤◌, ◌<◌, true, eqb, length};
ghost use Rattle.base.specs.Pick.{pick};
ghost use Rattle.area.specs.Layout.{LongEnough};
ghost use Rattle.ticking.specs.Sixteen.{each, each_marked, table_of, cleared_by, tick_of, ticks_of, step_of, tick_told, step_told, reported_by, told_from, told_marked};

use crate::rx::{rx_step, rx_tick};
use crate::timer::{any, lower_timers};
use crate::tx::{tx_step, tx_tick};
use records::record::{RxNumber, TxNumber};

// The first `n` timers, in number order: by sixteens, and the rest one by one.
pub fn ticks<const RX: bool>(area: &mut [u8], n: usize, k: u8, report: &mut [u8])
    requires { (n ≤ 256) × LongEnough area.old × (RX ≡ true → n ≤ length report.old) }
    ensures bytes { area.new ≡ ticks_of RX k n area.old }
    ensures report { report.new ≡ reported_by RX k n area.old report.old }
{
    // so many stand in full sixteens
    let full = n - n % 16;
    let mut from = 0;
    // no `for` over the sixteens: it took 11 instructions more for 16 Tx timers, 56 for 256
    while from < full {
        sixteen::<RX>(area, from, k, report);
        from += 16;
    }
    for i in full..n {
        tick::<RX>(area, i, k, report);
    }
}

// The sixteen timers from `from` on. Their bytes of the report are 0, but for those that expire.
fn sixteen<const RX: bool>(area: &mut [u8], from: usize, k: u8, report: &mut [u8])
    requires { (from + 16 ≤ 256) × LongEnough area.old × (RX ≡ true → from + 16 ≤ length report.old) }
    ensures bytes { area.new ≡ each (tick_of RX k) from 16 area.old }
    ensures report { report.new ≡ told_from RX k from 16 area.old report.old }
{
    let first = in_table::<RX>(from);
    let marks = lower_timers(area, first, first + 16, k);
    clear::<RX>(report, from);
    if any(&marks) {
        expire::<RX>(area, from, &marks, report);
    }
}

// The number, in the one table of all timers, of the first of sixteen.
#[tactic(auto, unfolding(crate::specs::Sixteen::table_of))]
fn in_table<const RX: bool>(n: usize) -> usize
    requires { n + 16 ≤ 256 }
    ensures { (result ≡ table_of RX n) × (result + 16 ≤ 512) }
{
    if RX { 256 + n } else { n }
}

// The bytes of sixteen timers in the report become 0.
fn clear<const RX: bool>(report: &mut [u8], from: usize)
    requires { (from + 16 ≤ 256) × (RX ≡ true → from + 16 ≤ length report.old) }
    ensures { report.new ≡ cleared_by RX from report.old }
{
    if RX {
        report[from..from + 16].fill(0);
    }
}

// Those of sixteen timers that are marked expire; each of them holds 1.
fn expire<const RX: bool>(area: &mut [u8], from: usize, marks: &[u8], report: &mut [u8])
    requires { (from + 16 ≤ 256) × LongEnough area.old × (RX ≡ true → from + 16 ≤ length report.old) × (16 ≤ length marks.now) }
    ensures bytes { area.new ≡ each_marked (step_of RX) marks.now from 16 area.old }
    ensures report { report.new ≡ told_marked RX marks.now from 16 area.old report.old }
{
    for i in 0..16 {
        expire_if::<RX>(area, from + i, marks[i], report);
    }
}

// One of them, by its mark.
#[tactic(auto, unfolding(base::specs::Pick::pick))]
fn expire_if<const RX: bool>(area: &mut [u8], n: usize, mark: u8, report: &mut [u8])
    requires { (n < 256) × LongEnough area.old × (RX ≡ true → n < length report.old) }
    ensures bytes { area.new ≡ pick (eqb mark 1) (step_of RX area.old n) area.old }
    ensures report { report.new ≡ pick (eqb mark 1) (step_told RX area.old n report.old) report.old }
{
    if mark == 1 {
        step::<RX>(area, n, report);
    }
}

// Timer `n` at the counter `k`, with its byte of the report.
#[tactic(auto, unfolding(crate::specs::Sixteen::tick_of, crate::specs::Sixteen::tick_told))]
fn tick<const RX: bool>(area: &mut [u8], n: usize, k: u8, report: &mut [u8])
    requires { (n < 256) × LongEnough area.old × (RX ≡ true → n < length report.old) }
    ensures bytes { area.new ≡ tick_of RX k area.old n }
    ensures report { report.new ≡ tick_told RX k area.old n report.old }
{
    if RX {
        report[n] = rx_tick(area, RxNumber(n), k);
    } else {
        tx_tick(area, TxNumber(n), k);
    }
}

// Timer `n`, which holds 1, is handled: it expires.
#[tactic(auto, unfolding(crate::specs::Sixteen::step_of, crate::specs::Sixteen::step_told))]
fn step<const RX: bool>(area: &mut [u8], n: usize, report: &mut [u8])
    requires { (n < 256) × LongEnough area.old × (RX ≡ true → n < length report.old) }
    ensures bytes { area.new ≡ step_of RX area.old n }
    ensures report { report.new ≡ step_told RX area.old n report.old }
{
    if RX {
        report[n] = rx_step(area, RxNumber(n));
    } else {
        tx_step(area, TxNumber(n));
    }
}
