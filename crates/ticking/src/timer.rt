// The timers of all frames, which stand in one table: Rx timer `r` is timer 256 + `r` of it.
ghost use Rattle.std.specs.Prelude.{◌≡◌, ◌+◌, ◌-◌, ◌≤◌, length};
ghost use Rattle.area.specs.Layout.{LongEnough};
ghost use Rattle.ticking.specs.Sixteen.{each, fallen, expiring, fell, marks_of, any_of};

use area::layout::{TX_MASKS_START, TX_TIMERS_START};
use clock::counter::no_common_bit;

// The count of a timer that does not expire.
#[tactic(auto, unfolding(crate::specs::Sixteen::fallen, base::specs::Pick::pick))]
fn fallen(handled: bool, count: u8) -> u8
    ensures { result ≡ fallen handled count }
{
    if handled {
        if 1 < count {
            return count - 1;
        }
    }
    count
}

// 1 where a timer expires.
#[tactic(auto, unfolding(crate::specs::Sixteen::expiring, base::specs::Pick::pick))]
fn expiring(handled: bool, count: u8) -> u8
    ensures { result ≡ expiring handled count }
{
    if handled {
        if count == 1 {
            return 1;
        }
    }
    0
}

// Of the timers from `from` to before `end`, sixteen at most, those that do not expire fall. The answer marks those that do. Every caller asks for sixteen;
// if that stood here, the compiler would unroll the loop and not bring it into the callers, where it takes all sixteen at once.
pub fn lower_timers(area: &mut [u8], from: usize, end: usize, k: u8) -> [u8; 16]
    requires { (from ≤ end) × (end ≤ from + 16) × (end ≤ 512) × LongEnough area.old }
    ensures marks { result ≡ marks_of k from (end - from) area.old }
    ensures bytes { area.new ≡ each (fell k) from (end - from) area.old }
{
    let mut marks = [0u8; 16];
    let n = end - from;
    for i in 0..n {
        let j = from + i;
        let handled = no_common_bit(k, area[TX_MASKS_START + j]);
        let count = area[TX_TIMERS_START + j];
        marks[i] = expiring(handled, count);
        area[TX_TIMERS_START + j] = fallen(handled, count);
    }
    marks
}

// Whether any of sixteen is marked.
pub fn any(marks: &[u8]) -> bool
    requires { 16 ≤ length marks.now }
    ensures { result ≡ any_of 16 marks.now }
{
    let mut seen = 0;
    for i in 0..16 {
        seen = seen | marks[i];
    }
    seen != 0
}
