// Where the queues' rings begin, and how full the Tx frames are.
ghost use Rattle.std.specs.Prelude.{◌≡◌, length};
ghost use Rattle.area.specs.Layout.{LongEnough};
ghost use Rattle.opening.specs.Opened.{with_rings, with_fullness};

use area::layout::{full, queue};
use base::{low_at, put_low};
use bits::owners::count;
use records::record::TxNumber;

// The rings one after the other, each with room for its node's frames and requests.
pub fn with_rings(area: &mut [u8])
    requires { LongEnough area.old }
    ensures { area.new ≡ with_rings 16 area.old }
{
    let mut start = 0;
    for n in 0..16 {
        let at = queue(n);
        let room = low_at(area, at + 2);
        put_low(area, at, start);
        start += room;
    }
}

// The count of owned bits of each Tx frame.
pub fn with_fullness(area: &mut [u8], sets: &[u64])
    requires { (length sets.now ≡ 256) × LongEnough area.old }
    ensures { area.new ≡ with_fullness sets.now 256 area.old }
{
    for (t, set) in sets.iter().enumerate() {
        put_low(area, full(TxNumber(t)), count(*set) as usize);
    }
}
