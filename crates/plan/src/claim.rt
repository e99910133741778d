// The bits that a destination claims in its Tx frame: its own, and its frame's failure bit where one is awaited.
#![tactic(auto, unfolding(crate::specs::Claim::claimed, bits::specs::Owners::joined, base::specs::Pick::pick))]

ghost use Rattle.std.specs.Prelude.{◌≡◌, ◌+◌, ◌≤◌, ◌<◌};
ghost use Rattle.plan.specs.Claim.{claimed};

use crate::verdict::Reason;
use base::wide;
use bits::owners::join;

// The set with the claimed bits, or why the plan is refused. `room` is how many bits the Tx frame's data has.
pub fn claim(
    set: u64,
    q: usize,
    size: usize,
    awaits: u8,
    position: u8,
    room: usize,
) -> Result<u64, Reason>
    requires { (0 < size) × (q + size ≤ 64) × (room ≤ 64) }
    ensures { result ≡ claimed set q size awaits position room }
{
    let joined = join(set, q as u64, size as u64).ok_or(Reason::Owner)?;
    if awaits == 0 {
        return Ok(joined);
    }
    let p = wide(position);
    if room <= p {
        return Err(Reason::Indicator);
    }
    join(joined, p as u64, 1).ok_or(Reason::Owner)
}
