// The owned bits of a Tx frame as a 64-bit set: joining a range to it, and counting it.
ghost use Rattle.std.specs.Prelude.{◌≡◌, ◌+◌, ◌≤◌, ◌<◌};
ghost use Rattle.bits.specs.Owners.{owners, joined};

// The set with bits `p` to `p + size - 1`, unless one of them has an owner.
pub fn join(set: u64, p: u64, size: u64) -> Option<u64>
    requires { (0 < size) × (p + size ≤ 64) }
    ensures { result ≡ joined set p size }
{
    let bits = (u64::MAX >> (64 - size)) << p;
    if set & bits != 0 {
        return None;
    }
    Some(set | bits)
}

// How many bits have an owner, 0 to 64.
pub fn count(set: u64) -> u32
    ensures { (result ≡ owners set 64) × (result ≤ 64) }
{
    set.count_ones()
}
