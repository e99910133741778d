// What every crate above uses: a byte as a wide number, numbers of two and four bytes, and a number brought into range.
#![tactic(auto)]

ghost use Rattle.std.specs.Prelude.{◌≡◌, ◌+◌, ◌^◌, ◌≤◌, ◌<◌, length};
ghost use Rattle.base.specs.Numbers.{two_at, four_at, low_at, set_low, at_most};

// A byte, wide enough to be an index.
pub fn wide(byte: u8) -> usize
    ensures { (result ≡ byte) × (result < 256) }
{
    usize::from(byte)
}

// The number in the two bytes from `at` on, the high byte first.
pub fn two_at(bytes: &[u8], at: usize) -> usize
    requires { at + 2 ≤ length bytes.now }
    ensures { (result ≡ two_at bytes.now at) × (result < 65536) }
{
    usize::from(u16::from_be_bytes([bytes[at], bytes[at + 1]]))
}

// The number in the four bytes from `at` on, the high byte first.
pub fn four_at(bytes: &[u8], at: usize) -> usize
    requires { at + 4 ≤ length bytes.now }
    ensures { (result ≡ four_at bytes.now at) × (result < 2 ^ 32) }
{
    two_at(bytes, at) * 65536 + two_at(bytes, at + 2)
}

// The number in the two bytes from `at` on, the low byte first.
pub fn low_at(bytes: &[u8], at: usize) -> usize
    requires { at + 2 ≤ length bytes.now }
    ensures { (result ≡ low_at bytes.now at) × (result < 65536) }
{
    usize::from(u16::from_le_bytes([bytes[at], bytes[at + 1]]))
}

// The two bytes from `at` on become the number, the low byte first.
pub fn put_low(bytes: &mut [u8], at: usize, v: usize)
    requires { at + 2 ≤ length bytes.old }
    ensures { bytes.new ≡ set_low bytes.old at v }
{
    let [low, high, ..] = v.to_le_bytes();
    bytes[at] = low;
    bytes[at + 1] = high;
}

// A number, or the most that it may be.
#[tactic(auto, unfolding(crate::specs::Numbers::at_most, crate::specs::Pick::pick))]
pub fn at_most(most: usize, n: usize) -> usize
    ensures { (result ≡ at_most most n) × (result ≤ most) }
{
    n.min(most)
}
