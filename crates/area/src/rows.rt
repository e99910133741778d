// A node's rows, and the key of a row.
ghost use Rattle.std.specs.Prelude.{◌≡◌, ◌^◌, ◌<◌};
ghost use Rattle.area.specs.Layout.{row_range, row_bound, LongEnough, first_row, row_count, key_at};

use crate::layout::{KEY_SIZE, KEYS_START, NODES_START, ROW_RANGE};

// The Rx number of node `n`'s first row.
pub fn first_row(area: &[u8], n: usize) -> usize
    requires { (n < 16) × LongEnough area.now }
    ensures { (result ≡ first_row area.now n) × (result < row_range) }
{
    base::low_at(area, NODES_START + 4 * n) % ROW_RANGE
}

// How many rows node `n` has.
pub fn row_count(area: &[u8], n: usize) -> usize
    requires { (n < 16) × LongEnough area.now }
    ensures { (result ≡ row_count area.now n) × (result < row_range) }
{
    base::low_at(area, NODES_START + 4 * n + 2) % ROW_RANGE
}

// The key of row `r`.
pub fn key_at(area: &[u8], r: usize) -> usize
    requires { (r < row_bound) × LongEnough area.now }
    ensures { (result ≡ key_at area.now r) × (result < 2 ^ 32) }
{
    let at = KEYS_START + KEY_SIZE * r;
    base::low_at(area, at + 2) * 65536 + base::low_at(area, at)
}
