// The search of a node's rows.
ghost use Rattle.std.specs.Prelude.{◌≡◌, ◌+◌, ◌-◌, ◌≤◌, ◌<◌};
ghost use Rattle.area.specs.Layout.{row_bound, LongEnough};
ghost use Rattle.records.specs.declared.record.RxNumber.{RxNumber};
ghost use Rattle.reception.specs.declared.lookup.Found.TheVariants.{At};
ghost use Rattle.reception.specs.Lookup.{found_of, look_in, looked_up, place_in};

use area::rows::{first_row, key_at, row_count};
use records::record::{Id, RxNumber};

#[derive(Clone, Copy, Debug, PartialEq, Eq)]
pub enum Found {
    At(RxNumber),
    // no row has the ID; `place` of the node's rows have a smaller one
    Nothing { place: usize },
}

impl Found {
    // How many of the node's rows have a smaller ID, where none has the ID itself.
    #[tactic(auto, unfolding(crate::specs::Lookup::place_in))]
    pub fn place(self) -> usize
        ensures { result ≡ place_in self }
    {
        match self {
            Found::At(_) => 0,
            Found::Nothing { place } => place,
        }
    }
}

// The row of a node that has an ID, among that node's rows only; or the place where such a row would belong. One key is searched for, whatever the format.
pub fn look_up(area: &[u8], node: usize, id: Id) -> Found
    requires { (node < 16) × LongEnough area.now }
    ensures { (result ≡ looked_up area.now node id) × ((x : RxNumber) → result ≡ At x → x.0 < row_bound) }
{
    let n = row_count(area, node);
    let first = first_row(area, node);
    match look(area, first, first, n, id.key() as u32) {
        Ok(r) => Found::At(RxNumber(r as usize)),
        Err(place) => Found::Nothing {
            place: place as usize,
        },
    }
}

// Of a node's rows, which begin at row `first`, the `n` from row `next` on remain: the middle of these, and then the half that remains. The rows that are
// left behind have a smaller ID. As a slice's `binary_search` it answers the row's number, or where such a row would stand; of 32 bits, so that the answer
// goes back in a register, and of the recursion the compiler makes a loop.
fn look(area: &[u8], first: usize, next: usize, n: usize, key: u32) -> Result<u32, u32>
    requires { (first ≤ next) × (next + n ≤ row_bound) × LongEnough area.now }
    ensures { found_of result ≡ look_in (n + 1) area.now first (next - first) n key }
{
    if n == 0 {
        return Err((next - first) as u32);
    }
    let m = next + n / 2;
    let k = key_at(area, m) as u32;
    if key < k {
        return look(area, first, next, n / 2, key);
    }
    if k < key {
        return look(area, first, m + 1, n - n / 2 - 1, key);
    }
    Ok(m as u32)
}
