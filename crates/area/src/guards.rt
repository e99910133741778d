// What a call tests of an area before all else.
ghost use Rattle.std.specs.Prelude.{◌≡◌, ◌<◌, true, false, ltb, MatchResult};
ghost use Rattle.answers.specs.declared.Refusal.TheVariants.{NotOpen, NoNode};
ghost use Rattle.area.specs.Layout.{LongEnough, marked, node_count};

use crate::header::{has_node, is_marked};
use answers::Refusal;

// Whether the area was opened.
pub fn check_open(area: &[u8]) -> Result<(), Refusal>
    ensures { MatchResult result
        (λ done. (marked area.now ≡ true) × LongEnough area.now)
        (λ why. (why ≡ NotOpen) × (marked area.now ≡ false)) }
{
    if !is_marked(area) {
        return Err(Refusal::NotOpen);
    }
    Ok(())
}

// Whether there is a node `n`.
pub fn check_node(area: &[u8], n: usize) -> Result<(), Refusal>
    requires { LongEnough area.now }
    ensures { MatchResult result
        (λ done. (ltb n (node_count area.now) ≡ true) × (n < 16))
        (λ why. (why ≡ NoNode) × (ltb n (node_count area.now) ≡ false)) }
{
    if !has_node(area, n) {
        return Err(Refusal::NoNode);
    }
    Ok(())
}
