// Past the signals and destinations of a plan. They put nothing into the area, so that the opening looks at their kind bytes alone.
ghost use Rattle.std.specs.Prelude.{◌≤◌, length};
ghost use Rattle.opening.specs.Opened.{Passes};

use records::decode::{DESTINATION_BYTES, DESTINATION_KIND, SIGNAL_BYTES, SIGNAL_KIND};

// Past the destinations that stand whole at a place.
fn past_destinations(plan: &[u8], from: usize) -> usize
    requires { from ≤ length plan.now }
    ensures { Passes plan.now from result }
{
    let mut at = from;
    while let [DESTINATION_KIND, _, _, _, ..] = &plan[at..] {
        at += DESTINATION_BYTES;
    }
    at
}

// Past the signals that stand whole at a place, each with its destinations.
pub fn past_claims(plan: &[u8], from: usize) -> usize
    requires { from ≤ length plan.now }
    ensures { Passes plan.now from result }
{
    let mut at = from;
    while let [SIGNAL_KIND, _, _, ..] = &plan[at..] {
        at = past_destinations(plan, at + SIGNAL_BYTES);
    }
    at
}
