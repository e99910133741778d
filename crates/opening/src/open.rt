// The call that opens an area with a plan.
ghost use Rattle.std.specs.Prelude.{◌≡◌, ◌≤◌, length};
ghost use Rattle.records.specs.Records.{records};
ghost use Rattle.plan.specs.Check.{check_plan};
ghost use Rattle.area.specs.Layout.{plan_room, LongEnough};
ghost use Rattle.opening.specs.Opened.{blank, with_records, with_rings, with_fullness, opened_answer, opened_area};

use crate::blank::make_blank;
use crate::queues::{with_fullness, with_rings};
use crate::record::with_records;
use answers::{Refusal, RefusedPlan};
use area::layout::AREA_LENGTH;
use plan::check::check_with;
use plan::verdict::PlanCounts;

// The area as the plan begins it, where `sets` has the owned bits of each Tx frame.
fn fill(plan: &[u8], sets: &[u64], area: &mut [u8])
    requires { (length plan.now ≤ plan_room) × (length sets.now ≡ 256) × LongEnough area.old }
    ensures { area.new ≡
        with_fullness sets.now 256 (with_rings 16 (with_records 0 (records plan.now) (blank plan.now area.old))) }
{
    make_blank(plan, area);
    with_records(area, plan);
    with_rings(area);
    with_fullness(area, sets);
}

// Checks the plan, and fills the area where the plan is good and the area is long enough. A refusal writes nothing.
#[tactic(auto, unfolding(crate::specs::Opened::opened_answer, crate::specs::Opened::opened_area, crate::specs::Opened::opened, base::specs::Pick::pick))]
pub fn open(plan: &[u8], area: &mut [u8]) -> Result<PlanCounts, RefusedPlan>
    ensures answer { result ≡ opened_answer (check_plan plan.now) (length area.old) }
    ensures bytes { area.new ≡ opened_area result plan.now area.old }
{
    let mut sets = [0u64; 256];
    let counts = check_with(plan, &mut sets)?;
    if area.len() < AREA_LENGTH {
        return Err(RefusedPlan {
            why: Refusal::ShortArea,
            record_number: 0,
        });
    }
    fill(plan, &sets, area);
    Ok(counts)
}
