// An empty area with the plan in it.
ghost use Rattle.std.specs.Prelude.{◌≡◌, ◌+◌, ◌≤◌, length};
ghost use Rattle.area.specs.Layout.{area_length, plan_room, LongEnough};
ghost use Rattle.opening.specs.Opened.{cleared, zeroed, laid, blank};

use area::layout::{PLAN_LENGTH_BYTES, PLAN_ROOM, PLAN_START};
use base::put_low;

// The `n` bytes from a place on become zero.
fn clear(area: &mut [u8], from: usize, n: usize)
    requires { (from + n ≤ area_length) × LongEnough area.old }
    ensures { area.new ≡ zeroed from n area.old }
{
    for i in 0..n {
        area[from + i] = 0;
    }
}

// The plan is copied to its place. By the byte: `copy_from_slice` asks C for memmove, which the static library does not bring.
fn lay(plan: &[u8], area: &mut [u8])
    requires { (length plan.now ≤ plan_room) × LongEnough area.old }
    ensures { area.new ≡ laid plan.now (length plan.now) area.old }
{
    for (i, byte) in plan.iter().enumerate() {
        area[PLAN_START + i] = *byte;
    }
}

// Zeros with the plan in its place: where the plan goes no zeros are put first.
fn lay_on_zeros(plan: &[u8], area: &mut [u8])
    requires { (length plan.now ≤ plan_room) × LongEnough area.old }
    ensures { area.new ≡ laid plan.now (length plan.now) (cleared area_length area.old) }
{
    let n = plan.len();
    clear(area, 0, PLAN_START);
    lay(plan, area);
    clear(area, PLAN_START + n, PLAN_ROOM - n);
}

// Zeros, the plan, the mark and the plan's length.
pub fn make_blank(plan: &[u8], area: &mut [u8])
    requires { (length plan.now ≤ plan_room) × LongEnough area.old }
    ensures { area.new ≡ blank plan.now area.old }
{
    lay_on_zeros(plan, area);
    area[0] = 0x47;
    area[1] = 0x57;
    put_low(area, PLAN_LENGTH_BYTES, plan.len());
}
