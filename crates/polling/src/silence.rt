// That no response came.
ghost use Rattle.std.specs.Prelude.{◌≡◌};
ghost use Rattle.polling.specs.Polling.{silent_answer, silent_area};

use crate::row::polled_row;
use answers::{Refusal, Timeout};
use area::guards::{check_node, check_open};
use area::layout::row_in_range;
use reception::lookup::Found;
use ticking::expiry::expire;

// An Rx frame of a LIN node did not come: a timeout, as the expiry of a CAN frame's timer is one. The answer is what a report would say.
pub fn no_response(area: &mut [u8], node: usize, id: u32) -> Result<Timeout, Refusal>
    ensures answer { result ≡ silent_answer area.old node id }
    ensures bytes { area.new ≡ silent_area area.old node id }
{
    check_open(area)?;
    check_node(area, node)?;
    let found = polled_row(area, node, id);
    let Found::At(r) = found else {
        return Err(Refusal::WrongCall);
    };
    Ok(expire(area, row_in_range(r)))
}
