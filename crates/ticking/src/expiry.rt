// What the expiry of an Rx timer does: on a LIN node it asks for the frame, on any other it is a timeout.
ghost use Rattle.std.specs.Prelude.{◌≡◌, ◌<◌};
ghost use Rattle.area.specs.Layout.{LongEnough};
ghost use Rattle.ticking.specs.Tick.{timed_out, report_number, expired_area, rx_expiry, expiry_report};

use answers::Timeout;
use area::claims::write_failure_in;
use area::frames::{home_node, rx_fields_place, rx_long};
use area::header::{self, node_type};
use area::layout::{REQUESTS_START, long};
use area::queue::request;
use records::record::{NodeType, RxNumber};

// Rx timer `r` has expired. On a LIN node that is no timeout.
pub fn expiry(area: &mut [u8], r: RxNumber) -> Option<Timeout>
    requires { (r.0 < 256) × LongEnough area.old }
    ensures report { report_number result ≡ expiry_report area.old r.0 }
    ensures bytes { area.new ≡ rx_expiry area.old r.0 }
{
    let node = home_node(area, REQUESTS_START + r.0);
    match node_type(area, node) {
        NodeType::Lin => {
            request(area, r);
            None
        }
        NodeType::Can => Some(expire(area, r)),
    }
}

// A timeout of Rx frame `r`: the failure bit is set, and the long counter falls and takes the long count again at 0, which is a long one.
pub fn expire(area: &mut [u8], r: RxNumber) -> Timeout
    requires { (r.0 < 256) × LongEnough area.old }
    ensures timeout { result ≡ timed_out area.old r.0 }
    ensures bytes { area.new ≡ expired_area area.old r.0 }
{
    let order = header::order(area);
    let at = rx_fields_place(area, r);
    let most = rx_long(area, at);
    let counter = long(r);
    let count = area[counter];
    write_failure_in(order, 1, area, at);
    area[counter] = clock::timer::lower(most, count);
    if count == 1 {
        return Timeout::Long;
    }
    Timeout::Short
}

// The byte of a report.
#[tactic(auto, unfolding(crate::specs::Tick::report_number))]
pub fn report_byte(timeout: Option<Timeout>) -> u8
    ensures { result ≡ report_number timeout }
{
    match timeout {
        None => 0,
        Some(Timeout::Short) => 1,
        Some(Timeout::Long) => 2,
    }
}
