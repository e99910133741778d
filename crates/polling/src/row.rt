// The Rx frame that a response, or its absence, is about.
ghost use Rattle.std.specs.Prelude.{◌≡◌, ◌<◌};
ghost use Rattle.area.specs.Layout.{LongEnough};
ghost use Rattle.polling.specs.Polling.{polled};

use area::header::node_type;
use reception::lookup::{Found, look_up};
use records::record::{Id, NodeType};

// The row of a LIN node that has an ID; there is none on any other node.
pub fn polled_row(area: &[u8], node: usize, id: u32) -> Found
    requires { (node < 16) × LongEnough area.now }
    ensures { result ≡ polled area.now node id }
{
    match node_type(area, node) {
        NodeType::Lin => look_up(area, node, Id::Standard(id as usize)),
        NodeType::Can => Found::Nothing { place: 0 },
    }
}
