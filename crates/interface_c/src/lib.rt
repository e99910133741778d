// The calls of `interface`, exported to C: a crate is a library or a static library, so this is the second. Each export is the call of its
// name, with that call's clauses again. include/gateway.h declares the same.
#![tactic(auto)]

ghost use Rattle.std.specs.Prelude.{◌≡◌, ◌+◌, ◌≤◌, length, take, drop};
ghost use Rattle.plan.specs.Check.{check_plan};
ghost use Rattle.answers.specs.Answers.{responded_number, silence_number};
ghost use Rattle.opening.specs.Opened.{opened_answer, opened_area};
ghost use Rattle.reception.specs.Reception.{received_answer, received_area};
ghost use Rattle.polling.specs.Polling.{responded_answer, responded_area, silent_answer, silent_area};
ghost use Rattle.ticking.specs.Tick.{tick_answer, ticked_area, ticked_report};
ghost use Rattle.taking.specs.Taken.{taken_answer, taken_area, taken_payload, fullness_answer};
ghost use Rattle.interface.specs.Structs.{opened_struct, received_struct, ticked_number, id_in, taken_struct, payload_struct, fullness_struct};
ghost use Rattle.interface.specs.Back.{taken_of};

use interface::{GatewayFullness, GatewayOpened, GatewayPayload, GatewayReceived, GatewayTaken};

// Checks the plan, and fills the area.
#[unsafe(no_mangle)]
pub extern "C" fn gateway_open(plan: &[u8], area: &mut [u8]) -> GatewayOpened
    ensures answer { result ≡ opened_struct (opened_answer (check_plan plan.now) (length area.old)) }
    ensures bytes { area.new ≡
        opened_area (opened_answer (check_plan plan.now) (length area.old)) plan.now area.old }
{
    interface::gateway_open(plan, area)
}

// A frame that a CAN node received. The ID is as in SocketCAN: bit 31 set means a 29-bit ID.
#[unsafe(no_mangle)]
pub extern "C" fn gateway_receive(
    area: &mut [u8],
    node: usize,
    id: u32,
    payload: &[u8],
) -> GatewayReceived
    ensures answer { result ≡ received_struct (received_answer area.old node (id_in id) payload.now) }
    ensures bytes { area.new ≡ received_area area.old node (id_in id) payload.now }
{
    interface::gateway_receive(area, node, id, payload)
}

// A response to a request on a LIN node, with its checksum.
#[unsafe(no_mangle)]
pub extern "C" fn gateway_respond(
    area: &mut [u8],
    node: usize,
    id: u32,
    payload: &[u8],
    checksum: u8,
) -> u16
    ensures answer { result ≡ responded_number (responded_answer area.old node id payload.now checksum) }
    ensures bytes { area.new ≡ responded_area area.old node id payload.now checksum }
{
    interface::gateway_respond(area, node, id, payload, checksum)
}

// A request on a LIN node was not answered.
#[unsafe(no_mangle)]
pub extern "C" fn gateway_no_response(area: &mut [u8], node: usize, id: u32) -> u16
    ensures answer { result ≡ silence_number (silent_answer area.old node id) }
    ensures bytes { area.new ≡ silent_area area.old node id }
{
    interface::gateway_no_response(area, node, id)
}

// One tick of the clock, with a byte of the report for each Rx frame.
#[unsafe(no_mangle)]
pub extern "C" fn gateway_tick(area: &mut [u8], report: &mut [u8]) -> u16
    ensures answer { result ≡ ticked_number (tick_answer area.old report.old) }
    ensures bytes { area.new ≡ ticked_area (tick_answer area.old report.old) area.old }
    ensures report { report.new ≡
        ticked_report (tick_answer area.old report.old) area.old report.old }
{
    interface::gateway_tick(area, report)
}

// The oldest frame or request that waits on a node, which then waits no more.
#[unsafe(no_mangle)]
pub extern "C" fn gateway_take(area: &mut [u8], node: usize) -> GatewayTaken
    ensures answer { result ≡ taken_struct (taken_answer area.old node) }
    ensures bytes { area.new ≡ taken_area area.old node }
{
    interface::gateway_take(area, node)
}

// Where the payload of a frame that was taken stands in the area, and its size. `taken` is what the take answered.
#[unsafe(no_mangle)]
pub extern "C" fn gateway_payload(area: &[u8], taken: GatewayTaken) -> GatewayPayload
    ensures answer { result ≡ payload_struct (length area.now) (taken_of taken) }
    ensures part { take result.size (drop result.at area.now) ≡ taken_payload area.now (taken_of taken) }
    ensures inside { result.at + result.size ≤ length area.now }
{
    interface::gateway_payload(area, taken)
}

// How many bits of a Tx frame have an owner.
#[unsafe(no_mangle)]
pub extern "C" fn gateway_fullness(area: &[u8], tx: usize) -> GatewayFullness
    ensures answer { result ≡ fullness_struct (fullness_answer area.now tx) }
{
    interface::gateway_fullness(area, tx)
}
