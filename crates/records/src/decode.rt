// The record that stands at a place of a plan.
ghost use Rattle.std.specs.Prelude.{◌≡◌, ◌+◌, ◌≤◌, ◌<◌, length};
ghost use Rattle.records.specs.Ids.{behind_id};
ghost use Rattle.records.specs.Kinds.{tx_fields, rx_fields, length_of, stage_of_kind, eight_at, tx_at, rx_at, tx_record, rx_record, fields_at};
ghost use Rattle.records.specs.KindBytes.{byte_of};
ghost use Rattle.records.specs.Kinds.{fault_stage, stage_of};
ghost use Rattle.records.specs.Reading.{step_at, follower_at};
ghost use Rattle.records.specs.declared.record.Record.TheVariants.{Signal, Destination};

use crate::kind::Kind;
use crate::record::{
    DestinationBody, Fault, Follower, Id, NodeBody, Record, RxFrame, SignalBody, TxFrame, TxNumber,
};

fn eight_at(plan: &[u8], at: usize) -> [u8; 8]
    requires { at + 8 ≤ length plan.now }
    ensures { result ≡ eight_at plan.now at }
{
    match plan[at..at + 8].first_chunk() {
        Some(eight) => *eight,
        None => unreachable!(),
    }
}

// The Tx frame of a node and an ID whose fields behind the ID begin at a place, and so the Rx frame.
#[tactic(auto, unfolding(crate::specs::Kinds::tx_at))]
fn tx_at(node: u8, id: Id, plan: &[u8], at: usize) -> TxFrame
    requires { at + tx_fields ≤ length plan.now }
    ensures { result ≡ tx_at node id plan.now at }
{
    let payload = eight_at(plan, at + 5);
    TxFrame {
        node,
        id,
        size: plan[at],
        prescaler: plan[at + 1],
        reload: plan[at + 2],
        initial: plan[at + 3],
        flags: plan[at + 4],
        payload,
    }
}

#[tactic(auto, unfolding(crate::specs::Kinds::rx_at))]
fn rx_at(node: u8, id: Id, plan: &[u8], at: usize) -> RxFrame
    requires { at + rx_fields ≤ length plan.now }
    ensures { result ≡ rx_at node id plan.now at }
{
    RxFrame {
        node,
        id,
        size: plan[at],
        prescaler: plan[at + 1],
        reload: plan[at + 2],
        initial: plan[at + 3],
        enable: plan[at + 4],
        position: plan[at + 5],
        long: plan[at + 6],
    }
}

// The records of both, with their ID.
#[tactic(auto, unfolding(crate::specs::Kinds::tx_record))]
fn tx_record(id: Id, plan: &[u8], at: usize) -> Record
    requires { at + behind_id id + tx_fields ≤ length plan.now }
    ensures { result ≡ tx_record id plan.now at }
{
    let fields = at + id.behind();
    Record::Tx(tx_at(plan[at + 1], id, plan, fields))
}

#[tactic(auto, unfolding(crate::specs::Kinds::rx_record))]
fn rx_record(id: Id, plan: &[u8], at: usize) -> Record
    requires { at + behind_id id + rx_fields ≤ length plan.now }
    ensures { result ≡ rx_record id plan.now at }
{
    let fields = at + id.behind();
    Record::Rx(rx_at(plan[at + 1], id, plan, fields))
}

#[tactic(auto, unfolding(crate::specs::Kinds::fields_at, crate::specs::Kinds::form_of, base::specs::Pick::pick))]
fn signal_at(plan: &[u8], at: usize) -> SignalBody
    requires { at + 3 ≤ length plan.now }
    ensures { Signal result ≡ fields_at 5 plan.now at }
{
    SignalBody {
        position: plan[at + 1],
        size: plan[at + 2],
    }
}

#[tactic(auto, unfolding(crate::specs::Kinds::fields_at, crate::specs::Kinds::form_of, base::specs::Pick::pick))]
fn destination_at(plan: &[u8], at: usize) -> DestinationBody
    requires { at + 4 ≤ length plan.now }
    ensures { Destination result ≡ fields_at 6 plan.now at }
{
    DestinationBody {
        tx: TxNumber(base::two_at(plan, at + 1)),
        position: plan[at + 3],
    }
}

// ---- the stages of a plan, in the order in which a plan goes through them

pub const HEAD_STAGE: u8 = 1;

pub const NODE_STAGE: u8 = 2;

pub const TX_STAGE: u8 = 3;

pub const RX_STAGE: u8 = 4;

pub const SIGNAL_STAGE: u8 = 5;

pub const DESTINATION_STAGE: u8 = 6;

// ---- the table of kinds: how many bytes a kind has, which stage it belongs to, and what its fields are

// The kinds that a walk along the records of a row tells apart.
pub const SIGNAL_KIND: u8 = 5;

pub const DESTINATION_KIND: u8 = 6;

// How many bytes a record has, its kind byte among them.
pub const HEAD_BYTES: usize = 2;

pub const NODE_BYTES: usize = 2;

// of a frame, its fields behind the ID
pub const TX_FIELDS: usize = 13;

pub const RX_FIELDS: usize = 7;

pub const SIGNAL_BYTES: usize = 3;

pub const DESTINATION_BYTES: usize = 4;

// The same by the kind byte; 0 where there is no such kind.
pub fn length_of(kind: u8) -> usize
    ensures { (result ≡ length_of kind) × (result ≤ 19) }
{
    match Kind::try_from(kind) {
        Ok(kind) => kind.length(),
        Err(_) => 0,
    }
}

// The stage of a kind; 0 where there is no such kind.
fn stage_of_kind(kind: u8) -> u8
    ensures { result ≡ stage_of_kind kind }
{
    match Kind::try_from(kind) {
        Ok(kind) => kind.stage(),
        Err(_) => 0,
    }
}

// A record of a kind that is whole. Each kind returns it, since one exit for all took 24 instructions more a record.
#[tactic(auto, unfolding(crate::specs::Kinds::fields_at, crate::specs::Kinds::length_of, crate::specs::Ids::behind_id, crate::specs::Kinds::form_of, base::specs::Pick::pick))]
fn fields_at(kind: Kind, plan: &[u8], at: usize) -> Record
    requires { at + length_of (byte_of kind) ≤ length plan.now }
    ensures { result ≡ fields_at (byte_of kind) plan.now at }
{
    match kind {
        Kind::Head => {
            return Record::Head {
                order: plan[at + 1],
            };
        }
        Kind::Node => return Record::Node(NodeBody { of: plan[at + 1] }),
        Kind::Tx => return tx_record(Id::Standard(base::two_at(plan, at + 2)), plan, at),
        Kind::Rx => return rx_record(Id::Standard(base::two_at(plan, at + 2)), plan, at),
        Kind::Signal => return Record::Signal(signal_at(plan, at)),
        Kind::Destination => return Record::Destination(destination_at(plan, at)),
        Kind::ExtendedTx => return tx_record(Id::Extended(base::four_at(plan, at + 2)), plan, at),
        Kind::ExtendedRx => return rx_record(Id::Extended(base::four_at(plan, at + 2)), plan, at),
    }
}

// The stage of a record, which one that is cut short has by its kind byte; 0 where that is no kind, and at the end.
#[tactic(auto, unfolding(crate::specs::Kinds::stage_of))]
pub fn stage_of(r: Record) -> u8
    ensures { result ≡ stage_of r }
{
    match r {
        Record::Head { order: _ } => HEAD_STAGE,
        Record::Node(_) => NODE_STAGE,
        Record::Tx(_) => TX_STAGE,
        Record::Rx(_) => RX_STAGE,
        Record::Signal(_) => SIGNAL_STAGE,
        Record::Destination(_) => DESTINATION_STAGE,
        Record::Broken(fault) => fault_stage(fault),
    }
}

fn fault_stage(fault: Fault) -> u8
    ensures { result ≡ fault_stage fault }
{
    if let Fault::Cut { kind } = fault {
        return stage_of_kind(kind);
    }
    0
}

// A record, and the place behind it.
#[derive(Clone, Copy, Debug, PartialEq, Eq)]
pub struct Step {
    pub found: Record,
    pub next: usize,
}

// The record at a place. Behind one that is bad or cut a reader finds the byte after its kind byte, and at the end it stays.
pub fn step_at(plan: &[u8], at: usize) -> Step
    ensures { result ≡ step_at plan.now at }
{
    if plan.len() <= at {
        return Step {
            found: Record::Broken(Fault::End),
            next: at,
        };
    }
    let byte = plan[at];
    let Ok(kind) = Kind::try_from(byte) else {
        return Step {
            found: Record::Broken(Fault::BadKind),
            next: at + 1,
        };
    };
    let size = kind.length();
    if plan.len() - at < size {
        return Step {
            found: Record::Broken(Fault::Cut { kind: byte }),
            next: at + 1,
        };
    }
    let found = fields_at(kind, plan, at);
    Step {
        found,
        next: at + size,
    }
}

// The signal or destination at a place, where one stands there whole. Most records of a plan are such, and a caller that asks for them alone
// has their few fields at hand, where a record of any kind has room for a Tx frame.
pub fn follower_at(plan: &[u8], at: usize) -> Follower
    requires { at < length plan.now }
    ensures { result ≡ follower_at plan.now at }
{
    let kind = plan[at];
    let left = plan.len() - at;
    if kind == 6 {
        if left < DESTINATION_BYTES {
            return Follower::Other;
        }
        return Follower::Destination(destination_at(plan, at));
    }
    if kind == 5 {
        if left < SIGNAL_BYTES {
            return Follower::Other;
        }
        return Follower::Signal(signal_at(plan, at));
    }
    Follower::Other
}
