// What the calls answer.
#![tactic(auto)]

ghost use Rattle.std.specs.Prelude.{◌≡◌};
ghost use Rattle.plan.specs.Refusals.{number_of};
ghost use Rattle.answers.specs.declared.Refusal.TheVariants.{Plan};
ghost use Rattle.answers.specs.Answers.{refusal_number};

use plan::verdict::{BadRecord, Reason};
use records::record::{Id, RxNumber, TxNumber};

// Why a call is refused.
#[derive(Clone, Copy, Debug, PartialEq, Eq)]
pub enum Refusal {
    // 1 to 9: the plan is refused
    Plan(Reason),
    // 10: the plan is good and the area is shorter than 32,768 bytes
    ShortArea,
    // 11: the area is shorter than 32,768 bytes or does not begin with hex 47 57
    NotOpen,
    // 12: no such node
    NoNode,
    // 13: a received payload is longer than 8 bytes
    LongPayload,
    // 14: the report is shorter than the Rx frame count
    ShortReport,
    // 15: no such Tx frame
    NoFrame,
    // 16: a call for a LIN node where the node is none or has no such Rx frame, or the other reception on a LIN node
    WrongCall,
}

impl Refusal {
    // Document 01's number of a refusal.
    #[tactic(auto, unfolding(crate::specs::Answers::refusal_number))]
    pub fn number(self) -> usize
        ensures { result ≡ refusal_number self }
    {
        match self {
            Refusal::Plan(reason) => reason_number(reason),
            Refusal::ShortArea => 10,
            Refusal::NotOpen => 11,
            Refusal::NoNode => 12,
            Refusal::LongPayload => 13,
            Refusal::ShortReport => 14,
            Refusal::NoFrame => 15,
            Refusal::WrongCall => 16,
        }
    }
}

impl From<Reason> for Refusal {
    ghost from_gives = { λ reason why. why ≡ Plan reason };

    fn from(reason: Reason) -> Refusal {
        Refusal::Plan(reason)
    }
}

// A plan that is not opened: why, and the number of the record that is refused; 0 where the area is short.
#[derive(Clone, Copy, Debug, PartialEq, Eq)]
pub struct RefusedPlan {
    pub why: Refusal,
    pub record_number: usize,
}

impl From<BadRecord> for RefusedPlan {
    ghost from_gives = { λ bad refused. refused ≡ record { why = Plan bad.reason; record_number = bad.record_number } };

    fn from(bad: BadRecord) -> RefusedPlan {
        RefusedPlan {
            why: Refusal::from(bad.reason),
            record_number: bad.record_number,
        }
    }
}

// What a reception does.
#[derive(Clone, Copy, Debug, PartialEq, Eq)]
pub enum Received {
    // 0
    Accepted,
    // 1: a frame with no matching row; `place` of that node's rows have a smaller ID
    NoRow { place: usize },
    // 2: a payload shorter than the row's size
    TooShort,
}

// What a response on LIN does.
#[derive(Clone, Copy, Debug, PartialEq, Eq)]
pub enum Responded {
    // 0
    Accepted,
    // 2: a payload shorter than the row's size
    TooShort,
    // 3: the checksum is not that of the protected identifier and the payload
    WrongSum,
}

// The timeout of an Rx frame, as a report says it.
#[derive(Clone, Copy, Debug, PartialEq, Eq)]
pub enum Timeout {
    // 1
    Short,
    // 2
    Long,
}

// What is sent with a frame: nothing on CAN; on LIN the protected identifier and the checksum of the payload.
#[derive(Clone, Copy, Debug, PartialEq, Eq)]
pub enum Framing {
    Can,
    Lin { protected: u8, checksum: u8 },
}

#[derive(Clone, Copy, Debug, PartialEq, Eq)]
pub struct TakenFrame {
    pub tx: TxNumber,
    pub id: Id,
    pub size: usize,
    // how many still wait on that node
    pub waiting: usize,
    pub framing: Framing,
}

// A request for an Rx frame of a LIN node, which has no payload.
#[derive(Clone, Copy, Debug, PartialEq, Eq)]
pub struct TakenRequest {
    pub rx: RxNumber,
    pub id: Id,
    pub size: usize,
    pub waiting: usize,
    pub protected: u8,
}

// What leaves a node's queue.
#[derive(Clone, Copy, Debug, PartialEq, Eq)]
pub enum Taken {
    Frame(TakenFrame),
    Request(TakenRequest),
}

#[tactic(auto, unfolding(plan::specs::Refusals::number_of))]
fn reason_number(why: Reason) -> usize
    ensures { result ≡ number_of why }
{
    match why {
        Reason::Short => 1,
        Reason::Kind => 2,
        Reason::Place => 3,
        Reason::Count => 4,
        Reason::Range => 5,
        Reason::Order => 6,
        Reason::Data => 7,
        Reason::Owner => 8,
        Reason::Indicator => 9,
    }
}
