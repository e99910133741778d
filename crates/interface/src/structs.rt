// What C is answered: a struct for each call, and how it is made of the call's answer. specs/Structs.antt says what stands in each field.
ghost use Rattle.std.specs.Prelude.{◌≡◌, ◌%◌, Some, Ok};
ghost use Rattle.answers.specs.declared.Taken.TheVariants.{Frame, Request};
ghost use Rattle.answers.specs.Answers.{refusal_number, responded_number, silence_number};
ghost use Rattle.interface.specs.Structs.{opened_struct, received_struct, ticked_number, payload_struct, fullness_struct};
ghost use Rattle.interface.specs.Structs.{id_in, word_of, protected_in, checksum_in, nothing_taken, taken_struct};
ghost use Rattle.interface.specs.Back.{taken_of};

use answers::{
    Framing, Received, Refusal, RefusedPlan, Responded, Taken, TakenFrame, TakenRequest, Timeout,
};
use area::layout;
use area::layout::{AREA_LENGTH, in_width};
use base::at_most;
use plan::verdict::PlanCounts;
use records::record::{FORMAT_BIT, Id, TxNumber};

#[repr(C)]
#[derive(Clone, Copy, Debug, PartialEq, Eq)]
pub struct GatewayOpened {
    pub number: u16,
    pub record: u16,
    pub nodes: u16,
    pub tx: u16,
    pub rx: u16,
}

#[repr(C)]
#[derive(Clone, Copy, Debug, PartialEq, Eq)]
pub struct GatewayReceived {
    pub number: u16,
    pub place: u16,
}

#[repr(C)]
#[derive(Clone, Copy, Debug, PartialEq, Eq)]
pub struct GatewayTaken {
    pub number: u16,
    pub kind: u8,
    pub size: u8,
    pub tx: u16,
    pub rx: u16,
    pub id: u32,
    pub waiting: u16,
    pub protected_id: u8,
    pub checksum: u8,
}

#[repr(C)]
#[derive(Clone, Copy, Debug, PartialEq, Eq)]
pub struct GatewayPayload {
    pub at: u16,
    pub size: u16,
}

#[repr(C)]
#[derive(Clone, Copy, Debug, PartialEq, Eq)]
pub struct GatewayFullness {
    pub number: u16,
    pub bits: u16,
}

// Document 01's number of a refusal.
fn refusal_number(why: Refusal) -> u16
    ensures { result ≡ refusal_number why }
{
    (why.number() % 65536) as u16
}

// The lowest 16 bits.
fn low(n: usize) -> u16
    ensures { result ≡ n % 65536 }
{
    (n % 65536) as u16
}

// The record's number comes into range by a comparison: with a remainder the compiler counts the records in 16 bits, which takes longer.
#[tactic(auto, unfolding(crate::specs::Structs::opened_struct))]
pub fn opened_struct(answer: Result<PlanCounts, RefusedPlan>) -> GatewayOpened
    ensures { result ≡ opened_struct answer }
{
    match answer {
        Ok(counts) => GatewayOpened {
            number: 0,
            record: 0,
            nodes: low(counts.nodes),
            tx: low(counts.tx),
            rx: low(counts.rx),
        },
        Err(refused) => GatewayOpened {
            number: refusal_number(refused.why),
            record: at_most(65535, refused.record_number) as u16,
            nodes: 0,
            tx: 0,
            rx: 0,
        },
    }
}

#[tactic(auto, unfolding(crate::specs::Structs::received_struct, answers::specs::Answers::received_number))]
pub fn received_struct(answer: Result<Received, Refusal>) -> GatewayReceived
    ensures { result ≡ received_struct answer }
{
    match answer {
        Ok(Received::Accepted) => GatewayReceived {
            number: 0,
            place: 0,
        },
        Ok(Received::NoRow { place }) => GatewayReceived {
            number: 1,
            place: low(place),
        },
        Ok(Received::TooShort) => GatewayReceived {
            number: 2,
            place: 0,
        },
        Err(why) => GatewayReceived {
            number: refusal_number(why),
            place: 0,
        },
    }
}

#[tactic(auto, unfolding(crate::specs::Structs::ticked_number))]
pub fn ticked_number(answer: Result<(), Refusal>) -> u16
    ensures { result ≡ ticked_number answer }
{
    match answer {
        Ok(()) => 0,
        Err(why) => refusal_number(why),
    }
}

#[tactic(auto, unfolding(answers::specs::Answers::responded_number))]
pub fn responded_number(answer: Result<Responded, Refusal>) -> u16
    ensures { result ≡ responded_number answer }
{
    match answer {
        Ok(Responded::Accepted) => 0,
        Ok(Responded::TooShort) => 2,
        Ok(Responded::WrongSum) => 3,
        Err(why) => refusal_number(why),
    }
}

#[tactic(auto, unfolding(answers::specs::Answers::silence_number))]
pub fn silence_number(answer: Result<Timeout, Refusal>) -> u16
    ensures { result ≡ silence_number answer }
{
    match answer {
        Ok(Timeout::Short) => 1,
        Ok(Timeout::Long) => 2,
        Err(why) => refusal_number(why),
    }
}

// A take of neither a frame nor a request: nothing waits, or the take was refused.
#[tactic(auto, unfolding(crate::specs::Structs::nothing_taken))]
fn nothing_taken(number: u16) -> GatewayTaken
    ensures { result ≡ nothing_taken number }
{
    GatewayTaken {
        number,
        kind: 0,
        size: 0,
        tx: 0,
        rx: 0,
        id: 0,
        waiting: 0,
        protected_id: 0,
        checksum: 0,
    }
}

#[tactic(auto, unfolding(crate::specs::Structs::protected_in))]
fn protected_in(framing: Framing) -> u8
    ensures { result ≡ protected_in framing }
{
    match framing {
        Framing::Can => 0,
        Framing::Lin {
            protected,
            checksum: _,
        } => protected,
    }
}

#[tactic(auto, unfolding(crate::specs::Structs::checksum_in))]
fn checksum_in(framing: Framing) -> u8
    ensures { result ≡ checksum_in framing }
{
    match framing {
        Framing::Can => 0,
        Framing::Lin {
            protected: _,
            checksum,
        } => checksum,
    }
}

// The ID that a SocketCAN identifier stands for.
pub fn id_in(word: u32) -> Id
    ensures { result ≡ id_in word }
{
    // the same number in both branches: the compiler sees that the key is the word
    let number = word as usize % FORMAT_BIT;
    if (word as usize) < FORMAT_BIT {
        return Id::Standard(number);
    }
    Id::Extended(number)
}

// An ID as such an identifier.
#[tactic(auto, unfolding(crate::specs::Structs::word_of))]
fn word_of(id: Id) -> u32
    ensures { result ≡ word_of id }
{
    match id {
        Id::Standard(n) => (n % FORMAT_BIT) as u32,
        Id::Extended(n) => (FORMAT_BIT + n % FORMAT_BIT) as u32,
    }
}

#[tactic(auto, unfolding(crate::specs::Structs::taken_struct))]
pub fn taken_struct(answer: Result<Option<Taken>, Refusal>) -> GatewayTaken
    ensures { result ≡ taken_struct answer }
{
    match answer {
        Ok(Some(Taken::Frame(frame))) => frame_struct(frame),
        Ok(Some(Taken::Request(request))) => request_struct(request),
        Ok(None) => nothing_taken(0),
        Err(why) => nothing_taken(refusal_number(why)),
    }
}

#[tactic(auto, unfolding(crate::specs::Structs::taken_struct))]
fn frame_struct(frame: TakenFrame) -> GatewayTaken
    ensures { result ≡ taken_struct (Ok (Some (Frame frame))) }
{
    let protected_id = protected_in(frame.framing);
    let checksum = checksum_in(frame.framing);
    GatewayTaken {
        number: 0,
        kind: 1,
        size: (frame.size % 256) as u8,
        tx: low(frame.tx.0),
        rx: 0,
        id: word_of(frame.id),
        waiting: low(frame.waiting),
        protected_id,
        checksum,
    }
}

#[tactic(auto, unfolding(crate::specs::Structs::taken_struct))]
fn request_struct(request: TakenRequest) -> GatewayTaken
    ensures { result ≡ taken_struct (Ok (Some (Request request))) }
{
    GatewayTaken {
        number: 0,
        kind: 2,
        size: (request.size % 256) as u8,
        tx: 0,
        rx: low(request.rx.0),
        id: word_of(request.id),
        waiting: low(request.waiting),
        protected_id: request.protected,
        checksum: 0,
    }
}

#[tactic(auto, unfolding(crate::specs::Structs::fullness_struct))]
pub fn fullness_struct(answer: Result<usize, Refusal>) -> GatewayFullness
    ensures { result ≡ fullness_struct answer }
{
    match answer {
        Ok(n) => GatewayFullness {
            number: 0,
            bits: low(n),
        },
        Err(why) => GatewayFullness {
            number: refusal_number(why),
            bits: 0,
        },
    }
}

// Of an area of `length` bytes, the part that is the payload of what a take's struct says.
pub fn payload_struct(length: usize, taken: GatewayTaken) -> GatewayPayload
    ensures { result ≡ payload_struct length (taken_of taken) }
{
    if taken.kind == 1 {
        if AREA_LENGTH <= length {
            let at = layout::payload(TxNumber((taken.tx % 256) as usize));
            let size = in_width(taken.size as usize);
            return GatewayPayload {
                at: at as u16,
                size: size as u16,
            };
        }
    }
    GatewayPayload { at: 0, size: 0 }
}
