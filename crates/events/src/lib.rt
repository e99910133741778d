// The bench program's input: where the plan ends, the event at a place, and the payload that a reception or a response hands on.
#![tactic(auto)]

ghost use Rattle.std.specs.Prelude.{◌≡◌, ◌+◌, ◌≤◌, ◌<◌, length};
ghost use Rattle.base.specs.Numbers.{byte_at, two_at};
ghost use Rattle.events.specs.Events.{KindOf, byte_of, front_of, event_length, whole_event, event_at, payload_at, Inside, Within};

use records::record::Id;

// The kinds of event records, each a byte.
#[derive(Clone, Copy, Debug, PartialEq, Eq)]
pub enum Kind {
    // 16
    Reception,
    // 17
    Tick,
    // 18
    Take,
    // 19
    ExtendedReception,
    // 20
    Response,
    // 21
    NoResponse,
}

// A byte that is no kind.
#[derive(Clone, Copy, Debug, PartialEq, Eq)]
pub struct UnknownKind(pub u8);

impl TryFrom<u8> for Kind {
    type Error = UnknownKind;

    ghost try_from_gives = { KindOf };

    fn try_from(byte: u8) -> Result<Kind, UnknownKind> {
        match byte {
            16 => Ok(Kind::Reception),
            17 => Ok(Kind::Tick),
            18 => Ok(Kind::Take),
            19 => Ok(Kind::ExtendedReception),
            20 => Ok(Kind::Response),
            21 => Ok(Kind::NoResponse),
            _ => Err(UnknownKind(byte)),
        }
    }
}

impl Kind {
    // How many bytes an event record of a kind has, its kind byte among them.
    #[tactic(auto, unfolding(crate::specs::Events::event_length, base::specs::Pick::pick))]
    fn length(self) -> usize
        ensures { (result ≡ event_length (byte_of self)) × (result ≤ 15) }
    {
        match self {
            Kind::Reception => 13,
            Kind::Tick => 1,
            Kind::Take => 2,
            Kind::ExtendedReception => 15,
            Kind::Response => 14,
            Kind::NoResponse => 4,
        }
    }
}

#[derive(Clone, Copy, Debug, PartialEq, Eq)]
pub enum Event {
    // of kind 16 or, with a 29-bit ID, 19; the data stand by place: eight bytes behind the length, which follows the ID
    Reception {
        node: usize,
        id: Id,
        length: usize,
    },
    Tick,
    Take {
        node: usize,
    },
    // from a LIN node; the data as in a reception, the checksum behind them
    Response {
        node: usize,
        id: usize,
        length: usize,
        sum: u8,
    },
    NoResponse {
        node: usize,
        id: usize,
    },
    // cut, or of an unknown kind
    Bad,
}

// Where the plan ends and the events begin, with the fact that this is within the input; none where the input is bad. The plan is the input from 2 to there.
#[tactic(auto, unfolding(crate::specs::Events::front_of, base::specs::Pick::pick))]
pub fn front_of(input: &[u8]) -> Option<usize>
    ensures front { result ≡ front_of input.now }
    ensures inside { Inside input.now result }
{
    if 65536 < input.len() {
        return None;
    }
    if input.len() < 2 {
        return None;
    }
    let end = 2 + base::two_at(input, 0);
    if input.len() < end {
        return None;
    }
    Some(end)
}

// What records say behind their kind: the node, the ID.
fn node_at(input: &[u8], at: usize) -> usize
    requires { at + 2 ≤ length input.now }
    ensures { result ≡ byte_at input.now (at + 1) }
{
    usize::from(input[at + 1])
}

fn id_at(input: &[u8], at: usize) -> usize
    requires { at + 4 ≤ length input.now }
    ensures { result ≡ two_at input.now (at + 2) }
{
    base::two_at(input, at + 2)
}

// An event record of a kind that is whole.
#[tactic(auto, unfolding(crate::specs::Events::event_length, crate::specs::Events::whole_event, base::specs::Pick::pick))]
fn whole_event(kind: Kind, input: &[u8], at: usize) -> Event
    requires { at + event_length (byte_of kind) ≤ length input.now }
    ensures { result ≡ whole_event (byte_of kind) input.now at }
{
    match kind {
        Kind::Reception => Event::Reception {
            node: node_at(input, at),
            id: Id::Standard(id_at(input, at)),
            length: usize::from(input[at + 4]),
        },
        Kind::Tick => Event::Tick,
        Kind::Take => Event::Take {
            node: node_at(input, at),
        },
        Kind::ExtendedReception => Event::Reception {
            node: node_at(input, at),
            id: Id::Extended(base::four_at(input, at + 2)),
            length: usize::from(input[at + 6]),
        },
        Kind::Response => Event::Response {
            node: node_at(input, at),
            id: id_at(input, at),
            length: usize::from(input[at + 4]),
            sum: input[at + 13],
        },
        Kind::NoResponse => Event::NoResponse {
            node: node_at(input, at),
            id: id_at(input, at),
        },
    }
}

// The event at a place, with the fact that it lies within the input; none at the input's end.
#[tactic(auto, using(crate::proofs::EventLaws::event_end, crate::proofs::EventLaws::event_cut, crate::proofs::EventLaws::event_whole, crate::proofs::EventLaws::event_unknown))]
pub fn event_at(input: &[u8], at: usize) -> Option<Event>
    ensures event { result ≡ event_at input.now at }
    ensures within { Within input.now at result }
{
    if input.len() <= at {
        return None;
    }
    let Ok(kind) = Kind::try_from(input[at]) else {
        return Some(Event::Bad);
    };
    if input.len() - at < kind.length() {
        return Some(Event::Bad);
    }
    Some(whole_event(kind, input, at))
}

// The payload that a reception or a response hands on whose length stands at `at`.
#[tactic(auto, unfolding(crate::specs::Events::payload_at, base::specs::Pick::pick))]
pub fn payload_at(input: &[u8], at: usize) -> &[u8]
    requires { at + 9 ≤ length input.now }
    ensures { (result.now ≡ payload_at input.now at) × (length result.now ≤ 9) }
{
    let length = usize::from(input[at]);
    if 8 < length {
        return &[0u8; 9];
    }
    let start = at + 1;
    let end = start + length;
    &input[start..end]
}
