// The check of a plan, from its first record to the first bad one or the end.
#![tactic(auto, unfolding(crate::specs::Progress::start, crate::specs::Check::ended, crate::specs::Check::judged, crate::specs::Check::need, crate::specs::Check::fault_reason, base::specs::Pick::pick, crate::specs::Tests::is_kind, crate::specs::Tests::is_whole, crate::specs::Tests::followed, crate::specs::Check::sizes_after, crate::specs::Check::sets_after, records::specs::Kinds::stage_of, records::specs::Reading::follower_of))]

ghost use Rattle.std.specs.Prelude.{◌≡◌, [], length, replicate};
ghost use Rattle.records.specs.declared.record.Record.TheVariants.{Signal, Destination};
ghost use Rattle.records.specs.declared.record.Follower.TheVariants.{Other};
ghost use Rattle.records.specs.Reading.{follower_of};
ghost use Rattle.plan.specs.declared.verdict.Reason.TheVariants.{Indicator};
ghost use Rattle.plan.specs.Limits.{most_tx};
ghost use Rattle.plan.specs.Progress.{start};
ghost use Rattle.plan.specs.Tests.{followed};
ghost use Rattle.plan.specs.Check.{required, fault_reason, judged, ended, check_plan, sets_of};
ghost use Rattle.plan.specs.Motion.{Fair, Tables, sizes_then, sets_then};

use crate::limits::MOST_TX;
use crate::progress::{Progress, RowSoFar};
use crate::verdict::{BadRecord, PlanCounts, Reason};
use records::decode::{
    DESTINATION_BYTES, DESTINATION_STAGE, SIGNAL_BYTES, SIGNAL_STAGE, follower_at, stage_of,
};
use records::reader::read_record;
use records::record::{DestinationBody, Fault, Follower, Record, SignalBody};

// A cut record is too short; at any other fault there is no kind.
fn fault_reason(fault: Fault) -> Reason
    ensures { result ≡ fault_reason fault }
{
    if let Fault::Cut { kind: _ } = fault {
        return Reason::Short;
    }
    Reason::Kind
}

// Whether the record that an enabled indicator awaits is of this stage, or none is awaited.
fn is_followed(row: RowSoFar, stage: u8) -> bool
    ensures { result ≡ followed row stage }
{
    (row.awaits == 0) | (row.awaits == stage)
}

// A missing follower is refused by the number of the Rx frame's record.
fn require_follower(row: RowSoFar, stage: u8) -> Result<(), BadRecord>
    ensures { result ≡ required (followed row stage) Indicator row.source }
{
    if is_followed(row, stage) {
        Ok(())
    } else {
        Err(BadRecord {
            reason: Reason::Indicator,
            record_number: row.source,
        })
    }
}

// One record: the missing follower first, then what the kind asks. Each kind's step is called at one place, so that it becomes part of the loop.
fn judge_signal(p: Progress, body: SignalBody) -> Result<Progress, BadRecord>
    requires { Fair p }
    ensures { result ≡ judged p [] [] (Signal body) }
{
    require_follower(p.row, SIGNAL_STAGE)?;
    p.signal_step(body)
}

fn judge_destination(
    p: Progress,
    body: DestinationBody,
    sizes: &[u8],
    sets: &mut [u64],
) -> Result<Progress, BadRecord>
    requires { (Fair p) × (Tables sizes.now) × (length sets.old ≡ most_tx) }
    ensures next { result ≡ judged p sizes.now sets.old (Destination body) }
    ensures sets { sets.new ≡ sets_then result p sets.old (Destination body) }
{
    require_follower(p.row, DESTINATION_STAGE)?;
    p.destination_step(body, sizes, sets)
}

// A record that is no signal and no destination.
fn judge_other(p: Progress, r: Record, sizes: &mut [u8]) -> Result<Progress, BadRecord>
    requires { (Fair p) × (Tables sizes.old) × (follower_of r ≡ Other) }
    ensures next { result ≡ judged p [] [] r }
    ensures sizes { (sizes.new ≡ sizes_then result p sizes.old r) × (Tables sizes.new) }
{
    require_follower(p.row, stage_of(r))?;
    match r {
        Record::Head { order } => p.head_step(order),
        Record::Node(body) => p.node_step(body),
        Record::Tx(frame) => p.tx_step(frame, sizes),
        Record::Rx(frame) => p.rx_step(frame),
        Record::Broken(fault) => Err(p.refuse(fault_reason(fault))),
        // these two are judged above, and do not come here
        Record::Signal(_) | Record::Destination(_) => Err(p.refuse(Reason::Kind)),
    }
}

// At the plan's end.
fn end(p: Progress) -> Result<PlanCounts, BadRecord>
    ensures { result ≡ ended p }
{
    require_follower(p.row, 0)?;
    if p.number == 0 {
        return Err(BadRecord {
            reason: Reason::Short,
            record_number: 0,
        });
    }
    let counts = p.counts;
    Ok(PlanCounts {
        nodes: counts.nodes,
        tx: counts.tx,
        rx: counts.rx,
    })
}

fn begin() -> Progress
    ensures { result ≡ start }
{
    Progress::default()
}

// Whether a plan is good, with its counts; or why it is refused, with the number of the record. `sets` becomes the sets of owned bits, one for
// each Tx frame, that the check joined.
pub fn check_with(plan: &[u8], sets: &mut [u64]) -> Result<PlanCounts, BadRecord>
    requires { sets.old ≡ replicate most_tx 0 }
    ensures verdict { result ≡ check_plan plan.now }
    ensures sets { sets.new ≡ sets_of plan.now }
{
    let mut sizes = [0u8; MOST_TX];
    let mut p = begin();
    let mut at = 0;
    // by match: `?` moves the progress once more at each record
    while at < plan.len() {
        let follower = follower_at(plan, at);
        match follower {
            Follower::Signal(body) => {
                let next = judge_signal(p, body);
                match next {
                    Ok(q) => {
                        p = q;
                        at = at + SIGNAL_BYTES;
                    }
                    Err(bad) => return Err(bad),
                }
            }
            Follower::Destination(body) => {
                let next = judge_destination(p, body, &sizes, sets);
                match next {
                    Ok(q) => {
                        p = q;
                        at = at + DESTINATION_BYTES;
                    }
                    Err(bad) => return Err(bad),
                }
            }
            Follower::Other => {
                let read = read_record(plan, at);
                let found = read.found;
                let next = judge_other(p, found, &mut sizes);
                match next {
                    Ok(q) => {
                        p = q;
                        at = read.next;
                    }
                    Err(bad) => return Err(bad),
                }
            }
        }
    }
    end(p)
}

// The same for one who needs the verdict only.
pub fn check_plan(plan: &[u8]) -> Result<PlanCounts, BadRecord>
    ensures { result ≡ check_plan plan.now }
{
    let mut sets = [0u64; MOST_TX];
    check_with(plan, &mut sets)
}
