// A reader stands on the lent plan and a place in it, and goes on record by record.
ghost use Rattle.std.specs.Prelude.{◌≡◌};
ghost use Rattle.records.specs.Reading.{step_at, read_on};

use crate::decode::Step;
use crate::record::Record;

#[derive(Clone, Copy, Debug, PartialEq, Eq)]
pub struct Reader<'a> {
    pub plan: &'a [u8],
    pub at: usize,
}

// The record that a reader stood on, and the reader behind it.
#[derive(Clone, Copy, Debug, PartialEq, Eq)]
pub struct Read<'a> {
    pub found: Record,
    pub rest: Reader<'a>,
}

pub fn next_record<'a>(reader: Reader<'a>) -> Read<'a>
    ensures { result ≡ read_on reader.entry }
{
    let step = crate::decode::step_at(reader.plan, reader.at);
    Read {
        found: step.found,
        rest: Reader {
            plan: reader.plan,
            at: step.next,
        },
    }
}

// The same for a caller that has a plan and a place, and needs no reader of its own.
pub fn read_record(plan: &[u8], at: usize) -> Step
    ensures { result ≡ step_at plan.now at }
{
    let read = next_record(Reader { plan, at });
    Step {
        found: read.found,
        next: read.rest.at,
    }
}
