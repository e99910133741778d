// What each kind of record does to the check: one step for each kind, with its tests in document 01's order.
#![tactic(auto, unfolding(crate::specs::Check::placed, crate::specs::Check::need, base::specs::Pick::pick, crate::specs::Tests::may_stand, crate::specs::Tests::can_first, crate::specs::Tests::has_room, crate::specs::Tests::in_range, crate::specs::Tests::fits_node, crate::specs::Tests::rises, crate::specs::Tests::in_data, crate::specs::Tests::is_free, crate::specs::Tests::indicator_in_data, crate::specs::Tests::indicator_is_free, crate::specs::Progress::after, crate::specs::Progress::counted, crate::specs::Progress::row_after, crate::specs::Progress::row_key, crate::specs::Check::sizes_after, crate::specs::Check::sets_after, crate::specs::Claim::claimed, records::specs::Kinds::stage_of))]

ghost use Rattle.std.specs.Prelude.{◌≡◌, [], length, ◌+◌, Ok};
ghost use Rattle.records.specs.declared.record.Record.TheVariants.{Head, Node, Tx, Rx, Signal, Destination};
ghost use Rattle.plan.specs.Limits.{most_tx};
ghost use Rattle.plan.specs.Check.{required, placed};
ghost use Rattle.plan.specs.Motion.{Fair, Tables, sizes_then, sets_then};

use crate::claim::claim;
use crate::limits::{
    KEY_RANGE, MOST_DESTINATIONS, MOST_IN_FRAME, MOST_NODES, MOST_OF_SIGNAL, MOST_RX, MOST_SIGNALS,
    MOST_TX,
};
use crate::progress::{Counts, Progress, RowSoFar};
use crate::tests;
use crate::verdict::{BadRecord, Reason};
use base::wide;
use records::decode::{
    DESTINATION_STAGE, HEAD_STAGE, NODE_STAGE, RX_STAGE, SIGNAL_STAGE, TX_STAGE,
};
use records::record::{DestinationBody, NodeBody, RxFrame, SignalBody, TxFrame};

impl Progress {
    // A refusal names the record that was refused.
    pub fn refuse(self, reason: Reason) -> BadRecord
        ensures { result ≡ record { reason = reason; record_number = self.number } }
    {
        BadRecord {
            reason,
            record_number: self.number,
        }
    }

    // A test that the record must pass.
    fn require(self, passed: bool, reason: Reason) -> Result<(), BadRecord>
        ensures { result ≡ required passed reason self.number }
    {
        if passed {
            Ok(())
        } else {
            Err(self.refuse(reason))
        }
    }

    // The check goes on behind a record of this stage.
    fn go_on(self, stage: u8, counts: Counts, row: RowSoFar) -> Result<Progress, BadRecord>
        requires { Fair self }
        ensures { result ≡ Ok (record { number = self.number + 1; stage = stage; counts = counts; row = row }) }
    {
        Ok(Progress {
            number: self.number + 1,
            stage,
            counts,
            row,
        })
    }

    pub fn head_step(self, order: u8) -> Result<Progress, BadRecord>
        requires { Fair self }
        ensures { result ≡ placed self [] [] (Head order) }
    {
        self.require(self.stage == 0, Reason::Place)?;
        self.require(order <= 1, Reason::Range)?;
        self.go_on(HEAD_STAGE, self.counts, self.row)
    }

    pub fn node_step(self, body: NodeBody) -> Result<Progress, BadRecord>
        requires { Fair self }
        ensures { result ≡ placed self [] [] (Node body) }
    {
        let c = self.counts;
        // a CAN node stands before all LIN nodes
        let can_first = (body.of != 0) | (c.can == c.nodes);
        let stands = (0 < self.stage) & (self.stage <= NODE_STAGE) & can_first;
        self.require(stands, Reason::Place)?;
        self.require(c.nodes < MOST_NODES, Reason::Count)?;
        self.require(body.of <= 1, Reason::Range)?;
        let counts = Counts {
            nodes: c.nodes + 1,
            can: tests::can_after(c.can, body.of),
            ..c
        };
        self.go_on(NODE_STAGE, counts, self.row)
    }

    pub fn tx_step(self, x: TxFrame, sizes: &mut [u8]) -> Result<Progress, BadRecord>
        requires { (Fair self) × (Tables sizes.old) }
        ensures next { result ≡ placed self [] [] (Tx x) }
        ensures sizes { (sizes.new ≡ sizes_then result self sizes.old (Tx x)) × (Tables sizes.new) }
    {
        let c = self.counts;
        let stands = (0 < self.stage) & (self.stage <= TX_STAGE);
        self.require(stands, Reason::Place)?;
        self.require(c.tx < MOST_TX, Reason::Count)?;
        let fits = tests::frame_fits(c.can, x.node, x.id, x.size);
        let in_range = tests::tx_in_range(c.nodes, x) & fits;
        self.require(in_range, Reason::Range)?;
        sizes[c.tx] = x.size;
        self.go_on(TX_STAGE, Counts { tx: c.tx + 1, ..c }, self.row)
    }

    pub fn rx_step(self, x: RxFrame) -> Result<Progress, BadRecord>
        requires { Fair self }
        ensures { result ≡ placed self [] [] (Rx x) }
    {
        let c = self.counts;
        self.require(0 < self.stage, Reason::Place)?;
        self.require(c.rx < MOST_RX, Reason::Count)?;
        let fits = tests::frame_fits(c.can, x.node, x.id, x.size);
        let in_range = tests::rx_in_range(c.nodes, x) & fits;
        self.require(in_range, Reason::Range)?;
        let key = wide(x.node) * KEY_RANGE + x.id.key();
        self.require(self.row.floor <= key, Reason::Order)?;
        let row = RowSoFar {
            floor: key + 1,
            room: 8 * wide(x.size),
            signals: 0,
            size: 0,
            destinations: 0,
            awaits: tests::awaited_by(x.enable),
            position: x.position,
            source: self.number,
        };
        self.go_on(RX_STAGE, Counts { rx: c.rx + 1, ..c }, row)
    }

    pub fn signal_step(self, body: SignalBody) -> Result<Progress, BadRecord>
        requires { Fair self }
        ensures { result ≡ placed self [] [] (Signal body) }
    {
        let c = self.counts;
        let old = self.row;
        self.require(RX_STAGE <= self.stage, Reason::Place)?;
        let has_room = (c.signals < MOST_SIGNALS) & (old.signals < MOST_IN_FRAME);
        self.require(has_room, Reason::Count)?;
        let in_range = (body.position <= 63) & (0 < body.size) & (body.size <= 64);
        self.require(in_range, Reason::Range)?;
        let bits = wide(body.size);
        let in_data = wide(body.position) + bits <= old.room;
        self.require(in_data, Reason::Data)?;
        let counts = Counts {
            signals: c.signals + 1,
            ..c
        };
        let row = RowSoFar {
            signals: old.signals + 1,
            size: bits,
            destinations: 0,
            awaits: tests::awaited_after(old.awaits),
            ..old
        };
        self.go_on(SIGNAL_STAGE, counts, row)
    }

    pub fn destination_step(
        self,
        body: DestinationBody,
        sizes: &[u8],
        sets: &mut [u64],
    ) -> Result<Progress, BadRecord>
        requires { (Fair self) × (Tables sizes.now) × (length sets.old ≡ most_tx) }
        ensures next { result ≡ placed self sizes.now sets.old (Destination body) }
        ensures sets { sets.new ≡ sets_then result self sets.old (Destination body) }
    {
        let c = self.counts;
        let old = self.row;
        self.require(SIGNAL_STAGE <= self.stage, Reason::Place)?;
        let has_room = (c.destinations < MOST_DESTINATIONS) & (old.destinations < MOST_OF_SIGNAL);
        self.require(has_room, Reason::Count)?;
        self.require(body.position <= 63, Reason::Range)?;
        let t = body.tx.0;
        let q = wide(body.position);
        self.require(t < c.tx, Reason::Data)?;
        let room = 8 * wide(sizes[t]);
        self.require(q + old.size <= room, Reason::Data)?;
        let set = claim(sets[t], q, old.size, old.awaits, old.position, room).map_err(
            |reason| self.refuse(reason),
        )?;
        sets[t] = set;
        let counts = Counts {
            destinations: c.destinations + 1,
            ..c
        };
        let row = RowSoFar {
            destinations: old.destinations + 1,
            awaits: 0,
            ..old
        };
        self.go_on(DESTINATION_STAGE, counts, row)
    }
}
