// A node's queue: scheduling, asking, and taking.
ghost use Rattle.std.specs.Prelude.{◌≡◌, ◌+◌, ◌≤◌, ◌<◌};
ghost use Rattle.area.specs.Layout.{payloads_start, waiter_range, LongEnough};
ghost use Rattle.area.specs.Queue.{ends_of, past, slot, entry_at, entry_of, added, removed, set_ends, queued, scheduled, requested, oldest, dequeued};

use crate::frames::home_node;
use crate::layout::{
    ENTRIES_START, ENTRY_COUNT, QUEUES_START, REQUESTS_START, TX_RELOADS_START, TX_TIMERS_START,
    WAITER_RANGE, WAITS_START,
};
use records::record::{Entry, RxNumber, TxNumber};

// The ends of a queue: where its ring begins, how many entries the ring has room for, where the oldest is, and how many wait.
#[derive(Clone, Copy, Debug, PartialEq, Eq)]
pub struct Ends {
    pub start: usize,
    pub room: usize,
    pub first: usize,
    pub waiting: usize,
}

// The place in a ring of `room` entries that is `k` past `first`, once round at the most.
#[tactic(auto, unfolding(crate::specs::Queue::past, base::specs::Pick::pick))]
fn past(first: usize, k: usize, room: usize) -> usize
    requires { (first < 65536) × (k < 65536) }
    ensures { (result ≡ past first k room) × (result < 131072) }
{
    let next = first + k;
    if next < room {
        return next;
    }
    next - room
}

impl Ends {
    // The queue with one more at its end.
    #[tactic(auto, unfolding(crate::specs::Queue::added))]
    pub fn add(self) -> Ends
        requires { self.waiting < 65536 }
        ensures { result ≡ added self }
    {
        Ends {
            waiting: self.waiting + 1,
            ..self
        }
    }

    // The queue without its oldest.
    #[tactic(auto, unfolding(crate::specs::Queue::removed))]
    pub fn take(self) -> Ends
        requires { (0 < self.waiting) × (self.first < 65536) }
        ensures { result ≡ removed self }
    {
        Ends {
            first: past(self.first, 1, self.room),
            waiting: self.waiting - 1,
            ..self
        }
    }
}

// The ends of node `n`'s queue.
#[tactic(auto, unfolding(crate::specs::Queue::ends_of))]
pub fn ends_at(area: &[u8], n: usize) -> Ends
    requires { (n < 16) × LongEnough area.now }
    ensures { (result ≡ ends_of area.now n) ×
        (result.room < 65536) × (result.first < 65536) × (result.waiting < 65536) × (result.start < 65536) }
{
    let at = QUEUES_START + 8 * n;
    let start = base::low_at(area, at);
    let room = base::low_at(area, at + 2);
    let first = base::low_at(area, at + 4);
    let waiting = base::low_at(area, at + 6);
    Ends {
        start,
        room,
        first,
        waiting,
    }
}

// Node `n`'s queue gets these ends. Where its ring lies stays.
#[tactic(auto, unfolding(crate::specs::Queue::set_ends))]
fn put_ends(area: &mut [u8], n: usize, e: Ends)
    requires { (n < 16) × LongEnough area.old }
    ensures { area.new ≡ set_ends area.old n e }
{
    let at = QUEUES_START + 8 * n;
    base::put_low(area, at + 4, e.first);
    base::put_low(area, at + 6, e.waiting);
}

// Where entry `i` of a ring stands in the area.
#[tactic(auto, unfolding(crate::specs::Queue::slot))]
fn slot_of(e: Ends, i: usize) -> usize
    requires { (e.start < 65536) × (i < 131072) }
    ensures { (result ≡ slot e i) × (result + 1 < payloads_start) }
{
    ENTRIES_START + 2 * ((e.start + i) % ENTRY_COUNT)
}

// What has this number joins node `n`'s queue at the end.
#[tactic(auto, unfolding(crate::specs::Queue::queued))]
fn enqueue(area: &mut [u8], n: usize, number: usize)
    requires { (n < 16) × LongEnough area.old }
    ensures { area.new ≡ queued area.old n number }
{
    let e = ends_at(area, n);
    let at = slot_of(e, past(e.first, e.waiting, e.room));
    base::put_low(area, at, number);
    put_ends(area, n, e.add());
}

// A frame that waits already stays as it is. Any other joins its node's queue, and its timer takes its reload value.
#[tactic(auto, unfolding(crate::specs::Queue::scheduled, base::specs::Pick::pick))]
pub fn schedule(area: &mut [u8], t: TxNumber)
    requires { (t.0 < 256) × LongEnough area.old }
    ensures { area.new ≡ scheduled area.old t.0 }
{
    if area[WAITS_START + t.0] == 0 {
        let n = home_node(area, t.0);
        let reload = area[TX_RELOADS_START + t.0];
        enqueue(area, n, t.0);
        area[WAITS_START + t.0] = 1;
        area[TX_TIMERS_START + t.0] = reload;
    }
}

// The request for Rx frame `r` joins its node's queue, unless it waits already.
#[tactic(auto, unfolding(crate::specs::Queue::requested, base::specs::Pick::pick))]
pub fn request(area: &mut [u8], r: RxNumber)
    requires { (r.0 < 256) × LongEnough area.old }
    ensures { area.new ≡ requested area.old r.0 }
{
    let number = REQUESTS_START + r.0;
    if area[WAITS_START + number] == 0 {
        let n = home_node(area, number);
        enqueue(area, n, number);
        area[WAITS_START + number] = 1;
    }
}

// The number of what has waited longest in a queue with these ends.
pub fn oldest_of(area: &[u8], e: Ends) -> usize
    requires { (e.first < 65536) × (e.start < 65536) × LongEnough area.now }
    ensures { (result ≡ entry_at area.now e e.first) × (result < waiter_range) }
{
    base::low_at(area, slot_of(e, e.first)) % WAITER_RANGE
}

// What has this number.
#[tactic(auto, unfolding(crate::specs::Queue::entry_of, base::specs::Pick::pick))]
pub fn entry_of(number: usize) -> Entry
    ensures { result ≡ entry_of number }
{
    if number < REQUESTS_START {
        return Entry::Frame(TxNumber(number));
    }
    Entry::Request(RxNumber(number - REQUESTS_START))
}

// The oldest leaves node `n`'s queue, whose ends are `e`, and waits no more. Its number is `k`.
#[tactic(auto, unfolding(crate::specs::Queue::dequeued))]
pub fn dequeue(area: &mut [u8], n: usize, e: Ends, k: usize)
    requires { (n < 16) × LongEnough area.old ×
        (e ≡ ends_of area.old n) × (k ≡ oldest area.old n) × (k < waiter_range) × (0 < e.waiting) × (e.first < 65536) }
    ensures { area.new ≡ dequeued area.old n }
{
    put_ends(area, n, e.take());
    area[WAITS_START + k] = 0;
}
