// Document 01's bench program: a plan and events on standard input, a line for each on standard output.
#![tactic(auto)]

ghost use Rattle.std.specs.Prelude.{◌≡◌, ◌++◌, ◌+◌, ◌%◌, ◌≤◌, ◌<◌, length, take, replicate, true, OnOk, IfSome};
ghost use Rattle.std.specs.Io.KnownBytes.{Appends, Consumes, IsAtEnd};
ghost use Rattle.records.specs.Ids.{behind_id};
ghost use Rattle.area.specs.Layout.{area_length};
ghost use Rattle.reception.specs.Reception.{received_area};
ghost use Rattle.polling.specs.Polling.{responded_area, silent_area};
ghost use Rattle.ticking.specs.Tick.{tick_answer, ticked_area};
ghost use Rattle.taking.specs.Taken.{taken_area};
ghost use Rattle.events.specs.Events.{event_size, payload_at};
ghost use Rattle.text.specs.Text.{LineIs};
ghost use Rattle.output.specs.Output.{received_text, responded_text, silent_text, fresh, ticked_text, taken_text};
ghost use Rattle.output.specs.Output.{event_text, event_area, event_next, text_from, open_of, plan_text, bench_output};

use area::layout::AREA_LENGTH;
use events::{Event, event_at, front_of, payload_at};
use lines::{bad_line, plan_line, response_line, rx_line, silence_line, take_line, tick_line};
use opening::open::open;
use polling::respond::respond;
use polling::silence::no_response;
use reception::receive::receive;
use records::record::Id;
use std::io::{self, Read, Write};
use taking::{payload, take};
use ticking::tick::tick;

// What was done: how much text stands at the buffer's start, and where the next event begins. After a bad one that is the input's end.
#[derive(Drop)]
struct Step {
    size: usize,
    next: usize,
}

// What the first line did: the same, and how many Rx frames the plan has.
#[derive(Drop)]
struct Begun {
    size: usize,
    next: usize,
    rx: usize,
}

// A reception, a response on LIN, "no response", a tick, a take: each writes its line at the start of the buffer, and answers how long the line is. They
// do so whatever becomes of the line: a `Display` may fail by its contract, and would promise the line only where it does not.
#[tactic(auto, unfolding(output::specs::Output::received_text))]
fn received(input: &[u8], at: usize, node: usize, id: Id, area: &mut [u8], line: &mut [u8]) -> usize
    requires { (at + behind_id id + 9 ≤ length input.now) × (2048 ≤ length line.old) }
    ensures text { LineIs (received_text area.old node id (payload_at input.now (at + behind_id id)))
        line.old line.new result }
    ensures bytes { area.new ≡ received_area area.old node id (payload_at input.now (at + behind_id id)) }
{
    let payload = payload_at(input, at + id.behind());
    let answer = receive(area, node, id, payload);
    rx_line(answer, line)
}

#[tactic(auto, unfolding(output::specs::Output::responded_text))]
fn responded(
    input: &[u8],
    at: usize,
    node: usize,
    id: usize,
    sum: u8,
    area: &mut [u8],
    line: &mut [u8],
) -> usize
    requires { (at + 13 ≤ length input.now) × (2048 ≤ length line.old) }
    ensures text { LineIs (responded_text area.old node id (payload_at input.now (at + 4)) sum)
        line.old line.new result }
    ensures bytes { area.new ≡ responded_area area.old node (id % 65536) (payload_at input.now (at + 4)) sum }
{
    let payload = payload_at(input, at + 4);
    let answer = respond(area, node, (id % 65536) as u32, payload, sum);
    response_line(answer, line)
}

#[tactic(auto, unfolding(output::specs::Output::silent_text))]
fn silent(node: usize, id: usize, area: &mut [u8], line: &mut [u8]) -> usize
    requires { 2048 ≤ length line.old }
    ensures text { LineIs (silent_text area.old node id) line.old line.new result }
    ensures bytes { area.new ≡ silent_area area.old node (id % 65536) }
{
    let answer = no_response(area, node, (id % 65536) as u32);
    silence_line(answer, line)
}

fn ticked(area: &mut [u8], rx: usize, line: &mut [u8]) -> usize
    requires { (rx ≤ 256) × (2048 ≤ length line.old) }
    ensures text { LineIs (ticked_text area.old rx) line.old line.new result }
    ensures bytes { area.new ≡ ticked_area (tick_answer area.old (fresh rx)) area.old }
{
    let mut report = [0u8; 256];
    let answer = tick(area, &mut report[..rx]);
    tick_line(answer, &report[..rx], line)
}

fn took(area: &mut [u8], node: usize, line: &mut [u8]) -> usize
    requires { 2048 ≤ length line.old }
    ensures text { LineIs (taken_text area.old node) line.old line.new result }
    ensures bytes { area.new ≡ taken_area area.old node }
{
    let answer = take(area, node);
    take_line(answer, payload(area, answer), line)
}

// An event at a place.
#[tactic(auto, unfolding(output::specs::Output::event_text, output::specs::Output::event_area, events::specs::Events::event_size))]
fn show(event: Event, input: &[u8], at: usize, rx: usize, area: &mut [u8], line: &mut [u8]) -> usize
    requires { (at + event_size event ≤ length input.now) × (rx ≤ 256) × (2048 ≤ length line.old) }
    ensures text { LineIs (event_text event input.now at rx area.old) line.old line.new result }
    ensures bytes { area.new ≡ event_area event input.now at rx area.old }
{
    match event {
        Event::Reception {
            node,
            id,
            length: _,
        } => received(input, at, node, id, area, line),
        Event::Tick => ticked(area, rx, line),
        Event::Take { node } => took(area, node, line),
        Event::Response {
            node,
            id,
            length: _,
            sum,
        } => responded(input, at, node, id, sum, area, line),
        Event::NoResponse { node, id } => silent(node, id, area, line),
        Event::Bad => bad_line(line),
    }
}

// Where the next event begins; after a bad one that is the input's end.
#[tactic(auto, unfolding(output::specs::Output::event_next, events::specs::Events::event_size))]
fn behind(event: Event, input: &[u8], at: usize) -> usize
    requires { at + event_size event ≤ length input.now }
    ensures { result ≡ event_next event input.now at }
{
    match event {
        Event::Reception {
            node: _,
            id,
            length: _,
        } => at + id.behind() + 9,
        Event::Tick => at + 1,
        Event::Take { node: _ } => at + 2,
        Event::Response {
            node: _,
            id: _,
            length: _,
            sum: _,
        } => at + 14,
        Event::NoResponse { node: _, id: _ } => at + 4,
        Event::Bad => input.len(),
    }
}

// The events from a place on, as many as the buffer has room for: what it shows now, and what the rest will show, is what is to be shown.
fn fill(input: &[u8], from: usize, area: &mut [u8], rx: usize, out: &mut [u8]) -> Step
    requires { (from ≤ length input.now) × (rx ≤ 256) × (length out.old ≡ 65536) }
    ensures text { take result.size out.new ++ text_from input.now result.next rx area.new
        ≡ text_from input.now from rx area.old }
    ensures next { (result.size ≤ 65536) × (result.next ≤ length input.now)
        × (from < length input.now → from < result.next) }
{
    let mut used = 0;
    let mut at = from;
    while let Some(event) = event_at(input, at) {
        if 63488 < used {
            return Step {
                size: used,
                next: at,
            };
        }
        used += show(event, input, at, rx, area, &mut out[used..]);
        at = behind(event, input, at);
    }
    Step {
        size: used,
        next: at,
    }
}

// The plan's line, and where the events begin; where the plan is refused, at the input's end.
fn opening(input: &[u8], end: usize, area: &mut [u8], out: &mut [u8]) -> Begun
    requires { (2 ≤ end) × (end ≤ length input.now) × (area.old ≡ replicate area_length 0) × (2048 ≤ length out.old) }
    ensures text { take result.size out.new ++ text_from input.now result.next result.rx area.new
        ≡ plan_text (open_of input.now end) input.now end }
    ensures next { (result.size ≤ 2048) × (result.next ≤ length input.now) × (result.rx ≤ 256) }
{
    let answer = open(&input[2..end], area);
    let size = plan_line(answer, out);
    match answer {
        Ok(counts) => Begun {
            size,
            next: end,
            rx: counts.rx,
        },
        Err(_) => Begun {
            size,
            next: input.len(),
            rx: 0,
        },
    }
}

// The first line: what it shows, and what the events will show, is the whole output.
fn begin(input: &[u8], area: &mut [u8], out: &mut [u8]) -> Begun
    requires { (area.old ≡ replicate area_length 0) × (2048 ≤ length out.old) }
    ensures text { take result.size out.new ++ text_from input.now result.next result.rx area.new
        ≡ bench_output input.now }
    ensures next { (result.size ≤ 2048) × (result.next ≤ length input.now) × (result.rx ≤ 256) }
{
    match front_of(input) {
        Some(end) => opening(input, end, area, out),
        None => Begun {
            size: bad_line(out),
            next: input.len(),
            rx: 0,
        },
    }
}

// Reads until the buffer is full, the input ends or a read fails, and answers how many bytes it read.
fn read_input<R: Read>(reader: &mut R, buf: &mut [u8]) -> (usize, io::Result<()>)
    ensures inside { result.0 ≤ length buf.new }
    ensures bytes { Consumes (R.remaining reader.old) (R.remaining reader.new) (take result.0 buf.new) }
    ensures end { OnOk result.1 (result.0 < length buf.new → IsAtEnd (R.remaining reader.new)) }
{
    let mut done = 0;
    while done < buf.len() {
        match reader.read(&mut buf[done..]) {
            Ok(0) => return (done, Ok(())),
            Ok(n) => done += n,
            Err(e) => return (done, Err(e)),
        }
    }
    (done, Ok(()))
}

// How many bytes were handed on, and whether no write failed.
#[derive(Clone, Copy)]
struct Moved {
    size: usize,
    ok: bool,
}

// Writes the first bytes of a buffer. The size is how many it handed on.
fn hand_on<W: Write>(writer: &mut W, text: &[u8], size: usize) -> Moved
    requires { size ≤ length text.now }
    ensures size { result.size ≡ size }
    ensures bytes { result.ok ≡ true
        → Appends (W.contents writer.old) (W.contents writer.new) (take size text.now) }
{
    let shown = &text[..size];
    let ok = writer.write_all(shown).is_ok();
    Moved {
        size: shown.len(),
        ok,
    }
}

// The whole input, one buffer after the other. The size is how many bytes were handed on: as many as the output has.
fn run<W: Write>(input: &[u8], writer: &mut W) -> Moved
    requires { length input.now ≤ 65537 }
    ensures size { result.size ≡ length (bench_output input.now) }
    ensures bytes { result.ok ≡ true
        → Appends (W.contents writer.old) (W.contents writer.new) (bench_output input.now) }
{
    let mut area = [0u8; AREA_LENGTH];
    let mut out = [0u8; 65536];
    let first = begin(input, &mut area, &mut out);
    let shown = hand_on(writer, &out, first.size);
    let mut total = shown.size;
    let mut ok = shown.ok;
    let rx = first.rx;
    let mut at = first.next;
    while at < input.len() {
        let step = fill(input, at, &mut area, rx, &mut out);
        let shown = hand_on(writer, &out, step.size);
        total += shown.size;
        ok = ok && shown.ok;
        at = step.next;
    }
    Moved { size: total, ok }
}

// From a reader to a writer. Where nothing failed, what is written is the output for all the reader's bytes: of input that is too long no more is read
// than shows that. A read that fails ends the input.
fn serve<R: Read, W: Write>(reader: &mut R, writer: &mut W) -> bool
    ensures { result ≡ true → IfSome (R.remaining reader.old)
        (λ input. Appends (W.contents writer.old) (W.contents writer.new) (bench_output input)) }
{
    let mut input = [0u8; 65537];
    let (size, read) = read_input(reader, &mut input);
    let written = run(&input[..size], writer);
    read.is_ok() && written.ok
}

fn main(rt: HostRuntime) {
    serve(&mut rt.stdin(), &mut rt.stdout());
}
