// The bench program's lines: each function writes its line at the start of the lent buffer, and answers how long the line is.
#![tactic(auto)]

ghost use Rattle.std.specs.Prelude.{[], ◌∷◌, ◌+◌, ◌*◌, ◌≤◌, length};
ghost use Rattle.text.specs.Text.{Put, LineIs};
ghost use Rattle.lines.specs.Lines.{word_line, numbers_line, plan_line, rx_line, response_line, silence_line, tick_line};
ghost use Rattle.lines.specs.Lines.{payload_text, spaced_id, frame_line, request_line, take_line, bad_line};

use answers::{
    Received, Refusal, RefusedPlan, Responded, Taken, TakenFrame, TakenRequest, Timeout,
};
use plan::verdict::PlanCounts;
use records::record::Id;

// A word alone.
fn line_of_word(word: &[u8], line: &mut [u8]) -> usize
    requires { (2048 ≤ length line.old) × (length word.now ≤ 100) }
    ensures { LineIs (word_line word.now) line.old line.new result }
{
    let end = text::put_word(line, 0, word);
    text::put_byte(line, end, b'\n')
}

// A word and one, two, three numbers.
fn line_of_one(word: &[u8], n: usize, line: &mut [u8]) -> usize
    requires { (2048 ≤ length line.old) × (length word.now ≤ 100) }
    ensures { LineIs (numbers_line word.now (n ∷ [])) line.old line.new result }
{
    let named = text::put_word(line, 0, word);
    let end = text::put_number(line, named, n);
    text::put_byte(line, end, b'\n')
}

fn line_of_two(word: &[u8], n: usize, m: usize, line: &mut [u8]) -> usize
    requires { (2048 ≤ length line.old) × (length word.now ≤ 100) }
    ensures { LineIs (numbers_line word.now (n ∷ m ∷ [])) line.old line.new result }
{
    let named = text::put_word(line, 0, word);
    let first = text::put_number(line, named, n);
    let end = text::put_number(line, first, m);
    text::put_byte(line, end, b'\n')
}

fn line_of_three(word: &[u8], n: usize, m: usize, k: usize, line: &mut [u8]) -> usize
    requires { (2048 ≤ length line.old) × (length word.now ≤ 100) }
    ensures { LineIs (numbers_line word.now (n ∷ m ∷ k ∷ [])) line.old line.new result }
{
    let named = text::put_word(line, 0, word);
    let end = text::put_three(line, named, n, m, k);
    text::put_byte(line, end, b'\n')
}

// A word and bytes in decimal.
fn line_of_bytes(word: &[u8], bytes: &[u8], line: &mut [u8]) -> usize
    requires { (2048 ≤ length line.old) × (length word.now ≤ 100) × (length bytes.now ≤ 256) }
    ensures { LineIs (numbers_line word.now bytes.now) line.old line.new result }
{
    let named = text::put_word(line, 0, word);
    let end = text::put_numbers(line, named, bytes);
    text::put_byte(line, end, b'\n')
}

// A payload in hex, `-` for size 0.
fn put_payload(line: &mut [u8], at: usize, size: usize, payload: &[u8]) -> usize
    requires { at + 2 * length payload.now + 1 ≤ length line.old }
    ensures put { Put line.old at (payload_text size payload.now) line.new result }
    ensures upper_bound { result ≤ at + 2 * length payload.now + 1 }
{
    if size == 0 {
        return text::put_byte(line, at, b'-');
    }
    text::put_hex(line, at, payload)
}

// A space and an ID, with `e` before one of 29 bits.
fn put_id(line: &mut [u8], at: usize, id: Id) -> usize
    requires { at + 22 ≤ length line.old }
    ensures put { Put line.old at (spaced_id id) line.new result }
    ensures upper_bound { result ≤ at + 22 }
{
    match id {
        Id::Standard(n) => text::put_number(line, at, n),
        Id::Extended(n) => {
            let marked = text::put_word(line, at, b" e");
            text::put_decimal(line, marked, n)
        }
    }
}

// A frame that is taken.
fn line_of_frame(frame: TakenFrame, payload: &[u8], line: &mut [u8]) -> usize
    requires { (2048 ≤ length line.old) × (length payload.now ≤ 256) }
    ensures { LineIs (frame_line frame payload.now) line.old line.new result }
{
    let named = text::put_word(line, 0, b"take");
    let numbered = text::put_number(line, named, frame.tx.0);
    let id = frame.id;
    let identified = put_id(line, numbered, id);
    let sized = text::put_number(line, identified, frame.size);
    let spaced = text::put_byte(line, sized, b' ');
    let shown = put_payload(line, spaced, frame.size, payload);
    let end = text::put_number(line, shown, frame.waiting);
    text::put_byte(line, end, b'\n')
}

// A request that is taken.
fn line_of_request(request: TakenRequest, line: &mut [u8]) -> usize
    requires { 2048 ≤ length line.old }
    ensures { LineIs (request_line request) line.old line.new result }
{
    let named = text::put_word(line, 0, b"take request");
    let numbered = text::put_number(line, named, request.rx.0);
    let id = request.id;
    let identified = put_id(line, numbered, id);
    let sized = text::put_number(line, identified, request.size);
    let end = text::put_number(line, sized, request.waiting);
    text::put_byte(line, end, b'\n')
}

// The first line: what the opening answered.
#[tactic(auto, unfolding(crate::specs::Lines::plan_line))]
pub fn plan_line(answer: Result<PlanCounts, RefusedPlan>, line: &mut [u8]) -> usize
    requires { 2048 ≤ length line.old }
    ensures { LineIs (plan_line answer) line.old line.new result }
{
    match answer {
        Ok(counts) => line_of_three(b"plan ok", counts.nodes, counts.tx, counts.rx, line),
        Err(refused) => line_of_two(
            b"plan refused",
            refused.why.number(),
            refused.record_number,
            line,
        ),
    }
}

// What a reception answered.
#[tactic(auto, unfolding(crate::specs::Lines::rx_line, answers::specs::Answers::received_number))]
pub fn rx_line(answer: Result<Received, Refusal>, line: &mut [u8]) -> usize
    requires { 2048 ≤ length line.old }
    ensures { LineIs (rx_line answer) line.old line.new result }
{
    match answer {
        Ok(Received::Accepted) => line_of_one(b"rx", 0, line),
        Ok(Received::NoRow { place }) => line_of_two(b"rx", 1, place, line),
        Ok(Received::TooShort) => line_of_one(b"rx", 2, line),
        Err(why) => line_of_one(b"rx refused", why.number(), line),
    }
}

// What a response on LIN answered, and what "no response" did.
#[tactic(auto, unfolding(crate::specs::Lines::response_line, answers::specs::Answers::responded_number))]
pub fn response_line(answer: Result<Responded, Refusal>, line: &mut [u8]) -> usize
    requires { 2048 ≤ length line.old }
    ensures { LineIs (response_line answer) line.old line.new result }
{
    match answer {
        Ok(Responded::Accepted) => line_of_one(b"rx", 0, line),
        Ok(Responded::TooShort) => line_of_one(b"rx", 2, line),
        Ok(Responded::WrongSum) => line_of_one(b"rx", 3, line),
        Err(refusal) => line_of_one(b"rx refused", refusal.number(), line),
    }
}

#[tactic(auto, unfolding(crate::specs::Lines::silence_line, answers::specs::Answers::silence_number))]
pub fn silence_line(answer: Result<Timeout, Refusal>, line: &mut [u8]) -> usize
    requires { 2048 ≤ length line.old }
    ensures { LineIs (silence_line answer) line.old line.new result }
{
    match answer {
        Ok(Timeout::Short) => line_of_one(b"silent", 1, line),
        Ok(Timeout::Long) => line_of_one(b"silent", 2, line),
        Err(why) => line_of_one(b"silent refused", why.number(), line),
    }
}

// What a tick answered, with the report bytes, one for each Rx frame.
#[tactic(auto, unfolding(crate::specs::Lines::tick_line))]
pub fn tick_line(answer: Result<(), Refusal>, report: &[u8], line: &mut [u8]) -> usize
    requires { (2048 ≤ length line.old) × (length report.now ≤ 256) }
    ensures { LineIs (tick_line answer report.now) line.old line.new result }
{
    match answer {
        Ok(()) => line_of_bytes(b"tick", report, line),
        Err(why) => line_of_one(b"tick refused", why.number(), line),
    }
}

// What a take answered, with the payload that it handed back.
#[tactic(auto, unfolding(crate::specs::Lines::take_line))]
pub fn take_line(answer: Result<Option<Taken>, Refusal>, payload: &[u8], line: &mut [u8]) -> usize
    requires { (2048 ≤ length line.old) × (length payload.now ≤ 256) }
    ensures { LineIs (take_line answer payload.now) line.old line.new result }
{
    match answer {
        Ok(None) => line_of_word(b"take none", line),
        Ok(Some(Taken::Frame(frame))) => line_of_frame(frame, payload, line),
        Ok(Some(Taken::Request(request))) => line_of_request(request, line),
        Err(why) => line_of_one(b"take refused", why.number(), line),
    }
}

// Input that is bad.
pub fn bad_line(line: &mut [u8]) -> usize
    requires { 2048 ≤ length line.old }
    ensures { LineIs bad_line line.old line.new result }
{
    line_of_word(b"input bad", line)
}
