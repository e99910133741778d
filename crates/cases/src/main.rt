// Document 01's cases 1 to 9, worked out by the proved functions: the copies, then the counter, then the ticks of two timers.
#![tactic(auto)]

use bits::payload::copy_signal;
use clock::{counter, timer};

// A write that fails is not acted on, here and below: what comes next is tried all the same.
fn line(rt: &impl Print) {
    rt.write_all(b"\n").is_ok();
}

// Cases 1 to 4: from byte 2C, position 2, size 4, to position 6 of two bytes.
fn show_copy(rt: &impl Print, order: u8, fill: u8) {
    let source = [0x2cu8; 1];
    let mut kept = [fill; 2];
    copy_signal(order, &source, 2, 4, &mut kept, 6);
    let [first, second] = kept;
    println!(rt; "{first:02x}{second:02x}").is_ok();
}

// Case 5: size 64, positions 0.
fn show_whole(rt: &impl Print) {
    let source = [1, 2, 3, 4, 5, 6, 7, 255];
    let mut kept = [9u8; 8];
    copy_signal(0, &source, 0, 64, &mut kept, 0);
    for byte in kept {
        print!(rt; "{byte:02x}").is_ok();
    }
    line(rt);
}

// Case 8: whether a timer of prescaler 20 is handled at a tick.
fn show_handled(rt: &impl Print, tick: usize) {
    let mut now = 0;
    for _ in 0..tick {
        now = counter::next(now);
    }
    if counter::is_handled(now, 20) {
        rt.write_all(b"handled\n").is_ok();
    } else {
        rt.write_all(b"not handled\n").is_ok();
    }
}

// Case 9: prescaler 10, 5 loaded between ticks 3 and 4: the ticks up to 99 at which it expires.
fn show_expiries(rt: &impl Print) {
    let mut now = 0;
    let mut count = 0;
    for tick in 0..100 {
        if tick == 4 {
            count = 5;
        }
        if counter::is_handled(now, 10) {
            let stepped = timer::step_timer(0, count);
            count = stepped.count;
            if stepped.expired {
                println!(rt; "{tick}").is_ok();
            }
        }
        now = counter::next(now);
    }
}

fn main(rt: HostRuntime) {
    show_copy(&rt, 0, 0x00);
    show_copy(&rt, 1, 0x00);
    show_copy(&rt, 0, 0xff);
    show_copy(&rt, 1, 0xff);
    show_whole(&rt);
    let tenth = counter::next(0x09);
    println!(rt; "{tenth:02x}").is_ok();
    let last = counter::next(0xf9);
    println!(rt; "{last:02x}").is_ok();
    show_handled(&rt, 0);
    show_handled(&rt, 20);
    show_handled(&rt, 160);
    show_handled(&rt, 159);
    show_expiries(&rt);
}
