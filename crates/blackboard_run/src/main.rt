// Prints the blackboard's count: steps of catalogue A, the last step of each shape, and refused calls; then the same under masks.
#![tactic(auto)]

use scope::{Opened, Refusal, Shape};
use std::io;

fn main(rt: HostRuntime) -> io::Result<()> {
    for (w, m, step) in [
        (1, 8, 0),
        (1, 8, 1),
        (1, 8, 2),
        (1, 8, 8),
        (1, 8, 62),
        (1, 8, 64),
        (1, 16, 64),
        (1, 8, 64),
        (1, 4, 64),
        (2, 32, 128),
        (2, 16, 128),
        (2, 8, 128),
        (4, 64, 256),
        (4, 32, 256),
        (4, 16, 256),
        (2, 11, 0),
        (2, 11, 10),
        (2, 11, 17),
        (2, 11, 18),
        (2, 11, 128),
        (4, 63, 256),
        (1, 8, 65),
        (3, 24, 0),
        (1, 3, 0),
        (1, 17, 0),
        (1, 8, 4294967295),
    ] {
        ask(&rt, w, m, step)?;
    }
    for step in [0, 1, 5, 7, 59, 64, 65] {
        ask_masked(&rt, 1, 8, &[CORNERS_HIDDEN], step)?;
    }
    ask_masked(&rt, 1, 8, &[0], 0)?;
    ask_masked(&rt, 1, 8, &[0], 64)?;
    ask_masked(&rt, 1, 8, &[u64::MAX], 62)?;
    ask_masked(&rt, 2, 11, &[0, u64::MAX], 18)?;
    ask_masked(&rt, 1, 8, &[], 0)?;
    ask_masked(&rt, 1, 8, &[0, 0], 65)?;
    ask_masked(&rt, 1, 17, &[], 65)
}

// All cells of the grid but its corners.
const CORNERS_HIDDEN: u64 = 0x7eff_ffff_ffff_ff7e;

// A line for one call: what it is asked, and what it answers.
fn ask(rt: &impl Print, w: u32, m: u32, step: u32) -> io::Result<()> {
    print!(rt; "w {w} m {m} step {step}: ")?;
    tell(rt, blackboard::count(Shape { w, m }, step))
}

fn ask_masked(rt: &impl Print, w: u32, m: u32, mask: &[u64], step: u32) -> io::Result<()> {
    print!(rt; "w {w} m {m} mask")?;
    for word in mask {
        print!(rt; " {word:x}")?;
    }
    print!(rt; " step {step}: ")?;
    tell(rt, blackboard::count_masked(Shape { w, m }, mask, step))
}

fn tell(rt: &impl Print, count: Result<Opened, Refusal>) -> io::Result<()> {
    match count {
        Ok(opened) => println!(rt; "{}", opened.0),
        Err(refusal) => println!(rt; "refused {}", refusal.number()),
    }
}
