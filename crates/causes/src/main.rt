// Replays data/vectors.bin, made by tests/oracle: each record has a document and steps over it, and each step the place
// of an item and the cause that the original Rust gives for it. Prints each step that the typing layer answers
// otherwise, and how many there are. With two words, `read` or `type` and a number, it reads or types the first
// document so many times, for bench/typing.
#![tactic(auto)]

mod judge;
mod record;
mod steps;
mod tally;
mod timed;

use record::read_record;
use std::env::{Env, FillError};
use std::fmt::Write;
use std::fs::File;
use std::io::{Result, Stdout};
use steps::replay_steps;
use tally::{Pieces, Tally};

// Room for a document and its steps.
const SPACE: usize = 200000;

// Judges the steps of every record. The file has fewer records than the loop has turns.
fn replay(file: &mut File, out: Stdout, space: &mut [u8]) -> Tally {
    let mut tally = Tally::default();
    for _ in 0..1_000_000 {
        let Some(record) = read_record(file, space) else {
            break;
        };
        let Some((doc, steps)) = record.parts(space) else {
            break;
        };
        replay_steps(out, doc, steps, &mut tally);
    }
    tally
}

fn main(rt: HostRuntime) -> Result<()> {
    let mut file = File::open(&rt, "vectors.bin")?;
    let out = rt.stdout();
    let mut space = [0u8; SPACE];
    let mut word = [0u8; 1];
    if let Err(FillError::NotPresent) = rt.arg(1, &mut word) {
        let _ = write!(Pieces(out), "{}", replay(&mut file, out, &mut space));
    } else {
        timed::run(&rt, &mut file, out, &mut space);
    }
    Ok(())
}
