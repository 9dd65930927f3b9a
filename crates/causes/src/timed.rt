// Reads or types one document many times, to be timed from outside.
use crate::record::{Record, read_record};
use crate::steps::replay_steps;
use crate::tally::{Pieces, Tally};
use std::env::Env;
use std::fmt::Write;
use std::fs::File;
use std::io::Stdout;

// The number so far with a digit more; digits after the seventh are left out.
fn next_digit(n: u64, b: u8) -> u64 {
    if n < 1_000_000 {
        return n * 10 + u64::from(b % 16 % 10);
    }
    n
}

// The second word, a number.
fn times(rt: &impl Env) -> u64 {
    let mut b = [0u8; 16];
    let n = rt.arg(2, &mut b).unwrap_or(0);
    b[..n].iter().fold(0, |n, b| next_digit(n, *b))
}

// Whether the first word begins with the byte.
fn asked(rt: &impl Env, byte: u8) -> bool {
    let mut b = [0u8; 16];
    let _ = rt.arg(1, &mut b);
    b[0] == byte
}

// 0 for an accepted document.
fn read_once(doc: &[u8]) -> u64 {
    reading::read_document(doc).is_err().into()
}

// How many items are answered otherwise than is due.
fn type_once(out: Stdout, doc: &[u8], steps: &[u8]) -> u64 {
    let mut tally = Tally::default();
    replay_steps(out, doc, steps, &mut tally);
    tally.wrong
}

// How many turns had another answer than 0. The first byte is changed by each answer, which is 0: no turn can be left out.
fn turns<F: Fn(&[u8], &[u8]) -> u64>(space: &mut [u8], record: Record, n: u64, once: F) -> u64
    requires { F.IsAlwaysCallable once }
{
    let mut wrong: u64 = 0;
    for _ in 0..n {
        let answer = match record.parts(space) {
            Some((doc, steps)) => once(doc, steps),
            None => 1,
        };
        if let Some(first) = space.first_mut() {
            *first = first.wrapping_add((answer % 256) as u8);
        }
        if answer != 0 {
            wrong = wrong.saturating_add(1);
        }
    }
    wrong
}

pub(crate) fn run(rt: &impl Env, file: &mut File, out: Stdout, space: &mut [u8]) {
    let n = times(rt);
    let record = read_record(file, space).unwrap_or_default();
    let wrong = if asked(rt, b't') {
        turns(space, record, n, |doc, steps| type_once(out, doc, steps))
    } else {
        turns(space, record, n, |doc, _| read_once(doc))
    };
    let _ = write!(Pieces(out), "{n} times, {wrong} answered otherwise\n");
}
