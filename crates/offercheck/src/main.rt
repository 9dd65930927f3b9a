// Reads a document from standard input and prints what is found in it: one message a line, errors, then warnings after
// "warning: ", then both counts; or only the refusal's number and place.
#![tactic(auto)]

mod line;
mod lists;
mod module;
mod output;

ghost use Rattle.std.specs.Prelude.{◌+◌, ◌≤◌, length};

use findings::{Counts, Denied};
use lists::print_lists;
use output::{print_no_findings, print_refusal};
use reading::Refusal;
use std::io::{Read, Stdin, Stdout};

// What is found, from the words of each kind: 16,380 words hold 3,276 findings, and more are refusal 10. No accepted document has more
// than 65,535 bytes.
fn print_kinds(out: Stdout, doc: &[u8], errors: &[u32], warnings: &[u32], counts: Counts)
    requires { counts.errors + counts.warnings ≤ 1064390464 }
{
    let all = counts.errors + counts.warnings;
    if 3276 < all {
        print_refusal(out, 10, all);
    } else if all == 0 {
        print_no_findings(out);
    } else if doc.len() <= 65535 {
        print_lists(out, doc, errors, warnings, counts);
    }
}

// What is found, from words that have the errors first: 1,020 words hold 204 findings.
fn print_both(out: Stdout, doc: &[u8], words: &[u32; 1020], counts: Counts)
    requires { length doc.now ≤ 4096 }
{
    let Counts { errors, warnings } = counts;
    if 204 < errors || 204 < warnings {
        return;
    }
    if errors + warnings == 0 {
        print_no_findings(out);
        return;
    }
    let (first, second) = words.split_at(5 * errors);
    print_lists(out, doc, first, second, counts);
}

// The line of a document that is refused.
fn print_refused(out: Stdout, refusal: Refusal) {
    let Refusal { fault, place } = refusal;
    print_refusal(out, offer::fault_number(fault), place);
}

// What is found in a document.
#[tactic(auto, unfolding(findings::specs::Reply::counted))]
fn check(out: Stdout, doc: &[u8]) {
    let mut errors = [0u32; 16380];
    let mut warnings = [0u32; 16380];
    match findings::by_kind(doc, &mut errors, &mut warnings) {
        Ok(counts) => print_kinds(out, doc, &errors, &warnings, counts),
        Err(refusal) => print_refused(out, refusal),
    }
}

// Reads until the space is full, the input ends or a read fails; how many bytes it has at the front then.
fn read_full(mut input: Stdin, space: &mut [u8]) -> usize
    ensures { result ≤ length space.new }
{
    let mut done = 0;
    // A turn reads any number of bytes.
    while done < space.len() {
        let n = input.read(&mut space[done..]).unwrap_or(0);
        if n == 0 {
            break;
        }
        done += n;
    }
    done
}

// Reads what is left of standard input.
fn drain(input: Stdin) {
    let mut space = [0u8; 4096];
    for _ in 0..u64::MAX {
        if read_full(input, &mut space) < 4096 {
            return;
        }
    }
}

// What is found in a document that starts so, and goes on in standard input.
fn check_from(input: Stdin, out: Stdout, start: &[u8])
    requires { length start.now ≤ 4096 }
{
    let mut space = [0u8; 65536];
    let (front, rest) = space.split_at_mut(start.len());
    front.copy_from_slice(start);
    let end = start.len() + read_full(input, rest);
    if end == 65536 {
        drain(input);
    }
    if let Some(doc) = space.get(..end) {
        check(out, doc);
    }
}

// What is found in a whole document; where it is much, with more words.
fn check_short(input: Stdin, out: Stdout, doc: &[u8])
    requires { length doc.now ≤ 4096 }
{
    let mut words = [0u32; 1020];
    match findings::findings(doc, &mut words) {
        Ok(counts) => print_both(out, doc, &words, counts),
        Err(Denied::Refused(refusal)) => print_refused(out, refusal),
        Err(Denied::Short(_)) => check_from(input, out, doc),
    }
}

// A short document needs little memory.
fn main(rt: HostRuntime) {
    let input = rt.stdin();
    let out = rt.stdout();
    let mut space = [0u8; 4096];
    let n = read_full(input, &mut space);
    if n < 4096 {
        check_short(input, out, &space[..n]);
    } else {
        check_from(input, out, &space);
    }
}
