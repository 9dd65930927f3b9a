// The examples of RFC 8949, Appendix A, through the head reader: data/examples.bin has each as its length and its bytes.
// A head of a major type that no item of a document has is refused whatever is due; the line says so.
#![tactic(auto)]

use reading::{Cursor, Fault, Head, Refusal};
use std::fmt;
use std::fmt::Write;
use std::fs::File;
use std::io::{Read, Result, Stdout};

// Standard output, which gets each piece of a text by itself: one that cannot be written is left out.
#[derive(Clone, Copy)]
struct Pieces(Stdout);

impl fmt::Write for Pieces {
    fn write_str(&mut self, piece: &str) -> fmt::Result {
        let _ = self.0.write_all(piece.as_bytes());
        Ok(())
    }
}

// A refusal as it is printed.
#[derive(Clone, Copy)]
struct Refused(Refusal);

impl fmt::Display for Refused {
    fn fmt<W: fmt::Write>(&self, f: &mut fmt::Formatter<W>) -> fmt::Result {
        let Refusal { fault, place } = self.0;
        write!(f, "refused {} at {place}", fault_number(fault))
    }
}

// Document 01's number of each fault. That of `offer` stands above `reading`, the one library here.
fn fault_number(fault: Fault) -> u64 {
    match fault {
        Fault::TooLong => 1,
        Fault::Truncated => 2,
        Fault::NonCanonical => 3,
        Fault::Unexpected => 4,
        Fault::OutOfRange => 5,
        Fault::OutsideAlphabet => 6,
        Fault::TooDeep => 7,
        Fault::Trailing => 8,
        Fault::UnknownVersion => 9,
    }
}

// The refusal that a number, a string, an array, and a bool or null all meet; none where one of them is there.
fn refusal_of_all(bytes: &[u8]) -> Option<Refusal> {
    let start = Cursor { at: 0 };
    if [3, 4, 7].iter().any(|due| start.kind(bytes, *due).is_ok()) {
        return None;
    }
    start.kind(bytes, 0).err()
}

// The line of an example: its bytes, and what its head is or why it is refused. A byte is one piece, both digits together.
fn show(out: Stdout, bytes: &[u8]) {
    for b in bytes {
        let _ = print!(out; "{b:02x}");
    }
    let mut out = Pieces(out);
    let _ = write!(out, ": ");
    match reading::head_from(bytes, 0) {
        Err(refusal) => {
            let _ = write!(out, "{}", Refused(refusal));
        }
        Ok((Head { major, argument }, next)) => {
            let _ = write!(
                out,
                "major type {major}, argument {argument}, {} bytes",
                next.at
            );
            if let Some(refusal) = refusal_of_all(bytes) {
                let _ = write!(out, "; no kind of a document: {}", Refused(refusal));
            }
        }
    }
    let _ = write!(out, "\n");
}

// Reads the next example to the front of the space; none at the end of the file.
fn next_example<'a>(file: &mut File, space: &'a mut [u8]) -> Option<&'a [u8]> {
    let mut len = [0u8; 1];
    file.read_exact(&mut len).ok()?;
    let bytes = space.get_mut(..usize::from(len[0]))?;
    let _ = file.read_exact(bytes);
    Some(bytes)
}

fn main(rt: HostRuntime) -> Result<()> {
    let mut file = File::open(&rt, "examples.bin")?;
    let mut space = [0u8; 64];
    // There are fewer examples than turns.
    for _ in 0..200 {
        let Some(bytes) = next_example(&mut file, &mut space) else {
            break;
        };
        show(rt.stdout(), bytes);
    }
    Ok(())
}
