// Replays data/vectors.bin: each record has a document, and its refusal's number and place, 0 and 0 where it is accepted.
use crate::file::{Pieces, Records, next_byte, next_word};
use std::fmt;
use std::fmt::Write;
use std::fs::File;
use std::io::Stdout;
use std::ops::ControlFlow;

// How many documents were accepted and refused as is due, and how many were not.
#[derive(Clone, Copy, Default)]
pub(crate) struct Vectors {
    accepted: u64,
    refused: u64,
    wrong: u64,
}

impl fmt::Display for Vectors {
    fn fmt<W: fmt::Write>(&self, f: &mut fmt::Formatter<W>) -> fmt::Result {
        let Vectors {
            accepted,
            refused,
            wrong,
        } = *self;
        write!(
            f,
            "{accepted} accepted, {refused} refused, {wrong} answered otherwise\n"
        )
    }
}

// What reading answers.
#[derive(Clone, Copy, PartialEq, Eq)]
struct Reply {
    number: u64,
    place: u64,
}

impl fmt::Display for Reply {
    fn fmt<W: fmt::Write>(&self, f: &mut fmt::Formatter<W>) -> fmt::Result {
        let Reply { number, place } = *self;
        write!(f, "{number} at {place}")
    }
}

fn reply_to(doc: &[u8]) -> Reply {
    let mut place = 0;
    let number = offer::offer_read(doc, &mut place).into();
    Reply { number, place }
}

// The next reply that is due; past the file's end 256 at 2^32.
fn next_reply(file: &mut File) -> Reply {
    Reply {
        number: next_byte(file).map_or(256, u64::from),
        place: next_word(file).map_or(1 << 32, u64::from),
    }
}

impl Records for Vectors {
    fn judge(&mut self, file: &mut File, out: Stdout, doc: &[u8]) -> ControlFlow<()> {
        let due = next_reply(file);
        let given = reply_to(doc);
        let count = if given != due {
            let _ = write!(Pieces(out), "due {due}, answered {given}\n");
            &mut self.wrong
        } else if given.number == 0 {
            &mut self.accepted
        } else {
            &mut self.refused
        };
        *count = count.saturating_add(1);
        ControlFlow::Continue(())
    }

    fn cut_off(&mut self) -> ControlFlow<()> {
        self.wrong = self.wrong.saturating_add(1);
        ControlFlow::Continue(())
    }
}
