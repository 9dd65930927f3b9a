// The steps of one record.
use crate::judge::{Kind, number_of};
use crate::tally::{Pieces, Tally};
use std::fmt;
use std::fmt::Write;
use std::io::Stdout;

// The words of a block of names.
const BLOCK: usize = 829;

// A step: the number of an item's kind, the number that is due, and the item's place.
#[derive(Clone, Copy)]
struct Step {
    kind: u8,
    due: u8,
    at: u16,
}

impl From<[u8; 4]> for Step {
    fn from(bytes: [u8; 4]) -> Step {
        let [kind, due, low, high] = bytes;
        Step {
            kind,
            due,
            at: u16::from_le_bytes([low, high]),
        }
    }
}

// As it stands behind its document's number: the comma is one piece with the word behind it.
impl fmt::Display for Step {
    fn fmt<W: fmt::Write>(&self, f: &mut fmt::Formatter<W>) -> fmt::Result {
        let Step { kind, due, at } = *self;
        write!(f, ", kind {kind} at {at}: due {due}")
    }
}

// The tables of a module: names in a block of variables and, where a pattern has bindings, one of these; enums; groups of events, in so
// many words; and outputs.
#[derive(Drop)]
struct Tables {
    names: [usize; 2 * BLOCK],
    binds: bool,
    enums: [usize; 2365],
    events: [usize; 512],
    event_words: usize,
    outputs: [usize; 1022],
}

impl Tables {
    // Goes through the pattern at a place; the number of its cause.
    fn bind(&mut self, doc: &[u8], at: usize) -> u32 {
        let Some(events) = self.events.get(..self.event_words) else {
            return 255;
        };
        let b = typing::validate_event_pattern(doc, at, events, &mut self.names, BLOCK);
        self.binds = 0 < b.words && b.words <= 510;
        if self.binds {
            typing::weave(doc, &mut self.names, BLOCK, b.words / 2);
        }
        typing::blame_number(doc, b.blame)
    }

    // The number of the item of the kind at a place, with the names it sees.
    fn ask(&self, doc: &[u8], kind: Kind, at: usize) -> u32 {
        let seen = if kind.sees_bindings() && self.binds {
            2 * BLOCK
        } else {
            BLOCK
        };
        number_of(
            doc,
            kind,
            at,
            &self.outputs,
            &self.names[..seen],
            &self.enums,
        )
    }

    // Takes one of the module's lists, or judges an item: its number.
    fn advance(&mut self, doc: &[u8], kind: Kind, at: usize) -> Option<u32> {
        match kind {
            Kind::Enums => typing::fill_enums(doc, at, &mut self.enums),
            Kind::Vars => {
                typing::fill_block(doc, at, &mut self.names);
                self.binds = false;
            }
            Kind::Events => self.event_words = typing::fill_table(doc, at, &mut self.events),
            Kind::Outputs => typing::fill_outputs(doc, at, &mut self.outputs),
            Kind::Pattern => return Some(self.bind(doc, at)),
            _ => return Some(self.ask(doc, kind, at)),
        }
        None
    }

    // The number that is given for a step; 255 for one of no kind, none for a list.
    fn number(&mut self, doc: &[u8], step: Step) -> Option<u32> {
        let Some(kind) = Kind::of(step.kind) else {
            return Some(255);
        };
        self.advance(doc, kind, usize::from(step.at))
    }
}

// Judges every step, and prints each that is answered otherwise than is due.
pub(crate) fn replay_steps(out: Stdout, doc: &[u8], steps: &[u8], tally: &mut Tally) {
    tally.count_document();
    let mut tables = Tables {
        names: [0; 2 * BLOCK],
        binds: false,
        enums: [0; 2365],
        events: [0; 512],
        event_words: 0,
        outputs: [0; 1022],
    };
    let (steps, _) = steps.as_chunks::<4>();
    for bytes in steps {
        let step = Step::from(*bytes);
        let Some(given) = tables.number(doc, step) else {
            continue;
        };
        let due = u32::from(step.due);
        if given != due {
            let documents = tally.documents;
            let _ = write!(
                Pieces(out),
                "document {documents}{step}, answered {given}\n"
            );
        }
        tally.count(due, given);
    }
}
