// Replays data/messages.bin: each record has a document, and all that is to be printed for it, as the original Rust gives it.
use crate::file::{Records, next_word, read_front};
use crate::lines::as_due;
use std::fmt;
use std::fs::File;
use std::io::Stdout;
use std::ops::ControlFlow;

// How many documents were answered as is due and otherwise.
#[derive(Clone, Copy, Default)]
pub(crate) struct Messages {
    right: u64,
    wrong: u64,
}

impl fmt::Display for Messages {
    fn fmt<W: fmt::Write>(&self, f: &mut fmt::Formatter<W>) -> fmt::Result {
        let Messages { right, wrong } = *self;
        write!(
            f,
            "{right} documents with all that is printed, {wrong} answered otherwise\n"
        )
    }
}

impl Messages {
    fn count(&mut self, right: bool) {
        let count = if right {
            &mut self.right
        } else {
            &mut self.wrong
        };
        *count = count.saturating_add(1);
    }
}

impl Records for Messages {
    fn judge(&mut self, file: &mut File, _out: Stdout, doc: &[u8]) -> ControlFlow<()> {
        let Some(len) = next_word(file) else {
            return self.cut_off();
        };
        let mut space = [0u8; 8192];
        let Some(due) = read_front(file, &mut space, len as usize) else {
            return self.cut_off();
        };
        self.count(as_due(doc, due));
        ControlFlow::Continue(())
    }

    fn cut_off(&mut self) -> ControlFlow<()> {
        self.count(false);
        ControlFlow::Break(())
    }
}
