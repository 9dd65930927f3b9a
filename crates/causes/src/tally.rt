// How many items were answered how, and how texts are printed.
use std::fmt;
use std::io::Stdout;

// Standard output, which gets each piece of a text by itself: one that cannot be written is left out.
// Texts have their line's end in them: by `writeln!` it would be a piece of its own.
#[derive(Clone, Copy)]
pub(crate) struct Pieces(pub(crate) Stdout);

impl fmt::Write for Pieces {
    fn write_str(&mut self, piece: &str) -> fmt::Result {
        let _ = self.0.write_all(piece.as_bytes());
        Ok(())
    }
}

// How many documents there were; how many items were found without a fault, with one, and otherwise than is due.
#[derive(Clone, Copy, Default)]
pub(crate) struct Tally {
    pub(crate) documents: u64,
    pub(crate) sound: u64,
    pub(crate) faulty: u64,
    pub(crate) wrong: u64,
}

impl Tally {
    // One more document.
    pub(crate) fn count_document(&mut self) {
        self.documents = self.documents.saturating_add(1);
    }

    // One more item.
    pub(crate) fn count(&mut self, due: u32, given: u32) {
        let count = if given != due {
            &mut self.wrong
        } else if due == 0 {
            &mut self.sound
        } else {
            &mut self.faulty
        };
        *count = count.saturating_add(1);
    }
}

impl fmt::Display for Tally {
    fn fmt<W: fmt::Write>(&self, f: &mut fmt::Formatter<W>) -> fmt::Result {
        let Tally {
            documents,
            sound,
            faulty,
            wrong,
        } = *self;
        write!(
            f,
            "{documents} documents: {sound} items without a fault, {faulty} with one, {wrong} answered otherwise\n"
        )
    }
}
