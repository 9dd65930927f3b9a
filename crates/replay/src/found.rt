// Replays data/findings.bin: each record has a document, and its findings or its refusal, as the original Rust gives them.
use crate::file::{Pieces, Records, next_byte, next_word, read_front};
use crate::sheet::{Due, Sheet, judge};
use std::fmt;
use std::fmt::Write;
use std::fs::File;
use std::io::Stdout;
use std::ops::ControlFlow;

// How many documents were accepted and refused as is due, and how many were not; how many findings there were; and the words that are lent.
#[derive(Drop)]
pub(crate) struct Sheets {
    accepted: u64,
    findings: u64,
    refused: u64,
    wrong: u64,
    sheet: Sheet,
}

impl fmt::Display for Sheets {
    fn fmt<W: fmt::Write>(&self, f: &mut fmt::Formatter<W>) -> fmt::Result {
        let Sheets {
            accepted,
            findings,
            refused,
            wrong,
            ..
        } = *self;
        write!(
            f,
            "{accepted} documents with {findings} findings, {refused} refused, {wrong} answered otherwise\n"
        )
    }
}

impl Sheets {
    pub(crate) fn new() -> Sheets {
        Sheets {
            accepted: 0,
            findings: 0,
            refused: 0,
            wrong: 0,
            sheet: [0; 16384],
        }
    }

    fn count_right(&mut self, due: Due) {
        if due.number != 0 {
            self.refused = self.refused.saturating_add(1);
            return;
        }
        self.accepted = self.accepted.saturating_add(1);
        self.findings = self.findings.saturating_add(due.findings() as u64);
    }

    fn count_wrong(&mut self) {
        self.wrong = self.wrong.saturating_add(1);
    }
}

// The next answer that is due; past the file's end 256 with 2^32 and 2^32.
fn next_due(file: &mut File) -> Due {
    Due {
        number: next_byte(file).map_or(256, u64::from),
        first: next_word(file).map_or(1 << 32, u64::from),
        second: next_word(file).map_or(1 << 32, u64::from),
    }
}

impl Records for Sheets {
    // The findings that are due follow the answer, six bytes each.
    fn judge(&mut self, file: &mut File, out: Stdout, doc: &[u8]) -> ControlFlow<()> {
        let due = next_due(file);
        let mut space = [0u8; 20000];
        let Some(findings) = read_front(file, &mut space, 6 * due.findings()) else {
            return self.cut_off();
        };
        if judge(doc, &mut self.sheet, findings, due) {
            self.count_right(due);
        } else {
            let _ = write!(Pieces(out), "otherwise than is due: {due}\n");
            self.count_wrong();
        }
        ControlFlow::Continue(())
    }

    fn cut_off(&mut self) -> ControlFlow<()> {
        self.count_wrong();
        ControlFlow::Break(())
    }
}
