// What is to be printed for a document, held against what the calls give.
use std::fmt;
use std::fmt::Write;

// What is still to be printed: each piece that is written must be its front.
#[derive(Clone, Copy)]
struct Due<'a>(&'a [u8]);

impl Due<'_> {
    fn pass(&mut self, piece: &[u8]) -> fmt::Result {
        self.0 = self.0.strip_prefix(piece).ok_or(fmt::Error)?;
        Ok(())
    }

    // The message of finding number k.
    fn pass_message(&mut self, doc: &[u8], k: u64) -> fmt::Result {
        let mut text = [0u8; 8192];
        let mut answer = [0u64; 2];
        if offer::offer_message(doc, k, &mut text, &mut answer) != 0 {
            return Err(fmt::Error);
        }
        self.pass(text.get(..answer[0] as usize).ok_or(fmt::Error)?)
    }

    // The lines of an accepted document: those of its errors, its warnings and both counts.
    fn pass_all(&mut self, doc: &[u8], errors: u64, warnings: u64) -> fmt::Result {
        if 3276 < errors || 3276 < warnings {
            return Err(fmt::Error);
        }
        for k in 0..errors + warnings {
            if errors <= k {
                self.pass(b"warning: ")?;
            }
            self.pass_message(doc, k)?;
            self.pass(b"\n")?;
        }
        writeln!(self, "{errors} errors, {warnings} warnings")
    }

    // All that the calls give for a document.
    fn pass_document(&mut self, doc: &[u8]) -> fmt::Result {
        let mut words = [0u32; 16380];
        let mut answer = [0u64; 2];
        let number = offer::offer_findings(doc, &mut words, &mut answer);
        let [first, second] = answer;
        if number == 0 {
            return self.pass_all(doc, first, second);
        }
        writeln!(self, "refused {number} at {first}")
    }
}

impl fmt::Write for Due<'_> {
    fn write_str(&mut self, s: &str) -> fmt::Result {
        self.pass(s.as_bytes())
    }
}

// Whether what the calls give for a document is all that is due.
pub(crate) fn as_due(doc: &[u8], text: &[u8]) -> bool {
    let mut due = Due(text);
    due.pass_document(doc).is_ok() && due.0.is_empty()
}
