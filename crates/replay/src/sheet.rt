// One record of data/findings.bin: whether a document's findings, or its refusal, are as is due, and every lent word with them.
ghost use Rattle.std.specs.Prelude.{◌<◌};

use std::fmt;

// What a word holds before a call.
const OLD: u32 = 2882400001;

// The words that are lent where a document is refused.
const LENT: usize = 16380;

// The words that there are to lend. They are filled only as far as they are lent, since most documents need few.
pub(crate) type Sheet = [u32; 16384];

// What a call is to answer: its number, and two words.
#[derive(Clone, Copy)]
pub(crate) struct Due {
    pub(crate) number: u64,
    pub(crate) first: u64,
    pub(crate) second: u64,
}

impl fmt::Display for Due {
    fn fmt<W: fmt::Write>(&self, f: &mut fmt::Formatter<W>) -> fmt::Result {
        let Due {
            number,
            first,
            second,
        } = *self;
        write!(f, "{number} with {first} and {second}")
    }
}

impl Due {
    // How many findings there are, as long as the lent words hold them.
    pub(crate) fn findings(self) -> usize
        ensures { result < 3277 }
    {
        if self.number != 0 || 3276 < self.first || 3276 - self.first < self.second {
            return 0;
        }
        (self.first + self.second) as usize
    }
}

// The word at a place of the findings that are due, of which six bytes each are kept; what it held before, past them.
fn due_word(findings: &[[u8; 6]], k: usize) -> u32 {
    let Some(&[module, site, low, high, second, cause]) = findings.get(k / 5) else {
        return OLD;
    };
    match k % 5 {
        0 => module.into(),
        1 => site.into(),
        2 => u16::from_le_bytes([low, high]).into(),
        3 => second.into(),
        _ => cause.into(),
    }
}

// Whether each word is as is due.
fn are_due(words: &[u32], findings: &[u8]) -> bool {
    let (findings, _) = findings.as_chunks::<6>();
    words
        .iter()
        .enumerate()
        .all(|(k, word)| *word == due_word(findings, k))
}

// Whether the call with so many words lent answers as is due, and leaves the words so.
fn answers(doc: &[u8], sheet: &mut Sheet, lent: usize, findings: &[u8], due: Due) -> bool {
    let Some(words) = sheet.get_mut(..lent) else {
        return false;
    };
    words.fill(OLD);
    let mut answer = [0u64; 2];
    let number = offer::offer_findings(doc, words, &mut answer);
    u64::from(number) == due.number && answer == [due.first, due.second] && are_due(words, findings)
}

// With one word less than the findings take: they are counted, and no word is written.
fn counts(doc: &[u8], sheet: &mut Sheet, n: usize) -> bool
    requires { n < 3277 }
{
    let due = Due {
        number: 10,
        first: n as u64,
        second: 0,
    };
    n == 0 || answers(doc, sheet, 5 * n - 1, &[], due)
}

// A refused document with all words lent; an accepted one with as many as its findings take, with three more and with one less.
pub(crate) fn judge(doc: &[u8], sheet: &mut Sheet, findings: &[u8], due: Due) -> bool {
    if due.number != 0 {
        return answers(doc, sheet, LENT, findings, due);
    }
    let n = due.findings();
    answers(doc, sheet, 5 * n, findings, due)
        && answers(doc, sheet, 5 * n + 3, findings, due)
        && counts(doc, sheet, n)
}
