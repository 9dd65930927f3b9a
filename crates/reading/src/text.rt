// Names and version strings.
ghost use Rattle.std.specs.Prelude.{◌≡◌, ◌≤◌, ℕ, Bool, length, ltb};
ghost use Rattle.reading.specs.Read.{map_r, pick};
ghost use Rattle.reading.specs.Text.{all, name_byte, version_byte, text_bytes, read_text, read_name};
ghost use Rattle.reading.specs.Link.{answer, least_of, alphabet_of};
ghost use Rattle.reading.specs.Short.{name_row, name_head, tally, count};

use crate::cursor::{Answer, Cursor};
use crate::fault::Fault;
use crate::limits;

// What a string is: a name has a byte at least, and a narrower alphabet.
#[derive(Clone, Copy, Debug, PartialEq, Eq)]
pub enum Text {
    Name,
    Version,
}

// The letters, digits and the underscore among the 32 bytes from 32 * row on, one bit each.
fn name_row(row: u8) -> u32
    ensures { result ≡ name_row row }
{
    match row {
        1 => 0x03FF0000,
        2 => 0x87FFFFFE,
        3 => 0x07FFFFFE,
        _ => 0,
    }
}

// The bytes that may stand in a string.
pub(crate) trait Alphabet {
    ghost holds: { ℕ → Bool };

    fn has(b: u8) -> bool
        ensures { result ≡ holds b };
}

// ASCII letters, digits and the underscore.
pub(crate) struct NameBytes {}

impl Alphabet for NameBytes {
    ghost holds = { name_byte };

    fn has(b: u8) -> bool {
        let row = name_row(b / 32);
        let k = (b % 32) as u32;
        (row >> k) % 2 == 1
    }
}

// Printing ASCII characters, and the space.
pub(crate) struct VersionBytes {}

impl Alphabet for VersionBytes {
    ghost holds = { version_byte };

    fn has(b: u8) -> bool {
        matches!(b, 32..=126)
    }
}

fn least(text: Text) -> u64
    ensures { result ≡ least_of text }
{
    match text {
        Text::Name => 1,
        Text::Version => 0,
    }
}

// Whether all bytes are of the alphabet.
fn all_of<A: Alphabet>(bytes: &[u8]) -> bool
    ensures { result ≡ all A.holds bytes.now }
{
    for b in bytes {
        if !A::has(*b) {
            return false;
        }
    }
    true
}

// 1 for a byte from one to another, else 0.
fn within(b: u8, low: u8, high: u8) -> u8
    ensures value { result ≡ pick (ltb b low) 0 (pick (ltb high b) 0 1) }
    ensures upper_bound { result ≤ 1 }
{
    if b < low {
        return 0;
    }
    if high < b {
        return 0;
    }
    1
}

// 1 for a byte of a name, else 0. No branch is left of this, so the compiler counts many bytes at a time.
fn name_tally(b: u8) -> u8
    ensures value { result ≡ tally (name_byte b) }
    ensures upper_bound { result ≤ 1 }
{
    within(b, 48, 57) + within(b, 65, 90) + within(b, 95, 95) + within(b, 97, 122)
}

// How many bytes are those of a name.
fn count_name_bytes(bytes: &[u8]) -> u8
    requires { length bytes.now ≤ 255 }
    ensures { result ≡ count name_byte bytes.now }
{
    let mut n: u8 = 0;
    for b in bytes {
        n += name_tally(*b);
    }
    n
}

// The same as `all_of`, by counting: for the longer names.
fn all_counted(bytes: &[u8]) -> bool
    ensures { result ≡ all name_byte bytes.now }
{
    if 255 < bytes.len() {
        return all_of::<NameBytes>(bytes);
    }
    count_name_bytes(bytes) as usize == bytes.len()
}

fn all_in_alphabet(text: Text, bytes: &[u8]) -> bool
    ensures { result ≡ all (alphabet_of text) bytes.now }
{
    match text {
        Text::Name => all_counted(bytes),
        Text::Version => all_of::<VersionBytes>(bytes),
    }
}

// Whether this byte is the head of a string that is not empty.
fn name_head(b: u8) -> bool
    ensures { result ≡ name_head b }
{
    matches!(b, 97..=119)
}

// The bytes of a string whose head stands at `at` and is read.
fn text_bytes(doc: &[u8], text: Text, at: usize, len: usize, from: usize) -> Answer<u64>
    requires { from ≤ length doc.now }
    ensures { result ≡ answer (map_r length (text_bytes (alphabet_of text) doc.now at len from)) }
{
    if doc.len() - from < len {
        return Err(Fault::Truncated.at(at));
    }
    let end = from + len;
    if all_in_alphabet(text, &doc[from..end]) {
        return Ok((len as u64, Cursor { at: end }));
    }
    Err(Fault::OutsideAlphabet.at(at))
}

impl Cursor {
    // A name: its length, and the cursor after it. Mostly its head is one byte and its bytes are those of a name; `text` reads the others.
    pub fn name(self, doc: &[u8]) -> Answer<u64>
        ensures { result ≡ answer (map_r length (read_name doc.now self.at)) }
    {
        let at = self.at;
        let len = doc.len();
        if at < len {
            let b = doc[at];
            if name_head(b) {
                let n = (b % 32) as usize;
                if n < len - at {
                    let from = at + 1;
                    let end = from + n;
                    if all_of::<NameBytes>(&doc[from..end]) {
                        return Ok((n as u64, Cursor { at: end }));
                    }
                }
            }
        }
        let whole = doc;
        self.text(whole, Text::Name)
    }

    // A string: its length, and the cursor after it.
    pub fn text(self, doc: &[u8], text: Text) -> Answer<u64>
        ensures { result ≡ answer (map_r length (read_text (least_of text) (alphabet_of text) doc.now self.at)) }
    {
        let at = self.at;
        let (len, next) = self.kind(doc, 3)?;
        if len < least(text) || limits::TEXT < len {
            return Err(Fault::OutOfRange.at(at));
        }
        text_bytes(doc, text, at, len as usize, next.at)
    }
}
