// The head of an item at a place in the document.
ghost use Rattle.std.specs.Prelude.{◌≡◌, ◌+◌, ◌<◌, ◌≤◌, length};
ghost use Rattle.reading.specs.Head.{be1, be2, be4, be8, settled, simple, wide_head, head_with, read_head};
ghost use Rattle.reading.specs.Link.{answer};

use crate::fault::{Fault, Refusal};

// A place in the document.
#[derive(Clone, Copy, Debug, PartialEq, Eq)]
pub struct Cursor {
    pub at: usize,
}

// What an item's first bytes say.
#[derive(Clone, Copy, Debug, PartialEq, Eq)]
pub struct Head {
    pub major: u8,
    pub argument: u64,
}

// What is read at a cursor, and the cursor after it; or why nothing is.
pub type Answer<T> = Result<(T, Cursor), Refusal>;

fn one(doc: &[u8], at: usize) -> u64
    requires { at + 1 ≤ length doc.now }
    ensures { (result ≡ be1 doc.now at) × (result < 256) }
{
    u64::from(doc[at])
}

fn two(doc: &[u8], at: usize) -> u64
    requires { at + 2 ≤ length doc.now }
    ensures { (result ≡ be2 doc.now at) × (result < 65536) }
{
    one(doc, at) * 256 + one(doc, at + 1)
}

fn four(doc: &[u8], at: usize) -> u64
    requires { at + 4 ≤ length doc.now }
    ensures { (result ≡ be4 doc.now at) × (result < 4294967296) }
{
    two(doc, at) * 65536 + two(doc, at + 2)
}

fn eight(doc: &[u8], at: usize) -> u64
    requires { at + 8 ≤ length doc.now }
    ensures { result ≡ be8 doc.now at }
{
    four(doc, at) * 4294967296 + four(doc, at + 4)
}

// What reads a head stands in its callers, down from here: as the answer of a call a head would go through memory with the fill behind its major
// type, and documents full of bools or of numbers from 24 on would take longer.

// A head whose argument was read: refused where a shorter head would do.
#[inline(always)]
fn settle(major: u8, argument: u64, least: u64, at: usize, next: usize) -> Answer<Head>
    ensures { result ≡ answer (settled major argument least at next) }
{
    if argument < least {
        Err(Fault::NonCanonical.at(at))
    } else {
        Ok((Head { major, argument }, Cursor { at: next }))
    }
}

// Major type 7: false, true and null.
#[inline(always)]
fn simple_head(info: u8, at: usize) -> Answer<Head>
    requires { at + 1 < 18446744073709551616 }
    ensures { result ≡ answer (simple info at) }
{
    match info {
        20..=22 => Ok((
            Head {
                major: 7,
                argument: info as u64,
            },
            Cursor { at: at + 1 },
        )),
        _ => Err(Fault::Unexpected.at(at)),
    }
}

// A head whose argument stands in the bytes after it; each width has its word in `specs/Head.antt`.
#[inline(always)]
fn wide_head(doc: &[u8], at: usize, major: u8, info: u8) -> Answer<Head>
    requires { at < length doc.now }
    ensures { result ≡ answer (wide_head major info doc.now at) }
{
    let left = doc.len() - at - 1;
    match info {
        24 => {
            if left < 1 {
                return Err(Fault::Truncated.at(at));
            }
            settle(major, one(doc, at + 1), 24, at, at + 1 + 1)
        }
        25 => {
            if left < 2 {
                return Err(Fault::Truncated.at(at));
            }
            settle(major, two(doc, at + 1), 256, at, at + 1 + 2)
        }
        26 => {
            if left < 4 {
                return Err(Fault::Truncated.at(at));
            }
            settle(major, four(doc, at + 1), 65536, at, at + 1 + 4)
        }
        _ => {
            if left < 8 {
                return Err(Fault::Truncated.at(at));
            }
            settle(major, eight(doc, at + 1), 4294967296, at, at + 1 + 8)
        }
    }
}

// What the first byte decides, taken apart into major type and additional information.
#[inline(always)]
fn head_with(doc: &[u8], at: usize, major: u8, info: u8) -> Answer<Head>
    requires { at < length doc.now }
    ensures { result ≡ answer (head_with major info doc.now at) }
{
    if 27 < info {
        return Err(Fault::NonCanonical.at(at));
    }
    if major == 7 {
        return simple_head(info, at);
    }
    match info {
        0..=23 => Ok((
            Head {
                major,
                argument: info as u64,
            },
            Cursor { at: at + 1 },
        )),
        _ => wide_head(doc, at, major, info),
    }
}

// The head at any place, past the end too.
#[inline(always)]
pub(crate) fn head_at(doc: &[u8], at: usize) -> Answer<Head>
    ensures { result ≡ answer (read_head doc.now at) }
{
    if doc.len() <= at {
        return Err(Fault::Truncated.at(at));
    }
    let b = doc[at];
    head_with(doc, at, b / 32, b % 32)
}

impl Cursor {
    // The head at the cursor.
    #[inline(always)]
    pub fn head(self, doc: &[u8]) -> Answer<Head>
        ensures { result ≡ answer (read_head doc.now self.at) }
    {
        head_at(doc, self.at)
    }
}
