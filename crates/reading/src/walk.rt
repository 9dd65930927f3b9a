// Walking an accepted document by offsets: past items, and the bytes of a string.
ghost use Rattle.std.specs.Prelude.{◌≡◌, ◌+◌, ◌<◌, ◌≤◌, length, get_or};
ghost use Rattle.reading.specs.Items.{inside, payload};
ghost use Rattle.reading.specs.Skip.{skip_body, skip_head, skip_items, text_at};
ghost use Rattle.reading.specs.Link.{answer, stands};
ghost use Rattle.reading.specs.Short.{Passed};

use crate::cursor::{Answer, Cursor, Head};
use crate::fault::{Fault, Refusal};
use crate::item;

// The items that are left, and where the first stands.
#[derive(Clone, Copy, Debug, PartialEq, Eq)]
struct Rest {
    left: u64,
    at: usize,
}

// How many items are inside an item, and how many bytes follow its head: two functions of `specs/Items.antt`.
fn inside(head: Head) -> u64
    ensures { result ≡ inside head }
{
    if head.major == 4 { head.argument } else { 0 }
}

fn payload(head: Head) -> u64
    ensures { result ≡ payload head }
{
    if head.major == 3 { head.argument } else { 0 }
}

impl Cursor {
    // Past one head and its string's bytes: how many items are then left, those inside it and `more` after it.
    fn skip_head(self, doc: &[u8], more: u64) -> Answer<u64>
        ensures { result ≡ answer (skip_head more doc.now self.at) }
    {
        let at = self.at;
        let (head, next) = self.head(doc)?;
        next.skip_body(doc, at, more, inside(head), payload(head))
    }

    // The same after the head.
    fn skip_body(self, doc: &[u8], at: usize, more: u64, items: u64, bytes: u64) -> Answer<u64>
        requires { self.at ≤ length doc.now }
        ensures { result ≡ answer (skip_body more items bytes doc.now at self.at) }
    {
        let from = self.at;
        let room = (doc.len() - from) as u64;
        if room < more {
            return Err(Fault::Truncated.at(at));
        }
        if room - more < items {
            return Err(Fault::Truncated.at(at));
        }
        if room - more - items < bytes {
            return Err(Fault::Truncated.at(at));
        }
        Ok((
            more + items,
            Cursor {
                at: from + bytes as usize,
            },
        ))
    }

    // Past so many items, the first by its whole head, and each after which the next head is longer.
    fn skip_any(self, doc: &[u8], count: u64) -> Result<Cursor, Refusal>
        ensures { result ≡ stands (skip_items count doc.now self.at) }
    {
        let mut at = self.at;
        let mut left = count;
        while 0 < left {
            let c = Cursor { at };
            let (items, next) = c.skip_head(doc, left - 1)?;
            let rest = next.skip_shorts(doc, items);
            left = rest.left;
            at = rest.at;
        }
        Ok(Cursor { at })
    }

    // Past a string whose head is two bytes, as that of a name of 24 bytes or more is.
    fn skip_string(self, doc: &[u8], more: u64) -> Option<(u64, Cursor)>
        requires more_in_bounds { self.at + 1 + more ≤ length doc.now }
        requires at_value { get_or doc.now self.at 0 ≡ 120 }
        ensures { Passed more doc.now self.at result }
    {
        let next = self.at + 1;
        let room = (doc.len() - next) as u64 - more;
        if room == 0 {
            return None;
        }
        let n = doc[next] as u64;
        if n < 24 {
            return None;
        }
        if room <= n {
            return None;
        }
        Some((
            more,
            Cursor {
                at: next + 1 + n as usize,
            },
        ))
    }

    // Past one head of one byte, or a string's of two, and its string's bytes: how many items are then left, as `skip_head` says.
    fn skip_short(self, doc: &[u8], more: u64) -> Option<(u64, Cursor)>
        requires { self.at + 1 + more ≤ length doc.now }
        ensures { Passed more doc.now self.at result }
    {
        let at = self.at;
        let b = doc[at];
        let next = at + 1;
        if b < 24 {
            return Some((more, Cursor { at: next }));
        }
        let room = (doc.len() - next) as u64 - more;
        let n = (b % 32) as u64;
        if 128 <= b {
            if b < 152 {
                if n <= room {
                    return Some((more + n, Cursor { at: next }));
                }
                return None;
            }
            if 244 <= b {
                if b <= 246 {
                    return Some((more, Cursor { at: next }));
                }
            }
            return None;
        }
        if 96 <= b {
            if b < 120 {
                if n <= room {
                    return Some((
                        more,
                        Cursor {
                            at: next + n as usize,
                        },
                    ));
                }
                return None;
            }
            if b == 120 {
                return self.skip_string(doc, more);
            }
        }
        None
    }

    // Past the items before the first whose head is longer.
    // Before each turn the bytes ahead can hold the items left, so that none is counted for a number.
    fn skip_shorts(self, doc: &[u8], count: u64) -> Rest
        ensures at_value { skip_items result.left doc.now result.at ≡ skip_items count doc.now self.at }
        ensures at_le_at { self.at ≤ result.at }
    {
        let mut at = self.at;
        let mut left = count;
        let len = doc.len();
        if len <= at {
            return Rest { left, at };
        }
        if ((len - at) as u64) < count {
            return Rest { left, at };
        }
        while 0 < left {
            let c = Cursor { at };
            let Some((items, next)) = c.skip_short(doc, left - 1) else {
                return Rest { left, at };
            };
            left = items;
            at = next.at;
        }
        Rest { left, at }
    }

    // Past so many items, whatever they hold. Mostly heads are one byte, or a string's two; `skip_any` goes on from the first that is longer.
    pub fn skip(self, doc: &[u8], count: u64) -> Result<Cursor, Refusal>
        ensures { result ≡ stands (skip_items count doc.now self.at) }
    {
        let rest = self.skip_shorts(doc, count);
        let c = Cursor { at: rest.at };
        c.skip_any(doc, rest.left)
    }
}

// The bytes of the string at a place, as that part of the document; none where no string stands there.
// Mostly its head is one byte; `any_text_at` reads the others.
pub fn text_at(doc: &[u8], at: usize) -> &[u8]
    ensures { result.now ≡ text_at doc.now at }
{
    let len = doc.len();
    if at < len {
        let b = doc[at];
        if item::one_byte(b, 3) {
            let n = (b % 32) as usize;
            if n < len - at {
                let from = at + 1;
                let end = from + n;
                return &doc[from..end];
            }
        }
    }
    let whole = doc;
    any_text_at(whole, at)
}

// The same where the head is two bytes; `whole_text_at` reads the others.
fn any_text_at(doc: &[u8], at: usize) -> &[u8]
    ensures { result.now ≡ text_at doc.now at }
{
    let len = doc.len();
    if at < len {
        if doc[at] == 120 {
            let next = at + 1;
            if next < len {
                let n = doc[next] as usize;
                if 23 < n {
                    if n < len - next {
                        let from = next + 1;
                        let end = from + n;
                        return &doc[from..end];
                    }
                }
            }
        }
    }
    let whole = doc;
    whole_text_at(whole, at)
}

// The same, by the whole head.
fn whole_text_at(doc: &[u8], at: usize) -> &[u8]
    ensures { result.now ≡ text_at doc.now at }
{
    let c = Cursor { at };
    let Ok((len, next)) = c.any_kind(doc, 3) else {
        return &doc[0..0];
    };
    let from = next.at;
    if ((doc.len() - from) as u64) < len {
        return &doc[0..0];
    }
    let end = from + len as usize;
    &doc[from..end]
}
