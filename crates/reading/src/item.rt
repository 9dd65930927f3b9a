// Items of one head, with their limits.
ghost use Rattle.std.specs.Prelude.{◌≡◌};
ghost use Rattle.reading.specs.Item.{read_kind, read_number, read_ir_version, read_case, read_bool, read_fields, read_count, read_tag};
ghost use Rattle.reading.specs.Combine.{sized};
ghost use Rattle.reading.specs.Read.{ok};
ghost use Rattle.reading.specs.Link.{answer, stands};
ghost use Rattle.reading.specs.Short.{is_one_byte, tag_head};

use crate::cursor::{Answer, Cursor};
use crate::fault::{Fault, Refusal};
use crate::limits;

// The head of a data enum: the array's start and count, the case number and its place.
#[derive(Clone, Copy, Debug, PartialEq, Eq)]
pub struct Tag {
    pub start: usize,
    pub count: u64,
    pub case: u64,
    pub place: usize,
}

// Whether a head is this byte alone: of the major type that is due, with its argument in it.
pub(crate) fn one_byte(b: u8, due: u8) -> bool
    ensures { result ≡ is_one_byte due b }
{
    if 6 < due {
        return false;
    }
    let first = due * 32;
    if b < first {
        return false;
    }
    b - first < 24
}

// Whether these two bytes are the head of a data enum: an array that is not empty, and a case number.
fn tag_head(b: u8, case: u8) -> bool
    ensures { result ≡ tag_head b case }
{
    matches!(b, 129..=151) && case < 24
}

impl Cursor {
    // The argument of an item of the major type that is due. Most heads are one byte; `any_kind` reads the others.
    pub fn kind(self, doc: &[u8], due: u8) -> Answer<u64>
        ensures { result ≡ answer (read_kind due doc.now self.at) }
    {
        let at = self.at;
        if doc.len() <= at {
            return Err(Fault::Truncated.at(at));
        }
        let b = doc[at];
        if one_byte(b, due) {
            return Ok(((b % 32) as u64, Cursor { at: at + 1 }));
        }
        let whole = doc;
        self.any_kind(whole, due)
    }

    // The same, by the whole head. A call, so that what reads a head does not stand in every caller of `kind` too.
    #[inline(never)]
    pub(crate) fn any_kind(self, doc: &[u8], due: u8) -> Answer<u64>
        ensures { result ≡ answer (read_kind due doc.now self.at) }
    {
        let (head, next) = self.head(doc)?;
        if head.major == due {
            Ok((head.argument, next))
        } else {
            Err(Fault::Unexpected.at(self.at))
        }
    }

    // A number that is at most the limit.
    pub fn number(self, doc: &[u8], limit: u64) -> Answer<u64>
        ensures { result ≡ answer (read_number limit doc.now self.at) }
    {
        let (value, next) = self.kind(doc, 0)?;
        if limit < value {
            return Err(Fault::OutOfRange.at(self.at));
        }
        Ok((value, next))
    }

    // ir_version.
    pub(crate) fn ir_version(self, doc: &[u8]) -> Answer<u64>
        ensures { result ≡ answer (read_ir_version doc.now self.at) }
    {
        let (version, next) = self.kind(doc, 0)?;
        if limits::VERSION < version {
            return Err(Fault::UnknownVersion.at(self.at));
        }
        Ok((version, next))
    }

    // A bare case number.
    pub fn case_number(self, doc: &[u8], cases: u64) -> Answer<u64>
        ensures { result ≡ answer (read_case cases doc.now self.at) }
    {
        let (case, next) = self.kind(doc, 0)?;
        if case < cases {
            return Ok((case, next));
        }
        Err(Fault::Unexpected.at(self.at))
    }

    // A bool.
    pub(crate) fn boolean(self, doc: &[u8]) -> Answer<bool>
        ensures { result ≡ answer (read_bool doc.now self.at) }
    {
        let (simple, next) = self.any_kind(doc, 7)?;
        match simple {
            20 => Ok((false, next)),
            21 => Ok((true, next)),
            _ => Err(Fault::Unexpected.at(self.at)),
        }
    }

    // The head of a record of as many fields.
    pub(crate) fn fields(self, doc: &[u8], fields: u64) -> Result<Cursor, Refusal>
        ensures { result ≡ stands (read_fields fields doc.now self.at) }
    {
        let (count, next) = self.kind(doc, 4)?;
        if count == fields {
            Ok(next)
        } else {
            Err(Fault::Unexpected.at(self.at))
        }
    }

    // The head of a list of at most as many entries.
    pub fn count(self, doc: &[u8], limit: u64) -> Answer<u64>
        ensures { result ≡ answer (read_count limit doc.now self.at) }
    {
        let (entries, next) = self.kind(doc, 4)?;
        if limit < entries {
            return Err(Fault::OutOfRange.at(self.at));
        }
        Ok((entries, next))
    }

    // The head of a data enum. Mostly it is two bytes; `any_tag` reads the others.
    pub fn tag(self, doc: &[u8]) -> Answer<Tag>
        ensures { result ≡ answer (read_tag doc.now self.at) }
    {
        let at = self.at;
        let len = doc.len();
        if at < len && 1 < len - at {
            let b = doc[at];
            let case = doc[at + 1];
            if tag_head(b, case) {
                return Ok((
                    Tag {
                        start: at,
                        count: (b % 32) as u64,
                        case: case as u64,
                        place: at + 1,
                    },
                    Cursor { at: at + 2 },
                ));
            }
        }
        let whole = doc;
        self.any_tag(whole)
    }

    // The same, head by head.
    pub(crate) fn any_tag(self, doc: &[u8]) -> Answer<Tag>
        ensures { result ≡ answer (read_tag doc.now self.at) }
    {
        let start = self.at;
        let (count, next) = self.kind(doc, 4)?;
        if count == 0 {
            return Err(Fault::Unexpected.at(start));
        }
        let place = next.at;
        let (case, after) = next.kind(doc, 0)?;
        Ok((
            Tag {
                start,
                count,
                case,
                place,
            },
            after,
        ))
    }

    // After a case number, if the array has as many items as are due.
    pub(crate) fn sized(self, tag: Tag, due: u64) -> Result<Cursor, Refusal>
        ensures { result ≡ stands (sized tag due (ok (tt {0}) self.at)) }
    {
        if tag.count == due {
            return Ok(self);
        }
        Err(Fault::Unexpected.at(tag.start))
    }
}
