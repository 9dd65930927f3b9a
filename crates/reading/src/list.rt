// Kinds of items, one after the other: lists of them, and those that may be null.
ghost use Rattle.std.specs.Prelude.{◌≡◌, ℕ, List, Result};
ghost use Rattle.reading.specs.Item.{read_number, read_ir_version, read_bool};
ghost use Rattle.reading.specs.Limits.{max_u32, max_u64};
ghost use Rattle.reading.specs.Text.{read_name, read_version};
ghost use Rattle.reading.specs.Link.{stands, list_ends, optional_ends, one_ends, past_null};
ghost use Rattle.reading.specs.declared.cursor.Cursor.{Cursor};
ghost use Rattle.reading.specs.declared.fault.Refusal.{Refusal};

use crate::cursor::Cursor;
use crate::fault::Refusal;
use crate::item::Tag;
use crate::limits;
use crate::text::Text;

// A kind of item.
pub(crate) trait Item {
    // Where an item of the kind ends, or why it is refused.
    ghost ends: { List ℕ → ℕ → Result Cursor Refusal };

    // Past an item of the kind.
    fn pass(c: Cursor, doc: &[u8]) -> Result<Cursor, Refusal>
        ensures { result ≡ ends doc.now c.at };
}

// A name.
pub(crate) struct Name {}

impl Item for Name {
    ghost ends = { λ s at. stands (read_name s at) };

    fn pass(c: Cursor, doc: &[u8]) -> Result<Cursor, Refusal> {
        let (_, next) = c.name(doc)?;
        Ok(next)
    }
}

// A version string.
pub(crate) struct Version {}

impl Item for Version {
    ghost ends = { λ s at. stands (read_version s at) };

    fn pass(c: Cursor, doc: &[u8]) -> Result<Cursor, Refusal> {
        let (_, next) = c.text(doc, Text::Version)?;
        Ok(next)
    }
}

// A number of 32 bits. The two kinds differ in a constant, and a type without values for each is the shortest name.
pub(crate) struct U32 {}

impl Item for U32 {
    ghost ends = { λ s at. stands (read_number max_u32 s at) };

    fn pass(c: Cursor, doc: &[u8]) -> Result<Cursor, Refusal> {
        let (_, next) = c.number(doc, limits::U32)?;
        Ok(next)
    }
}

// A number of 64 bits.
pub(crate) struct U64 {}

impl Item for U64 {
    ghost ends = { λ s at. stands (read_number max_u64 s at) };

    fn pass(c: Cursor, doc: &[u8]) -> Result<Cursor, Refusal> {
        let (_, next) = c.number(doc, limits::U64)?;
        Ok(next)
    }
}

// A bool.
pub(crate) struct Bool {}

impl Item for Bool {
    ghost ends = { λ s at. stands (read_bool s at) };

    fn pass(c: Cursor, doc: &[u8]) -> Result<Cursor, Refusal> {
        let (_, next) = c.boolean(doc)?;
        Ok(next)
    }
}

// ir_version.
pub(crate) struct IrVersion {}

impl Item for IrVersion {
    ghost ends = { λ s at. stands (read_ir_version s at) };

    fn pass(c: Cursor, doc: &[u8]) -> Result<Cursor, Refusal> {
        let (_, next) = c.ir_version(doc)?;
        Ok(next)
    }
}

impl Cursor {
    // Past an item.
    pub(crate) fn past<I: Item>(self, doc: &[u8]) -> Result<Cursor, Refusal>
        ensures { result ≡ I.ends doc.now self.at }
    {
        I::pass(self, doc)
    }

    // Past a list of at most as many items.
    pub(crate) fn list<I: Item>(self, doc: &[u8], limit: u64) -> Result<Cursor, Refusal>
        ensures { result ≡ list_ends limit I.ends doc.now self.at }
    {
        self.list_here::<I>(doc, limit)
    }

    // The same in its caller, for lists that are often short.
    #[inline(always)]
    pub(crate) fn list_here<I: Item>(self, doc: &[u8], limit: u64) -> Result<Cursor, Refusal>
        ensures { result ≡ list_ends limit I.ends doc.now self.at }
    {
        let (count, mut c) = self.count(doc, limit)?;
        for _ in 0..count {
            c = I::pass(c, doc)?;
        }
        Ok(c)
    }

    // The one field of a data enum's case, an item of the kind, after the case number.
    pub(crate) fn one<I: Item>(self, doc: &[u8], tag: Tag) -> Result<Cursor, Refusal>
        ensures { result ≡ one_ends I.ends tag doc.now self.at }
    {
        let fields = self.sized(tag, 2)?;
        I::pass(fields, doc)
    }

    // Past null, if it stands here.
    fn null(self, doc: &[u8]) -> Option<Cursor>
        ensures { result ≡ past_null doc.now self.at }
    {
        let at = self.at;
        if at < doc.len() && doc[at] == 246 {
            return Some(Cursor { at: at + 1 });
        }
        None
    }

    // Past null, or an item.
    pub(crate) fn optional<I: Item>(self, doc: &[u8]) -> Result<Cursor, Refusal>
        ensures { result ≡ optional_ends I.ends doc.now self.at }
    {
        if let Some(next) = self.null(doc) {
            return Ok(next);
        }
        I::pass(self, doc)
    }
}
