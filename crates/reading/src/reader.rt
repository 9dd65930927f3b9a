// The head reader as one value: the lent document together with an offset.
//
// It advances by handing back a new one: a head comes with the cursor after it, which `moved` takes.
ghost use Rattle.std.specs.Prelude.{◌≡◌};
ghost use Rattle.reading.specs.Head.{read_head};
ghost use Rattle.reading.specs.Link.{answer};

use crate::cursor::{Answer, Cursor, Head, head_at};

#[derive(Clone, Copy, Debug, PartialEq, Eq)]
pub struct Reader<'a> {
    pub doc: &'a [u8],
    pub at: usize,
}

impl<'a> Reader<'a> {
    // A reader of the document, at any offset.
    pub fn new(doc: &'a [u8], at: usize) -> Reader<'a>
        ensures { (result.doc ≡ doc.entry) × (result.at ≡ at) }
    {
        Reader { doc, at }
    }

    // The head at the offset.
    pub fn head(self) -> Answer<Head>
        ensures { result ≡ answer (read_head self.entry.doc.now self.entry.at) }
    {
        head_at(self.doc, self.at)
    }

    // A reader of the same document, at the cursor.
    pub fn moved(self, next: Cursor) -> Reader<'a>
        ensures { (result.doc ≡ self.entry.doc) × (result.at ≡ next.at) }
    {
        Reader {
            doc: self.doc,
            at: next.at,
        }
    }
}

// The head at any place, through a reader.
pub fn head_from(doc: &[u8], at: usize) -> Answer<Head>
    ensures { result ≡ answer (read_head doc.now at) }
{
    Reader::new(doc, at).head()
}
