// Names that stand in the document, compared by length first and then by their bytes, four at a time while there are four:
// the library's equality of slices goes byte by byte.
ghost use Rattle.std.specs.Prelude.{◌≡◌};
ghost use Rattle.reading.specs.Skip.{text_at};
ghost use Rattle.typing.specs.Names.{eq_name};

use crate::lanes::four;
use reading::text_at;

// Whether two names are equal.
pub fn same<'a>(a: &'a [u8], b: &'a [u8]) -> bool
    ensures { result ≡ eq_name a.now b.now }
{
    if a.len() != b.len() {
        return false;
    }
    let fours = a.len() / 4;
    for k in 0..fours {
        if four(a, 4 * k) != four(b, 4 * k) {
            return false;
        }
    }
    for i in 4 * fours..a.len() {
        if a[i] != b[i] {
            return false;
        }
    }
    true
}

// Whether the names at two places are equal.
pub fn same_name(doc: &[u8], p: usize, q: usize) -> bool
    ensures { result ≡ eq_name (text_at doc.now p) (text_at doc.now q) }
{
    same(text_at(doc, p), text_at(doc, q))
}

// Whether the name at a place is the word.
pub(crate) fn is_word<'a>(doc: &'a [u8], p: usize, word: &'a [u8]) -> bool
    ensures { result ≡ eq_name (text_at doc.now p) word.now }
{
    same(text_at(doc, p), word)
}
