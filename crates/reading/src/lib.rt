// Reading: every byte string is accepted as one document, or refused with a fault and its place.
//
// `read_document` reads it all. A `Cursor` reads one item and hands back the cursor after it; `past` reads an item of a kind
// (`list.rt`), and the kinds of the format are types. `specs/` says what is right, `proofs/` why.
#![tactic(auto)]

mod cursor;
mod decl;
mod expr;
mod fault;
mod formula;
mod item;
mod limits;
mod list;
mod module;
mod pattern;
mod reader;
mod text;
mod transition;
mod walk;

ghost use Rattle.std.specs.Prelude.{◌≡◌};
ghost use Rattle.reading.specs.Document.{read_document};
ghost use Rattle.reading.specs.Link.{verdict};

pub use cursor::{Answer, Cursor, Head};
pub use fault::{Fault, Refusal};
pub use item::Tag;
use module::Ir;
pub use reader::{Reader, head_from};
pub use text::Text;
pub use walk::text_at;

// Whether the bytes are a document: the first fault and its place where they are not.
pub fn read_document(doc: &[u8]) -> Result<(), Refusal>
    ensures { result ≡ verdict (read_document doc.now) }
{
    if limits::DOCUMENT < doc.len() {
        return Err(Fault::TooLong.at(0));
    }
    let end = Cursor { at: 0 }.past::<Ir>(doc)?;
    if end.at < doc.len() {
        return Err(Fault::Trailing.at(end.at));
    }
    Ok(())
}
