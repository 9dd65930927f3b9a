// Text: the message of each finding, as validator.rs words it.
//
// `specs/` says what is right, over the document's content; `proofs/` says why the code gives it.
#![tactic(auto)]

mod aft;
mod blame;
mod cause;
mod causes;
mod decimal;
mod entry;
mod finding;
mod fore;
mod form;
mod judged;
mod listed;
mod out;
mod pair;
mod path;
mod pieces;
mod said;
mod say;
mod shown;
mod site;
mod told;
mod transition;
mod typed;
mod words;

ghost use Rattle.std.specs.Prelude.{◌≡◌};
ghost use Rattle.reading.specs.Document.{read_document};
ghost use Rattle.text.specs.Told.{told_of, text_of};

pub use entry::Near;
pub use finding::{look_up_finding, put_finding, put_warning};
use findings::finding_at;
pub use judged::{Bound, Done};
pub use out::put_bytes;
pub use told::Untold;
use told::why_untold;
pub use words::{module_after, module_at};
use words::{say_words, write};

// Message number k of a document, into the front of the lent bytes; how many bytes it has. The bytes past it keep their contents. Nothing
// is written where the document is refused, there is no such message, or the bytes are too few.
pub fn message(doc: &[u8], k: usize, out: &mut [u8]) -> Result<usize, Untold>
    ensures value { result ≡ told_of k out.old (read_document doc.now) }
    ensures out_after { out.new ≡ text_of k out.old (read_document doc.now) }
{
    let line = finding_at(doc, k);
    match line {
        Ok(words) => {
            let [owner, site, first, second, _] = words;
            let x = say_words(doc, owner as usize, site, first as usize, second as usize);
            write(doc, site, x, out)
        }
        Err(absent) => Err(why_untold(absent, k)),
    }
}
