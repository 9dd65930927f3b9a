// Findings: what is wrong with a document, and what is doubtful in it, as words.
//
// `specs/` says what is right, over the document's content; `proofs/` says why the code gives it.
#![tactic(auto)]

mod by_state;
mod call;
mod cause;
mod claims;
mod clash;
mod classes;
mod dead;
mod emits;
mod errors;
mod guard;
mod impossible;
mod lanes;
mod links;
mod mentions;
mod module;
mod on_error;
mod once;
mod opening;
mod order;
mod output;
mod pairs;
mod prints;
mod priority;
mod reach;
mod reply;
mod rows;
mod sets;
mod sheet;
mod states;
mod touch;
mod transition;
mod unused;
mod uses;
mod variants;
mod walk;
mod warnings;
mod whole;

ghost use Rattle.std.specs.Prelude.{◌≡◌, ◌≤◌};
ghost use Rattle.reading.specs.Document.{read_document};
ghost use Rattle.findings.specs.Reply.{reply_to, sheet_of, counts_to, errors_in, warnings_in, counted, line_to};

pub use module::open_module;
use reading::{Refusal, read_document};
pub use reply::{Absent, Counts, Denied};
pub use rows::{Listed, events_of, field, outputs_of};
pub use transition::{Judged, judge_pattern};
pub use whole::{Ready, name_module, states_of};

// All findings of a document: five words each, errors first, from the front of the lent words; the words past them keep
// their contents. Nothing is written where the document is refused or the words are too few.
pub fn findings(doc: &[u8], out: &mut [u32]) -> Result<Counts, Denied>
    ensures value { result ≡ reply_to out.old (read_document doc.now) }
    ensures out_after { out.new ≡ sheet_of out.old (read_document doc.now) }
{
    read_document(doc)?;
    call::reply(doc, out)
}

// The errors of a document into one lent buffer and its warnings into another, five words each, from the front on and as far as they
// fit; the other words keep their contents. How many there are of each, or the refusal; then nothing is written.
pub fn by_kind(doc: &[u8], errors: &mut [u32], warnings: &mut [u32]) -> Result<Counts, Refusal>
    ensures value { result ≡ counts_to (read_document doc.now) }
    ensures errors_after { errors.new ≡ errors_in errors.old (read_document doc.now) }
    ensures warnings_after { warnings.new ≡ warnings_in warnings.old (read_document doc.now) }
    ensures result_bound { counted result ≤ 1064390464 }
{
    read_document(doc)?;
    Ok(call::kinds(doc, errors, warnings))
}

// The five words of finding number k of a document, or how many findings there are.
pub fn finding_at(doc: &[u8], k: usize) -> Result<[u32; 5], Absent>
    ensures { result ≡ line_to k (read_document doc.now) }
{
    read_document(doc)?;
    call::line(doc, k)
}
