// The calls that are offered: to a program of this repository as this library, to C through the crate offer_c.
#![tactic(auto)]

ghost use Rattle.std.specs.Prelude.{◌≡◌, [], ◌∷◌};
ghost use Rattle.reading.specs.Document.{read_document};
ghost use Rattle.reading.specs.Fault.{number};
ghost use Rattle.reading.specs.Link.{verdict, number_of, place_of};
ghost use Rattle.findings.specs.Reply.{reply_to, sheet_of, first_word, second_word};
ghost use Rattle.findings.specs.Reply as reply;
ghost use Rattle.text.specs.Told.{told_of, text_of};
ghost use Rattle.text.specs.Told as told;

use findings::{Counts, Denied};
use reading::{Fault, Refusal};
use text::Untold;

// Document 01's number of a fault, which C gets.
#[tactic(auto, unfolding(reading::specs::Fault::number))]
pub fn fault_number(fault: Fault) -> u32
    ensures { result ≡ number fault }
{
    match fault {
        Fault::TooLong => 1,
        Fault::Truncated => 2,
        Fault::NonCanonical => 3,
        Fault::Unexpected => 4,
        Fault::OutOfRange => 5,
        Fault::OutsideAlphabet => 6,
        Fault::TooDeep => 7,
        Fault::Trailing => 8,
        Fault::UnknownVersion => 9,
    }
}

// Whether the bytes are a document: 0 where they are, else the refusal's number; `place` takes the refusal's
// place, 0 where they are.
#[tactic(auto, unfolding(reading::specs::Link::number_of, reading::specs::Link::place_of))]
pub fn offer_read(doc: &[u8], place: &mut u64) -> u32
    ensures value { result ≡ number_of (verdict (read_document doc.now)) }
    ensures place_after { place.new ≡ place_of (verdict (read_document doc.now)) }
{
    match reading::read_document(doc) {
        Ok(()) => {
            *place = 0;
            0
        }
        Err(Refusal { fault, place: at }) => {
            *place = at as u64;
            fault_number(fault)
        }
    }
}

// All findings of a document, five words each, errors first: 0 where they were written, and `answer` takes both counts;
// else the refusal's number, `answer` takes its place and 0, and no word is changed.
#[tactic(auto, unfolding(findings::specs::Reply::number_of, findings::specs::Reply::first_word, findings::specs::Reply::second_word))]
pub fn offer_findings(doc: &[u8], words: &mut [u32], answer: &mut [u64; 2]) -> u32
    ensures value { result ≡ reply.number_of (reply_to words.old (read_document doc.now)) }
    ensures words_after { words.new ≡ sheet_of words.old (read_document doc.now) }
    ensures answer_after { answer.new ≡ first_word (reply_to words.old (read_document doc.now)) ∷ second_word (reply_to words.old (read_document doc.now)) ∷ [] }
{
    match findings::findings(doc, words) {
        Ok(Counts { errors, warnings }) => {
            *answer = [errors as u64, warnings as u64];
            0
        }
        Err(Denied::Refused(Refusal { fault, place })) => {
            *answer = [place as u64, 0];
            fault_number(fault)
        }
        Err(Denied::Short(count)) => {
            *answer = [count as u64, 0];
            10
        }
    }
}

// The message of one finding of a document, by its number: 0 where it was written, and `answer` takes its length and 0; else the
// refusal's number, `answer` takes its place and 0, and no byte is changed.
#[tactic(auto, unfolding(text::specs::Told::number_of, text::specs::Told::place_of))]
pub fn offer_message(doc: &[u8], number: u64, out: &mut [u8], answer: &mut [u64; 2]) -> u32
    ensures value { result ≡ told.number_of (told_of number out.old (read_document doc.now)) }
    ensures out_after { out.new ≡ text_of number out.old (read_document doc.now) }
    ensures answer_after { answer.new ≡ told.place_of (told_of number out.old (read_document doc.now)) ∷ 0 ∷ [] }
{
    match text::message(doc, number as usize, out) {
        Ok(length) => {
            *answer = [length as u64, 0];
            0
        }
        Err(Untold::Refused(Refusal { fault, place })) => {
            *answer = [place as u64, 0];
            fault_number(fault)
        }
        Err(Untold::Missing(k)) => {
            *answer = [k as u64, 0];
            11
        }
        Err(Untold::Short(length)) => {
            *answer = [length as u64, 0];
            12
        }
    }
}
