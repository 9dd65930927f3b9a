// The C interface: include/offer.h says what C sees of it. Each export is the call of the library `offer` that has its name.
#![tactic(auto)]

ghost use Rattle.std.specs.Prelude.{◌≡◌, [], ◌∷◌};
ghost use Rattle.reading.specs.Document.{read_document};
ghost use Rattle.reading.specs.Link.{verdict, number_of, place_of};
ghost use Rattle.findings.specs.Reply.{reply_to, sheet_of, first_word, second_word};
ghost use Rattle.findings.specs.Reply as reply;
ghost use Rattle.text.specs.Told.{told_of, text_of};
ghost use Rattle.text.specs.Told as told;

// Whether the bytes are a document: 0 where they are, else the refusal's number; `place` takes the refusal's
// place, 0 where they are.
#[unsafe(no_mangle)]
pub extern "C" fn offer_read(doc: &[u8], place: &mut u64) -> u32
    ensures value { result ≡ number_of (verdict (read_document doc.now)) }
    ensures place_after { place.new ≡ place_of (verdict (read_document doc.now)) }
{
    offer::offer_read(doc, place)
}

// All findings of a document, five words each, errors first: 0 where they were written, and `answer` takes both counts;
// else the refusal's number, `answer` takes its place and 0, and no word is changed.
#[unsafe(no_mangle)]
pub extern "C" fn offer_findings(doc: &[u8], words: &mut [u32], answer: &mut [u64; 2]) -> u32
    ensures value { result ≡ reply.number_of (reply_to words.old (read_document doc.now)) }
    ensures words_after { words.new ≡ sheet_of words.old (read_document doc.now) }
    ensures answer_after { answer.new ≡ first_word (reply_to words.old (read_document doc.now)) ∷ second_word (reply_to words.old (read_document doc.now)) ∷ [] }
{
    offer::offer_findings(doc, words, answer)
}

// The message of one finding of a document, by its number: 0 where it was written, and `answer` takes its length and 0; else the
// refusal's number, `answer` takes its place and 0, and no byte is changed.
#[unsafe(no_mangle)]
pub extern "C" fn offer_message(
    doc: &[u8],
    number: u64,
    out: &mut [u8],
    answer: &mut [u64; 2],
) -> u32
    ensures value { result ≡ told.number_of (told_of number out.old (read_document doc.now)) }
    ensures out_after { out.new ≡ text_of number out.old (read_document doc.now) }
    ensures answer_after { answer.new ≡ told.place_of (told_of number out.old (read_document doc.now)) ∷ 0 ∷ [] }
{
    offer::offer_message(doc, number, out, answer)
}
