// The messages of two transitions, piece by piece: sites 14, 15 and 24, of which a module can have one for each two transitions.
// For arguments of any kind site.rt has their forms whole, which takes longer: a form is looked through for braces.
ghost use Rattle.std.specs.Prelude.{◌+◌, ◌≤◌, ◌≡◌, length, Ok};
ghost use Rattle.reading.specs.Skip.{text_at};
ghost use Rattle.text.specs.Form.{text};
ghost use Rattle.text.specs.Shown.{decimal};
ghost use Rattle.text.specs.Put.{Put};
ghost use Rattle.text.specs.Message.{saying_text, pair_said, priority_said};
ghost use Rattle.text.specs.Said.{line, saying_of};
ghost use Rattle.text.specs.Says.{WithRows, Says, SaysPair, SaysPriority, PutsSaid};
ghost use Rattle.text.specs.Pieces.{PutTwo, in_state, in_priority};
ghost use Rattle.text.specs.declared.said.Arg.TheVariants.{Blank, Name, Number};

use crate::decimal::put_decimal;
use crate::out::put_bytes;
use crate::pair::number_at;
use crate::shown::put_text;
use findings::field;
use typing::{null_at, word};

// Puts in which module and state the transitions are.
fn put_state(out: &mut [u8], at: usize, doc: &[u8], name: usize, state: usize) -> usize
    requires { (at ≤ 0x10_0000) × (length doc.now ≤ 0xffff) }
    ensures put { Put out.old at (in_state (text_at doc.now name) (text_at doc.now state)) result out.new }
    ensures upper_bound { result ≤ at + 0x2_0100 }
{
    let a = put_bytes(out, at, b"module '");
    let b = put_text(out, a, doc, name);
    let c = put_bytes(out, b, b"' state '");
    put_text(out, c, doc, state)
}

// Puts the ids of both, with bytes before and behind them.
fn put_ids<'a>(
    out: &mut [u8],
    at: usize,
    before: &'a [u8],
    i: u64,
    j: u64,
    behind: &'a [u8],
) -> usize
    requires { (at ≤ 0x80_0000) × (length before.now ≤ 0xff) × (length behind.now ≤ 0xff) }
    ensures put { PutTwo out.old at before.now (decimal i) (text " and #") (decimal j) behind.now result out.new }
    ensures upper_bound { result ≤ at + 0x300 }
{
    let a = put_bytes(out, at, before);
    let b = put_decimal(out, a, i);
    let c = put_bytes(out, b, b" and #");
    let d = put_decimal(out, c, j);
    put_bytes(out, d, behind)
}

// Puts in which module and state they are, and which priority they have.
fn put_rank(
    out: &mut [u8],
    at: usize,
    doc: &[u8],
    name: usize,
    state: usize,
    priority: u64,
) -> usize
    requires { (at ≤ 0x10_0000) × (length doc.now ≤ 0xffff) }
    ensures put { Put out.old at (in_priority (text_at doc.now name) (text_at doc.now state) (decimal priority)) result out.new }
    ensures upper_bound { result ≤ at + 0x2_0200 }
{
    let a = put_state(out, at, doc, name, state);
    let b = put_bytes(out, a, b"': duplicate priority ");
    put_decimal(out, b, priority)
}

// Puts the message of site 14.
fn put_equal(
    out: &mut [u8],
    at: usize,
    doc: &[u8],
    name: usize,
    state: usize,
    priority: u64,
    i: u64,
    j: u64,
) -> usize
    requires { (at ≤ 0x10_0000) × (length doc.now ≤ 0xffff) }
    ensures put { Put out.old at (saying_text 14 (saying_of doc.now (line (Name name) (Name state) (Number priority) (Number i) (Number j) (Ok tt)))) result out.new }
    ensures upper_bound { result ≤ at + 0x3_0000 }
{
    let a = put_rank(out, at, doc, name, state, priority);
    put_ids(
        out,
        a,
        b" for the same event pattern (transitions #",
        i,
        j,
        b")",
    )
}

// Puts the message of site 15 or 24.
fn put_both(
    out: &mut [u8],
    at: usize,
    doc: &[u8],
    site: u32,
    name: usize,
    state: usize,
    i: u64,
    j: u64,
) -> usize
    requires at_bound { (at ≤ 0x10_0000) × (length doc.now ≤ 0xffff) }
    requires site_value { (site ≡ 15 → ⊥) → site ≡ 24 }
    ensures put { Put out.old at (saying_text site (saying_of doc.now (line (Name name) (Name state) (Number i) (Number j) Blank (Ok tt)))) result out.new }
    ensures upper_bound { result ≤ at + 0x3_0000 }
{
    let a = put_state(out, at, doc, name, state);
    if site == 15 {
        return put_ids(
            out,
            a,
            b"': duplicate transitions #",
            i,
            j,
            b" - identical event pattern and guard; the second is unreachable",
        );
    }
    put_ids(
        out,
        a,
        b"': transitions #",
        i,
        j,
        b" share an event pattern with different guards and no priorities; first match wins in source order (add distinct `priority N;` to pin the intent)",
    )
}

// Puts what is said of transitions i and j.
#[tactic(auto, using(crate::proofs::PieceLaws::pair_put))]
fn put_pair<'a>(
    doc: &'a [u8],
    places: &'a [usize],
    rows: &'a [usize],
    site: u32,
    i: u8,
    j: u8,
    out: &mut [u8],
    at: usize,
) -> usize
    requires at_bound { (at ≤ 0x10_0000) × (length doc.now ≤ 0xffff) }
    requires site_value { (site ≡ 15 → ⊥) → site ≡ 24 }
    ensures puts_said { PutsSaid (SaysPair doc.now places.now rows.now i j) doc.now site out.old at result out.new }
    ensures upper_bound { result ≤ at + 0x3_0000 }
{
    let a = number_at(doc, field(rows, i, 0));
    let b = number_at(doc, field(rows, j, 0));
    let name = word(places, 0);
    let state = field(rows, i, 1);
    put_both(out, at, doc, site, name, state, a, b)
}

// The same, where there are so many transitions; nothing where one is past them.
pub(crate) fn put_pair_at<'a>(
    doc: &'a [u8],
    places: &'a [usize],
    rows: &'a [usize],
    count: u8,
    site: u32,
    i: usize,
    j: usize,
    out: &mut [u8],
    at: usize,
) -> usize
    requires at_bound { (at ≤ 0x10_0000) × (length doc.now ≤ 0xffff) }
    requires site_value { (site ≡ 15 → ⊥) → site ≡ 24 }
    ensures puts_said { PutsSaid (Says (WithRows doc.now places.now rows.now count) doc.now (pair_said i j)) doc.now site out.old at result out.new }
    ensures upper_bound { result ≤ at + 0x3_0000 }
{
    if count as usize <= i || count as usize <= j {
        return at;
    }
    put_pair(doc, places, rows, site, i as u8, j as u8, out, at)
}

// Puts what is said of the priority that transitions i and j have.
#[tactic(auto, using(crate::proofs::PieceLaws::rank_none, crate::proofs::PieceLaws::rank_said))]
fn put_priority<'a>(
    doc: &'a [u8],
    places: &'a [usize],
    rows: &'a [usize],
    i: u8,
    j: u8,
    out: &mut [u8],
    at: usize,
) -> usize
    requires { (at ≤ 0x10_0000) × (length doc.now ≤ 0xffff) }
    ensures puts_said { PutsSaid (SaysPriority doc.now places.now rows.now i j) doc.now 14 out.old at result out.new }
    ensures upper_bound { result ≤ at + 0x3_0000 }
{
    let place = field(rows, i, 7);
    if null_at(doc, place) {
        return at;
    }
    let priority = number_at(doc, place);
    let a = number_at(doc, field(rows, i, 0));
    let b = number_at(doc, field(rows, j, 0));
    let name = word(places, 0);
    let state = field(rows, i, 1);
    put_equal(out, at, doc, name, state, priority, a, b)
}

// The same, where there are so many transitions; nothing where one is past them.
pub(crate) fn put_priority_at<'a>(
    doc: &'a [u8],
    places: &'a [usize],
    rows: &'a [usize],
    count: u8,
    i: usize,
    j: usize,
    out: &mut [u8],
    at: usize,
) -> usize
    requires { (at ≤ 0x10_0000) × (length doc.now ≤ 0xffff) }
    ensures puts_said { PutsSaid (Says (WithRows doc.now places.now rows.now count) doc.now (priority_said i j)) doc.now 14 out.old at result out.new }
    ensures upper_bound { result ≤ at + 0x3_0000 }
{
    if count as usize <= i || count as usize <= j {
        return at;
    }
    put_priority(doc, places, rows, i as u8, j as u8, out, at)
}
