// The messages of a list's entries, piece by piece: sites 11, 18, 22 and 23, of which a module can have one for each entry; and what they
// have in common with those of typed.rt and judged.rt.
// For arguments of any kind site.rt has their forms whole, which takes longer.
ghost use Rattle.std.specs.Prelude.{◌+◌, ◌≤◌, length};
ghost use Rattle.reading.specs.Limits.{max_list};
ghost use Rattle.reading.specs.Skip.{text_at};
ghost use Rattle.findings.specs.Scene.{Scene};
ghost use Rattle.text.specs.Shown.{decimal};
ghost use Rattle.text.specs.Put.{Put};
ghost use Rattle.text.specs.Near.{Kept};
ghost use Rattle.text.specs.Message.{saying_text, set_said, claim_said, event_said, var_said};
ghost use Rattle.text.specs.Said.{line, saying_of};
ghost use Rattle.text.specs.Says.{WithRows, WithClaims, Says, SaysSet, PutsSaid};
ghost use Rattle.text.specs.Pieces.{EntryForm, SetForm, in_module, in_transition};
ghost use Rattle.text.specs.declared.said.Arg.TheVariants.{Blank, Name, Number};

use crate::aft::variants_of;
use crate::cause::put_blame;
use crate::decimal::put_decimal;
use crate::entry::{Near, entry_at};
use crate::out::put_bytes;
use crate::shown::{put_name, put_text};
use findings::field;
use typing::{Blame, after_head, after_tag, word};

// Puts in which module it is.
#[tactic(auto, using(crate::proofs::PutLaws::puts), unfolding(crate::specs::Pieces::in_module))]
pub(crate) fn put_module(out: &mut [u8], at: usize, doc: &[u8], name: usize) -> usize
    requires { (at ≤ 0x10_0000) × (length doc.now ≤ 0xffff) }
    ensures put { Put out.old at (in_module (text_at doc.now name)) result out.new }
    ensures upper_bound { result ≤ at + 0x1_0100 }
{
    let a = put_bytes(out, at, b"module '");
    put_text(out, a, doc, name)
}

// Puts in which module and transition it is.
pub(crate) fn put_transition(out: &mut [u8], at: usize, doc: &[u8], name: usize, i: u64) -> usize
    requires { (at ≤ 0x10_0000) × (length doc.now ≤ 0xffff) }
    ensures put { Put out.old at (in_transition (text_at doc.now name) (decimal i)) result out.new }
    ensures upper_bound { result ≤ at + 0x1_0200 }
{
    let a = put_module(out, at, doc, name);
    let b = put_bytes(out, a, b"' transition #");
    put_decimal(out, b, i)
}

// Puts the message of a site of an entry: its name between bytes, and what is wrong with it.
pub(crate) fn put_entry<'a>(
    out: &mut [u8],
    at: usize,
    doc: &'a [u8],
    site: u32,
    name: usize,
    before: &'a [u8],
    entry: usize,
    behind: &'a [u8],
    w: Result<(), Blame>,
) -> usize
    requires at_bound { (at ≤ 0x10_0000) × (length doc.now ≤ 0xffff) × (length before.now ≤ 0xff) × (length behind.now ≤ 0xff) }
    requires entry_form { EntryForm site before.now behind.now }
    ensures put { Put out.old at (saying_text site (saying_of doc.now (line (Name name) (Name entry) Blank Blank Blank w))) result out.new }
    ensures upper_bound { result ≤ at + 0x60_0000 }
{
    let a = put_module(out, at, doc, name);
    let b = put_name(out, a, doc, before, entry, behind);
    put_blame(out, b, doc, w)
}

// Puts the message of a site of a transition's assignment: its variable between bytes, and what is wrong with the value that it is set to.
pub(crate) fn put_assigned<'a>(
    out: &mut [u8],
    at: usize,
    doc: &'a [u8],
    site: u32,
    name: usize,
    i: u64,
    before: &'a [u8],
    var: usize,
    behind: &'a [u8],
    w: Result<(), Blame>,
) -> usize
    requires at_bound { (at ≤ 0x10_0000) × (length doc.now ≤ 0xffff) × (length before.now ≤ 0xff) × (length behind.now ≤ 0xff) }
    requires set_form { SetForm site before.now behind.now }
    ensures put { Put out.old at (saying_text site (saying_of doc.now (line (Name name) (Number i) (Name var) Blank Blank w))) result out.new }
    ensures upper_bound { result ≤ at + 0x60_0000 }
{
    let a = put_transition(out, at, doc, name, i);
    let b = put_name(out, a, doc, before, var, behind);
    put_blame(out, b, doc, w)
}

// Site 11: puts what is said of assignment j of transition i.
fn put_set<'a>(
    doc: &'a [u8],
    places: &'a [usize],
    rows: &'a [usize],
    i: u8,
    j: usize,
    near: Option<Near>,
    out: &mut [u8],
    at: usize,
) -> usize
    requires kept { Kept max_list doc.now near }
    requires at_bound { (at ≤ 0x10_0000) × (length doc.now ≤ 0xffff) }
    ensures puts_said { PutsSaid (SaysSet doc.now places.now rows.now i j) doc.now 11 out.old at result out.new }
    ensures upper_bound { result ≤ at + 0x60_0000 }
{
    let Some(k) = entry_at(doc, field(rows, i, 6), j, near) else {
        return at;
    };
    let var = after_head(doc, k);
    put_assigned(
        out,
        at,
        doc,
        11,
        word(places, 0),
        i as u64,
        b": set unknown variable '",
        var,
        b"'",
        Ok(()),
    )
}

// The same, where there are so many transitions; nothing where i is past them.
#[tactic(auto, using(crate::proofs::SayLaws::set_past, crate::proofs::PieceLaws::puts_none, crate::proofs::ListedLaws::puts_set))]
pub(crate) fn put_set_at<'a>(
    doc: &'a [u8],
    places: &'a [usize],
    rows: &'a [usize],
    count: u8,
    i: usize,
    j: usize,
    near: Option<Near>,
    out: &mut [u8],
    at: usize,
) -> usize
    requires kept { Kept max_list doc.now near }
    requires at_bound { (at ≤ 0x10_0000) × (length doc.now ≤ 0xffff) }
    ensures puts_said { PutsSaid (Says (WithRows doc.now places.now rows.now count) doc.now (set_said i j)) doc.now 11 out.old at result out.new }
    ensures upper_bound { result ≤ at + 0x60_0000 }
{
    if count as usize <= i {
        return at;
    }
    put_set(doc, places, rows, i as u8, j, near, out, at)
}

// Site 18: puts what is said of property or assumption i, by the table of both.
pub(crate) fn put_claim_at<'a>(
    doc: &'a [u8],
    places: &'a [usize],
    claims: &'a [usize],
    i: usize,
    out: &mut [u8],
    at: usize,
) -> usize
    requires { (at ≤ 0x10_0000) × (length doc.now ≤ 0xffff) }
    ensures puts_said { PutsSaid (Says (WithClaims doc.now places.now claims.now) doc.now (claim_said i)) doc.now 18 out.old at result out.new }
    ensures upper_bound { result ≤ at + 0x60_0000 }
{
    if claims.len() / 2 <= i {
        return at;
    }
    let owner = word(places, 0);
    let name = word(claims, 2 * i);
    put_entry(
        out,
        at,
        doc,
        18,
        owner,
        b"' has duplicate property/assumption name '",
        name,
        b"'",
        Ok(()),
    )
}

// Site 22: puts what is said of variant j of event group i.
pub(crate) fn put_event_at<'a>(
    doc: &'a [u8],
    places: &'a [usize],
    i: usize,
    j: usize,
    near: Option<Near>,
    out: &mut [u8],
    at: usize,
) -> usize
    requires kept { Kept max_list doc.now near }
    requires at_bound { (at ≤ 0x10_0000) × (length doc.now ≤ 0xffff) }
    ensures puts_said { PutsSaid (Says (Scene doc.now places.now) doc.now (event_said i j)) doc.now 22 out.old at result out.new }
    ensures upper_bound { result ≤ at + 0x60_0000 }
{
    let Some(variants) = variants_of(places, i) else {
        return at;
    };
    let Some(k) = entry_at(doc, variants, j, near) else {
        return at;
    };
    let name = after_tag(doc, k);
    put_entry(
        out,
        at,
        doc,
        22,
        word(places, 0),
        b"': event '",
        name,
        b"' is never used in any transition pattern (dead event)",
        Ok(()),
    )
}

// Site 23: puts what is said of variable i.
pub(crate) fn put_var_at<'a>(
    doc: &'a [u8],
    places: &'a [usize],
    i: usize,
    near: Option<Near>,
    out: &mut [u8],
    at: usize,
) -> usize
    requires kept { Kept max_list doc.now near }
    requires at_bound { (at ≤ 0x10_0000) × (length doc.now ≤ 0xffff) }
    ensures puts_said { PutsSaid (Says (Scene doc.now places.now) doc.now (var_said i)) doc.now 23 out.old at result out.new }
    ensures upper_bound { result ≤ at + 0x60_0000 }
{
    let Some(k) = entry_at(doc, word(places, 7), i, near) else {
        return at;
    };
    let name = after_head(doc, k);
    put_entry(
        out,
        at,
        doc,
        23,
        word(places, 0),
        b"': variable '",
        name,
        b"' is never read or written (unused)",
        Ok(()),
    )
}
