// Rust's `{:?}` of the path at a place.
ghost use Rattle.std.specs.Prelude.{◌+◌, ◌*◌, ◌≤◌, ◌≡◌, length};
ghost use Rattle.reading.specs.Read.{map_r};
ghost use Rattle.reading.specs.Link.{answer};
ghost use Rattle.reading.specs.Text.{read_name};
ghost use Rattle.reading.specs.Combine.{entries};
ghost use Rattle.reading.specs.Skip.{text_at};
ghost use Rattle.typing.specs.Table.{place_after};
ghost use Rattle.typing.specs.Means.{path_at};
ghost use Rattle.text.specs.Put.{Put};
ghost use Rattle.text.specs.Shown.{quoted, more_names, debug_names};
ghost use Rattle.text.specs.Path.{reads, names_from};

use crate::out::put_bytes;
use crate::shown::put_text;
use reading::{Answer, Cursor, Text};

// The name at a place.
fn name_at(doc: &[u8], place: usize) -> Answer<u64>
    ensures { result ≡ answer (map_r length (read_name doc.now place)) }
{
    let c = Cursor { at: place };
    c.text(doc, Text::Name)
}

// The place after the name at a place.
#[tactic(auto, using(crate::proofs::PathLaws::after_got, crate::proofs::PathLaws::after_refused))]
fn after_name(doc: &[u8], place: usize) -> usize
    ensures { result ≡ place_after (read_name doc.now place) }
{
    match name_at(doc, place) {
        Ok((_, next)) => next.at,
        Err(refusal) => refusal.place,
    }
}

// Whether as many names stand from a place on.
fn names_read(doc: &[u8], place: usize, count: u64) -> bool
    ensures { result ≡ reads (entries count read_name doc.now place) }
{
    let mut k = place;
    for _i in 0..count {
        let Ok((_, next)) = name_at(doc, k) else {
            return false;
        };
        k = next.at;
    }
    true
}

// Puts the name at a place, in quotes.
fn put_quoted(out: &mut [u8], at: usize, doc: &[u8], place: usize) -> usize
    requires { (at ≤ 0x800_0000) × (length doc.now ≤ 0xffff) }
    ensures put { Put out.old at (quoted (text_at doc.now place)) result out.new }
    ensures upper_bound { result ≤ at + 0x1_0001 }
{
    let a = put_bytes(out, at, b"\"");
    let b = put_text(out, a, doc, place);
    put_bytes(out, b, b"\"")
}

// Puts as many more names from a place on.
fn put_more(out: &mut [u8], at: usize, doc: &[u8], place: usize, count: u64) -> usize
    requires { (at ≤ 0x600_0000) × (length doc.now ≤ 0xffff) × (count ≤ 8) }
    ensures put { Put out.old at (more_names (names_from count doc.now place)) result out.new }
    ensures upper_bound { result ≤ at + count * 0x1_0003 }
{
    let mut k = at;
    let mut p = place;
    for _i in 0..count {
        let l = put_bytes(out, k, b", ");
        k = put_quoted(out, l, doc, p);
        p = after_name(doc, p);
    }
    k
}

// Puts as many names from a place on, as a list.
fn put_list(out: &mut [u8], at: usize, doc: &[u8], place: usize, count: u64) -> usize
    requires { (at ≤ 0x500_0000) × (length doc.now ≤ 0xffff) × (count ≤ 8) }
    ensures put { Put out.old at (debug_names (names_from count doc.now place)) result out.new }
    ensures upper_bound { result ≤ at + 0x8_0100 }
{
    if count == 0 {
        return put_bytes(out, at, b"[]");
    }
    let a = put_bytes(out, at, b"[");
    let b = put_quoted(out, a, doc, place);
    let c = put_more(out, b, doc, after_name(doc, place), count - 1);
    put_bytes(out, c, b"]")
}

// Puts the names of the path at a place; none where no path stands there.
pub(crate) fn put_names(out: &mut [u8], at: usize, doc: &[u8], place: usize) -> usize
    requires { (at ≤ 0x500_0000) × (length doc.now ≤ 0xffff) }
    ensures put { Put out.old at (debug_names (path_at doc.now place)) result out.new }
    ensures upper_bound { result ≤ at + 0x8_0100 }
{
    let c = Cursor { at: place };
    let Ok((count, first)) = c.count(doc, 8) else {
        return put_bytes(out, at, b"[]");
    };
    let k = first.at;
    if names_read(doc, k, count) {
        return put_list(out, at, doc, k, count);
    }
    put_bytes(out, at, b"[]")
}
