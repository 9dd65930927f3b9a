// Where items end, and what stands at a place: a type, or a list of names.
ghost use Rattle.std.specs.Prelude.{◌≡◌};
ghost use Rattle.reading.specs.Item.{read_number};
ghost use Rattle.reading.specs.Limits.{max_u32};
ghost use Rattle.typing.specs.Means.{ty_of};
ghost use Rattle.typing.specs.Table.{Past, Stops, Differs, width_type, expr_type_at, member_at};

use crate::entries::entries_at;
use crate::names::same;
use crate::ty::Ty;
use reading::{Cursor, Refusal, text_at};

// The place after the item at a place, by the heads in it.
pub(crate) fn after_any(doc: &[u8], at: usize) -> usize
    ensures { Past doc.now at result }
{
    let c = Cursor { at };
    let r = c.skip(doc, 1);
    match r {
        Ok(next) => next.at,
        Err(Refusal { place, .. }) => place,
    }
}

// Where a short item ends, by its first byte: a name, a number, an empty list or a simple value.
#[tactic(auto, unfolding(crate::specs::Table::Stops))]
fn short_end(doc: &[u8], at: usize) -> Option<usize>
    ensures { Stops doc.now at result }
{
    if at < doc.len() {
        let b = doc[at];
        if 96 < b && b < 120 {
            let n = (b - 96) as usize;
            if n < doc.len() - at {
                return Some(at + 1 + n);
            }
        }
        if b < 24 {
            return Some(at + 1);
        }
        if b == 128 {
            return Some(at + 1);
        }
        if 243 < b && b < 247 {
            return Some(at + 1);
        }
    }
    None
}

// The place after the item at a place: most are short.
pub fn after(doc: &[u8], at: usize) -> usize
    ensures { Past doc.now at result }
{
    let e = short_end(doc, at);
    match e {
        Some(end) => end,
        None => after_any(doc, at),
    }
}

// The same of a short data enum: a case alone, or a case and a short item.
#[tactic(auto, unfolding(crate::specs::Table::Stops))]
fn case_end(doc: &[u8], at: usize) -> Option<usize>
    ensures { Stops doc.now at result }
{
    let len = doc.len();
    if at < len && 2 < len - at && doc[at + 1] < 24 {
        let b = doc[at];
        if b == 129 {
            return Some(at + 2);
        }
        if b == 130 {
            return short_end(doc, at + 2);
        }
    }
    None
}

// The place after the data enum at a place: most are short.
pub(crate) fn after_case(doc: &[u8], at: usize) -> usize
    ensures { Past doc.now at result }
{
    let e = case_end(doc, at);
    match e {
        Some(end) => end,
        None => after_any(doc, at),
    }
}

// The type of a width at a place.
pub(crate) fn width_at(doc: &[u8], at: usize) -> Ty
    ensures { ty_of doc.now result ≡ width_type (read_number max_u32 doc.now at) }
{
    let c = Cursor { at };
    let r = c.number(doc, 4294967295);
    let Ok((w, _)) = r else {
        return Ty::Bool;
    };
    Ty::Bit(w as u32)
}

// The declared type at a place.
pub(crate) fn ty_at(doc: &[u8], at: usize) -> Ty
    ensures { ty_of doc.now result ≡ expr_type_at doc.now at }
{
    let c = Cursor { at };
    let r = c.tag(doc);
    let Ok((tag, next)) = r else {
        return Ty::Bool;
    };
    let case = tag.case;
    match case {
        0 => Ty::Bool,
        1 => width_at(doc, next.at),
        2 => Ty::Enum(next.at),
        3..=u64::MAX => Ty::Bool,
    }
}

// Where the short name at a place ends, if its length or its last byte tells it from the name.
#[tactic(auto, unfolding(crate::specs::Table::Differs))]
pub(crate) fn other_end<'a>(doc: &'a [u8], at: usize, name: &'a [u8]) -> Option<usize>
    ensures { Differs doc.now at name.now result }
{
    let len = doc.len();
    if at < len {
        let b = doc[at];
        if 96 < b && b < 120 {
            let n = (b - 96) as usize;
            if n < len - at {
                if n != name.len() {
                    return Some(at + 1 + n);
                }
                if doc[at + n] != name[n - 1] {
                    return Some(at + 1 + n);
                }
            }
        }
    }
    None
}

// Whether the list of names at a place has the name. Most are passed by `other_end`.
pub fn has_name<'a>(doc: &'a [u8], at: usize, name: &'a [u8]) -> bool
    ensures { result ≡ member_at doc.now at name.now }
{
    let e = entries_at(doc, at);
    let mut k = e.first;
    for _ in 0..e.many {
        let o = other_end(doc, k, name);
        match o {
            Some(end) => {
                k = end;
            }
            None => {
                let whole = doc;
                if same(text_at(whole, k), name) {
                    return true;
                }
                k = after(whole, k);
            }
        }
    }
    false
}
