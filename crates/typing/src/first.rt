// The first group, enum or variant of a name.
ghost use Rattle.typing.specs.First.{FirstEnum, FirstVariants, FirstVariant, PastVariant, OtherVariant, NextVariant};

use crate::entries::entries_at;
use crate::fill::after_head;
use crate::names::same;
use crate::table::{after, other_end};
use reading::{Cursor, text_at};

// In the list of enums at a place.
pub fn first_enum<'a>(doc: &'a [u8], at: usize, name: &'a [u8]) -> Option<usize>
    ensures { FirstEnum doc.now at name.now result }
{
    let e = entries_at(doc, at);
    let mut k = e.first;
    for _ in 0..e.many {
        let key = after_head(doc, k);
        if same(text_at(doc, key), name) {
            return Some(k);
        }
        let under = after(doc, key);
        k = after(doc, under);
    }
    None
}

// In a table of groups: the place of the first one's variants.
pub fn first_variants<'a>(doc: &'a [u8], groups: &'a [usize], name: &'a [u8]) -> Option<usize>
    ensures { FirstVariants doc.now groups.now name.now result }
{
    let count = groups.len() / 2;
    for k in 0..count {
        let key = groups[2 * k];
        if same(text_at(doc, key), name) {
            return Some(groups[2 * k + 1]);
        }
    }
    None
}

// The place after the declared variant of a case whose name stands at a place: a unit has no more.
fn after_variant(doc: &[u8], name: usize, case: u64) -> usize
    ensures { PastVariant doc.now name case result }
{
    let fields = after(doc, name);
    if case == 0 {
        return fields;
    }
    after(doc, fields)
}

// Where the unit of a short name at a place ends, if it is told from the name: two bytes stand before the unit's own.
#[tactic(auto, unfolding(crate::specs::First::OtherVariant))]
fn other_unit<'a>(doc: &'a [u8], at: usize, name: &'a [u8]) -> Option<usize>
    ensures { OtherVariant doc.now at name.now result }
{
    let len = doc.len();
    if at < len && 2 < len - at && doc[at] == 130 && doc[at + 1] == 0 {
        return other_end(doc, at + 2, name);
    }
    None
}

// Where the declared variant at a place ends, if it is not of the name: the case number stands before its own.
fn past_other<'a>(doc: &'a [u8], at: usize, name: &'a [u8]) -> Option<usize>
    ensures { NextVariant doc.now at name.now result }
{
    let c = Cursor { at };
    let t = c.tag(doc);
    let Ok((tag, fields)) = t else {
        return None;
    };
    let key = fields.at;
    if same(text_at(doc, key), name) {
        return None;
    }
    Some(after_variant(doc, key, tag.case))
}

// In the list of variants at a place. Most are passed by `other_unit`.
pub fn first_variant<'a>(doc: &'a [u8], at: usize, name: &'a [u8]) -> Option<usize>
    ensures { FirstVariant doc.now at name.now result }
{
    let e = entries_at(doc, at);
    let mut k = e.first;
    for _ in 0..e.many {
        let o = other_unit(doc, k, name);
        match o {
            Some(end) => {
                k = end;
            }
            None => {
                let whole = doc;
                let sought = name;
                let p = past_other(whole, k, sought);
                let Some(end) = p else {
                    return Some(k);
                };
                k = end;
            }
        }
    }
    None
}
