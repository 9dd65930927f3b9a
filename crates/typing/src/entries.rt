// Lists and data enums that are opened.
ghost use Rattle.std.specs.Prelude.{◌≤◌, ◌≡◌};
ghost use Rattle.reading.specs.Limits.{max_list};
ghost use Rattle.reading.specs.Item.{read_count};
ghost use Rattle.typing.specs.Entries.{opened, case_at, FieldsAt};

use crate::table::after;
use reading::{Cursor, Refusal};

// How many entries a list has, and where the first of them stands.
#[derive(Clone, Copy, Debug, PartialEq, Eq)]
pub struct Entries {
    pub many: u64,
    pub first: usize,
}

// The list at a place; an empty one where there is none.
pub(crate) fn entries_at(doc: &[u8], at: usize) -> Entries
    ensures value { result ≡ opened (read_count max_list doc.now at) }
    ensures many_bound { result.many ≤ 255 }
{
    let c = Cursor { at };
    let r = c.count(doc, 255);
    match r {
        Ok((many, next)) => {
            let first = next.at;
            Entries { many, first }
        }
        Err(Refusal { place: first, .. }) => Entries { many: 0, first },
    }
}

// Whether the data enum at a place has the case.
pub(crate) fn has_case(doc: &[u8], at: usize, case: u64) -> bool
    ensures { result ≡ case_at doc.now at case }
{
    let c = Cursor { at };
    let t = c.tag(doc);
    match t {
        Ok((tag, _)) => tag.case == case,
        Err(_) => false,
    }
}

// The fields of the variant at a place, a pattern's or a declared one: case 1 has fields, a unit has none.
pub(crate) fn fields_at(doc: &[u8], at: usize) -> Entries
    ensures fields_at { FieldsAt doc.now at result }
    ensures many_bound { result.many ≤ 255 }
{
    let c = Cursor { at };
    let t = c.tag(doc);
    let Ok((tag, name)) = t else {
        return Entries { many: 0, first: at };
    };
    if tag.case == 1 {
        return entries_at(doc, after(doc, name.at));
    }
    Entries { many: 0, first: at }
}
