// The sides of ==.
ghost use Rattle.typing.specs.Equalities.{ValueAt, NameAt, SideAt};

use reading::Cursor;

// A side of ==: a literal, the name of a path that has no other, or anything else.
#[derive(Clone, Copy, Debug, PartialEq, Eq)]
pub enum Side {
    Value(u64),
    Name(usize),
    Other,
}

// The literal at a place.
pub(crate) fn value_at(doc: &[u8], at: usize) -> Side
    ensures { ValueAt doc.now at result }
{
    let c = Cursor { at };
    let r = c.number(doc, u64::MAX);
    let Ok((value, _)) = r else {
        return Side::Other;
    };
    Side::Value(value)
}

// The only name of the path at a place.
pub(crate) fn name_at(doc: &[u8], at: usize) -> Side
    ensures { NameAt doc.now at result }
{
    let c = Cursor { at };
    let r = c.count(doc, 8);
    let Ok((segments, first)) = r else {
        return Side::Other;
    };
    if segments != 1 {
        return Side::Other;
    }
    Side::Name(first.at)
}

// The expression at a place as a side of ==, with as many levels left.
pub(crate) fn side_at(doc: &[u8], at: usize, depth: u64) -> Side
    ensures { SideAt depth doc.now at result }
{
    let c = Cursor { at };
    let t = c.tag(doc);
    let Ok((tag, fields)) = t else {
        return Side::Other;
    };
    let case = tag.case;
    let k = fields.at;
    match case {
        0 => value_at(doc, k),
        2 => name_at(doc, k),
        _ => Side::Other,
    }
}
