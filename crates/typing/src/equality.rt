// The equalities of a guard: a path of one name and a literal, among the conjuncts from right to left.
ghost use Rattle.std.specs.Prelude.{◌≡◌};
ghost use Rattle.typing.specs.Names.{first_called};
ghost use Rattle.typing.specs.Equalities.{paired, listed, name_in, side_of, equality_of, EqualityAt, OperatorAt, ConjunctAt, FirstEquality, FirstOfTwo};

use crate::expr::after_expr;
use crate::names::same;
use crate::side::{Side, side_at};
use reading::{Cursor, text_at};

// The place of a name and the value that it is said to equal.
#[derive(Clone, Copy, Debug, PartialEq, Eq)]
pub struct Equality {
    pub name: usize,
    pub value: u64,
}

// The place of the two operands of &&, or what any other expression says.
#[derive(Clone, Copy, Debug, PartialEq, Eq)]
pub enum Conjunct {
    And(usize),
    One(Option<Equality>),
}

// The equality of two sides, either way round.
#[tactic(auto, unfolding(crate::specs::Equalities::paired, crate::specs::Equalities::side_of, crate::specs::Equalities::equality_of))]
pub(crate) fn paired(doc: &[u8], a: Side, b: Side) -> Option<Equality>
    ensures { equality_of doc.now result ≡ paired (side_of doc.now a) (side_of doc.now b) }
{
    match (a, b) {
        (Side::Value(value), Side::Name(name)) => Some(Equality { name, value }),
        (Side::Name(name), Side::Value(value)) => Some(Equality { name, value }),
        _ => None,
    }
}

// The equality of the two operands at a place.
pub(crate) fn equality_at(doc: &[u8], at: usize, depth: u64) -> Option<Equality>
    ensures { EqualityAt depth doc.now at result }
{
    let a = side_at(doc, at, depth);
    let right = after_expr(doc, at, depth);
    let b = side_at(doc, right, depth);
    paired(doc, a, b)
}

// What the binary expression says whose fields stand at a place: Eq has number 5 in ir.rs, LogicAnd 15.
pub(crate) fn operator_at(doc: &[u8], at: usize, depth: u64) -> Conjunct
    ensures { OperatorAt depth doc.now at result }
{
    let c = Cursor { at };
    let o = c.case_number(doc, 16);
    let Ok((op, left)) = o else {
        return Conjunct::One(None);
    };
    let k = left.at;
    if op == 15 {
        return Conjunct::And(k);
    }
    if op == 5 {
        return Conjunct::One(equality_at(doc, k, depth));
    }
    Conjunct::One(None)
}

// What the expression at a place says.
pub(crate) fn conjunct_at(doc: &[u8], at: usize, depth: u64) -> Conjunct
    ensures { ConjunctAt depth doc.now at result }
{
    if depth == 0 {
        return Conjunct::One(None);
    }
    let c = Cursor { at };
    let t = c.tag(doc);
    let Ok((tag, fields)) = t else {
        return Conjunct::One(None);
    };
    if tag.case != 4 {
        return Conjunct::One(None);
    }
    operator_at(doc, fields.at, depth - 1)
}

// The equality, where it is of the name.
pub(crate) fn called<'a>(doc: &'a [u8], q: Option<Equality>, name: &'a [u8]) -> Option<Equality>
    ensures { equality_of doc.now result ≡ first_called name_in name.now (listed (equality_of doc.now q)) }
{
    let e = q?;
    if same(text_at(doc, e.name), name) {
        return q;
    }
    None
}

// The first equality of a name in the expression at a place.
#[cycle(first_equality_first_of_two)]
pub(crate) fn first_equality<'a>(
    doc: &'a [u8],
    at: usize,
    depth: u64,
    name: &'a [u8],
) -> Option<Equality>
    ensures { FirstEquality depth doc.now at name.now result }
{
    if depth == 0 {
        return None;
    }
    let c = conjunct_at(doc, at, depth);
    match c {
        Conjunct::And(k) => first_of_two(doc, k, depth - 1, name),
        Conjunct::One(q) => called(doc, q, name),
    }
}

// The same in the two operands at a place: right goes first.
#[cycle(first_equality_first_of_two)]
fn first_of_two<'a>(doc: &'a [u8], at: usize, depth: u64, name: &'a [u8]) -> Option<Equality>
    ensures { FirstOfTwo depth doc.now at name.now result }
{
    let right = after_expr(doc, at, depth);
    let r = first_equality(doc, right, depth, name);
    let None = r else {
        return r;
    };
    first_equality(doc, at, depth, name)
}
