// Formulas: what one is made of, and its bounds.
ghost use Rattle.std.specs.Prelude.{◌≡◌};
ghost use Rattle.reading.specs.Formula.{read_formula};
ghost use Rattle.typing.specs.Tells.{Ends};
ghost use Rattle.typing.specs.Shape.{kind_of, Bounds, BoundsAlways, BoundsSometime, BoundsTwo};

use crate::table::after_any;
use reading::Cursor;

// What stands in a formula: a pattern, an expression, one formula, a bound and a formula, or two formulas.
#[derive(Clone, Copy, Debug, PartialEq, Eq)]
pub enum Kind {
    Input,
    Output,
    Expression,
    One,
    Always,
    Sometime,
    Two,
    Unknown,
}

// The case of a formula, by its number in ir.rs.
#[tactic(auto, unfolding(crate::specs::Shape::kind_of))]
pub(crate) fn kind_of(case: u64) -> Kind
    ensures { result ≡ kind_of case }
{
    match case {
        0 => Kind::Input,
        1 => Kind::Output,
        2 => Kind::Expression,
        3 | 7 | 8 | 11 => Kind::One,
        4 | 5 | 6 | 12 => Kind::Two,
        9 => Kind::Always,
        10 => Kind::Sometime,
        13..=u64::MAX => Kind::Unknown,
    }
}

// The place after the formula at a place.
pub fn after_formula(doc: &[u8], at: usize, depth: u64) -> usize
    ensures { Ends (read_formula depth doc.now at) result }
{
    after_any(doc, at)
}

// Whether an always[N] with N below 1 stands in the formula at a place, with as many levels left.
#[cycle(always_error_bounded_always_error_either_error_sometime_error)]
pub fn bounded_always_error(doc: &[u8], at: usize, depth: u64) -> bool
    ensures { Bounds depth doc.now at result }
{
    if depth == 0 {
        return false;
    }
    let c = Cursor { at };
    let t = c.tag(doc);
    let Ok((tag, fields)) = t else {
        return false;
    };
    let kind = kind_of(tag.case);
    let k = fields.at;
    match kind {
        Kind::Input => false,
        Kind::Output => false,
        Kind::Expression => false,
        Kind::One => bounded_always_error(doc, k, depth - 1),
        Kind::Always => always_error(doc, k, depth - 1),
        Kind::Sometime => sometime_error(doc, k, depth - 1),
        Kind::Two => either_error(doc, k, depth - 1),
        Kind::Unknown => false,
    }
}

// The same of always[N], by its fields.
#[cycle(always_error_bounded_always_error_either_error_sometime_error)]
fn always_error(doc: &[u8], at: usize, depth: u64) -> bool
    ensures { BoundsAlways depth doc.now at result }
{
    let c = Cursor { at };
    let b = c.number(doc, u64::MAX);
    let Ok((bound, inner)) = b else {
        return false;
    };
    if bound < 1 {
        return true;
    }
    bounded_always_error(doc, inner.at, depth)
}

// The same of eventually[N], by its fields.
#[cycle(always_error_bounded_always_error_either_error_sometime_error)]
fn sometime_error(doc: &[u8], at: usize, depth: u64) -> bool
    ensures { BoundsSometime depth doc.now at result }
{
    let c = Cursor { at };
    let b = c.number(doc, u64::MAX);
    let Ok((_, inner)) = b else {
        return false;
    };
    bounded_always_error(doc, inner.at, depth)
}

// The same of two formulas: left goes first.
#[cycle(always_error_bounded_always_error_either_error_sometime_error)]
fn either_error(doc: &[u8], at: usize, depth: u64) -> bool
    ensures { BoundsTwo depth doc.now at result }
{
    if bounded_always_error(doc, at, depth) {
        return true;
    }
    let right = after_formula(doc, at, depth);
    bounded_always_error(doc, right, depth)
}
