// Guards that can't hold.
ghost use Rattle.std.specs.Prelude.{◌≡◌, ◌-◌, ltb};
ghost use Rattle.typing.specs.Holds.{LiteralFalse, Contradicts};
ghost use Rattle.typing.specs.Equalities.{FalseAt, ClashOf, FirstClash, ClashOfTwo};

use crate::entries::has_case;
use crate::equality::{Conjunct, Equality, conjunct_at, first_equality};
use crate::expr::after_expr;
use crate::fill::after_tag;
use crate::seen::{Stop, clash_in_one_pass};
use reading::{Cursor, text_at};

// A name, by its place, with an earlier value and one that differs from it.
#[derive(Clone, Copy, Debug, PartialEq, Eq)]
pub struct Clash {
    pub name: usize,
    pub earlier: u64,
    pub later: u64,
}

// Whether the bool at a place is false.
pub(crate) fn false_at(doc: &[u8], at: usize) -> bool
    ensures { FalseAt doc.now at result }
{
    let c = Cursor { at };
    let r = c.kind(doc, 7);
    let Ok((value, _)) = r else {
        return false;
    };
    value == 20
}

// Whether the expression at a place is the literal false, with as many levels left.
pub fn is_literal_false(doc: &[u8], at: usize, depth: u64) -> bool
    ensures { LiteralFalse depth doc.now at result }
{
    if has_case(doc, at, 1) {
        return false_at(doc, after_tag(doc, at));
    }
    false
}

// The clash of an equality with the first of its name in the expression at a place.
pub(crate) fn clash_of(doc: &[u8], root: usize, depth: u64, q: Option<Equality>) -> Option<Clash>
    ensures { ClashOf doc.now root depth q result }
{
    let later = q?;
    let earlier = first_equality(doc, root, depth, text_at(doc, later.name))?;
    if earlier.value == later.value {
        return None;
    }
    Some(Clash {
        name: later.name,
        earlier: earlier.value,
        later: later.value,
    })
}

// The first equality of the expression at a place that clashes with the first of its name in the one at another.
#[cycle(clash_of_two_first_clash)]
pub(crate) fn first_clash(
    doc: &[u8],
    at: usize,
    depth: u64,
    root: usize,
    levels: u64,
) -> Option<Clash>
    ensures { FirstClash depth doc.now at root levels result }
{
    if depth == 0 {
        return None;
    }
    let c = conjunct_at(doc, at, depth);
    match c {
        Conjunct::And(k) => clash_of_two(doc, k, depth - 1, root, levels),
        Conjunct::One(q) => clash_of(doc, root, levels, q),
    }
}

// The same of the two operands at a place: right goes first.
#[cycle(clash_of_two_first_clash)]
fn clash_of_two(doc: &[u8], at: usize, depth: u64, root: usize, levels: u64) -> Option<Clash>
    ensures { ClashOfTwo depth doc.now at root levels result }
{
    let right = after_expr(doc, at, depth);
    let r = first_clash(doc, right, depth, root, levels);
    let None = r else {
        return r;
    };
    first_clash(doc, at, depth, root, levels)
}

// Whether so much stands between two places that one pass pays.
fn is_long(at: usize, end: usize) -> bool
    ensures { result ≡ ltb 511 (end - at) }
{
    if end < at {
        return false;
    }
    511 < end - at
}

// A name that the guard at a place says to have two values, from right to left. The place where the guard is said to end only decides
// between two ways to one answer: a long guard goes the other way too where the one pass has no room, as if it ended where it starts.
pub fn contradictory_equalities(doc: &[u8], at: usize, end: usize, depth: u64) -> Option<Clash>
    ensures { Contradicts depth doc.now at result }
{
    if is_long(at, end) {
        let Err(stop) = clash_in_one_pass(doc, at, depth) else {
            return None;
        };
        return match stop {
            Stop::Clash(clash) => Some(clash),
            Stop::Full => contradictory_equalities(doc, at, at, depth),
        };
    }
    first_clash(doc, at, depth, at, depth)
}
