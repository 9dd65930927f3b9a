// What is wrong with a formula, if anything.
ghost use Rattle.typing.specs.Blocks.{env_at};
ghost use Rattle.typing.specs.Judges.{TypesFormula, TypesBool, TypesBounded, TypesTwo};

use crate::binds::check_pattern_group;
use crate::cause::{Cause, What};
use crate::expr::type_expr;
use crate::formula::{Kind, after_formula, kind_of};
use crate::ty::is_bool;
use reading::Cursor;

// The formula at a place, with as many levels left.
#[cycle(type_bounded_type_formula_type_two)]
pub fn type_formula<'a>(
    doc: &'a [u8],
    at: usize,
    depth: u64,
    names: &'a [usize],
    enums: &'a [usize],
) -> Result<(), Cause>
    ensures { TypesFormula (env_at doc.now names.now enums.now) depth doc.now at result }
{
    if depth == 0 {
        return Ok(());
    }
    let c = Cursor { at };
    let t = c.tag(doc);
    let Ok((tag, fields)) = t else {
        return Ok(());
    };
    let kind = kind_of(tag.case);
    let k = fields.at;
    match kind {
        Kind::Input => check_pattern_group(doc, k),
        Kind::Output => Ok(()),
        Kind::Expression => type_bool(doc, k, depth - 1, names, enums),
        Kind::One => type_formula(doc, k, depth - 1, names, enums),
        Kind::Always => type_bounded(doc, k, depth - 1, names, enums),
        Kind::Sometime => type_bounded(doc, k, depth - 1, names, enums),
        Kind::Two => type_two(doc, k, depth - 1, names, enums),
        Kind::Unknown => Ok(()),
    }
}

// Its expression has to be a bool.
pub(crate) fn type_bool<'a>(
    doc: &'a [u8],
    at: usize,
    depth: u64,
    names: &'a [usize],
    enums: &'a [usize],
) -> Result<(), Cause>
    ensures { TypesBool (env_at doc.now names.now enums.now) depth doc.now at result }
{
    let (ty, _) = type_expr(doc, at, depth, names, enums)?;
    if is_bool(doc, ty) {
        return Ok(());
    }
    Err(Cause::MustBeBool(What::Formula, ty))
}

// A bound and a formula, by their fields.
#[cycle(type_bounded_type_formula_type_two)]
fn type_bounded<'a>(
    doc: &'a [u8],
    at: usize,
    depth: u64,
    names: &'a [usize],
    enums: &'a [usize],
) -> Result<(), Cause>
    ensures { TypesBounded (env_at doc.now names.now enums.now) depth doc.now at result }
{
    let c = Cursor { at };
    let b = c.number(doc, u64::MAX);
    let Ok((_, inner)) = b else {
        return Ok(());
    };
    type_formula(doc, inner.at, depth, names, enums)
}

// Two formulas: left goes first.
#[cycle(type_bounded_type_formula_type_two)]
fn type_two<'a>(
    doc: &'a [u8],
    at: usize,
    depth: u64,
    names: &'a [usize],
    enums: &'a [usize],
) -> Result<(), Cause>
    ensures { TypesTwo (env_at doc.now names.now enums.now) depth doc.now at result }
{
    type_formula(doc, at, depth, names, enums)?;
    let right = after_formula(doc, at, depth);
    type_formula(doc, right, depth, names, enums)
}
