// A pattern's field against the type that is declared for it.
ghost use Rattle.std.specs.Prelude.{◌≡◌};
ghost use Rattle.typing.specs.Means.{ty_of, unfit_of};
ghost use Rattle.typing.specs.Accepts.{bool_on, EnumOf, VariantOf, AcceptsInt, AcceptsPath, Accepts};

use crate::cause::Cause;
use crate::fits::fits;
use crate::names::same;
use crate::table::ty_at;
use crate::ty::Ty;
use reading::{Cursor, text_at};

// A boolean literal.
#[tactic(auto, unfolding(crate::specs::Accepts::bool_on, crate::specs::Means::ty_of, crate::specs::Means::unfit_of, crate::specs::Means::cause_of))]
pub(crate) fn bool_on(doc: &[u8], ty: Ty) -> Result<(), Cause>
    ensures { unfit_of doc.now result ≡ bool_on (ty_of doc.now ty) }
{
    match ty {
        Ty::Bool => Ok(()),
        _ => Err(Cause::BooleanLiteral),
    }
}

// An integer literal at a place.
pub(crate) fn int_on(doc: &[u8], at: usize, ty: Ty) -> Result<(), Cause>
    ensures { AcceptsInt doc.now at (ty_of doc.now ty) result }
{
    let c = Cursor { at };
    let n = c.number(doc, u64::MAX);
    let Ok((value, _)) = n else {
        return Ok(());
    };
    match ty {
        Ty::Bool => Err(Cause::IntegerOnBool),
        Ty::Bit(width) => {
            if fits(value, width) {
                return Ok(());
            }
            Err(Cause::DoesNotFit(value, width))
        }
        Ty::IntLit => Err(Cause::IntegerOnBool),
        Ty::State => Err(Cause::IntegerOnEnum),
        Ty::Enum(_) => Err(Cause::IntegerOnEnum),
    }
}

// Whether the path at a place has two names at least, and the first is the enum's at another.
pub(crate) fn variant_of<'a>(doc: &'a [u8], at: usize, name: &'a [u8]) -> bool
    ensures { VariantOf doc.now at name.now result }
{
    let c = Cursor { at };
    let r = c.count(doc, 8);
    let Ok((segments, first)) = r else {
        return false;
    };
    if segments < 2 {
        return false;
    }
    same(text_at(doc, first.at), name)
}

// The place of the name of the enum that is declared at a place.
pub(crate) fn enum_at(doc: &[u8], at: usize) -> Option<usize>
    ensures { EnumOf doc.now at result }
{
    let c = Cursor { at };
    let t = c.tag(doc);
    let Ok((tag, fields)) = t else {
        return None;
    };
    let case = tag.case;
    match case {
        0 => None,
        1 => None,
        2..=u64::MAX => Some(fields.at),
    }
}

// A path at a place, on the type at another.
pub(crate) fn path_on(doc: &[u8], at: usize, ty: usize) -> Result<(), Cause>
    ensures { AcceptsPath doc.now at ty result }
{
    let f = enum_at(doc, ty);
    let Some(e) = f else {
        return Err(Cause::VariantOnNonEnum);
    };
    if variant_of(doc, at, text_at(doc, e)) {
        return Ok(());
    }
    Err(Cause::VariantPath(at, e))
}

// What is wrong with the pattern at a place, of a field whose type stands at another, if anything.
pub fn pattern_expr_compatible(doc: &[u8], at: usize, ty: usize) -> Result<(), Cause>
    ensures { Accepts doc.now at ty result }
{
    let c = Cursor { at };
    let t = c.tag(doc);
    let Ok((tag, fields)) = t else {
        return Ok(());
    };
    let case = tag.case;
    let k = fields.at;
    match case {
        0 => Ok(()),
        1 => Ok(()),
        2 => int_on(doc, k, ty_at(doc, ty)),
        3 => bool_on(doc, ty_at(doc, ty)),
        4 => path_on(doc, k, ty),
        5..=u64::MAX => Ok(()),
    }
}
