// The type of an expression: expression, unary and binary typing call each other, and the depth left falls.
ghost use Rattle.reading.specs.Expr.{read_expr};
ghost use Rattle.typing.specs.Tells.{Ends};
ghost use Rattle.typing.specs.Blocks.{env_at};
ghost use Rattle.typing.specs.Typed.{Types, TypesUnary, TypesBinary};

use crate::cause::{Cause, Typed};
use crate::path::{after_path, resolve_path};
use crate::quick::{code_of, quick_type};
use crate::rules::{binary_type, unary_type};
use crate::table::{after, after_any};
use crate::ty::{Ty, is_bool};
use reading::Cursor;

// The place after the expression at a place.
pub fn after_expr(doc: &[u8], at: usize, depth: u64) -> usize
    ensures { Ends (read_expr depth doc.now at) result }
{
    after_any(doc, at)
}

// The type of the expression at a place, with as many levels left.
#[cycle(type_binary_type_expr_type_unary)]
pub fn type_expr<'a>(
    doc: &'a [u8],
    at: usize,
    depth: u64,
    names: &'a [usize],
    enums: &'a [usize],
) -> Typed
    ensures { Types (env_at doc.now names.now enums.now) depth doc.now at result }
{
    if depth == 0 {
        return Err(Cause::EmptyPath);
    }
    let c = Cursor { at };
    let t = c.tag(doc);
    let Ok((tag, fields)) = t else {
        return Err(Cause::EmptyPath);
    };
    let case = tag.case;
    let k = fields.at;
    match case {
        0 => Ok((Ty::IntLit, after(doc, k))),
        1 => Ok((Ty::Bool, after(doc, k))),
        2 => resolve_path(doc, k, after_path(doc, k), names, enums),
        3 => type_unary(doc, k, depth - 1, names, enums),
        4 => type_binary(doc, k, depth - 1, names, enums),
        5..=u64::MAX => Err(Cause::EmptyPath),
    }
}

// The same of a unary expression, by its fields: the operand's cause comes first.
#[cycle(type_binary_type_expr_type_unary)]
pub(crate) fn type_unary<'a>(
    doc: &'a [u8],
    at: usize,
    depth: u64,
    names: &'a [usize],
    enums: &'a [usize],
) -> Typed
    ensures { TypesUnary (env_at doc.now names.now enums.now) depth doc.now at result }
{
    let c = Cursor { at };
    let o = c.case_number(doc, 3);
    let Ok((op, operand)) = o else {
        return Err(Cause::EmptyPath);
    };
    let t = type_expr(doc, operand.at, depth, names, enums);
    let Ok((ty, next)) = t else {
        return t;
    };
    if op == 0 && is_bool(doc, ty) {
        return Ok((Ty::Bool, next));
    }
    unary_type(doc, op, ty, next)
}

// The same of a binary expression: left goes first.
#[cycle(type_binary_type_expr_type_unary)]
pub(crate) fn type_binary<'a>(
    doc: &'a [u8],
    at: usize,
    depth: u64,
    names: &'a [usize],
    enums: &'a [usize],
) -> Typed
    ensures { TypesBinary (env_at doc.now names.now enums.now) depth doc.now at result }
{
    let c = Cursor { at };
    let o = c.case_number(doc, 16);
    let Ok((op, left)) = o else {
        return Err(Cause::EmptyPath);
    };
    let l = type_expr(doc, left.at, depth, names, enums);
    let Ok((lt, right)) = l else {
        return l;
    };
    let a = code_of(doc, lt);
    let r = type_expr(doc, right, depth, names, enums);
    let Ok((rt, next)) = r else {
        return r;
    };
    let b = code_of(doc, rt);
    let q = quick_type(op, a, b);
    if q == 0 {
        return Ok((Ty::Bool, next));
    }
    if 2 < q {
        return Ok((Ty::Bit((q - 3) as u32), next));
    }
    binary_type(doc, op, lt, rt, next)
}
