// What a path means: its type, or the cause.
ghost use Rattle.std.specs.Prelude.{◌≡◌, []};
ghost use Rattle.reading.specs.Expr.{read_path};
ghost use Rattle.reading.specs.Skip.{text_at};
ghost use Rattle.typing.specs.Env.{state_variants};
ghost use Rattle.typing.specs.Typing.{resolve_state, resolve_name, resolve_variant};
ghost use Rattle.typing.specs.Means.{typed_of, outcome};
ghost use Rattle.typing.specs.Tells.{Ends};
ghost use Rattle.typing.specs.Typed.{Resolves};
ghost use Rattle.typing.specs.Table.{after_item};
ghost use Rattle.typing.specs.Blocks.{env_at};

use crate::block::{find, find_enum};
use crate::cause::{Cause, Typed};
use crate::names::same;
use crate::segments::has_variant;
use crate::table::{after, after_any, ty_at};
use crate::ty::Ty;
use reading::{Cursor, text_at};

// Whether a name is a variant of the last enum called State.
pub(crate) fn state_variant<'a>(doc: &'a [u8], enums: &'a [usize], name: &'a [u8]) -> bool
    ensures { result ≡ state_variants (env_at doc.now [] enums.now) name.now }
{
    let f = find_enum(doc, enums, b"State");
    match f {
        Some(list) => has_variant(doc, enums, list, name),
        None => false,
    }
}

// A name that is no binding and no variable.
pub(crate) fn resolve_state<'a>(doc: &'a [u8], at: usize, next: usize, enums: &'a [usize]) -> Typed
    ensures { typed_of doc.now result ≡ outcome next (resolve_state (env_at doc.now [] enums.now) (text_at doc.now at)) }
{
    if state_variant(doc, enums, text_at(doc, at)) {
        return Ok((Ty::State, next));
    }
    Err(Cause::UnknownIdentifier(at))
}

// A path of one name: `state` first, then bindings and variables, then variants.
pub(crate) fn resolve_name<'a>(
    doc: &'a [u8],
    at: usize,
    next: usize,
    names: &'a [usize],
    enums: &'a [usize],
) -> Typed
    ensures { typed_of doc.now result ≡ outcome next (resolve_name (env_at doc.now names.now enums.now) (text_at doc.now at)) }
{
    let name = text_at(doc, at);
    if same(name, b"state") {
        return Ok((Ty::State, next));
    }
    let f = find(doc, names, name);
    match f {
        Some(under) => Ok((ty_at(doc, under), next)),
        None => resolve_state(doc, at, next, enums),
    }
}

// A longer path: enum, then variant, then length.
pub(crate) fn resolve_variant<'a>(
    doc: &'a [u8],
    at: usize,
    segments: u64,
    next: usize,
    enums: &'a [usize],
) -> Typed
    ensures { typed_of doc.now result ≡ outcome next (resolve_variant (env_at doc.now [] enums.now) (text_at doc.now at) (text_at doc.now (after_item doc.now at)) segments) }
{
    let f = find_enum(doc, enums, text_at(doc, at));
    let Some(list) = f else {
        return Err(Cause::UnknownEnum(at));
    };
    let variant = after(doc, at);
    if has_variant(doc, enums, list, text_at(doc, variant)) {
        if 2 < segments {
            return Err(Cause::PathLength(segments));
        }
        return Ok((Ty::Enum(at), next));
    }
    Err(Cause::UnknownVariant(variant, at))
}

// The place after the path at a place: one of one or two names ends where the last of them does.
pub(crate) fn after_path(doc: &[u8], at: usize) -> usize
    ensures { Ends (read_path doc.now at) result }
{
    if at < doc.len() {
        let head = doc[at];
        if head == 129 {
            return after(doc, at + 1);
        }
        if head == 130 {
            return after(doc, after(doc, at + 1));
        }
    }
    after_any(doc, at)
}

// The type of the path at a place; `next` is the place after its expression.
pub fn resolve_path<'a>(
    doc: &'a [u8],
    at: usize,
    next: usize,
    names: &'a [usize],
    enums: &'a [usize],
) -> Typed
    ensures { Resolves (env_at doc.now names.now enums.now) doc.now at next result }
{
    let c = Cursor { at };
    let r = c.count(doc, 8);
    let Ok((segments, first)) = r else {
        return Err(Cause::EmptyPath);
    };
    let k = first.at;
    match segments {
        0 => Err(Cause::EmptyPath),
        1 => resolve_name(doc, k, next, names, enums),
        _ => resolve_variant(doc, k, segments, next, enums),
    }
}
