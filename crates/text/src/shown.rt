// Names and types as texts: Rust's `{}` and `{:?}` of them.
ghost use Rattle.std.specs.Prelude.{◌+◌, ◌≤◌, length};
ghost use Rattle.reading.specs.Skip.{text_at};
ghost use Rattle.typing.specs.Types.{bit};
ghost use Rattle.typing.specs.Means.{ty_of};
ghost use Rattle.typing.specs.declared.ty.Ty.TheVariants.{Enum};
ghost use Rattle.text.specs.Put.{Put};
ghost use Rattle.text.specs.Shown.{debug_type, what_text};
ghost use Rattle.text.specs.Pieces.{PutWithin};

use crate::decimal::put_decimal;
use crate::out::put_bytes;
use reading::text_at;
use typing::{Ty, What};

// Puts the string at a place of the document.
pub(crate) fn put_text(out: &mut [u8], at: usize, doc: &[u8], place: usize) -> usize
    requires { (at ≤ 0xfff_ffff) × (length doc.now ≤ 0xffff) }
    ensures put { Put out.old at (text_at doc.now place) result out.new }
    ensures upper_bound { result ≤ at + 0xffff }
{
    put_bytes(out, at, text_at(doc, place))
}

// Puts the string at a place with bytes before and behind it.
pub(crate) fn put_name<'a>(
    out: &mut [u8],
    at: usize,
    doc: &'a [u8],
    before: &'a [u8],
    place: usize,
    behind: &'a [u8],
) -> usize
    requires { (at ≤ 0x400_0000) × (length doc.now ≤ 0xffff) × (length before.now ≤ 0xff) × (length behind.now ≤ 0xff) }
    ensures put_within { PutWithin out.old at before.now (text_at doc.now place) behind.now result out.new }
    ensures upper_bound { result ≤ at + 0x1_0200 }
{
    let a = put_bytes(out, at, before);
    let b = put_text(out, a, doc, place);
    put_bytes(out, b, behind)
}

// Puts an enum's type by its name.
fn put_enum(out: &mut [u8], at: usize, doc: &[u8], place: usize) -> usize
    requires { (at ≤ 0x800_0000) × (length doc.now ≤ 0xffff) }
    ensures put { Put out.old at (debug_type (ty_of doc.now (Enum place))) result out.new }
    ensures upper_bound { result ≤ at + 0x1_0100 }
{
    let a = put_bytes(out, at, b"Enum(\"");
    let b = put_text(out, a, doc, place);
    put_bytes(out, b, b"\")")
}

// Puts the type of bit vectors of a width.
fn put_bits(out: &mut [u8], at: usize, width: u32) -> usize
    requires { at ≤ 0x800_0000 }
    ensures put { Put out.old at (debug_type (bit width)) result out.new }
    ensures upper_bound { result ≤ at + 0x100 }
{
    let a = put_bytes(out, at, b"Bit(");
    let b = put_decimal(out, a, width as u64);
    put_bytes(out, b, b")")
}

// Puts a type.
#[tactic(auto, unfolding(crate::specs::Shown::debug_type, typing::specs::Means::ty_of))]
pub(crate) fn put_type(out: &mut [u8], at: usize, doc: &[u8], t: Ty) -> usize
    requires { (at ≤ 0x800_0000) × (length doc.now ≤ 0xffff) }
    ensures put { Put out.old at (debug_type (ty_of doc.now t)) result out.new }
    ensures upper_bound { result ≤ at + 0x1_0100 }
{
    match t {
        Ty::Bool => put_bytes(out, at, b"Bool"),
        Ty::Bit(width) => put_bits(out, at, width),
        Ty::IntLit => put_bytes(out, at, b"IntLit"),
        Ty::State => put_bytes(out, at, b"Enum(\"State\")"),
        Ty::Enum(place) => put_enum(out, at, doc, place),
    }
}

// Puts what has to be a bool.
pub(crate) fn put_what(out: &mut [u8], at: usize, w: What) -> usize
    requires { at ≤ 0xfff_ffff }
    ensures put { Put out.old at (what_text w) result out.new }
    ensures upper_bound { result ≤ at + 0x100 }
{
    match w {
        What::Operand => put_bytes(out, at, b"operand of !"),
        What::Left => put_bytes(out, at, b"left operand"),
        What::Right => put_bytes(out, at, b"right operand"),
        What::Formula => put_bytes(out, at, b"formula expression"),
        What::Guard => put_bytes(out, at, b"guard"),
    }
}
