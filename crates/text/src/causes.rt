// What is said of the causes that have several arguments, piece by piece, in the words of validator.rs.
ghost use Rattle.std.specs.Prelude.{◌+◌, ◌≤◌, length};
ghost use Rattle.reading.specs.Skip.{text_at};
ghost use Rattle.typing.specs.Means.{cause_of};
ghost use Rattle.typing.specs.declared.cause.Cause.TheVariants.{VariantPath, MustBeBool, PathLength, TypeMismatch};
ghost use Rattle.text.specs.Form.{text};
ghost use Rattle.text.specs.Put.{Put};
ghost use Rattle.text.specs.Pieces.{PutTwo, PutThree};
ghost use Rattle.text.specs.Shown.{decimal};
ghost use Rattle.text.specs.CauseText.{cause_text};

use crate::decimal::put_decimal;
use crate::out::put_bytes;
use crate::path::put_names;
use crate::shown::{put_name, put_text, put_type, put_what};
use typing::{Ty, What};

// Puts that a variant of a group or an enum is unknown: both names, with bytes before and between them.
pub(crate) fn put_variant<'a>(
    out: &mut [u8],
    at: usize,
    doc: &'a [u8],
    before: &'a [u8],
    variant: usize,
    between: &'a [u8],
    group: usize,
) -> usize
    requires { (at ≤ 0x400_0000) × (length doc.now ≤ 0xffff) × (length before.now ≤ 0xff) × (length between.now ≤ 0xff) }
    ensures put { PutTwo out.old at before.now (text_at doc.now variant) between.now (text_at doc.now group) (text "'") result out.new }
    ensures upper_bound { result ≤ at + 0x29_0000 }
{
    let a = put_name(out, at, doc, before, variant, between);
    let b = put_text(out, a, doc, group);
    put_bytes(out, b, b"'")
}

// Puts how many fields or arguments a variant has, and how many there are: its name and both numbers, with bytes before and between them.
pub(crate) fn put_counts<'a>(
    out: &mut [u8],
    at: usize,
    doc: &'a [u8],
    before: &'a [u8],
    variant: usize,
    m: u64,
    between: &'a [u8],
    n: u64,
) -> usize
    requires { (at ≤ 0x400_0000) × (length doc.now ≤ 0xffff) × (length before.now ≤ 0xff) × (length between.now ≤ 0xff) }
    ensures put { PutThree out.old at before.now (text_at doc.now variant) (text "' has ") (decimal m) between.now (decimal n) result out.new }
    ensures upper_bound { result ≤ at + 0x29_0000 }
{
    let a = put_name(out, at, doc, before, variant, b"' has ");
    let b = put_decimal(out, a, m);
    let c = put_bytes(out, b, between);
    put_decimal(out, c, n)
}

// Puts that a number or a width doesn't fit a width: both, with bytes before and between them.
pub(crate) fn put_widths<'a>(
    out: &mut [u8],
    at: usize,
    before: &'a [u8],
    value: u64,
    between: &'a [u8],
    width: u32,
) -> usize
    requires { (at ≤ 0x400_0000) × (length before.now ≤ 0xff) × (length between.now ≤ 0xff) }
    ensures put { PutTwo out.old at before.now (decimal value) between.now (decimal width) (text ">") result out.new }
    ensures upper_bound { result ≤ at + 0x29_0000 }
{
    let a = put_bytes(out, at, before);
    let b = put_decimal(out, a, value);
    let c = put_bytes(out, b, between);
    let d = put_decimal(out, c, width as u64);
    put_bytes(out, d, b">")
}

// Puts that a path leads to no variant of an enum.
pub(crate) fn put_variant_path(
    out: &mut [u8],
    at: usize,
    doc: &[u8],
    path: usize,
    name: usize,
) -> usize
    requires { (at ≤ 0x400_0000) × (length doc.now ≤ 0xffff) }
    ensures put { Put out.old at (cause_text (cause_of doc.now (VariantPath path name))) result out.new }
    ensures upper_bound { result ≤ at + 0x29_0000 }
{
    let a = put_bytes(out, at, b"enum variant path ");
    let b = put_names(out, a, doc, path);
    let c = put_bytes(out, b, b" does not match enum ");
    put_text(out, c, doc, name)
}

// Puts that an operand is no bool.
pub(crate) fn put_not_bool(out: &mut [u8], at: usize, doc: &[u8], what: What, t: Ty) -> usize
    requires { (at ≤ 0x400_0000) × (length doc.now ≤ 0xffff) }
    ensures put { Put out.old at (cause_text (cause_of doc.now (MustBeBool what t))) result out.new }
    ensures upper_bound { result ≤ at + 0x29_0000 }
{
    let a = put_what(out, at, what);
    let b = put_bytes(out, a, b" must be bool, found ");
    put_type(out, b, doc, t)
}

// Puts that a path is too long.
pub(crate) fn put_path_length(out: &mut [u8], at: usize, doc: &[u8], n: u64) -> usize
    requires { (at ≤ 0x400_0000) × (length doc.now ≤ 0xffff) }
    ensures put { Put out.old at (cause_text (cause_of doc.now (PathLength n))) result out.new }
    ensures upper_bound { result ≤ at + 0x29_0000 }
{
    let a = put_bytes(out, at, b"unsupported path length ");
    put_decimal(out, a, n)
}

// Puts that two types differ.
pub(crate) fn put_mismatch(out: &mut [u8], at: usize, doc: &[u8], a: Ty, b: Ty) -> usize
    requires { (at ≤ 0x400_0000) × (length doc.now ≤ 0xffff) }
    ensures put { Put out.old at (cause_text (cause_of doc.now (TypeMismatch a b))) result out.new }
    ensures upper_bound { result ≤ at + 0x29_0000 }
{
    let k = put_bytes(out, at, b"type mismatch: ");
    let n = put_type(out, k, doc, a);
    let m = put_bytes(out, n, b" vs ");
    put_type(out, m, doc, b)
}
