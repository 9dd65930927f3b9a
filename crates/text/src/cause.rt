// What is said of a cause, in the words of validator.rs.
ghost use Rattle.std.specs.Prelude.{◌+◌, ◌≤◌, ◌≡◌, [], length, true};
ghost use Rattle.typing.specs.Means.{cause_of, within_of, blame_of};
ghost use Rattle.text.specs.Form.{format, plain};
ghost use Rattle.text.specs.Put.{Put};
ghost use Rattle.text.specs.CauseText.{cause_text, within_text, blame_text};

use crate::causes::{
    put_counts, put_mismatch, put_not_bool, put_path_length, put_variant, put_variant_path,
    put_widths,
};
use crate::out::put_bytes;
use crate::shown::put_name;
use typing::{Blame, Cause, Within};

// Puts the words of a cause that has no arguments.
fn put_plain(out: &mut [u8], at: usize, words: &[u8]) -> usize
    requires at_bound { (at ≤ 0x400_0000) × (length words.now ≤ 0xff) }
    requires brace_free { plain words.now ≡ true }
    ensures put { Put out.old at (format words.now []) result out.new }
    ensures upper_bound { result ≤ at + 0xff }
{
    put_bytes(out, at, words)
}

// Puts a cause.
#[tactic(auto, using(crate::proofs::CauseLaws::cause_told), unfolding(crate::specs::CauseText::cause_text, typing::specs::Means::cause_of))]
pub(crate) fn put_cause(out: &mut [u8], at: usize, doc: &[u8], c: Cause) -> usize
    requires { (at ≤ 0x400_0000) × (length doc.now ≤ 0xffff) }
    ensures put { Put out.old at (cause_text (cause_of doc.now c)) result out.new }
    ensures upper_bound { result ≤ at + 0x29_0000 }
{
    match c {
        Cause::UnknownEventGroup(g) => put_name(out, at, doc, b"unknown event group '", g, b"'"),
        Cause::UnknownEventVariant(v, g) => put_variant(
            out,
            at,
            doc,
            b"unknown event variant '",
            v,
            b"' in group '",
            g,
        ),
        Cause::FieldCount(v, m, n) => put_counts(
            out,
            at,
            doc,
            b"event variant '",
            v,
            m,
            b" fields, pattern has ",
            n,
        ),
        Cause::DuplicateBinding(n) => put_name(
            out,
            at,
            doc,
            b"duplicate pattern binding '",
            n,
            b"'",
        ),
        Cause::UnitWithFields(v) => put_name(
            out,
            at,
            doc,
            b"event variant '",
            v,
            b"' is unit but pattern has fields",
        ),
        Cause::FieldsWithout(v) => put_name(
            out,
            at,
            doc,
            b"event variant '",
            v,
            b"' has fields but pattern is unit",
        ),
        Cause::DoesNotFit(v, w) => put_widths(out, at, b"literal ", v, b" does not fit bit<", w),
        Cause::IntegerOnBool => put_plain(out, at, b"integer literal cannot match bool"),
        Cause::IntegerOnEnum => put_plain(out, at, b"integer literal cannot match enum"),
        Cause::BooleanLiteral => put_plain(out, at, b"boolean literal cannot match non-bool"),
        Cause::VariantPath(p, e) => put_variant_path(out, at, doc, p, e),
        Cause::VariantOnNonEnum => put_plain(
            out,
            at,
            b"enum variant pattern cannot match non-enum",
        ),
        Cause::UnknownOutputGroup(g) => put_name(out, at, doc, b"unknown output group '", g, b"'"),
        Cause::BareOutput(g) => put_name(
            out,
            at,
            doc,
            b"bare output '",
            g,
            b"' is ambiguous; name a variant",
        ),
        Cause::UnknownOutputVariant(v, g) => put_variant(
            out,
            at,
            doc,
            b"unknown output variant '",
            v,
            b"' in group '",
            g,
        ),
        Cause::ArgumentCount(v, m, n) => put_counts(
            out,
            at,
            doc,
            b"output '",
            v,
            m,
            b" args, variant expects ",
            n,
        ),
        Cause::MustBeBool(w, t) => put_not_bool(out, at, doc, w, t),
        Cause::BitNot => put_plain(out, at, b"bit_not requires bitvector"),
        Cause::Negation => put_plain(out, at, b"negation requires bitvector"),
        Cause::EmptyPath => put_plain(out, at, b"empty path"),
        Cause::UnknownIdentifier(n) => put_name(out, at, doc, b"unknown identifier '", n, b"'"),
        Cause::UnknownEnum(e) => put_name(out, at, doc, b"unknown enum type '", e, b"'"),
        Cause::UnknownVariant(v, e) => put_variant(
            out,
            at,
            doc,
            b"unknown variant '",
            v,
            b"' in enum '",
            e,
        ),
        Cause::PathLength(n) => put_path_length(out, at, doc, n),
        Cause::ShiftLeft => put_plain(out, at, b"shift left operand must be bitvector"),
        Cause::ShiftRight => put_plain(
            out,
            at,
            b"shift right operand must be bitvector or integer literal",
        ),
        Cause::WidthMismatch(a, b) => put_widths(
            out,
            at,
            b"bitwidth mismatch: bit<",
            a as u64,
            b"> vs bit<",
            b,
        ),
        Cause::NeedsBitvectors => put_plain(
            out,
            at,
            b"bitwise/arithmetic operator requires bitvector operands",
        ),
        Cause::IntegerAsBool => put_plain(out, at, b"integer literal cannot be used as bool"),
        Cause::TypeMismatch(a, b) => put_mismatch(out, at, doc, a, b),
        Cause::BindingInFormula => put_plain(
            out,
            at,
            b"formula input patterns do not bind variables in Phase 1",
        ),
    }
}

// Puts what a cause in a field or an argument begins with.
#[tactic(auto, unfolding(crate::specs::CauseText::within_text, crate::specs::Form::format, typing::specs::Means::within_of))]
pub(crate) fn put_within(out: &mut [u8], at: usize, doc: &[u8], w: Within) -> usize
    requires { (at ≤ 0x400_0000) × (length doc.now ≤ 0xffff) }
    ensures put { Put out.old at (within_text (within_of doc.now w)) result out.new }
    ensures upper_bound { result ≤ at + 0x29_0000 }
{
    match w {
        Within::Alone => at,
        Within::Field(n) => put_name(out, at, doc, b"field '", n, b"': "),
        Within::Arg(n) => put_name(out, at, doc, b"arg for '", n, b"': "),
    }
}

// Puts what is wrong, if anything.
pub(crate) fn put_blame(out: &mut [u8], at: usize, doc: &[u8], b: Result<(), Blame>) -> usize
    requires { (at ≤ 0x300_0000) × (length doc.now ≤ 0xffff) }
    ensures put { Put out.old at (blame_text (blame_of doc.now b)) result out.new }
    ensures upper_bound { result ≤ at + 0x52_0000 }
{
    match b {
        Ok(()) => at,
        Err(blame) => {
            let k = put_within(out, at, doc, blame.within);
            put_cause(out, k, doc, blame.cause)
        }
    }
}
