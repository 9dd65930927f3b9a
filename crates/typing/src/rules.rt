// The rules of unary and binary operators: the type of what they make, or the cause. `next` is the place after it.
ghost use Rattle.std.specs.Prelude.{◌≡◌};
ghost use Rattle.typing.specs.Rules.{bits_of, negated, unary_type, bit_op_type, shift_by, shift_type, compare_type, literal_as_bool, mismatch, compatible_with, logic_type, and_or_type, bin_op, binary_type};
ghost use Rattle.typing.specs.Means.{ty_of, cause_of, typed_of, outcome, unfit_of};

use crate::cause::{Cause, Typed, What};
use crate::ty::{Bits, Ty, bits_of, is_bool, literal_with_bits, literal_with_bool, same_ty};

// The type of a negated operand; the cause where it is no bitvector.
#[tactic(auto, unfolding(crate::specs::Rules::negated, crate::specs::Means::outcome, crate::specs::Means::typed_of, crate::specs::Means::ty_of))]
pub(crate) fn negated(doc: &[u8], t: Ty, cause: Cause, next: usize) -> Typed
    ensures { typed_of doc.now result ≡ outcome next (negated (cause_of doc.now cause) (bits_of (ty_of doc.now t))) }
{
    match bits_of(doc, t) {
        Bits::Width(w) => Ok((Ty::Bit(w), next)),
        Bits::Literal => Ok((Ty::Bit(8), next)),
        Bits::Other => Err(cause),
    }
}

// The rule of a unary operator, by its number in ir.rs.
pub fn unary_type(doc: &[u8], op: u64, t: Ty, next: usize) -> Typed
    ensures { typed_of doc.now result ≡ outcome next (unary_type op (ty_of doc.now t)) }
{
    match op {
        0 => {
            if is_bool(doc, t) {
                return Ok((Ty::Bool, next));
            }
            Err(Cause::MustBeBool(What::Operand, t))
        }
        1 => negated(doc, t, Cause::BitNot, next),
        _ => negated(doc, t, Cause::Negation, next),
    }
}

// The rule of arithmetic and of operators on bits.
#[tactic(auto, unfolding(crate::specs::Rules::bit_op_type, crate::specs::Rules::bit_pair, crate::specs::Means::cause_of, crate::specs::Means::outcome, crate::specs::Means::typed_of, crate::specs::Means::ty_of, reading::specs::Read::pick))]
pub(crate) fn bit_op_type(doc: &[u8], l: Ty, r: Ty, next: usize) -> Typed
    ensures { typed_of doc.now result ≡ outcome next (bit_op_type (ty_of doc.now l) (ty_of doc.now r)) }
{
    match (bits_of(doc, l), bits_of(doc, r)) {
        (Bits::Width(v), Bits::Width(w)) if v != w => Err(Cause::WidthMismatch(v, w)),
        (Bits::Width(w), Bits::Width(_) | Bits::Literal) | (Bits::Literal, Bits::Width(w)) => {
            Ok((Ty::Bit(w), next))
        }
        (Bits::Literal, Bits::Literal) => Ok((Ty::Bit(8), next)),
        (Bits::Other, _) | (_, Bits::Other) => Err(Cause::NeedsBitvectors),
    }
}

// The type of what is shifted, at the left operand's width.
#[tactic(auto, unfolding(crate::specs::Rules::shift_by, crate::specs::Means::cause_of, crate::specs::Means::outcome, crate::specs::Means::typed_of, crate::specs::Means::ty_of))]
pub(crate) fn shift_by(doc: &[u8], width: u32, r: Ty, next: usize) -> Typed
    ensures { typed_of doc.now result ≡ outcome next (shift_by width (bits_of (ty_of doc.now r))) }
{
    match bits_of(doc, r) {
        Bits::Width(_) | Bits::Literal => Ok((Ty::Bit(width), next)),
        Bits::Other => Err(Cause::ShiftRight),
    }
}

// The rule of the shifts.
#[tactic(auto, unfolding(crate::specs::Rules::shift_type, crate::specs::Means::cause_of, crate::specs::Means::outcome, crate::specs::Means::typed_of, crate::specs::Rules::shift_pair))]
pub(crate) fn shift_type(doc: &[u8], l: Ty, r: Ty, next: usize) -> Typed
    ensures { typed_of doc.now result ≡ outcome next (shift_type (ty_of doc.now l) (ty_of doc.now r)) }
{
    match bits_of(doc, l) {
        Bits::Width(w) => shift_by(doc, w, r, next),
        Bits::Literal => shift_by(doc, 8, r, next),
        Bits::Other => Err(Cause::ShiftLeft),
    }
}

// Whether the first is a literal and the second a bool.
pub(crate) fn literal_as_bool(doc: &[u8], l: Ty, r: Ty) -> bool
    ensures { result ≡ literal_as_bool (ty_of doc.now l) (ty_of doc.now r) }
{
    literal_with_bool(bits_of(doc, l), is_bool(doc, r))
}

// Why two types can't be compared.
#[tactic(auto, unfolding(crate::specs::Rules::mismatch, crate::specs::Means::cause_of, reading::specs::Read::pick))]
pub(crate) fn mismatch(doc: &[u8], l: Ty, r: Ty) -> Cause
    ensures { cause_of doc.now result ≡ mismatch (ty_of doc.now l) (ty_of doc.now r) }
{
    if literal_as_bool(doc, l, r) || literal_as_bool(doc, r, l) {
        return Cause::IntegerAsBool;
    }
    Cause::TypeMismatch(l, r)
}

// Whether two types can be compared.
#[tactic(auto, unfolding(crate::specs::Rules::compatible_with, crate::specs::Means::unfit_of, reading::specs::Read::pick))]
pub fn compatible_with(doc: &[u8], l: Ty, r: Ty) -> Result<(), Cause>
    ensures { unfit_of doc.now result ≡ compatible_with (ty_of doc.now l) (ty_of doc.now r) }
{
    if literal_with_bits(bits_of(doc, l), bits_of(doc, r)) || same_ty(doc, l, r) {
        return Ok(());
    }
    Err(mismatch(doc, l, r))
}

// The rule of the comparisons.
#[tactic(auto, unfolding(crate::specs::Rules::compare_type, crate::specs::Means::unfit_of, crate::specs::Means::outcome, crate::specs::Means::typed_of, crate::specs::Means::ty_of, crate::specs::Causes::unless))]
pub(crate) fn compare_type(doc: &[u8], l: Ty, r: Ty, next: usize) -> Typed
    ensures { typed_of doc.now result ≡ outcome next (compare_type (ty_of doc.now l) (ty_of doc.now r)) }
{
    compatible_with(doc, l, r)?;
    Ok((Ty::Bool, next))
}

// The rule of && and ||.
#[tactic(auto, unfolding(crate::specs::Rules::logic_type, crate::specs::Rules::must_bool, crate::specs::Means::cause_of, crate::specs::Means::outcome, crate::specs::Means::typed_of, crate::specs::Means::ty_of, reading::specs::Read::pick, crate::specs::Causes::unless))]
pub(crate) fn logic_type(doc: &[u8], l: Ty, r: Ty, next: usize) -> Typed
    ensures { typed_of doc.now result ≡ outcome next (logic_type (ty_of doc.now l) (ty_of doc.now r)) }
{
    if !is_bool(doc, l) {
        return Err(Cause::MustBeBool(What::Left, l));
    }
    if !is_bool(doc, r) {
        return Err(Cause::MustBeBool(What::Right, r));
    }
    Ok((Ty::Bool, next))
}

// The rule of & and |.
#[tactic(auto, unfolding(crate::specs::Rules::and_or_type, crate::specs::Means::outcome, crate::specs::Means::typed_of, crate::specs::Means::ty_of, reading::specs::Read::pick))]
pub(crate) fn and_or_type(doc: &[u8], l: Ty, r: Ty, next: usize) -> Typed
    ensures { typed_of doc.now result ≡ outcome next (and_or_type (ty_of doc.now l) (ty_of doc.now r)) }
{
    if is_bool(doc, l) && is_bool(doc, r) {
        return Ok((Ty::Bool, next));
    }
    bit_op_type(doc, l, r, next)
}

// The rule of a binary operator, by its number in ir.rs.
pub fn binary_type(doc: &[u8], op: u64, l: Ty, r: Ty, next: usize) -> Typed
    ensures { typed_of doc.now result ≡ outcome next (binary_type (bin_op op) (ty_of doc.now l) (ty_of doc.now r)) }
{
    match op {
        0..=2 => bit_op_type(doc, l, r, next),
        3..=4 => shift_type(doc, l, r, next),
        5..=10 => compare_type(doc, l, r, next),
        11 | 13 => and_or_type(doc, l, r, next),
        12 => bit_op_type(doc, l, r, next),
        _ => logic_type(doc, l, r, next),
    }
}
