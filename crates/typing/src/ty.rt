// The types of expressions.
ghost use Rattle.std.specs.Prelude.{◌≡◌};
ghost use Rattle.typing.specs.Rules.{bits_of, is_bool, same_type, literal_with_bits, literal_with_bool};
ghost use Rattle.typing.specs.Means.{ty_of};

use crate::names::{is_word, same_name};

// A type. The name of an enum is the place where it stands in the document; `state` has the type `State` though no
// enum of that name may be declared.
#[derive(Clone, Copy, Debug, PartialEq, Eq)]
pub enum Ty {
    Bool,
    Bit(u32),
    IntLit,
    State,
    Enum(usize),
}

// A type as an operand of arithmetic.
#[derive(Clone, Copy, Debug, PartialEq, Eq)]
pub enum Bits {
    Width(u32),
    Literal,
    Other,
}

#[tactic(auto, unfolding(crate::specs::Rules::bits_of, crate::specs::Means::ty_of))]
pub(crate) fn bits_of(doc: &[u8], t: Ty) -> Bits
    ensures { result ≡ bits_of (ty_of doc.now t) }
{
    match t {
        Ty::Bit(w) => Bits::Width(w),
        Ty::IntLit => Bits::Literal,
        Ty::Bool | Ty::State | Ty::Enum(_) => Bits::Other,
    }
}

#[tactic(auto, unfolding(crate::specs::Rules::is_bool, crate::specs::Means::ty_of))]
pub fn is_bool(doc: &[u8], t: Ty) -> bool
    ensures { result ≡ is_bool (ty_of doc.now t) }
{
    matches!(t, Ty::Bool)
}

// Whether two types are equal.
#[tactic(auto, unfolding(crate::specs::Rules::same_type, crate::specs::Means::ty_of))]
pub(crate) fn same_ty(doc: &[u8], a: Ty, b: Ty) -> bool
    ensures { result ≡ same_type (ty_of doc.now a) (ty_of doc.now b) }
{
    match (a, b) {
        (Ty::Bool, Ty::Bool) | (Ty::IntLit, Ty::IntLit) | (Ty::State, Ty::State) => true,
        (Ty::Bit(v), Ty::Bit(w)) => v == w,
        (Ty::State, Ty::Enum(p)) => is_word(doc, p, b"State"),
        (Ty::Enum(p), Ty::State) => is_word(doc, p, b"State"),
        (Ty::Enum(p), Ty::Enum(q)) => same_name(doc, p, q),
        _ => false,
    }
}

// Whether one is a literal and the other a bitvector.
#[tactic(auto, unfolding(crate::specs::Rules::literal_with_bits))]
pub(crate) fn literal_with_bits(a: Bits, b: Bits) -> bool
    ensures { result ≡ literal_with_bits a b }
{
    matches!(
        (a, b),
        (Bits::Width(_), Bits::Literal) | (Bits::Literal, Bits::Width(_))
    )
}

// Whether one is a literal and the other a bool, as the test says.
#[tactic(auto, unfolding(crate::specs::Rules::literal_with_bool))]
pub(crate) fn literal_with_bool(a: Bits, b: bool) -> bool
    ensures { result ≡ literal_with_bool a b }
{
    b && matches!(a, Bits::Literal)
}
