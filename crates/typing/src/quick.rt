// What most operators make of the types they mostly get, by numbers, as `Makes` in `specs/Quick.antt`; the rules are asked about the
// others.
ghost use Rattle.std.specs.Prelude.{◌≡◌, ◌<◌};
ghost use Rattle.typing.specs.Means.{ty_of, unfit_of};
ghost use Rattle.typing.specs.Rules.{compatible_with};
ghost use Rattle.typing.specs.Quick.{code_of, Alike, Makes, Surely};

use crate::cause::Cause;
use crate::rules::compatible_with;
use crate::ty::Ty;

// The number of a type: 0 for a bool, 1 for a literal, 2 for an enum, and from 3 on the bitvectors by their widths.
#[tactic(auto, unfolding(crate::specs::Quick::code_of, crate::specs::Means::ty_of))]
pub(crate) fn code_of(doc: &[u8], t: Ty) -> u64
    ensures value { result ≡ code_of (ty_of doc.now t) }
    ensures upper_bound { result < 4294967299 }
{
    match t {
        Ty::Bool => 0,
        Ty::Bit(w) => w as u64 + 3,
        Ty::IntLit => 1,
        Ty::State | Ty::Enum(_) => 2,
    }
}

// Whether the first is a bitvector, and the second the same or a literal.
fn alike(a: u64, b: u64) -> bool
    ensures { Alike a b result }
{
    3 <= a && (b == 1 || a == b)
}

// What an operator makes of two types, by their numbers; 2 where its rule has to be asked.
pub(crate) fn quick_type(op: u64, a: u64, b: u64) -> u64
    ensures { Makes op a b result }
{
    match op {
        0..=2 if alike(a, b) => a,
        5..=10 if alike(a, b) => 0,
        14.. if a == 0 && b == 0 => 0,
        _ => 2,
    }
}

// Whether two types have one number that is no enum's.
fn surely_equal(doc: &[u8], l: Ty, r: Ty) -> bool
    ensures { Surely (ty_of doc.now l) (ty_of doc.now r) result }
{
    let a = code_of(doc, l);
    a != 2 && a == code_of(doc, r)
}

// Whether two types can be compared: most are equal.
pub(crate) fn quickly_compatible(doc: &[u8], l: Ty, r: Ty) -> Result<(), Cause>
    ensures { unfit_of doc.now result ≡ compatible_with (ty_of doc.now l) (ty_of doc.now r) }
{
    if surely_equal(doc, l, r) {
        return Ok(());
    }
    compatible_with(doc, l, r)
}
