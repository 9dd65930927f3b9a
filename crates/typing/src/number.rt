// Document 01's number of a cause.
ghost use Rattle.std.specs.Prelude.{◌≡◌};
ghost use Rattle.typing.specs.Causes.{number, cause_word, blame_word};
ghost use Rattle.typing.specs.Means.{cause_of, unfit_of, blame_of};

use crate::cause::{Blame, Cause};

// The number of a cause.
#[tactic(auto, unfolding(crate::specs::Causes::number, crate::specs::Means::cause_of))]
pub fn cause_number(doc: &[u8], cause: Cause) -> u32
    ensures { result ≡ number (cause_of doc.now cause) }
{
    match cause {
        Cause::UnknownEventGroup(_) => 1,
        Cause::UnknownEventVariant(_, _) => 2,
        Cause::FieldCount(_, _, _) => 3,
        Cause::DuplicateBinding(_) => 4,
        Cause::UnitWithFields(_) => 5,
        Cause::FieldsWithout(_) => 6,
        Cause::DoesNotFit(_, _) => 7,
        Cause::IntegerOnBool => 8,
        Cause::IntegerOnEnum => 9,
        Cause::BooleanLiteral => 10,
        Cause::VariantPath(_, _) => 11,
        Cause::VariantOnNonEnum => 12,
        Cause::UnknownOutputGroup(_) => 13,
        Cause::BareOutput(_) => 14,
        Cause::UnknownOutputVariant(_, _) => 15,
        Cause::ArgumentCount(_, _, _) => 16,
        Cause::MustBeBool(_, _) => 17,
        Cause::BitNot => 18,
        Cause::Negation => 19,
        Cause::EmptyPath => 20,
        Cause::UnknownIdentifier(_) => 21,
        Cause::UnknownEnum(_) => 22,
        Cause::UnknownVariant(_, _) => 23,
        Cause::PathLength(_) => 24,
        Cause::ShiftLeft => 25,
        Cause::ShiftRight => 26,
        Cause::WidthMismatch(_, _) => 27,
        Cause::NeedsBitvectors => 28,
        Cause::IntegerAsBool => 29,
        Cause::TypeMismatch(_, _) => 30,
        Cause::BindingInFormula => 31,
    }
}

// The number of what is wrong with a pattern or an output; 0 where nothing is.
#[tactic(auto, unfolding(crate::specs::Causes::blame_word, crate::specs::Means::blame_of))]
pub fn blame_number(doc: &[u8], blame: Result<(), Blame>) -> u32
    ensures { result ≡ blame_word (blame_of doc.now blame) }
{
    match blame {
        Ok(()) => 0,
        Err(Blame { cause, .. }) => cause_number(doc, cause),
    }
}

// The number of what is wrong; 0 where nothing is.
#[tactic(auto, unfolding(crate::specs::Causes::cause_word, crate::specs::Means::unfit_of))]
pub fn fit_number(doc: &[u8], fit: Result<(), Cause>) -> u32
    ensures { result ≡ cause_word (unfit_of doc.now fit) }
{
    match fit {
        Ok(()) => 0,
        Err(cause) => cause_number(doc, cause),
    }
}
