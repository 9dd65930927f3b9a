// What is said of on_error, of properties and assumptions, of State variants and of events: sites 16 to 22.
ghost use Rattle.findings.specs.Scene.{Scene};
ghost use Rattle.reading.specs.Limits.{max_list};
ghost use Rattle.text.specs.Near.{Kept};
ghost use Rattle.text.specs.Message.{error_next_said, error_emit_said, claim_said, formula_said, variant_said, event_said};
ghost use Rattle.text.specs.Says.{WithNames, WithClaims, WithFormulas, WithStates, VariantsOf, Says};

use crate::blame::unfit;
use crate::entry::{Near, entry_at};
use crate::said::{Arg, Said, two};
use findings::{events_of, outputs_of};
use typing::{after, after_head, after_tag, null_at, type_formula, validate_output_expr, word};

// Site 16: of where an error leads.
#[tactic(auto, using(crate::proofs::ErrorLaws::error_next_absent, crate::proofs::ErrorLaws::error_next_said_lem))]
pub(crate) fn say_error_next<'a>(doc: &'a [u8], places: &'a [usize]) -> Option<Said>
    ensures { Says (Scene doc.now places.now) doc.now error_next_said result }
{
    let at = word(places, 2);
    if null_at(doc, at) {
        return None;
    }
    two(
        Arg::Name(word(places, 0)),
        Arg::Name(after_head(doc, at)),
        Ok(()),
    )
}

// Site 17: of output i that an error emits.
pub(crate) fn say_error_emit<'a>(
    doc: &'a [u8],
    places: &'a [usize],
    names: &'a [usize],
    enums: &'a [usize],
    i: usize,
    near: Option<Near>,
) -> Option<Said>
    requires { Kept max_list doc.now near }
    ensures { Says (WithNames doc.now places.now names.now enums.now) doc.now (error_emit_said i) result }
{
    let at = word(places, 2);
    if null_at(doc, at) {
        return None;
    }
    let state = after_head(doc, at);
    let k = entry_at(doc, after(doc, state), i, near)?;
    let w = validate_output_expr(doc, k, outputs_of(places), names, enums);
    two(Arg::Name(word(places, 0)), Arg::Blank, w)
}

// Sites 18 and 20: of property or assumption i, by the table of both.
#[tactic(auto, using(crate::proofs::ClaimLaws::claim_absent, crate::proofs::ClaimLaws::claim_said_lem))]
pub(crate) fn say_claim<'a>(
    doc: &'a [u8],
    places: &'a [usize],
    claims: &'a [usize],
    i: usize,
) -> Option<Said>
    ensures { Says (WithClaims doc.now places.now claims.now) doc.now (claim_said i) result }
{
    if claims.len() / 2 <= i {
        return None;
    }
    let name = word(claims, 2 * i);
    two(Arg::Name(word(places, 0)), Arg::Name(name), Ok(()))
}

// Site 19: of its formula.
#[tactic(auto, using(crate::proofs::ClaimLaws::formula_absent, crate::proofs::ClaimLaws::formula_said_lem))]
pub(crate) fn say_formula<'a>(
    doc: &'a [u8],
    places: &'a [usize],
    claims: &'a [usize],
    names: &'a [usize],
    enums: &'a [usize],
    i: usize,
) -> Option<Said>
    ensures { Says (WithFormulas doc.now places.now claims.now names.now enums.now) doc.now (formula_said i) result }
{
    if claims.len() / 2 <= i {
        return None;
    }
    let name = word(claims, 2 * i);
    let formula = word(claims, 2 * i + 1);
    let f = type_formula(doc, formula, 32, names, enums);
    let w = unfit(doc, f);
    two(Arg::Name(word(places, 0)), Arg::Name(name), w)
}

// Site 21: of variant i of the first enum called State.
pub(crate) fn say_variant<'a>(
    doc: &'a [u8],
    places: &'a [usize],
    found: Option<usize>,
    i: usize,
    near: Option<Near>,
) -> Option<Said>
    requires { Kept max_list doc.now near }
    ensures { Says (WithStates doc.now places.now found) doc.now (variant_said i) result }
{
    let states = found?;
    let k = entry_at(doc, states, i, near)?;
    two(Arg::Name(word(places, 0)), Arg::Name(k), Ok(()))
}

// The place of the list of variants of event group i.
#[tactic(auto, using(crate::proofs::VariantLaws::group_found, crate::proofs::VariantLaws::no_group))]
pub(crate) fn variants_of(places: &[usize], i: usize) -> Option<usize>
    ensures { VariantsOf places.now i result }
{
    let groups = events_of(places);
    if i < groups.len() / 2 {
        return Some(groups[2 * i + 1]);
    }
    None
}

// Site 22: of variant j of event group i.
pub(crate) fn say_event<'a>(
    doc: &'a [u8],
    places: &'a [usize],
    i: usize,
    j: usize,
    near: Option<Near>,
) -> Option<Said>
    requires { Kept max_list doc.now near }
    ensures { Says (Scene doc.now places.now) doc.now (event_said i j) result }
{
    let variants = variants_of(places, i)?;
    let k = entry_at(doc, variants, j, near)?;
    two(
        Arg::Name(word(places, 0)),
        Arg::Name(after_tag(doc, k)),
        Ok(()),
    )
}
