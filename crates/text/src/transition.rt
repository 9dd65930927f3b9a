// What is said of a transition by itself: sites 6 to 13.
ghost use Rattle.std.specs.Prelude.{◌≡◌, ◌≤◌, length, take};
ghost use Rattle.reading.specs.Limits.{max_list};
ghost use Rattle.text.specs.Near.{Kept};
ghost use Rattle.text.specs.Says.{SaysState, SaysNext, SaysPattern, SaysGuard, SaysGuardType, SaysSet, SaysValue, SaysEmit, SaysInside, SaysJudged};

use crate::blame::untyped;
use crate::entry::{Near, entry_at};
use crate::said::{Arg, Said, three, two};
use findings::{field, judge_pattern, outputs_of};
use typing::{Blame, after, after_head, null_at, type_expr, validate_output_expr, word};

// Site 6: of the state that transition i starts at.
pub(crate) fn say_state<'a>(
    doc: &'a [u8],
    places: &'a [usize],
    rows: &'a [usize],
    i: u8,
) -> Option<Said>
    ensures { SaysState doc.now places.now rows.now i result }
{
    let state = field(rows, i, 1);
    three(
        Arg::Name(word(places, 0)),
        Arg::Number(i as u64),
        Arg::Name(state),
        Ok(()),
    )
}

// Site 7: of the state that it leads to.
pub(crate) fn say_next<'a>(
    doc: &'a [u8],
    places: &'a [usize],
    rows: &'a [usize],
    i: u8,
) -> Option<Said>
    ensures { SaysNext doc.now places.now rows.now i result }
{
    let next = field(rows, i, 4);
    three(
        Arg::Name(word(places, 0)),
        Arg::Number(i as u64),
        Arg::Name(next),
        Ok(()),
    )
}

// Site 9: of its guard, by the names that it sees.
pub(crate) fn say_guard<'a>(
    doc: &'a [u8],
    places: &'a [usize],
    rows: &'a [usize],
    i: u8,
    names: &'a [usize],
    enums: &'a [usize],
) -> Option<Said>
    ensures { SaysGuard doc.now places.now rows.now i names.now enums.now result }
{
    let at = field(rows, i, 3);
    if null_at(doc, at) {
        return None;
    }
    let t = type_expr(doc, at, 32, names, enums);
    let w = untyped(doc, t);
    two(Arg::Name(word(places, 0)), Arg::Number(i as u64), w)
}

// Site 10: of its guard's type.
pub(crate) fn say_guard_type<'a>(
    doc: &'a [u8],
    places: &'a [usize],
    rows: &'a [usize],
    i: u8,
    names: &'a [usize],
    enums: &'a [usize],
) -> Option<Said>
    ensures { SaysGuardType doc.now places.now rows.now i names.now enums.now result }
{
    let at = field(rows, i, 3);
    if null_at(doc, at) {
        return None;
    }
    let Ok((ty, _)) = type_expr(doc, at, 32, names, enums) else {
        return None;
    };
    three(
        Arg::Name(word(places, 0)),
        Arg::Number(i as u64),
        Arg::Debug(ty),
        Ok(()),
    )
}

// Site 11: of the variable of its assignment j.
pub(crate) fn say_set<'a>(
    doc: &'a [u8],
    places: &'a [usize],
    rows: &'a [usize],
    i: u8,
    j: usize,
    near: Option<Near>,
) -> Option<Said>
    requires { Kept max_list doc.now near }
    ensures { SaysSet doc.now places.now rows.now i j result }
{
    let k = entry_at(doc, field(rows, i, 6), j, near)?;
    let var = after_head(doc, k);
    three(
        Arg::Name(word(places, 0)),
        Arg::Number(i as u64),
        Arg::Name(var),
        Ok(()),
    )
}

// Site 12: of the value of its assignment j.
pub(crate) fn say_value<'a>(
    doc: &'a [u8],
    places: &'a [usize],
    rows: &'a [usize],
    i: u8,
    names: &'a [usize],
    enums: &'a [usize],
    j: usize,
    near: Option<Near>,
) -> Option<Said>
    requires { Kept max_list doc.now near }
    ensures { SaysValue doc.now places.now rows.now i names.now enums.now j result }
{
    let k = entry_at(doc, field(rows, i, 6), j, near)?;
    let var = after_head(doc, k);
    let t = type_expr(doc, after(doc, var), 32, names, enums);
    let w = untyped(doc, t);
    three(
        Arg::Name(word(places, 0)),
        Arg::Number(i as u64),
        Arg::Name(var),
        w,
    )
}

// Site 13: of its output j.
pub(crate) fn say_emit<'a>(
    doc: &'a [u8],
    places: &'a [usize],
    rows: &'a [usize],
    i: u8,
    names: &'a [usize],
    enums: &'a [usize],
    j: usize,
    near: Option<Near>,
) -> Option<Said>
    requires { Kept max_list doc.now near }
    ensures { SaysEmit doc.now places.now rows.now i names.now enums.now j result }
{
    let k = entry_at(doc, field(rows, i, 5), j, near)?;
    let w = validate_output_expr(doc, k, outputs_of(places), names, enums);
    two(Arg::Name(word(places, 0)), Arg::Number(i as u64), w)
}

// Sites 9, 10, 12 and 13, by the names that the transition sees.
#[tactic(auto, using(crate::proofs::JudgedLaws::inside_guard, crate::proofs::JudgedLaws::inside_guard_type, crate::proofs::JudgedLaws::inside_value, crate::proofs::JudgedLaws::inside_emit))]
pub(crate) fn say_inside<'a>(
    doc: &'a [u8],
    places: &'a [usize],
    rows: &'a [usize],
    i: u8,
    names: &'a [usize],
    enums: &'a [usize],
    site: u32,
    j: usize,
    near: Option<Near>,
) -> Option<Said>
    requires { Kept max_list doc.now near }
    ensures { SaysInside doc.now places.now rows.now i names.now enums.now site j result }
{
    match site {
        9 => say_guard(doc, places, rows, i, names, enums),
        10 => say_guard_type(doc, places, rows, i, names, enums),
        12 => say_value(doc, places, rows, i, names, enums, j, near),
        _ => say_emit(doc, places, rows, i, names, enums, j, near),
    }
}

// Site 8: of its pattern, by what is wrong with it.
#[tactic(auto, using(crate::proofs::TransitionLaws::pattern_said_lem))]
pub(crate) fn say_pattern<'a>(
    doc: &'a [u8],
    places: &'a [usize],
    i: u8,
    w: Result<(), Blame>,
) -> Option<Said>
    ensures { SaysPattern doc.now places.now i w result }
{
    two(Arg::Name(word(places, 0)), Arg::Number(i as u64), w)
}

// Sites 8, 9, 10, 12 and 13, of transition i. The first block of the table has the module's variables; the pattern's bindings go into the
// second.
#[tactic(auto, using(crate::proofs::JudgedLaws::judged_pattern, crate::proofs::JudgedLaws::judged_inside))]
pub(crate) fn say_judged<'a>(
    doc: &'a [u8],
    places: &'a [usize],
    rows: &'a [usize],
    i: u8,
    table: &mut [usize],
    enums: &'a [usize],
    site: u32,
    j: usize,
    near: Option<Near>,
) -> Option<Said>
    requires kept { Kept max_list doc.now near }
    requires in_bounds { 1658 ≤ length table.old }
    ensures says_judged { SaysJudged doc.now places.now rows.now i (take 829 table.old) enums.now site j result }
    ensures table_len_unchanged { length table.new ≡ length table.old }
    ensures table_unchanged { take 829 table.new ≡ take 829 table.old }
{
    let p = judge_pattern(doc, places, rows, i, table);
    if site == 8 {
        let w = p.blame;
        return say_pattern(doc, places, i, w);
    }
    let end = p.names;
    let names = &table[0..end];
    say_inside(doc, places, rows, i, names, enums, site, j, near)
}
