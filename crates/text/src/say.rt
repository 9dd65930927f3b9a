// What is said of a finding, by the tables of its module.
ghost use Rattle.std.specs.Prelude.{◌≡◌, ◌≤◌, length, take};
ghost use Rattle.reading.specs.Limits.{max_list};
ghost use Rattle.text.specs.Near.{Kept};
ghost use Rattle.text.specs.Message.{saying, priority_said, pair_said, id_said, clash_said};
ghost use Rattle.text.specs.Says.{WithRows, WithOwn, Tables, Warned, SaysOwn, SaysPlain, SaysWarning, Says};

use crate::aft::{say_claim, say_error_emit, say_error_next, say_event, say_formula, say_variant};
use crate::entry::Near;
use crate::fore::{say_init, say_initial, say_module, say_var, say_version};
use crate::pair::{say_clash, say_id, say_pair, say_priority};
use crate::said::Said;
use crate::transition::{say_judged, say_next, say_set, say_state};

// Sites 6 to 13, of transition i.
#[tactic(auto, using(crate::proofs::SayLaws::own_past, crate::proofs::SayLaws::own_state, crate::proofs::SayLaws::own_next, crate::proofs::SayLaws::own_set, crate::proofs::SayLaws::own_judged))]
pub(crate) fn say_own<'a>(
    doc: &'a [u8],
    places: &'a [usize],
    rows: &'a [usize],
    count: u8,
    table: &mut [usize],
    enums: &'a [usize],
    site: u32,
    i: usize,
    j: usize,
    near: Option<Near>,
) -> Option<Said>
    requires kept { Kept max_list doc.now near }
    requires in_bounds { 1658 ≤ length table.old }
    ensures says_own { SaysOwn (WithOwn doc.now places.now rows.now count (take 829 table.old) enums.now) doc.now site i j result }
    ensures table_len_unchanged { length table.new ≡ length table.old }
    ensures table_unchanged { take 829 table.new ≡ take 829 table.old }
{
    if count as usize <= i {
        return None;
    }
    let t = i as u8;
    match site {
        6 => say_state(doc, places, rows, t),
        7 => say_next(doc, places, rows, t),
        11 => say_set(doc, places, rows, t, j, near),
        _ => say_judged(doc, places, rows, t, table, enums, site, j, near),
    }
}

// Site 14, of transitions i and j.
pub(crate) fn say_priority_at<'a>(
    doc: &'a [u8],
    places: &'a [usize],
    rows: &'a [usize],
    count: u8,
    i: usize,
    j: usize,
) -> Option<Said>
    ensures { Says (WithRows doc.now places.now rows.now count) doc.now (priority_said i j) result }
{
    if count as usize <= i || count as usize <= j {
        return None;
    }
    say_priority(doc, places, rows, i as u8, j as u8)
}

// Sites 15 and 24, of transitions i and j.
pub(crate) fn say_pair_at<'a>(
    doc: &'a [u8],
    places: &'a [usize],
    rows: &'a [usize],
    count: u8,
    i: usize,
    j: usize,
) -> Option<Said>
    ensures { Says (WithRows doc.now places.now rows.now count) doc.now (pair_said i j) result }
{
    if count as usize <= i || count as usize <= j {
        return None;
    }
    say_pair(doc, places, rows, i as u8, j as u8)
}

// Site 25, of transition i.
#[tactic(auto, using(crate::proofs::SayLaws::id_past, crate::proofs::SayLaws::id_there))]
pub(crate) fn say_id_at<'a>(
    doc: &'a [u8],
    places: &'a [usize],
    rows: &'a [usize],
    count: u8,
    i: usize,
) -> Option<Said>
    ensures { Says (WithRows doc.now places.now rows.now count) doc.now (id_said i) result }
{
    if count as usize <= i {
        return None;
    }
    say_id(doc, places, rows, i as u8)
}

// Site 26, of transition i.
#[tactic(auto, using(crate::proofs::SayLaws::clash_past, crate::proofs::SayLaws::clash_there))]
pub(crate) fn say_clash_at<'a>(
    doc: &'a [u8],
    places: &'a [usize],
    rows: &'a [usize],
    count: u8,
    i: usize,
) -> Option<Said>
    ensures { Says (WithRows doc.now places.now rows.now count) doc.now (clash_said i) result }
{
    if count as usize <= i {
        return None;
    }
    say_clash(doc, places, rows, i as u8)
}

// Warnings: sites 21 to 26. They need no table of names.
#[tactic(auto, using(crate::proofs::SayLaws::warning_21, crate::proofs::SayLaws::warning_22, crate::proofs::SayLaws::warning_23, crate::proofs::SayLaws::warning_24, crate::proofs::SayLaws::warning_25, crate::proofs::SayLaws::warning_26, crate::proofs::SayLaws::warning_none))]
pub(crate) fn say_warning<'a>(
    doc: &'a [u8],
    places: &'a [usize],
    rows: &'a [usize],
    count: u8,
    found: Option<usize>,
    site: u32,
    i: usize,
    j: usize,
    near: Option<Near>,
) -> Option<Said>
    requires { Kept max_list doc.now near }
    ensures { SaysWarning (Warned doc.now places.now rows.now count found) doc.now site i j result }
{
    match site {
        21 => say_variant(doc, places, found, i, near),
        22 => say_event(doc, places, i, j, near),
        23 => say_var(doc, places, i, near),
        24 => say_pair_at(doc, places, rows, count, i, j),
        25 => say_id_at(doc, places, rows, count, i),
        26 => say_clash_at(doc, places, rows, count, i),
        _ => None,
    }
}

// Every site but 6 to 13.
pub(crate) fn say_plain<'a>(
    doc: &'a [u8],
    places: &'a [usize],
    rows: &'a [usize],
    count: u8,
    found: Option<usize>,
    names: &'a [usize],
    enums: &'a [usize],
    claims: &'a [usize],
    site: u32,
    i: usize,
    j: usize,
    near: Option<Near>,
) -> Option<Said>
    requires { Kept max_list doc.now near }
    ensures { SaysPlain (Tables doc.now places.now rows.now count found names.now enums.now claims.now) doc.now site i j result }
{
    match site {
        0 => None,
        1 | 3 => say_module(doc, places),
        2 => say_initial(doc, places),
        4 => say_version(doc, places),
        5 => say_init(doc, places, names, enums, i, near),
        14 => say_priority_at(doc, places, rows, count, i, j),
        15 => say_pair_at(doc, places, rows, count, i, j),
        16 => say_error_next(doc, places),
        17 => say_error_emit(doc, places, names, enums, i, near),
        18 | 20 => say_claim(doc, places, claims, i),
        19 => say_formula(doc, places, claims, names, enums, i),
        _ => say_warning(doc, places, rows, count, found, site, i, j, near),
    }
}

// Every site. The first block of the table has the module's variables, and the second room for the bindings of a pattern.
pub(crate) fn say<'a>(
    doc: &'a [u8],
    places: &'a [usize],
    rows: &'a [usize],
    count: u8,
    found: Option<usize>,
    table: &mut [usize],
    enums: &'a [usize],
    claims: &'a [usize],
    site: u32,
    i: usize,
    j: usize,
    near: Option<Near>,
) -> Option<Said>
    requires kept { Kept max_list doc.now near }
    requires in_bounds { 1658 ≤ length table.old }
    ensures says { Says (Tables doc.now places.now rows.now count found (take 829 table.old) enums.now claims.now) doc.now (saying site i j) result }
    ensures table_len_unchanged { length table.new ≡ length table.old }
    ensures table_unchanged { take 829 table.new ≡ take 829 table.old }
{
    match site {
        6..=13 => say_own(doc, places, rows, count, table, enums, site, i, j, near),
        _ => {
            let names = &table[0..829];
            say_plain(
                doc, places, rows, count, found, names, enums, claims, site, i, j, near,
            )
        }
    }
}
