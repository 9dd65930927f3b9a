// The message of a finding into lent bytes, by the tables of its module.
//
// A module's tables and a finding's words stand as parameters of their own: the contracts are about each list, and as fields of one value
// `places.now` would read `tables.entry.places.now` in all of them. A site is a number, as in a finding's words and in the list of forms.
ghost use Rattle.std.specs.Prelude.{◌≡◌, true, ◌+◌, ◌≤◌, length, take};
ghost use Rattle.reading.specs.Limits.{max_list};
ghost use Rattle.text.specs.Near.{Kept};
ghost use Rattle.text.specs.Bound.{BoundTo, Straight};
ghost use Rattle.text.specs.Says.{Named, Warned, PutsFinding};

use crate::aft::variants_of;
use crate::entry::{Near, look_up};
use crate::judged::{Bound, Done, put_judged_at};
use crate::listed::{put_claim_at, put_event_at, put_set_at, put_var_at};
use crate::pieces::{put_pair_at, put_priority_at};
use crate::say::say_warning;
use crate::site::put_said;
use crate::typed::{put_error_emit_at, put_formula_at, put_init_at};
use crate::words::say_named;
use findings::{Ready, field};
use typing::{after, after_head, word};

// Puts the message of a warning from a place on; the place after it. It needs no table of names.
#[tactic(auto, using(crate::proofs::FindingLaws::finding_22, crate::proofs::FindingLaws::said_length, crate::proofs::FindingLaws::finding_23, crate::proofs::FindingLaws::finding_24, crate::proofs::FindingLaws::warning_put, crate::proofs::FindingLaws::put_length))]
pub fn put_warning<'a>(
    doc: &'a [u8],
    places: &'a [usize],
    rows: &'a [usize],
    count: u8,
    found: Option<usize>,
    site: u32,
    i: usize,
    j: usize,
    out: &mut [u8],
    at: usize,
    near: Option<Near>,
) -> usize
    requires le_site { 21 ≤ site }
    requires kept { Kept max_list doc.now near }
    requires doc_len_bound { length doc.now ≤ 0xffff }
    requires at_bound { at ≤ 0x1_0000 }
    ensures puts_finding { PutsFinding (Warned doc.now places.now rows.now count found) site i j out.old at result out.new }
    ensures out_len_unchanged { length out.new ≡ length out.old }
    ensures upper_bound { result ≤ at + 0x7b_0000 }
{
    match site {
        22 => put_event_at(doc, places, i, j, near, out, at),
        23 => put_var_at(doc, places, i, near, out, at),
        24 => put_pair_at(doc, places, rows, count, site, i, j, out, at),
        _ => {
            let x = say_warning(doc, places, rows, count, found, site, i, j, near);
            put_said(out, at, doc, site, x)
        }
    }
}

// Whether a site is of what was judged in a transition, and put piece by piece.
fn is_judged(site: u32) -> bool
    ensures { result ≡ true → (site ≡ 8 → ⊥) → (site ≡ 9 → ⊥) → (site ≡ 12 → ⊥) → site ≡ 13 }
{
    matches!(site, 8..=9 | 12..=13)
}

// Whether a site's message needs no pattern to be judged, and is put piece by piece.
fn is_straight(site: u32) -> bool
    ensures { result ≡ true → Straight site }
{
    20 < site || matches!(site, 5 | 11 | 14..=15 | 17..=19)
}

// Puts such a message from a place on; the place after it.
fn put_straight<'a>(
    doc: &'a [u8],
    places: &'a [usize],
    rows: &'a [usize],
    count: u8,
    known: Ready,
    table: &'a [usize],
    enums: &'a [usize],
    claims: &'a [usize],
    site: u32,
    i: usize,
    j: usize,
    out: &mut [u8],
    at: usize,
    near: Option<Near>,
) -> usize
    requires straight { Straight site }
    requires kept { Kept max_list doc.now near }
    requires doc_len_bound { length doc.now ≤ 0xffff }
    requires in_bounds { 1658 ≤ length table.now }
    requires claims_in_bounds { known.claims ≤ length claims.now }
    requires at_bound { at ≤ 0x1_0000 }
    ensures puts_finding { PutsFinding (Named doc.now places.now rows.now count known table.now enums.now claims.now) site i j out.old at result out.new }
    ensures out_len_unchanged { length out.new ≡ length out.old }
    ensures upper_bound { result ≤ at + 0x7b_0000 }
{
    let names = &table[0..829];
    let b = known.claims;
    let listed = &claims[0..b];
    match site {
        5 => put_init_at(doc, places, names, enums, i, near, out, at),
        11 => put_set_at(doc, places, rows, count, i, j, near, out, at),
        14 => put_priority_at(doc, places, rows, count, i, j, out, at),
        15 => put_pair_at(doc, places, rows, count, site, i, j, out, at),
        17 => put_error_emit_at(doc, places, names, enums, i, near, out, at),
        18 => put_claim_at(doc, places, listed, i, out, at),
        19 => put_formula_at(doc, places, listed, names, enums, i, out, at),
        _ => {
            let found = known.found;
            put_warning(doc, places, rows, count, found, site, i, j, out, at, near)
        }
    }
}

// Puts the message from a place on. Bytes that don't fit are left out.
#[tactic(auto, using(crate::proofs::FindingLaws::judged_site, crate::proofs::FindingLaws::finding_judged, crate::proofs::FindingLaws::said_length, crate::proofs::FindingLaws::straight_site, crate::proofs::FindingLaws::finding_put, crate::proofs::JudgedLaws::bound_none, crate::proofs::FindingLaws::put_length))]
pub fn put_finding<'a>(
    doc: &'a [u8],
    places: &'a [usize],
    rows: &'a [usize],
    count: u8,
    known: Ready,
    table: &mut [usize],
    enums: &'a [usize],
    claims: &'a [usize],
    site: u32,
    i: usize,
    j: usize,
    out: &mut [u8],
    at: usize,
    near: Option<Near>,
    bound: Option<Bound>,
) -> Done
    requires kept { Kept max_list doc.now near }
    requires bound_to { BoundTo doc.now places.now rows.now table.old bound }
    requires doc_len_bound { length doc.now ≤ 0xffff }
    requires in_bounds { 1658 ≤ length table.old }
    requires claims_in_bounds { known.claims ≤ length claims.now }
    requires at_bound { at ≤ 0x1_0000 }
    ensures puts_finding { PutsFinding (Named doc.now places.now rows.now count known table.old enums.now claims.now) site i j out.old at result.end out.new }
    ensures bound_to_2 { BoundTo doc.now places.now rows.now table.new result.bound }
    ensures table_len_unchanged { length table.new ≡ length table.old }
    ensures table_unchanged { take 829 table.new ≡ take 829 table.old }
    ensures out_len_unchanged { length out.new ≡ length out.old }
    ensures end_bound { result.end ≤ at + 0x7b_0000 }
{
    if is_judged(site) {
        return put_judged_at(
            doc, places, rows, count, table, enums, site, i, j, near, bound, out, at,
        );
    }
    if is_straight(site) {
        let end = put_straight(
            doc, places, rows, count, known, table, enums, claims, site, i, j, out, at, near,
        );
        return Done { end, bound };
    }
    let x = say_named(
        doc, places, rows, count, known, table, enums, claims, site, i, j, near,
    );
    let end = put_said(out, at, doc, site, x);
    Done { end, bound: None }
}

// The place of the list in which the entry stands that a finding of a transition is about, by its row.
fn list_of_row(rows: &[usize], site: u32, i: usize) -> Option<usize> {
    let row = u8::try_from(i).ok()?;
    Some(field(rows, row, if site == 13 { 5 } else { 6 }))
}

// The same for a finding at any site; none where there is no such list.
fn list_of<'a>(
    doc: &'a [u8],
    places: &'a [usize],
    rows: &'a [usize],
    known: Ready,
    site: u32,
    i: usize,
) -> Option<usize> {
    match site {
        5 | 23 => Some(word(places, 7)),
        11..=13 => list_of_row(rows, site, i),
        17 => Some(after(doc, after_head(doc, word(places, 2)))),
        21 => known.found,
        22 => variants_of(places, i),
        _ => None,
    }
}

// The number of the entry there.
fn number_in_list(site: u32, i: usize, j: usize) -> usize {
    match site {
        11..=13 | 22 => j,
        _ => i,
    }
}

// Looks up the entry that a finding is about, so that its message finds it near.
pub fn look_up_finding<'a>(
    doc: &'a [u8],
    places: &'a [usize],
    rows: &'a [usize],
    known: Ready,
    site: u32,
    i: usize,
    j: usize,
    near: Option<Near>,
) -> Option<Near>
    requires { Kept max_list doc.now near }
    ensures { Kept max_list doc.now result }
{
    let Some(list) = list_of(doc, places, rows, known, site, i) else {
        return near;
    };
    look_up(doc, list, number_in_list(site, i, j), near)
}
