// The messages of what was judged in a transition, piece by piece: sites 8, 9, 12 and 13. For arguments of any kind site.rt has their forms
// whole, which takes longer.
ghost use Rattle.std.specs.Prelude.{ℕ, ◌+◌, ◌≤◌, ◌≡◌, List, length, take};
ghost use Rattle.reading.specs.Limits.{max_list};
ghost use Rattle.text.specs.Put.{Put};
ghost use Rattle.text.specs.Near.{Kept};
ghost use Rattle.text.specs.Message.{saying, saying_text};
ghost use Rattle.text.specs.Said.{line, saying_of};
ghost use Rattle.text.specs.Says.{WithOwn, Says, SaysGuard, SaysValue, SaysEmit, SaysInside, SaysJudged, PutsSaid};
ghost use Rattle.text.specs.Pieces.{RowForm};
ghost use Rattle.text.specs.Bound.{SeesNames, BoundTo};
ghost use Rattle.text.specs.declared.said.Arg.TheVariants.{Blank, Name, Number};

use crate::blame::untyped;
use crate::cause::put_blame;
use crate::entry::{Near, entry_at};
use crate::listed::{put_assigned, put_transition};
use crate::out::put_bytes;
use findings::{field, judge_pattern, outputs_of};
use typing::{Blame, after, after_head, null_at, type_expr, validate_output_expr, word};

// The transition whose pattern was judged last, and how many words of the table have the names that it sees.
#[derive(Clone, Copy, Debug, PartialEq, Eq)]
pub struct Bound {
    pub row: u8,
    pub names: usize,
}

// Where a message ends, and the transition judged last.
#[derive(Clone, Copy, Debug, PartialEq, Eq)]
pub struct Done {
    pub end: usize,
    pub bound: Option<Bound>,
}

// Puts the message of a site of a transition: what was judged, and what is wrong with it.
fn put_row<'a>(
    out: &mut [u8],
    at: usize,
    doc: &'a [u8],
    site: u32,
    what: &'a [u8],
    name: usize,
    i: u64,
    w: Result<(), Blame>,
) -> usize
    requires at_bound { (at ≤ 0x10_0000) × (length doc.now ≤ 0xffff) × (length what.now ≤ 0xff) }
    requires row_form { RowForm site what.now }
    ensures put { Put out.old at (saying_text site (saying_of doc.now (line (Name name) (Number i) Blank Blank Blank w))) result out.new }
    ensures upper_bound { result ≤ at + 0x60_0000 }
{
    let a = put_transition(out, at, doc, name, i);
    let b = put_bytes(out, a, what);
    put_blame(out, b, doc, w)
}

// Site 9: puts what is said of the guard of transition i, by the names that it sees.
fn put_guard<'a>(
    doc: &'a [u8],
    places: &'a [usize],
    rows: &'a [usize],
    i: u8,
    names: &'a [usize],
    enums: &'a [usize],
    out: &mut [u8],
    at: usize,
) -> usize
    requires { (at ≤ 0x10_0000) × (length doc.now ≤ 0xffff) }
    ensures puts_said { PutsSaid (SaysGuard doc.now places.now rows.now i names.now enums.now) doc.now 9 out.old at result out.new }
    ensures upper_bound { result ≤ at + 0x60_0000 }
{
    let guard = field(rows, i, 3);
    if null_at(doc, guard) {
        return at;
    }
    let t = type_expr(doc, guard, 32, names, enums);
    let w = untyped(doc, t);
    put_row(out, at, doc, 9, b": guard: ", word(places, 0), i as u64, w)
}

// Site 12: puts what is said of the value of its assignment j.
fn put_value<'a>(
    doc: &'a [u8],
    places: &'a [usize],
    rows: &'a [usize],
    i: u8,
    names: &'a [usize],
    enums: &'a [usize],
    j: usize,
    near: Option<Near>,
    out: &mut [u8],
    at: usize,
) -> usize
    requires kept { Kept max_list doc.now near }
    requires at_bound { (at ≤ 0x10_0000) × (length doc.now ≤ 0xffff) }
    ensures puts_said { PutsSaid (SaysValue doc.now places.now rows.now i names.now enums.now j) doc.now 12 out.old at result out.new }
    ensures upper_bound { result ≤ at + 0x60_0000 }
{
    let Some(k) = entry_at(doc, field(rows, i, 6), j, near) else {
        return at;
    };
    let var = after_head(doc, k);
    let t = type_expr(doc, after(doc, var), 32, names, enums);
    let w = untyped(doc, t);
    let owner = word(places, 0);
    put_assigned(
        out, at, doc, 12, owner, i as u64, b": set '", var, b"': ", w,
    )
}

// Site 13: puts what is said of its output j.
fn put_emit<'a>(
    doc: &'a [u8],
    places: &'a [usize],
    rows: &'a [usize],
    i: u8,
    names: &'a [usize],
    enums: &'a [usize],
    j: usize,
    near: Option<Near>,
    out: &mut [u8],
    at: usize,
) -> usize
    requires kept { Kept max_list doc.now near }
    requires at_bound { (at ≤ 0x10_0000) × (length doc.now ≤ 0xffff) }
    ensures puts_said { PutsSaid (SaysEmit doc.now places.now rows.now i names.now enums.now j) doc.now 13 out.old at result out.new }
    ensures upper_bound { result ≤ at + 0x60_0000 }
{
    let Some(k) = entry_at(doc, field(rows, i, 5), j, near) else {
        return at;
    };
    let w = validate_output_expr(doc, k, outputs_of(places), names, enums);
    put_row(out, at, doc, 13, b": emit: ", word(places, 0), i as u64, w)
}

// Sites 9, 12 and 13.
#[tactic(auto, using(crate::proofs::BlamedLaws::puts_guard, crate::proofs::BlamedLaws::puts_value, crate::proofs::BlamedLaws::puts_emit))]
fn put_inside<'a>(
    doc: &'a [u8],
    places: &'a [usize],
    rows: &'a [usize],
    i: u8,
    names: &'a [usize],
    enums: &'a [usize],
    site: u32,
    j: usize,
    near: Option<Near>,
    out: &mut [u8],
    at: usize,
) -> usize
    requires kept { Kept max_list doc.now near }
    requires at_bound { (at ≤ 0x10_0000) × (length doc.now ≤ 0xffff) }
    requires site_value { (site ≡ 9 → ⊥) → (site ≡ 12 → ⊥) → site ≡ 13 }
    ensures puts_said { PutsSaid (SaysInside doc.now places.now rows.now i names.now enums.now site j) doc.now site out.old at result out.new }
    ensures upper_bound { result ≤ at + 0x60_0000 }
{
    match site {
        9 => put_guard(doc, places, rows, i, names, enums, out, at),
        12 => put_value(doc, places, rows, i, names, enums, j, near, out, at),
        _ => put_emit(doc, places, rows, i, names, enums, j, near, out, at),
    }
}

// How many words of the table have the names that transition i sees: its pattern is judged, unless it was the last that was. The first block of the
// table has the module's variables; the pattern's bindings go into the second.
fn names_of<'a>(
    doc: &'a [u8],
    places: &'a [usize],
    rows: &'a [usize],
    i: u8,
    table: &mut [usize],
    bound: Option<Bound>,
) -> usize
    requires in_bounds { 1658 ≤ length table.old }
    requires bound_to { BoundTo doc.now places.now rows.now table.old bound }
    ensures sees_names { SeesNames doc.now places.now rows.now i (take 829 table.old) table.new result }
    ensures table_len_unchanged { length table.new ≡ length table.old }
    ensures table_unchanged { take 829 table.new ≡ take 829 table.old }
{
    match bound {
        Some(last) if last.row == i => last.names,
        _ => judge_pattern(doc, places, rows, i, table).names,
    }
}

// Site 8: puts what is said of the pattern of transition i.
fn put_pattern<'a>(
    doc: &'a [u8],
    places: &'a [usize],
    rows: &'a [usize],
    i: u8,
    table: &mut [usize],
    out: &mut [u8],
    at: usize,
) -> Done
    requires in_bounds { 1658 ≤ length table.old }
    requires at_bound { (at ≤ 0x10_0000) × (length doc.now ≤ 0xffff) }
    ensures by_index { (enums : List ℕ) (j : ℕ) → PutsSaid (SaysJudged doc.now places.now rows.now i (take 829 table.old) enums 8 j) doc.now 8 out.old at result.end out.new }
    ensures bound_to { BoundTo doc.now places.now rows.now table.new result.bound }
    ensures table_len_unchanged { length table.new ≡ length table.old }
    ensures table_unchanged { take 829 table.new ≡ take 829 table.old }
    ensures end_bound { result.end ≤ at + 0x60_0000 }
{
    let p = judge_pattern(doc, places, rows, i, table);
    let w = p.blame;
    let end = put_row(
        out,
        at,
        doc,
        8,
        b": event pattern: ",
        word(places, 0),
        i as u64,
        w,
    );
    Done {
        end,
        bound: Some(Bound {
            row: i,
            names: p.names,
        }),
    }
}

// Sites 8, 9, 12 and 13, of transition i.
fn put_judged<'a>(
    doc: &'a [u8],
    places: &'a [usize],
    rows: &'a [usize],
    i: u8,
    table: &mut [usize],
    enums: &'a [usize],
    site: u32,
    j: usize,
    near: Option<Near>,
    bound: Option<Bound>,
    out: &mut [u8],
    at: usize,
) -> Done
    requires kept { Kept max_list doc.now near }
    requires in_bounds { 1658 ≤ length table.old }
    requires bound_to { BoundTo doc.now places.now rows.now table.old bound }
    requires at_bound { (at ≤ 0x10_0000) × (length doc.now ≤ 0xffff) }
    requires site_value { (site ≡ 8 → ⊥) → (site ≡ 9 → ⊥) → (site ≡ 12 → ⊥) → site ≡ 13 }
    ensures puts_said { PutsSaid (SaysJudged doc.now places.now rows.now i (take 829 table.old) enums.now site j) doc.now site out.old at result.end out.new }
    ensures bound_to_2 { BoundTo doc.now places.now rows.now table.new result.bound }
    ensures table_len_unchanged { length table.new ≡ length table.old }
    ensures table_unchanged { take 829 table.new ≡ take 829 table.old }
    ensures end_bound { result.end ≤ at + 0x60_0000 }
{
    if site == 8 {
        return put_pattern(doc, places, rows, i, table, out, at);
    }
    let n = names_of(doc, places, rows, i, table, bound);
    let names = &table[0..n];
    let end = put_inside(doc, places, rows, i, names, enums, site, j, near, out, at);
    Done {
        end,
        bound: Some(Bound { row: i, names: n }),
    }
}

// The same, where there are so many transitions; nothing where i is past them.
pub(crate) fn put_judged_at<'a>(
    doc: &'a [u8],
    places: &'a [usize],
    rows: &'a [usize],
    count: u8,
    table: &mut [usize],
    enums: &'a [usize],
    site: u32,
    i: usize,
    j: usize,
    near: Option<Near>,
    bound: Option<Bound>,
    out: &mut [u8],
    at: usize,
) -> Done
    requires kept { Kept max_list doc.now near }
    requires in_bounds { 1658 ≤ length table.old }
    requires bound_to { BoundTo doc.now places.now rows.now table.old bound }
    requires at_bound { (at ≤ 0x10_0000) × (length doc.now ≤ 0xffff) }
    requires site_value { (site ≡ 8 → ⊥) → (site ≡ 9 → ⊥) → (site ≡ 12 → ⊥) → site ≡ 13 }
    ensures puts_said { PutsSaid (Says (WithOwn doc.now places.now rows.now count (take 829 table.old) enums.now) doc.now (saying site i j)) doc.now site out.old at result.end out.new }
    ensures bound_to_2 { BoundTo doc.now places.now rows.now table.new result.bound }
    ensures table_len_unchanged { length table.new ≡ length table.old }
    ensures table_unchanged { take 829 table.new ≡ take 829 table.old }
    ensures end_bound { result.end ≤ at + 0x60_0000 }
{
    if count as usize <= i {
        return Done { end: at, bound };
    }
    put_judged(
        doc, places, rows, i as u8, table, enums, site, j, near, bound, out, at,
    )
}
