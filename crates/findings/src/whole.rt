// The walk over a document's modules: errors go to one buffer and warnings to another.
ghost use Rattle.std.specs.Prelude.{◌≡◌, ◌+◌, ◌-◌, ◌≤◌, ◌^◌, length, get_or, take};
ghost use Rattle.findings.specs.Scene.{Opens};
ghost use Rattle.findings.specs.Promises.{FirstStates};
ghost use Rattle.findings.specs.PairPromises.{Printed};
ghost use Rattle.findings.specs.ModulePromises.{Names, NotesErrors, NotesWarnings};
ghost use Rattle.findings.specs.Walks.{WalksNamed, WalksModule, WalksModules, WalksAll};

use crate::errors::note_errors;
use crate::module::{fill_names, open_module};
use crate::prints::fill_prints;
use crate::reply::Counts;
use crate::rows::Listed;
use crate::states::first_states;
use crate::warnings::note_warnings;
use reading::Cursor;
use typing::{after, after_head, outgrows, word};

// Both walks over a module whose tables are filled.
fn judge_module<'a>(
    doc: &'a [u8],
    places: &'a [usize],
    rows: &'a [usize],
    prints: &'a [u32; 768],
    count: u8,
    found: Option<usize>,
    table: &mut [usize; 1658],
    enums: &'a [usize],
    claims: &'a [usize],
    out: &mut [u32],
    skip: usize,
    n: usize,
    aside: &mut [u32],
    leave: usize,
    k: usize,
    owner: u32,
) -> Counts
    requires claims_len_bound { length claims.now ≤ 1020 }
    requires n_bound { n + 33295864 ≤ 2 ^ 40 }
    requires k_bound { k + 33228540 ≤ 2 ^ 40 }
    ensures notes_errors { NotesErrors doc.now owner out.old skip n result.errors out.new places.now found rows.now prints.now count (take 829 table.old) enums.now claims.now }
    ensures notes_warnings { NotesWarnings doc.now owner aside.old leave k result.warnings aside.new places.now found rows.now prints.now count }
    ensures errors_bound { result.errors ≤ n + 33295864 }
    ensures warnings_bound { result.warnings ≤ k + 33228540 }
{
    let errors = note_errors(
        doc, places, rows, prints, count, found, table, enums, claims, out, skip, n, owner,
    );
    let warnings = note_warnings(
        doc, places, rows, prints, count, found, aside, leave, k, owner,
    );
    Counts { errors, warnings }
}

// The same, where the table of properties and assumptions takes b words.
fn judge_named<'a>(
    doc: &'a [u8],
    places: &'a [usize],
    rows: &'a [usize],
    prints: &'a [u32; 768],
    count: u8,
    found: Option<usize>,
    table: &mut [usize; 1658],
    b: usize,
    enums: &'a [usize],
    claims: &'a [usize; 1020],
    out: &mut [u32],
    skip: usize,
    n: usize,
    aside: &mut [u32],
    leave: usize,
    k: usize,
    owner: u32,
) -> Counts
    requires b_bound { b ≤ 1020 }
    requires n_bound { n + 33295864 ≤ 2 ^ 40 }
    requires k_bound { k + 33228540 ≤ 2 ^ 40 }
    ensures notes_errors { NotesErrors doc.now owner out.old skip n result.errors out.new places.now found rows.now prints.now count (take 829 table.old) enums.now (take (b - 0) claims.now) }
    ensures notes_warnings { NotesWarnings doc.now owner aside.old leave k result.warnings aside.new places.now found rows.now prints.now count }
    ensures errors_bound { result.errors ≤ n + 33295864 }
    ensures warnings_bound { result.warnings ≤ k + 33228540 }
{
    let listed = &claims[0..b];
    judge_module(
        doc, places, rows, prints, count, found, table, enums, listed, out, skip, n, aside, leave,
        k, owner,
    )
}

// The numbers after a module, and the place after it.
#[derive(Clone, Copy)]
pub struct Passed {
    pub errors: usize,
    pub warnings: usize,
    pub end: usize,
}

// The places of a module's fields and of its transitions' fields, with the prints of the transitions.
fn open_printed(
    doc: &[u8],
    at: usize,
    places: &mut [usize],
    rows: &mut [usize; 2040],
    prints: &mut [u32; 768],
) -> Listed
    requires { 1544 ≤ length places.old }
    ensures opens { Opens doc.now at result places.new rows.new }
    ensures printed { Printed doc.now rows.new result.count prints.new }
{
    let listed = open_module(doc, at, places, rows);
    fill_prints(doc, rows, listed.count, prints);
    listed
}

// The first enum called State of a module.
pub fn states_of<'a>(doc: &'a [u8], places: &'a [usize]) -> Option<usize>
    ensures { FirstStates doc.now (get_or places.now 3 0) result }
{
    let enums = word(places, 3);
    first_states(doc, enums)
}

// The first enum called State, and how many words the table of properties and assumptions takes.
#[derive(Clone, Copy)]
pub struct Ready {
    pub found: Option<usize>,
    pub claims: usize,
}

// Fills the tables of names of a module whose fields' places are known.
pub fn name_module<'a>(
    doc: &'a [u8],
    places: &'a [usize],
    table: &mut [usize],
    enums: &mut [usize],
    claims: &mut [usize],
) -> Ready
    requires in_bounds { 829 ≤ length table.old }
    requires in_bounds_2 { 829 ≤ length enums.old }
    requires claims_len { length claims.old ≡ 1020 }
    ensures first_states { FirstStates doc.now (get_or places.now 3 0) result.found }
    ensures names { Names doc.now places.now result.claims table.new enums.new claims.new }
    ensures claims_bound { result.claims ≤ 1020 }
{
    let found = states_of(doc, places);
    let words = fill_names(doc, places, table, enums, claims);
    Ready {
        found,
        claims: words,
    }
}

// Both walks over a module whose fields' places are known; the tables of names are filled anew.
fn walk_named<'a>(
    doc: &'a [u8],
    owner: u32,
    places: &'a [usize],
    rows: &'a [usize],
    prints: &'a [u32; 768],
    count: u8,
    table: &mut [usize; 1658],
    enums: &mut [usize; 2365],
    claims: &mut [usize; 1020],
    out: &mut [u32],
    skip: usize,
    n: usize,
    aside: &mut [u32],
    leave: usize,
    k: usize,
) -> Counts
    requires n_bound { n + 33295864 ≤ 2 ^ 40 }
    requires k_bound { k + 33228540 ≤ 2 ^ 40 }
    ensures walks_named { WalksNamed doc.now out.old skip n result.errors out.new aside.old leave k result.warnings aside.new owner places.now rows.now prints.now count }
    ensures errors_bound { result.errors ≤ n + 33295864 }
    ensures warnings_bound { result.warnings ≤ k + 33228540 }
{
    let known = name_module(doc, places, table, enums, claims);
    let found = known.found;
    judge_named(
        doc,
        places,
        rows,
        prints,
        count,
        found,
        table,
        known.claims,
        enums,
        claims,
        out,
        skip,
        n,
        aside,
        leave,
        k,
        owner,
    )
}

// Both walks over the module at a place, of which the places of its fields and of its transitions' fields are known.
fn walk_opened<'a>(
    doc: &'a [u8],
    at: usize,
    listed: Listed,
    owner: u32,
    places: &'a [usize],
    rows: &'a [usize],
    prints: &'a [u32; 768],
    table: &mut [usize; 1658],
    enums: &mut [usize; 2365],
    claims: &mut [usize; 1020],
    out: &mut [u32],
    skip: usize,
    n: usize,
    aside: &mut [u32],
    leave: usize,
    k: usize,
) -> Passed
    requires opens { Opens doc.now at listed places.now rows.now }
    requires printed { Printed doc.now rows.now listed.count prints.now }
    requires n_bound { n + 33295864 ≤ 2 ^ 40 }
    requires k_bound { k + 33228540 ≤ 2 ^ 40 }
    ensures walks_module { WalksModule doc.now out.old skip n result.errors out.new aside.old leave k result.warnings aside.new owner at result.end }
    ensures errors_bound { result.errors ≤ n + 33295864 }
    ensures warnings_bound { result.warnings ≤ k + 33228540 }
{
    let totals = walk_named(
        doc,
        owner,
        places,
        rows,
        prints,
        listed.count,
        table,
        enums,
        claims,
        out,
        skip,
        n,
        aside,
        leave,
        k,
    );
    Passed {
        errors: totals.errors,
        warnings: totals.warnings,
        end: listed.end,
    }
}

// The same, where they are yet to be filled, with places that have room for some 7,900 variants of outputs.
fn walk_wide(
    doc: &[u8],
    at: usize,
    owner: u32,
    rows: &mut [usize; 2040],
    prints: &mut [u32; 768],
    table: &mut [usize; 1658],
    enums: &mut [usize; 2365],
    claims: &mut [usize; 1020],
    out: &mut [u32],
    skip: usize,
    n: usize,
    aside: &mut [u32],
    leave: usize,
    k: usize,
) -> Passed
    requires n_bound { n + 33295864 ≤ 2 ^ 40 }
    requires k_bound { k + 33228540 ≤ 2 ^ 40 }
    ensures walks_module { WalksModule doc.now out.old skip n result.errors out.new aside.old leave k result.warnings aside.new owner at result.end }
    ensures errors_bound { result.errors ≤ n + 33295864 }
    ensures warnings_bound { result.warnings ≤ k + 33228540 }
{
    let mut places = [0usize; 16384];
    let listed = open_printed(doc, at, &mut places, rows, prints);
    walk_opened(
        doc, at, listed, owner, &places, rows, prints, table, enums, claims, out, skip, n, aside,
        leave, k,
    )
}

// Both walks over the module at a place. The tables are filled anew. Where its outputs have more variants than the places have room for it takes one
// turn less, and when none is left places of its own: that it calls itself keeps the frame of `walk_wide` out of its own.
fn walk_module(
    doc: &[u8],
    at: usize,
    owner: u32,
    turns: u8,
    places: &mut [usize],
    rows: &mut [usize; 2040],
    prints: &mut [u32; 768],
    table: &mut [usize; 1658],
    enums: &mut [usize; 2365],
    claims: &mut [usize; 1020],
    out: &mut [u32],
    skip: usize,
    n: usize,
    aside: &mut [u32],
    leave: usize,
    k: usize,
) -> Passed
    requires in_bounds { 1544 ≤ length places.old }
    requires n_bound { n + 33295864 ≤ 2 ^ 40 }
    requires k_bound { k + 33228540 ≤ 2 ^ 40 }
    ensures walks_module { WalksModule doc.now out.old skip n result.errors out.new aside.old leave k result.warnings aside.new owner at result.end }
    ensures errors_bound { result.errors ≤ n + 33295864 }
    ensures warnings_bound { result.warnings ≤ k + 33228540 }
{
    if turns == 0 {
        return walk_wide(
            doc, at, owner, rows, prints, table, enums, claims, out, skip, n, aside, leave, k,
        );
    }
    let listed = open_printed(doc, at, places, rows, prints);
    if outgrows(doc, word(places, 6), 1022) {
        return walk_module(
            doc,
            at,
            owner,
            turns - 1,
            places,
            rows,
            prints,
            table,
            enums,
            claims,
            out,
            skip,
            n,
            aside,
            leave,
            k,
        );
    }
    walk_opened(
        doc, at, listed, owner, places, rows, prints, table, enums, claims, out, skip, n, aside,
        leave, k,
    )
}

// How many turns a walk over a module has. That it depends on the document keeps the compiler from doing away with them.
fn turns_of(doc: &[u8]) -> u8 {
    if doc.len() < 2048 {
        return 2;
    }
    1
}

// Both walks over each module of the list at a place.
fn walk_modules(
    doc: &[u8],
    at: usize,
    places: &mut [usize],
    rows: &mut [usize; 2040],
    prints: &mut [u32; 768],
    table: &mut [usize; 1658],
    enums: &mut [usize; 2365],
    claims: &mut [usize; 1020],
    out: &mut [u32],
    skip: usize,
    n: usize,
    aside: &mut [u32],
    leave: usize,
    k: usize,
) -> Counts
    requires in_bounds { 1544 ≤ length places.old }
    requires n_bound { n + 532733824 ≤ 2 ^ 40 }
    requires k_bound { k + 531656640 ≤ 2 ^ 40 }
    ensures walks_modules { WalksModules doc.now out.old skip n result.errors out.new aside.old leave k result.warnings aside.new at }
    ensures errors_bound { result.errors ≤ n + 532733824 }
    ensures warnings_bound { result.warnings ≤ k + 531656640 }
{
    let c = Cursor { at };
    let a = c.count(doc, 16);
    let Ok((count, first)) = a else {
        return Counts {
            errors: n,
            warnings: k,
        };
    };
    let mut here = first.at;
    let mut errors = n;
    let mut warnings = k;
    for i in 0..count {
        let passed = walk_module(
            doc,
            here,
            i as u32,
            turns_of(doc),
            places,
            rows,
            prints,
            table,
            enums,
            claims,
            out,
            skip,
            errors,
            aside,
            leave,
            warnings,
        );
        here = passed.end;
        errors = passed.errors;
        warnings = passed.warnings;
    }
    Counts { errors, warnings }
}

// Both walks over a whole document.
pub(crate) fn walk_all(
    doc: &[u8],
    out: &mut [u32],
    skip: usize,
    n: usize,
    aside: &mut [u32],
    leave: usize,
    k: usize,
) -> Counts
    requires n_bound { n + 532733824 ≤ 2 ^ 40 }
    requires k_bound { k + 531656640 ≤ 2 ^ 40 }
    ensures walks_all { WalksAll doc.now out.old skip n result.errors out.new aside.old leave k result.warnings aside.new }
    ensures errors_bound { result.errors ≤ n + 532733824 }
    ensures warnings_bound { result.warnings ≤ k + 531656640 }
{
    let mut places = [0usize; 1544];
    let mut rows = [0usize; 2040];
    let mut prints = [0u32; 768];
    let mut table = [0usize; 1658];
    let mut enums = [0usize; 2365];
    let mut claims = [0usize; 1020];
    let version = after_head(doc, 0);
    let modules = after(doc, version);
    walk_modules(
        doc,
        modules,
        &mut places,
        &mut rows,
        &mut prints,
        &mut table,
        &mut enums,
        &mut claims,
        out,
        skip,
        n,
        aside,
        leave,
        k,
    )
}
