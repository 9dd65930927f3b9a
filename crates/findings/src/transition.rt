// What is noted of each transition by itself.
ghost use Rattle.std.specs.Prelude.{◌≡◌, ◌+◌, ◌≤◌, ◌^◌, length, take};
ghost use Rattle.typing.specs.Blames.{Spares, JudgesPattern};
ghost use Rattle.findings.specs.Scene.{field, events_in};
ghost use Rattle.findings.specs.Promises.{JudgesOwn, NotesBody, NotesHeads, NotesJudged, NotesTransition, NotesTransitions, NotesMoves};

use crate::emits::note_emits;
use crate::guard::note_guard;
use crate::prints::print_word;
use crate::rows::{events_of, field, outputs_of};
use crate::sets::note_sets;
use crate::sheet::emit_cause;
use crate::variants::{fill_states, note_variant};
use typing::{Bindings, Blame, blame_number, validate_event_pattern, weave};

// Sites 9 to 13, of transition i: its guard, its assignments, then its outputs.
pub(crate) fn note_body<'a>(
    doc: &'a [u8],
    rows: &'a [usize],
    i: u8,
    outputs: &'a [usize],
    vars: &'a [usize],
    names: &'a [usize],
    enums: &'a [usize],
    out: &mut [u32],
    skip: usize,
    n: usize,
    owner: u32,
) -> usize
    requires { n + 511 ≤ 2 ^ 40 }
    ensures notes_body { NotesBody doc.now owner out.old skip n result out.new rows.now i outputs.now vars.now names.now enums.now }
    ensures upper_bound { result ≤ n + 511 }
{
    let guard = field(rows, i, 3);
    let a = note_guard(doc, guard, i, names, enums, out, skip, n, owner);
    let sets = field(rows, i, 6);
    let b = note_sets(doc, sets, i, vars, names, enums, out, skip, a, owner);
    let emits = field(rows, i, 5);
    note_emits(doc, emits, i, outputs, names, enums, out, skip, b, owner)
}

// Sites 6 to 8, of transition i: its states, and its pattern by the number of what is wrong with it.
fn note_heads<'a>(
    doc: &'a [u8],
    rows: &'a [usize],
    prints: &'a [u32; 768],
    i: u8,
    variants: &'a [usize],
    hints: &'a [u8; 256],
    cause: u32,
    out: &mut [u32],
    skip: usize,
    n: usize,
    owner: u32,
) -> usize
    requires { n + 3 ≤ 2 ^ 40 }
    ensures notes_heads { NotesHeads doc.now owner out.old skip n result out.new rows.now prints.now i variants.now cause }
    ensures upper_bound { result ≤ n + 3 }
{
    let first = i as u32;
    let state = field(rows, i, 1);
    let p = print_word(prints, i, 0);
    let a = note_variant(
        doc, variants, hints, state, p, out, skip, n, owner, 6, first,
    );
    let next = field(rows, i, 4);
    let q = print_word(prints, i, 1);
    let b = note_variant(doc, variants, hints, next, q, out, skip, a, owner, 7, first);
    emit_cause(cause, out, skip, b, owner, 8, first, 0)
}

// Sites 6 to 13, of transition i: by the number of what is wrong with its pattern, and by the table of all names, of which the first block
// has the module's variables.
fn note_judged<'a>(
    doc: &'a [u8],
    places: &'a [usize],
    rows: &'a [usize],
    prints: &'a [u32; 768],
    i: u8,
    variants: &'a [usize],
    hints: &'a [u8; 256],
    cause: u32,
    names: &'a [usize],
    enums: &'a [usize],
    out: &mut [u32],
    skip: usize,
    n: usize,
    owner: u32,
) -> usize
    requires n_bound { n + 514 ≤ 2 ^ 40 }
    requires in_bounds { 829 ≤ length names.now }
    ensures notes_judged { NotesJudged doc.now owner out.old skip n result out.new places.now rows.now prints.now i variants.now cause (take 829 names.now) names.now enums.now }
    ensures upper_bound { result ≤ n + 514 }
{
    let a = note_heads(
        doc, rows, prints, i, variants, hints, cause, out, skip, n, owner,
    );
    let outputs = outputs_of(places);
    let vars = &names[0..829];
    note_body(
        doc, rows, i, outputs, vars, names, enums, out, skip, a, owner,
    )
}

// The pattern of transition i, by the module's groups of events; its bindings go into the second block of the table.
fn bind_pattern<'a>(
    doc: &'a [u8],
    places: &'a [usize],
    rows: &'a [usize],
    i: u8,
    table: &mut [usize],
) -> Bindings
    ensures judges_pattern { JudgesPattern doc.now (field rows.now i 2) (events_in places.now) table.old 829 result table.new }
    ensures spares { Spares table.old 829 result table.new }
{
    let at = field(rows, i, 2);
    validate_event_pattern(doc, at, events_of(places), table, 829)
}

// What is wrong with a pattern, and how many words of a table are the names with those that it binds.
#[derive(Clone, Copy)]
pub struct Judged {
    pub blame: Result<(), Blame>,
    pub names: usize,
}

// The same, with the bindings on their lanes. The first block of the table has the module's variables.
pub fn judge_pattern<'a>(
    doc: &'a [u8],
    places: &'a [usize],
    rows: &'a [usize],
    i: u8,
    table: &mut [usize],
) -> Judged
    requires { 1658 ≤ length table.old }
    ensures judges_own { JudgesOwn doc.now places.now rows.now i table.old result table.new }
    ensures table_len_unchanged { length table.new ≡ length table.old }
    ensures table_unchanged { take 829 table.new ≡ take 829 table.old }
    ensures le_names { 829 ≤ result.names }
    ensures names_bound { result.names ≤ 1658 }
{
    let p = bind_pattern(doc, places, rows, i, table);
    let blame = p.blame;
    if p.words == 0 {
        return Judged { blame, names: 829 };
    }
    weave(doc, table, 829, p.words / 2);
    Judged { blame, names: 1658 }
}

// Sites 6 to 13, of transition i. The first block of the table has the module's variables; the pattern's bindings go into the second.
pub(crate) fn note_transition<'a>(
    doc: &'a [u8],
    places: &'a [usize],
    rows: &'a [usize],
    prints: &'a [u32; 768],
    i: u8,
    variants: &'a [usize],
    hints: &'a [u8; 256],
    table: &mut [usize; 1658],
    enums: &'a [usize],
    out: &mut [u32],
    skip: usize,
    n: usize,
    owner: u32,
) -> usize
    requires { n + 514 ≤ 2 ^ 40 }
    ensures notes_transition { NotesTransition doc.now owner out.old skip n result out.new places.now rows.now prints.now i variants.now table.old 829 enums.now }
    ensures upper_bound { result ≤ n + 514 }
    ensures table_unchanged { take 829 table.new ≡ take 829 table.old }
{
    let p = judge_pattern(doc, places, rows, i, table);
    let blame = p.blame;
    let cause = blame_number(doc, blame);
    let end = p.names;
    let names = &table[0..end];
    note_judged(
        doc, places, rows, prints, i, variants, hints, cause, names, enums, out, skip, n, owner,
    )
}

// The same of so many transitions.
fn note_transitions<'a>(
    doc: &'a [u8],
    places: &'a [usize],
    rows: &'a [usize],
    prints: &'a [u32; 768],
    count: u8,
    variants: &'a [usize],
    hints: &'a [u8; 256],
    table: &mut [usize; 1658],
    enums: &'a [usize],
    out: &mut [u32],
    skip: usize,
    n: usize,
    owner: u32,
) -> usize
    requires { n + 131070 ≤ 2 ^ 40 }
    ensures notes_transitions { NotesTransitions doc.now owner out.old skip n result out.new places.now rows.now prints.now count variants.now table.old 829 enums.now }
    ensures upper_bound { result ≤ n + 131070 }
    ensures table_unchanged { take 829 table.new ≡ take 829 table.old }
{
    let mut next = n;
    for i in 0..count {
        next = note_transition(
            doc, places, rows, prints, i, variants, hints, table, enums, out, skip, next, owner,
        );
    }
    next
}

// The same, by the table of the State variants, which is filled here.
pub(crate) fn note_moves<'a>(
    doc: &'a [u8],
    places: &'a [usize],
    rows: &'a [usize],
    prints: &'a [u32; 768],
    count: u8,
    found: Option<usize>,
    table: &mut [usize; 1658],
    enums: &'a [usize],
    out: &mut [u32],
    skip: usize,
    n: usize,
    owner: u32,
) -> usize
    requires { n + 131070 ≤ 2 ^ 40 }
    ensures notes_moves { NotesMoves doc.now owner out.old skip n result out.new places.now rows.now prints.now count found table.old 829 enums.now }
    ensures upper_bound { result ≤ n + 131070 }
    ensures table_unchanged { take 829 table.new ≡ take 829 table.old }
{
    let mut states = [0usize; 510];
    let mut hints = [0u8; 256];
    let words = fill_states(doc, found, &mut states, &mut hints);
    let variants = &states[0..words];
    note_transitions(
        doc, places, rows, prints, count, variants, &hints, table, enums, out, skip, n, owner,
    )
}
