// Pairs by state in byte order, and by places.
ghost use Rattle.std.specs.Prelude.{◌+◌, ◌<◌, ◌≤◌, ◌^◌, length};
ghost use Rattle.findings.specs.PairPromises.{NotesPairs};
ghost use Rattle.findings.specs.Classes.{Classed};
ghost use Rattle.findings.specs.StateSteps.{NotesLater, NotesRow, NotesOfState};

use crate::clash::{no_priority, note_pair};
use crate::classes::{first_guards, first_kinds, lone};
use crate::order::{mark_state, next_state};
use crate::pairs::same_fields;

// Notes the pairs of transition i and a later one.
fn note_later(
    doc: &[u8],
    rows: &[usize],
    prints: &[u32; 768],
    kinds: &[u8; 256],
    guards: &[u8; 256],
    count: u8,
    warn: bool,
    i: u8,
    out: &mut [u32],
    skip: usize,
    n: usize,
    owner: u32,
) -> usize
    requires classed { Classed doc.now rows.now prints.now count kinds.now guards.now }
    requires i_lt_count { i < count }
    requires n_bound { n + 510 ≤ 2 ^ 40 }
    ensures notes_later { NotesLater doc.now owner out.old skip n result out.new rows.now prints.now count warn i }
    ensures upper_bound { result ≤ n + 510 }
{
    let bare = no_priority(doc, rows, i);
    let kind = kinds[i as usize];
    let mut m = n;
    for j in i + 1..count {
        if kinds[j as usize] == kind {
            m = note_pair(guards, bare, warn, i, j, out, skip, m, owner);
        }
    }
    m
}

// The same where transition i is of the state of transition b.
fn note_row(
    doc: &[u8],
    rows: &[usize],
    prints: &[u32; 768],
    kinds: &[u8; 256],
    guards: &[u8; 256],
    count: u8,
    warn: bool,
    b: u8,
    i: u8,
    out: &mut [u32],
    skip: usize,
    n: usize,
    owner: u32,
) -> usize
    requires classed { Classed doc.now rows.now prints.now count kinds.now guards.now }
    requires i_lt_count { i < count }
    requires n_bound { n + 510 ≤ 2 ^ 40 }
    ensures notes_row { NotesRow doc.now owner out.old skip n result out.new rows.now prints.now count warn b i }
    ensures upper_bound { result ≤ n + 510 }
{
    if same_fields(doc, rows, b, 1, i, 1) {
        return note_later(
            doc, rows, prints, kinds, guards, count, warn, i, out, skip, n, owner,
        );
    }
    n
}

// Notes the pairs whose earlier one is of the state of transition b.
fn note_of_state(
    doc: &[u8],
    rows: &[usize],
    prints: &[u32; 768],
    kinds: &[u8; 256],
    guards: &[u8; 256],
    count: u8,
    warn: bool,
    b: u8,
    out: &mut [u32],
    skip: usize,
    n: usize,
    owner: u32,
) -> usize
    requires classed { Classed doc.now rows.now prints.now count kinds.now guards.now }
    requires n_bound { n + 130050 ≤ 2 ^ 40 }
    ensures notes_of_state { NotesOfState doc.now owner out.old skip n result out.new rows.now prints.now count warn b }
    ensures upper_bound { result ≤ n + 130050 }
{
    let at = 3 * (b as usize);
    let key = prints[at];
    let mut m = n;
    for i in 0..count {
        let k = 3 * (i as usize);
        if prints[k] == key {
            m = note_row(
                doc, rows, prints, kinds, guards, count, warn, b, i, out, skip, m, owner,
            );
        }
    }
    m
}

// Notes the pairs of each state that has one, the least first.
fn note_states(
    doc: &[u8],
    rows: &[usize],
    prints: &[u32; 768],
    kinds: &[u8; 256],
    guards: &[u8; 256],
    count: u8,
    warn: bool,
    out: &mut [u32],
    skip: usize,
    n: usize,
    owner: u32,
) -> usize
    requires classed { Classed doc.now rows.now prints.now count kinds.now guards.now }
    requires n_bound { n + 33162750 ≤ 2 ^ 40 }
    ensures notes_pairs { NotesPairs doc.now owner out.old skip n result out.new rows.now prints.now count warn }
    ensures upper_bound { result ≤ n + 33162750 }
{
    let mut done = lone(kinds, count);
    let mut m = n;
    for _turn in 0..count {
        let Some(b) = next_state(doc, rows, &done, count) else {
            return m;
        };
        m = note_of_state(
            doc, rows, prints, kinds, guards, count, warn, b, out, skip, m, owner,
        );
        done = mark_state(doc, rows, prints, count, b, done);
    }
    m
}

// The same, by the numbers of kinds and of guards.
pub(crate) fn note_by_state(
    doc: &[u8],
    rows: &[usize],
    prints: &[u32; 768],
    count: u8,
    warn: bool,
    out: &mut [u32],
    skip: usize,
    n: usize,
    owner: u32,
) -> usize
    requires { n + 33162750 ≤ 2 ^ 40 }
    ensures notes_pairs { NotesPairs doc.now owner out.old skip n result out.new rows.now prints.now count warn }
    ensures upper_bound { result ≤ n + 33162750 }
{
    let kinds = first_kinds(doc, rows, prints, count);
    let guards = first_guards(doc, rows, count);
    note_states(
        doc, rows, prints, &kinds, &guards, count, warn, out, skip, n, owner,
    )
}
