// Guards that can't hold: sites 25 and 26.
ghost use Rattle.std.specs.Prelude.{◌+◌, ◌<◌, ◌≤◌, ◌^◌};
ghost use Rattle.findings.specs.Scene.{field};
ghost use Rattle.findings.specs.WarningPromises.{NotesGuardImpossible, NotesImpossible};

use crate::rows::field;
use crate::sheet::emit;
use typing::{Clash, contradictory_equalities, is_literal_false, null_at};

// The guard from one place to another, of transition i: site 26 only where 25 isn't given.
pub(crate) fn note_guard_impossible(
    doc: &[u8],
    at: usize,
    end: usize,
    i: u32,
    out: &mut [u32],
    skip: usize,
    n: usize,
    owner: u32,
) -> usize
    requires { n < 2 ^ 40 }
    ensures notes_guard_impossible { NotesGuardImpossible doc.now owner out.old skip n result out.new at i }
    ensures upper_bound { result ≤ n + 1 }
{
    if null_at(doc, at) {
        return n;
    }
    if is_literal_false(doc, at, 32) {
        return emit(out, skip, n, owner, 25, i, 0, 0);
    }
    let c = contradictory_equalities(doc, at, end, 32);
    match c {
        None => n,
        Some(Clash { .. }) => emit(out, skip, n, owner, 26, i, 0, 0),
    }
}

// That of transition i, by the rows.
fn note_row<'a>(
    doc: &'a [u8],
    rows: &'a [usize],
    i: u8,
    out: &mut [u32],
    skip: usize,
    n: usize,
    owner: u32,
) -> usize
    requires { n < 2 ^ 40 }
    ensures notes_guard_impossible { NotesGuardImpossible doc.now owner out.old skip n result out.new (field rows.now i 3) i }
    ensures upper_bound { result ≤ n + 1 }
{
    let at = field(rows, i, 3);
    let end = field(rows, i, 4);
    note_guard_impossible(doc, at, end, i as u32, out, skip, n, owner)
}

// Those of all transitions.
pub(crate) fn note_impossible<'a>(
    doc: &'a [u8],
    rows: &'a [usize],
    count: u8,
    out: &mut [u32],
    skip: usize,
    n: usize,
    owner: u32,
) -> usize
    requires { n + 255 ≤ 2 ^ 40 }
    ensures notes_impossible { NotesImpossible doc.now owner out.old skip n result out.new rows.now count }
    ensures upper_bound { result ≤ n + 255 }
{
    let mut m = n;
    for i in 0..count {
        m = note_row(doc, rows, i, out, skip, m, owner);
    }
    m
}
