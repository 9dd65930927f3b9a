// All warnings of a module.
ghost use Rattle.std.specs.Prelude.{◌+◌, ◌≤◌, ◌^◌, length};
ghost use Rattle.findings.specs.ModulePromises.{NotesDoubts, NotesWarnings};

use crate::dead::note_dead;
use crate::impossible::note_impossible;
use crate::pairs::note_pairs;
use crate::reach::note_unreachable;
use crate::rows::events_of;
use crate::unused::note_unused;
use typing::word;

// Sites 21 to 23.
fn note_doubts<'a>(
    doc: &'a [u8],
    places: &'a [usize],
    rows: &'a [usize],
    prints: &'a [u32; 768],
    count: u8,
    found: Option<usize>,
    out: &mut [u32],
    skip: usize,
    n: usize,
    owner: u32,
) -> usize
    requires { n + 65535 ≤ 2 ^ 40 }
    ensures notes_doubts { NotesDoubts doc.now owner out.old skip n result out.new places.now found rows.now prints.now count }
    ensures upper_bound { result ≤ n + 65535 }
{
    let initial = word(places, 4);
    let a = note_unreachable(
        doc, rows, prints, count, found, initial, out, skip, n, owner,
    );
    let b = note_dead(doc, events_of(places), rows, count, out, skip, a, owner);
    note_unused(doc, places, rows, count, out, skip, b, owner)
}

// Sites 21 to 26.
pub(crate) fn note_warnings<'a>(
    doc: &'a [u8],
    places: &'a [usize],
    rows: &'a [usize],
    prints: &'a [u32; 768],
    count: u8,
    found: Option<usize>,
    out: &mut [u32],
    skip: usize,
    n: usize,
    owner: u32,
) -> usize
    requires { n + 33228540 ≤ 2 ^ 40 }
    ensures notes_warnings { NotesWarnings doc.now owner out.old skip n result out.new places.now found rows.now prints.now count }
    ensures upper_bound { result ≤ n + 33228540 }
{
    let a = note_doubts(doc, places, rows, prints, count, found, out, skip, n, owner);
    let b = note_pairs(doc, rows, prints, count, true, out, skip, a, owner);
    note_impossible(doc, rows, count, out, skip, b, owner)
}
