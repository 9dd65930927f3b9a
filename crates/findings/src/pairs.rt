// Pairs of transitions: which share state and pattern, and what is noted of those that do.
ghost use Rattle.std.specs.Prelude.{◌≡◌, ◌+◌, ◌<◌, ◌≤◌, ◌^◌, length};
ghost use Rattle.reading.specs.Skip.{text_at};
ghost use Rattle.typing.specs.Names.{eq_name};
ghost use Rattle.findings.specs.Scene.{field};
ghost use Rattle.findings.specs.Parts.{SameSpan};
ghost use Rattle.findings.specs.PairPromises.{SameState, LeadsTo, SameGuard, NotesPairs};
ghost use Rattle.findings.specs.PairSteps.{SamePattern, Alike, HasRival, NoPairs};

use crate::by_state::note_by_state;
use crate::prints::{part, print_word};
use crate::rows::field;
use typing::{same, same_name};

// Whether the bytes from a to b and those from c to d are the same.
pub(crate) fn same_span(doc: &[u8], a: usize, b: usize, c: usize, d: usize) -> bool
    ensures { SameSpan doc.now a b c d result }
{
    same(part(doc, a, b), part(doc, c, d))
}

// Whether the names in field f of transition i and in field g of transition j are the same.
pub(crate) fn same_fields(doc: &[u8], rows: &[usize], i: u8, f: u8, j: u8, g: u8) -> bool
    ensures { result ≡ eq_name (text_at doc.now (field rows.now i f)) (text_at doc.now (field rows.now j g)) }
{
    same_name(doc, field(rows, i, f), field(rows, j, g))
}

// Whether transitions i and j are of one state.
pub(crate) fn same_state(doc: &[u8], rows: &[usize], prints: &[u32; 768], i: u8, j: u8) -> bool
    ensures { SameState doc.now rows.now prints.now i j result }
{
    print_word(prints, i, 0) == print_word(prints, j, 0) && same_fields(doc, rows, i, 1, j, 1)
}

// Whether transition i leads to the state of transition j.
pub(crate) fn leads_to(doc: &[u8], rows: &[usize], prints: &[u32; 768], i: u8, j: u8) -> bool
    ensures { LeadsTo doc.now rows.now prints.now i j result }
{
    print_word(prints, i, 1) == print_word(prints, j, 0) && same_fields(doc, rows, i, 4, j, 1)
}

// Whether field f of transition i and that of transition j have the same bytes.
fn same_part(doc: &[u8], rows: &[usize], i: u8, j: u8, f: u8) -> bool
    requires { f < 8 }
    ensures { SameSpan doc.now (field rows.now i f) (field rows.now i (f + 1)) (field rows.now j f) (field rows.now j (f + 1)) result }
{
    same_span(
        doc,
        field(rows, i, f),
        field(rows, i, f + 1),
        field(rows, j, f),
        field(rows, j, f + 1),
    )
}

// Whether transitions i and j have the same pattern.
fn same_pattern(doc: &[u8], rows: &[usize], i: u8, j: u8) -> bool
    ensures { SamePattern doc.now rows.now i j result }
{
    same_part(doc, rows, i, j, 2)
}

// Whether transitions i and j have the same guard.
pub(crate) fn same_guard(doc: &[u8], rows: &[usize], i: u8, j: u8) -> bool
    ensures { SameGuard doc.now rows.now i j result }
{
    same_part(doc, rows, i, j, 3)
}

// Whether transitions i and j share state and pattern.
pub(crate) fn alike(doc: &[u8], rows: &[usize], i: u8, j: u8) -> bool
    ensures { Alike doc.now rows.now i j result }
{
    same_fields(doc, rows, i, 1, j, 1) && same_pattern(doc, rows, i, j)
}

// Whether a later transition has the key of transition i.
fn has_rival(prints: &[u32; 768], i: u8, count: u8) -> bool
    requires { i < count }
    ensures { HasRival prints.now count i result }
{
    let at = 3 * (i as usize) + 2;
    let key = prints[at];
    for j in i + 1..count {
        let k = 3 * (j as usize) + 2;
        if prints[k] == key {
            return true;
        }
    }
    false
}

// Whether no two transitions have one key: a key is looked for only where its remainder was seen.
pub(crate) fn no_pairs(prints: &[u32; 768], count: u8) -> bool
    ensures { NoPairs prints.now count result }
{
    let mut seen: [u8; 2048] = [0; 2048];
    for i in (0..count).rev() {
        let at = 3 * (i as usize) + 2;
        let w = (prints[at] % 2039) as usize;
        if seen[w] != 0 && has_rival(prints, i, count) {
            return false;
        }
        seen[w] = 1;
    }
    true
}

// Notes sites 14 and 15 of all pairs, or site 24: by state in byte order, and by places.
pub(crate) fn note_pairs(
    doc: &[u8],
    rows: &[usize],
    prints: &[u32; 768],
    count: u8,
    warn: bool,
    out: &mut [u32],
    skip: usize,
    n: usize,
    owner: u32,
) -> usize
    requires { n + 33162750 ≤ 2 ^ 40 }
    ensures notes_pairs { NotesPairs doc.now owner out.old skip n result out.new rows.now prints.now count warn }
    ensures upper_bound { result ≤ n + 33162750 }
{
    if no_pairs(prints, count) {
        return n;
    }
    note_by_state(doc, rows, prints, count, warn, out, skip, n, owner)
}
