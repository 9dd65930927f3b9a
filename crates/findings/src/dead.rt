// Events that no transition uses: site 22.
ghost use Rattle.std.specs.Prelude.{◌≡◌, ◌+◌, ◌*◌, ◌<◌, ◌≤◌, ◌^◌, length, take};
ghost use Rattle.findings.specs.Classes.{Tabled};
ghost use Rattle.findings.specs.Uses.{GroupPrint, NotesVariant, NotesVariants, NotesGroup, NotesGroups};
ghost use Rattle.findings.specs.WarningPromises.{NotesDead};

use crate::sheet::emit_if;
use crate::uses::{Uses, fill_uses, is_used, print_groups};
use reading::{Cursor, text_at};
use typing::{after, after_tag, first_variants};

// The variant at a place, number j of group g.
pub(crate) fn note_variant<'a>(
    doc: &'a [u8],
    at: usize,
    found: Option<usize>,
    names: &'a [usize],
    hints: &'a [u8; 256],
    bare: bool,
    g: u32,
    j: u32,
    out: &mut [u32],
    skip: usize,
    n: usize,
    owner: u32,
) -> usize
    requires { n < 2 ^ 40 }
    ensures notes_variant { NotesVariant doc.now owner out.old skip n result out.new found names.now bare g at j }
    ensures upper_bound { result ≤ n + 1 }
{
    let key = after_tag(doc, at);
    let used = is_used(doc, found, names, hints, bare, key);
    emit_if(!used, out, skip, n, owner, 22, g, j)
}

// Those of the list at a place.
pub(crate) fn note_variants<'a>(
    doc: &'a [u8],
    at: usize,
    found: Option<usize>,
    names: &'a [usize],
    hints: &'a [u8; 256],
    bare: bool,
    g: u32,
    out: &mut [u32],
    skip: usize,
    n: usize,
    owner: u32,
) -> usize
    requires { n + 255 ≤ 2 ^ 40 }
    ensures notes_variants { NotesVariants doc.now owner out.old skip n result out.new found names.now bare g at }
    ensures upper_bound { result ≤ n + 255 }
{
    let c = Cursor { at };
    let a = c.count(doc, 255);
    let Ok((count, first)) = a else {
        return n;
    };
    let mut k = first.at;
    let mut m = n;
    for j in 0..count {
        m = note_variant(
            doc, k, found, names, hints, bare, g, j as u32, out, skip, m, owner,
        );
        k = after(doc, k);
    }
    m
}

// The same, by what the patterns of the group give.
fn note_by_uses<'a>(
    doc: &'a [u8],
    at: usize,
    found: Option<usize>,
    uses: &'a [usize; 510],
    hints: &'a [u8; 256],
    u: Uses,
    g: u32,
    out: &mut [u32],
    skip: usize,
    n: usize,
    owner: u32,
) -> usize
    requires { n + 255 ≤ 2 ^ 40 }
    ensures notes_variants { NotesVariants doc.now owner out.old skip n result out.new found (take (2 * u.named) uses.now) u.bare g at }
    ensures upper_bound { result ≤ n + 255 }
{
    let words = 2 * (u.named as usize);
    note_variants(
        doc,
        at,
        found,
        &uses[0..words],
        hints,
        u.bare,
        g,
        out,
        skip,
        n,
        owner,
    )
}

// Those of group g, by a table of the groups and the prints of the patterns' groups; uses and hints are room for the names that these give.
pub(crate) fn note_group<'a>(
    doc: &'a [u8],
    groups: &'a [usize],
    rows: &'a [usize],
    marks: &'a [u32; 256],
    count: u8,
    g: u8,
    uses: &mut [usize; 510],
    hints: &mut [u8; 256],
    out: &mut [u32],
    skip: usize,
    n: usize,
    owner: u32,
) -> usize
    requires g_in_bounds { 2 * g + 1 < length groups.now }
    requires tabled { Tabled (GroupPrint doc.now rows.now) count marks.now }
    requires n_bound { n + 255 ≤ 2 ^ 40 }
    ensures notes_group { NotesGroup doc.now owner out.old skip n result out.new rows.now count groups.now g }
    ensures upper_bound { result ≤ n + 255 }
{
    let j = 2 * (g as usize);
    let key = groups[j];
    let variants = groups[j + 1];
    let u = fill_uses(doc, rows, marks, count, text_at(doc, key), uses, hints);
    let found = first_variants(doc, groups, text_at(doc, key));
    note_by_uses(
        doc, variants, found, uses, hints, u, g as u32, out, skip, n, owner,
    )
}

// Those of so many groups.
pub(crate) fn note_groups<'a>(
    doc: &'a [u8],
    groups: &'a [usize],
    rows: &'a [usize],
    marks: &'a [u32; 256],
    count: u8,
    many: u8,
    uses: &mut [usize; 510],
    hints: &mut [u8; 256],
    out: &mut [u32],
    skip: usize,
    n: usize,
    owner: u32,
) -> usize
    requires many_in_bounds { 2 * many ≤ length groups.now }
    requires tabled { Tabled (GroupPrint doc.now rows.now) count marks.now }
    requires n_bound { n + 65025 ≤ 2 ^ 40 }
    ensures notes_groups { NotesGroups doc.now owner out.old skip n result out.new rows.now count groups.now many }
    ensures upper_bound { result ≤ n + 65025 }
{
    let mut m = n;
    for g in 0..many {
        m = note_group(
            doc, groups, rows, marks, count, g, uses, hints, out, skip, m, owner,
        );
    }
    m
}

// Site 22 of a table of the groups of events, by the rows of the transitions.
pub(crate) fn note_dead<'a>(
    doc: &'a [u8],
    events: &'a [usize],
    rows: &'a [usize],
    count: u8,
    out: &mut [u32],
    skip: usize,
    n: usize,
    owner: u32,
) -> usize
    requires events_len_bound { length events.now ≤ 510 }
    requires n_bound { n + 65025 ≤ 2 ^ 40 }
    ensures notes_dead { NotesDead doc.now owner out.old skip n result out.new rows.now count events.now }
    ensures upper_bound { result ≤ n + 65025 }
{
    let mut uses = [0usize; 510];
    let mut hints = [0u8; 256];
    let half = events.len() / 2;
    let many = half as u8;
    let marks = print_groups(doc, rows, count);
    note_groups(
        doc, events, rows, &marks, count, many, &mut uses, &mut hints, out, skip, n, owner,
    )
}
