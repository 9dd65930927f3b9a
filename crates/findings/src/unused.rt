// Variables that nothing mentions: site 23.
ghost use Rattle.std.specs.Prelude.{◌≡◌, ◌+◌, ◌≤◌, ◌^◌, length, replicate};
ghost use Rattle.findings.specs.Touch.{VarsFilled, TouchesAll, MarksUsed, NotesUnmarked};
ghost use Rattle.findings.specs.WarningPromises.{NotesUnused};

use crate::lanes::{Variables, add_all};
use crate::mentions::touch_all;
use crate::once::touch_once;
use crate::sheet::emit_if;
use crate::touch::is_free;
use typing::{fill_table, word};

// A note for each of so many variables that is not marked.
pub(crate) fn note_unmarked(
    marks: &[u8],
    count: u8,
    out: &mut [u32],
    skip: usize,
    n: usize,
    owner: u32,
) -> usize
    requires { n + 255 ≤ 2 ^ 40 }
    ensures notes_unmarked { NotesUnmarked owner out.old skip n result out.new marks.now count }
    ensures upper_bound { result ≤ n + 255 }
{
    let mut m = n;
    for k in 0..count {
        let free = is_free(marks, k);
        m = emit_if(free, out, skip, m, owner, 23, k as u32, 0);
    }
    m
}

// Fills the table of the variables of the list at a place; how many words it takes.
fn fill_vars(doc: &[u8], at: usize, table: &mut [usize; 512]) -> usize
    ensures vars_filled { VarsFilled doc.now at result table.new }
    ensures upper_bound { result ≤ 510 }
{
    fill_table(doc, at, table)
}

// Marks the variables of a table that are mentioned: they are put on lanes first. Where a lane is crowded by every key, as it is by many
// variables of one name, the names are put on lanes of their own, each once.
fn touch_vars<'a>(
    doc: &'a [u8],
    places: &'a [usize],
    rows: &'a [usize],
    count: u8,
    names: &'a [usize],
    marks: &mut [u8],
)
    requires { length names.now ≤ 510 }
    ensures { TouchesAll doc.now rows.now names.now marks.old marks.new places.now count }
{
    let mut heads = [0u16; 1025];
    let mut links = [0u16; 255];
    add_all(doc, names, &mut heads, &mut links);
    if heads[1024] < 7 {
        let vars = Variables {
            doc,
            names,
            heads: &heads,
            links: &links,
        };
        touch_all(&vars, places, rows, count, marks);
        return;
    }
    touch_once(doc, places, rows, count, names, marks);
}

// Marks the variables that are mentioned; how many variables there are.
pub(crate) fn mark_used<'a>(
    doc: &'a [u8],
    places: &'a [usize],
    rows: &'a [usize],
    count: u8,
    table: &mut [usize; 512],
    marks: &mut [u8; 256],
) -> u8
    requires { marks.old ≡ replicate 256 0 }
    ensures { MarksUsed doc.now places.now rows.now count result marks.new }
{
    let at = word(places, 7);
    let w = fill_vars(doc, at, table);
    let vars = w / 2;
    let many = vars as u8;
    touch_vars(doc, places, rows, count, &table[0..w], marks);
    many
}

// Site 23 of a module, by the places of its fields and the rows of its transitions.
pub(crate) fn note_unused<'a>(
    doc: &'a [u8],
    places: &'a [usize],
    rows: &'a [usize],
    count: u8,
    out: &mut [u32],
    skip: usize,
    n: usize,
    owner: u32,
) -> usize
    requires { n + 255 ≤ 2 ^ 40 }
    ensures notes_unused { NotesUnused doc.now owner out.old skip n result out.new rows.now count places.now }
    ensures upper_bound { result ≤ n + 255 }
{
    let mut table = [0usize; 512];
    let mut marks = [0u8; 256];
    let vars = mark_used(doc, places, rows, count, &mut table, &mut marks);
    note_unmarked(&marks, vars, out, skip, n, owner)
}
