// State variants that no chain of transitions leads to: site 21.
ghost use Rattle.std.specs.Prelude.{◌+◌, ◌<◌, ◌≤◌, ◌^◌, length};
ghost use Rattle.findings.specs.WarningPromises.{NotesUnreachable};
ghost use Rattle.findings.specs.Reaching.{IsHit, IsLed, NotesUnled, NotesUnledAt, NotesUnledStates};

use crate::rows::field;
use crate::sheet::emit_if;
use crate::touch::is_free;
use crate::walk::walk;
use reading::{Cursor, text_at};
use typing::{after, null_at, print_bytes, same_name};

// Whether transition i is taken and leads to the name at key, which has the print.
fn is_hit<'a>(
    doc: &'a [u8],
    rows: &'a [usize],
    prints: &'a [u32; 768],
    marks: &'a [u8; 256],
    key: usize,
    print: u32,
    i: u8,
) -> bool
    ensures { IsHit doc.now rows.now prints.now marks.now key print i result }
{
    let at = 3 * (i as usize) + 1;
    prints[at] == print && !is_free(marks, i) && same_name(doc, field(rows, i, 4), key)
}

// Whether the name at key is the first, which stands at a place, or what is taken leads to it.
pub(crate) fn is_led<'a>(
    doc: &'a [u8],
    rows: &'a [usize],
    prints: &'a [u32; 768],
    marks: &'a [u8; 256],
    count: u8,
    at: usize,
    key: usize,
) -> bool
    ensures { IsLed doc.now rows.now prints.now marks.now count at key result }
{
    if same_name(doc, at, key) {
        return true;
    }
    let print = print_bytes(text_at(doc, key), 0);
    for i in 0..count {
        if is_hit(doc, rows, prints, marks, key, print, i) {
            return true;
        }
    }
    false
}

// The name at key, number j of its list, where nothing leads to it.
pub(crate) fn note_unled<'a>(
    doc: &'a [u8],
    rows: &'a [usize],
    prints: &'a [u32; 768],
    marks: &'a [u8; 256],
    count: u8,
    at: usize,
    key: usize,
    j: u32,
    out: &mut [u32],
    skip: usize,
    n: usize,
    owner: u32,
) -> usize
    requires { n < 2 ^ 40 }
    ensures notes_unled { NotesUnled doc.now owner out.old skip n result out.new rows.now prints.now count marks.now at key j }
    ensures upper_bound { result ≤ n + 1 }
{
    let led = is_led(doc, rows, prints, marks, count, at, key);
    emit_if(!led, out, skip, n, owner, 21, j, 0)
}

// The names of a list.
pub(crate) fn note_unled_at<'a>(
    doc: &'a [u8],
    rows: &'a [usize],
    prints: &'a [u32; 768],
    marks: &'a [u8; 256],
    count: u8,
    at: usize,
    list: usize,
    out: &mut [u32],
    skip: usize,
    n: usize,
    owner: u32,
) -> usize
    requires { n + 255 ≤ 2 ^ 40 }
    ensures notes_unled_at { NotesUnledAt doc.now owner out.old skip n result out.new rows.now prints.now count marks.now at list }
    ensures upper_bound { result ≤ n + 255 }
{
    let c = Cursor { at: list };
    let a = c.count(doc, 255);
    let Ok((many, first)) = a else {
        return n;
    };
    let mut k = first.at;
    let mut m = n;
    for j in 0..many {
        m = note_unled(
            doc, rows, prints, marks, count, at, k, j as u32, out, skip, m, owner,
        );
        k = after(doc, k);
    }
    m
}

// The State variants.
pub(crate) fn note_unled_states<'a>(
    doc: &'a [u8],
    rows: &'a [usize],
    prints: &'a [u32; 768],
    marks: &'a [u8; 256],
    count: u8,
    at: usize,
    found: Option<usize>,
    out: &mut [u32],
    skip: usize,
    n: usize,
    owner: u32,
) -> usize
    requires { n + 255 ≤ 2 ^ 40 }
    ensures notes_unled_states { NotesUnledStates doc.now owner out.old skip n result out.new rows.now prints.now count marks.now at found }
    ensures upper_bound { result ≤ n + 255 }
{
    let Some(list) = found else {
        return n;
    };
    note_unled_at(
        doc, rows, prints, marks, count, at, list, out, skip, n, owner,
    )
}

// Site 21 of a module: at is the place of the initial state, and found that of the State variants.
pub(crate) fn note_unreachable<'a>(
    doc: &'a [u8],
    rows: &'a [usize],
    prints: &'a [u32; 768],
    count: u8,
    found: Option<usize>,
    at: usize,
    out: &mut [u32],
    skip: usize,
    n: usize,
    owner: u32,
) -> usize
    requires { n + 255 ≤ 2 ^ 40 }
    ensures notes_unreachable { NotesUnreachable doc.now owner out.old skip n result out.new rows.now count prints.now found at }
    ensures upper_bound { result ≤ n + 255 }
{
    if null_at(doc, at) {
        return n;
    }
    let mut marks = [0u8; 256];
    let mut queue = [0u8; 256];
    walk(
        doc,
        rows,
        prints,
        count,
        text_at(doc, at),
        &mut marks,
        &mut queue,
    );
    note_unled_states(
        doc, rows, prints, &marks, count, at, found, out, skip, n, owner,
    )
}
