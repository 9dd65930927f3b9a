// Sites 18 to 20: properties and assumptions, by a table of the places of each one's name and formula.
ghost use Rattle.std.specs.Prelude.{◌≡◌, ◌+◌, ◌≤◌, ◌^◌, length};
ghost use Rattle.typing.specs.Lanes.{Lanes};
ghost use Rattle.findings.specs.Promises.{earlier_in, NotesRepeats, NotesFormula, NotesFormulas};

use crate::sheet::{emit_cause, emit_if};
use reading::text_at;
use typing::{bounded_always_error, fit_number, lane_add, lane_find, type_formula, word};

// Whether the name of number i stands under a smaller number too, by the lanes of those.
fn stands_earlier<'a>(
    doc: &'a [u8],
    table: &'a [usize],
    i: usize,
    heads: &'a [u16],
    links: &'a [u16],
) -> bool
    requires { Lanes doc.now table.now i heads.now links.now }
    ensures { result ≡ earlier_in doc.now table.now i }
{
    let name = word(table, 2 * i);
    lane_find(doc, table, i, heads, links, text_at(doc, name)).is_some()
}

// The names that stand earlier too.
pub(crate) fn note_repeats<'a>(
    doc: &'a [u8],
    table: &'a [usize],
    out: &mut [u32],
    skip: usize,
    n: usize,
    owner: u32,
) -> usize
    requires table_len_bound { length table.now ≤ 1020 }
    requires n_bound { n + 510 ≤ 2 ^ 40 }
    ensures notes_repeats { NotesRepeats doc.now owner out.old skip n result out.new table.now }
    ensures upper_bound { result ≤ n + 510 }
{
    let mut heads = [0u16; 1025];
    let mut links = [0u16; 510];
    let many = table.len() / 2;
    let mut r = n;
    for i in 0..many {
        let earlier = stands_earlier(doc, table, i, &heads, &links);
        r = emit_if(earlier, out, skip, r, owner, 18, i as u32, 0);
        lane_add(doc, table, i, &mut heads, &mut links);
    }
    r
}

// What is wrong with the formula at a place, and with its bounds.
fn note_formula<'a>(
    doc: &'a [u8],
    at: usize,
    names: &'a [usize],
    enums: &'a [usize],
    out: &mut [u32],
    skip: usize,
    n: usize,
    owner: u32,
    place: u32,
) -> usize
    requires { n + 2 ≤ 2 ^ 40 }
    ensures notes_formula { NotesFormula doc.now owner out.old skip n result out.new at names.now enums.now place }
    ensures upper_bound { result ≤ n + 2 }
{
    let fit = type_formula(doc, at, 32, names, enums);
    let cause = fit_number(doc, fit);
    let a = emit_cause(cause, out, skip, n, owner, 19, place, 0);
    let unbounded = bounded_always_error(doc, at, 32);
    emit_if(unbounded, out, skip, a, owner, 20, place, 0)
}

// The same of each.
pub(crate) fn note_formulas<'a>(
    doc: &'a [u8],
    table: &'a [usize],
    names: &'a [usize],
    enums: &'a [usize],
    out: &mut [u32],
    skip: usize,
    n: usize,
    owner: u32,
) -> usize
    requires table_len_bound { length table.now ≤ 1020 }
    requires n_bound { n + 1020 ≤ 2 ^ 40 }
    ensures notes_formulas { NotesFormulas doc.now owner out.old skip n result out.new table.now names.now enums.now }
    ensures upper_bound { result ≤ n + 1020 }
{
    let many = table.len() / 2;
    let mut r = n;
    for i in 0..many {
        let at = word(table, 2 * i + 1);
        r = note_formula(doc, at, names, enums, out, skip, r, owner, i as u32);
    }
    r
}
