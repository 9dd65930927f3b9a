// What is noted of the assignments of a transition.
ghost use Rattle.std.specs.Prelude.{◌+◌, ◌≤◌, ◌^◌};
ghost use Rattle.findings.specs.Promises.{NotesSet, NotesSets};
ghost use Rattle.findings.specs.Sets.{NotesFound};

use crate::cause::note_typed;
use crate::sheet::emit;
use reading::{Cursor, text_at};
use typing::{after, after_head, find};

// Sites 11 and 12, of assignment j of transition i, by what was found under its name: the value of an unknown variable has no type.
fn note_found<'a>(
    doc: &'a [u8],
    var: usize,
    f: Option<usize>,
    i: u8,
    j: u8,
    names: &'a [usize],
    enums: &'a [usize],
    out: &mut [u32],
    skip: usize,
    n: usize,
    owner: u32,
) -> usize
    requires { n + 1 ≤ 2 ^ 40 }
    ensures notes_found { NotesFound doc.now owner out.old skip n result out.new var f i j names.now enums.now }
    ensures upper_bound { result ≤ n + 1 }
{
    let first = i as u32;
    let second = j as u32;
    let Some(_) = f else {
        return emit(out, skip, n, owner, 11, first, second, 0);
    };
    let value = after(doc, var);
    note_typed(
        doc, value, names, enums, out, skip, n, owner, 12, first, second,
    )
}

// The same of the assignment at a place: its variable is looked for in the table.
fn note_set<'a>(
    doc: &'a [u8],
    at: usize,
    i: u8,
    j: u8,
    vars: &'a [usize],
    names: &'a [usize],
    enums: &'a [usize],
    out: &mut [u32],
    skip: usize,
    n: usize,
    owner: u32,
) -> usize
    requires { n + 1 ≤ 2 ^ 40 }
    ensures notes_set { NotesSet doc.now owner out.old skip n result out.new at i j vars.now names.now enums.now }
    ensures upper_bound { result ≤ n + 1 }
{
    let var = after_head(doc, at);
    let f = find(doc, vars, text_at(doc, var));
    note_found(doc, var, f, i, j, names, enums, out, skip, n, owner)
}

// Sites 11 and 12 of each assignment of the list at a place.
pub(crate) fn note_sets<'a>(
    doc: &'a [u8],
    at: usize,
    i: u8,
    vars: &'a [usize],
    names: &'a [usize],
    enums: &'a [usize],
    out: &mut [u32],
    skip: usize,
    n: usize,
    owner: u32,
) -> usize
    requires { n + 255 ≤ 2 ^ 40 }
    ensures notes_sets { NotesSets doc.now owner out.old skip n result out.new at i vars.now names.now enums.now }
    ensures upper_bound { result ≤ n + 255 }
{
    let c = Cursor { at };
    let a = c.count(doc, 255);
    let Ok((count, first)) = a else {
        return n;
    };
    let many = count as u8;
    let mut k = first.at;
    let mut next = n;
    for j in 0..many {
        next = note_set(doc, k, i, j, vars, names, enums, out, skip, next, owner);
        k = after(doc, k);
    }
    next
}
