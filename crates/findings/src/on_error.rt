// Sites 16 and 17: where an error leads, and what it emits.
ghost use Rattle.std.specs.Prelude.{◌+◌, ◌≤◌, ◌^◌};
ghost use Rattle.findings.specs.Promises.{NotesErrorEmits, NotesOnError};

use crate::output::note_output;
use crate::states::note_state;
use reading::Cursor;
use typing::{after, after_head, null_at};

// The list of outputs at a place, by a table of the groups of outputs.
pub(crate) fn note_error_emits<'a>(
    doc: &'a [u8],
    at: usize,
    outputs: &'a [usize],
    names: &'a [usize],
    enums: &'a [usize],
    out: &mut [u32],
    skip: usize,
    n: usize,
    owner: u32,
) -> usize
    requires { n + 255 ≤ 2 ^ 40 }
    ensures notes_error_emits { NotesErrorEmits doc.now owner out.old skip n result out.new at outputs.now names.now enums.now }
    ensures upper_bound { result ≤ n + 255 }
{
    let c = Cursor { at };
    let a = c.count(doc, 255);
    let Ok((count, first)) = a else {
        return n;
    };
    let mut k = first.at;
    let mut r = n;
    for i in 0..count {
        r = note_output(
            doc, k, outputs, names, enums, out, skip, r, owner, 17, i as u32, 0,
        );
        k = after(doc, k);
    }
    r
}

// What is wrong with what is done on an error; it may be absent.
pub(crate) fn note_on_error<'a>(
    doc: &'a [u8],
    at: usize,
    found: Option<usize>,
    outputs: &'a [usize],
    names: &'a [usize],
    enums: &'a [usize],
    out: &mut [u32],
    skip: usize,
    n: usize,
    owner: u32,
) -> usize
    requires { n + 256 ≤ 2 ^ 40 }
    ensures notes_on_error { NotesOnError doc.now owner out.old skip n result out.new at found outputs.now names.now enums.now }
    ensures upper_bound { result ≤ n + 256 }
{
    if null_at(doc, at) {
        return n;
    }
    let state = after_head(doc, at);
    let emits = after(doc, state);
    let a = note_state(doc, found, state, out, skip, n, owner, 16, 0);
    note_error_emits(doc, emits, outputs, names, enums, out, skip, a, owner)
}
