// What is noted of the outputs of a transition.
ghost use Rattle.std.specs.Prelude.{◌+◌, ◌≤◌, ◌^◌};
ghost use Rattle.findings.specs.Promises.{NotesEmits};

use crate::output::note_output;
use reading::Cursor;
use typing::after;

// Site 13, of each output of the list at a place, by a table of the groups of outputs.
pub(crate) fn note_emits<'a>(
    doc: &'a [u8],
    at: usize,
    i: u8,
    outputs: &'a [usize],
    names: &'a [usize],
    enums: &'a [usize],
    out: &mut [u32],
    skip: usize,
    n: usize,
    owner: u32,
) -> usize
    requires { n + 255 ≤ 2 ^ 40 }
    ensures notes_emits { NotesEmits doc.now owner out.old skip n result out.new at i outputs.now names.now enums.now }
    ensures upper_bound { result ≤ n + 255 }
{
    let c = Cursor { at };
    let a = c.count(doc, 255);
    let Ok((count, start)) = a else {
        return n;
    };
    let many = count as u8;
    let first = i as u32;
    let mut k = start.at;
    let mut next = n;
    for j in 0..many {
        let second = j as u32;
        next = note_output(
            doc, k, outputs, names, enums, out, skip, next, owner, 13, first, second,
        );
        k = after(doc, k);
    }
    next
}
