// What is noted of an output.
ghost use Rattle.std.specs.Prelude.{◌+◌, ◌≤◌, ◌^◌};
ghost use Rattle.findings.specs.Promises.{NotesOutput};

use crate::sheet::emit_cause;
use typing::{blame_number, validate_output_expr};

// What is wrong with the output at a place, by a table of the groups of outputs.
pub(crate) fn note_output<'a>(
    doc: &'a [u8],
    at: usize,
    outputs: &'a [usize],
    names: &'a [usize],
    enums: &'a [usize],
    out: &mut [u32],
    skip: usize,
    n: usize,
    owner: u32,
    site: u32,
    first: u32,
    second: u32,
) -> usize
    requires { n + 1 ≤ 2 ^ 40 }
    ensures notes_output { NotesOutput doc.now owner out.old skip n result out.new at outputs.now names.now enums.now site first second }
    ensures upper_bound { result ≤ n + 1 }
{
    let b = validate_output_expr(doc, at, outputs, names, enums);
    let cause = blame_number(doc, b);
    emit_cause(cause, out, skip, n, owner, site, first, second)
}
