// Why an expression has no type.
ghost use Rattle.std.specs.Prelude.{◌+◌, ◌≤◌, ◌^◌};
ghost use Rattle.findings.specs.Promises.{TypedNumber, NotesTyped};

use crate::sheet::emit_cause;
use typing::{Typed, cause_number, type_expr};

// The cause's number; 0 where there is a type.
pub(crate) fn typed_number(doc: &[u8], t: Typed) -> u32
    ensures { TypedNumber doc.now t result }
{
    match t {
        Ok((_, _)) => 0,
        Err(cause) => cause_number(doc, cause),
    }
}

// What is wrong with the expression at a place.
pub(crate) fn note_typed<'a>(
    doc: &'a [u8],
    at: usize,
    names: &'a [usize],
    enums: &'a [usize],
    out: &mut [u32],
    skip: usize,
    n: usize,
    owner: u32,
    site: u32,
    first: u32,
    second: u32,
) -> usize
    requires { n + 1 ≤ 2 ^ 40 }
    ensures notes_typed { NotesTyped doc.now owner out.old skip n result out.new at names.now enums.now site first second }
    ensures upper_bound { result ≤ n + 1 }
{
    let t = type_expr(doc, at, 32, names, enums);
    let cause = typed_number(doc, t);
    emit_cause(cause, out, skip, n, owner, site, first, second)
}
