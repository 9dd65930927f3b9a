// What is noted of a guard.
ghost use Rattle.std.specs.Prelude.{◌+◌, ◌≤◌, ◌^◌};
ghost use Rattle.findings.specs.Promises.{NotesGuard};

use crate::sheet::{emit, emit_if};
use typing::{cause_number, is_bool, null_at, type_expr};

// Sites 9 and 10, of transition i, whose guard stands at a place; it may be absent.
pub(crate) fn note_guard<'a>(
    doc: &'a [u8],
    at: usize,
    i: u8,
    names: &'a [usize],
    enums: &'a [usize],
    out: &mut [u32],
    skip: usize,
    n: usize,
    owner: u32,
) -> usize
    requires { n + 1 ≤ 2 ^ 40 }
    ensures notes_guard { NotesGuard doc.now owner out.old skip n result out.new at i names.now enums.now }
    ensures upper_bound { result ≤ n + 1 }
{
    if null_at(doc, at) {
        return n;
    }
    let first = i as u32;
    let t = type_expr(doc, at, 32, names, enums);
    match t {
        Ok((ty, _)) => {
            let other = !is_bool(doc, ty);
            emit_if(other, out, skip, n, owner, 10, first, 0)
        }
        Err(cause) => {
            let number = cause_number(doc, cause);
            emit(out, skip, n, owner, 9, first, 0, number)
        }
    }
}
