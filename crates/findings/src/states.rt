// The State variants: those of the first enum of that name.
ghost use Rattle.std.specs.Prelude.{◌+◌, ◌≤◌, ◌^◌};
ghost use Rattle.findings.specs.Promises.{FirstStates, IsState, NoStates, NotesState};

use crate::sheet::emit_if;
use reading::{Cursor, text_at};
use typing::{after, after_head, first_enum, has_name};

// The place of their list, by the list of enums at a place.
pub(crate) fn first_states(doc: &[u8], at: usize) -> Option<usize>
    ensures { FirstStates doc.now at result }
{
    let f = first_enum(doc, at, b"State");
    let Some(k) = f else {
        return None;
    };
    let name = after_head(doc, k);
    Some(after(doc, name))
}

// Whether the name at a place is one of them.
pub(crate) fn is_state(doc: &[u8], found: Option<usize>, at: usize) -> bool
    ensures { IsState doc.now found at result }
{
    match found {
        Some(k) => has_name(doc, k, text_at(doc, at)),
        None => false,
    }
}

// Whether there are none.
pub(crate) fn no_states(doc: &[u8], found: Option<usize>) -> bool
    ensures { NoStates doc.now found result }
{
    let Some(k) = found else {
        return true;
    };
    let c = Cursor { at: k };
    let a = c.count(doc, 255);
    match a {
        Ok((count, _)) => count == 0,
        Err(_) => true,
    }
}

// The name at a place, where it is none of them.
pub(crate) fn note_state(
    doc: &[u8],
    found: Option<usize>,
    at: usize,
    out: &mut [u32],
    skip: usize,
    n: usize,
    owner: u32,
    site: u32,
    first: u32,
) -> usize
    requires { n + 1 ≤ 2 ^ 40 }
    ensures notes_state { NotesState doc.now owner out.old skip n result out.new found at site first }
    ensures upper_bound { result ≤ n + 1 }
{
    let known = is_state(doc, found, at);
    emit_if(!known, out, skip, n, owner, site, first, 0)
}
