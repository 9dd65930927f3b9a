// Sites 1 to 5: the State variants, the initial state, the version, and the first values of the variables.
ghost use Rattle.std.specs.Prelude.{◌+◌, ◌≤◌, ◌^◌};
ghost use Rattle.findings.specs.Promises.{InitAt, NotesInitial, NotesVersion, NotesInits, NotesOpening};

use crate::cause::note_typed;
use crate::sheet::emit_if;
use crate::states::{no_states, note_state};
use reading::{Cursor, text_at};
use typing::{after, after_expr, after_head, is_valid_version_format, null_at, word};

// The initial state at a place; it may be absent where nothing moves.
pub(crate) fn note_initial(
    doc: &[u8],
    found: Option<usize>,
    at: usize,
    moves: bool,
    out: &mut [u32],
    skip: usize,
    n: usize,
    owner: u32,
) -> usize
    requires { n + 1 ≤ 2 ^ 40 }
    ensures notes_initial { NotesInitial doc.now owner out.old skip n result out.new found at moves }
    ensures upper_bound { result ≤ n + 1 }
{
    if null_at(doc, at) {
        return emit_if(moves, out, skip, n, owner, 3, 0, 0);
    }
    note_state(doc, found, at, out, skip, n, owner, 2, 0)
}

// The version at a place; it may be absent.
pub(crate) fn note_version(
    doc: &[u8],
    at: usize,
    out: &mut [u32],
    skip: usize,
    n: usize,
    owner: u32,
) -> usize
    requires { n + 1 ≤ 2 ^ 40 }
    ensures notes_version { NotesVersion doc.now owner out.old skip n result out.new at }
    ensures upper_bound { result ≤ n + 1 }
{
    if null_at(doc, at) {
        return n;
    }
    let fine = is_valid_version_format(text_at(doc, at));
    emit_if(!fine, out, skip, n, owner, 4, 0, 0)
}

// The place of the first value of the variable at a place.
fn init_at(doc: &[u8], at: usize) -> usize
    ensures { InitAt doc.now at result }
{
    let name = after_head(doc, at);
    let ty = after(doc, name);
    after(doc, ty)
}

// The first values of the list of variables at a place.
pub(crate) fn note_inits<'a>(
    doc: &'a [u8],
    at: usize,
    names: &'a [usize],
    enums: &'a [usize],
    out: &mut [u32],
    skip: usize,
    n: usize,
    owner: u32,
) -> usize
    requires { n + 255 ≤ 2 ^ 40 }
    ensures notes_inits { NotesInits doc.now owner out.old skip n result out.new at names.now enums.now }
    ensures upper_bound { result ≤ n + 255 }
{
    let c = Cursor { at };
    let a = c.count(doc, 255);
    let Ok((count, first)) = a else {
        return n;
    };
    let mut k = first.at;
    let mut r = n;
    for i in 0..count {
        let init = init_at(doc, k);
        r = note_typed(doc, init, names, enums, out, skip, r, owner, 5, i as u32, 0);
        k = after_expr(doc, init, 32);
    }
    r
}

// Sites 1 to 5, by the places of a module's fields.
pub(crate) fn note_opening<'a>(
    doc: &'a [u8],
    places: &'a [usize],
    found: Option<usize>,
    moves: bool,
    names: &'a [usize],
    enums: &'a [usize],
    out: &mut [u32],
    skip: usize,
    n: usize,
    owner: u32,
) -> usize
    requires { n + 258 ≤ 2 ^ 40 }
    ensures notes_opening { NotesOpening doc.now owner out.old skip n result out.new places.now found moves names.now enums.now }
    ensures upper_bound { result ≤ n + 258 }
{
    let bare = no_states(doc, found);
    let a = emit_if(bare, out, skip, n, owner, 1, 0, 0);
    let b = note_initial(doc, found, word(places, 4), moves, out, skip, a, owner);
    let c = note_version(doc, word(places, 1), out, skip, b, owner);
    note_inits(doc, word(places, 7), names, enums, out, skip, c, owner)
}
