// What is noted of two transitions of one kind.
ghost use Rattle.std.specs.Prelude.{◌+◌, ◌≤◌, ◌^◌, eqb, get_or};
ghost use Rattle.findings.specs.Noting.{Noted};
ghost use Rattle.findings.specs.Classes.{Bare, kind_notes};

use crate::rows::field;
use crate::sheet::emit_if;
use typing::null_at;

// Whether transition i has no priority.
pub(crate) fn no_priority(doc: &[u8], rows: &[usize], i: u8) -> bool
    ensures { Bare doc.now rows.now i result }
{
    null_at(doc, field(rows, i, 7))
}

// Notes site 14 of two of one kind; without priorities site 15 or site 24, by the numbers of their guards.
pub(crate) fn note_pair(
    guards: &[u8; 256],
    bare: bool,
    warn: bool,
    i: u8,
    j: u8,
    out: &mut [u32],
    skip: usize,
    n: usize,
    owner: u32,
) -> usize
    requires { n + 1 ≤ 2 ^ 40 }
    ensures noted { Noted owner out.old skip n (kind_notes warn bare (eqb (get_or guards.now i 0) (get_or guards.now j 0)) i j) result out.new }
    ensures upper_bound { result ≤ n + 1 }
{
    if !bare {
        return emit_if(!warn, out, skip, n, owner, 14, i as u32, j as u32);
    }
    let same = guards[i as usize] == guards[j as usize];
    if warn {
        return emit_if(!same, out, skip, n, owner, 24, i as u32, j as u32);
    }
    emit_if(same, out, skip, n, owner, 15, i as u32, j as u32)
}
