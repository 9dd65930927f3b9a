// Priorities of two transitions: null, or a number.
ghost use Rattle.findings.specs.Parts.{Ranked};
ghost use Rattle.findings.specs.PairSteps.{PriorityAt, SamePriority};

use reading::Cursor;
use typing::null_at;

// The number at a place; 0 where none stands there.
fn priority_at(doc: &[u8], at: usize) -> u64
    ensures { PriorityAt doc.now at result }
{
    let c = Cursor { at };
    let a = c.number(doc, 4294967295);
    let Ok((v, _)) = a else {
        return 0;
    };
    v
}

// A print with the priority at a place; it may be absent.
pub(crate) fn rank(doc: &[u8], at: usize, h: u32) -> u32
    ensures { Ranked doc.now at h result }
{
    if null_at(doc, at) {
        return h;
    }
    let v = priority_at(doc, at) % 4294967296;
    let n = (h as u64) * 31 + v + 1;
    (n % 4294967296) as u32
}

// Whether both are absent, or both given and equal.
pub(crate) fn same_priority(doc: &[u8], p: usize, q: usize) -> bool
    ensures { SamePriority doc.now p q result }
{
    if null_at(doc, p) {
        return null_at(doc, q);
    }
    !null_at(doc, q) && priority_at(doc, p) == priority_at(doc, q)
}
