// States in byte order: the least that is not done yet, and the marks of those that are.
ghost use Rattle.std.specs.Prelude.{◌≡◌, ◌<◌, ◌≤◌, length, IfSome, MatchOption};
ghost use Rattle.reading.specs.Skip.{text_at};
ghost use Rattle.findings.specs.Order.{earlier};
ghost use Rattle.findings.specs.Scene.{field};
ghost use Rattle.findings.specs.StateSteps.{Better, NextState, StateMarked};

use crate::pairs::same_fields;
use crate::rows::field;
use reading::text_at;

// Whether a name comes before another, byte by byte. The library's order of slices takes nearly twice the instructions a byte.
fn earlier<'a>(a: &'a [u8], b: &'a [u8]) -> bool
    ensures { result ≡ earlier a.now b.now }
{
    for i in 0..a.len() {
        if b.len() <= i {
            return false;
        }
        if a[i] != b[i] {
            return a[i] < b[i];
        }
    }
    a.len() < b.len()
}

// Whether the state of transition i comes before that of transition b.
fn earlier_state(doc: &[u8], rows: &[usize], i: u8, b: u8) -> bool
    ensures { result ≡ earlier (text_at doc.now (field rows.now i 1)) (text_at doc.now (field rows.now b 1)) }
{
    let x = field(rows, i, 1);
    let y = field(rows, b, 1);
    earlier(text_at(doc, x), text_at(doc, y))
}

// Place i where its state is not done and comes before that of place b, or b is the count; place b where not.
fn better(doc: &[u8], rows: &[usize], done: &[u8; 256], count: u8, b: u8, i: u8) -> u8
    ensures { Better doc.now rows.now count done.now b i result }
{
    if done[i as usize] != 0 {
        return b;
    }
    if count <= b || earlier_state(doc, rows, i, b) {
        return i;
    }
    b
}

// The place of the least state that is not done; none where all are.
pub(crate) fn next_state(doc: &[u8], rows: &[usize], done: &[u8; 256], count: u8) -> Option<u8>
    ensures next_state { MatchOption result (NextState doc.now rows.now count done.now count) (NextState doc.now rows.now count done.now) }
    ensures in_range { IfSome result (λ b. b < count) }
{
    let mut b = count;
    for i in 0..count {
        b = better(doc, rows, done, count, b, i);
    }
    if b < count { Some(b) } else { None }
}

// Marks the transitions of the state of transition b.
pub(crate) fn mark_state(
    doc: &[u8],
    rows: &[usize],
    prints: &[u32; 768],
    count: u8,
    b: u8,
    before: [u8; 256],
) -> [u8; 256]
    ensures { StateMarked doc.now rows.now count before prints.now b result }
{
    let at = 3 * (b as usize);
    let key = prints[at];
    let mut done = before;
    for j in 0..count {
        let k = 3 * (j as usize);
        if prints[k] == key && same_fields(doc, rows, b, 1, j, 1) {
            done[j as usize] = 1;
        }
    }
    done
}
