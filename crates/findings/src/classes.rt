// Classes of transitions: for each transition the first one of its kind, whether it is the only one, and the first one that has its guard.
ghost use Rattle.std.specs.Prelude.{◌≡◌, ◌≤◌, length};
ghost use Rattle.findings.specs.Scene.{Rows};
ghost use Rattle.findings.specs.Classes.{kind_of, guard_of, SameKind, FirstAt, GuardPrint, Known, Tabled, unmarked, Lone};

use crate::pairs::{alike, same_guard};
use crate::prints::{print_part, tabulate};
use crate::priority::same_priority;
use crate::rows::field;

// Whether transitions i and j share state, pattern and priority.
fn same_kind(doc: &[u8], rows: &[usize], i: u8, j: u8) -> bool
    ensures { SameKind doc.now rows.now i j result }
{
    alike(doc, rows, i, j) && same_priority(doc, field(rows, i, 7), field(rows, j, 7))
}

// The first transition of the kind of transition i.
fn first_kind(doc: &[u8], rows: &[usize], prints: &[u32; 768], count: u8, i: u8) -> u8
    ensures { FirstAt kind_of (Known doc.now rows.now prints.now) count i result }
{
    let at = 3 * (i as usize) + 2;
    let key = prints[at];
    for j in 0..i {
        let k = 3 * (j as usize) + 2;
        if prints[k] == key && same_kind(doc, rows, j, i) {
            return j;
        }
    }
    i
}

// For each transition the first one of its kind: it is looked for only where the remainder of the key was seen.
pub(crate) fn first_kinds(doc: &[u8], rows: &[usize], prints: &[u32; 768], count: u8) -> [u8; 256]
    ensures { Tabled (FirstAt kind_of (Known doc.now rows.now prints.now) count) count result }
{
    let mut seen: [u8; 2048] = [0; 2048];
    let mut kinds: [u8; 256] = [0; 256];
    for i in 0..count {
        let at = 3 * (i as usize) + 2;
        let w = (prints[at] % 2039) as usize;
        let first = if seen[w] != 0 {
            first_kind(doc, rows, prints, count, i)
        } else {
            i
        };
        seen[w] = 1;
        kinds[i as usize] = first;
    }
    kinds
}

// Unmarks places i and j where they are two.
fn unmark(marks: &mut [u8; 256], i: u8, j: u8)
    ensures { marks.new ≡ unmarked i j marks.old }
{
    if i == j {
        return;
    }
    marks[i as usize] = 0;
    marks[j as usize] = 0;
}

// Marks of the transitions that are the only ones of their kind.
pub(crate) fn lone(kinds: &[u8; 256], count: u8) -> [u8; 256]
    ensures { Lone count kinds.now result }
{
    let mut marks: [u8; 256] = [1; 256];
    for i in 0..count {
        unmark(&mut marks, i, kinds[i as usize]);
    }
    marks
}

// The print of the guard of transition i.
fn print_guard(doc: &[u8], rows: &[usize], i: u8) -> u32
    ensures { GuardPrint doc.now rows.now i result }
{
    print_part(doc, field(rows, i, 3), field(rows, i, 4), 0)
}

// The prints of the guards.
fn print_guards(doc: &[u8], rows: &[usize], count: u8) -> [u32; 256]
    ensures { Tabled (GuardPrint doc.now rows.now) count result }
{
    tabulate(count, |i| print_guard(doc, rows, i))
}

// The first transition that has the guard of transition i.
fn first_guard(doc: &[u8], rows: &[usize], marks: &[u32; 256], count: u8, i: u8) -> u8
    requires { Tabled (GuardPrint doc.now rows.now) count marks.now }
    ensures { FirstAt guard_of (Rows doc.now rows.now) count i result }
{
    let mark = marks[i as usize];
    for j in 0..i {
        if marks[j as usize] == mark && same_guard(doc, rows, j, i) {
            return j;
        }
    }
    i
}

// For each transition the first one that has its guard: likewise by the remainder of the guard's print. It stands beside `first_kinds`
// by itself: keys, test and the fact that ties them differ, and a shared one would take three closures.
pub(crate) fn first_guards(doc: &[u8], rows: &[usize], count: u8) -> [u8; 256]
    ensures { Tabled (FirstAt guard_of (Rows doc.now rows.now) count) count result }
{
    let marks = print_guards(doc, rows, count);
    let mut seen: [u8; 2048] = [0; 2048];
    let mut guards: [u8; 256] = [0; 256];
    for i in 0..count {
        let w = (marks[i as usize] % 2039) as usize;
        let first = if seen[w] != 0 {
            first_guard(doc, rows, &marks, count, i)
        } else {
            i
        };
        seen[w] = 1;
        guards[i as usize] = first;
    }
    guards
}
