// Names mentioned by transitions and on_error: in guards, in the arguments of outputs, and the variables that are set.
ghost use Rattle.std.specs.Prelude.{◌/◌, length};
ghost use Rattle.reading.specs.Transition.{read_top_expr, read_on_error};
ghost use Rattle.findings.specs.Mentions.{guard_names, error_touched};
ghost use Rattle.findings.specs.Touch.{TouchesArgs, TouchesOutput, TouchesEmits, TouchesSet, TouchesSets, Mentions, TouchesRow, AllMarked, TouchesRows, TouchesAll};

use crate::lanes::Variables;
use crate::rows::field;
use crate::touch::{touch, touch_expr};
use reading::{Cursor, text_at};
use typing::{after, after_head, null_at, word};

// The list of arguments at a place; the place after it. Each list has a loop of its own: one closure for all would write the marks, and
// its contract would be longer than the loop.
pub(crate) fn touch_args<'a>(vars: &Variables<'a>, at: usize, marks: &mut [u8]) -> usize
    ensures { TouchesArgs vars.now.doc.now at vars.now.names.now marks.old result marks.new }
{
    let c = Cursor { at };
    let a = c.count(vars.doc, 255);
    let Ok((count, first)) = a else {
        return at;
    };
    let mut k = first.at;
    for _i in 0..count {
        k = touch_expr(vars, k, 32, marks);
    }
    k
}

// The output at a place; the place after it.
pub(crate) fn touch_output<'a>(vars: &Variables<'a>, at: usize, marks: &mut [u8]) -> usize
    ensures { TouchesOutput vars.now.doc.now at vars.now.names.now marks.old result marks.new }
{
    let group = after_head(vars.doc, at);
    let variant = after(vars.doc, group);
    let args = after(vars.doc, variant);
    touch_args(vars, args, marks)
}

// The list of outputs at a place; the place after it.
pub(crate) fn touch_emits<'a>(vars: &Variables<'a>, at: usize, marks: &mut [u8]) -> usize
    ensures { TouchesEmits vars.now.doc.now at vars.now.names.now marks.old result marks.new }
{
    let c = Cursor { at };
    let a = c.count(vars.doc, 255);
    let Ok((count, first)) = a else {
        return at;
    };
    let mut k = first.at;
    for _i in 0..count {
        k = touch_output(vars, k, marks);
    }
    k
}

// The variable that the set at a place sets; the place after it.
pub(crate) fn touch_set<'a>(vars: &Variables<'a>, at: usize, marks: &mut [u8]) -> usize
    ensures { TouchesSet vars.now.doc.now at vars.now.names.now marks.old result marks.new }
{
    let var = after_head(vars.doc, at);
    touch(vars, text_at(vars.doc, var), marks);
    let value = after(vars.doc, var);
    after(vars.doc, value)
}

// Those of the list of sets at a place; the place after it.
pub(crate) fn touch_sets<'a>(vars: &Variables<'a>, at: usize, marks: &mut [u8]) -> usize
    ensures { TouchesSets vars.now.doc.now at vars.now.names.now marks.old result marks.new }
{
    let c = Cursor { at };
    let a = c.count(vars.doc, 255);
    let Ok((count, first)) = a else {
        return at;
    };
    let mut k = first.at;
    for _i in 0..count {
        k = touch_set(vars, k, marks);
    }
    k
}

// The guard at a place, if there is one.
pub(crate) fn touch_guard<'a>(vars: &Variables<'a>, at: usize, marks: &mut [u8])
    ensures { Mentions read_top_expr guard_names vars.now.doc.now at vars.now.names.now marks.old marks.new }
{
    if null_at(vars.doc, at) {
        return;
    }
    touch_expr(vars, at, 32, marks);
}

// Transition i.
pub(crate) fn touch_row<'a>(vars: &Variables<'a>, rows: &'a [usize], i: u8, marks: &mut [u8])
    ensures { TouchesRow vars.now.doc.now rows.now vars.now.names.now marks.old marks.new i }
{
    let guard = field(rows, i, 3);
    touch_guard(vars, guard, marks);
    let emits = field(rows, i, 5);
    touch_emits(vars, emits, marks);
    let sets = field(rows, i, 6);
    touch_sets(vars, sets, marks);
}

// Whether every variable is marked.
fn all_marked<'a>(names: &'a [usize], marks: &'a [u8]) -> bool
    ensures { AllMarked names.now marks.now result }
{
    let count = names.len() / 2;
    if marks.len() < count {
        return false;
    }
    for k in 0..count {
        if marks[k] != 1 {
            return false;
        }
    }
    true
}

// All transitions; there is nothing to mark where every variable is marked.
pub(crate) fn touch_rows<'a>(vars: &Variables<'a>, rows: &'a [usize], count: u8, marks: &mut [u8])
    ensures { TouchesRows vars.now.doc.now rows.now vars.now.names.now marks.old marks.new count }
{
    for i in 0..count {
        if all_marked(vars.names, marks) {
            return;
        }
        touch_row(vars, rows, i, marks);
    }
}

// The outputs of on_error at a place, if there is one.
pub(crate) fn touch_error<'a>(vars: &Variables<'a>, at: usize, marks: &mut [u8])
    ensures { Mentions read_on_error error_touched vars.now.doc.now at vars.now.names.now marks.old marks.new }
{
    if null_at(vars.doc, at) {
        return;
    }
    let next = after_head(vars.doc, at);
    let emits = after(vars.doc, next);
    touch_emits(vars, emits, marks);
}

// A whole module, by the places of its fields and the rows of its transitions.
pub(crate) fn touch_all<'a>(
    vars: &Variables<'a>,
    places: &'a [usize],
    rows: &'a [usize],
    count: u8,
    marks: &mut [u8],
)
    ensures { TouchesAll vars.now.doc.now rows.now vars.now.names.now marks.old marks.new places.now count }
{
    touch_rows(vars, rows, count, marks);
    let at = word(places, 2);
    touch_error(vars, at, marks);
}
