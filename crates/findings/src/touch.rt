// Names mentioned in an expression: the variables of these names are marked.
ghost use Rattle.std.specs.Prelude.{◌≡◌, [], ◌∷◌, ◌/◌, get_or, length, eqb};
ghost use Rattle.reading.specs.Expr.{read_path};
ghost use Rattle.findings.specs.Mentions.{sole_name};
ghost use Rattle.findings.specs.Touch.{Touched, VarTouched, Touches, TouchesExpr, TouchesUnary, TouchesBinary};

use crate::lanes::Variables;
use reading::{Cursor, text_at};
use typing::{after, after_expr, lane_of, same};

// Whether place k is not marked.
pub(crate) fn is_free(marks: &[u8], k: u8) -> bool
    ensures { result ≡ eqb (get_or marks.now k 0) 0 }
{
    marks.get(k as usize).is_none_or(|m| *m == 0)
}

// Marks variable k, whose name stands at a place, where it has the name and is not marked.
pub(crate) fn touch_var<'a>(doc: &'a [u8], key: usize, name: &'a [u8], k: usize, marks: &mut [u8])
    ensures { VarTouched doc.now key name.now k marks.old marks.new }
{
    if k < marks.len() && marks[k] != 1 && same(name, text_at(doc, key)) {
        marks[k] = 1;
    }
}

// Marks the variables of a name, which is compared only with those of its lane.
pub(crate) fn touch<'a>(vars: &Variables<'a>, name: &'a [u8], marks: &mut [u8])
    ensures { Touched vars.now.doc.now vars.now.names.now marks.old (name.now ∷ []) marks.new }
{
    let mut p = vars.heads[lane_of(name, vars.heads[1024])];
    // A lane is followed by its links, not counted.
    while 0 < p {
        let i = (p - 1) as usize;
        let key = vars.names[2 * i];
        touch_var(vars.doc, key, name, i, marks);
        p = vars.links[i];
    }
}

// The path at a place, where it has one name; the place after it.
pub(crate) fn touch_path<'a>(vars: &Variables<'a>, at: usize, marks: &mut [u8]) -> usize
    ensures { Touches read_path sole_name vars.now.doc.now at vars.now.names.now marks.old result marks.new }
{
    let c = Cursor { at };
    let p = c.count(vars.doc, 8);
    let Ok((segments, first)) = p else {
        return at;
    };
    if segments != 1 {
        return after(vars.doc, at);
    }
    let k = first.at;
    touch(vars, text_at(vars.doc, k), marks);
    after(vars.doc, k)
}

// The names in the expression at a place, with as many levels left; the place after it.
#[cycle(touch_binary_touch_expr_touch_unary)]
pub(crate) fn touch_expr<'a>(vars: &Variables<'a>, at: usize, depth: u64, marks: &mut [u8]) -> usize
    ensures { TouchesExpr vars.now.doc.now at vars.now.names.now marks.old result marks.new depth }
{
    if depth == 0 {
        return at;
    }
    let c = Cursor { at };
    let t = c.tag(vars.doc);
    let Ok((tag, fields)) = t else {
        return at;
    };
    let case = tag.case;
    let k = fields.at;
    match case {
        0 | 1 => after_expr(vars.doc, at, depth),
        2 => touch_path(vars, k, marks),
        3 => touch_unary(vars, k, depth - 1, marks),
        4 => touch_binary(vars, k, depth - 1, marks),
        _ => at,
    }
}

// The same of a unary expression, by its fields.
#[cycle(touch_binary_touch_expr_touch_unary)]
fn touch_unary<'a>(vars: &Variables<'a>, at: usize, depth: u64, marks: &mut [u8]) -> usize
    ensures { TouchesUnary vars.now.doc.now at vars.now.names.now marks.old result marks.new depth }
{
    let c = Cursor { at };
    let o = c.case_number(vars.doc, 3);
    let Ok((_, operand)) = o else {
        return at;
    };
    touch_expr(vars, operand.at, depth, marks)
}

// The same of a binary expression: left goes first.
#[cycle(touch_binary_touch_expr_touch_unary)]
fn touch_binary<'a>(vars: &Variables<'a>, at: usize, depth: u64, marks: &mut [u8]) -> usize
    ensures { TouchesBinary vars.now.doc.now at vars.now.names.now marks.old result marks.new depth }
{
    let c = Cursor { at };
    let o = c.case_number(vars.doc, 16);
    let Ok((_, left)) = o else {
        return at;
    };
    let right = touch_expr(vars, left.at, depth, marks);
    touch_expr(vars, right, depth, marks)
}
