// The messages of what was judged outside transitions, piece by piece: sites 5, 17 and 19, of which a module can have one for each entry of a list.
// For arguments of any kind site.rt has their forms whole, which takes longer.
ghost use Rattle.std.specs.Prelude.{◌+◌, ◌≤◌, length};
ghost use Rattle.reading.specs.Limits.{max_list};
ghost use Rattle.text.specs.Put.{Put};
ghost use Rattle.text.specs.Near.{Kept};
ghost use Rattle.text.specs.Message.{saying_text, init_said, error_emit_said, formula_said};
ghost use Rattle.text.specs.Said.{line, saying_of};
ghost use Rattle.text.specs.Says.{WithNames, WithFormulas, Says, PutsSaid};
ghost use Rattle.text.specs.declared.said.Arg.TheVariants.{Blank, Name};

use crate::blame::{unfit, untyped};
use crate::cause::put_blame;
use crate::entry::{Near, entry_at};
use crate::listed::{put_entry, put_module};
use crate::out::put_bytes;
use findings::outputs_of;
use typing::{
    Blame, after, after_head, null_at, type_expr, type_formula, validate_output_expr, word,
};

// Puts the message of site 17: what is wrong with an output that an error emits.
fn put_on_error(out: &mut [u8], at: usize, doc: &[u8], name: usize, w: Result<(), Blame>) -> usize
    requires { (at ≤ 0x10_0000) × (length doc.now ≤ 0xffff) }
    ensures put { Put out.old at (saying_text 17 (saying_of doc.now (line (Name name) Blank Blank Blank Blank w))) result out.new }
    ensures upper_bound { result ≤ at + 0x60_0000 }
{
    let a = put_module(out, at, doc, name);
    let b = put_bytes(out, a, b"' on_error emit: ");
    put_blame(out, b, doc, w)
}

// Site 5: puts what is said of the first value of variable i.
pub(crate) fn put_init_at<'a>(
    doc: &'a [u8],
    places: &'a [usize],
    names: &'a [usize],
    enums: &'a [usize],
    i: usize,
    near: Option<Near>,
    out: &mut [u8],
    at: usize,
) -> usize
    requires kept { Kept max_list doc.now near }
    requires at_bound { (at ≤ 0x10_0000) × (length doc.now ≤ 0xffff) }
    ensures puts_said { PutsSaid (Says (WithNames doc.now places.now names.now enums.now) doc.now (init_said i)) doc.now 5 out.old at result out.new }
    ensures upper_bound { result ≤ at + 0x60_0000 }
{
    let Some(k) = entry_at(doc, word(places, 7), i, near) else {
        return at;
    };
    let name = after_head(doc, k);
    let ty = after(doc, name);
    let init = after(doc, ty);
    let t = type_expr(doc, init, 32, names, enums);
    let w = untyped(doc, t);
    put_entry(
        out,
        at,
        doc,
        5,
        word(places, 0),
        b"' var '",
        name,
        b"' init: ",
        w,
    )
}

// Site 17: puts what is said of output i that an error emits.
pub(crate) fn put_error_emit_at<'a>(
    doc: &'a [u8],
    places: &'a [usize],
    names: &'a [usize],
    enums: &'a [usize],
    i: usize,
    near: Option<Near>,
    out: &mut [u8],
    at: usize,
) -> usize
    requires kept { Kept max_list doc.now near }
    requires at_bound { (at ≤ 0x10_0000) × (length doc.now ≤ 0xffff) }
    ensures puts_said { PutsSaid (Says (WithNames doc.now places.now names.now enums.now) doc.now (error_emit_said i)) doc.now 17 out.old at result out.new }
    ensures upper_bound { result ≤ at + 0x60_0000 }
{
    let place = word(places, 2);
    if null_at(doc, place) {
        return at;
    }
    let state = after_head(doc, place);
    let Some(k) = entry_at(doc, after(doc, state), i, near) else {
        return at;
    };
    let w = validate_output_expr(doc, k, outputs_of(places), names, enums);
    put_on_error(out, at, doc, word(places, 0), w)
}

// Site 19: puts what is said of the formula of property or assumption i, by the table of both.
pub(crate) fn put_formula_at<'a>(
    doc: &'a [u8],
    places: &'a [usize],
    claims: &'a [usize],
    names: &'a [usize],
    enums: &'a [usize],
    i: usize,
    out: &mut [u8],
    at: usize,
) -> usize
    requires { (at ≤ 0x10_0000) × (length doc.now ≤ 0xffff) }
    ensures puts_said { PutsSaid (Says (WithFormulas doc.now places.now claims.now names.now enums.now) doc.now (formula_said i)) doc.now 19 out.old at result out.new }
    ensures upper_bound { result ≤ at + 0x60_0000 }
{
    if claims.len() / 2 <= i {
        return at;
    }
    let name = word(claims, 2 * i);
    let formula = word(claims, 2 * i + 1);
    let f = type_formula(doc, formula, 32, names, enums);
    let w = unfit(doc, f);
    put_entry(
        out,
        at,
        doc,
        19,
        word(places, 0),
        b"' property '",
        name,
        b"': ",
        w,
    )
}
