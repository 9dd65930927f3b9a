// Rust's `format!`: a form with its arguments in their places.
ghost use Rattle.std.specs.Prelude.{◌+◌, ◌≤◌, ◌≡◌, map, length};
ghost use Rattle.text.specs.Form.{format, PlainTo, Opens, beyond};
ghost use Rattle.text.specs.Put.{Put};
ghost use Rattle.text.specs.Said.{shown};

use crate::decimal::put_decimal;
use crate::out::put_bytes;
use crate::path::put_names;
use crate::said::Arg;
use crate::shown::{put_text, put_type, put_what};

// Puts one argument.
#[tactic(auto, unfolding(crate::specs::Said::shown))]
pub(crate) fn put_arg(out: &mut [u8], at: usize, doc: &[u8], a: Arg) -> usize
    requires { (at ≤ 0x500_0000) × (length doc.now ≤ 0xffff) }
    ensures put { Put out.old at (shown doc.now a) result out.new }
    ensures upper_bound { result ≤ at + 0x8_0100 }
{
    match a {
        Arg::Blank => at,
        Arg::Name(place) => put_text(out, at, doc, place),
        Arg::Number(n) => put_decimal(out, at, n),
        Arg::Debug(t) => put_type(out, at, doc, t),
        Arg::Path(place) => put_names(out, at, doc, place),
        Arg::Word(w) => put_what(out, at, w),
    }
}

// The first place from i on at which a form has a brace, or its end.
#[tactic(auto, using(crate::proofs::FormLaws::plain_more))]
fn plain_end(form: &[u8], i: usize) -> usize
    requires { i ≤ length form.now }
    ensures { PlainTo form.now i result }
{
    for j in i..form.len() {
        if form[j] == b'{' || form[j] == b'}' {
            return j;
        }
    }
    form.len()
}

// Whether argument number n stands at place j of a form.
fn opens(form: &[u8], j: usize, n: usize) -> bool
    ensures { Opens form.now j n result }
{
    n < 5 && j < form.len() && form[j] == b'{'
}

// The place after the brace at place j of a form; the end where there is none.
fn past_brace(form: &[u8], j: usize) -> usize
    requires { j ≤ length form.now }
    ensures { result ≡ beyond form.now j }
{
    form.len().min(j + 1)
}

// Puts a form with its arguments in their places.
pub(crate) fn put_form(out: &mut [u8], at: usize, doc: &[u8], form: &[u8], args: [Arg; 5]) -> usize
    requires { (at ≤ 0x400_0000) × (length doc.now ≤ 0xffff) × (length form.now ≤ 0xfff) }
    ensures put { Put out.old at (format form.now (map (shown doc.now) args)) result out.new }
    ensures upper_bound { result ≤ at + 0x29_0000 }
{
    let mut k = at;
    let mut n: usize = 0;
    let mut i: usize = 0;
    // No `for`: a turn passes a piece of the form, up to a brace.
    while i < form.len() {
        let j = plain_end(form, i);
        k = put_bytes(out, k, &form[i..j]);
        i = past_brace(form, j);
        if opens(form, j, n) {
            let a = args[n];
            k = put_arg(out, k, doc, a);
            n += 1;
        }
    }
    k
}
