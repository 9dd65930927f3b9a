// What is said at a site, in the words of validator.rs.
ghost use Rattle.std.specs.Prelude.{◌+◌, ◌≤◌, ◌≡◌, map, length};
ghost use Rattle.text.specs.Form.{format};
ghost use Rattle.text.specs.Put.{Put};
ghost use Rattle.text.specs.Message.{site_form, saying_text};
ghost use Rattle.text.specs.Said.{shown, saying_of};

use crate::cause::put_blame;
use crate::form::put_form;
use crate::said::{Arg, Said};

// The forms of the sites, from 0, which is none.
const FORMS: [&[u8]; 27] = [
    b"",
    b"module '{}' has no State enum variants",
    b"module '{}' initial state '{}' is not a State variant",
    b"module '{}' has transitions but no initial state",
    b"module '{}' invalid version header '{}' (expected X.Y or X.Y.Z)",
    b"module '{}' var '{}' init: ",
    b"module '{}' transition #{}: state '{}' is not a State variant",
    b"module '{}' transition #{}: next state '{}' is not a State variant",
    b"module '{}' transition #{}: event pattern: ",
    b"module '{}' transition #{}: guard: ",
    b"module '{}' transition #{}: guard must be bool: guard must be bool, found {}",
    b"module '{}' transition #{}: set unknown variable '{}'",
    b"module '{}' transition #{}: set '{}': ",
    b"module '{}' transition #{}: emit: ",
    b"module '{}' state '{}': duplicate priority {} for the same event pattern (transitions #{} and #{})",
    b"module '{}' state '{}': duplicate transitions #{} and #{} - identical event pattern and guard; the second is unreachable",
    b"module '{}' on_error: next state '{}' is not a State variant",
    b"module '{}' on_error emit: ",
    b"module '{}' has duplicate property/assumption name '{}'",
    b"module '{}' property '{}': ",
    b"module '{}' property '{}': always[N] requires N >= 1",
    b"module '{}': state '{}' is unreachable from the initial state",
    b"module '{}': event '{}' is never used in any transition pattern (dead event)",
    b"module '{}': variable '{}' is never read or written (unused)",
    b"module '{}' state '{}': transitions #{} and #{} share an event pattern with different guards and no priorities; first match wins in source order (add distinct `priority N;` to pin the intent)",
    b"module '{}': transition #{} has a guard that is always false (dead transition)",
    b"module '{}': transition #{} guard is impossible: '{}' is compared equal to both {} and {}",
];

// The form of a site; nothing where there is no such site.
fn form_of(site: u32) -> &'static [u8]
    ensures { result.now ≡ site_form site }
{
    let i = site as usize;
    if i < 27 {
        return FORMS[i];
    }
    b""
}

// Puts the form of a site with its arguments; nothing where there is no such site.
fn put_site(out: &mut [u8], at: usize, doc: &[u8], site: u32, args: [Arg; 5]) -> usize
    requires { (at ≤ 0x400_0000) × (length doc.now ≤ 0xffff) }
    ensures put { Put out.old at (format (site_form site) (map (shown doc.now) args)) result out.new }
    ensures upper_bound { result ≤ at + 0x29_0000 }
{
    put_form(out, at, doc, form_of(site), args)
}

// Puts what is said at a site.
pub(crate) fn put_said(out: &mut [u8], at: usize, doc: &[u8], site: u32, x: Option<Said>) -> usize
    requires { (at ≤ 0x200_0000) × (length doc.now ≤ 0xffff) }
    ensures put { Put out.old at (saying_text site (saying_of doc.now x)) result out.new }
    ensures upper_bound { result ≤ at + 0x7b_0000 }
{
    let Some(said) = x else {
        return at;
    };
    let args = said.args;
    let k = put_site(out, at, doc, site, args);
    put_blame(out, k, doc, said.blame)
}
