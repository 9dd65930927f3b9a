// The message of a finding, by its words.
ghost use Rattle.std.specs.Prelude.{◌≡◌, ◌+◌, ◌≤◌, length, take};
ghost use Rattle.reading.specs.Limits.{max_list};
ghost use Rattle.typing.specs.Table.{after_item, after_head, Past};
ghost use Rattle.text.specs.Near.{Kept, KeptModule, PickedModule};
ghost use Rattle.text.specs.Message.{saying, saying_text};
ghost use Rattle.text.specs.Said.{saying_of};
ghost use Rattle.text.specs.Says.{Named, Says, SaysIn, SaysWords};
ghost use Rattle.text.specs.Told.{sized, filled};

use crate::entry::{Near, entry_of};
use crate::said::Said;
use crate::say::say;
use crate::site::put_said;
use crate::told::Untold;
use findings::{Ready, name_module, open_module};
use typing::{after, after_head};

// What is said by the tables of a module, of which so many words are in use.
#[tactic(auto, using(crate::proofs::WordsLaws::named_said))]
pub(crate) fn say_named<'a>(
    doc: &'a [u8],
    places: &'a [usize],
    rows: &'a [usize],
    count: u8,
    known: Ready,
    table: &mut [usize],
    enums: &'a [usize],
    claims: &'a [usize],
    site: u32,
    i: usize,
    j: usize,
    near: Option<Near>,
) -> Option<Said>
    requires kept { Kept max_list doc.now near }
    requires in_bounds { 1658 ≤ length table.old }
    requires claims_in_bounds { known.claims ≤ length claims.now }
    ensures says { Says (Named doc.now places.now rows.now count known table.old enums.now claims.now) doc.now (saying site i j) result }
    ensures table_len_unchanged { length table.new ≡ length table.old }
    ensures table_unchanged { take 829 table.new ≡ take 829 table.old }
{
    let found = known.found;
    let b = known.claims;
    say(
        doc,
        places,
        rows,
        count,
        found,
        table,
        enums,
        &claims[0..b],
        site,
        i,
        j,
        near,
    )
}

// What is said of a finding in the module at a place. The tables are filled anew.
pub(crate) fn say_opened(
    doc: &[u8],
    at: usize,
    places: &mut [usize; 1544],
    rows: &mut [usize; 2040],
    table: &mut [usize; 1658],
    enums: &mut [usize; 2365],
    claims: &mut [usize; 1020],
    site: u32,
    i: usize,
    j: usize,
) -> Option<Said>
    ensures { SaysIn doc.now at site i j result }
{
    let listed = open_module(doc, at, places, rows);
    let known = name_module(doc, places, table, enums, claims);
    say_named(
        doc,
        places,
        rows,
        listed.count,
        known,
        table,
        enums,
        claims,
        site,
        i,
        j,
        None,
    )
}

// What is said of a finding in the module at a place.
pub(crate) fn say_in(doc: &[u8], at: usize, site: u32, i: usize, j: usize) -> Option<Said>
    ensures { SaysIn doc.now at site i j result }
{
    let mut places = [0usize; 1544];
    let mut rows = [0usize; 2040];
    let mut table = [0usize; 1658];
    let mut enums = [0usize; 2365];
    let mut claims = [0usize; 1020];
    say_opened(
        doc,
        at,
        &mut places,
        &mut rows,
        &mut table,
        &mut enums,
        &mut claims,
        site,
        i,
        j,
    )
}

// The place of the list of modules.
#[tactic(auto, using(crate::proofs::WordsLaws::modules_there))]
fn modules_at(doc: &[u8]) -> usize
    ensures { Past doc.now (after_head doc.now 0) result }
{
    let version = after_head(doc, 0);
    after(doc, version)
}

// The place of module number k.
#[tactic(auto, using(crate::proofs::WordsLaws::module_picked))]
pub fn module_at(doc: &[u8], k: usize, near: Option<Near>) -> Option<usize>
    requires { KeptModule doc.now near }
    ensures { PickedModule doc.now k result }
{
    entry_of(doc, modules_at(doc), 16, k, near)
}

// The module after number k, which ends at a place.
pub fn module_after(doc: &[u8], k: usize, end: usize) -> Near
    requires { k ≤ 0xffff_ffff }
    ensures { result ≡ record { list = after_item doc.now (after_head doc.now 0); number = k + 1; place = end } }
{
    Near {
        list: modules_at(doc),
        number: k + 1,
        place: end,
    }
}

// What is said of a finding, by its words.
#[tactic(auto, using(crate::proofs::EntryLaws::no_module_kept, crate::proofs::WordsLaws::words_none, crate::proofs::WordsLaws::words_said))]
pub(crate) fn say_words(doc: &[u8], owner: usize, site: u32, i: usize, j: usize) -> Option<Said>
    ensures { SaysWords doc.now owner site i j result }
{
    let at = module_at(doc, owner, None)?;
    say_in(doc, at, site, i, j)
}

// Writes what is said, if out has room for it.
pub(crate) fn write(doc: &[u8], site: u32, x: Option<Said>, out: &mut [u8]) -> Result<usize, Untold>
    requires { length doc.now ≤ 0xffff }
    ensures value { result ≡ sized out.old (saying_text site (saying_of doc.now x)) }
    ensures out_after { out.new ≡ filled out.old (saying_text site (saying_of doc.now x)) }
{
    let mut spare = [0u8; 1];
    let n = put_said(&mut spare, 0, doc, site, x);
    if out.len() < n {
        return Err(Untold::Short(n));
    }
    Ok(put_said(out, 0, doc, site, x))
}
