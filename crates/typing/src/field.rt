// The fields of a pattern, each against the field that is declared for it.
ghost use Rattle.std.specs.Prelude.{◌+◌, ◌<◌, ◌≡◌, set, ltb};
ghost use Rattle.reading.specs.Read.{pick};
ghost use Rattle.typing.specs.Blames.{Spares};
ghost use Rattle.typing.specs.Lanes.{Lanes, Laned};
ghost use Rattle.typing.specs.Fields.{PartsAt, field_named, named_from, Apart, named_among, PutsName, NamesField, FitsField, JudgesField, JudgesFields};

use crate::binds::null_at;
use crate::cause::{Bindings, Blame, Cause, Within};
use crate::fill::{after_head, store};
use crate::lanes::{lane_add, lane_find};
use crate::names::same;
use crate::pattern::pattern_expr_compatible;
use crate::table::{after, after_case};
use reading::text_at;

// The name of a pattern's field, by its place: none, one that an earlier field has, or a new one.
#[derive(Clone, Copy, Debug, PartialEq, Eq)]
pub enum Naming {
    Unnamed,
    Again(usize),
    Fresh(usize),
}

// Where the two fields of a record stand: a name, and what is under it.
#[derive(Clone, Copy, Debug, PartialEq, Eq)]
pub struct Parts {
    pub name: usize,
    pub under: usize,
}

// Those of the record at a place.
fn parts_at(doc: &[u8], at: usize) -> Parts
    ensures { PartsAt doc.now at result }
{
    let name = after_head(doc, at);
    let under = after(doc, name);
    Parts { name, under }
}

// Whether the pattern's field at a place has the name.
fn field_named<'a>(doc: &'a [u8], at: usize, name: &'a [u8]) -> bool
    ensures { result ≡ field_named doc.now at name.now }
{
    let own = after_head(doc, at);
    if null_at(doc, own) {
        return false;
    }
    same(text_at(doc, own), name)
}

// Whether one of so many from a place on has.
fn named_from<'a>(doc: &'a [u8], at: usize, fields: u8, name: &'a [u8]) -> bool
    ensures { result ≡ named_from fields doc.now at name.now }
{
    let mut k = at;
    for _ in 0..fields {
        if field_named(doc, k, name) {
            return true;
        }
        k = after(doc, k);
    }
    false
}

// The name of a field that stands at a place, by so many fields from the first on.
fn field_name(doc: &[u8], name: usize, first: usize, passed: u8) -> Naming
    ensures { NamesField doc.now name first passed result }
{
    if null_at(doc, name) {
        return Naming::Unnamed;
    }
    if named_from(doc, first, passed, text_at(doc, name)) {
        return Naming::Again(name);
    }
    Naming::Fresh(name)
}

// What is wrong with the pattern at a place, of the declared field by its parts, if anything.
fn field_fits(doc: &[u8], pattern: usize, decl: Parts) -> Result<(), Blame>
    ensures { FitsField doc.now pattern decl result }
{
    let fit = pattern_expr_compatible(doc, pattern, decl.under);
    match fit {
        Ok(()) => Ok(()),
        Err(cause) => Err(Blame {
            within: Within::Field(decl.name),
            cause,
        }),
    }
}

// Puts a pair of places into the table from word k + j on, where it has such words.
fn store_pair(table: &mut [usize], k: usize, j: usize, name: usize, ty: usize)
    ensures { table.new ≡ set (set table.old (k + j) name) (k + j + 1) ty }
{
    if table.len() <= k {
        return;
    }
    if table.len() - k <= j {
        return;
    }
    let w = k + j;
    store(table, w, name);
    store(table, w + 1, ty);
}

// What is wrong with a field, of the declared field, by the parts of both and so many fields from the first on; and what it binds, from
// word k + j on.
fn judge_field(
    doc: &[u8],
    own: Parts,
    decl: Parts,
    first: usize,
    passed: u8,
    table: &mut [usize],
    k: usize,
    j: usize,
) -> Bindings
    ensures { JudgesField doc.now own decl first passed table.old (k + j) result table.new }
{
    let naming = field_name(doc, own.name, first, passed);
    match naming {
        Naming::Unnamed => Bindings {
            blame: field_fits(doc, own.under, decl),
            words: 0,
        },
        Naming::Again(name) => Bindings {
            blame: Err(Blame {
                within: Within::Alone,
                cause: Cause::DuplicateBinding(name),
            }),
            words: 0,
        },
        Naming::Fresh(name) => {
            store_pair(table, k, j, name, decl.under);
            Bindings {
                blame: field_fits(doc, own.under, decl),
                words: 2,
            }
        }
    }
}

// Whether the pattern's field at a place has one of the first m names.
fn named_among<'a>(
    doc: &'a [u8],
    at: usize,
    names: &'a [usize],
    m: usize,
    heads: &'a [u16],
    links: &'a [u16],
) -> bool
    requires { Lanes doc.now names.now m heads.now links.now }
    ensures { result ≡ named_among doc.now at names.now m }
{
    let name = after_head(doc, at);
    if null_at(doc, name) {
        return false;
    }
    let f = lane_find(doc, names, m, heads, links, text_at(doc, name));
    match f {
        Some(_) => true,
        None => false,
    }
}

// Puts the name of the field at a place, where it has one, after the first m; how many there are then.
fn put_name(
    doc: &[u8],
    at: usize,
    names: &mut [usize],
    m: usize,
    heads: &mut [u16],
    links: &mut [u16],
) -> usize
    requires laned { Laned 255 doc.now names.old m heads.old links.old }
    requires m_bound { m < 255 }
    ensures { PutsName doc.now at names.old m result names.new heads.new links.new }
{
    let name = after_head(doc, at);
    if null_at(doc, name) {
        return m;
    }
    names[2 * m] = name;
    names[2 * m + 1] = name;
    lane_add(doc, names, m, heads, links);
    m + 1
}

// How many of so many fields from a place on stand before the first that has the name of one before it.
fn apart_by_lanes(doc: &[u8], at: usize, count: u8) -> u8
    ensures { Apart doc.now at result }
{
    let mut names = [0usize; 510];
    let mut heads = [0u16; 1025];
    let mut links = [0u16; 255];
    let mut m: usize = 0;
    let mut k = at;
    for i in 0..count {
        if named_among(doc, k, &names, m, &heads, &links) {
            return i;
        }
        m = put_name(doc, k, &mut names, m, &mut heads, &mut links);
        k = after(doc, k);
    }
    count
}

// The same of a long pattern; in a short one none is counted, since a search there is short.
fn fields_apart(doc: &[u8], at: usize, count: u8) -> u8
    ensures { Apart doc.now at result }
{
    if count < 16 {
        return 0;
    }
    apart_by_lanes(doc, at, count)
}

// How many fields are searched for the name of number i: none where it is one of those apart, else all before it.
fn searched(i: u8, apart: u8) -> u8
    ensures { result ≡ pick (ltb i apart) 0 i }
{
    if i < apart {
        return 0;
    }
    i
}

// The fields from a place on, of the declared fields from another, so many of both.
pub(crate) fn judge_fields(
    doc: &[u8],
    at: usize,
    fields: usize,
    count: u8,
    table: &mut [usize],
    k: usize,
) -> Bindings
    ensures judges_fields { JudgesFields doc.now at fields count table.old k result table.new }
    ensures spares { Spares table.old k result table.new }
{
    let apart = fields_apart(doc, at, count);
    let mut p = at;
    let mut f = fields;
    let mut j: usize = 0;
    for i in 0..count {
        let own = parts_at(doc, p);
        let decl = parts_at(doc, f);
        let passed = searched(i, apart);
        let r = judge_field(doc, own, decl, at, passed, table, k, j);
        j += r.words;
        let blame = r.blame;
        let Ok(()) = blame else {
            return Bindings { blame, words: j };
        };
        p = after_case(doc, own.under);
        f = after_case(doc, decl.under);
    }
    Bindings {
        blame: Ok(()),
        words: j,
    }
}
