// The equalities of a guard in one pass, from right to left, against a table of one of each name.
ghost use Rattle.std.specs.Prelude.{◌<◌};
ghost use Rattle.typing.specs.Seen.{Room, Adds, NotesEquality, NotesConjuncts, NotesTwo, OnePass};

use crate::equality::{Conjunct, Equality, conjunct_at};
use crate::expr::after_expr;
use crate::guard::Clash;
use crate::lanes::{lane_add, lane_find};
use reading::text_at;

// Why the pass ends early: two values differ, or the table has no room.
#[derive(Clone, Copy, Debug, PartialEq, Eq)]
pub enum Stop {
    Clash(Clash),
    Full,
}

// Puts an equality into the table as pair k.
fn add_equality(
    doc: &[u8],
    name: usize,
    value: u64,
    table: &mut [usize],
    k: usize,
    heads: &mut [u16],
    links: &mut [u16],
)
    requires room { Room doc.now table.old k heads.old links.old }
    requires k_bound { k < 4096 }
    ensures { Adds doc.now name value table.old k table.new heads.new links.new }
{
    table[2 * k] = name;
    table[2 * k + 1] = value as usize;
    lane_add(doc, table, k, heads, links);
}

// An equality against the one of its name; the first of a name goes into the table. How many pairs it has then.
fn note_equality(
    doc: &[u8],
    q: Option<Equality>,
    table: &mut [usize],
    k: usize,
    heads: &mut [u16],
    links: &mut [u16],
) -> Result<usize, Stop>
    requires { Room doc.now table.old k heads.old links.old }
    ensures { NotesEquality doc.now q table.old k result table.new heads.new links.new }
{
    let Some(Equality { name, value: later }) = q else {
        return Ok(k);
    };
    let f = lane_find(doc, table, k, heads, links, text_at(doc, name));
    match f {
        Some(place) => {
            let earlier = place as u64;
            if earlier == later {
                return Ok(k);
            }
            Err(Stop::Clash(Clash {
                name,
                earlier,
                later,
            }))
        }
        None => {
            if k < 4096 {
                add_equality(doc, name, later, table, k, heads, links);
                return Ok(k + 1);
            }
            Err(Stop::Full)
        }
    }
}

// The equalities of the expression at a place, with as many levels left.
#[cycle(note_conjuncts_note_two)]
fn note_conjuncts(
    doc: &[u8],
    at: usize,
    depth: u64,
    table: &mut [usize],
    k: usize,
    heads: &mut [u16],
    links: &mut [u16],
) -> Result<usize, Stop>
    requires { Room doc.now table.old k heads.old links.old }
    ensures { NotesConjuncts depth doc.now at table.old k result table.new heads.new links.new }
{
    if depth == 0 {
        return Ok(k);
    }
    let c = conjunct_at(doc, at, depth);
    match c {
        Conjunct::And(left) => note_two(doc, left, depth - 1, table, k, heads, links),
        Conjunct::One(q) => note_equality(doc, q, table, k, heads, links),
    }
}

// The same of the two operands at a place: right goes first.
#[cycle(note_conjuncts_note_two)]
fn note_two(
    doc: &[u8],
    at: usize,
    depth: u64,
    table: &mut [usize],
    k: usize,
    heads: &mut [u16],
    links: &mut [u16],
) -> Result<usize, Stop>
    requires { Room doc.now table.old k heads.old links.old }
    ensures { NotesTwo depth doc.now at table.old k result table.new heads.new links.new }
{
    let right = after_expr(doc, at, depth);
    let m = note_conjuncts(doc, right, depth, table, k, heads, links)?;
    note_conjuncts(doc, at, depth, table, m, heads, links)
}

// The clash of the guard at a place, where the table has room for its names.
pub(crate) fn clash_in_one_pass(doc: &[u8], at: usize, depth: u64) -> Result<usize, Stop>
    ensures { OnePass depth doc.now at result }
{
    let mut table = [0usize; 8192];
    let mut heads = [0u16; 1025];
    let mut links = [0u16; 4096];
    note_conjuncts(doc, at, depth, &mut table, 0, &mut heads, &mut links)
}
