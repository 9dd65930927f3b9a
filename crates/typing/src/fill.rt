// Filling a table from a list of records: each one's name and what follows the name.
ghost use Rattle.std.specs.Prelude.{◌≡◌, ◌≤◌, get_or, set};
ghost use Rattle.typing.specs.Table.{after_head, after_tag, Past, pairs_at, Filled};

use crate::entries::entries_at;
use crate::table::after;
use reading::{Cursor, Refusal};

// A word of a table; 0 past its end.
pub fn word(table: &[usize], j: usize) -> usize
    ensures { result ≡ get_or table.now j 0 }
{
    if j < table.len() {
        return table[j];
    }
    0
}

// Puts a place into the table, where it has such a word.
pub fn store(table: &mut [usize], j: usize, place: usize)
    ensures { table.new ≡ set table.old j place }
{
    if j < table.len() {
        table[j] = place;
    }
}

// The place after the head of the record at a place.
pub fn after_head(doc: &[u8], at: usize) -> usize
    ensures { result ≡ after_head doc.now at }
{
    let c = Cursor { at };
    let r = c.kind(doc, 4);
    match r {
        Ok((_, next)) => next.at,
        Err(Refusal { place, .. }) => place,
    }
}

// Fills the table from the list of records at a place; how many words it takes.
pub fn fill_table(doc: &[u8], at: usize, table: &mut [usize]) -> usize
    ensures filled { Filled table.old (pairs_at doc.now at) result table.new }
    ensures upper_bound { result ≤ 510 }
{
    let e = entries_at(doc, at);
    let mut k = e.first;
    let mut j: usize = 0;
    for _ in 0..e.many {
        let name = after_head(doc, k);
        store(table, j, name);
        let under = after(doc, name);
        store(table, j + 1, under);
        k = after(doc, k);
        j += 2;
    }
    j
}

// The place after the head of the data enum at a place.
pub fn after_tag(doc: &[u8], at: usize) -> usize
    ensures { result ≡ after_tag doc.now at }
{
    let c = Cursor { at };
    let r = c.tag(doc);
    match r {
        Ok((_, next)) => next.at,
        Err(Refusal { place, .. }) => place,
    }
}
