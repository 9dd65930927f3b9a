// Tables of blocks: names and what is declared under each, as pairs of places on lanes. A block has 829 words: 255 pairs, 63 heads of
// lanes, a key, and 255 links. There is no heap: a table is words that the caller lends, and a block is found by its first word.
ghost use Rattle.std.specs.Prelude.{◌≡◌, ◌+◌, ◌*◌, ◌/◌, ◌%◌, ◌^◌, ◌<◌, ◌≤◌, length};
ghost use Rattle.typing.specs.Table.{found, pairs_at};
ghost use Rattle.typing.specs.Lanes.{print, spread};
ghost use Rattle.typing.specs.Blocks.{block_lane, key_in, BlockWoven, link_from, block_find, find_in, enum_find, Keeps, Weaves, Clears};

use crate::fill::{fill_table, store};
use crate::lanes::{factor, print_by, print_bytes, spread};
use crate::names::{same, same_name};
use reading::text_at;

// The lane of a print.
fn print_lane(p: u32) -> usize
    ensures value { result ≡ spread p / 2 ^ 16 % 63 }
    ensures upper_bound { result < 63 }
{
    (spread(p) / 65536 % 63) as usize
}

// The lane of a name by a key.
fn block_lane(name: &[u8], key: usize) -> usize
    ensures value { result ≡ block_lane key name.now }
    ensures upper_bound { result < 63 }
{
    print_lane(print_by(name, 0, factor(key)))
}

// The same where the name's print is known, which is that of key 0.
fn lane_in_block(name: &[u8], p: u32, key: usize) -> usize
    requires { p ≡ print 0 name.now }
    ensures value { result ≡ block_lane key name.now }
    ensures upper_bound { result < 63 }
{
    if key == 0 {
        return print_lane(p);
    }
    block_lane(name, key)
}

// What stands under a name in the block from word o on, by the name's lane.
fn find_in_block<'a>(
    doc: &'a [u8],
    table: &'a [usize],
    o: usize,
    lane: usize,
    name: &'a [u8],
) -> Option<usize>
    requires o_in_bounds { o + 829 ≤ length table.now }
    requires lane_bound { lane < 63 }
    requires lane_value { lane ≡ block_lane (key_in table.now o) name.now }
    ensures { result ≡ found (block_find doc.now name.now table.now o) }
{
    let mut p = table[o + 510 + lane];
    for _ in 0..255usize {
        if p == 0 {
            return None;
        }
        if 255 < p {
            return None;
        }
        let i = p - 1;
        if same(text_at(doc, table[o + 2 * i]), name) {
            return Some(table[o + 2 * i + 1]);
        }
        p = table[o + 574 + i];
    }
    None
}

// What stands under a name in a table of blocks, by the last that has it.
pub fn find<'a>(doc: &'a [u8], table: &'a [usize], name: &'a [u8]) -> Option<usize>
    ensures { result ≡ found (find_in doc.now name.now table.now) }
{
    let p = print_bytes(name, 0);
    for b in (0..table.len() / 829).rev() {
        let o = 829 * b;
        let lane = lane_in_block(name, p, table[o + 573]);
        if let Some(place) = find_in_block(doc, table, o, lane, name) {
            return Some(place);
        }
    }
    None
}

// The same in a table of enums, which is a block and other words behind it.
pub(crate) fn find_enum<'a>(doc: &'a [u8], table: &'a [usize], name: &'a [u8]) -> Option<usize>
    ensures { result ≡ found (enum_find doc.now name.now table.now) }
{
    if table.len() < 829 {
        return None;
    }
    let lane = block_lane(name, table[573]);
    find_in_block(doc, table, 0, lane, name)
}

// Empties the lanes of the block from word o on, and gives it a key.
fn clear_lanes(table: &mut [usize], o: usize, key: usize)
    requires { o + 829 ≤ length table.old }
    ensures { Clears table.old o 63 table.new }
{
    table[o + 510..o + 573].fill(0);
    table[o + 573] = key;
}

// What pair i is linked to: the head of its lane, or where that has the same name what the head is linked to.
fn link_from(doc: &[u8], table: &[usize], o: usize, head: usize, i: usize) -> usize
    requires o_in_bounds { o + 829 ≤ length table.now }
    requires i_bound { i < 255 }
    requires head_le_i { head ≤ i }
    ensures { result ≡ link_from doc.now table.now o head i }
{
    if head == 0 {
        return head;
    }
    let p = head - 1;
    if same_name(doc, table[o + 2 * p], table[o + 2 * i]) {
        return table[o + 574 + p];
    }
    head
}

// Puts pair i of the block from word o on upon its lane by the block's key.
fn weave_pair(doc: &[u8], table: &mut [usize], o: usize, i: usize)
    requires o_in_bounds { o + 829 ≤ length table.old }
    requires i_bound { i < 255 }
    requires block_woven { BlockWoven doc.now table.old o i }
    ensures { Weaves doc.now table.old o (i + 1) table.new }
{
    let h = o + 510 + block_lane(text_at(doc, table[o + 2 * i]), table[o + 573]);
    let link = link_from(doc, table, o, table[h], i);
    store(table, o + 574 + i, link);
    store(table, h, i + 1);
}

// Puts the first n pairs of the block from word o on upon their lanes by a key.
fn weave_by(doc: &[u8], table: &mut [usize], o: usize, n: usize, key: usize)
    requires o_in_bounds { o + 829 ≤ length table.old }
    requires n_bound { n ≤ 255 }
    ensures { Weaves doc.now table.old o n table.new }
{
    clear_lanes(table, o, key);
    for i in 0..n {
        weave_pair(doc, table, o, i);
    }
}

// Whether a lane has more than 12 of the first n pairs; fewer than 17 pairs crowd none. A pair is one further along its lane than the pair
// that its link leads to.
fn crowded(table: &[usize], o: usize, n: usize) -> bool
    requires o_in_bounds { o + 829 ≤ length table.now }
    requires n_bound { n ≤ 255 }
{
    if n < 17 {
        return false;
    }
    let mut depths = [0u8; 256];
    for i in 0..n {
        let d = depths[table[o + 574 + i] % 256];
        if 11 < d {
            return true;
        }
        depths[i + 1] = d + 1;
    }
    false
}

// Puts the first n pairs of the block from word o on upon their lanes: by the first of 8 keys that crowds no lane, or by the last.
pub fn weave(doc: &[u8], table: &mut [usize], o: usize, n: usize)
    requires o_in_bounds { o + 829 ≤ length table.old }
    requires n_bound { n ≤ 255 }
    ensures { Weaves doc.now table.old o n table.new }
{
    weave_by(doc, table, o, n, 0);
    for key in 1..8 {
        if !crowded(table, o, n) {
            return;
        }
        weave_by(doc, table, o, n, key);
    }
}

// Fills the block that a table begins with from the list of records at a place.
pub fn fill_block(doc: &[u8], at: usize, table: &mut [usize])
    requires { 829 ≤ length table.old }
    ensures keeps { Keeps doc.now (pairs_at doc.now at) table.new 0 }
    ensures table_len_unchanged { length table.new ≡ length table.old }
{
    let words = fill_table(doc, at, table);
    weave(doc, table, 0, words / 2);
}
