// The variants of long enums in the words behind the block of a table of enums, six a word, so that one is looked for by its mark.
ghost use Rattle.std.specs.Prelude.{◌≡◌, ◌+◌, ◌*◌, ◌/◌, ◌<◌, ◌≤◌, length};
ghost use Rattle.typing.specs.Table.{pairs_at};
ghost use Rattle.typing.specs.Segments.{mark_by, marked, word_has, among, segment_has, variant_in, Packs, FillsWords, FillsKeyed, Segmented, IndexedOne, Indexed};
ghost use Rattle.typing.specs.Blocks.{KeepsEnums};

use crate::block::weave;
use crate::entries::entries_at;
use crate::fill::fill_table;
use crate::lanes::{factor, print_by, spread};
use crate::names::same;
use crate::table::{after, has_name};
use reading::text_at;

// The mark of a name by a key.
fn mark_of(name: &[u8], key: usize) -> usize
    ensures value { result ≡ mark_by key name.now }
    ensures upper_bound { result < 256 }
{
    (spread(print_by(name, 0, factor(key))) / 16777216 % 255) as usize + 1
}

// Whether one of six marks is m.
fn is_marked(marks: usize, m: usize) -> bool
    ensures { result ≡ marked 6 m marks }
{
    let mut rest = marks;
    for _ in 0..6usize {
        if rest % 256 == m {
            return true;
        }
        rest = rest / 256;
    }
    false
}

// Whether one of a word's six names is the name, which has the mark m.
fn in_word<'a>(doc: &'a [u8], w: usize, m: usize, name: &'a [u8]) -> bool
    ensures { result ≡ word_has doc.now name.now m w }
{
    let mut at = w / 281474976710656;
    let mut rest = w % 281474976710656;
    for _ in 0..6usize {
        if rest % 256 == m {
            if same(text_at(doc, at), name) {
                return true;
            }
        }
        at = after(doc, at);
        rest = rest / 256;
    }
    false
}

// Whether one of so many words from word q on has the name, which has the mark m, from the last on.
fn in_words<'a>(
    doc: &'a [u8],
    table: &'a [usize],
    q: usize,
    many: usize,
    m: usize,
    name: &'a [u8],
) -> bool
    requires { q + many ≤ length table.now }
    ensures { result ≡ among many doc.now name.now m table.now q }
{
    for i in (0..many).rev() {
        let w = table[q + i];
        if is_marked(w % 281474976710656, m) {
            if in_word(doc, w, m, name) {
                return true;
            }
        }
    }
    false
}

// Whether the segment that begins at word q has the name.
fn in_segment<'a>(doc: &'a [u8], table: &'a [usize], q: usize, name: &'a [u8]) -> bool
    ensures { result ≡ segment_has doc.now name.now table.now q }
{
    let len = table.len();
    if len <= q {
        return false;
    }
    let h = table[q];
    let many = h % 256;
    if len - q <= many {
        return false;
    }
    let m = mark_of(name, h / 256);
    in_words(doc, table, q + 1, many, m, name)
}

// Whether the enum with a word under its name has the variant.
pub(crate) fn has_variant<'a>(doc: &'a [u8], table: &'a [usize], w: usize, name: &'a [u8]) -> bool
    ensures { result ≡ variant_in doc.now table.now name.now w }
{
    if w < 65536 {
        return has_name(doc, w, name);
    }
    if 65535 < doc.len() {
        return has_name(doc, w, name);
    }
    in_segment(doc, table, w - 65536, name)
}

// The marks of some names, the first's lowest, and where the names end.
#[derive(Clone, Copy, Debug, PartialEq, Eq)]
pub struct Packed {
    pub marks: usize,
    pub next: usize,
}

// Those of so many names from a place on.
fn pack(doc: &[u8], at: usize, many: usize, key: usize) -> Packed
    requires { many ≤ 6 }
    ensures { Packs many key doc.now at result }
{
    if many == 0 {
        return Packed { marks: 0, next: at };
    }
    let m = mark_of(text_at(doc, at), key);
    let rest = pack(doc, after(doc, at), many - 1, key);
    Packed {
        marks: m + 256 * rest.marks,
        next: rest.next,
    }
}

// Puts so many names from a place on into the words from word q on, by a key; whether all could be.
fn fill_words(
    doc: &[u8],
    first: usize,
    many: usize,
    key: usize,
    table: &mut [usize],
    q: usize,
) -> bool
    requires many_bound { many ≤ 255 }
    requires many_in_bounds { q + (many + 5) / 6 ≤ length table.old }
    ensures { FillsWords key doc.now first many table.old q result table.new }
{
    let mut k = first;
    for j in 0..(many + 5) / 6 {
        if 65535 < k {
            return false;
        }
        let p = pack(doc, k, (many - 6 * j).min(6), key);
        table[q + j] = k * 281474976710656 + p.marks;
        k = p.next;
    }
    true
}

// Whether in so many words from word q on one mark is that of more than 12 names.
fn is_worn(table: &[usize], q: usize, many: usize) -> bool
    requires { q + many ≤ length table.now }
{
    let mut counts = [0u8; 256];
    for i in 0..many {
        let mut rest = table[q + i] % 281474976710656;
        while 0 < rest {
            let b = rest % 256;
            let c = counts[b];
            if 11 < c {
                return true;
            }
            counts[b] = c + 1;
            rest = rest / 256;
        }
    }
    false
}

// Puts so many names from a place on into the words from word q on, by the first of 8 keys by which no mark is that of many, or by the last; that
// key, if all could be put.
fn fill_keyed(doc: &[u8], first: usize, many: usize, table: &mut [usize], q: usize) -> Option<usize>
    requires many_bound { many ≤ 255 }
    requires many_in_bounds { q + (many + 5) / 6 ≤ length table.old }
    ensures { FillsKeyed doc.now first many table.old q result table.new }
{
    let words = (many + 5) / 6;
    let mut key = 0;
    if !fill_words(doc, first, many, key, table, q) {
        return None;
    }
    for next in 1..8 {
        if !is_worn(table, q, words) {
            return Some(key);
        }
        key = next;
        if !fill_words(doc, first, many, key, table, q) {
            return None;
        }
    }
    Some(key)
}

// Puts the variants of the list at a place into a segment from word q on, if they are more than 16 and there is room; how many words it takes.
fn fill_segment(doc: &[u8], list: usize, table: &mut [usize], q: usize) -> usize
    requires { q ≤ length table.old }
    ensures { Segmented doc.now list table.old q result table.new }
{
    let e = entries_at(doc, list);
    let many = e.many as usize;
    if many < 17 {
        return 0;
    }
    let words = (many + 5) / 6;
    if table.len() - q <= words {
        return 0;
    }
    let f = fill_keyed(doc, e.first, many, table, q + 1);
    let Some(key) = f else {
        return 0;
    };
    table[q] = words + 256 * key;
    words + 1
}

// Gives the list of pair i a segment from word q on, if it can have one; the word after it.
fn index_enum(doc: &[u8], table: &mut [usize], i: usize, q: usize) -> usize
    requires in_bounds { 829 ≤ length table.old }
    requires doc_len_bound { length doc.now ≤ 65535 }
    requires i_bound { 2 * i + 1 < q }
    requires q_in_bounds { q ≤ length table.old }
    ensures { IndexedOne doc.now table.old i q result table.new }
{
    let under = 2 * i + 1;
    let list = table[under];
    if 65535 < list {
        table[under] = 65535;
        return q;
    }
    let r = fill_segment(doc, list, table, q);
    if r == 0 {
        return q;
    }
    table[under] = 65536 + q;
    q + r
}

// Gives the long lists of the first n pairs segments behind the block.
fn index_enums(doc: &[u8], table: &mut [usize], n: usize)
    requires in_bounds { 829 ≤ length table.old }
    requires n_bound { n ≤ 255 }
    ensures { Indexed doc.now table.old n table.new }
{
    if 65535 < doc.len() {
        return;
    }
    let mut q: usize = 829;
    for i in 0..n {
        q = index_enum(doc, table, i, q);
    }
}

// Fills the block that a table begins with from the list of enums at a place.
pub fn fill_enums(doc: &[u8], at: usize, table: &mut [usize])
    requires { 829 ≤ length table.old }
    ensures keeps_enums { KeepsEnums doc.now (pairs_at doc.now at) table.new }
    ensures table_len_unchanged { length table.new ≡ length table.old }
{
    let n = fill_table(doc, at, table) / 2;
    weave(doc, table, 0, n);
    index_enums(doc, table, n);
}
