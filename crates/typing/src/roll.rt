// Rolls of the items of a list, by the prints of their names: the groups of outputs, and the variants of those that have many.
ghost use Rattle.std.specs.Prelude.{◌≡◌, ℕ, ◌+◌, ◌*◌, ◌<◌, ◌≤◌, length, get_or};
ghost use Rattle.typing.specs.Rolls.{print_of, name_at, roll_lane, Chained, StartsOn, next_from, PutsLinks, FindsOn, WithinTable, PutsItems, PutsHints, PutsKeyed, PutsRoll, RollsOne, FillsOutputs};

use crate::entries::entries_at;
use crate::fill::{after_head, after_tag};
use crate::lanes::{factor, print_by, spread};
use crate::names::{same, same_name};
use crate::table::after;
use reading::text_at;

// Where the name of the item at a place stands.
fn name_at(doc: &[u8], at: usize, tagged: bool) -> usize
    ensures { result ≡ name_at tagged doc.now at }
{
    if tagged {
        return after_tag(doc, at);
    }
    after_head(doc, at)
}

// The lane of a print, one of n.
fn roll_lane(p: u32, n: usize) -> usize
    requires { 0 < n }
    ensures value { result ≡ roll_lane n p }
    ensures upper_bound { result < n }
{
    (spread(p) / 65536) as usize % n
}

// The number of the first item of a print, by the n index words from word o on; n where no item has it.
fn roll_start(table: &[usize], o: usize, n: usize, p: u32) -> usize
    requires n_nonzero { 0 < n }
    requires n_bound { n ≤ 255 }
    requires n_in_bounds { o + n ≤ length table.now }
    ensures { StartsOn table.now o n p result }
{
    let mut h = table[o + roll_lane(p, n)] / 4294967296 % 256;
    for _ in 0..n {
        if h == 0 {
            return n;
        }
        if n < h {
            return n;
        }
        let w = table[o + (h - 1)];
        if w % 4294967296 == p as usize {
            return h - 1;
        }
        h = w / 1099511627776 % 256;
    }
    n
}

// The number of the first item with the name, on the roll at word q.
pub(crate) fn roll_find<'a>(
    doc: &'a [u8],
    table: &'a [usize],
    q: usize,
    tagged: bool,
    name: &'a [u8],
) -> Option<usize>
    ensures finds_on { FindsOn tagged doc.now name.now table.now q result }
    ensures within_table { WithinTable table.now q result }
{
    let len = table.len();
    if len <= q {
        return None;
    }
    let w = table[q];
    let n = w % 256;
    if n == 0 {
        return None;
    }
    if (len - q - 1) / 2 < n {
        return None;
    }
    let p = print_by(name, 0, factor(w / 256));
    let o = q + 1 + n;
    for i in roll_start(table, o, n, p)..n {
        if table[o + i] % 4294967296 == p as usize {
            if same(text_at(doc, name_at(doc, table[q + 1 + i], tagged)), name) {
                return Some(i);
            }
        }
    }
    None
}

// Puts the places of so many items from a place on behind word q, and the prints of their names by a key behind those.
fn put_items(
    doc: &[u8],
    first: usize,
    many: usize,
    tagged: bool,
    key: usize,
    table: &mut [usize],
    q: usize,
)
    requires many_bound { many ≤ 255 }
    requires many_in_bounds { q + 2 * many < length table.old }
    ensures { PutsItems tagged doc.now key first many table.old q table.new }
{
    let f = factor(key);
    let mut k = first;
    for i in 0..many {
        table[q + 1 + i] = k;
        table[q + 1 + many + i] = print_by(text_at(doc, name_at(doc, k, tagged)), 0, f) as usize;
        k = after(doc, k);
    }
}

// What an item is linked to, where its lane goes on at a hint: the item there, or where that has the same print what it is linked to.
fn next_from(table: &[usize], o: usize, i: usize, hint: u8, nexts: &[u8]) -> u8
    requires i_in_bounds { o + i < length table.now }
    requires hint_in_bounds { o + hint ≤ length table.now }
    requires nexts_len { length nexts.now ≡ 256 }
    ensures { result ≡ next_from table.now o i hint nexts.now }
{
    if hint == 0 {
        return 0;
    }
    let j = (hint - 1) as usize;
    if table[o + j] % 4294967296 == table[o + i] % 4294967296 {
        return nexts[j];
    }
    hint
}

// Links the n items whose index words stand from word o on along their lanes, from the last on.
fn link_items(table: &[usize], o: usize, n: usize, hints: &mut [u8], nexts: &mut [u8])
    requires n_bound { n ≤ 255 }
    requires n_in_bounds { o + n ≤ length table.now }
    requires hints_len { length hints.old ≡ 256 }
    requires nexts_len { length nexts.old ≡ 256 }
    requires by_index { (h : ℕ) → get_or hints.old h 0 ≡ 0 }
    ensures chained { Chained (λ i. print_of (get_or table.now (o + i) 0)) n (λ h. get_or hints.new h 0) (λ i. get_or nexts.new i 0) }
    ensures hints_len_2 { length hints.new ≡ 256 }
    ensures nexts_len_2 { length nexts.new ≡ 256 }
{
    for i in (0..n).rev() {
        let lane = roll_lane((table[o + i] % 4294967296) as u32, n);
        nexts[i] = next_from(table, o, i, hints[lane], nexts);
        hints[lane] = (i + 1) as u8;
    }
}

// Puts the hints and nexts of n items into their index words, from word o on.
fn put_links<'a>(table: &mut [usize], o: usize, n: usize, hints: &'a [u8], nexts: &'a [u8])
    requires n_bound { n ≤ 255 }
    requires n_in_bounds { o + n ≤ length table.old }
    requires hints_len { length hints.now ≡ 256 }
    requires nexts_len { length nexts.now ≡ 256 }
    ensures { PutsLinks table.old o n hints.now nexts.now table.new }
{
    for i in 0..n {
        let links = (hints[i] as usize) + (nexts[i] as usize) * 256;
        table[o + i] = table[o + i] % 4294967296 + links * 4294967296;
    }
}

// Gives the n index words from word o on their hints and nexts.
fn put_hints(table: &mut [usize], o: usize, n: usize)
    requires n_bound { n ≤ 255 }
    requires n_in_bounds { o + n ≤ length table.old }
    ensures { PutsHints table.old o n table.new }
{
    let mut hints = [0u8; 256];
    let mut nexts = [0u8; 256];
    link_items(table, o, n, &mut hints, &mut nexts);
    put_links(table, o, n, &hints, &nexts);
}

// Puts a roll of so many items from a place on from word q on, by a key.
fn put_roll(
    doc: &[u8],
    first: usize,
    many: usize,
    tagged: bool,
    key: usize,
    table: &mut [usize],
    q: usize,
)
    requires many_bound { many ≤ 255 }
    requires key_bound { key ≤ 7 }
    requires many_in_bounds { q + 2 * many < length table.old }
    ensures { PutsKeyed tagged doc.now first many table.old q table.new }
{
    table[q] = many + 256 * key;
    put_items(doc, first, many, tagged, key, table, q);
    put_hints(table, q + 1 + many, many);
}

// Whether item i, one of n on the roll at word q, has another name than the earlier one that a hint leads to.
fn is_other(
    doc: &[u8],
    table: &[usize],
    q: usize,
    n: usize,
    i: usize,
    hint: usize,
    tagged: bool,
) -> bool
    requires i_lt_n { i < n }
    requires n_in_bounds { q + 2 * n < length table.now }
{
    if hint == 0 {
        return false;
    }
    if i < hint {
        return false;
    }
    let j = hint - 1;
    let o = q + 1 + n;
    if table[o + i] % 4294967296 != table[o + j] % 4294967296 {
        return true;
    }
    !same_name(
        doc,
        name_at(doc, table[q + 1 + i], tagged),
        name_at(doc, table[q + 1 + j], tagged),
    )
}

// Whether on one lane of the roll at word q, which has n items, more than 12 have another name than the lane's first.
fn is_dull(doc: &[u8], table: &[usize], q: usize, n: usize, tagged: bool) -> bool
    requires n_bound { n ≤ 255 }
    requires n_in_bounds { q + 2 * n < length table.now }
{
    let mut counts = [0u8; 256];
    let o = q + 1 + n;
    for i in 0..n {
        let lane = roll_lane((table[o + i] % 4294967296) as u32, n);
        let hint = table[o + lane] / 4294967296 % 256;
        if is_other(doc, table, q, n, i, hint, tagged) {
            let c = counts[lane];
            if 11 < c {
                return true;
            }
            counts[lane] = c + 1;
        }
    }
    false
}

// Puts a roll of so many items from a place on from word q on, by the first of 8 keys by which it is not dull, or by the last.
fn put_keyed(doc: &[u8], first: usize, many: usize, tagged: bool, table: &mut [usize], q: usize)
    requires many_bound { many ≤ 255 }
    requires many_in_bounds { q + 2 * many < length table.old }
    ensures { PutsKeyed tagged doc.now first many table.old q table.new }
{
    put_roll(doc, first, many, tagged, 0, table, q);
    for key in 1..8 {
        if !is_dull(doc, table, q, many, tagged) {
            return;
        }
        put_roll(doc, first, many, tagged, key, table, q);
    }
}

// Puts a roll of the items of the list at a place from word q on, if there are so many at least and there is room; how many words it takes.
fn fill_roll(
    doc: &[u8],
    list: usize,
    tagged: bool,
    least: u64,
    table: &mut [usize],
    q: usize,
) -> usize
    requires { q ≤ length table.old }
    ensures puts_roll { PutsRoll tagged doc.now list table.old q result table.new }
    ensures upper_bound { result ≤ 511 }
    ensures result_nonzero { least ≡ 0 → q + 511 ≤ length table.old → 0 < result }
{
    let e = entries_at(doc, list);
    if e.many < least {
        return 0;
    }
    let many = e.many as usize;
    if table.len() - q <= 2 * many {
        return 0;
    }
    put_keyed(doc, e.first, many, tagged, table, q);
    2 * many + 1
}

// Gives the variants of group k, one of n, a roll from word q on, if they can have one; the word after it.
fn roll_variants(doc: &[u8], table: &mut [usize], n: usize, k: usize, q: usize) -> usize
    requires k_lt_n { k < n }
    requires k_bound { 1 + n + k < q }
    requires q_in_bounds { q ≤ length table.old }
    ensures { RollsOne doc.now table.old n k q result table.new }
{
    if 65535 < q {
        return q;
    }
    let name = after_head(doc, table[1 + k]);
    let list = after(doc, name);
    let r = fill_roll(doc, list, true, 17, table, q);
    if r == 0 {
        return q;
    }
    let x = 1 + n + k;
    table[x] = table[x] % 281474976710656 + q * 281474976710656;
    q + r
}

// How many words the roll of so many variants takes; those of few have none.
fn roll_words(many: u64) -> usize
    ensures { result ≤ 511 }
{
    if many < 17 {
        return 0;
    }
    if 255 < many {
        return 0;
    }
    2 * (many as usize) + 1
}

// Whether the rolls of the list of groups at a place take more words than there are.
pub fn outgrows(doc: &[u8], at: usize, room: usize) -> bool {
    let e = entries_at(doc, at);
    let mut words = 2 * (e.many as usize) + 1;
    let mut k = e.first;
    for _ in 0..e.many {
        let variants = after(doc, after_head(doc, k));
        words += roll_words(entries_at(doc, variants).many);
        if room < words {
            return true;
        }
        k = after(doc, k);
    }
    false
}

// Fills a table of outputs from the list of groups at a place: a roll of the groups, and of the variants of those that have many.
pub fn fill_outputs(doc: &[u8], at: usize, table: &mut [usize])
    requires { 511 ≤ length table.old }
    ensures { FillsOutputs doc.now at table.old table.new }
{
    let mut q = fill_roll(doc, at, false, 0, table, 0);
    let n = table[0] % 256;
    for k in 0..n {
        q = roll_variants(doc, table, n, k, q);
    }
}
