// Lanes of a table's names, by their prints and a key, so that a name is looked for only among those of its lane.
// There is no heap: the caller lends the table, the heads and the links, and how many pairs are in use stands beside them.
ghost use Rattle.std.specs.Prelude.{◌≡◌, ◌+◌, ◌*◌, ◌%◌, ◌^◌, ◌<◌, ◌≤◌, length};
ghost use Rattle.typing.specs.Table.{find_first, found};
ghost use Rattle.typing.specs.Lanes.{next_print, print_by, print, word_at, factor, spread, lane_by, Cleared, Lanes};

use crate::names::same;
use reading::text_at;

// The print after a word more, by a factor.
fn next_print(h: u32, w: u32, f: u32) -> u32
    ensures { result ≡ next_print f h w }
{
    let n = ((h as u64) + (w as u64)) % 4294967296 * (f as u64);
    ((n / 4294967296 + n % 4294967296) % 4294967296) as u32
}

// The four bytes from byte i on as a number, the first of them lowest.
pub(crate) fn four(bytes: &[u8], i: usize) -> u32
    requires { i + 4 ≤ length bytes.now }
    ensures { result ≡ word_at bytes.now i }
{
    let a = (bytes[i] as u32) + (bytes[i + 1] as u32) * 256;
    let b = (bytes[i + 2] as u32) + (bytes[i + 3] as u32) * 256;
    a + b * 65536
}

// The print of bytes after h, by a factor.
pub(crate) fn print_by(bytes: &[u8], h: u32, f: u32) -> u32
    ensures { result ≡ print_by f h bytes.now }
{
    let fours = bytes.len() / 4;
    let mut p = h;
    for k in 0..fours {
        p = next_print(p, four(bytes, 4 * k), f);
    }
    for i in 4 * fours..bytes.len() {
        p = next_print(p, bytes[i] as u32, f);
    }
    p
}

// The print of bytes after h.
pub fn print_bytes(bytes: &[u8], h: u32) -> u32
    ensures { result ≡ print h bytes.now }
{
    print_by(bytes, h, 2654435761)
}

// The factor of a key. Names that share a lane by one key are on many by another.
pub(crate) fn factor(key: usize) -> u32
    ensures { result ≡ factor key }
{
    2654435761 + 24000 * ((key % 65536) as u32)
}

// The print with its bits spread.
pub(crate) fn spread(p: u32) -> u32
    ensures { result ≡ spread p }
{
    let n = (p as u64) * 2654435769;
    (n % 4294967296) as u32
}

// The lane of a name by a key.
pub fn lane_of(name: &[u8], key: u16) -> usize
    ensures value { result ≡ lane_by key name.now }
    ensures upper_bound { result < 1024 }
{
    let p = print_by(name, 0, factor(key as usize));
    (spread(p) / 4194304) as usize
}

// What stands under a name in the first k pairs: the last.
pub fn lane_find<'a>(
    doc: &'a [u8],
    table: &'a [usize],
    k: usize,
    heads: &'a [u16],
    links: &'a [u16],
    name: &'a [u8],
) -> Option<usize>
    requires { Lanes doc.now table.now k heads.now links.now }
    ensures { result ≡ found (find_first doc.now name.now table.now k) }
{
    let mut p = heads[lane_of(name, heads[1024])];
    while 0 < p {
        let i = (p - 1) as usize;
        if same(text_at(doc, table[2 * i]), name) {
            return Some(table[2 * i + 1]);
        }
        p = links[i];
    }
    None
}

// Puts pair k on its lane.
fn lane_put(doc: &[u8], table: &[usize], k: usize, heads: &mut [u16], links: &mut [u16])
    requires lanes { Lanes doc.now table.now k heads.old links.old }
    requires k_in_bounds { 2 * k + 2 ≤ length table.now }
    requires k_in_bounds_2 { k < length links.old }
    requires k_bound { k < 65535 }
    ensures lanes_2 { Lanes doc.now table.now (k + 1) heads.new links.new }
    ensures links_len_unchanged { length links.new ≡ length links.old }
{
    let h = lane_of(text_at(doc, table[2 * k]), heads[1024]);
    links[k] = heads[h];
    heads[h] = (k + 1) as u16;
}

// Whether 24 pairs stand before pair k on its lane.
fn is_crowded(links: &[u16], k: usize) -> bool {
    let mut i = k;
    for _ in 0..24usize {
        if links.len() <= i {
            return false;
        }
        let p = links[i] as usize;
        if p == 0 {
            return false;
        }
        i = p - 1;
    }
    true
}

// Empties all lanes, and gives them a key.
fn clear_heads(heads: &mut [u16], key: u16)
    requires { length heads.old ≡ 1025 }
    ensures { Cleared heads.new }
{
    heads[..1024].fill(0);
    heads[1024] = key;
}

// Puts the first n pairs on their lanes by a key.
fn lane_all(doc: &[u8], table: &[usize], n: usize, key: u16, heads: &mut [u16], links: &mut [u16])
    requires heads_len { length heads.old ≡ 1025 }
    requires n_in_bounds { 2 * n ≤ length table.now }
    requires n_in_bounds_2 { n ≤ length links.old }
    requires n_bound { n ≤ 65535 }
    ensures lanes { Lanes doc.now table.now n heads.new links.new }
    ensures links_len_unchanged { length links.new ≡ length links.old }
{
    clear_heads(heads, key);
    for i in 0..n {
        lane_put(doc, table, i, heads, links);
    }
}

// Puts pair k on its lane. Where that is crowded all pairs go on other lanes, by the next key, up to the eighth.
pub fn lane_add(doc: &[u8], table: &[usize], k: usize, heads: &mut [u16], links: &mut [u16])
    requires lanes { Lanes doc.now table.now k heads.old links.old }
    requires k_in_bounds { 2 * k + 2 ≤ length table.now }
    requires k_in_bounds_2 { k < length links.old }
    requires k_bound { k < 65535 }
    ensures lanes_2 { Lanes doc.now table.now (k + 1) heads.new links.new }
    ensures links_len_unchanged { length links.new ≡ length links.old }
{
    lane_put(doc, table, k, heads, links);
    let key = heads[1024];
    if 6 < key {
        return;
    }
    if !is_crowded(links, k) {
        return;
    }
    lane_all(doc, table, k + 1, key + 1, heads, links);
}
