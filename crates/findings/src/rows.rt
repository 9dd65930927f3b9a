// Tables of places: the fields of a record, and of each transition of a list.
ghost use Rattle.std.specs.Prelude.{◌≡◌, [], ◌∷◌, ◌<◌, ◌≤◌, length, get_or, take, drop, IfSome};
ghost use Rattle.std.proofs.lemmas.List.Edits.{sets};
ghost use Rattle.findings.specs.Scene.{row_from, end_from, row_at, row_end, field, groups_in, events_in, outputs_in, PastBare, RowsFilled};
ghost use Rattle.typing.specs.Table.{Past};

use reading::Cursor;
use typing::{after, after_head, store, word};

// At most so many words of a table, from its start on.
fn front(table: &[usize], words: usize) -> &[usize]
    ensures { result.now ≡ take words table.now }
{
    &table[..words.min(table.len())]
}

// The words of a table from one on.
fn back(table: &[usize], from: usize) -> &[usize]
    ensures { result.now ≡ drop from table.now }
{
    &table[from.min(table.len())..]
}

// The table of groups that takes so many of the words from one on, and at most 510.
fn groups_in(places: &[usize], from: usize, words: usize) -> &[usize]
    ensures result_value { result.now ≡ groups_in places.now from words }
    ensures result_len_bound { length result.now ≤ 510 }
{
    front(front(back(places, from), 510), words)
}

// A module's groups of events.
pub fn events_of(places: &[usize]) -> &[usize]
    ensures result_value { result.now ≡ events_in places.now }
    ensures result_len_bound { length result.now ≤ 510 }
{
    groups_in(places, 12, word(places, 11))
}

// Its table of outputs.
pub fn outputs_of(places: &[usize]) -> &[usize]
    ensures { result.now ≡ outputs_in places.now }
{
    back(places, 522)
}

// The place of a field of transition i.
pub fn field(rows: &[usize], i: u8, f: u8) -> usize
    ensures { result ≡ field rows.now i f }
{
    let at = 8 * (i as usize) + f as usize;
    word(rows, at)
}

// The places of so many fields of the record at a place go into the table from word j on; the place after them.
pub(crate) fn fill_row(doc: &[u8], at: usize, fields: u8, table: &mut [usize], j: usize) -> usize
    requires { j ≤ 65535 }
    ensures value { result ≡ row_end fields doc.now at }
    ensures table_after { table.new ≡ sets table.old j (row_at fields doc.now at) }
{
    let mut k = after_head(doc, at);
    for f in 0..fields {
        let w = j + f as usize;
        store(table, w, k);
        k = after(doc, k);
    }
    k
}

// The place after the number at a place: one whose head takes two bytes, by them.
fn after_number(doc: &[u8], at: usize) -> usize
    ensures { Past doc.now at result }
{
    if at < doc.len() && 1 < doc.len() - at && doc[at] == 24 && 23 < doc[at + 1] {
        return at + 2;
    }
    after(doc, at)
}

// The place after the pattern whose group's short name stands at a place; none where it has a variant.
fn after_bare(doc: &[u8], name: usize) -> Option<usize>
    requires { name < length doc.now }
    ensures { IfSome result (PastBare doc.now name) }
{
    let b = doc[name];
    if b < 97 || 119 < b {
        return None;
    }
    let n = (b - 96) as usize;
    if doc.len() - name <= n + 1 {
        return None;
    }
    let end = name + 1 + n;
    if doc[end] != 246 {
        return None;
    }
    Some(end + 1)
}

// The place after the pattern at a place: one without variant, by its bytes.
fn after_pattern(doc: &[u8], at: usize) -> usize
    ensures { Past doc.now at result }
{
    if at < doc.len() && 1 < doc.len() - at && doc[at] == 130 {
        if let Some(end) = after_bare(doc, at + 1) {
            return end;
        }
    }
    after(doc, at)
}

// Puts four places into the table, from word j on.
fn put_four(table: &mut [usize], j: usize, a: usize, b: usize, c: usize, d: usize)
    requires { j ≤ 65535 }
    ensures { table.new ≡ sets table.old j (a ∷ b ∷ c ∷ d ∷ []) }
{
    store(table, j, a);
    store(table, j + 1, b);
    store(table, j + 2, c);
    store(table, j + 3, d);
}

// The places of the first four fields of a transition, the first at a place, go into the table from word j on; the place after them.
fn fill_front(doc: &[u8], at: usize, table: &mut [usize], j: usize) -> usize
    requires { j ≤ 65535 }
    ensures value { result ≡ end_from 4 doc.now at }
    ensures table_after { table.new ≡ sets table.old j (row_from 4 doc.now at) }
{
    let state = after_number(doc, at);
    let pattern = after(doc, state);
    let guard = after_pattern(doc, pattern);
    put_four(table, j, at, state, pattern, guard);
    after(doc, guard)
}

// The same of the last four.
fn fill_back(doc: &[u8], at: usize, table: &mut [usize], j: usize) -> usize
    requires { j ≤ 65535 }
    ensures value { result ≡ end_from 4 doc.now at }
    ensures table_after { table.new ≡ sets table.old j (row_from 4 doc.now at) }
{
    let emits = after(doc, at);
    let sets = after(doc, emits);
    let priority = after(doc, sets);
    put_four(table, j, at, emits, sets, priority);
    after(doc, priority)
}

// The same of all fields of the transition at a place.
fn fill_move(doc: &[u8], at: usize, table: &mut [usize], j: usize) -> usize
    requires { j ≤ 65531 }
    ensures value { result ≡ row_end 8 doc.now at }
    ensures table_after { table.new ≡ sets table.old j (row_at 8 doc.now at) }
{
    let first = after_head(doc, at);
    let half = fill_front(doc, first, table, j);
    fill_back(doc, half, table, j + 4)
}

// How many records a list has, and the place after it.
#[derive(Clone, Copy)]
pub struct Listed {
    pub count: u8,
    pub end: usize,
}

// The places of the fields of each transition of the list at a place go into the table.
pub(crate) fn fill_rows(doc: &[u8], at: usize, table: &mut [usize]) -> Listed
    ensures { RowsFilled doc.now at table.old result table.new }
{
    let c = Cursor { at };
    let a = c.count(doc, 255);
    let Ok((count, first)) = a else {
        return Listed { count: 0, end: at };
    };
    let mut k = first.at;
    for i in 0..count as usize {
        k = fill_move(doc, k, table, 8 * i);
    }
    Listed {
        count: count as u8,
        end: k,
    }
}
