// The walk over transitions, each taken at most once: marks by place, and a queue of the places taken.
ghost use Rattle.std.specs.Prelude.{◌≡◌, ◌+◌, ◌<◌, ◌≤◌, length, set};
ghost use Rattle.typing.specs.Lanes.{print};
ghost use Rattle.findings.specs.PairPromises.{LeadsOn};
ghost use Rattle.findings.specs.Reaching.{Queued, Stepped, Swept, Walked, BeginsAt};
ghost use Rattle.findings.specs.Links.{lead_of, Links, Ahead, Heads};

use crate::links::{link_all, next_free};
use crate::pairs::leads_to;
use crate::prints::print_word;
use crate::rows::field;
use reading::text_at;
use typing::{print_bytes, same};

// Takes transition i; the queue's next place.
fn take(i: u8, marks: &mut [u8; 256], queue: &mut [u8; 256], tail: usize) -> usize
    requires i_in_bounds { i < length marks.old }
    requires tail_in_bounds { tail < length queue.old }
    ensures marks_after { marks.new ≡ set marks.old i 1 }
    ensures queue_after { queue.new ≡ set queue.old tail i }
    ensures value { result ≡ tail + 1 }
{
    let at = i as usize;
    marks[at] = 1;
    queue[tail] = i;
    tail + 1
}

// Takes transition i where it starts at the name, whose print is the code.
fn start_one<'a>(
    doc: &'a [u8],
    rows: &'a [usize],
    prints: &'a [u32; 768],
    count: u8,
    name: &'a [u8],
    code: u32,
    i: u8,
    marks: &mut [u8; 256],
    queue: &mut [u8; 256],
    tail: usize,
) -> usize
    requires queued { Queued count marks.old queue.old tail }
    requires i_lt_count { i < count }
    requires code_value { code ≡ print 0 name.now }
    ensures { Stepped (BeginsAt doc.now rows.now prints.now name.now) i marks.old queue.old tail marks.new queue.new result }
{
    let at = i as usize;
    if prints[3 * at] == code && marks[at] == 0 && same(text_at(doc, field(rows, i, 1)), name) {
        return take(i, marks, queue, tail);
    }
    tail
}

// Takes every transition that starts at the name.
pub(crate) fn start_all<'a>(
    doc: &'a [u8],
    rows: &'a [usize],
    prints: &'a [u32; 768],
    count: u8,
    name: &'a [u8],
    marks: &mut [u8; 256],
    queue: &mut [u8; 256],
) -> usize
    requires { Queued count marks.old queue.old 0 }
    ensures { Swept (BeginsAt doc.now rows.now prints.now name.now) count marks.old queue.old 0 count marks.new queue.new result }
{
    let code = print_bytes(name, 0);
    let mut tail: usize = 0;
    for i in 0..count {
        tail = start_one(doc, rows, prints, count, name, code, i, marks, queue, tail);
    }
    tail
}

// Takes transition i where p leads to its state.
fn step_one<'a>(
    doc: &'a [u8],
    rows: &'a [usize],
    prints: &'a [u32; 768],
    count: u8,
    p: u8,
    i: u8,
    marks: &mut [u8; 256],
    queue: &mut [u8; 256],
    tail: usize,
) -> usize
    requires queued { Queued count marks.old queue.old tail }
    requires i_lt_count { i < count }
    ensures { Stepped (LeadsOn doc.now rows.now prints.now count p) i marks.old queue.old tail marks.new queue.new result }
{
    if marks[i as usize] == 0 && leads_to(doc, rows, prints, p, i) {
        return take(i, marks, queue, tail);
    }
    tail
}

// Takes every transition to whose state p leads, from a place of its lane on.
fn follow<'a>(
    doc: &'a [u8],
    rows: &'a [usize],
    prints: &'a [u32; 768],
    count: u8,
    p: u8,
    links: &'a [u8; 256],
    from: u8,
    marks: &mut [u8; 256],
    queue: &mut [u8; 256],
    tail: usize,
) -> usize
    requires queued { Queued count marks.old queue.old tail }
    requires links { Links prints.now count links.now }
    requires ahead { Ahead prints.now count marks.old (lead_of prints.now p) from }
    ensures { Swept (LeadsOn doc.now rows.now prints.now count p) count marks.old queue.old tail count marks.new queue.new result }
{
    let mut t = tail;
    let mut i = from;
    // A lane is followed by its links, not counted.
    while i < count {
        t = step_one(doc, rows, prints, count, p, i, marks, queue, t);
        let k = i as usize;
        i = links[k];
    }
    t
}

// The same of the whole lane; its head goes on to the first that is not taken.
fn step_all<'a>(
    doc: &'a [u8],
    rows: &'a [usize],
    prints: &'a [u32; 768],
    count: u8,
    p: u8,
    heads: &mut [u8; 256],
    links: &'a [u8; 256],
    marks: &mut [u8; 256],
    queue: &mut [u8; 256],
    tail: usize,
) -> usize
    requires queued { Queued count marks.old queue.old tail }
    requires links { Links prints.now count links.now }
    requires heads { Heads prints.now count heads.old marks.old }
    ensures swept { Swept (LeadsOn doc.now rows.now prints.now count p) count marks.old queue.old tail count marks.new queue.new result }
    ensures heads_2 { Heads prints.now count heads.new marks.new }
{
    let h = (print_word(prints, p, 1) % 256) as usize;
    let from = heads[h];
    let t = follow(doc, rows, prints, count, p, links, from, marks, queue, tail);
    heads[h] = next_free(marks, links, count, from);
    t
}

// Marks every transition that a chain from the name takes.
pub(crate) fn walk<'a>(
    doc: &'a [u8],
    rows: &'a [usize],
    prints: &'a [u32; 768],
    count: u8,
    name: &'a [u8],
    marks: &mut [u8; 256],
    queue: &mut [u8; 256],
)
    requires { Queued count marks.old queue.old 0 }
    ensures { Walked (BeginsAt doc.now rows.now prints.now name.now) (LeadsOn doc.now rows.now prints.now count) count marks.new }
{
    let mut heads: [u8; 256] = [255; 256];
    let mut links: [u8; 256] = [0; 256];
    link_all(prints, count, &mut heads, &mut links);
    let mut tail = start_all(doc, rows, prints, count, name, marks, queue);
    // The queue grows while it is read, so no range stands for the loop.
    let mut head: usize = 0;
    while head < tail {
        let p = queue[head];
        tail = step_all(
            doc, rows, prints, count, p, &mut heads, &links, marks, queue, tail,
        );
        head += 1;
    }
}
