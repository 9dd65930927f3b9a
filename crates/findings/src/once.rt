// The names of a table of variables, each once, so that a mentioned name is compared with one of its variables and not with all.
ghost use Rattle.std.specs.Prelude.{◌≡◌, ◌+◌, ◌/◌, ◌<◌, ◌≤◌, length};
ghost use Rattle.reading.specs.Skip.{text_at};
ghost use Rattle.typing.specs.Table.{find_first};
ghost use Rattle.typing.specs.Lanes.{Laned};
ghost use Rattle.findings.specs.Touch.{TouchesAll, Numbered, GathersName, Gathered, own_mark, HandedOn};

use crate::lanes::Variables;
use crate::mentions::touch_all;
use reading::text_at;
use typing::{lane_add, lane_find};

// Puts the name at a place after the first m, with its number, where it is none of them; how many there are then.
fn gather_name(
    doc: &[u8],
    at: usize,
    once: &mut [usize],
    m: usize,
    heads: &mut [u16],
    links: &mut [u16],
) -> usize
    requires numbered { Numbered doc.now once.old m heads.old links.old }
    requires m_bound { m < 255 }
    ensures gathers_name { GathersName doc.now at once.old m result once.new heads.new links.new }
    ensures upper_bound { result ≤ m + 1 }
{
    let f = lane_find(doc, once, m, heads, links, text_at(doc, at));
    let None = f else {
        return m;
    };
    once[2 * m] = at;
    once[2 * m + 1] = m;
    lane_add(doc, once, m, heads, links);
    m + 1
}

// Gathers the names of a table of variables; how many differ.
fn gather(
    doc: &[u8],
    names: &[usize],
    once: &mut [usize],
    heads: &mut [u16],
    links: &mut [u16],
) -> usize
    requires laned { Laned 255 doc.now once.old 0 heads.old links.old }
    requires names_len_bound { length names.now ≤ 510 }
    ensures gathered { Gathered doc.now names.now (length names.now / 2) once.new result heads.new links.new }
    ensures upper_bound { result ≤ 255 }
{
    let many = names.len() / 2;
    let mut m: usize = 0;
    for k in 0..many {
        m = gather_name(doc, names[2 * k], once, m, heads, links);
    }
    m
}

// Whether the name at a place is marked among the m gathered.
fn is_marked<'a>(
    doc: &'a [u8],
    at: usize,
    once: &'a [usize],
    m: usize,
    heads: &'a [u16],
    links: &'a [u16],
    own: &'a [u8],
) -> bool
    requires numbered { Numbered doc.now once.now m heads.now links.now }
    requires m_in_bounds { m ≤ length own.now }
    ensures { result ≡ own_mark own.now (find_first doc.now (text_at doc.now at) once.now m) }
{
    let f = lane_find(doc, once, m, heads, links, text_at(doc, at));
    match f {
        Some(j) => own[j] == 1,
        None => false,
    }
}

// Marks the variables of a table whose names are marked among the m gathered.
fn hand_on<'a>(
    doc: &'a [u8],
    names: &'a [usize],
    once: &'a [usize],
    m: usize,
    heads: &'a [u16],
    links: &'a [u16],
    own: &'a [u8],
    marks: &mut [u8],
)
    requires numbered { Numbered doc.now once.now m heads.now links.now }
    requires m_in_bounds { m ≤ length own.now }
    ensures { HandedOn doc.now names.now (length names.now / 2) once.now m own.now marks.old marks.new }
{
    let many = names.len() / 2;
    for k in 0..many {
        if marks.len() <= k {
            return;
        }
        if is_marked(doc, names[2 * k], once, m, heads, links, own) {
            marks[k] = 1;
        }
    }
}

// Marks the variables of a table that are mentioned, by their names, each once.
pub(crate) fn touch_once<'a>(
    doc: &'a [u8],
    places: &'a [usize],
    rows: &'a [usize],
    count: u8,
    names: &'a [usize],
    marks: &mut [u8],
)
    requires { length names.now ≤ 510 }
    ensures { TouchesAll doc.now rows.now names.now marks.old marks.new places.now count }
{
    let mut once = [0usize; 510];
    let mut heads = [0u16; 1025];
    let mut links = [0u16; 255];
    let mut own = [0u8; 256];
    let m = gather(doc, names, &mut once, &mut heads, &mut links);
    let end = 2 * m;
    let vars = Variables {
        doc,
        names: &once[0..end],
        heads: &heads,
        links: &links,
    };
    touch_all(&vars, places, rows, count, &mut own);
    hand_on(doc, names, &once, m, &heads, &links, &own, marks);
}
