// A table of names, two words each: the print of a name and its place. A name is looked up by its print, and by its bytes only where
// the prints are equal; first where a hint says, which is the number of a name whose print has the same remainder.
ghost use Rattle.std.specs.Prelude.{◌≡◌, ◌+◌, ◌*◌, ◌<◌, ◌≤◌, ◌^◌, length};
ghost use Rattle.findings.specs.Variants.{put_variant, StandsAt, Hinted, IsVariant, NamesFilled, StatesFilled};
ghost use Rattle.findings.specs.Promises.{NotesVariant};

use crate::sheet::emit_if;
use reading::{Cursor, text_at};
use typing::{after, print_bytes, same_name};

// Puts the two words of the name at a place, number j of the table, and the hint to it.
pub(crate) fn fill_variant(
    doc: &[u8],
    at: usize,
    j: u64,
    variants: &mut [usize; 510],
    hints: &mut [u8; 256],
)
    requires { j ≤ 254 }
    ensures { variants.new ≡ put_variant doc.now at j variants.old }
{
    let p = print_bytes(text_at(doc, at), 0);
    let w = 2 * (j as usize);
    variants[w] = p as usize;
    variants[w + 1] = at;
    let h = (p % 256) as usize;
    hints[h] = j as u8;
}

// Fills the table of the names of the list at a place; how many words it takes.
fn fill_variants(doc: &[u8], at: usize, variants: &mut [usize; 510], hints: &mut [u8; 256]) -> usize
    ensures names_filled { NamesFilled doc.now at result variants.new }
    ensures upper_bound { result ≤ 510 }
{
    let c = Cursor { at };
    let a = c.count(doc, 255);
    let Ok((many, first)) = a else {
        return 0;
    };
    let mut k = first.at;
    for j in 0..many {
        fill_variant(doc, k, j, variants, hints);
        k = after(doc, k);
    }
    2 * (many as usize)
}

// Fills the table of the State variants; how many words it takes.
pub(crate) fn fill_states(
    doc: &[u8],
    found: Option<usize>,
    variants: &mut [usize; 510],
    hints: &mut [u8; 256],
) -> usize
    ensures states_filled { StatesFilled doc.now found result variants.new }
    ensures upper_bound { result ≤ 510 }
{
    let Some(at) = found else {
        return 0;
    };
    fill_variants(doc, at, variants, hints)
}

// Whether the name at a place, which has the print, is name number j of them.
fn stands_at(doc: &[u8], variants: &[usize], at: usize, print: u32, j: usize) -> bool
    requires { 2 * j + 1 < length variants.now }
    ensures { StandsAt doc.now variants.now at print j result }
{
    variants[2 * j] == print as usize && same_name(doc, variants[2 * j + 1], at)
}

// Whether it is one of them, each by itself.
fn is_listed(doc: &[u8], variants: &[usize], at: usize, print: u32) -> bool
    ensures { IsVariant doc.now variants.now at print result }
{
    let many = variants.len() / 2;
    for j in 0..many {
        if stands_at(doc, variants, at, print, j) {
            return true;
        }
    }
    false
}

// Whether it is the one that is hinted at; false where there is none of that number.
fn is_hinted(doc: &[u8], variants: &[usize], at: usize, print: u32, hint: u8) -> bool
    ensures { Hinted doc.now variants.now at print result }
{
    let j = hint as usize;
    j < variants.len() / 2 && stands_at(doc, variants, at, print, j)
}

// Whether it is one of them, the one that is hinted at first.
pub(crate) fn is_variant(
    doc: &[u8],
    variants: &[usize],
    hints: &[u8; 256],
    at: usize,
    print: u32,
) -> bool
    ensures { IsVariant doc.now variants.now at print result }
{
    let hint = hints[(print % 256) as usize];
    is_hinted(doc, variants, at, print, hint) || is_listed(doc, variants, at, print)
}

// The name at a place, which has the print, where it is none of them.
pub(crate) fn note_variant<'a>(
    doc: &'a [u8],
    variants: &'a [usize],
    hints: &'a [u8; 256],
    at: usize,
    print: u32,
    out: &mut [u32],
    skip: usize,
    n: usize,
    owner: u32,
    site: u32,
    first: u32,
) -> usize
    requires { n + 1 ≤ 2 ^ 40 }
    ensures notes_variant { NotesVariant doc.now owner out.old skip n result out.new variants.now at print site first }
    ensures upper_bound { result ≤ n + 1 }
{
    let known = is_variant(doc, variants, hints, at, print);
    emit_if(!known, out, skip, n, owner, site, first, 0)
}
