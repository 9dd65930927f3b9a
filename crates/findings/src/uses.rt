// Variants of a group of events that patterns use.
ghost use Rattle.std.specs.Prelude.{◌≡◌, ◌<◌, ◌≤◌, length};
ghost use Rattle.findings.specs.Classes.{Tabled};
ghost use Rattle.findings.specs.Uses.{AddsVariant, AddsUse, GroupPrint, UsesOf, HasVariant, IsUsed};

use crate::prints::tabulate;
use crate::rows::field;
use crate::variants::{fill_variant, is_variant};
use reading::text_at;
use typing::{after, after_head, after_tag, first_variant, null_at, print_bytes, same};

// How many variants the patterns of a group name, and whether one of them names none.
#[derive(Clone, Copy)]
pub struct Uses {
    pub named: u8,
    pub bare: bool,
}

// The pattern's variant at a place is added: its name goes into the table.
pub(crate) fn add_variant(
    doc: &[u8],
    at: usize,
    table: &mut [usize; 510],
    hints: &mut [u8; 256],
    u: Uses,
) -> Uses
    requires { u.named < 255 }
    ensures { AddsVariant doc.now at table.old u table.new result }
{
    let named = u.named;
    if null_at(doc, at) {
        return Uses { named, bare: true };
    }
    let key = after_tag(doc, at);
    fill_variant(doc, key, named as u64, table, hints);
    Uses {
        named: named + 1,
        bare: u.bare,
    }
}

// The same of the pattern at a place, where it is of the group.
pub(crate) fn add_use<'a>(
    doc: &'a [u8],
    at: usize,
    group: &'a [u8],
    table: &mut [usize; 510],
    hints: &mut [u8; 256],
    u: Uses,
) -> Uses
    requires { u.named < 255 }
    ensures { AddsUse doc.now at group.now table.old u table.new result }
{
    let name = after_head(doc, at);
    if same(text_at(doc, name), group) {
        let variant = after(doc, name);
        return add_variant(doc, variant, table, hints, u);
    }
    u
}

// The print of the group's name in the pattern of transition i.
fn print_group(doc: &[u8], rows: &[usize], i: u8) -> u32
    ensures { GroupPrint doc.now rows.now i result }
{
    let name = after_head(doc, field(rows, i, 2));
    print_bytes(text_at(doc, name), 0)
}

// The prints of the groups' names in the patterns.
pub(crate) fn print_groups(doc: &[u8], rows: &[usize], count: u8) -> [u32; 256]
    ensures { Tabled (GroupPrint doc.now rows.now) count result }
{
    tabulate(count, |i| print_group(doc, rows, i))
}

// The same of all transitions: a pattern is of another group where the prints of their names differ.
pub(crate) fn fill_uses<'a>(
    doc: &'a [u8],
    rows: &'a [usize],
    marks: &'a [u32; 256],
    count: u8,
    group: &'a [u8],
    table: &mut [usize; 510],
    hints: &mut [u8; 256],
) -> Uses
    requires { Tabled (GroupPrint doc.now rows.now) count marks.now }
    ensures { UsesOf doc.now rows.now count group.now table.new result }
{
    let mark = print_bytes(group, 0);
    let mut u = Uses {
        named: 0,
        bare: false,
    };
    for i in 0..count {
        if marks[i as usize] == mark {
            u = add_use(doc, field(rows, i, 2), group, table, hints, u);
        }
    }
    u
}

// Whether the list of variants that was found has one of the name.
pub(crate) fn has_variant<'a>(doc: &'a [u8], found: Option<usize>, name: &'a [u8]) -> bool
    ensures { HasVariant doc.now found name.now result }
{
    let Some(at) = found else {
        return false;
    };
    first_variant(doc, at, name).is_some()
}

// Whether patterns use the variant whose name stands at a place: one without variant uses those of the first group, which were found.
pub(crate) fn is_used<'a>(
    doc: &'a [u8],
    found: Option<usize>,
    names: &'a [usize],
    hints: &'a [u8; 256],
    bare: bool,
    at: usize,
) -> bool
    ensures { IsUsed doc.now found names.now bare at result }
{
    let name = text_at(doc, at);
    is_variant(doc, names, hints, at, print_bytes(name, 0)) || bare && has_variant(doc, found, name)
}
