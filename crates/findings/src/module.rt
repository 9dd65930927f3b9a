// A module: its tables, its errors and its warnings.
ghost use Rattle.std.specs.Prelude.{◌≡◌, ◌+◌, ◌≤◌, ◌^◌, length};
ghost use Rattle.findings.specs.Scene.{with_table, GroupsFilled, OpensRest, Opens};
ghost use Rattle.typing.specs.Table.{pairs_at};
ghost use Rattle.findings.specs.Promises.{ClaimsSet};
ghost use Rattle.findings.specs.ModulePromises.{Names, NotesClosing};

use crate::claims::{note_formulas, note_repeats};
use crate::on_error::note_on_error;
use crate::rows::{Listed, fill_row, fill_rows, outputs_of};
use typing::{after, fill_block, fill_enums, fill_outputs, fill_table, store, word};

// Fills the table of the groups at a place from a word on; how many words it takes goes into another.
fn fill_group(doc: &[u8], at: usize, places: &mut [usize], w: usize, from: usize)
    requires { from + 510 ≤ length places.old }
    ensures { places.new ≡ with_table places.old w from (pairs_at doc.now at) }
{
    let end = from + 510;
    let many = fill_table(doc, at, &mut places[from..end]);
    store(places, w, many);
}

// The tables of events and of outputs behind the places of a module's fields.
fn fill_groups(doc: &[u8], places: &mut [usize])
    requires { 1544 ≤ length places.old }
    ensures { GroupsFilled doc.now places.old places.new }
{
    let events = word(places, 5);
    let outputs = word(places, 6);
    fill_group(doc, events, places, 11, 12);
    let end = places.len();
    fill_outputs(doc, outputs, &mut places[522..end]);
}

// The places of a module's last three fields, the first of which is known, and of its transitions' fields; how many transitions there are,
// and the module's end.
fn open_rest(doc: &[u8], transitions: usize, places: &mut [usize], rows: &mut [usize]) -> Listed
    ensures { OpensRest doc.now transitions places.old rows.old result places.new rows.new }
{
    store(places, 8, transitions);
    let listed = fill_rows(doc, transitions, rows);
    store(places, 9, listed.end);
    let assumptions = after(doc, listed.end);
    store(places, 10, assumptions);
    let end = after(doc, assumptions);
    Listed {
        count: listed.count,
        end,
    }
}

// Fills the tables of the module at a place: the places of its fields with its groups, and the places of its transitions' fields.
pub fn open_module(doc: &[u8], at: usize, places: &mut [usize], rows: &mut [usize]) -> Listed
    requires in_bounds { 1544 ≤ length places.old }
    requires in_bounds_2 { 2040 ≤ length rows.old }
    ensures { Opens doc.now at result places.new rows.new }
{
    let transitions = fill_row(doc, at, 8, places, 0);
    let listed = open_rest(doc, transitions, places, rows);
    fill_groups(doc, places);
    listed
}

// Fills the table of the properties and then the assumptions at two places; how many words it takes.
pub(crate) fn fill_claims(
    doc: &[u8],
    properties: usize,
    assumptions: usize,
    claims: &mut [usize],
) -> usize
    requires { length claims.old ≡ 1020 }
    ensures { ClaimsSet doc.now properties assumptions result claims.new }
{
    let first = fill_table(doc, properties, claims);
    let second = fill_table(doc, assumptions, &mut claims[first..1020]);
    first + second
}

// Fills the tables of names: variables, enums, properties and assumptions; how many words the last takes.
pub(crate) fn fill_names(
    doc: &[u8],
    places: &[usize],
    table: &mut [usize],
    enums: &mut [usize],
    claims: &mut [usize],
) -> usize
    requires in_bounds { 829 ≤ length table.old }
    requires in_bounds_2 { 829 ≤ length enums.old }
    requires claims_len { length claims.old ≡ 1020 }
    ensures { Names doc.now places.now result table.new enums.new claims.new }
{
    fill_block(doc, word(places, 7), table);
    fill_enums(doc, word(places, 3), enums);
    let properties = word(places, 9);
    let assumptions = word(places, 10);
    fill_claims(doc, properties, assumptions, claims)
}

// Sites 16 to 20.
pub(crate) fn note_closing<'a>(
    doc: &'a [u8],
    places: &'a [usize],
    found: Option<usize>,
    names: &'a [usize],
    enums: &'a [usize],
    claims: &'a [usize],
    out: &mut [u32],
    skip: usize,
    n: usize,
    owner: u32,
) -> usize
    requires claims_len_bound { length claims.now ≤ 1020 }
    requires n_bound { n + 1786 ≤ 2 ^ 40 }
    ensures notes_closing { NotesClosing doc.now owner out.old skip n result out.new places.now found names.now enums.now claims.now }
    ensures upper_bound { result ≤ n + 1786 }
{
    let at = word(places, 2);
    let outputs = outputs_of(places);
    let a = note_on_error(doc, at, found, outputs, names, enums, out, skip, n, owner);
    let b = note_repeats(doc, claims, out, skip, a, owner);
    note_formulas(doc, claims, names, enums, out, skip, b, owner)
}
