// All errors of a module.
ghost use Rattle.std.specs.Prelude.{◌≡◌, ◌+◌, ◌≤◌, ◌^◌, length, take};
ghost use Rattle.findings.specs.ModulePromises.{NotesFore, NotesMost, NotesClosing, NotesErrors};

use crate::module::note_closing;
use crate::opening::note_opening;
use crate::pairs::note_pairs;
use crate::transition::note_moves;

// Sites 1 to 13. The first block of the table has the module's variables.
fn note_fore<'a>(
    doc: &'a [u8],
    places: &'a [usize],
    rows: &'a [usize],
    prints: &'a [u32; 768],
    count: u8,
    found: Option<usize>,
    table: &mut [usize; 1658],
    enums: &'a [usize],
    out: &mut [u32],
    skip: usize,
    n: usize,
    owner: u32,
) -> usize
    requires { n + 131328 ≤ 2 ^ 40 }
    ensures notes_fore { NotesFore doc.now owner out.old skip n result out.new places.now found rows.now prints.now count (take 829 table.old) enums.now }
    ensures upper_bound { result ≤ n + 131328 }
    ensures table_unchanged { take 829 table.new ≡ take 829 table.old }
{
    let moves = 0 < count;
    let a = note_opening(
        doc,
        places,
        found,
        moves,
        &table[0..829],
        enums,
        out,
        skip,
        n,
        owner,
    );
    note_moves(
        doc, places, rows, prints, count, found, table, enums, out, skip, a, owner,
    )
}

// Sites 1 to 15.
fn note_most<'a>(
    doc: &'a [u8],
    places: &'a [usize],
    rows: &'a [usize],
    prints: &'a [u32; 768],
    count: u8,
    found: Option<usize>,
    table: &mut [usize; 1658],
    enums: &'a [usize],
    out: &mut [u32],
    skip: usize,
    n: usize,
    owner: u32,
) -> usize
    requires { n + 33294078 ≤ 2 ^ 40 }
    ensures notes_most { NotesMost doc.now owner out.old skip n result out.new places.now found rows.now prints.now count (take 829 table.old) enums.now }
    ensures upper_bound { result ≤ n + 33294078 }
    ensures table_unchanged { take 829 table.new ≡ take 829 table.old }
{
    let a = note_fore(
        doc, places, rows, prints, count, found, table, enums, out, skip, n, owner,
    );
    note_pairs(doc, rows, prints, count, false, out, skip, a, owner)
}

// Sites 16 to 20.
fn note_aft<'a>(
    doc: &'a [u8],
    places: &'a [usize],
    found: Option<usize>,
    table: &'a [usize; 1658],
    enums: &'a [usize],
    claims: &'a [usize],
    out: &mut [u32],
    skip: usize,
    n: usize,
    owner: u32,
) -> usize
    requires claims_len_bound { length claims.now ≤ 1020 }
    requires n_bound { n + 1786 ≤ 2 ^ 40 }
    ensures notes_closing { NotesClosing doc.now owner out.old skip n result out.new places.now found (take 829 table.now) enums.now claims.now }
    ensures upper_bound { result ≤ n + 1786 }
{
    let names = &table[0..829];
    note_closing(
        doc, places, found, names, enums, claims, out, skip, n, owner,
    )
}

// Sites 1 to 20.
pub(crate) fn note_errors<'a>(
    doc: &'a [u8],
    places: &'a [usize],
    rows: &'a [usize],
    prints: &'a [u32; 768],
    count: u8,
    found: Option<usize>,
    table: &mut [usize; 1658],
    enums: &'a [usize],
    claims: &'a [usize],
    out: &mut [u32],
    skip: usize,
    n: usize,
    owner: u32,
) -> usize
    requires n_bound { n + 33295864 ≤ 2 ^ 40 }
    requires claims_len_bound { length claims.now ≤ 1020 }
    ensures notes_errors { NotesErrors doc.now owner out.old skip n result out.new places.now found rows.now prints.now count (take 829 table.old) enums.now claims.now }
    ensures upper_bound { result ≤ n + 33295864 }
{
    let a = note_most(
        doc, places, rows, prints, count, found, table, enums, out, skip, n, owner,
    );
    note_aft(
        doc, places, found, table, enums, claims, out, skip, a, owner,
    )
}
