// The lines of a module's findings that follow one another: its tables are filled once for all of them.
ghost use Rattle.std.specs.Prelude.{◌<◌, ◌≤◌, Some};
ghost use Rattle.findings.specs.Scene.{Opens};
ghost use Rattle.text.specs.Near.{KeptModule, PickedModule};

use crate::line::{Listing, Opened};
use crate::output::Page;
use findings::{Listed, Ready, name_module, open_module, states_of};
use text::{Near, module_after, module_at};
use typing::{outgrows, word};

// How far a list is put: the number of the next finding, and the module after the last, which is near.
#[derive(Clone, Copy)]
pub(crate) struct Reached {
    pub(crate) next: usize,
    pub(crate) near: Option<Near>,
}

// Room for the tables of a module, but for the places of its fields: those of its transitions' fields, its names, its enums, and its properties
// and assumptions.
#[derive(Drop)]
pub(crate) struct Tables {
    pub(crate) rows: [usize; 2040],
    pub(crate) names: [usize; 1658],
    pub(crate) enums: [usize; 2365],
    pub(crate) claims: [usize; 1020],
}

// The findings of a list from a number on that are of one module: its number, and where it stands.
#[derive(Clone, Copy)]
struct Run<'a> {
    list: Listing<'a>,
    from: usize,
    k: usize,
    at: usize,
    ghost not_past: { from < list.all },
    ghost k_small: { k ≤ 0xffff_ffff },
    ghost picked: { PickedModule list.doc.now k (Some at) },
}

// The lines of a run, where the module's tables are filled; the number of the next finding.
#[tactic(auto, unfolding(text::specs::Near::Kept, text::specs::Bound::BoundTo))]
fn print_lines(run: Run, module: Opened, table: &mut [usize; 1658], page: &mut Page) -> usize
    ensures { run.entry.from < result }
{
    let list = run.list;
    let end = list.run_end(run.from);
    let mut near = None;
    let mut bound = None;
    for i in run.from..end {
        let finding = list.finding(i);
        near = module.look_up(finding, near);
        bound = module.put_line(finding, list.warning, table, page, near, bound);
    }
    end
}

// Fills the tables of names for errors; warnings need none.
fn name_for(list: Listing, places: &[usize], tables: &mut Tables) -> Ready
    ensures { result.claims ≤ 1020 }
{
    if list.warning {
        return Ready {
            found: states_of(list.doc, places),
            claims: 0,
        };
    }
    name_module(
        list.doc,
        places,
        &mut tables.names,
        &mut tables.enums,
        &mut tables.claims,
    )
}

// The same, where the places of the module's fields and of its transitions' fields are filled.
#[tactic(auto, using(text::proofs::WordsLaws::module_next))]
fn print_opened(
    run: Run,
    listed: Listed,
    places: &[usize],
    tables: &mut Tables,
    page: &mut Page,
) -> Reached
    requires { Opens run.list.doc.now run.at listed places.now tables.old.rows }
    ensures from_lt_next { run.entry.from < result.next }
    ensures kept_module { KeptModule run.entry.list.doc.now result.near }
{
    let doc = run.list.doc;
    let near = Some(module_after(doc, run.k, listed.end));
    let known = name_for(run.list, places, tables);
    let module = Opened {
        doc,
        places,
        rows: &tables.rows,
        count: listed.count,
        known,
        enums: &tables.enums,
        claims: &tables.claims,
    };
    let next = print_lines(run, module, &mut tables.names, page);
    Reached { next, near }
}

// The same, where they are not filled yet, with places that have room for some 7,900 variants of outputs.
fn print_wide(run: Run, tables: &mut Tables, page: &mut Page) -> Reached
    ensures from_lt_next { run.entry.from < result.next }
    ensures kept_module { KeptModule run.entry.list.doc.now result.near }
{
    let mut places = [0usize; 16384];
    let listed = open_module(run.list.doc, run.at, &mut places, &mut tables.rows);
    print_opened(run, listed, &places, tables, page)
}

// Whether the outputs of a module have more variants than its places have room for; warnings need none of them.
fn needs_room(list: Listing, places: &[usize]) -> bool {
    !list.warning && outgrows(list.doc, word(places, 6), 1022)
}

// The same with the places given. Where they have too little room it takes one turn less, and when none is left places of its own: that it calls itself
// keeps the frame of `print_wide` out of its own.
fn print_at(
    run: Run,
    turns: u8,
    places: &mut [usize; 1544],
    tables: &mut Tables,
    page: &mut Page,
) -> Reached
    ensures from_lt_next { run.entry.from < result.next }
    ensures kept_module { KeptModule run.entry.list.doc.now result.near }
{
    if turns == 0 {
        return print_wide(run, tables, page);
    }
    let listed = open_module(run.list.doc, run.at, places, &mut tables.rows);
    if needs_room(run.list, places) {
        return print_at(run, turns - 1, places, tables, page);
    }
    print_opened(run, listed, places, tables, page)
}

// How many turns it has. That it depends on the list keeps the compiler from doing away with them.
fn turns_for(list: Listing) -> u8 {
    if list.warning { 2 } else { 1 }
}

// The same for any module; where there is none, the list is at its end.
pub(crate) fn print_module(
    list: Listing,
    from: Reached,
    places: &mut [usize; 1544],
    tables: &mut Tables,
    page: &mut Page,
) -> Reached
    requires kept_module { KeptModule list.doc.now from.near }
    requires next_lt_all { from.next < list.all }
    ensures next_lt_next { from.next < result.next }
    ensures kept_module_2 { KeptModule list.entry.doc.now result.near }
{
    let Reached { next, near } = from;
    let k = list.owner(next) as usize;
    let Some(at) = module_at(list.doc, k, near) else {
        return Reached {
            next: list.all,
            near,
        };
    };
    let run = Run {
        list,
        from: next,
        k,
        at,
    };
    print_at(run, turns_for(list), places, tables, page)
}
