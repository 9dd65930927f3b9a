// The lines of all findings and the last line, in one page: it is printed when it is nearly full, and at the end.
ghost use Rattle.std.specs.Prelude.{◌≤◌, length};

use crate::line::Listing;
use crate::module::{Reached, Tables, print_module};
use crate::output::Page;
use findings::Counts;
use std::io::Stdout;

// The lines of one list, of errors or of warnings.
#[tactic(auto, using(text::proofs::EntryLaws::no_module_kept))]
fn print_list(list: Listing, places: &mut [usize; 1544], tables: &mut Tables, page: &mut Page) {
    let mut done = Reached {
        next: 0,
        near: None,
    };
    // Each turn puts the lines of a module, as many as there are.
    while done.next < list.all {
        done = print_module(list, done, places, tables, page);
    }
}

// The lines of both lists, and the last. Its frame is touched on entry, so it is called only where there is a finding.
pub(crate) fn print_lists(out: Stdout, doc: &[u8], errors: &[u32], warnings: &[u32], counts: Counts)
    requires doc_short { length doc.now ≤ 0xffff }
    requires errors_few { counts.errors ≤ 0xffff }
    requires warnings_few { counts.warnings ≤ 0xffff }
{
    let errors = Listing {
        doc,
        words: errors,
        all: counts.errors,
        warning: false,
    };
    let warnings = Listing {
        doc,
        words: warnings,
        all: counts.warnings,
        warning: true,
    };
    let mut places = [0usize; 1544];
    let mut tables = Tables {
        rows: [0; 2040],
        names: [0; 1658],
        enums: [0; 2365],
        claims: [0; 1020],
    };
    let mut page = Page {
        out,
        bytes: [0; 0x5000],
        at: 0,
    };
    print_list(errors, &mut places, &mut tables, &mut page);
    print_list(warnings, &mut places, &mut tables, &mut page);
    page.print_counts(counts);
}
