// The lines of findings, by their words.
ghost use Rattle.std.specs.Prelude.{◌≡◌, ◌<◌, ◌≤◌, ◌+◌, ◌*◌, length, get_or};
ghost use Rattle.reading.specs.Limits.{max_list};
ghost use Rattle.text.specs.Near.{Kept};
ghost use Rattle.text.specs.Bound.{BoundTo};

use crate::output::Page;
use findings::Ready;
use text::{Bound, Done, Near, look_up_finding, put_bytes, put_finding, put_warning};

// What a finding's words say: its site, and two places.
#[derive(Clone, Copy)]
pub(crate) struct Finding {
    site: u32,
    first: usize,
    second: usize,
}

// All findings of a document of one kind, errors or warnings: five words each.
#[derive(Clone, Copy)]
pub(crate) struct Listing<'a> {
    pub(crate) doc: &'a [u8],
    pub(crate) words: &'a [u32],
    pub(crate) all: usize,
    pub(crate) warning: bool,
    ghost doc_short: { length doc.now ≤ 0xffff },
    ghost all_few: { all ≤ 0xffff },
}

impl Listing<'_> {
    // A word of finding number i; 0 past the end.
    #[tactic(auto, using(typing::proofs::RollLaws::past_end))]
    fn word(self, i: usize, k: usize) -> u32
        requires { (i ≤ 0xffff) × (k < 5) }
        ensures { result ≡ get_or self.entry.words.now (5 * i + k) 0 }
    {
        self.words.get(5 * i + k).copied().unwrap_or(0)
    }

    // The number of its module.
    pub(crate) fn owner(self, i: usize) -> u32
        requires { i ≤ 0xffff }
    {
        self.word(i, 0)
    }

    pub(crate) fn finding(self, i: usize) -> Finding
        requires { i ≤ 0xffff }
    {
        Finding {
            site: self.word(i, 1),
            first: self.word(i, 2) as usize,
            second: self.word(i, 3) as usize,
        }
    }

    // Where the findings from number i on end that are of its module.
    pub(crate) fn run_end(self, i: usize) -> usize
        requires { i < self.all }
        ensures after { i < result }
        ensures within { result ≤ self.entry.all }
    {
        let owner = self.owner(i);
        for k in i + 1..self.all {
            if self.owner(k) != owner {
                return k;
            }
        }
        self.all
    }
}

// A module that is open: the places of its fields and of its transitions' fields, how many transitions it has, and its tables of enums and of
// properties and assumptions, which messages of errors alone need.
#[derive(Clone, Copy)]
pub(crate) struct Opened<'a> {
    pub(crate) doc: &'a [u8],
    pub(crate) places: &'a [usize],
    pub(crate) rows: &'a [usize],
    pub(crate) count: u8,
    pub(crate) known: Ready,
    pub(crate) enums: &'a [usize],
    pub(crate) claims: &'a [usize],
    ghost doc_short: { length doc.now ≤ 0xffff },
    ghost claims_there: { known.claims ≤ length claims.now },
}

impl Opened<'_> {
    // The entry that a finding is about, from the one that was looked up before.
    pub(crate) fn look_up(self, finding: Finding, near: Option<Near>) -> Option<Near>
        requires { Kept max_list self.doc.now near }
        ensures { Kept max_list self.entry.doc.now result }
    {
        let Finding {
            site,
            first,
            second,
        } = finding;
        look_up_finding(
            self.doc,
            self.places,
            self.rows,
            self.known,
            site,
            first,
            second,
            near,
        )
    }

    // Puts the message of a finding from a place on. A warning's needs no table of names.
    fn put_message(
        self,
        finding: Finding,
        table: &mut [usize; 1658],
        out: &mut [u8],
        at: usize,
        near: Option<Near>,
        bound: Option<Bound>,
    ) -> Done
        requires kept { Kept max_list self.doc.now near }
        requires bound_to { BoundTo self.doc.now self.places.now self.rows.now table.old bound }
        requires at_bound { at ≤ 0xffff }
        ensures bound_to_2 { BoundTo self.entry.doc.now self.entry.places.now self.entry.rows.now table.new result.bound }
        ensures end_bound { result.end ≤ 0xff_ffff }
    {
        let Opened {
            doc,
            places,
            rows,
            count,
            known,
            enums,
            claims,
        } = self;
        let Finding {
            site,
            first,
            second,
        } = finding;
        if 20 < site {
            let found = known.found;
            let end = put_warning(
                doc, places, rows, count, found, site, first, second, out, at, near,
            );
            return Done { end, bound };
        }
        put_finding(
            doc, places, rows, count, known, table, enums, claims, site, first, second, out, at,
            near, bound,
        )
    }

    // Puts the line of a finding on a page.
    pub(crate) fn put_line(
        self,
        finding: Finding,
        warning: bool,
        table: &mut [usize; 1658],
        page: &mut Page,
        near: Option<Near>,
        bound: Option<Bound>,
    ) -> Option<Bound>
        requires kept { Kept max_list self.doc.now near }
        requires bound_to { BoundTo self.doc.now self.places.now self.rows.now table.old bound }
        ensures { BoundTo self.entry.doc.now self.entry.places.now self.entry.rows.now table.new result }
    {
        let start = if warning {
            put_bytes(&mut page.bytes, page.at, b"warning: ")
        } else {
            page.at
        };
        let done = self.put_message(finding, table, &mut page.bytes, start, near, bound);
        let end = put_bytes(&mut page.bytes, done.end, b"\n");
        page.end_line(end);
        done.bound
    }
}
