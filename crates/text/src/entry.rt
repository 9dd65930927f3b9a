// Entries of lists, by their number.
ghost use Rattle.std.specs.Prelude.{◌≡◌, ◌≤◌};
ghost use Rattle.reading.specs.Limits.{max_list};
ghost use Rattle.text.specs.Near.{Kept, Starts, PickedFrom};
ghost use Rattle.text.specs.Says.{Picked};

use reading::Cursor;
use typing::after;

// An entry that was looked up: the place of its list, its number there, and its own place. The next is often not far behind it.
#[derive(Clone, Copy, Debug, PartialEq, Eq)]
pub struct Near {
    pub list: usize,
    pub number: usize,
    pub place: usize,
}

// An entry's number and its place.
#[derive(Clone, Copy)]
pub struct Numbered {
    pub number: usize,
    pub place: usize,
}

// Where to look for entry k of the list at a place: from the near entry on, if it is one of the list and not past k; or from the first.
#[tactic(auto, using(crate::proofs::EntryLaws::starts_near, crate::proofs::EntryLaws::starts_first))]
fn start_at(near: Option<Near>, at: usize, k: usize, first: usize) -> Numbered
    ensures starts { Starts near at first result }
    ensures number_le_k { result.number ≤ k }
{
    match near {
        Some(x) if x.list == at && x.number <= k => Numbered {
            number: x.number,
            place: x.place,
        },
        _ => Numbered {
            number: 0,
            place: first,
        },
    }
}

// The place of entry k of the list at a place, which has at most so many.
pub(crate) fn entry_of(
    doc: &[u8],
    at: usize,
    most: u64,
    k: usize,
    near: Option<Near>,
) -> Option<usize>
    ensures { PickedFrom near most doc.now at k result }
{
    let c = Cursor { at };
    let Ok((many, first)) = c.count(doc, most) else {
        return None;
    };
    if many as usize <= k {
        return None;
    }
    let start = start_at(near, at, k, first.at);
    let mut here = start.place;
    for _i in start.number..k {
        here = after(doc, here);
    }
    Some(here)
}

// Entry k of a list that is none of modules.
#[tactic(auto, using(crate::proofs::EntryLaws::picked_from))]
pub(crate) fn entry_at(doc: &[u8], at: usize, k: usize, near: Option<Near>) -> Option<usize>
    requires { Kept max_list doc.now near }
    ensures { Picked max_list doc.now at k result }
{
    entry_of(doc, at, 255, k, near)
}

// Looks up entry k of the list at a place.
#[tactic(auto, using(crate::proofs::EntryLaws::up_here, crate::proofs::EntryLaws::kept_none))]
pub(crate) fn look_up(doc: &[u8], at: usize, k: usize, near: Option<Near>) -> Option<Near>
    requires { Kept max_list doc.now near }
    ensures { Kept max_list doc.now result }
{
    let place = entry_at(doc, at, k, near)?;
    Some(Near {
        list: at,
        number: k,
        place,
    })
}
