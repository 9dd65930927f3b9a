// What is said of two transitions, of a transition's id and of its guard's equalities: sites 14, 15, 24, 25 and 26.
ghost use Rattle.text.specs.Says.{NumberAt, SaysPriority, SaysPair, SaysId, SaysClash};

use crate::said::{Arg, Said, two};
use findings::field;
use reading::Cursor;
use typing::{Clash, contradictory_equalities, null_at, word};

// The number at a place; 0 where none stands there.
pub(crate) fn number_at(doc: &[u8], at: usize) -> u64
    ensures { NumberAt doc.now at result }
{
    let c = Cursor { at };
    match c.number(doc, u64::MAX) {
        Ok((n, _)) => n,
        Err(_) => 0,
    }
}

// Site 14: of the priority that transitions i and j have.
#[tactic(auto, using(crate::proofs::PairLaws::priority_absent, crate::proofs::PairLaws::priority_said_lem))]
pub(crate) fn say_priority<'a>(
    doc: &'a [u8],
    places: &'a [usize],
    rows: &'a [usize],
    i: u8,
    j: u8,
) -> Option<Said>
    ensures { SaysPriority doc.now places.now rows.now i j result }
{
    let at = field(rows, i, 7);
    if null_at(doc, at) {
        return None;
    }
    let priority = number_at(doc, at);
    let a = number_at(doc, field(rows, i, 0));
    let b = number_at(doc, field(rows, j, 0));
    Some(Said {
        args: [
            Arg::Name(word(places, 0)),
            Arg::Name(field(rows, i, 1)),
            Arg::Number(priority),
            Arg::Number(a),
            Arg::Number(b),
        ],
        blame: Ok(()),
    })
}

// Sites 15 and 24: of transitions i and j.
#[tactic(auto, using(crate::proofs::PairLaws::pair_said_lem))]
pub(crate) fn say_pair<'a>(
    doc: &'a [u8],
    places: &'a [usize],
    rows: &'a [usize],
    i: u8,
    j: u8,
) -> Option<Said>
    ensures { SaysPair doc.now places.now rows.now i j result }
{
    let a = number_at(doc, field(rows, i, 0));
    let b = number_at(doc, field(rows, j, 0));
    Some(Said {
        args: [
            Arg::Name(word(places, 0)),
            Arg::Name(field(rows, i, 1)),
            Arg::Number(a),
            Arg::Number(b),
            Arg::Blank,
        ],
        blame: Ok(()),
    })
}

// Site 25: of transition i, by its id.
pub(crate) fn say_id<'a>(
    doc: &'a [u8],
    places: &'a [usize],
    rows: &'a [usize],
    i: u8,
) -> Option<Said>
    ensures { SaysId doc.now places.now rows.now i result }
{
    let id = number_at(doc, field(rows, i, 0));
    two(Arg::Name(word(places, 0)), Arg::Number(id), Ok(()))
}

// Site 26: of the values that its guard compares a name with.
pub(crate) fn say_clash<'a>(
    doc: &'a [u8],
    places: &'a [usize],
    rows: &'a [usize],
    i: u8,
) -> Option<Said>
    ensures { SaysClash doc.now places.now rows.now i result }
{
    let at = field(rows, i, 3);
    if null_at(doc, at) {
        return None;
    }
    let end = field(rows, i, 4);
    let c = contradictory_equalities(doc, at, end, 32);
    let Some(
        Clash {
            name,
            earlier,
            later,
        },
    ) = c
    else {
        return None;
    };
    let id = number_at(doc, field(rows, i, 0));
    Some(Said {
        args: [
            Arg::Name(word(places, 0)),
            Arg::Number(id),
            Arg::Name(name),
            Arg::Number(earlier),
            Arg::Number(later),
        ],
        blame: Ok(()),
    })
}
